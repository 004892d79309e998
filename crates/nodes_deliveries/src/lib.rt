//! The messages of a world of nodes are delivered: a word comes to a resource, and a reply to the node that waits for it.
#![tactic(auto)]

pub use flowing::flow;
pub use hearing::heard_in;

mod again;
mod arriving;
mod flowing;
mod hearing;
mod waiting;
