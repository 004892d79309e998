//! What a line of a script names in a world of nodes: the deed that it is, or none, and then the line is refused.
#![tactic(auto)]

pub use lines::resolve;
pub use naming::node_named;

mod accepting;
mod calls;
mod lines;
mod makings;
mod naming;
mod touching;
