//! The server of a resource end: its cells are called within transactions, and its resources are told how these end.
#![tactic(auto)]

pub use servant::{EndServant, servants_of};
pub use ticking::tick_end;

mod answers;
mod asked;
mod cells;
mod servant;
mod ticking;
