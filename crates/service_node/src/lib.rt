//! A node: the transactions that a service coordinates in one life, and the records of its journal that are told again.
#![tactic(auto)]

pub use node::{Node, NodeParts};
pub use passing::{Happening, Happenings};
pub use slots::Slots;

mod answers;
mod applying;
mod creation;
mod handing;
mod hearing;
mod naming;
mod node;
mod passing;
mod reading;
mod says;
mod slots;
