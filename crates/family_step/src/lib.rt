//! A family of transactions, and its steps.
#![tactic(auto)]

pub use family::{Family, FamilyFault};

mod acting;
mod asking;
mod callers;
mod family;
mod ready;
mod registering;
mod step;
mod table;
