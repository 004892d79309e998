//! Who is registered with the transactions of a tree, what each voted, and whom the top asks.
#![tactic(auto)]

pub use laws::participants_are_committed_up;
pub use registration::{Registration, VoteFault};
pub use votes::{REGISTRATION_LIMIT, SYNCHRONIZATION_LIMIT, Votes};
pub use walk::Walk;

mod laws;
mod links;
mod registration;
mod votes;
mod walk;
