//! Decisions that stand in the journal when their trees are gone: they are told again until each registration has completed.
#![tactic(auto)]

pub use finding::decision_at;
pub use held::{Due, Held, Kind, Parties, Party};
pub use laws::{completes_once, other_answers_change_nothing};
pub use outbox::Outbox;
pub use recovered::{Recovered, ReplayFault};

mod finding;
mod held;
mod laws;
mod outbox;
mod parties;
mod records;
mod recovered;
mod row;
mod telling;
mod trees;
mod waiting;
