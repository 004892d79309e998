//! The lines that a world of nodes and ends tells, as octets.
#![tactic(auto)]

pub use journal::tell_journal;
pub use told::{
    tell_answered, tell_aware, tell_back, tell_called, tell_doubted, tell_down, tell_dropped,
    tell_known, tell_marked, tell_refused, tell_rolled_back, tell_rolled_back_by, tell_sent,
};
pub use words::operation_of;

mod answer;
mod journal;
mod told;
mod words;
