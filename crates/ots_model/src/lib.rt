//! The plain types of the transaction service, and the lines that tell what happened.
#![tactic(auto)]

pub use completion::{
    CallNumber, Disposition, Doubted, Ground, Heard as PhaseHeard, Outcome, Reason as PhaseReason,
    Receipt, Stood, Vote, Word as PhaseWord,
};
pub use line::{Decision, Line, ResourceState, different_lines_differ, text_reads_back};
pub use name::{NAME_LIMIT, Name};
pub use octets::{Octets, REFERENCE_LIMIT, RefBytes, RefFault};
pub use piece::{Piece, write_line};
pub use safety::{allowed_lines_are_safe, safety_refuses};
pub use service::{Endpoint, Join, RetryKey, Status};

mod completion;
mod line;
mod name;
mod octets;
mod piece;
mod row;
mod safety;
mod service;
pub mod tree;
mod words;
