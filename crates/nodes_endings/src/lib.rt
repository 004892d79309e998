//! What is told at the end of a script: the journal of each node.
#![tactic(auto)]

pub use journals::tell_journals;

mod journals;
