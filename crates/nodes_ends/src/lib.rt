//! What a script does with the resources of ends in a world of nodes, and what these do by words.
#![tactic(auto)]

pub use ends::{obey, put, refuse};

mod ends;
