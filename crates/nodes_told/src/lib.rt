//! What the text of the lines that a world tells can be read as.
#![tactic(auto)]

pub use laws::{reached_lines_are_told, told_lines_are_read};

mod laws;
