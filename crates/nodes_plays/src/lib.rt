//! What the definitions of a world of nodes come to in the scripts of `examples/`, so that agreement speaks of something.
#![tactic(auto)]

pub use plays::agreement_is_met;

mod plays;
