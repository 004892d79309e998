//! The words of a service as requests to the objects that they are for.
#![tactic(auto)]

pub use words::{Sender, send};

mod words;
