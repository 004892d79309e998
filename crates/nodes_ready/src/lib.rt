//! Worlds of nodes that are ready for any deed of a script, and that stay so.
#![tactic(auto)]

pub use laws::{deeds_keep_clients, deeds_keep_worlds_ready, kept_worlds_stay_whole};

mod laws;
