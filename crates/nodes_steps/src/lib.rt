//! What one line of a script does to what is known of its world.
#![tactic(auto)]

pub use laws::lines_keep_agreement;

mod laws;
