//! What holds of each node, by its definition, over its life and its crashes: which decision a commit word rests on, and whom it
//! names, that none is recorded of a family that is rolled back, and that numbers and lives are used once.
#![tactic(auto)]

pub use laws::{
    commits_rest, decisions_name_voters, dones_are_final, lives_rise_over_crashes,
    nodes_keep_rules, numbers_are_once, rollbacks_are_undecided,
};

mod laws;
