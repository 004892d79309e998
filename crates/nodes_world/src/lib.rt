//! A world of nodes and ends, as definitions: what each line of a script does to it, and what it tells.
#![tactic(auto)]

pub use deed::{Deed, Manner};
pub use laws::{
    appends_strike_disks, asked_journals_stay_in_order, commits_are_stored,
    decisions_are_told_again, decisions_outlive_crashes, deeds_are_changes, deeds_are_steps,
    dones_are_complete, hearings_may_ask, names_that_are_read_are_names, outcomes_last,
    reached_lines_are_safe, reached_worlds_are_known, records_are_read, resources_stay_over,
    steps_stay_known, stopped_appends_are_safe, what_is_left_is_an_image,
};
pub use message::{Content, KeptAct, Message};
pub use thing::Thing;

mod deed;
mod laws;
mod message;
mod thing;
