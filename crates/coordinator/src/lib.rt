//! A transaction and its subtransactions: what may happen to them, what each call is answered, and what goes out, as definitions and their laws.
#![tactic(auto)]

pub use call::{Ending, Leg, Stage, Superior};
pub use copies::copy_event;
pub use effect::{Effect, Effects};
pub use event::{Act, CALL_LIMIT, Event, HISTORY_LIMIT};
pub use laws::{
    answers_follow_phases, families_play, families_step_rightly, family_outcomes_stay,
    histories_grow_by_entries, keys_are_new, lives_rise, nodes_keep_numbers, nodes_play,
    records_have_what_they_answer, repeats_change_nothing, stale_answers_change_nothing,
};
pub use node::NodeFault;
pub use phase::{Column, Phase};
pub use said::{Answers, Entry, Finished, Said, StepAnswer};

mod call;
mod copies;
mod effect;
mod event;
mod laws;
mod node;
mod phase;
mod said;
