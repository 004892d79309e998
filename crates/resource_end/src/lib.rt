//! Resources with cells that outlive a crash: how each stands, what it answers, and what each call makes of them.
#![tactic(auto)]

pub use end::ResourceEnd;
pub use fault::EndFault;
pub use laws::{
    cells_are_applied, changes_store_once, choices_stay, crashes_leave_what_is_on_record,
    ends_play, held_cells_are_held, loads_tell_one_more, numbers_rise, puts_are_stored,
    records_tell_changes, resources_store_once, restarts_tell_one_more, words_follow_states,
};
pub use state::{Row, State, Word};

/// The value of an answer that is Ok; any other ends this function, with its fault as it is. It is `?` without a conversion.
macro_rules! ok {
    ($answer:expr) => {
        match $answer {
            Ok(value) => value,
            Err(fault) => return Err(fault),
        }
    };
}

mod asking;
mod cells;
mod contents;
mod end;
mod fault;
mod kept;
mod laws;
mod loading;
mod puts;
mod standing;
mod state;
