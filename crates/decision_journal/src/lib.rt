//! The journal of decisions: records that a crash at any moment can't break.
#![tactic(auto)]

pub use journal::{JournalFault, Standing};
pub use keeping::Journal;
pub use laws::{
    appends_are_safe, bodies_are_read, creations_are_safe, journals_grow, loads_are_safe,
    octets_mean_one_thing, octets_mean_something, octets_stand_for_one_list, payloads_tell_records,
};
pub use record::{CellsEnd, JournalRecord, Put, Puts, Registration, Registrations};

/// The value of an answer that is Ok; any other ends this function, with its fault as it is. It is `?` without a conversion.
macro_rules! ok {
    ($answer:expr) => {
        match $answer {
            Ok(value) => value,
            Err(fault) => return Err(fault),
        }
    };
}

mod disk_calls;
mod found;
mod journal;
mod keeping;
mod laws;
mod line;
mod loading;
mod reading;
mod record;
mod room;
mod scan;
mod writing;
