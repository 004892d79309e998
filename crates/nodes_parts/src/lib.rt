//! The parts of a world of nodes: its names, its messages, its ends with their resources, and what a crash inside a write
//! leaves of a disk.
#![tactic(auto)]

pub use disks::{Appended, Stop};
pub use ends::{End, Resource, answer_of_row, closed_by, shown_state, told_word};
pub use journals::{Gates, last_gates, next_gate};
pub use messages::Messages;
pub use names::Directory;
pub use objects::{
    COORDINATOR_KIND, ONLY_LIFE, branch_of, family_key, place_of, reference, resource_key,
    service_at, terminator_of,
};
pub use references::NamedKey;

mod cells;
mod disks;
mod ends;
mod journals;
mod messages;
mod moulds;
mod names;
mod objects;
mod places;
mod references;
mod shared;
mod transactions;
