//! The state of a world of nodes: what stands at each seat, the messages and the names, the words that go out, and the
//! lines that tell what happened to a family.
#![tactic(auto)]

pub use casts::{Cast, Roster, key_of_record};
pub use seats::{Seat, Server};
pub use state::State;
pub use telling::{tell_effects, tell_finished};

mod casts;
mod seats;
mod state;
mod telling;
mod words;
