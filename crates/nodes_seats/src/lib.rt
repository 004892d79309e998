//! Nodes and ends of a world: they are made, and other things come to stand at their seats.
#![tactic(auto)]

pub use crashes::{crash, go_down, set_stop};
pub use makings::{empty, make_end, make_node};
pub use places::set_server;
pub use restarts::restart;
pub use ticking::tick;

mod crashes;
mod makings;
mod places;
mod restarts;
mod standing;
mod ticking;
mod waiting;
