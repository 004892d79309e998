//! The calls that the client of a script makes to the nodes of a world.
#![tactic(auto)]

pub use beginning::begin;
pub use called::{Made, call, make_call, said_in, tell_made};
pub use calling::{call_event, registering, send_call, tell_said};
pub use carrying::carry;
pub use making::create_sub;

mod answering;
mod beginning;
mod called;
mod calling;
mod carrying;
mod coming;
mod making;
