//! The transaction service as a servant of sessions: calls are answered by the transactions of a room, and the words of these go
//! out as requests.
#![tactic(auto)]

pub use servant::{RoomServant, servants_of};
pub use ticking::tick_once;

mod acts;
mod answers;
mod calling;
mod desk;
mod refusals;
mod servant;
mod stepping;
mod telling;
mod ticking;
