//! A room: the transactions of a service, shared by those who call it at once.
#![tactic(auto)]

pub use fault::RoomFault;
pub use locked::LockedNode;
pub use naming::Naming;
pub use room::{Opened, Pass, Room};
pub use ticket::Ticket;

mod fault;
mod locked;
mod naming;
mod room;
mod ticket;
