//! One node of a world: it is loaded from the octets of its disk, and then families are made, calls and answers come,
//! and time passes, until it crashes, which may be inside a write.
#![tactic(auto)]

pub use calling::{Answered, Called, Stopped};
pub use live::LiveNode;
pub use ticking::Ticked;

mod calling;
mod first;
mod live;
mod running;
mod ticking;
