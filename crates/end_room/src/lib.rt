//! A resource end that many sessions share: which transactions have a resource there, and one lock around it.
#![tactic(auto)]

pub use ends::{Ends, Enlisted, Entered};
pub use own_end::OwnEnd;
pub use shared_end::SharedEnd;

mod ends;
mod given;
mod own_end;
mod shared_end;
