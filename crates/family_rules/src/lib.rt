//! What each rule of a family does to what it keeps, in memory that was taken before.
#![tactic(auto)]

pub use call::{Aim, Reply};
pub use draft::{Brought, Draft};
pub use spare::Spare;
pub use state::{State, TOP};

mod call;
mod changing;
mod closing;
mod context;
mod draft;
mod hearing;
mod motion;
mod names;
mod outs;
mod parts;
mod recording;
mod registered;
mod running;
mod spare;
mod state;
mod tally;
mod tasks;
