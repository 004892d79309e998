//! The world of a script on nodes: it carries out the lines of the script one by one, and tells what happens.
#![tactic(auto)]

pub use world::World;

mod agreement;
mod deeds;
mod lending;
mod world;
