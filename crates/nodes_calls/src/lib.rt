//! Objects that ends make are registered by the client of a script, in a world of nodes and ends.
#![tactic(auto)]

pub use registers::register;

mod objects;
mod registers;
