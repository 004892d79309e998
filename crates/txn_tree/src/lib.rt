//! Trees of transactions, by branch: how each one stands, what lies above it and below it.
#![tactic(auto)]

pub use laws::{
    all_are_related, ancestry_follows_parents, calls_keep_parents, commit_follows_parents,
    depth_follows_parents, next_is_first, parents_come_first, trees_stay_trees,
};
pub use row::TreeFault;
pub use tree::{DEPTH_LIMIT, TRANSACTION_LIMIT, Tree};

mod laws;
mod links;
mod row;
mod tree;
