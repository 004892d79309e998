use ots_outside::Disk;
use std::alloc::Global;
use tree_room::{Naming, Room};

/// Where a request is served: by the transactions of a room, at a moment.
#[derive(Drop)]
pub(crate) struct Desk<'a, R, N: Naming, D: Disk> {
    /// What may wait.
    pub rt: &'a R,
    /// Where memory comes from.
    pub alloc: Global,
    /// The transactions.
    pub room: &'a Room<N, D>,
    /// The moment.
    pub now: u64,
}
