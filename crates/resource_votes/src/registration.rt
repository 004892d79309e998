use ots_model::RefBytes;

/// A resource or a synchronization that is registered with a transaction.
#[derive(Drop)]
pub struct Registration {
    /// Its number, from 1, in the order of the calls. Synchronizations count for themselves.
    pub index: u32,
    /// The transaction that it was registered with.
    pub branch: u32,
    /// Its reference.
    pub to: RefBytes,
    /// Whether it is told of the end of a subtransaction (SubtransactionAwareResource).
    pub aware: bool,
}

/// Why nothing was registered.
#[derive(Clone, Copy, Debug, PartialEq, Eq)]
pub enum VoteFault {
    /// The transaction has ended (Inactive).
    Inactive,
    /// It is marked, and can only be rolled back (TRANSACTION_ROLLEDBACK).
    MarkedAlready,
    /// It is a top-level transaction (NotSubtransaction).
    NotSubtransaction,
    /// It is a subtransaction (SynchronizationUnavailable).
    SynchronizationUnavailable,
    /// There are as many registrations, or synchronizations, as there may be (NO_RESOURCES).
    NoResources,
    /// Memory ran out.
    Memory,
}
