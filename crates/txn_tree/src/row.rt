ghost use Rattle.std.specs.Prelude.{◌≡◌, ◌<◌, length};
ghost use Rattle.txn_tree.specs.Rows as tree;

use ots_model::Status;

/// How a transaction of a tree stands.
#[derive(Clone, Copy)]
pub(crate) enum State {
    Active,
    Marked,
    Committed,
    RolledBack,
}

impl State {
    /// Whether it has not ended.
    pub fn is_live(self) -> bool
        ensures { result ≡ tree.is_live self }
    {
        matches!(self, State::Active | State::Marked)
    }

    /// As a status of the standard.
    pub fn status(self) -> Status
        ensures { result ≡ tree.shown self }
    {
        match self {
            State::Active => Status::Active,
            State::Marked => Status::MarkedRollback,
            State::Committed => Status::Committed,
            State::RolledBack => Status::RolledBack,
        }
    }
}

/// A transaction of a tree.
#[derive(Clone, Copy)]
pub(crate) struct Row {
    pub parent: Option<u32>,
    pub state: State,
}

/// The parent of a branch.
pub(crate) fn parent_of(rows: &[Row], branch: u32) -> Option<u32>
    requires there { branch < length rows.now }
    ensures { result ≡ tree.parent rows.now branch }
{
    rows[branch as usize].parent
}

/// Why a call on a tree changes nothing.
#[derive(Clone, Copy, Debug, PartialEq, Eq)]
pub enum TreeFault {
    /// The transaction has ended, or it is to commit and its parent has ended (Inactive).
    Inactive,
    /// It is marked, and can only be rolled back (TRANSACTION_ROLLEDBACK).
    MarkedAlready,
    /// The tree is as deep or as large as it may be (SubtransactionsUnavailable).
    SubtransactionsUnavailable,
    /// Memory ran out.
    Memory,
}
