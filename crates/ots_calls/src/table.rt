ghost use Rattle.std.specs.Prelude.{◌≡◌, ◌&&◌, find};
ghost use Rattle.std.specs.Str.{bytes_eq};
ghost use Rattle.ots_calls.specs.Table.{operation_named, serves, word_of};
ghost use Rattle.ots_calls.specs.TableInside.{of_length};

use crate::operation::{Bare, Handing, Operation};

/// The operations by how many octets their names have, of which each number has few.
static OF_LENGTH: [&[Operation]; 26] = [
    &[],
    &[],
    &[],
    &[Operation::Put, Operation::Get],
    &[],
    &[Operation::IsA],
    &[
        Operation::Create,
        Operation::CommitTransaction,
        Operation::Bare(Bare::Commit),
        Operation::Bare(Bare::Forget),
    ],
    &[Operation::Bare(Bare::Prepare)],
    &[
        Operation::Recreate,
        Operation::Bare(Bare::RollbackTransaction),
        Operation::Bare(Bare::Rollback),
    ],
    &[],
    &[Operation::Bare(Bare::GetStatus)],
    &[],
    &[],
    &[
        Operation::Bare(Bare::RollbackOnly),
        Operation::Bare(Bare::GetTxcontext),
        Operation::Bare(Bare::NonExistent),
    ],
    &[Operation::Bare(Bare::GetTerminator)],
    &[Operation::Bare(Bare::GetCoordinator)],
    &[
        Operation::Bare(Bare::HashTransaction),
        Operation::Bare(Bare::CommitOnePhase),
        Operation::AfterCompletion,
    ],
    &[
        Operation::Bare(Bare::GetParentStatus),
        Operation::Handing(Handing::RegisterResource),
        Operation::Handing(Handing::ReplayCompletion),
        Operation::Bare(Bare::BeforeCompletion),
    ],
    &[],
    &[
        Operation::Handing(Handing::IsSameTransaction),
        Operation::Bare(Bare::HashTopLevelTran),
    ],
    &[
        Operation::Bare(Bare::GetTopLevelStatus),
        Operation::Bare(Bare::GetTransactionName),
    ],
    &[
        Operation::Bare(Bare::CreateSubtransaction),
        Operation::Handing(Handing::CommitSubtransaction),
    ],
    &[
        Operation::Handing(Handing::IsRelatedTransaction),
        Operation::Handing(Handing::RegisterSubtranAware),
    ],
    &[
        Operation::Handing(Handing::IsAncestorTransaction),
        Operation::Bare(Bare::RollbackSubtransaction),
    ],
    &[
        Operation::Bare(Bare::IsTopLevelTransaction),
        Operation::Handing(Handing::RegisterSynchronization),
    ],
    &[Operation::Handing(Handing::IsDescendantTransaction)],
];

impl Operation {
    /// The operation of this name that objects have whose keys are of this kind. Only names of the same length are
    /// looked at.
    pub fn named(kind: u8, word: &[u8]) -> Option<Operation>
        ensures { result ≡ operation_named kind word.now }
    {
        named_among(of_length(word.len()), kind, word)
    }

    /// Whether objects have it by this name whose keys are of this kind.
    fn is_named(self, kind: u8, word: &[u8]) -> bool
        ensures { result ≡ (serves kind self && bytes_eq word.now (word_of self)) }
    {
        self.serves(kind) && word == self.row().word
    }
}

/// The operation of this name that objects with keys of this kind have, among these.
fn named_among(some: &[Operation], kind: u8, word: &[u8]) -> Option<Operation>
    ensures { result ≡ find (λ one. serves kind one && bytes_eq word.now (word_of one)) some.now }
{
    for one in some {
        if one.is_named(kind, word) {
            return Some(*one);
        }
    }
    None
}

/// The operations whose names have so many octets.
fn of_length(length: usize) -> &'static [Operation]
    ensures { result.now ≡ of_length length }
{
    if length < OF_LENGTH.len() {
        OF_LENGTH[length]
    } else {
        &[]
    }
}
