ghost use Rattle.std.specs.Prelude.{◌≡◌};
ghost use Rattle.ots_calls.specs.Answer.{raises};
ghost use Rattle.ots_calls.specs.Table.{row_of, serves, word_of};

use crate::exception::{UserException, has_id};
use crate::gives::Gives;
use crate::interface::Interface;
use crate::operation::Operation;

/// A row of the table of operations.
#[derive(Clone, Copy)]
pub struct Row {
    /// The interface that has the operation.
    pub interface: Interface,
    /// Its name.
    pub word: &'static [u8],
    /// What it gives.
    pub gives: Gives,
    /// The user exceptions that it raises.
    pub raises: &'static [UserException],
}

/// A row by the names of its parts.
macro_rules! row {
    ($interface:ident, $word:literal, $gives:ident $(, $raised:ident)*) => {
        Row {
            interface: Interface::$interface,
            word: $word,
            gives: Gives::$gives,
            raises: &[$(UserException::$raised),*],
        }
    };
}

/// The rows of the operations that take nothing, in the order of the variants.
static BARE: [Row; 21] = [
    row!(Control, b"get_terminator", Reference, Unavailable),
    row!(Control, b"get_coordinator", Reference, Unavailable),
    row!(Terminator, b"rollback", Nothing),
    row!(Coordinator, b"get_status", State),
    row!(Coordinator, b"get_parent_status", State),
    row!(Coordinator, b"get_top_level_status", State),
    row!(Coordinator, b"is_top_level_transaction", Flag),
    row!(Coordinator, b"hash_transaction", Number),
    row!(Coordinator, b"hash_top_level_tran", Number),
    row!(Coordinator, b"rollback_only", Nothing, Inactive),
    row!(Coordinator, b"get_transaction_name", Word),
    row!(
        Coordinator,
        b"create_subtransaction",
        Reference,
        SubtransactionsUnavailable,
        Inactive
    ),
    row!(Coordinator, b"get_txcontext", Transaction, Unavailable),
    row!(
        Resource,
        b"prepare",
        Ballot,
        HeuristicMixed,
        HeuristicHazard
    ),
    row!(
        Resource,
        b"rollback",
        Nothing,
        HeuristicCommit,
        HeuristicMixed,
        HeuristicHazard
    ),
    row!(
        Resource,
        b"commit",
        Nothing,
        NotPrepared,
        HeuristicRollback,
        HeuristicMixed,
        HeuristicHazard
    ),
    row!(Resource, b"commit_one_phase", Nothing, HeuristicHazard),
    row!(Resource, b"forget", Nothing),
    row!(Synchronization, b"before_completion", Nothing),
    row!(
        SubtransactionAwareResource,
        b"rollback_subtransaction",
        Nothing
    ),
    row!(Object, b"_non_existent", Flag),
];

/// The rows of the operations that take a reference, in the order of the variants.
static HANDING: [Row; 9] = [
    row!(Coordinator, b"is_same_transaction", Flag),
    row!(Coordinator, b"is_related_transaction", Flag),
    row!(Coordinator, b"is_ancestor_transaction", Flag),
    row!(Coordinator, b"is_descendant_transaction", Flag),
    row!(Coordinator, b"register_resource", Reference, Inactive),
    row!(
        Coordinator,
        b"register_synchronization",
        Nothing,
        Inactive,
        SynchronizationUnavailable
    ),
    row!(
        Coordinator,
        b"register_subtran_aware",
        Nothing,
        Inactive,
        NotSubtransaction
    ),
    row!(
        RecoveryCoordinator,
        b"replay_completion",
        State,
        NotPrepared
    ),
    row!(
        SubtransactionAwareResource,
        b"commit_subtransaction",
        Nothing
    ),
];

static CREATE: Row = row!(TransactionFactory, b"create", Reference);

static RECREATE: Row = row!(TransactionFactory, b"recreate", Reference);

static COMMIT_TRANSACTION: Row = row!(
    Terminator,
    b"commit",
    Nothing,
    HeuristicMixed,
    HeuristicHazard
);

static AFTER_COMPLETION: Row = row!(Synchronization, b"after_completion", Nothing);

static PUT: Row = row!(Cells, b"put", Nothing);

static GET: Row = row!(Cells, b"get", Found);

static IS_A: Row = row!(Object, b"_is_a", Flag);

impl Operation {
    /// Its row in the table.
    pub fn row(self) -> &'static Row
        ensures interface { result.now.interface ≡ (row_of self).interface }
        ensures name { result.now.word.now ≡ word_of self }
        ensures gives { result.now.gives ≡ (row_of self).gives }
        ensures raises { result.now.raises.now ≡ (row_of self).raises }
    {
        match self {
            Operation::Bare(bare) => &BARE[bare as usize],
            Operation::Handing(handing) => &HANDING[handing as usize],
            Operation::Create => &CREATE,
            Operation::Recreate => &RECREATE,
            Operation::CommitTransaction => &COMMIT_TRANSACTION,
            Operation::AfterCompletion => &AFTER_COMPLETION,
            Operation::Put => &PUT,
            Operation::Get => &GET,
            Operation::IsA => &IS_A,
        }
    }

    /// Whether objects have it whose keys are of this kind.
    pub fn serves(self, kind: u8) -> bool
        ensures { result ≡ serves kind self }
    {
        self.row().interface.kinds().contains(&kind)
    }

    /// Whether it raises this user exception.
    pub fn may_raise(self, exception: UserException) -> bool
        ensures { result ≡ raises self exception }
    {
        let id = exception.id();
        for one in self.row().raises {
            if has_id(*one, id) {
                return true;
            }
        }
        false
    }
}
