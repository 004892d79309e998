ghost use Rattle.std.specs.Prelude.{◌≡◌};
ghost use Rattle.std.specs.Option.{option_map};

use ior_refs::ObjectKey;
use ots_model::tree::{Heard, Word};
use ots_model::{CallNumber, RefBytes, RetryKey};

/// How many entries a family's history has at most (our profile).
pub const HISTORY_LIMIT: u32 = 16384;

/// How many it has at most before a call from outside (our profile).
pub const CALL_LIMIT: u32 = 12288;

/// The slot in the number of a word that is told again for a record: that of no family.
const RETOLD_SLOT: u32 = u32::MAX;

/// What happens to a family.
#[derive(Drop)]
pub struct Event {
    /// What names the call, where its client gave it a key.
    pub key: Option<RetryKey>,
    /// The transaction of the family that it is about. The top-level transaction is branch 0.
    pub branch: u32,
    /// The moment, in seconds.
    pub now: u64,
    /// What it is.
    pub act: Act,
}

/// A call of a client, a word of the superior, an answer to a word that went out, or what the service itself brings.
///
/// A relation is given the key of the other coordinator, where that is an object of a service of this kind.
#[derive(Drop)]
pub enum Act {
    /// `get_terminator` of Control.
    GetTerminator,
    /// `get_coordinator` of Control.
    GetCoordinator,
    /// `commit` of Terminator: whether heuristic outcomes are to be reported.
    Commit(bool),
    /// `rollback` of Terminator.
    Rollback,
    /// `get_status` of Coordinator.
    GetStatus,
    /// `get_parent_status` of Coordinator.
    GetParentStatus,
    /// `get_top_level_status` of Coordinator.
    GetTopLevelStatus,
    /// `is_same_transaction` of Coordinator.
    IsSameTransaction(Option<ObjectKey>),
    /// `is_related_transaction` of Coordinator.
    IsRelatedTransaction(Option<ObjectKey>),
    /// `is_ancestor_transaction` of Coordinator.
    IsAncestorTransaction(Option<ObjectKey>),
    /// `is_descendant_transaction` of Coordinator.
    IsDescendantTransaction(Option<ObjectKey>),
    /// `is_top_level_transaction` of Coordinator.
    IsTopLevelTransaction,
    /// `hash_transaction` of Coordinator.
    HashTransaction,
    /// `hash_top_level_tran` of Coordinator.
    HashTopLevelTran,
    /// `register_resource` of Coordinator: the resource, and whether it is a SubtransactionAwareResource.
    RegisterResource(RefBytes, bool),
    /// `register_synchronization` of Coordinator.
    RegisterSynchronization(RefBytes),
    /// `register_subtran_aware` of Coordinator.
    RegisterSubtranAware(RefBytes),
    /// `rollback_only` of Coordinator.
    RollbackOnly,
    /// `get_transaction_name` of Coordinator.
    GetTransactionName,
    /// `create_subtransaction` of Coordinator.
    CreateSubtransaction,
    /// `get_txcontext` of Coordinator.
    GetTxcontext,
    /// `replay_completion` of RecoveryCoordinator: the registration, and the resource that the call names.
    Replay(u32, RefBytes),
    /// A word of the superior, to the resource of a subordinate.
    Superior(Word),
    /// What was heard of the word with that number.
    Answer(CallNumber, Heard),
    /// The clock went on.
    Tick,
    /// The journal was read again, and the decision record stands or doesn't.
    Reread(bool),
    /// The history begins, with the moment at which the family's time is over.
    Opened(Option<u64>),
}

impl Act {
    ghost use Rattle.coordinator.specs.History.{is_own_act, limit_of};
    ghost use Rattle.coordinator.specs.NodeCalls.{retold_answer};

    /// Whether the service itself brings it. All else comes from outside.
    pub fn is_own(&self) -> bool
        ensures { result ≡ is_own_act self.now }
    {
        matches!(
            self,
            Act::Answer(_, _) | Act::Tick | Act::Reread(_) | Act::Opened(_)
        )
    }

    /// How many entries a history may have before it.
    pub fn history_limit(&self) -> u32
        ensures { result ≡ limit_of self.now }
    {
        if self.is_own() {
            HISTORY_LIMIT
        } else {
            CALL_LIMIT
        }
    }

    /// The number of a word that was told again, and what was heard of it, where this is the answer to one.
    pub fn retold_answer(&self) -> Option<(&CallNumber, &Heard)>
        ensures { option_map (λ a. record { number = a.0.now; heard = a.1.now }) result ≡ retold_answer self.now }
    {
        match self {
            Act::Answer(number, heard) if number.slot == RETOLD_SLOT => Some((number, heard)),
            _ => None,
        }
    }
}
