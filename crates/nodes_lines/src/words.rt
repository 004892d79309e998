ghost use Rattle.std.specs.Prelude.{◌≡◌};
ghost use Rattle.std.specs.Option.{option_copied};
ghost use Rattle.ots_model.specs.Words as words;
ghost use Rattle.nodes_world.specs.Told as told;

use coordinator::Act;
use ots_model::{PhaseWord, ResourceState};

/// What a client calls, by the operation's name in the standard. What no client calls has none.
pub fn operation_of(act: &Act) -> Option<&'static [u8]>
    ensures { option_copied result ≡ told.operation_of act.now }
{
    match act {
        Act::GetTerminator => Some(b"get_terminator"),
        Act::GetCoordinator => Some(b"get_coordinator"),
        Act::Commit(_) => Some(b"commit"),
        Act::Rollback => Some(b"rollback"),
        Act::GetStatus => Some(b"get_status"),
        Act::GetParentStatus => Some(b"get_parent_status"),
        Act::GetTopLevelStatus => Some(b"get_top_level_status"),
        Act::IsSameTransaction(_) => Some(b"is_same_transaction"),
        Act::IsRelatedTransaction(_) => Some(b"is_related_transaction"),
        Act::IsAncestorTransaction(_) => Some(b"is_ancestor_transaction"),
        Act::IsDescendantTransaction(_) => Some(b"is_descendant_transaction"),
        Act::IsTopLevelTransaction => Some(b"is_top_level_transaction"),
        Act::HashTransaction => Some(b"hash_transaction"),
        Act::HashTopLevelTran => Some(b"hash_top_level_tran"),
        Act::RegisterResource(_, _) => Some(b"register_resource"),
        Act::RegisterSynchronization(_) => Some(b"register_synchronization"),
        Act::RegisterSubtranAware(_) => Some(b"register_subtran_aware"),
        Act::RollbackOnly => Some(b"rollback_only"),
        Act::GetTransactionName => Some(b"get_transaction_name"),
        Act::CreateSubtransaction => Some(b"create_subtransaction"),
        Act::GetTxcontext => Some(b"get_txcontext"),
        _ => None,
    }
}

/// A word of the two phases, by its name in interface Resource.
pub(crate) fn phase_word(word: PhaseWord) -> &'static [u8]
    ensures { result.now ≡ words.told_word word }
{
    match word {
        PhaseWord::Prepare => b"prepare",
        PhaseWord::Commit => b"commit",
        PhaseWord::CommitOnePhase => b"commit_one_phase",
        PhaseWord::Rollback => b"rollback",
    }
}

/// The state of a resource, by its word in a line.
pub(crate) fn state_word(state: ResourceState) -> &'static [u8]
    ensures { result.now ≡ words.state_word state }
{
    match state {
        ResourceState::Prepared => b"prepared",
        ResourceState::Applied => b"applied",
        ResourceState::Undone => b"undone",
        ResourceState::Forgotten => b"forgotten",
    }
}
