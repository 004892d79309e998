/// An operation that takes nothing.
#[derive(Clone, Copy)]
pub enum Bare {
    /// Control::get_terminator.
    GetTerminator,
    /// Control::get_coordinator.
    GetCoordinator,
    /// Terminator::rollback.
    RollbackTransaction,
    /// Coordinator::get_status.
    GetStatus,
    /// Coordinator::get_parent_status.
    GetParentStatus,
    /// Coordinator::get_top_level_status.
    GetTopLevelStatus,
    /// Coordinator::is_top_level_transaction.
    IsTopLevelTransaction,
    /// Coordinator::hash_transaction.
    HashTransaction,
    /// Coordinator::hash_top_level_tran.
    HashTopLevelTran,
    /// Coordinator::rollback_only.
    RollbackOnly,
    /// Coordinator::get_transaction_name.
    GetTransactionName,
    /// Coordinator::create_subtransaction.
    CreateSubtransaction,
    /// Coordinator::get_txcontext.
    GetTxcontext,
    /// Resource::prepare.
    Prepare,
    /// Resource::rollback.
    Rollback,
    /// Resource::commit.
    Commit,
    /// Resource::commit_one_phase.
    CommitOnePhase,
    /// Resource::forget.
    Forget,
    /// Synchronization::before_completion.
    BeforeCompletion,
    /// SubtransactionAwareResource::rollback_subtransaction.
    RollbackSubtransaction,
    /// Object::_non_existent.
    NonExistent,
}

/// An operation that takes a reference.
#[derive(Clone, Copy)]
pub enum Handing {
    /// Coordinator::is_same_transaction.
    IsSameTransaction,
    /// Coordinator::is_related_transaction.
    IsRelatedTransaction,
    /// Coordinator::is_ancestor_transaction.
    IsAncestorTransaction,
    /// Coordinator::is_descendant_transaction.
    IsDescendantTransaction,
    /// Coordinator::register_resource.
    RegisterResource,
    /// Coordinator::register_synchronization.
    RegisterSynchronization,
    /// Coordinator::register_subtran_aware.
    RegisterSubtranAware,
    /// RecoveryCoordinator::replay_completion.
    ReplayCompletion,
    /// SubtransactionAwareResource::commit_subtransaction.
    CommitSubtransaction,
}

/// An operation of an interface of module CosTransactions, of the cells, or of every object: a row of the table.
#[derive(Clone, Copy)]
pub enum Operation {
    /// One that takes nothing.
    Bare(Bare),
    /// One that takes a reference.
    Handing(Handing),
    /// TransactionFactory::create.
    Create,
    /// TransactionFactory::recreate.
    Recreate,
    /// Terminator::commit.
    CommitTransaction,
    /// Synchronization::after_completion.
    AfterCompletion,
    /// Cells::put.
    Put,
    /// Cells::get.
    Get,
    /// Object::_is_a.
    IsA,
}
