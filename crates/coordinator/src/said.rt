ghost use Rattle.std.specs.Prelude.{◌≡◌};
ghost use Rattle.coordinator.specs.History as history;
ghost use Rattle.coordinator.specs.Table.{tree_refusal, vote_refusal};

use crate::effect::Effects;
use crate::event::Event;
use ots_model::{Octets, Status, Stood, Vote};
use resource_votes::VoteFault;
use std::marker::Model;
use txn_tree::TreeFault;

/// What a call is answered.
#[derive(Drop)]
pub enum Said {
    /// It was done; there is nothing to say.
    Plain,
    /// Yes or no.
    Flag(bool),
    /// How a transaction stands.
    State(Status),
    /// A hash.
    Number(u32),
    /// The name of a transaction.
    Name(Octets),
    /// A subtransaction or a registration was made, with this number.
    Made(u32),
    /// A vote.
    Voted(Vote),
    /// It is under way, and is answered in a later step.
    Later,
    /// TRANSACTION_ROLLEDBACK: the transaction was rolled back, or can only be rolled back.
    TransactionRolledBack,
    /// HeuristicMixed: some updates were committed and others rolled back.
    HeuristicMixed,
    /// HeuristicHazard: what became of some updates isn't known.
    HeuristicHazard,
    /// HeuristicRollback: a subordinate that was told to commit was rolled back.
    HeuristicRollback,
    /// HeuristicCommit: a subordinate that was told to roll back was committed.
    HeuristicCommit,
    /// COMM_FAILURE: the outcome isn't known.
    CommFailure,
    /// PERSIST_STORE: the journal failed.
    PersistStore,
    /// NO_MEMORY: the journal wanted memory.
    NoMemory,
    /// INVALID_TRANSACTION: the transaction is ending by another call.
    InvalidTransaction,
    /// Inactive: the transaction has gone too far.
    Inactive,
    /// NotPrepared: it isn't that far.
    NotPrepared,
    /// TRANSIENT: the same may be asked again.
    Transient,
    /// Unavailable: only its superior ends it.
    Unavailable,
    /// NotSubtransaction: it is a top-level transaction.
    NotSubtransaction,
    /// SynchronizationUnavailable: it is a subtransaction.
    SynchronizationUnavailable,
    /// SubtransactionsUnavailable: there can be no further one.
    SubtransactionsUnavailable,
    /// NO_RESOURCES: a limit was reached.
    NoResources,
    /// OBJECT_NOT_EXIST: the key names nothing.
    ObjectNotExist,
    /// NO_IMPLEMENT: that is another service's coordinator.
    NoImplement,
}

impl Said {
    /// Whether the answer is still to come.
    pub fn is_later(&self) -> bool
        ensures { result ≡ history.is_later self.now }
    {
        matches!(self, Said::Later)
    }

    /// Why nothing was registered.
    pub fn of_vote_fault(fault: VoteFault) -> Said
        ensures { result ≡ vote_refusal fault }
    {
        match fault {
            VoteFault::Inactive => Said::Inactive,
            VoteFault::MarkedAlready => Said::TransactionRolledBack,
            VoteFault::NotSubtransaction => Said::NotSubtransaction,
            VoteFault::SynchronizationUnavailable => Said::SynchronizationUnavailable,
            VoteFault::NoResources => Said::NoResources,
            VoteFault::Memory => Said::NoMemory,
        }
    }

    /// Why no subtransaction was made.
    pub fn of_tree_fault(fault: TreeFault) -> Said
        ensures { result ≡ tree_refusal fault }
    {
        match fault {
            TreeFault::Inactive => Said::Inactive,
            TreeFault::MarkedAlready => Said::TransactionRolledBack,
            TreeFault::SubtransactionsUnavailable => Said::SubtransactionsUnavailable,
            TreeFault::Memory => Said::NoMemory,
        }
    }
}

/// The answer to a call that was said `Later`.
#[derive(Drop)]
pub struct Finished {
    /// The place of the call's entry in the history.
    pub position: u32,
    /// What it is answered.
    pub said: Said,
}

/// Some of these answers, in order. Contracts see them as a list.
#[derive(Drop)]
pub struct Answers {
    items: Vec<Finished>,
}

impl Model for Answers {
    ghost use Rattle.std.specs.Prelude.{List};
    ghost use Rattle.coordinator.specs.declared.said.Finished.{Finished};

    ghost Value = { List Finished };

    ghost view = { λ a. a.items.items };
}

impl Answers {
    ghost use Rattle.std.specs.Prelude.{◌≡◌};

    /// The answers of a vector. It needs no memory.
    pub fn from_vec(items: Vec<Finished>) -> Answers
        ensures same { result ≡ items.items }
    {
        Answers { items }
    }

    /// The answers.
    pub fn items(&self) -> &[Finished]
        ensures same { result.now ≡ self.now }
    {
        self.items.as_slice()
    }
}

/// One entry of a family's history.
#[derive(Drop)]
pub struct Entry {
    /// What happened.
    pub event: Event,
    /// What the journal answered in that step.
    pub stood: Option<Stood>,
    /// What was said at once.
    pub said: Said,
    /// Which earlier calls were answered, in this order.
    pub finished: Answers,
}

/// What a step tells its caller.
#[derive(Drop)]
pub struct StepAnswer {
    /// The place of the step's entry in the history, where it makes one.
    pub position: u32,
    /// What is said at once.
    pub said: Said,
    /// Which earlier calls are answered, in this order.
    pub finished: Answers,
    /// What happened to the family, in order.
    pub effects: Effects,
}
