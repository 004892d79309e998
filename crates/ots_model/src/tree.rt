//! What is said in completing a whole tree of transactions, with its subtransactions, its synchronizations and its
//! superior: every word, every answer, every reason. Each holds those of the two phases.
ghost use Rattle.std.specs.Prelude.{◌≡◌};
ghost use Rattle.ots_model.specs.Heard.{of_participant};

use crate::completion;
use crate::completion::{CallNumber, Receipt};
use crate::octets::RefBytes;
use crate::service::Status;

/// Whose coordinator is named to a resource that learns of the commit of a subtransaction.
#[derive(Clone, Copy)]
pub enum Parent {
    /// That of this branch of the same tree.
    Branch(u32),
}

/// What is told or asked in an outward call.
#[derive(Clone, Copy)]
pub enum Word {
    /// A word of the two phases.
    Phase(completion::Word),
    /// `forget`: the heuristic outcome is known, and need not be kept.
    Forget,
    /// `before_completion` of a synchronization.
    BeforeCompletion,
    /// `after_completion` of a synchronization, with how the transaction ended.
    AfterCompletion(Status),
    /// `commit_subtransaction`, with the parent.
    CommitSub(Parent),
    /// `rollback_subtransaction`.
    RollbackSub,
    /// `replay_completion` of the superior's recovery coordinator.
    ReplayCompletion,
    /// `register_resource` of the superior's coordinator.
    RegisterResource,
}

/// A word on its way out.
#[derive(Drop)]
pub struct Outward {
    /// The number of the call.
    pub number: CallNumber,
    /// The registration that it goes to, counted from 1.
    pub registration: u32,
    /// The reference of the object that it goes to.
    pub to: RefBytes,
    /// The word.
    pub word: Word,
    /// The record behind a commit word.
    pub receipt: Option<Receipt>,
}

/// What was heard of an outward call.
#[derive(Drop)]
pub enum Heard {
    /// What may be heard of each word.
    Phase(completion::Heard),
    /// How the transaction stands, which a recovery coordinator told.
    Told(Status),
    /// The registration was taken. The canonical octets of the recovery coordinator's reference.
    Enlisted(RefBytes),
}

impl Heard {
    /// What was heard of a participant of a completion. A participant is asked for no status and takes no registration,
    /// so such an answer is any other.
    pub fn of_participant(&self) -> completion::Heard
        ensures { result ≡ of_participant self.now }
    {
        match self {
            Heard::Phase(heard) => *heard,
            Heard::Told(_) | Heard::Enlisted(_) => completion::Heard::Other,
        }
    }
}

/// Why a transaction is rolled back. Registrations and synchronizations are named by their numbers.
#[derive(Clone, Copy, Debug, PartialEq, Eq)]
pub enum Reason {
    /// The client called `rollback`.
    Asked,
    /// The transaction was marked.
    Marked,
    /// Its time was over.
    Timeout,
    /// By the votes or by the journal.
    Phase(completion::Reason),
    /// That synchronization's `before_completion` wasn't answered plainly.
    SyncLost(u32),
    /// That synchronization's `before_completion` wanted memory.
    SyncStarved(u32),
    /// The journal was read again, and the decision record doesn't stand.
    NotStored,
    /// The superior rolled back.
    Superior,
    /// The superior didn't take the registration.
    NotEnlisted,
}

/// How a transaction ends, for one of these reasons where it is rolled back.
pub type Outcome = completion::Outcome<Reason>;
