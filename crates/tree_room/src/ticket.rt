use coordinator::StepAnswer;
use ior_refs::ObjectKey;
use ots_context::Context;

/// What a room answered to a call.
#[derive(Drop)]
pub struct Ticket {
    /// The key that was called. For a new transaction it is that of its coordinator.
    pub key: ObjectKey,
    /// The place of the call in the history of its transaction, what is said, and who was answered in it.
    pub answer: StepAnswer,
    /// What a request says that belongs to the transaction, where that was asked for and said.
    pub context: Option<Context>,
}
