ghost use Rattle.std.specs.Prelude.{◌≡◌};
ghost use Rattle.ots_calls.specs.Call.{operation_of, shape_of};
ghost use Rattle.ots_calls.specs.Table.{row_of};
ghost use Rattle.ots_calls.specs.Writing.{lacks_object};

use crate::operation::{Bare, Handing, Operation};
use ior_refs::{ObjectKey, ObjectRef};
use ots_context::Context;
use ots_model::{Octets, RetryKey, Status};

/// A call of an operation, with what it hands over.
#[derive(Drop)]
pub enum Call {
    /// An operation that takes nothing.
    Bare(Bare),
    /// An operation that takes a reference, and the reference.
    Handing(Handing, ObjectRef),
    /// TransactionFactory::create, with the time_out.
    Create(u32),
    /// TransactionFactory::recreate.
    Recreate(Context),
    /// Terminator::commit, with report_heuristics.
    CommitTransaction(bool),
    /// Synchronization::after_completion.
    AfterCompletion(Status),
    /// Cells::put, with the number of the cell and the value.
    Put(u64, u64),
    /// Cells::get, with the number of the cell.
    Get(u64),
    /// Object::_is_a, with the repository id.
    IsA(Octets),
}

impl Call {
    /// Its operation.
    #[tactic(auto, using(crate::proofs::Shapes::takes))]
    pub fn operation(&self) -> Operation
        ensures row { result ≡ operation_of self.now }
        ensures takes { shape_of self.now ≡ (row_of result).takes }
    {
        match self {
            Call::Bare(bare) => Operation::Bare(*bare),
            Call::Handing(handing, _) => Operation::Handing(*handing),
            Call::Create(_) => Operation::Create,
            Call::Recreate(_) => Operation::Recreate,
            Call::CommitTransaction(_) => Operation::CommitTransaction,
            Call::AfterCompletion(_) => Operation::AfterCompletion,
            Call::Put(_, _) => Operation::Put,
            Call::Get(_) => Operation::Get,
            Call::IsA(_) => Operation::IsA,
        }
    }

    /// Whether it hands over a reference to no object.
    pub fn lacks_object(&self) -> bool
        ensures { result ≡ lacks_object self.now }
    {
        match self {
            Call::Handing(_, reference) => reference.is_nil(),
            _ => false,
        }
    }
}

/// What a request says.
#[derive(Drop)]
pub struct Called {
    /// The object that is called.
    pub key: ObjectKey,
    /// What it is to do.
    pub call: Call,
    /// The retry key, where it has one: then a repeat of the call is known.
    pub retry: Option<RetryKey>,
    /// The transaction that the call belongs to, where it belongs to one.
    pub context: Option<Context>,
}
