ghost use Rattle.std.specs.Prelude.{◌≡◌};
ghost use Rattle.ots_calls.specs.Answer.{gives_of, status_number};
ghost use Rattle.ots_calls.specs.declared.answer.Answer.TheVariants as answers;

use crate::exception::UserException;
use crate::gives::Gives;
use crate::system::SystemException;
use ior_refs::ObjectRef;
use ots_context::Context;
use ots_model::{Octets, Status, Vote};

/// What an operation gave.
#[derive(Drop)]
pub enum Given {
    /// Nothing.
    Nothing,
    /// A boolean.
    Flag(bool),
    /// An unsigned long.
    Number(u32),
    /// A reference, to no object too.
    Reference(ObjectRef),
    /// A Status.
    State(Status),
    /// A Vote.
    Ballot(Vote),
    /// A string, without the NUL.
    Word(Octets),
    /// A PropagationContext.
    Transaction(Context),
    /// A value, or None where there is none.
    Found(Option<u64>),
}

/// Whether an operation was done that raised a system exception (completion_status).
#[derive(Clone, Copy, Debug)]
pub enum Completed {
    /// COMPLETED_YES.
    Yes,
    /// COMPLETED_NO.
    No,
    /// COMPLETED_MAYBE: that isn't known.
    Maybe,
}

/// What a call is answered.
#[derive(Drop)]
pub enum Answer {
    /// It was done, and gave this.
    Plain(Given),
    /// It raised a user exception.
    User(UserException),
    /// It raised a system exception, with this minor code.
    System(SystemException, u32, Completed),
}

impl Given {
    /// Which operations give such.
    pub fn gives(&self) -> Gives
        ensures { result ≡ gives_of self.now }
    {
        match self {
            Given::Nothing => Gives::Nothing,
            Given::Flag(_) => Gives::Flag,
            Given::Number(_) => Gives::Number,
            Given::Reference(_) => Gives::Reference,
            Given::State(_) => Gives::State,
            Given::Ballot(_) => Gives::Ballot,
            Given::Word(_) => Gives::Word,
            Given::Transaction(_) => Gives::Transaction,
            Given::Found(_) => Gives::Found,
        }
    }
}

impl Answer {
    /// A system exception that this service raises. Its minor code is 0 (our profile).
    pub fn system(exception: SystemException, completed: Completed) -> Answer
        ensures { result ≡ answers.System exception 0 completed }
    {
        Answer::System(exception, 0, completed)
    }

    /// The reply_status of a reply with this answer.
    pub fn status(&self) -> u32
        ensures { result ≡ status_number self.now }
    {
        match self {
            Answer::Plain(_) => 0,
            Answer::User(_) => 1,
            Answer::System(_, _, _) => 2,
        }
    }
}
