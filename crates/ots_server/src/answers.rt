// What is said of a call, as its answer.
ghost use Rattle.std.specs.Prelude.{◌≡◌, ◌<◌, ◌^◌, IfOk, IfSome};
ghost use Rattle.ots_calls.specs.AnswerWriting.{given_length};
ghost use Rattle.ots_calls.specs.declared.answer.Answer.TheVariants as answers;
ghost use Rattle.ots_calls.specs.declared.answer.Given.TheVariants as gives;
ghost use Rattle.ots_context.specs.Writing.{kept_length};
ghost use Rattle.ots_server.specs.Said as says;
ghost use Rattle.ots_sessions.specs.Replies.{IsWritable};

use coordinator::Said;
use ior_refs::ObjectKey;
use ots_calls::{
    Answer, Bare, Call, Called, Completed, Given, Handing, SystemException, UserException,
};
use ots_context::Context;
use ots_model::{Endpoint, Octets};
use ots_sessions::{ServeFault, reference_to};
use std::alloc::Global;

/// How many octets a name of a transaction has at most.
const NAME_SIZE: usize = 4096;

/// The answer of a call where this is said of it, by a service that stands at this place. The context is that of the
/// transaction, where the call asks for it.
#[tactic(auto, unfolding(crate::specs::Said::answer_of))]
pub(crate) fn answer_of(
    alloc: Global,
    at: &Endpoint,
    called: &Called,
    said: &Said,
    context: Option<Context>,
) -> Result<Answer, ServeFault>
    requires tail { IfSome context (λ c. kept_length c.tail < 2 ^ 31) }
    ensures answer { IfOk result (λ answer. answer
        ≡ says.answer_of at.now (called.now).key (called.now).call context said.now) }
    ensures short { IfOk result IsWritable }
{
    if let Some(given) = given_by(alloc, at, called, said, context)? {
        return Ok(Answer::Plain(given));
    }
    Ok(match user_exception(said) {
        Some(exception) => Answer::User(exception),
        None => system_answer(&called.call, said),
    })
}

/// What a call gives where this is said of it, or None where that is an exception.
fn given_by(
    alloc: Global,
    at: &Endpoint,
    called: &Called,
    said: &Said,
    context: Option<Context>,
) -> Result<Option<Given>, ServeFault>
    requires tail { IfSome context (λ c. kept_length c.tail < 2 ^ 31) }
    ensures given { IfOk result (λ found. found
        ≡ says.given_by at.now (called.now).key (called.now).call context said.now) }
    ensures short { IfOk result (λ found. IfSome found (λ given. given_length (answers.Plain given) < 2 ^ 31)) }
{
    if matches!(said, Said::Plain) {
        return given_plainly(alloc, at, called, context);
    }
    drop(context);
    match said {
        Said::Made(number) => Ok(Some(given_made(alloc, at, called, *number)?)),
        Said::Flag(flag) => Ok(Some(Given::Flag(*flag))),
        Said::State(status) => Ok(Some(Given::State(*status))),
        Said::Number(number) => Ok(Some(Given::Number(*number))),
        Said::Name(name) => Ok(Some(given_word(alloc, name.bytes())?)),
        Said::Voted(vote) => Ok(Some(Given::Ballot(*vote))),
        _ => Ok(None),
    }
}

/// A name, which has few octets.
fn given_word(alloc: Global, name: &[u8]) -> Result<Given, ServeFault>
    ensures word { IfOk result (λ given. given ≡ gives.Word name.now) }
    ensures short { IfOk result (λ given. given_length (answers.Plain given) < 2 ^ 31) }
{
    if name.len() > NAME_SIZE {
        return Err(ServeFault::Memory);
    }
    Ok(Given::Word(Octets::new(alloc, name)?))
}

/// What a call gives that was done.
fn given_plainly(
    alloc: Global,
    at: &Endpoint,
    called: &Called,
    context: Option<Context>,
) -> Result<Option<Given>, ServeFault>
    requires tail { IfSome context (λ c. kept_length c.tail < 2 ^ 31) }
    ensures given { IfOk result (λ found. found
        ≡ says.given_plainly at.now (called.now).key (called.now).call context) }
    ensures short { IfOk result (λ found. IfSome found (λ given. given_length (answers.Plain given) < 2 ^ 31)) }
{
    let index = called.key.index;
    match &called.call {
        Call::Bare(Bare::GetTerminator) => Ok(Some(sibling(alloc, at, called, b'T', index)?)),
        Call::Bare(Bare::GetCoordinator) => Ok(Some(sibling(alloc, at, called, b'K', index)?)),
        Call::Bare(Bare::GetTxcontext) => Ok(context.map(Given::Transaction)),
        _ => Ok(Some(Given::Nothing)),
    }
}

/// What a call gives that has made the subtransaction or the registration of this number.
fn given_made(
    alloc: Global,
    at: &Endpoint,
    called: &Called,
    number: u32,
) -> Result<Given, ServeFault>
    ensures given { IfOk result (λ given. given
        ≡ says.given_made at.now (called.now).key (called.now).call number) }
    ensures short { IfOk result (λ given. given_length (answers.Plain given) ≡ 0) }
{
    match &called.call {
        Call::Bare(Bare::CreateSubtransaction) => sibling(alloc, at, called, b'C', number),
        Call::Handing(Handing::RegisterResource, _) => sibling(alloc, at, called, b'V', number),
        _ => Ok(Given::Nothing),
    }
}

/// The reference to another object of the family whose object was called.
fn sibling(
    alloc: Global,
    at: &Endpoint,
    called: &Called,
    kind: u8,
    index: u32,
) -> Result<Given, ServeFault>
    ensures given { IfOk result (λ given. given ≡ says.sibling at.now (called.now).key kind index) }
    ensures short { IfOk result (λ given. given_length (answers.Plain given) ≡ 0) }
{
    let key = ObjectKey {
        kind,
        index,
        ..called.key
    };
    Ok(Given::Reference(reference_to(alloc, at, &key)?))
}

/// The user exception that is said.
fn user_exception(said: &Said) -> Option<UserException>
    ensures { result ≡ says.user_exception said.now }
{
    Some(match said {
        Said::HeuristicMixed => UserException::HeuristicMixed,
        Said::HeuristicHazard => UserException::HeuristicHazard,
        Said::HeuristicRollback => UserException::HeuristicRollback,
        Said::HeuristicCommit => UserException::HeuristicCommit,
        Said::Inactive => UserException::Inactive,
        Said::NotPrepared => UserException::NotPrepared,
        Said::Unavailable => UserException::Unavailable,
        Said::NotSubtransaction => UserException::NotSubtransaction,
        Said::SynchronizationUnavailable => UserException::SynchronizationUnavailable,
        Said::SubtransactionsUnavailable => UserException::SubtransactionsUnavailable,
        _ => return None,
    })
}

/// The system exception of a call of which this is said, which isn't given and is no user exception.
fn system_answer(call: &Call, said: &Said) -> Answer
    ensures answer { result ≡ says.system_answer call.now said.now }
    ensures short { given_length result ≡ 0 }
{
    Answer::System(system_exception(said), 0, completion_of(call, said))
}

/// The system exception that is said.
fn system_exception(said: &Said) -> SystemException
    ensures { result ≡ says.system_exception said.now }
{
    match said {
        Said::TransactionRolledBack => SystemException::TransactionRolledBack,
        Said::CommFailure => SystemException::CommFailure,
        Said::PersistStore => SystemException::PersistStore,
        Said::NoMemory => SystemException::NoMemory,
        Said::InvalidTransaction => SystemException::InvalidTransaction,
        Said::Transient => SystemException::Transient,
        Said::NoResources => SystemException::NoResources,
        Said::NoImplement => SystemException::NoImplement,
        _ => SystemException::ObjectNotExist,
    }
}

/// The completion_status of a call of which this is said.
fn completion_of(call: &Call, said: &Said) -> Completed
    ensures { result ≡ says.completion_of call.now said.now }
{
    match said {
        Said::TransactionRolledBack => rolled_back_completion(call),
        Said::CommFailure | Said::PersistStore | Said::NoMemory => Completed::Maybe,
        _ => Completed::No,
    }
}

/// The completion_status of a TRANSACTION_ROLLEDBACK: the commit of a terminator was done so, and nothing else was done.
fn rolled_back_completion(call: &Call) -> Completed
    ensures { result ≡ says.rolled_back_completion call.now }
{
    match call {
        Call::CommitTransaction(_) => Completed::Yes,
        _ => Completed::No,
    }
}
