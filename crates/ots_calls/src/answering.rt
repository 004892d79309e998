ghost use Rattle.std.specs.Prelude.{◌≡◌, ◌≢◌, Err, ◌^◌, ◌<◌, IfOk, length};
ghost use Rattle.cdr_values.specs.Again.{standing};
ghost use Rattle.ots_calls.specs.Answer.{IsAnswer};
ghost use Rattle.ots_calls.specs.Answering.{IsHeld, WantsMemory, answer_at, answer_with, completed_of, garbled, given_at, raised_at, system_at, vote_of};
ghost use Rattle.ots_calls.specs.Call.{operation_of};
ghost use Rattle.ots_calls.specs.Fault.{Finds};
ghost use Rattle.ots_calls.specs.declared.gives.Gives.TheVariants as gives;

use crate::answer::{Answer, Completed, Given};
use crate::call::Call;
use crate::exception::UserException;
use crate::fault::CallFault;
use crate::gives::Gives;
use crate::laws::answers_are_read_exactly;
use crate::operation::Operation;
use crate::reading::{ended, status_of};
use crate::system::SystemException;
use cdr_values::Reader;
use giop_frames::Reply;
use ior_refs::read_ref;
use ots_context::read_context;
use ots_model::{Octets, Vote};
use std::alloc::Global;

/// The answer to a call that a reply is.
#[tactic(auto, using(crate::proofs::Answers::other_status))]
pub fn read_answer(alloc: Global, c: &Call, r: &Reply) -> Result<Answer, CallFault>
    requires { length r.now.body < 2 ^ 31 }
    ensures exact { Finds (λ answer. answer) result (answer_with c.now r.now) }
    ensures answer { IfOk result (λ answer. IsAnswer c.now answer r.now) }
    ensures memory { result ≡ Err CallFault.Memory → WantsMemory (operation_of c.now) r.now.status }
    ensures status { 2 < r.now.status → result ≡ Err (CallFault.Garbled 0) }
{
    answers_are_read_exactly();
    read_with(alloc, c, r)
}

/// The answer to a call that a reply is.
#[tactic(auto, using(crate::proofs::Frugal::garbled_memory), unfolding(crate::specs::Answering::answer_with))]
fn read_with(alloc: Global, c: &Call, r: &Reply) -> Result<Answer, CallFault>
    requires { length r.now.body < 2 ^ 31 }
    ensures exact { Finds (λ answer. answer) result (answer_with c.now r.now) }
    ensures memory { result ≡ Err CallFault.Memory → WantsMemory (operation_of c.now) r.now.status }
{
    read_reply(alloc, c.operation(), r).map_err(garbled)
}

/// The answer to a call of this operation that a reply is.
fn read_reply(alloc: Global, operation: Operation, r: &Reply) -> Result<Answer, CallFault>
    requires { length r.now.body < 2 ^ 31 }
    ensures exact { Finds (λ answer. answer) result
        (answer_at operation r.now.status (standing r.now.order 0 r.now.body)) }
    ensures memory { result ≡ Err CallFault.Memory → WantsMemory operation r.now.status }
{
    let mut reader = Reader::new(r.body.bytes(), r.order, 0);
    read_status(alloc, operation, r.status, &mut reader)
}

/// A fault of a reply.
fn garbled(fault: CallFault) -> CallFault
    ensures { result ≡ garbled fault }
{
    match fault {
        CallFault::Marshal(place) => CallFault::Garbled(place),
        CallFault::Memory => CallFault::Memory,
        _ => CallFault::Garbled(0),
    }
}

/// The answer of a reply with this reply_status, whose body a reader has left.
#[tactic(auto, unfolding(crate::specs::Answering::answer_at))]
fn read_status(
    alloc: Global,
    operation: Operation,
    status: u32,
    reader: &mut Reader,
) -> Result<Answer, CallFault>
    ensures exact { Finds (λ answer. answer) result (answer_at operation status reader.old) }
    ensures memory { result ≡ Err CallFault.Memory → WantsMemory operation status }
{
    match status {
        0 => Ok(Answer::Plain(read_given(alloc, operation.row().gives, reader)?)),
        1 => read_raised(operation, reader),
        2 => read_system(reader),
        _ => Err(CallFault::Marshal(reader.place())),
    }
}

/// What was given.
#[tactic(auto, using(crate::proofs::Frugal::boolean_frugal, crate::proofs::Frugal::ulong_frugal), unfolding(crate::specs::Answering::given_at))]
fn read_given(alloc: Global, gives: Gives, reader: &mut Reader) -> Result<Given, CallFault>
    ensures exact { Finds (λ given. given) result (given_at gives reader.old) }
    ensures memory { result ≡ Err CallFault.Memory → IsHeld gives }
{
    match gives {
        Gives::Nothing => ended(reader, Given::Nothing),
        Gives::Flag => {
            let flag = reader.boolean()?;
            ended(reader, Given::Flag(flag))
        }
        Gives::Number => {
            let number = reader.ulong()?;
            ended(reader, Given::Number(number))
        }
        Gives::Reference => {
            let reference = read_ref(alloc, reader)?;
            ended(reader, Given::Reference(reference))
        }
        Gives::State => read_state(reader),
        Gives::Ballot => read_ballot(reader),
        Gives::Word => {
            let text = Octets::new(alloc, reader.string()?)?;
            ended(reader, Given::Word(text))
        }
        Gives::Transaction => Ok(Given::Transaction(read_context(alloc, reader)?)),
        Gives::Found => read_found(reader),
    }
}

#[tactic(auto, using(crate::proofs::Frugal::ulong_frugal), unfolding(crate::specs::Answering::given_at))]
fn read_state(reader: &mut Reader) -> Result<Given, CallFault>
    ensures exact { Finds (λ given. given) result (given_at gives.State reader.old) }
    ensures memory { result ≢ Err CallFault.Memory }
{
    let place = reader.place();
    let number = reader.ulong()?;
    match status_of(number) {
        Some(status) => ended(reader, Given::State(status)),
        None => Err(CallFault::Marshal(place)),
    }
}

#[tactic(auto, using(crate::proofs::Frugal::ulong_frugal), unfolding(crate::specs::Answering::given_at))]
fn read_ballot(reader: &mut Reader) -> Result<Given, CallFault>
    ensures exact { Finds (λ given. given) result (given_at gives.Ballot reader.old) }
    ensures memory { result ≢ Err CallFault.Memory }
{
    let place = reader.place();
    let number = reader.ulong()?;
    match vote_of(number) {
        Some(vote) => ended(reader, Given::Ballot(vote)),
        None => Err(CallFault::Marshal(place)),
    }
}

#[tactic(auto, using(crate::proofs::Frugal::boolean_frugal, crate::proofs::Frugal::ulonglong_frugal), unfolding(crate::specs::Answering::given_at))]
fn read_found(reader: &mut Reader) -> Result<Given, CallFault>
    ensures exact { Finds (λ given. given) result (given_at gives.Found reader.old) }
    ensures memory { result ≢ Err CallFault.Memory }
{
    let is_there = reader.boolean()?;
    let value = reader.ulonglong()?;
    if is_there {
        ended(reader, Given::Found(Some(value)))
    } else {
        ended(reader, Given::Found(None))
    }
}

/// The vote of a number.
#[tactic(auto, unfolding(crate::specs::Answering::vote_of))]
fn vote_of(number: u32) -> Option<Vote>
    ensures { result ≡ vote_of number }
{
    match number {
        0 => Some(Vote::VoteCommit),
        1 => Some(Vote::VoteRollback),
        2 => Some(Vote::VoteReadOnly),
        _ => None,
    }
}

/// The completion_status of a number.
#[tactic(auto, unfolding(crate::specs::Answering::completed_of))]
fn completed_of(number: u32) -> Option<Completed>
    ensures { result ≡ completed_of number }
{
    match number {
        0 => Some(Completed::Yes),
        1 => Some(Completed::No),
        2 => Some(Completed::Maybe),
        _ => None,
    }
}

/// A user exception that the operation raises.
#[tactic(auto, using(crate::proofs::Frugal::string_frugal), unfolding(crate::specs::Answering::raised_at))]
fn read_raised(operation: Operation, reader: &mut Reader) -> Result<Answer, CallFault>
    ensures exact { Finds (λ answer. answer) result (raised_at operation reader.old) }
    ensures memory { result ≢ Err CallFault.Memory }
{
    let place = reader.place();
    let id = reader.string()?;
    let Some(exception) = UserException::named(id) else {
        return Err(CallFault::Marshal(place));
    };
    if !operation.may_raise(exception) {
        return Err(CallFault::Marshal(place));
    }
    ended(reader, Answer::User(exception))
}

/// A system exception.
#[tactic(auto, using(crate::proofs::Frugal::string_frugal, crate::proofs::Frugal::ulong_frugal), unfolding(crate::specs::Answering::system_at))]
fn read_system(reader: &mut Reader) -> Result<Answer, CallFault>
    ensures exact { Finds (λ answer. answer) result (system_at reader.old) }
    ensures memory { result ≢ Err CallFault.Memory }
{
    let place = reader.place();
    let id = reader.string()?;
    let Some(exception) = SystemException::named(id) else {
        return Err(CallFault::Marshal(place));
    };
    let minor = reader.ulong()?;
    let place = reader.place();
    let number = reader.ulong()?;
    match completed_of(number) {
        Some(completed) => ended(reader, Answer::System(exception, minor, completed)),
        None => Err(CallFault::Marshal(place)),
    }
}
