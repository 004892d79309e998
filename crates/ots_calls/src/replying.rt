ghost use Rattle.std.specs.Prelude.{◌≡◌, ◌⊎◌, ◌^◌, ◌<◌, ◌≤◌, IfErr, IfOk, Err, Ok, length};
ghost use Rattle.std.specs.Bool.{OnFalse, OnTrue};
ghost use Rattle.cdr_values.specs.Again.{standing};
ghost use Rattle.cdr_values.specs.Limits.{output_limit};
ghost use Rattle.cdr_values.specs.declared.order.Order.TheVariants.{Big};
ghost use Rattle.giop_frames.specs.Encode.{octets_in};
ghost use Rattle.giop_frames.specs.declared.message.Message.TheVariants as messages;
ghost use Rattle.ots_calls.specs.Answer.{IsAnswer, IsGiven, IsOf, IsOwn, Says, completed_number, vote_number};
ghost use Rattle.ots_calls.specs.Answering.{answer_with};
ghost use Rattle.ots_calls.specs.AnswerWriting.{IsUnwritten, answer_body, given_body, given_length, reply_of};
ghost use Rattle.ots_calls.specs.Call.{operation_of};
ghost use Rattle.ots_calls.specs.Fault.{Finds};
ghost use Rattle.ots_calls.specs.Writing.{OnlySizeRefuses};
ghost use Rattle.ots_calls.specs.declared.answer.Answer.TheVariants as answers;
ghost use Rattle.ots_calls.specs.declared.fault.CallFault.TheVariants.{Memory};

use crate::answer::{Answer, Completed, Given};
use crate::body::{Piece, context_body, reference_body, status_number, value_body, values_body};
use crate::call::Call;
use crate::fault::CallFault;
use crate::laws::answers_are_read_exactly;
use crate::operation::Operation;
use cdr_values::Order;
use giop_frames::{Contexts, Reply};
use ots_model::{Octets, Vote};
use std::alloc::Global;

/// The reply to a call with this answer and this request_id. It is big endian. An answer that isn't one of the call's is
/// refused.
#[tactic(auto, unfolding(crate::specs::AnswerWriting::reply_of, giop_frames::specs::Encode::refusal_of))]
pub fn write_answer(alloc: Global, id: u32, c: &Call, a: &Answer) -> Result<Reply, CallFault>
    requires length { given_length a.now < 2 ^ 31 }
    requires own { IsOwn a.now }
    ensures exact { IfOk result (λ reply. reply_of id a.now ≡ Ok reply) }
    ensures answer { IfOk result (λ reply. IsAnswer c.now a.now reply) }
    ensures again { IfOk result (λ reply. answer_with c.now reply ≡ Ok a.now) }
    ensures big { IfOk result (λ reply. reply.order ≡ Big) }
    ensures short { IfOk result (λ reply. octets_in (messages.Reply reply) < 2 ^ 31) }
    ensures framed { IfOk result (λ reply. OnlySizeRefuses (messages.Reply reply)) }
    ensures refused { IfErr result (λ fault. (fault ≡ Memory) ⊎ IsUnwritten fault id c.now a.now) }
    ensures foreign { ¬ IsOf (operation_of c.now) a.now → result ≡ Err CallFault.BadParam }
{
    answers_are_read_exactly();
    if !is_of(c.operation(), a) {
        return Err(CallFault::BadParam);
    }
    let body = answer_body(alloc, a)?;
    Ok(Reply {
        id,
        status: a.status(),
        contexts: Contexts::from_vec(Vec::new(alloc)),
        order: Order::Big,
        body,
    })
}

/// Whether an operation may be answered so.
fn is_of(operation: Operation, answer: &Answer) -> bool
    ensures yes { OnTrue result (IsOf operation answer.now) }
    ensures no { OnFalse result (¬ IsOf operation answer.now) }
{
    match answer {
        Answer::Plain(given) => given.gives() == operation.row().gives,
        Answer::User(exception) => operation.may_raise(*exception),
        Answer::System(_, _, _) => true,
    }
}

/// The body of an answer.
fn answer_body(alloc: Global, answer: &Answer) -> Result<Octets, CallFault>
    requires { given_length answer.now < 2 ^ 31 }
    ensures exact { Finds (λ octets. octets) result (answer_body answer.now) }
    ensures says { IfOk result (λ octets. Says answer.now (standing Big 0 octets)) }
    ensures short { IfOk result (λ octets. length octets ≤ output_limit) }
{
    match answer {
        Answer::Plain(given) => given_body(alloc, given),
        Answer::User(exception) => value_body(alloc, Piece::Text(exception.id())),
        Answer::System(exception, minor, completed) => {
            let number = completed_number(*completed);
            let pieces = [
                Piece::Text(exception.id()),
                Piece::Number(*minor),
                Piece::Number(number),
            ];
            values_body(alloc, &pieces)
        }
    }
}

/// The body of what was given.
fn given_body(alloc: Global, given: &Given) -> Result<Octets, CallFault>
    requires { given_length (answers.Plain given.now) < 2 ^ 31 }
    ensures exact { Finds (λ octets. octets) result (given_body given.now) }
    ensures given { IfOk result (λ octets. IsGiven given.now (standing Big 0 octets)) }
    ensures short { IfOk result (λ octets. length octets ≤ output_limit) }
{
    match given {
        Given::Nothing => values_body(alloc, &[]),
        Given::Flag(flag) => value_body(alloc, Piece::Flag(*flag)),
        Given::Number(number) => value_body(alloc, Piece::Number(*number)),
        Given::Reference(reference) => reference_body(alloc, reference),
        Given::State(status) => value_body(alloc, Piece::Number(status_number(*status))),
        Given::Ballot(vote) => value_body(alloc, Piece::Number(vote_number(*vote))),
        Given::Word(text) => value_body(alloc, Piece::Text(text.bytes())),
        Given::Transaction(context) => context_body(alloc, context),
        Given::Found(Some(value)) => values_body(alloc, &[Piece::Flag(true), Piece::Long(*value)]),
        Given::Found(None) => values_body(alloc, &[Piece::Flag(false), Piece::Long(0)]),
    }
}

/// The number of a vote.
fn vote_number(vote: Vote) -> u32
    ensures { result ≡ vote_number vote }
{
    match vote {
        Vote::VoteCommit => 0,
        Vote::VoteRollback => 1,
        Vote::VoteReadOnly => 2,
    }
}

/// The number of a completion_status.
fn completed_number(completed: Completed) -> u32
    ensures { result ≡ completed_number completed }
{
    match completed {
        Completed::Yes => 0,
        Completed::No => 1,
        Completed::Maybe => 2,
    }
}
