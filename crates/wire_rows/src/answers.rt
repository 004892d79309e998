//! What is told of answers.
ghost use Rattle.std.specs.Prelude.{◌^◌, ◌<◌, IfOk, IfSome, IsTrue};
ghost use Rattle.giop_frames.specs.Encode.{octets_in};
ghost use Rattle.wire_rows.specs.Short.{IsShortReply};
ghost use Rattle.ots_calls.specs.AnswerWriting.{given_length};

use crate::calls::{call_in, tell_operation};
use crate::messages::{front, tell_encoded};
use crate::told::Told;
use crate::values::{MOST, is_short, tell_fields, tell_reference};
use giop_frames::{Message, Reply};
use ots_calls::{Answer, Call, CallFault, Given, heard, heard_in_reply, read_answer, write_answer};
use ots_model::tree::Heard;
use ots_model::{Disposition, PhaseHeard};
use std::alloc::Global;

/// Tells the answer that a Reply is, which stands behind its Request, what is heard in it, and how it is written.
pub fn tell(alloc: Global, told: &mut Told, octets: &[u8]) {
    let Some((called, behind)) = call_in(alloc, octets) else {
        return told.text(b"\n", b"no call");
    };
    match front(alloc, behind) {
        Some((Message::Reply(reply), _)) => tell_reply(alloc, told, &called.call, &reply),
        _ => told.text(b"\n", b"no reply"),
    }
}

/// Tells the answer to a call that a Reply is.
fn tell_reply(alloc: Global, told: &mut Told, call: &Call, reply: &Reply)
    requires { IsShortReply reply.now }
{
    tell_operation(told, b"\nanswer to ", call);
    match read_answer(alloc, call, reply) {
        Ok(answer) => {
            tell_answer(alloc, told, &answer);
            tell_written(alloc, told, reply.id, call, &answer);
        }
        Err(fault) => {
            told.value(b"\n", &fault);
            tell_heard(told, &heard_in_reply(alloc, call, reply));
        }
    }
}

/// Tells an answer, and what the caller hears in it.
fn tell_answer(alloc: Global, told: &mut Told, answer: &Answer) {
    match answer {
        Answer::Plain(given) => tell_given(alloc, told, given),
        Answer::User(exception) => told.value(b"\nraises ", exception),
        Answer::System(exception, minor, completed) => {
            told.value(b"\nraises ", exception);
            told.number(b", minor ", u64::from(*minor));
            told.value(b", completed ", completed);
        }
    }
    match heard(alloc, answer) {
        Ok(heard) => tell_heard(told, &heard),
        Err(error) => told.value(b"\n", &error),
    }
}

/// Tells how an answer to a call is written, with this request_id.
fn tell_written(alloc: Global, told: &mut Told, id: u32, call: &Call, answer: &Answer) {
    match written(alloc, id, call, answer) {
        Some(Ok(reply)) => tell_encoded(alloc, told, &Message::Reply(reply)),
        Some(Err(fault)) => told.value(b"\nnot written: ", &fault),
        None => told.text(b"\n", b"too long"),
    }
}

/// The reply with an answer, unless that is too long to be written. The minor code of a system exception becomes 0.
fn written(alloc: Global, id: u32, call: &Call, answer: &Answer) -> Option<Result<Reply, CallFault>>
    ensures { IfSome result (λ made. IfOk made (λ reply. octets_in (Message.Reply reply) < 2 ^ 31)) }
{
    match answer {
        Answer::System(exception, _, completed) => {
            let own = Answer::system(*exception, *completed);
            Some(write_answer(alloc, id, call, &own))
        }
        _ if is_answer_short(answer) => Some(write_answer(alloc, id, call, answer)),
        _ => None,
    }
}

/// Tells what an operation gave.
fn tell_given(alloc: Global, told: &mut Told, given: &Given) {
    told.text(b"\n", b"gives");
    match given {
        Given::Nothing => told.text(b" ", b"nothing"),
        Given::Flag(flag) => told.value(b" ", flag),
        Given::Number(number) => told.number(b" ", u64::from(*number)),
        Given::Reference(reference) => tell_reference(alloc, told, b"", reference),
        Given::State(status) => told.value(b" ", status),
        Given::Ballot(vote) => told.value(b" ", vote),
        Given::Word(text) => told.text(b" ", text.bytes()),
        Given::Transaction(context) => tell_fields(alloc, told, context),
        Given::Found(Some(value)) => told.number(b" the value ", *value),
        Given::Found(None) => told.text(b" ", b"no value"),
    }
}

fn is_answer_short(answer: &Answer) -> bool
    ensures { IsTrue result → given_length answer.now < 2 ^ 31 }
{
    match answer {
        Answer::Plain(Given::Transaction(context)) => is_short(&context.tail),
        Answer::Plain(Given::Word(text)) => text.bytes().len() < MOST,
        _ => true,
    }
}

/// Tells what the caller hears.
fn tell_heard(told: &mut Told, heard: &Heard) {
    told.text(b"\n", b"heard ");
    match heard {
        Heard::Phase(PhaseHeard::Voted(vote)) => told.value(b"", vote),
        Heard::Phase(PhaseHeard::Heuristic(disposition)) => told.text(
            b"Heuristic ",
            disposition_text(*disposition),
        ),
        Heard::Told(status) => told.value(b"Told ", status),
        Heard::Enlisted(reference) => told.digits(b"Enlisted ", reference.bytes()),
        Heard::Phase(PhaseHeard::Done) => told.text(b"", b"Done"),
        Heard::Phase(PhaseHeard::RolledBack) => told.text(b"", b"RolledBack"),
        Heard::Phase(PhaseHeard::NotPrepared) => told.text(b"", b"NotPrepared"),
        Heard::Phase(PhaseHeard::NoObject) => told.text(b"", b"NoObject"),
        Heard::Phase(PhaseHeard::Other) => told.text(b"", b"Other"),
        Heard::Phase(PhaseHeard::Lost) => told.text(b"", b"Lost"),
        Heard::Phase(PhaseHeard::Starved) => told.text(b"", b"Starved"),
    }
}

fn disposition_text(disposition: Disposition) -> &'static [u8] {
    match disposition {
        Disposition::Committed => b"Committed",
        Disposition::RolledBack => b"RolledBack",
        Disposition::Mixed => b"Mixed",
        Disposition::Unknown => b"Unknown",
    }
}
