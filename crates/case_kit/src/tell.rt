//! What is told of replies and of words.

use crate::client::Asked;
use giop_frames::{Message, Reply, Request, Target};
use giop_streams::Stream;
use ior_refs::{ObjectRef, iiop, key_of};
use ots_calls::{Answer, Call, Called, Given, Handing, read_answer, read_call};
use ots_outside::{Exchange, Outcome};
use ots_sessions::{MOST, is_short_request};
use std::alloc::Global;
use std::io;
use std::io::Write;

/// How many messages a client is sent at most.
const MESSAGES: u32 = 1000;

/// How many octets of a line are told.
const LINE: usize = 80;

/// Tells the messages that a client was sent, behind what it asked.
pub fn tell_replies(
    alloc: Global,
    told: &mut Vec<u8>,
    front: &str,
    octets: &[u8],
    asked: &[Asked],
) -> io::Result<()> {
    let mut stream = Stream::new(alloc);
    if let Err(fault) = stream.feed(octets) {
        return writeln!(told, "{fault:?}");
    }
    for _ in 0..MESSAGES {
        match stream.next() {
            Ok(Some(message)) => {
                write!(told, "{front}")?;
                tell_message(alloc, told, asked, &message)?;
            }
            Ok(None) => break,
            Err(fault) => return writeln!(told, "{fault:?}"),
        }
    }
    Ok(())
}

/// Tells a message.
fn tell_message(
    alloc: Global,
    told: &mut Vec<u8>,
    asked: &[Asked],
    message: &Message,
) -> io::Result<()> {
    match message {
        Message::Reply(reply) => tell_reply(alloc, told, asked.get(reply.id as usize), reply),
        Message::LocateReply(located) => {
            let to = match asked.get(located.id as usize) {
                Some(asked) => asked.to,
                None => "another",
            };
            match located.status {
                0 => writeln!(told, "{to} locate: UNKNOWN_OBJECT"),
                1 => writeln!(told, "{to} locate: OBJECT_HERE"),
                status => writeln!(told, "{to} locate: status {status}"),
            }
        }
        Message::Error => writeln!(told, "MessageError"),
        _ => writeln!(told, "another message"),
    }
}

/// Tells a reply to what was asked. One to octets of a case has a request_id of its own.
fn tell_reply(
    alloc: Global,
    told: &mut Vec<u8>,
    asked: Option<&Asked>,
    reply: &Reply,
) -> io::Result<()> {
    let body = reply.body.bytes();
    match asked {
        Some(asked) if body.len() <= MOST => {
            let line = asked.line.get(..LINE).unwrap_or(asked.line);
            write!(told, "{} {line}: ", asked.to)?;
            match read_answer(alloc, &asked.call, reply) {
                Ok(answer) => tell_answer(alloc, told, &answer),
                Err(fault) => writeln!(told, "{fault:?}"),
            }
        }
        _ => writeln!(
            told,
            "reply {}: status {} {:?}",
            reply.id, reply.status, body
        ),
    }
}

/// Tells an answer.
fn tell_answer(alloc: Global, told: &mut Vec<u8>, answer: &Answer) -> io::Result<()> {
    match answer {
        Answer::Plain(given) => tell_given(alloc, told, given),
        Answer::User(exception) => writeln!(told, "{exception:?}"),
        Answer::System(exception, minor, completed) => {
            writeln!(told, "{exception:?} {minor} {completed:?}")
        }
    }
}

/// Tells what was given.
fn tell_given(alloc: Global, told: &mut Vec<u8>, given: &Given) -> io::Result<()> {
    match given {
        Given::Nothing => writeln!(told, "ok"),
        Given::Flag(flag) => writeln!(told, "{flag}"),
        Given::Number(number) => writeln!(told, "{number}"),
        Given::Word(word) => writeln!(told, "{:?}", word.bytes()),
        Given::State(status) => writeln!(told, "{status:?}"),
        Given::Ballot(vote) => writeln!(told, "{vote:?}"),
        Given::Reference(reference) => {
            tell_reference(alloc, told, reference)?;
            writeln!(told)
        }
        Given::Transaction(context) => writeln!(told, "a context of {} seconds", context.timeout),
        Given::Found(Some(value)) => writeln!(told, "{value}"),
        Given::Found(None) => writeln!(told, "none"),
    }
}

/// Tells a reference: the repository id, the key and the place.
fn tell_reference(alloc: Global, told: &mut Vec<u8>, reference: &ObjectRef) -> io::Result<()> {
    told.write_all(reference.type_id())?;
    match iiop(alloc, reference) {
        Ok(place) => {
            tell_key(told, place.key.bytes())?;
            write!(told, " at ")?;
            told.write_all(place.host.bytes())?;
            write!(told, ":{}", place.port)
        }
        Err(fault) => write!(told, " {fault:?}"),
    }
}

/// Tells the object that a key names.
fn tell_key(told: &mut Vec<u8>, octets: &[u8]) -> io::Result<()> {
    let Some(key) = key_of(octets) else {
        return write!(told, " {} octets", octets.len());
    };
    write!(told, " ")?;
    told.write_all(&[key.kind])?;
    write!(
        told,
        " {} {} {} {} {}",
        key.service, key.life, key.slot, key.generation, key.index
    )
}

/// Tells the words that went out.
pub fn tell_words(
    alloc: Global,
    told: &mut Vec<u8>,
    front: &str,
    words: &[Exchange],
) -> io::Result<()> {
    for word in words {
        tell_word(alloc, told, front, word)?;
    }
    Ok(())
}

/// Tells a word: where it went, the request that it was, and whether it was lost.
pub fn tell_word(
    alloc: Global,
    told: &mut Vec<u8>,
    front: &str,
    word: &Exchange,
) -> io::Result<()> {
    write!(told, "{front}-> ")?;
    told.write_all(word.to.host.bytes())?;
    write!(told, ":{} ", word.to.port)?;
    let mut stream = Stream::new(alloc);
    match (stream.feed(word.request.bytes()), stream.next()) {
        (Ok(()), Ok(Some(Message::Request(request)))) => tell_request(alloc, told, &request)?,
        _ => write!(told, "no request")?,
    }
    match &word.outcome {
        Outcome::Replied(_) => writeln!(told),
        Outcome::Refused(refusal) => writeln!(told, " {refusal:?}"),
    }
}

/// Tells the request that a word was. Of a registration, or an ask, it is told which resource it hands over.
fn tell_request(alloc: Global, told: &mut Vec<u8>, request: &Request) -> io::Result<()> {
    told.write_all(request.operation.bytes())?;
    if let Target::Key(key) = &request.target {
        tell_key(told, key.bytes())?;
    }
    write!(told, " #{}", request.id)?;
    if !request.contexts.items().is_empty() {
        write!(told, " with contexts")?;
    }
    if let Some(resource) = resource_in(alloc, request) {
        write!(told, " of ")?;
        tell_reference(alloc, told, &resource)?;
    }
    Ok(())
}

/// The resource that a registration, or an ask, hands over.
fn resource_in(alloc: Global, request: &Request) -> Option<ObjectRef> {
    if !is_short_request(request) {
        return None;
    }
    let Called { call, .. } = read_call(alloc, request).ok()?;
    match call {
        Call::Handing(Handing::RegisterResource | Handing::ReplayCompletion, resource) => {
            Some(resource)
        }
        _ => None,
    }
}
