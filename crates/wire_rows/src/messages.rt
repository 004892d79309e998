//! What is told of messages.
ghost use Rattle.std.specs.Prelude.{◌+◌, ◌<◌, ◌≤◌, ◌^◌, All, IfOk, IfSome, IsTrue, length};
ghost use Rattle.giop_frames.specs.Encode.{octets_in, octets_in_contexts, octets_in_target};
ghost use Rattle.wire_rows.specs.Short.{IsShort, IsShortReply, IsShortRequest};

use crate::told::Told;
use crate::values::{MOST, short};
use giop_frames::{
    Decoded, FrameFault, Message, Reply, Request, ServiceContext, Target, decode, encode,
};
use std::alloc::Global;

/// How many octets of a field are told.
const TOLD: usize = 64;

/// What is in front of the octets. A message that is too long to be written is refused here, once for all that is done with it.
fn decoded(alloc: Global, octets: &[u8]) -> Result<Decoded, FrameFault>
    ensures { IfOk result (λ found. IsShort found.message) }
{
    let found = decode(alloc, short(octets))?;
    if is_short(&found.message) {
        Ok(found)
    } else {
        Err(FrameFault::NotWritten)
    }
}

/// The message in front of the octets, and what stands behind it.
pub fn front(alloc: Global, octets: &[u8]) -> Option<(Message, &[u8])>
    ensures { IfSome result (λ found. IsShort found.0) }
{
    match decoded(alloc, octets) {
        Ok(found) => Some((found.message, octets.get(found.used as usize..)?)),
        Err(_) => None,
    }
}

/// Tells the message in front of these octets, and how it is written.
pub fn tell(alloc: Global, told: &mut Told, octets: &[u8]) {
    match decoded(alloc, octets) {
        Ok(found) => {
            tell_fields(told, &found.message);
            tell_written(alloc, told, &found.message, octets);
        }
        Err(fault) => told.value(b"\n", &fault),
    }
}

fn tell_fields(told: &mut Told, message: &Message) {
    match message {
        Message::Request(request) => tell_request(told, request),
        Message::Reply(reply) => tell_reply(told, reply),
        Message::Cancel(id) => told.number(b"\nCancelRequest ", u64::from(*id)),
        Message::Locate(locate) => {
            told.number(b"\nLocateRequest ", u64::from(locate.id));
            tell_target(told, &locate.target);
        }
        Message::LocateReply(located) => {
            told.number(b"\nLocateReply ", u64::from(located.id));
            told.number(b" status ", u64::from(located.status));
            tell_octets(told, b"\nrest ", located.rest.bytes());
        }
        Message::Close => told.text(b"\n", b"CloseConnection"),
        Message::Error => told.text(b"\n", b"MessageError"),
    }
}

fn tell_request(told: &mut Told, request: &Request) {
    told.number(b"\nRequest ", u64::from(request.id));
    told.number(b" flags ", u64::from(request.flags));
    told.value(b" ", &request.order);
    tell_target(told, &request.target);
    tell_octets(told, b"\noperation ", request.operation.bytes());
    tell_contexts(told, request.contexts.items());
    tell_octets(told, b"\nbody ", request.body.bytes());
}

fn tell_reply(told: &mut Told, reply: &Reply) {
    told.number(b"\nReply ", u64::from(reply.id));
    told.number(b" status ", u64::from(reply.status));
    told.value(b" ", &reply.order);
    tell_contexts(told, reply.contexts.items());
    tell_octets(told, b"\nbody ", reply.body.bytes());
}

fn tell_target(told: &mut Told, target: &Target) {
    match target {
        Target::Key(key) => tell_octets(told, b"\nkey ", key.bytes()),
        Target::Profile => told.text(b"\n", b"profile"),
        Target::Reference => told.text(b"\n", b"reference"),
    }
}

fn tell_contexts(told: &mut Told, contexts: &[ServiceContext]) {
    for context in contexts {
        told.number(b"\ncontext ", u64::from(context.id));
        tell_octets(told, b" of ", context.bytes.bytes());
    }
}

/// Tells how many octets these are, and what they begin with.
fn tell_octets(told: &mut Told, what: &[u8], octets: &[u8]) {
    told.number(what, octets.len() as u64);
    if octets.is_empty() {
        return;
    }
    let front = &octets[..octets.len().min(TOLD)];
    told.digits(b" ", front);
    if front.len() < octets.len() {
        told.text(b"..", b"");
    }
}

/// Tells how a message is written that stands in front of these octets.
fn tell_written(alloc: Global, told: &mut Told, message: &Message, octets: &[u8])
    requires { octets_in message.now < 2 ^ 31 }
{
    match written(alloc, message) {
        Ok(written) => tell_again(told, &written, octets),
        Err(fault) => told.value(b"\nnot written: ", &fault),
    }
}

fn tell_again(told: &mut Told, written: &[u8], octets: &[u8]) {
    if octets.starts_with(written) {
        told.text(b"\n", b"written as it was");
    } else {
        told.digits(b"\nwritten ", written);
    }
}

/// The octets of a message.
fn written(alloc: Global, message: &Message) -> Result<Vec<u8>, FrameFault>
    requires { octets_in message.now < 2 ^ 31 }
{
    let mut octets = Vec::new(alloc);
    encode(alloc, message, &mut octets)?;
    Ok(octets)
}

/// Tells how a message is encoded.
pub fn tell_encoded(alloc: Global, told: &mut Told, message: &Message)
    requires { octets_in message.now < 2 ^ 31 }
{
    match written(alloc, message) {
        Ok(written) => told.digits(b"\nwritten ", &written),
        Err(fault) => told.value(b"\nnot encoded: ", &fault),
    }
}

fn is_short(message: &Message) -> bool
    ensures { IsTrue result → IsShort message.now }
{
    match message {
        Message::Request(request) => is_short_request(request),
        Message::Reply(reply) => is_short_reply(reply),
        Message::Locate(locate) => is_short_target(&locate.target),
        Message::LocateReply(located) => located.rest.bytes().len() <= MOST,
        Message::Cancel(_) | Message::Close | Message::Error => true,
    }
}

/// Whether a Request has few octets.
fn is_short_request(request: &Request) -> bool
    ensures { IsTrue result → IsShortRequest request.now }
{
    let fields = request.operation.bytes().len() <= MOST && request.body.bytes().len() <= MOST;
    fields && is_short_target(&request.target) && are_short(request.contexts.items())
}

/// Whether a Reply has few octets.
fn is_short_reply(reply: &Reply) -> bool
    ensures { IsTrue result → IsShortReply reply.now }
{
    reply.body.bytes().len() <= MOST && are_short(reply.contexts.items())
}

fn is_short_target(target: &Target) -> bool
    ensures { IsTrue result → octets_in_target target.now ≤ 1000000 }
{
    match target {
        Target::Key(key) => key.bytes().len() <= MOST,
        Target::Profile | Target::Reference => true,
    }
}

/// Whether the contexts are few, and each has few octets.
#[tactic(auto, using(crate::proofs::Contexts::each_short, crate::proofs::Contexts::few_octets))]
fn are_short(contexts: &[ServiceContext]) -> bool
    ensures each { IsTrue result → All (λ context. length context.bytes < 2 ^ 31) contexts.now }
    ensures together { IsTrue result → length contexts.now + octets_in_contexts contexts.now ≤ 2 ^ 28 }
{
    contexts.len() <= 16 && is_each_short(contexts)
}

fn is_each_short(contexts: &[ServiceContext]) -> bool
    ensures { IsTrue result → All (λ context. length context.bytes ≤ 1000000) contexts.now }
{
    contexts
        .iter()
        .all(|context| context.bytes.bytes().len() <= MOST)
}
