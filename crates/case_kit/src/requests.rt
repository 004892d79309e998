//! The messages of a client.
ghost use Rattle.std.specs.Prelude.{◌≡◌, ◌<◌, ◌≤◌, ◌^◌, IfOk, IsTrue};
ghost use Rattle.giop_frames.specs.Encode.{octets_in, octets_in_target};
ghost use Rattle.ots_calls.specs.Writing.{carried_length, handed_length};
ghost use Rattle.ots_context.specs.Writing.{kept_length};

use crate::text::{front, known, number, numbers, octets_of};
use cdr_values::Order;
use giop_frames::{Contexts, Locate, Message, Request, Target, encode};
use ior_refs::{ObjectKey, ObjectRef, key_octets, make_ref, parse_ior};
use otid_names::Otid;
use ots_calls::{Call, Called, Operation, write_call};
use ots_context::{AnyTail, Context, Identities, Identity};
use ots_model::{Endpoint, Octets};
use ots_sessions::{MOST, type_id_of};
use std::alloc::Global;
use std::io;

/// The number of the service whose objects are named by their host alone.
const OTHER_SERVICE: u64 = 9;

/// The port of these objects.
const PORT: u16 = 7;

/// The key that these words say.
pub fn key_of_words(alloc: Global, words: &str) -> io::Result<ObjectKey> {
    let (kind, rest) = front(words);
    let numbers = numbers(alloc, rest)?;
    match (kind.as_bytes(), numbers.as_slice()) {
        ([kind], [service, life, slot, generation, index]) => Ok(ObjectKey {
            kind: *kind,
            service: u64::from(*service),
            life: *life,
            slot: *slot,
            generation: u64::from(*generation),
            index: *index,
        }),
        _ => known(None),
    }
}

/// The octets of the message that a line is, for this object, under this request_id.
pub fn message_octets(
    alloc: Global,
    id: u32,
    key: &ObjectKey,
    flags: u8,
    line: &str,
) -> io::Result<Vec<u8>> {
    let (word, rest) = front(line);
    let target = Target::Key(Octets::new(alloc, &key_octets(key))?);
    let message = match word {
        "locate" => Message::Locate(Locate { id, target }),
        "raw" => Message::Request(raw(alloc, id, flags, target, rest)?),
        "cancel" => Message::Cancel(id),
        _ => Message::Close,
    };
    let mut octets = Vec::new(alloc);
    if is_short(&message) {
        known(encode(alloc, &message, &mut octets).ok())?;
    }
    Ok(octets)
}

/// A request with the operation and the body that these words say.
fn raw(alloc: Global, id: u32, flags: u8, target: Target, words: &str) -> io::Result<Request> {
    let (operation, body) = front(words);
    Ok(Request {
        id,
        flags,
        target,
        operation: Octets::new(alloc, operation.as_bytes())?,
        contexts: Contexts::from_vec(Vec::new(alloc)),
        order: Order::Big,
        body: Octets::from_vec(octets_of(alloc, body)?),
    })
}

/// The octets of the request of a call, with these response_flags.
pub fn call_octets(alloc: Global, id: u32, flags: u8, called: &Called) -> io::Result<Vec<u8>>
    requires call { handed_length (called.now).call < 2 ^ 31 }
    requires context { carried_length (called.now).context < 2 ^ 31 }
{
    let Ok(request) = write_call(alloc, id, called) else {
        return known(None);
    };
    let message = Message::Request(Request { flags, ..request });
    let mut octets = Vec::new(alloc);
    known(encode(alloc, &message, &mut octets).ok())?;
    Ok(octets)
}

/// The call that a line is on an object of this kind.
pub fn call_of_line(alloc: Global, kind: u8, line: &str) -> io::Result<Call>
    ensures { IfOk result (λ call. handed_length call < 2 ^ 31) }
{
    let (name, rest) = front(line);
    match Operation::named(kind, name.as_bytes()) {
        Some(operation) => call_of(alloc, operation, rest),
        None => known(None),
    }
}

/// The call of an operation, with what it takes.
fn call_of(alloc: Global, operation: Operation, rest: &str) -> io::Result<Call>
    ensures { IfOk result (λ call. handed_length call < 2 ^ 31) }
{
    match operation {
        Operation::Bare(bare) => Ok(Call::Bare(bare)),
        Operation::Handing(handing) => { Ok(Call::Handing(handing, reference(alloc, b'R', rest)?)) }
        Operation::Create => Ok(Call::Create(number(rest)?)),
        Operation::CommitTransaction => Ok(Call::CommitTransaction(rest == "reports")),
        Operation::Put => put(rest),
        Operation::Get => Ok(Call::Get(known(rest.parse().ok())?)),
        Operation::IsA => is_a(alloc, rest),
        _ => known(None),
    }
}

/// The call `put`, with this cell and this value.
fn put(words: &str) -> io::Result<Call>
    ensures { IfOk result (λ call. handed_length call < 2 ^ 31) }
{
    let (cell, value) = front(words);
    Ok(Call::Put(known(cell.parse().ok())?, known(value.parse().ok())?))
}

/// The call `_is_a`, with this repository id.
fn is_a(alloc: Global, id: &str) -> io::Result<Call>
    ensures { IfOk result (λ call. handed_length call < 2 ^ 31) }
{
    let id = Octets::new(alloc, id.as_bytes())?;
    if id.bytes().len() > MOST {
        return known(None);
    }
    Ok(Call::IsA(id))
}

/// The reference that a word says, or one to an object of this kind at this host.
pub fn reference(alloc: Global, kind: u8, word: &str) -> io::Result<ObjectRef> {
    let text = word.as_bytes();
    if text.starts_with(b"IOR:") && text.len() <= MOST {
        return known(parse_ior(alloc, text).ok());
    }
    let at = Endpoint {
        host: Octets::new(alloc, text)?,
        port: PORT,
    };
    let key = ObjectKey {
        kind,
        service: OTHER_SERVICE,
        life: 0,
        slot: 0,
        generation: 0,
        index: if kind == b'V' { 1 } else { 0 },
    };
    known(make_ref(alloc, type_id_of(kind), &at, &key).ok())
}

/// The context of the transaction that these words say last, behind its parents, from the top-level one down.
pub fn context_of_words(alloc: Global, words: &str) -> io::Result<Context>
    ensures { IfOk result (λ context. kept_length context.tail ≡ 0) }
{
    let mut identities = Vec::new(alloc);
    let mut coordinator = None;
    for word in words.split(' ') {
        match coordinator.take() {
            Some(named) => identities.push(identity(alloc, named, word)?)?,
            None => coordinator = Some(word),
        }
    }
    let current = known(identities.pop())?;
    identities.reverse();
    Ok(Context {
        timeout: 0,
        current,
        parents: Identities::from_vec(identities),
        tail: AnyTail::Null,
    })
}

/// The identity of a transaction with this coordinator and the tid of these digits.
fn identity(alloc: Global, coordinator: &str, digits: &str) -> io::Result<Identity> {
    let tid = octets_of(alloc, digits)?;
    Ok(Identity {
        coord: reference(alloc, b'K', coordinator)?,
        term: reference(alloc, b'T', coordinator)?,
        otid: known(Otid::new(alloc, 0, 0, tid.as_slice()).ok())?,
    })
}

/// Whether a message that is no call has few octets.
fn is_short(message: &Message) -> bool
    ensures { IsTrue result → octets_in message.now < 2 ^ 31 }
{
    match message {
        Message::Request(request) => {
            let fields = request.operation.bytes().len() <= MOST
                && request.body.bytes().len() <= MOST;
            fields && is_short_target(&request.target) && request.contexts.items().is_empty()
        }
        Message::Locate(locate) => is_short_target(&locate.target),
        Message::Cancel(_) | Message::Close | Message::Error => true,
        Message::Reply(_) | Message::LocateReply(_) => false,
    }
}

fn is_short_target(target: &Target) -> bool
    ensures { IsTrue result → octets_in_target target.now ≤ 1000000 }
{
    match target {
        Target::Key(key) => key.bytes().len() <= MOST,
        Target::Profile | Target::Reference => true,
    }
}
