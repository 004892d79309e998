// A word as a request to the object that it is for, and what is heard of it.
ghost use Rattle.std.specs.Prelude.{◌≡◌, ◌≤◌, IfErr, IfOk, IfSome, length};
ghost use Rattle.giop_frames.specs.Encode.{spelling};
ghost use Rattle.giop_frames.specs.declared.layout.Version.TheVariants.{V1_2};
ghost use Rattle.giop_frames.specs.declared.message.Message.TheVariants as messages;
ghost use Rattle.giop_frames.specs.declared.message.Request.{Request as TheRequest};
ghost use Rattle.ots_outside.specs.declared.link.Outcome.TheVariants.{Replied};
ghost use Rattle.ots_calls.specs.declared.call.Call.TheVariants as handed;
ghost use Rattle.ots_sessions.specs.References as refs;
ghost use Rattle.outward_calls.specs.Words as words;
ghost use Rattle.outward_calls.specs.Words.{IsHeard, IsLostBy, IsPlace, IsRequestFor, IsSent, home};
ghost use Rattle.outward_calls.specs.WordsInside as inside;
ghost use Rattle.outward_calls.specs.WordsInside.{HearsFault, HearsOf, IsNowhere, IsStarved, IsUnspoken, heard_by};

use giop_frames::{FrameFault, KEY_LIMIT, Message, Reply, Request, Target, encode};
use giop_streams::Stream;
use ior_refs::{Iiop, IorFault, ObjectKey, ObjectRef, iiop};
use ots_calls::{Bare, Call, CallFault, Called, Handing, heard_in_reply, write_call};
use ots_model::tree::{Heard, Outward, Parent, Word};
use ots_model::{Endpoint, Octets, PhaseHeard, PhaseWord};
use ots_outside::{Link, LinkRefusal};
use ots_sessions::{MOST, coordinator_key, is_short_request, reference_to};
use std::alloc::{AllocError, Global};

/// Who sends words: a service, and the letter of the keys of the resources that it hands over with them.
#[derive(Clone, Copy)]
pub struct Sender {
    /// The number of the service.
    pub service: u64,
    /// The letter of the keys of its resources.
    pub resource_kind: u8,
}

/// Why no reply is heard. It is what is heard instead.
#[derive(Drop)]
struct Unheard(PhaseHeard);

impl From<AllocError> for Unheard {
    ghost use Rattle.ots_model.specs.declared.completion.Heard.TheVariants.{Starved};

    ghost from_gives = { λ _ unheard. unheard.0 ≡ Starved };

    fn from(_error: AllocError) -> Unheard {
        Unheard(PhaseHeard::Starved)
    }
}

/// Sends a word as a request to the object that its reference names, and says what is heard of it. It is one exchange of the
/// link, but where the reference tells no place or a key that is too long, which is heard as Other, and where memory is
/// wanting, which is heard as Starved.
pub fn send<L: Link>(
    alloc: Global,
    at: &Endpoint,
    sender: Sender,
    word: &Outward,
    link: &mut L,
) -> Heard
    ensures exchange { IfSome (L.exchanged link.old)
        (λ done. IsSent (home at.now sender.service sender.resource_kind) word.now result done (L.exchanged link.new)) }
    ensures lost { IsLostBy result (L.faults link.old) (L.faults link.new) }
    ensures later { L.faults link.old ≤ L.faults link.new }
{
    match ask(alloc, at, sender, word, link) {
        Ok(heard) => heard,
        Err(Unheard(heard)) => Heard::Phase(heard),
    }
}

/// The same, where each step may end it.
fn ask<L: Link>(
    alloc: Global,
    at: &Endpoint,
    sender: Sender,
    word: &Outward,
    link: &mut L,
) -> Result<Heard, Unheard>
    ensures exchange { IfSome (L.exchanged link.old)
        (λ done. IsSent (home at.now sender.service sender.resource_kind) word.now (heard_by result)
        done (L.exchanged link.new)) }
    ensures lost { IsLostBy (heard_by result) (L.faults link.old) (L.faults link.new) }
    ensures later { L.faults link.old ≤ L.faults link.new }
{
    let place = place_of(alloc, word)?;
    let called = called_for(alloc, at, sender, word)?;
    let request = request_for(alloc, at, sender, word, &place, &called)?;
    let to = Endpoint {
        host: place.host,
        port: place.port,
    };
    let mut reply = Vec::new(alloc);
    match link.invoke(&to, request.as_slice(), &mut reply) {
        Ok(()) => Ok(hear(alloc, word, &called.call, reply.as_slice())),
        Err(LinkRefusal::Failed) => Err(Unheard(PhaseHeard::Lost)),
        Err(LinkRefusal::Memory) => Err(Unheard(PhaseHeard::Starved)),
    }
}

/// The place and the key of the object that a word is for.
fn place_of(alloc: Global, word: &Outward) -> Result<Iiop, Unheard>
    ensures place { IfOk result (λ place. IsPlace (word.now).to place) }
    ensures short { IfOk result (λ place. length place.key ≤ 256) }
    ensures none { IfErr result (λ unheard. IsNowhere (word.now).to unheard.0) }
{
    let reference = match ObjectRef::from_bytes(alloc, &word.to) {
        Ok(reference) => reference,
        Err(fault) => return Err(unheard_reference(fault)),
    };
    let place = match iiop(alloc, &reference) {
        Ok(place) => place,
        Err(fault) => return Err(unheard_reference(fault)),
    };
    if place.key.bytes().len() > KEY_LIMIT {
        return Err(Unheard(PhaseHeard::Other));
    }
    Ok(place)
}

/// What is heard where a reference can't be read.
fn unheard_reference(fault: IorFault) -> Unheard
    ensures { result.0 ≡ inside.unread fault }
{
    match fault {
        IorFault::Memory => Unheard(PhaseHeard::Starved),
        _ => Unheard(PhaseHeard::Other),
    }
}

/// What a word calls.
fn called_for(
    alloc: Global,
    at: &Endpoint,
    sender: Sender,
    word: &Outward,
) -> Result<Called, Unheard>
    ensures called { IfOk result
        (λ called. called ≡ words.called_for (home at.now sender.service sender.resource_kind) word.now) }
    ensures none { IfErr result (λ unheard. IsStarved unheard.0) }
{
    Ok(Called {
        key: stand_in(&word.word),
        call: call_for(alloc, at, sender, word)?,
        retry: None,
        context: None,
    })
}

/// The call of a word.
#[tactic(auto, unfolding(crate::specs::Words::home))]
fn call_for(alloc: Global, at: &Endpoint, sender: Sender, word: &Outward) -> Result<Call, Unheard>
    ensures call { IfOk result
        (λ call. call ≡ words.call_for (home at.now sender.service sender.resource_kind) word.now (word.now).word) }
    ensures none { IfErr result (λ unheard. IsStarved unheard.0) }
{
    Ok(match word.word {
        Word::Phase(phase) => Call::Bare(bare_for(phase)),
        Word::Forget => Call::Bare(Bare::Forget),
        Word::BeforeCompletion => Call::Bare(Bare::BeforeCompletion),
        Word::AfterCompletion(status) => Call::AfterCompletion(status),
        Word::CommitSub(Parent::Branch(branch)) => {
            let key = coordinator_key(sender.service, &word.number, branch);
            handing(alloc, at, Handing::CommitSubtransaction, &key)?
        }
        Word::RollbackSub => Call::Bare(Bare::RollbackSubtransaction),
        Word::ReplayCompletion => {
            let key = resource_key_of(sender, word);
            handing(alloc, at, Handing::ReplayCompletion, &key)?
        }
        Word::RegisterResource => {
            let key = resource_key_of(sender, word);
            handing(alloc, at, Handing::RegisterResource, &key)?
        }
    })
}

/// The operation of a word of the two phases.
fn bare_for(phase: PhaseWord) -> Bare
    ensures { result ≡ words.bare_for phase }
{
    match phase {
        PhaseWord::Prepare => Bare::Prepare,
        PhaseWord::Commit => Bare::Commit,
        PhaseWord::CommitOnePhase => Bare::CommitOnePhase,
        PhaseWord::Rollback => Bare::Rollback,
    }
}

/// The call that hands over the reference to this object of the service.
fn handing(alloc: Global, at: &Endpoint, handing: Handing, key: &ObjectKey) -> Result<Call, Unheard>
    ensures call { IfOk result (λ call. call ≡ handed.Handing handing (refs.reference_to at.now key.now)) }
    ensures none { IfErr result (λ unheard. IsStarved unheard.0) }
{
    match reference_to(alloc, at, key) {
        Ok(reference) => Ok(Call::Handing(handing, reference)),
        Err(_) => Err(Unheard(PhaseHeard::Starved)),
    }
}

/// The key of the resource that sends a word to its superior.
fn resource_key_of(sender: Sender, word: &Outward) -> ObjectKey
    ensures { result ≡ words.resource_key_of sender.service sender.resource_kind word.now }
{
    ObjectKey {
        kind: sender.resource_kind,
        ..coordinator_key(sender.service, &word.number, 0)
    }
}

/// A key of the kind of objects that a word is for. The key in the reference takes its place.
fn stand_in(word: &Word) -> ObjectKey
    ensures { result ≡ record {
      kind = words.kind_for word.now;
      service = 0;
      life = 0;
      slot = 0;
      generation = 0;
      index = 0;
    } }
{
    let kind = match word {
        Word::Phase(_) | Word::Forget => b'R',
        Word::CommitSub(_) | Word::RollbackSub => b'A',
        Word::BeforeCompletion | Word::AfterCompletion(_) => b'Y',
        Word::ReplayCompletion => b'V',
        Word::RegisterResource => b'K',
    };
    ObjectKey {
        kind,
        service: 0,
        life: 0,
        slot: 0,
        generation: 0,
        index: 0,
    }
}

/// The octets of the request for a word to the object at a place. Its request_id is the serial of the word's number.
fn request_for(
    alloc: Global,
    at: &Endpoint,
    sender: Sender,
    word: &Outward,
    place: &Iiop,
    called: &Called,
) -> Result<Vec<u8>, Unheard>
    requires place { IsPlace (word.now).to place.now }
    requires key { length (place.now).key ≤ 256 }
    requires called { called.now ≡ words.called_for (home at.now sender.service sender.resource_kind) word.now }
    ensures spelled { IfOk result (λ octets. (request : TheRequest)
        × IsRequestFor (home at.now sender.service sender.resource_kind) word.now place.now request
        × (octets.items ≡ spelling V1_2 (messages.Request request))) }
    ensures none { IfErr result
        (λ unheard. IsUnspoken (home at.now sender.service sender.resource_kind) word.now place.now unheard.0) }
{
    let key = Octets::new(alloc, place.key.bytes())?;
    let request = match write_call(alloc, word.number.serial, called) {
        Ok(request) => Request {
            target: Target::Key(key),
            ..request
        },
        Err(fault) => {
            drop(key);
            return Err(unheard_call(fault));
        }
    };
    if !is_short_request(&request) {
        return Err(Unheard(PhaseHeard::Other));
    }
    let mut octets = Vec::new(alloc);
    match encode(alloc, &Message::Request(request), &mut octets) {
        Ok(()) => Ok(octets),
        Err(_) => Err(Unheard(PhaseHeard::Starved)),
    }
}

/// What is heard where a call can't be written.
fn unheard_call(fault: CallFault) -> Unheard
    ensures { result.0 ≡ inside.unwritten fault }
{
    match fault {
        CallFault::Memory => Unheard(PhaseHeard::Starved),
        _ => Unheard(PhaseHeard::Other),
    }
}

/// What is heard in the octets that were answered to a word: in the first message, where that is the reply to it.
fn hear(alloc: Global, word: &Outward, call: &Call, octets: &[u8]) -> Heard
    ensures { IsHeard ((word.now).number).serial call.now (Replied octets.now) result }
{
    let mut stream = Stream::new(alloc);
    if stream.feed(octets).is_err() {
        return Heard::Phase(PhaseHeard::Starved);
    }
    match stream.next() {
        Ok(Some(message)) => hear_message(alloc, word.number.serial, call, &message),
        Ok(None) => Heard::Phase(PhaseHeard::Other),
        Err(fault) => unheard_frame(fault),
    }
}

/// What is heard where no message can be read.
fn unheard_frame(fault: FrameFault) -> Heard
    ensures { HearsFault fault result }
{
    if fault == FrameFault::Memory {
        Heard::Phase(PhaseHeard::Starved)
    } else {
        Heard::Phase(PhaseHeard::Other)
    }
}

/// What is heard in the message that comes first.
fn hear_message(alloc: Global, id: u32, call: &Call, message: &Message) -> Heard
    ensures { HearsOf id call.now message.now result }
{
    match message {
        Message::Reply(reply) if is_reply_to(reply, id) => heard_in_reply(alloc, call, reply),
        _ => Heard::Phase(PhaseHeard::Other),
    }
}

/// Whether a reply is to the request with this request_id, and short.
fn is_reply_to(reply: &Reply, id: u32) -> bool
    ensures { result ≡ inside.is_reply_to id reply.now }
{
    reply.id == id && reply.body.bytes().len() <= MOST
}
