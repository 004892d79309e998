ghost use Rattle.std.specs.Prelude.{◌≡◌, ◌≤◌, ◌<◌, ◌^◌, false, Err, IfErr, Ok, OnOk};
ghost use Rattle.giop_frames.specs.Encode.{octets_in, spelling};
ghost use Rattle.giop_frames.specs.declared.layout.Version.TheVariants.{V1_2};
ghost use Rattle.giop_streams.specs.Stream.{part_at};
ghost use Rattle.ots_outside.specs.Sink.{Takes};
ghost use Rattle.ots_sessions.specs.Sessions as sessions;
ghost use Rattle.ots_sessions.specs.Sessions.{IsLocated, IsSession, Serves, sides};
ghost use Rattle.ots_sessions.specs.SessionsInside.{EndsAt, EndsGoing, GoesOn, IsOfFault, IsToldSo, IsUnwritten};

use crate::dispatching::dispatch;
use crate::fault::ServeFault;
use crate::servant::Servant;
use crate::short::is_short_request;
use giop_frames::{FrameFault, Locate, Located, Message, Request, Target, encode};
use giop_streams::Stream;
use ior_refs::{key_of, same_octets_same_key};
use ots_model::Octets;
use ots_outside::{Sink, Source};
use std::alloc::Global;
use std::sync::Wait;

/// How many octets are read at once.
const PIECE: usize = 4096;

/// The locate_status UNKNOWN_OBJECT.
const UNKNOWN_OBJECT: u32 = 0;

/// The locate_status OBJECT_HERE.
const OBJECT_HERE: u32 = 1;

/// How a session ends.
#[derive(Clone, Copy, Debug, PartialEq, Eq)]
pub enum SessionEnd {
    /// The input has ended between messages, or with CloseConnection.
    Closed,
    /// The input has ended inside a message.
    Cut,
    /// What was read is no message. The peer was told so (MessageError).
    Refused(FrameFault),
    /// Reading failed.
    ReadFault,
    /// Writing failed.
    WriteFault,
    /// Memory ran out.
    Memory,
}

impl From<ServeFault> for SessionEnd {
    ghost use Rattle.std.specs.Prelude.{◌≡◌};
    ghost use Rattle.ots_sessions.specs.declared.session.SessionEnd.TheVariants.{Memory};

    ghost from_gives = { λ _ end. end ≡ Memory };

    fn from(_fault: ServeFault) -> SessionEnd {
        SessionEnd::Memory
    }
}

/// Answers the requests of a connection by a servant, one after another, until it ends. What the peer sends comes from the source,
/// and what it is sent goes to the sink.
#[tactic(auto, using(crate::proofs::Ends::starts, crate::proofs::Ends::ends_read, crate::proofs::Ends::ends_whole, crate::proofs::Ends::ends_cut, crate::proofs::Ends::ends_hungry, crate::proofs::Ends::ends_by, crate::proofs::Ends::reads_on))]
pub fn serve_session<R: Wait, S: Servant, I: Source, O: Sink>(
    rt: &R,
    alloc: Global,
    servant: &mut S,
    source: &mut I,
    sink: &mut O,
) -> SessionEnd
    ensures session { IsSession S.finds S.answers result
        (I.remaining source.old) (I.remaining source.new)
        (sides (O.taken sink.old) servant.old) (sides (O.taken sink.new) servant.new)
        (I.faults source.old, I.faults source.new) (O.faults sink.old, O.faults sink.new) }
    ensures later { S.faults servant.old ≤ S.faults servant.new }
{
    let mut stream = Stream::new(alloc);
    let mut piece = [0; PIECE];
    for _ in rt.forever() {
        let count = match source.read(&mut piece) {
            Ok(0) if stream.unfinished() => return SessionEnd::Cut,
            Ok(0) => return SessionEnd::Closed,
            Ok(count) => count,
            Err(_) => return SessionEnd::ReadFault,
        };
        if stream.feed(&piece[..count]).is_err() {
            return SessionEnd::Memory;
        }
        match serve_messages(rt, alloc, servant, sink, &mut stream) {
            Ok(()) => {}
            Err(end) => return end,
        }
    }
    unreachable!()
}

/// Tells the peer that what was read is no message.
#[tactic(auto, using(crate::proofs::Going::untorn, crate::proofs::Going::told_unwritten, crate::proofs::Going::of_unwritten))]
fn refuse<O: Sink>(alloc: Global, sink: &mut O, fault: FrameFault) -> SessionEnd
    ensures told { IsToldSo result (O.taken sink.old) (O.taken sink.new) (O.faults sink.old, O.faults sink.new) }
    ensures fault { IsOfFault result fault }
    ensures later { O.faults sink.old ≤ O.faults sink.new }
{
    if fault == FrameFault::Memory {
        return SessionEnd::Memory;
    }
    match write(alloc, sink, &Message::Error) {
        Ok(()) => SessionEnd::Refused(fault),
        Err(end) => end,
    }
}

/// Answers the requests that have come whole.
#[tactic(auto, using(crate::proofs::Going::goes_nowhere, crate::proofs::Going::goes_on, crate::proofs::Ends::ends_later))]
fn serve_messages<R: Wait, S: Servant, O: Sink>(
    rt: &R,
    alloc: Global,
    servant: &mut S,
    sink: &mut O,
    stream: &mut Stream,
) -> Result<(), SessionEnd>
    ensures goes_on { OnOk result (GoesOn S.finds S.answers stream.old stream.new
        (sides (O.taken sink.old) servant.old) (sides (O.taken sink.new) servant.new)) }
    ensures partial { OnOk result (part_at stream.new.versions stream.new.rest ≡ Err FrameFault.Short) }
    ensures ends { IfErr result (λ end. EndsGoing S.finds S.answers end stream.old
        (sides (O.taken sink.old) servant.old) (sides (O.taken sink.new) servant.new)
        (O.faults sink.old, O.faults sink.new)) }
    ensures later { S.faults servant.old ≤ S.faults servant.new }
    ensures counts { O.faults sink.old ≤ O.faults sink.new }
{
    for _ in rt.forever() {
        match serve_next(alloc, servant, sink, stream) {
            Ok(true) => {}
            Ok(false) => return Ok(()),
            Err(end) => return Err(end),
        }
    }
    unreachable!()
}

/// Answers the next message that has come whole, where there is one.
#[tactic(auto, using(crate::proofs::Going::step_goes, crate::proofs::Going::step_none, crate::proofs::Going::step_ends, crate::proofs::Going::step_refused))]
fn serve_next<S: Servant, O: Sink>(
    alloc: Global,
    servant: &mut S,
    sink: &mut O,
    stream: &mut Stream,
) -> Result<bool, SessionEnd>
    ensures goes_on { OnOk result (GoesOn S.finds S.answers stream.old stream.new
        (sides (O.taken sink.old) servant.old) (sides (O.taken sink.new) servant.new)) }
    ensures partial { result ≡ Ok false → part_at stream.new.versions stream.new.rest ≡ Err FrameFault.Short }
    ensures ends { IfErr result (λ end. EndsGoing S.finds S.answers end stream.old
        (sides (O.taken sink.old) servant.old) (sides (O.taken sink.new) servant.new)
        (O.faults sink.old, O.faults sink.new)) }
    ensures later { S.faults servant.old ≤ S.faults servant.new }
    ensures counts { O.faults sink.old ≤ O.faults sink.new }
{
    let message = match stream.next() {
        Ok(Some(message)) => message,
        Ok(None) => return Ok(false),
        Err(fault) => {
            let end = refuse(alloc, sink, fault);
            return Err(end);
        }
    };
    match serve_message(alloc, servant, sink, &message) {
        Ok(()) => Ok(true),
        Err(end) => Err(end),
    }
}

/// Answers a message, where it is a request that wants a reply, or a LocateRequest.
#[tactic(auto, using(crate::proofs::Going::at_starved, crate::proofs::Going::at_reply, crate::proofs::Going::at_located, crate::proofs::Going::at_too_long))]
fn serve_message<S: Servant, O: Sink>(
    alloc: Global,
    servant: &mut S,
    sink: &mut O,
    message: &Message,
) -> Result<(), SessionEnd>
    ensures answered { OnOk result (Serves S.finds S.answers message.now
        (sides (O.taken sink.old) servant.old) (sides (O.taken sink.new) servant.new)) }
    ensures ends { IfErr result (λ end. EndsAt S.finds S.answers message.now end
        (sides (O.taken sink.old) servant.old) (sides (O.taken sink.new) servant.new)
        (O.faults sink.old, O.faults sink.new)) }
    ensures later { S.faults servant.old ≤ S.faults servant.new }
    ensures counts { O.faults sink.old ≤ O.faults sink.new }
{
    match message {
        Message::Request(request) => {
            if !is_short_request(request) {
                return Err(refuse(alloc, sink, FrameFault::TooLarge(0)));
            }
            let reply = dispatch(alloc, servant, request)?;
            if wants_reply(request) {
                write(alloc, sink, &Message::Reply(reply))?;
            }
            Ok(())
        }
        Message::Locate(locate) => {
            let located = locate_object(alloc, servant, locate);
            write(alloc, sink, &Message::LocateReply(located))?;
            Ok(())
        }
        Message::Close => Err(SessionEnd::Closed),
        Message::Cancel(_) | Message::Reply(_) | Message::LocateReply(_) | Message::Error => Ok(()),
    }
}

/// Whether a request wants a reply.
fn wants_reply(request: &Request) -> bool
    ensures { result ≡ sessions.wants_reply request.now }
{
    request.flags % 2 == 1
}

/// The reply to a LocateRequest.
#[tactic(auto, using(crate::proofs::Located::located_key, crate::proofs::Located::located_no_key, crate::proofs::Located::located_profile, crate::proofs::Located::located_reference))]
fn locate_object<S: Servant>(alloc: Global, servant: &mut S, locate: &Locate) -> Located
    ensures located { IsLocated S.finds servant.old locate.now result servant.new }
    ensures later { S.faults servant.old ≤ S.faults servant.new }
{
    same_octets_same_key();
    let octets = match &locate.target {
        Target::Key(octets) => octets,
        Target::Profile => return located(alloc, locate.id, false),
        Target::Reference => return located(alloc, locate.id, false),
    };
    match key_of(octets.bytes()) {
        Some(key) => {
            let here = servant.is_there(&key);
            located(alloc, locate.id, here)
        }
        None => located(alloc, locate.id, false),
    }
}

/// The reply that an object is here, or that it isn't known.
fn located(alloc: Global, id: u32, here: bool) -> Located
    ensures { result ≡ sessions.located id here }
{
    Located {
        id,
        status: if here { OBJECT_HERE } else { UNKNOWN_OBJECT },
        rest: Octets::from_vec(Vec::new(alloc)),
    }
}

/// Writes a message.
#[tactic(auto, using(crate::proofs::Going::untorn, crate::proofs::Going::torn_by))]
fn write<O: Sink>(alloc: Global, sink: &mut O, message: &Message) -> Result<(), SessionEnd>
    requires { octets_in message.now < 2 ^ 31 }
    ensures written { OnOk result (Takes (O.taken sink.old) (spelling V1_2 message.now) (O.taken sink.new)) }
    ensures unwritten { IfErr result (λ end. IsUnwritten end (spelling V1_2 message.now)
        (O.taken sink.old) (O.taken sink.new) (O.faults sink.old, O.faults sink.new)) }
    ensures later { O.faults sink.old ≤ O.faults sink.new }
{
    let mut octets = Vec::new(alloc);
    if encode(alloc, message, &mut octets).is_err() {
        return Err(SessionEnd::Memory);
    }
    match sink.write(octets.as_slice()) {
        Ok(()) => Ok(()),
        Err(_) => Err(SessionEnd::WriteFault),
    }
}
