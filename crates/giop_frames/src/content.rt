ghost use Rattle.std.specs.Prelude.{◌≡◌, ◌≤◌, ◌<◌, ◌^◌, length, map, Ok, Err, IfErr, IfOk, OnErr};
ghost use Rattle.giop_frames.specs.Limits.{size_limit};
ghost use Rattle.giop_frames.specs.Fault.{Finds};
ghost use Rattle.giop_frames.specs.Message.{target_kept};
ghost use Rattle.giop_frames.specs.Layout.{kept_tail, message_with, tail_start};
ghost use Rattle.giop_frames.specs.Content.{GivesKept, message_by, start_by};
ghost use Rattle.giop_frames.specs.Walk.{IsAsFar, IsWalked, context_of, message_found, spanned, target_of, told_by};

use crate::fault::FrameFault;
use crate::found::{Found, FoundContext, FoundTarget, Span};
use crate::header::{HEADER_LENGTH, Header, Kind, behind, front};
use crate::layout::tail_gap;
use crate::message::{Contexts, Locate, Located, Message, Reply, Request, ServiceContext, Target};
use crate::walk::Walk;
use ots_model::Octets;
use std::alloc::{AllocError, Global};

/// A message, and the offset modulo 8 at which what it keeps behind its fields begins.
#[derive(Drop)]
pub struct Content {
    pub message: Message,
    pub start: u32,
}

/// The message with this header and this content.
pub fn read_message(alloc: Global, header: Header, content: &[u8]) -> Result<Content, FrameFault>
    requires { length content.now ≤ size_limit }
    ensures message { Finds (λ found. found.message) result (message_by header content.now) }
    ensures told { IfErr (message_by header content.now) (λ fault. result ≡ Err fault) }
    ensures memory { IfErr result (λ fault. fault ≡ FrameFault.Memory → GivesKept (message_by header content.now)) }
    ensures start { IfOk result (λ found. found.start ≡ start_by header content.now) }
{
    finish_message(alloc, header, content, &mut Walk::new(header))
}

/// The message whose first part has this header, with this content, over which a walk goes on to the end.
pub fn finish_message(
    alloc: Global,
    header: Header,
    content: &[u8],
    walk: &mut Walk,
) -> Result<Content, FrameFault>
    requires short { length content.now ≤ size_limit }
    requires walked { IsWalked header content.now walk.old }
    ensures message { Finds (λ found. found.message) result (message_by header content.now) }
    ensures told { IfErr (message_by header content.now) (λ fault. result ≡ Err fault) }
    ensures memory { IfErr result (λ fault. fault ≡ FrameFault.Memory → GivesKept (message_by header content.now)) }
    ensures start { IfOk result (λ found. found.start ≡ start_by header content.now) }
    ensures walked { IsWalked header content.now walk.new }
    ensures far { IsAsFar header content.now walk.new }
{
    walk.go_on(header, content)?;
    let place = walk.place;
    let octets = behind(content, place as usize - HEADER_LENGTH);
    let tail = kept_tail(header, place, octets);
    Ok(Content {
        message: build(alloc, header, content, &walk.found, tail)?,
        start: tail_start(header, place),
    })
}

/// The message with the fields that were found, and with what it keeps behind them.
fn build(
    alloc: Global,
    header: Header,
    content: &[u8],
    found: &Found,
    tail: &[u8],
) -> Result<Message, FrameFault>
    ensures message { Finds (λ m. m) result (message_found header content.now found.now tail.now) }
    ensures told { IfErr (message_found header content.now found.now tail.now) (λ fault. result ≡ Err fault) }
    ensures memory { IfErr result (λ fault. fault ≡ FrameFault.Memory
        → GivesKept (message_found header content.now found.now tail.now)) }
{
    match header.kind {
        Kind::Request => Ok(Message::Request(build_request(alloc, header, content, found, tail)?)),
        Kind::Reply => Ok(Message::Reply(build_reply(alloc, header, content, found, tail)?)),
        Kind::CancelRequest => Ok(Message::Cancel(found.id)),
        Kind::LocateRequest => Ok(Message::Locate(Locate {
            id: found.id,
            target: copy_target(alloc, content, found.target)?,
        })),
        Kind::LocateReply => Ok(Message::LocateReply(Located {
            id: found.id,
            status: found.status,
            rest: Octets::new(alloc, tail)?,
        })),
        Kind::CloseConnection => Ok(Message::Close),
        Kind::MessageError => Ok(Message::Error),
        Kind::Fragment => Err(FrameFault::BadFragment),
    }
}

fn build_request(
    alloc: Global,
    header: Header,
    content: &[u8],
    found: &Found,
    tail: &[u8],
) -> Result<Request, AllocError>
    ensures found { IfOk result (λ request.
        message_with header.order Kind.Request (told_by content.now found.now) tail.now ≡ Ok (Message.Request request)) }
    ensures memory { OnErr result
        (GivesKept (message_with header.order Kind.Request (told_by content.now found.now) tail.now)) }
{
    let target = copy_target(alloc, content, found.target)?;
    let operation = copy(alloc, content, found.operation)?;
    let contexts = copy_contexts(alloc, content, found.contexts())?;
    Ok(Request {
        id: found.id,
        flags: found.flags,
        target,
        operation,
        contexts,
        order: header.order,
        body: Octets::new(alloc, tail)?,
    })
}

fn build_reply(
    alloc: Global,
    header: Header,
    content: &[u8],
    found: &Found,
    tail: &[u8],
) -> Result<Reply, AllocError>
    ensures found { IfOk result (λ reply.
        message_with header.order Kind.Reply (told_by content.now found.now) tail.now ≡ Ok (Message.Reply reply)) }
    ensures memory { OnErr result
        (GivesKept (message_with header.order Kind.Reply (told_by content.now found.now) tail.now)) }
{
    Ok(Reply {
        id: found.id,
        status: found.status,
        contexts: copy_contexts(alloc, content, found.contexts())?,
        order: header.order,
        body: Octets::new(alloc, tail)?,
    })
}

/// The octets that were found.
fn copy(alloc: Global, content: &[u8], span: Span) -> Result<Octets, AllocError>
    ensures found { IfOk result (λ octets. octets ≡ spanned content.now span) }
    ensures needed { OnErr result (0 < length (spanned content.now span)) }
{
    Octets::new(alloc, front(behind(content, span.start), span.length))
}

fn copy_target(alloc: Global, content: &[u8], target: FoundTarget) -> Result<Target, AllocError>
    ensures found { IfOk result (λ copied. copied ≡ target_of content.now target) }
    ensures needed { OnErr result (0 < target_kept (target_of content.now target)) }
{
    match target {
        FoundTarget::Key(key) => Ok(Target::Key(copy(alloc, content, key)?)),
        FoundTarget::Profile => Ok(Target::Profile),
        FoundTarget::Reference => Ok(Target::Reference),
    }
}

fn copy_contexts(
    alloc: Global,
    content: &[u8],
    found: &[FoundContext],
) -> Result<Contexts, AllocError>
    ensures found { IfOk result (λ contexts. contexts ≡ map (context_of content.now) found.now) }
    ensures needed { OnErr result (0 < length found.now) }
{
    let mut contexts = Vec::new(alloc);
    for context in found {
        contexts.push(ServiceContext {
            id: context.id,
            bytes: copy(alloc, content, context.bytes)?,
        })?;
    }
    Ok(Contexts::from_vec(contexts))
}

/// What a message keeps of the octets behind its fields, which end at this place.
fn kept_tail(header: Header, place: u32, octets: &[u8]) -> &[u8]
    ensures { result.now ≡ kept_tail header.version header.kind place octets.now }
{
    match header.kind {
        Kind::Request | Kind::Reply => behind(
            octets,
            tail_gap(header.version, header.kind, place as usize),
        ),
        Kind::LocateReply => octets,
        _ => &[],
    }
}

/// The offset modulo 8 at which that begins.
fn tail_start(header: Header, place: u32) -> u32
    requires { place < 2 ^ 31 }
    ensures { result ≡ tail_start header.version header.kind place }
{
    let place = place as usize;
    ((place + tail_gap(header.version, header.kind, place)) % 8) as u32
}
