ghost use Rattle.std.specs.Prelude.{◌≡◌, ℕ, true, false, ◌≢◌, ◌==◌, ◌<◌, ◌≤◌, ◌+◌, min, length, drop, None, Err, IfNone, IfSome, Ok, IfErr, IfOk, OnErr, OnOk};
ghost use Rattle.std.specs.List.{position as position_of};
ghost use Rattle.giop_frames.specs.Limits.{size_limit};
ghost use Rattle.giop_streams.specs.Limits.{unfinished_limit};
ghost use Rattle.giop_frames.specs.Fault.{Fails};
ghost use Rattle.giop_frames.specs.Content.{message_by};
ghost use Rattle.giop_frames.specs.Header.{content_behind, is_fragment};
ghost use Rattle.giop_streams.specs.Held.{AreShort};
ghost use Rattle.giop_streams.specs.HeldInside.{Judges};
ghost use Rattle.giop_streams.specs.Stream.{id_of, may_be_fragmented, may_be_part, may_go_on, may_stand, opening, numbered, part_at, part_header_at, part_of, so_far, with_begun};
ghost use Rattle.giop_streams.specs.StreamInside.{FindsPart, Follows, IsAt, ReadsId};

use crate::framed::{Framed, frame};
use crate::unfinished::Unfinished;
use cdr_values::{Order, Reader};
use giop_frames::{
    FrameFault, HEADER_LENGTH, Header, HeaderWalk, Kind, Version, Walk, behind, front, read_message,
};
use std::alloc::Global;

/// How many messages of a stream are unfinished at once (our profile).
pub const UNFINISHED_LIMIT: usize = 8;

/// The header of the part in front of the octets, where the part is whole. A walk goes on over it, as its octets come.
#[tactic(auto, unfolding(crate::specs::Stream::part_at))]
pub fn whole_part(
    versions: &[Version],
    walk: &mut HeaderWalk,
    octets: &[u8],
) -> Result<Option<Header>, FrameFault>
    requires follows { Follows versions.now octets.now walk.old }
    ensures follows { Follows versions.now octets.now walk.new }
    ensures looked { result ≡ Ok None → walk.new.count ≡ min 12 (length octets.now) }
    ensures part { IfOk result (FindsPart versions.now octets.now) }
    ensures refused { IfErr result
        (λ fault. (part_at versions.now octets.now ≡ Err fault) × (fault ≢ FrameFault.Short)) }
    ensures memory { IfErr result (λ fault. fault ≢ FrameFault.Memory) }
{
    match walk_header(versions, walk, octets) {
        Err(FrameFault::Short) => Ok(None),
        Err(fault) => Err(fault),
        Ok(header) if octets.len() < HEADER_LENGTH + header.size as usize => Ok(None),
        Ok(header) => Ok(Some(header)),
    }
}

/// The content of the whole part with this header in front of the octets.
pub fn content_of(header: Header, octets: &[u8]) -> &[u8]
    requires { 12 + header.size ≤ length octets.now }
    ensures { result.now ≡ content_behind header octets.now }
{
    front(behind(octets, HEADER_LENGTH), header.size as usize)
}

/// The header of the part in front of the octets, or its first fault. The walk goes on over those that it hasn't taken.
#[tactic(auto, unfolding(crate::specs::Stream::part_header_at))]
fn walk_header(
    versions: &[Version],
    walk: &mut HeaderWalk,
    octets: &[u8],
) -> Result<Header, FrameFault>
    requires follows { Follows versions.now octets.now walk.old }
    ensures follows { Follows versions.now octets.now walk.new }
    ensures header { result ≡ part_header_at versions.now octets.now }
    ensures looked { IfErr result (λ fault. fault ≡ FrameFault.Short → walk.new.count ≡ length octets.now) }
    ensures whole { OnOk result (walk.new.count ≡ 12) }
    ensures small { IfOk result (λ header. header.size ≤ size_limit) }
    ensures memory { IfErr result (λ fault. fault ≢ FrameFault.Memory) }
{
    let further = behind(octets, walk.count());
    let header = walk.go_on(versions, further)?;
    if !can_be_part(header) {
        return Err(FrameFault::BadFragment);
    }
    Ok(header)
}

fn can_be_part(header: Header) -> bool
    requires { header.size ≤ size_limit }
    ensures { result ≡ may_be_part header }
{
    can_stand(header.version, header.kind) && (!header.more || can_go_on(header))
}

fn can_stand(version: Version, kind: Kind) -> bool
    ensures { result ≡ may_stand version kind }
{
    match (version, kind) {
        (Version::V1_2, _) => true,
    }
}

fn can_go_on(header: Header) -> bool
    requires { header.size ≤ size_limit }
    ensures { result ≡ may_go_on header }
{
    let length = HEADER_LENGTH as u32 + header.size;
    can_be_fragmented(header.version, header.kind) && length % 8 == 0
}

fn can_be_fragmented(version: Version, kind: Kind) -> bool
    ensures { result ≡ may_be_fragmented version kind }
{
    match version {
        Version::V1_2 => !matches!(
            kind,
            Kind::CancelRequest | Kind::CloseConnection | Kind::MessageError
        ),
    }
}

/// What the part at this place says, by the messages that are unfinished before it. The block of a walk that has ended
/// serves for the next one.
#[tactic(auto, unfolding(crate::specs::Stream::judged))]
pub fn judge(
    alloc: Global,
    unfinished: &mut Vec<Unfinished>,
    ended: &mut Option<Box<Walk>>,
    place: u64,
    header: Header,
    content: &[u8],
) -> Result<Option<Framed>, FrameFault>
    requires unfinished { AreShort unfinished.old.items }
    requires content { length content.now ≤ size_limit }
    ensures { Judges place (part_of header content.now) result unfinished.old.items unfinished.new.items }
{
    if header.is_fragment() {
        return go_on(alloc, unfinished, ended, header, content);
    }
    if header.more {
        begin(alloc, unfinished, ended, place, header, content)?;
        return Ok(None);
    }
    let found = read_message(alloc, header, content)?;
    Ok(Some(frame(place, header, found)))
}

/// A first part whose message goes on.
fn begin(
    alloc: Global,
    unfinished: &mut Vec<Unfinished>,
    ended: &mut Option<Box<Walk>>,
    place: u64,
    header: Header,
    content: &[u8],
) -> Result<(), FrameFault>
    requires content { length content.now ≤ size_limit }
    requires first { is_fragment header.kind ≡ false }
    ensures says { OnOk result (opening unfinished.old.items (part_of header content.now) ≡ Ok None) }
    ensures after { OnOk result
        (unfinished.new.items ≡ with_begun place (part_of header content.now) unfinished.old.items) }
    ensures room { OnOk result (length unfinished.old.items < unfinished_limit) }
    ensures memory { IfErr result (λ fault. fault ≡ FrameFault.Memory
        → (numbered (id_of (part_of header content.now)) unfinished.old.items ≡ None)
        × (length unfinished.old.items < unfinished_limit)
        × (so_far (message_by header content.now) ≡ Ok None)) }
    ensures refused { IfErr result
        (λ fault. Fails fault (opening unfinished.old.items (part_of header content.now))) }
    ensures err { OnErr result (unfinished.new.items ≡ unfinished.old.items) }
{
    let id = free_id(unfinished, header, content)?;
    unfinished.push(Unfinished::new(alloc, ended, id, place, header, content)?)?;
    Ok(())
}

/// The request_id of a first part whose message goes on, where it is that of no unfinished message, and there is room
/// for one more.
fn free_id(unfinished: &[Unfinished], header: Header, content: &[u8]) -> Result<u32, FrameFault>
    requires content { length content.now ≤ size_limit }
    ensures id { IfOk result (λ id. id ≡ id_of (part_of header content.now)) }
    ensures long { OnOk result (4 ≤ length content.now) }
    ensures free { OnOk result (numbered (id_of (part_of header content.now)) unfinished.now ≡ None) }
    ensures room { OnOk result (length unfinished.now < unfinished_limit) }
    ensures refused { IfErr result (λ fault. opening unfinished.now (part_of header content.now) ≡ Err fault) }
    ensures memory { IfErr result (λ fault. fault ≢ FrameFault.Memory) }
{
    let id = read_id(header.order, content)?;
    if let Some(_) = position(unfinished, id) {
        return Err(FrameFault::BadFragment);
    }
    if unfinished.len() >= UNFINISHED_LIMIT {
        return Err(FrameFault::BadFragment);
    }
    Ok(id)
}

/// A Fragment, which goes on with a message.
fn go_on(
    alloc: Global,
    unfinished: &mut Vec<Unfinished>,
    ended: &mut Option<Box<Walk>>,
    header: Header,
    content: &[u8],
) -> Result<Option<Framed>, FrameFault>
    requires unfinished { AreShort unfinished.old.items }
    requires content { length content.now ≤ size_limit }
    requires fragment { is_fragment header.kind ≡ true }
    ensures { (place : ℕ) → Judges place (part_of header content.now)
        result unfinished.old.items unfinished.new.items }
{
    let id = read_id(header.order, content)?;
    match position(unfinished, id) {
        None => Err(FrameFault::BadFragment),
        Some(index) if header.more => extend(unfinished, index, header, content),
        Some(index) => end(alloc, unfinished, ended, index, header, content),
    }
}

/// A Fragment of the message at this index, behind which more of them come.
fn extend(
    unfinished: &mut Vec<Unfinished>,
    index: usize,
    header: Header,
    content: &[u8],
) -> Result<Option<Framed>, FrameFault>
    requires unfinished { AreShort unfinished.old.items }
    requires content { length content.now ≤ size_limit }
    requires fragment { is_fragment header.kind ≡ true }
    requires more { header.more ≡ true }
    requires long { 4 ≤ length content.now }
    requires at { IsAt (id_of (part_of header content.now)) unfinished.old.items index }
    ensures { (place : ℕ) → Judges place (part_of header content.now)
        result unfinished.old.items unfinished.new.items }
{
    unfinished[index].go_on(behind_id(content))?;
    Ok(None)
}

/// The last Fragment of the message at this index.
fn end(
    alloc: Global,
    unfinished: &mut Vec<Unfinished>,
    ended: &mut Option<Box<Walk>>,
    index: usize,
    header: Header,
    content: &[u8],
) -> Result<Option<Framed>, FrameFault>
    requires unfinished { AreShort unfinished.old.items }
    requires content { length content.now ≤ size_limit }
    requires fragment { is_fragment header.kind ≡ true }
    requires more { header.more ≡ false }
    requires long { 4 ≤ length content.now }
    requires at { IsAt (id_of (part_of header content.now)) unfinished.old.items index }
    ensures { (place : ℕ) → Judges place (part_of header content.now)
        result unfinished.old.items unfinished.new.items }
{
    let framed = unfinished[index].finish(alloc, behind_id(content))?;
    *ended = Some(unfinished.remove(index).into_walk());
    Ok(Some(framed))
}

/// The octets that a Fragment has behind its request_id.
fn behind_id(content: &[u8]) -> &[u8]
    ensures { result.now ≡ drop 4 content.now }
{
    behind(content, 4)
}

/// Where the unfinished message of this request_id is.
fn position(unfinished: &[Unfinished], id: u32) -> Option<usize>
    ensures found { IfSome result (IsAt id unfinished.now) }
    ensures none { IfNone result (numbered id unfinished.now ≡ None) }
{
    first_of(unfinished, id)
}

fn first_of(unfinished: &[Unfinished], id: u32) -> Option<usize>
    ensures { result ≡ position_of (λ u. u.id == id) unfinished.now }
{
    unfinished.iter().position(|message| message.id() == id)
}

/// The request_id in front of a part's content.
fn read_id(order: Order, content: &[u8]) -> Result<u32, FrameFault>
    requires { length content.now ≤ size_limit }
    ensures { ReadsId order content.now result }
{
    Ok(Reader::new(content, order, HEADER_LENGTH as u32).ulong()?)
}
