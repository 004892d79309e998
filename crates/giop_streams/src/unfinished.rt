ghost use Rattle.std.specs.Prelude.{◌≡◌, ◌≢◌, ◌+◌, ◌<◌, ◌≤◌, ◌++◌, true, false, IfErr, IfOk, OnErr, OnOk, Ok, Err, None, Some, length, take};
ghost use Rattle.giop_frames.specs.Limits.{size_limit};
ghost use Rattle.giop_frames.specs.Fault.{Fails, Finds};
ghost use Rattle.giop_frames.specs.Header.{is_fragment};
ghost use Rattle.giop_frames.specs.Walk.{IsAsFar, IsWalked};
ghost use Rattle.giop_streams.specs.Held.{MayEnd, MayJoin};
ghost use Rattle.giop_streams.specs.Limits.{joined_memory_limit};
ghost use Rattle.giop_streams.specs.StreamInside.{wants_octets, WantsRoom, limited_so_far, limited_whole};
ghost use Rattle.giop_frames.specs.Content.{GivesKept, message_by};
ghost use Rattle.giop_streams.specs.Stream.{begun_as, id_of, joined, part_of, so_far, whole_by, with_more};

use crate::buffer::Buffer;
use crate::framed::{Framed, frame};
use cdr_values::CdrFault;
use giop_frames::{FrameFault, Header, SIZE_LIMIT, Walk, finish_message};
use std::alloc::Global;
use std::marker::Model;

/// A message whose last part hasn't come. Contracts see its request_id, the place and the header of its first part, and
/// its octets so far, joined.
#[derive(Drop)]
pub struct Unfinished {
    id: u32,
    place: u64,
    header: Header,
    /// Its octets so far. There is memory for 131,072 at most (our profile).
    content: Buffer,
    /// How far a walk has come over its fields: as far as its octets go. It has a block of its own, so that a message is
    /// moved at little cost.
    walk: Box<Walk>,
}

impl Model for Unfinished {
    ghost use Rattle.std.specs.Prelude.{◌≡◌, ◌≤◌, false};
    ghost use Rattle.giop_frames.specs.Header.{is_fragment};
    ghost use Rattle.giop_streams.specs.Limits.{joined_memory_limit};
    ghost use Rattle.giop_streams.specs.Stream.{Unfinished as Message};
    ghost use Rattle.giop_frames.specs.Walk.{IsAsFar, IsWalked};

    ghost Value = { Message };

    ghost view = { λ u. record { id = u.id; place = u.place; header = u.header; content = u.content.octets } };

    ghost invariant = { λ u.
        (is_fragment u.header.kind ≡ false)
        × IsWalked u.header u.content.octets u.walk.value
        × IsAsFar u.header u.content.octets u.walk.value
        × (u.content.memory ≤ joined_memory_limit) };
}

impl Unfinished {
    /// A message of which this is the first part, whose request_id was read. Its walk takes the block of one that has
    /// ended, where there is one.
    pub fn new(
        alloc: Global,
        ended: &mut Option<Box<Walk>>,
        id: u32,
        place: u64,
        header: Header,
        content: &[u8],
    ) -> Result<Unfinished, FrameFault>
        requires content { length content.now ≤ size_limit }
        requires first { is_fragment header.kind ≡ false }
        requires long { 4 ≤ length content.now }
        requires id { id ≡ id_of (part_of header content.now) }
        ensures begun { IfOk result (λ begun. begun ≡ begun_as id place (part_of header content.now)) }
        ensures sound { OnOk result (so_far (message_by header content.now) ≡ Ok None) }
        ensures refused { IfErr result (λ fault. Fails fault (so_far (message_by header content.now))) }
        ensures memory { IfErr result (λ fault. fault ≡ FrameFault.Memory →
            so_far (message_by header content.now) ≡ Ok None) }
    {
        let walk = begin_walk(alloc, ended, id, header, content)?;
        Ok(Unfinished {
            id,
            place,
            header,
            content: Buffer::of(alloc, content)?,
            walk,
        })
    }

    /// Its request_id.
    pub fn id(&self) -> u32
        ensures { result ≡ self.now.id }
    {
        self.id
    }

    /// The offset of its first part.
    pub fn place(&self) -> u64
        ensures { result ≡ self.now.place }
    {
        self.place
    }

    /// More octets of it have come, and not the last ones.
    pub fn go_on(&mut self, octets: &[u8]) -> Result<(), FrameFault>
        requires content { length self.old.content ≤ size_limit }
        requires octets { length octets.now ≤ size_limit }
        ensures says { OnOk result (joined true octets.now self.old ≡ Ok None) }
        ensures after { OnOk result (self.new ≡ with_more octets.now self.old) }
        ensures short { length self.new.content ≤ size_limit }
        ensures refused { IfErr result (λ fault. Fails fault (joined true octets.now self.old)) }
        ensures memory { IfErr result (λ fault. fault ≡ FrameFault.Memory → MayJoin self.old.content octets.now) }
        ensures err { OnErr result (self.new ≡ self.old) }
    {
        go_so_far(&mut self.walk, self.header, &mut self.content, octets)
    }

    /// Its last octets have come.
    pub fn finish(&mut self, alloc: Global, octets: &[u8]) -> Result<Framed, FrameFault>
        requires content { length self.old.content ≤ size_limit }
        requires octets { length octets.now ≤ size_limit }
        ensures says { IfOk result (λ framed. joined false octets.now self.old ≡ Ok (Some framed)) }
        ensures refused { IfErr result (λ fault. Fails fault (joined false octets.now self.old)) }
        ensures memory { IfErr result (λ fault. fault ≡ FrameFault.Memory →
            MayEnd self.old.header self.old.content octets.now) }
        ensures err { OnErr result (self.new ≡ self.old) }
    {
        finish_joined(
            alloc,
            self.place,
            self.header,
            &mut self.walk,
            &mut self.content,
            octets,
        )
    }

    /// The block of its walk, for that of another message.
    pub fn into_walk(self) -> Box<Walk> {
        self.walk
    }
}

/// A walk that goes over the first part of a message, whose request_id was read, in the block of one that has ended,
/// where there is one.
fn begin_walk(
    alloc: Global,
    ended: &mut Option<Box<Walk>>,
    id: u32,
    header: Header,
    content: &[u8],
) -> Result<Box<Walk>, FrameFault>
    requires content { length content.now ≤ size_limit }
    requires first { is_fragment header.kind ≡ false }
    requires long { 4 ≤ length content.now }
    requires id { id ≡ id_of (part_of header content.now) }
    ensures walked { IfOk result (λ walk. IsWalked header content.now walk.value) }
    ensures far { IfOk result (λ walk. IsAsFar header content.now walk.value) }
    ensures sound { OnOk result (so_far (message_by header content.now) ≡ Ok None) }
    ensures refused { IfErr result (λ fault. Fails fault (so_far (message_by header content.now))) }
    ensures memory { IfErr result (λ fault. fault ≡ FrameFault.Memory →
        so_far (message_by header content.now) ≡ Ok None) }
{
    let Some(mut walk) = ended.take() else {
        let mut walk = Walk::behind_id(header, id);
        walk_so_far(&mut walk, header, content)?;
        return Ok(Box::new(alloc, walk)?);
    };
    walk.begin_behind_id(header, id);
    walk_so_far(&mut walk, header, content)?;
    Ok(walk)
}

/// The last octets of a message have come behind its content, and a walk that stood where octets were wanting goes on
/// over them, to the end. Where the message isn't given the content is as it was.
fn finish_joined(
    alloc: Global,
    place: u64,
    header: Header,
    walk: &mut Walk,
    content: &mut Buffer,
    octets: &[u8],
) -> Result<Framed, FrameFault>
    requires content { length content.old.octets ≤ size_limit }
    requires octets { length octets.now ≤ size_limit }
    requires first { is_fragment header.kind ≡ false }
    requires walked { IsWalked header content.old.octets walk.old }
    requires far { IsAsFar header content.old.octets walk.old }
    requires room { content.old.memory ≤ joined_memory_limit }
    ensures says { IfOk result (λ framed.
        limited_whole place header (content.old.octets ++ octets.now) ≡ Ok (Some framed)) }
    ensures refused { IfErr result (λ fault.
        Fails fault (limited_whole place header (content.old.octets ++ octets.now))) }
    ensures memory { IfErr result (λ fault. fault ≡ FrameFault.Memory → MayEnd header content.old.octets octets.now) }
    ensures walked { IsWalked header content.new.octets walk.new }
    ensures far { IsAsFar header content.new.octets walk.new }
    ensures err { OnErr result (content.new.octets ≡ content.old.octets) }
    ensures room { content.new.memory ≤ joined_memory_limit }
{
    let before = content.len();
    join(content, octets)?;
    end_joined(alloc, place, header, walk, content, before)
}

/// A message whose last octets were joined, behind so many, as far as which a walk has gone. Where it isn't given the
/// octets behind those are taken back.
fn end_joined(
    alloc: Global,
    place: u64,
    header: Header,
    walk: &mut Walk,
    content: &mut Buffer,
    before: usize,
) -> Result<Framed, FrameFault>
    requires content { length content.old.octets ≤ size_limit }
    requires first { is_fragment header.kind ≡ false }
    requires walked { IsWalked header (take before content.old.octets) walk.old }
    requires far { IsAsFar header (take before content.old.octets) walk.old }
    requires room { content.old.memory ≤ joined_memory_limit }
    ensures whole { Finds (λ framed. Some framed) result (whole_by place header content.old.octets) }
    ensures memory { IfErr result (λ fault. fault ≡ FrameFault.Memory →
        GivesKept (message_by header content.old.octets)) }
    ensures walked { IsWalked header content.new.octets walk.new }
    ensures far { IsAsFar header content.new.octets walk.new }
    ensures err { OnErr result (content.new.octets ≡ take before content.old.octets) }
    ensures room { content.new.memory ≤ joined_memory_limit }
{
    match finish_message(alloc, header, content.octets(), walk) {
        Ok(found) => Ok(frame(place, header, found)),
        Err(fault) => {
            take_back(walk, header, content, before);
            Err(fault)
        }
    }
}

/// More octets of a message have come behind its content, and a walk that stood where octets were wanting goes on over
/// them. That octets are wanting still is no fault; after one the content is as it was. A message has at most 65,536
/// octets (our profile).
fn go_so_far(
    walk: &mut Walk,
    header: Header,
    content: &mut Buffer,
    octets: &[u8],
) -> Result<(), FrameFault>
    requires content { length content.old.octets ≤ size_limit }
    requires octets { length octets.now ≤ size_limit }
    requires first { is_fragment header.kind ≡ false }
    requires walked { IsWalked header content.old.octets walk.old }
    requires far { IsAsFar header content.old.octets walk.old }
    requires room { content.old.memory ≤ joined_memory_limit }
    ensures joined { OnOk result (content.new.octets ≡ content.old.octets ++ octets.now) }
    ensures short { length content.new.octets ≤ size_limit }
    ensures walked { IsWalked header content.new.octets walk.new }
    ensures far { IsAsFar header content.new.octets walk.new }
    ensures forward { OnOk result (walk.old.place ≤ walk.new.place) }
    ensures says { OnOk result (limited_so_far header (content.old.octets ++ octets.now) ≡ Ok None) }
    ensures refused { IfErr result (λ fault. Fails fault (limited_so_far header (content.old.octets ++ octets.now))) }
    ensures memory { IfErr result (λ fault. fault ≡ FrameFault.Memory →
        WantsRoom content.old.memory content.old.octets octets.now) }
    ensures err { OnErr result (content.new.octets ≡ content.old.octets) }
    ensures room { content.new.memory ≤ joined_memory_limit }
{
    let before = content.len();
    join(content, octets)?;
    if let Err(fault) = walk_so_far(walk, header, content.octets()) {
        take_back(walk, header, content, before);
        return Err(fault);
    }
    Ok(())
}

/// The octets behind so many of a message are taken back, and a walk goes over those in front of them anew. So a refusal
/// pays, or want of memory at the end, and no Fragment for a copy of the walk.
fn take_back(walk: &mut Walk, header: Header, content: &mut Buffer, before: usize)
    requires content { length content.old.octets ≤ size_limit }
    requires first { is_fragment header.kind ≡ false }
    requires room { content.old.memory ≤ joined_memory_limit }
    ensures octets { content.new.octets ≡ take before content.old.octets }
    ensures walked { IsWalked header content.new.octets walk.new }
    ensures far { IsAsFar header content.new.octets walk.new }
    ensures room { content.new.memory ≤ joined_memory_limit }
{
    content.truncate(before);
    *walk = Walk::new(header);
    let _ = walk_so_far(walk, header, content.octets());
}

/// Appends more octets of a message to its content, which then has at most 65,536 (our profile). Where there is no memory
/// for them, it takes at least twice what the content has, so that octets are seldom moved, and 131,072 at most. It takes
/// none where there are no octets.
fn join(content: &mut Buffer, octets: &[u8]) -> Result<(), FrameFault>
    requires content { length content.old.octets ≤ size_limit }
    requires octets { length octets.now ≤ size_limit }
    requires room { content.old.memory ≤ joined_memory_limit }
    ensures joined { OnOk result (content.new.octets ≡ content.old.octets ++ octets.now) }
    ensures short { length content.new.octets ≤ size_limit }
    ensures refused { (header : Header) → IfErr result (λ fault.
        Fails fault (limited_so_far header (content.old.octets ++ octets.now))) }
    ensures memory { IfErr result (λ fault. fault ≡ FrameFault.Memory →
        WantsRoom content.old.memory content.old.octets octets.now) }
    ensures err { OnErr result (content.new.octets ≡ content.old.octets) }
    ensures doubled { content.old.memory < content.new.memory →
        length content.old.octets + length content.old.octets ≤ content.new.memory }
    ensures room { content.new.memory ≤ joined_memory_limit }
{
    if octets.is_empty() {
        return Ok(());
    }
    let joined = content.len() + octets.len();
    if joined > SIZE_LIMIT {
        return Err(FrameFault::TooLarge(joined as u32));
    }
    if joined > content.memory() {
        content.reserve(octets.len().max(content.len()))?;
    }
    content.append(octets);
    Ok(())
}

/// A walk goes on over a content behind which more octets are to come: that octets are wanting is no fault.
fn walk_so_far(walk: &mut Walk, header: Header, content: &[u8]) -> Result<(), FrameFault>
    requires short { length content.now ≤ size_limit }
    requires first { is_fragment header.kind ≡ false }
    requires walked { IsWalked header content.now walk.old }
    ensures walked { IsWalked header content.now walk.new }
    ensures far { IsAsFar header content.now walk.new }
    ensures forward { walk.old.place ≤ walk.new.place }
    ensures says { OnOk result (so_far (message_by header content.now) ≡ Ok None) }
    ensures refused { IfErr result (λ fault. so_far (message_by header content.now) ≡ Err fault) }
    ensures memory { IfErr result (λ fault. fault ≢ FrameFault.Memory) }
{
    match walk.go_on(header, content) {
        Err(fault) if !wants_octets(fault) => Err(fault),
        _ => Ok(()),
    }
}

fn wants_octets(fault: FrameFault) -> bool
    ensures { result ≡ wants_octets fault }
{
    matches!(
        fault,
        FrameFault::Body {
            cdr: CdrFault::Short(_),
            ..
        }
    )
}
