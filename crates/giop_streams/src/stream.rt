ghost use Rattle.std.specs.Prelude.{◌≡◌, ◌≢◌, ◌↔◌, ◌+◌, ◌-◌, ◌<◌, ◌≤◌, ◌^◌, ◌++◌, max, [], length, drop, vec_capacity, vec_len, Option, None, Some, Ok, Err, IfOk, IfSome, IsTrue, OnErr, OnOk};
ghost use Rattle.giop_frames.specs.Fault.{IfRefused};
ghost use Rattle.giop_streams.specs.Held.{Held, Holds, GivesNext, nothing_of, HasCome, HasGiven, HasGivenFramed, IsBounded, IsUnfinished, place_of, room};
ghost use Rattle.giop_frames.specs.Header.{profile_versions};
ghost use Rattle.giop_streams.specs.Limits.{memory_limit, partial_limit};
ghost use Rattle.giop_streams.specs.Stream.{part_at};
ghost use Rattle.giop_streams.specs.HeldInside.{HasSpare, IsMostlyHeld, Takes, remembering};

use crate::buffer::Buffer;
use crate::framed::Framed;
use crate::parts::{content_of, judge, whole_part};
use crate::unfinished::Unfinished;
use giop_frames::{
    FrameFault, HEADER_LENGTH, HeaderWalk, Message, Version, Walk, behind,
    headers_are_read_exactly, profile_versions,
};
use std::alloc::{AllocError, Global};
use std::marker::Model;
use std::mem::replace;

/// Messages of a stream of octets that comes in pieces, with fragments of up to 8 unfinished messages. Contracts see the
/// versions that it admits, and what it holds back: the unfinished messages, the octets of no whole part yet and their
/// offset, how many of these it has looked at, the refusal that it answers for good, and how much memory it has.
#[derive(Drop)]
pub struct Stream {
    alloc: Global,
    versions: &'static [Version],
    messages: Vec<Unfinished>,
    /// The block of a walk whose message has ended, for that of the next one.
    ended: Option<Box<Walk>>,
    buffer: Buffer,
    start: usize,
    /// Memory for what is left once that of a large buffer is given back. It has no octets.
    spare: Vec<u8>,
    /// A walk over the header of the part at the place.
    header: HeaderWalk,
    place: u64,
    refused: Option<FrameFault>,
}

impl Model for Stream {
    ghost use Rattle.std.specs.Prelude.{◌≡◌, ◌≤◌, ◌⊎◌, [], length, drop, vec_capacity};
    ghost use Rattle.giop_streams.specs.Held.{AreShort, Held};
    ghost use Rattle.giop_streams.specs.HeldInside.{HasSpare, IsMostlyHeld};
    ghost use Rattle.giop_streams.specs.StreamInside.{Follows};

    ghost Value = { Held };

    ghost view = { λ s. record {
      versions = s.versions.now;
      unfinished = s.messages.items;
      place = s.place;
      rest = drop s.start s.buffer.octets;
      looked = s.header.count;
      refused = s.refused;
      kept = length s.buffer.octets;
      memory = s.buffer.memory;
      spare = vec_capacity s.spare;
    } };

    ghost invariant = { λ s. IsMostlyHeld s.start s.buffer.octets × AreShort s.messages.items
        × Follows s.versions.now (drop s.start s.buffer.octets) s.header × (s.spare.items ≡ [])
        × HasSpare s.buffer.memory (vec_capacity s.spare) };
}

/// The octets of a part, its header included, of which one octet is still to come (our profile).
const PARTIAL_LIMIT: usize = 65_547;

/// The octets for which a stream has memory in its buffer once it gave all that is whole (our profile).
const MEMORY_LIMIT: usize = 262_188;

/// What a stream found at its place.
enum Taken {
    /// No whole part.
    Nothing,
    /// A part of a message that isn't whole yet.
    Piece,
    /// The last part of a message.
    Whole(Framed),
}

impl Stream {
    /// A stream of messages of version 1.2, of which nothing has come.
    pub fn new(alloc: Global) -> Stream
        ensures holds { Holds profile_versions [] [] result }
        ensures nothing { result ≡ nothing_of profile_versions }
    {
        Stream::of(alloc, profile_versions())
    }

    /// A stream of messages of these versions, of which nothing has come.
    pub fn of(alloc: Global, versions: &'static [Version]) -> Stream
        ensures holds { Holds versions.now [] [] result }
        ensures nothing { result ≡ nothing_of versions.now }
    {
        Stream {
            alloc,
            versions,
            messages: Vec::new(alloc),
            ended: None,
            buffer: Buffer::new(alloc),
            start: 0,
            spare: Vec::new(alloc),
            header: HeaderWalk::new(),
            place: 0,
            refused: None,
        }
    }

    /// Takes memory for so many more octets, where there is none yet: then for at least as many as its buffer has, so that
    /// octets are seldom moved. What is beyond the limit stays until a call gives no message.
    pub fn reserve(&mut self, count: usize) -> Result<(), AllocError>
        ensures ok { OnOk result (count ≤ room self.new) }
        ensures err { OnErr result (self.new ≡ self.old) }
        ensures there { OnErr result (room self.old < count) }
        ensures same { self.new ≡ record self.old { memory = self.new.memory; spare = self.new.spare } }
        ensures memory { self.old.memory ≤ self.new.memory }
        ensures bounded { self.new.memory ≤ max self.old.memory (self.old.kept + max count self.old.kept) }
    {
        grow(self.alloc, &mut self.buffer, &mut self.spare, count)
    }

    /// These octets have come. It needs no memory where there is room for them.
    pub fn feed(&mut self, piece: &[u8]) -> Result<(), FrameFault>
        ensures ok { OnOk result (HasCome piece.now self.old self.new) }
        ensures err { OnErr result (self.new ≡ self.old) }
        ensures refused { IfRefused result (λ fault. self.old.refused ≡ Some fault) }
        ensures again { IfSome self.old.refused (λ fault. result ≡ Err fault) }
        ensures accepts { OnOk result (self.new.refused ≡ None) }
        ensures memory { self.old.refused ≡ None → OnErr result (room self.old < length piece.now) }
        ensures room { room self.old ≤ room self.new + length piece.now }
        ensures looked { self.new.looked ≡ self.old.looked }
        ensures bounded { self.new.memory ≤ max self.old.memory (self.new.kept + self.new.kept) }
    {
        if let Some(fault) = self.refused {
            return Err(fault);
        }
        if piece.is_empty() {
            return Ok(());
        }
        grow(self.alloc, &mut self.buffer, &mut self.spare, piece.len())?;
        self.buffer.append(piece);
        Ok(())
    }

    /// The next message that is whole, in the order of last parts.
    pub fn next(&mut self) -> Result<Option<Message>, FrameFault>
        ensures { GivesNext HasGiven result self.old self.new }
    {
        let Some(framed) = self.next_framed()? else {
            return Ok(None);
        };
        Ok(Some(framed.message))
    }

    /// The next message that is whole, in the order of last parts, with what the header of its first part says. A
    /// refusal other than want of memory is answered for good. BadFragment is a part with the "more fragments" bit
    /// whose type comes in one part, or whose length isn't a multiple of 8; a type that isn't in the version; a Fragment
    /// whose request_id is that of no unfinished message; and a first part with the bit whose request_id is that of an
    /// unfinished message, or which would be the ninth.
    pub fn next_framed(&mut self) -> Result<Option<Framed>, FrameFault>
        ensures { GivesNext HasGivenFramed result self.old self.new }
    {
        headers_are_read_exactly();
        if let Some(fault) = self.refused {
            return Err(fault);
        }
        loop {
            match self.take_part() {
                Ok(Taken::Nothing) => {
                    self.give_memory_back();
                    return Ok(None);
                }
                Ok(Taken::Piece) => {}
                Ok(Taken::Whole(framed)) => return Ok(Some(framed)),
                Err(fault) => {
                    self.remember(fault);
                    return Err(fault);
                }
            }
        }
    }

    /// The offset of the first part of the earliest message that isn't given; after a refusal, that of the part that is
    /// refused. At most 2^64 - 1.
    pub fn place(&self) -> u64
        ensures { result ≡ place_of self.now }
    {
        match (self.refused, self.messages.first()) {
            (None, Some(first)) => first.place(),
            _ => self.place,
        }
    }

    /// Whether octets are held that were not given as a message. Once `next` has given nothing, these are octets of
    /// messages that aren't whole.
    pub fn unfinished(&self) -> bool
        ensures { IsTrue result ↔ IsUnfinished self.now }
    {
        !self.messages.is_empty() || !behind(self.buffer.octets(), self.start).is_empty()
    }

    /// How many octets its buffer has: those that are held of no whole part, and at most as many of parts that were
    /// taken. The joined octets of unfinished messages are beside it, each message's in memory for 131,072 at most.
    pub fn kept(&self) -> usize
        ensures same { result ≡ self.now.kept }
        ensures bounded { IsBounded self.now }
        ensures partial { part_at self.now.versions self.now.rest ≡ Err FrameFault.Short
            → result ≤ partial_limit + partial_limit }
    {
        headers_are_read_exactly();
        self.buffer.len()
    }

    /// A refusal other than want of memory is answered for good.
    fn remember(&mut self, fault: FrameFault)
        ensures { self.new ≡ remembering self.old fault }
    {
        if fault != FrameFault::Memory {
            self.refused = Some(fault);
        }
    }

    /// Gives back the memory of its buffer where that is more than the limit: what is left of it, which is less than a
    /// part, moves to memory that was taken before.
    fn give_memory_back(&mut self)
        requires { length self.old.rest ≤ partial_limit }
        ensures same { self.new ≡ record self.old { kept = self.new.kept; memory = self.new.memory; spare = 0 } }
        ensures kept { self.new.kept ≤ self.old.kept }
        ensures given_back { self.new.memory ≤ memory_limit }
        ensures stays { self.old.memory ≤ memory_limit → self.new.memory ≡ self.old.memory }
    {
        let spare = replace(&mut self.spare, Vec::new(self.alloc));
        if self.buffer.memory() <= MEMORY_LIMIT {
            return;
        }
        self.buffer = Buffer::within(spare, behind(self.buffer.octets(), self.start));
        self.start = 0;
    }

    /// Takes the part at its place, where it is whole.
    fn take_part(&mut self) -> Result<Taken, FrameFault>
        requires { self.old.refused ≡ None }
        ensures { Takes self.old result self.new }
    {
        let rest = behind(self.buffer.octets(), self.start);
        let Some(header) = whole_part(self.versions, &mut self.header, rest)? else {
            return Ok(Taken::Nothing);
        };
        let content = content_of(header, rest);
        let framed = judge(
            self.alloc,
            &mut self.messages,
            &mut self.ended,
            self.place,
            header,
            content,
        )?;
        let length = HEADER_LENGTH + header.size as usize;
        self.header = HeaderWalk::new();
        self.start = give_back(&mut self.buffer, self.start + length);
        self.place = self.place.saturating_add(length as u64);
        let Some(framed) = framed else {
            return Ok(Taken::Piece);
        };
        Ok(Taken::Whole(framed))
    }
}

/// Takes memory for so many more octets of a buffer, where there is none yet, and then what is kept beside it.
fn grow(
    alloc: Global,
    buffer: &mut Buffer,
    spare: &mut Vec<u8>,
    count: usize,
) -> Result<(), AllocError>
    requires { (spare.old.items ≡ []) × HasSpare buffer.old.memory (vec_capacity spare.old) }
    ensures items { (buffer.new.octets ≡ buffer.old.octets) × (spare.new.items ≡ []) }
    ensures beside { HasSpare buffer.new.memory (vec_capacity spare.new) }
    ensures ok { OnOk result (length buffer.old.octets + count ≤ buffer.new.memory) }
    ensures there { OnErr result (buffer.old.memory - length buffer.old.octets < count) }
    ensures err { OnErr result ((buffer.new.memory ≡ buffer.old.memory)
        × (vec_capacity spare.new ≡ vec_capacity spare.old)) }
    ensures memory { buffer.old.memory ≤ buffer.new.memory }
    ensures bounded { buffer.new.memory
        ≤ max buffer.old.memory (length buffer.old.octets + max count (length buffer.old.octets)) }
{
    let kept = buffer.len();
    if count <= buffer.memory() - kept {
        return Ok(());
    }
    let more = if count < kept { kept } else { count };
    let beside = spare_beside(alloc, kept.saturating_add(more))?;
    buffer.reserve(more)?;
    *spare = beside;
    Ok(())
}

/// The memory that is kept beside a buffer with so much: that of a part, where the buffer has more than the limit.
fn spare_beside(alloc: Global, memory: usize) -> Result<Vec<u8>, AllocError>
    ensures none { IfOk result (λ spare. spare.items ≡ []) }
    ensures spare { IfOk result (λ spare. HasSpare memory (vec_capacity spare)) }
{
    if memory <= MEMORY_LIMIT {
        return Ok(Vec::new(alloc));
    }
    Vec::with_capacity(alloc, PARTIAL_LIMIT)
}

/// Gives the front of a buffer back, where it is the larger part. So each octet that is moved stands for one that is
/// given back. The answer is how many octets of that front are left.
fn give_back(buffer: &mut Buffer, taken: usize) -> usize
    requires { taken ≤ length buffer.old.octets }
    ensures held { drop result buffer.new.octets ≡ drop taken buffer.old.octets }
    ensures mostly { IsMostlyHeld result buffer.new.octets }
    ensures kept { length buffer.new.octets ≤ length buffer.old.octets }
    ensures memory { buffer.new.memory ≡ buffer.old.memory }
{
    if taken <= buffer.len() - taken {
        return taken;
    }
    buffer.drop_front(taken);
    0
}
