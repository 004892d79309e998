ghost use Rattle.std.specs.Prelude.{◌≡◌, ◌+◌, ◌-◌, ◌<◌, ◌≤◌, ◌++◌, max, [], length, take, drop, vec_capacity, IfOk, OnErr, OnOk};

use giop_frames::front;
use std::alloc::{AllocError, Global};
use std::marker::Model;
use std::mem::replace;

/// Octets in the front of memory that is filled with octets to its end, so that more of them are copied there at once.
/// Contracts see the octets, and for how many there is memory.
#[derive(Drop)]
pub struct Buffer {
    /// The octets, and behind them what fills the memory.
    filled: Vec<u8>,
    /// How many of them stand in front.
    count: usize,
}

impl Model for Buffer {
    ghost use Rattle.std.specs.Prelude.{◌≡◌, ◌≤◌, length, take, vec_capacity};
    ghost use Rattle.giop_streams.specs.Buffered.{Buffered};

    ghost Value = { Buffered };

    ghost view = { λ b. record { octets = take b.count b.filled.items; memory = vec_capacity b.filled } };

    ghost invariant = { λ b. (b.count ≤ length b.filled.items) × (length b.filled.items ≡ vec_capacity b.filled) };
}

impl Buffer {
    /// No octets, and no memory.
    pub fn new(alloc: Global) -> Buffer
        ensures octets { result.octets ≡ [] }
        ensures memory { result.memory ≡ 0 }
    {
        Buffer {
            filled: Vec::new(alloc),
            count: 0,
        }
    }

    /// A copy of these octets, in memory for no more of them.
    pub fn of(alloc: Global, octets: &[u8]) -> Result<Buffer, AllocError>
        ensures octets { IfOk result (λ copy. copy.octets ≡ octets.now) }
        ensures memory { IfOk result (λ copy. copy.memory ≡ length octets.now) }
    {
        let memory = Vec::with_capacity(alloc, octets.len())?;
        Ok(Buffer {
            filled: written(memory, octets),
            count: octets.len(),
        })
    }

    /// These octets, in memory that was taken for them.
    pub fn within(memory: Vec<u8>, octets: &[u8]) -> Buffer
        requires empty { memory.items ≡ [] }
        requires room { length octets.now ≤ vec_capacity memory }
        ensures octets { result.octets ≡ octets.now }
        ensures memory { result.memory ≡ vec_capacity memory }
    {
        let mut filled = written(memory, octets);
        fill(&mut filled);
        Buffer {
            filled,
            count: octets.len(),
        }
    }

    /// The octets.
    pub fn octets(&self) -> &[u8]
        ensures { result.now ≡ self.now.octets }
    {
        front(&self.filled, self.count)
    }

    /// How many octets there are.
    pub fn len(&self) -> usize
        ensures same { result ≡ length self.now.octets }
        ensures within { result ≤ self.now.memory }
    {
        self.count
    }

    /// For how many octets there is memory.
    pub fn memory(&self) -> usize
        ensures { result ≡ self.now.memory }
    {
        self.filled.capacity()
    }

    /// Takes memory for so many more octets.
    pub fn reserve(&mut self, more: usize) -> Result<(), AllocError>
        ensures octets { self.new.octets ≡ self.old.octets }
        ensures ok { OnOk result (self.new.memory ≡ max self.old.memory (length self.old.octets + more)) }
        ensures there { OnErr result (self.old.memory < length self.old.octets + more) }
        ensures err { OnErr result (self.new.memory ≡ self.old.memory) }
    {
        let memory = self.filled.capacity();
        let Some(wanted) = self.count.checked_add(more) else {
            return Err(AllocError);
        };
        let further = wanted.saturating_sub(memory);
        self.filled.reserve_exact(further)?;
        fill(&mut self.filled);
        Ok(())
    }

    /// Appends octets, for which there is memory.
    pub fn append(&mut self, octets: &[u8])
        requires { length self.old.octets + length octets.now ≤ self.old.memory }
        ensures octets { self.new.octets ≡ self.old.octets ++ octets.now }
        ensures memory { self.new.memory ≡ self.old.memory }
    {
        let end = self.count + octets.len();
        self.filled[self.count..end].copy_from_slice(octets);
        self.count = end;
    }

    /// Keeps so many octets in front, where there are more.
    pub fn truncate(&mut self, count: usize)
        ensures octets { self.new.octets ≡ take count self.old.octets }
        ensures memory { self.new.memory ≡ self.old.memory }
    {
        if count < self.count {
            self.count = count;
        }
    }

    /// Takes octets out of the front, as many as are left at least.
    pub fn drop_front(&mut self, taken: usize)
        requires many { length self.old.octets ≤ taken + taken }
        requires within { taken ≤ length self.old.octets }
        ensures octets { self.new.octets ≡ drop taken self.old.octets }
        ensures memory { self.new.memory ≡ self.old.memory }
    {
        let held = self.count - taken;
        let (front, back) = self.filled.split_at_mut(taken);
        front[..held].copy_from_slice(&back[..held]);
        self.count = held;
    }
}

/// These octets, in memory that was taken for them, of which the rest is not filled.
fn written(memory: Vec<u8>, octets: &[u8]) -> Vec<u8>
    requires empty { memory.items ≡ [] }
    requires room { length octets.now ≤ vec_capacity memory }
    ensures octets { result.items ≡ octets.now }
    ensures memory { vec_capacity result ≡ vec_capacity memory }
{
    // No one else sees them while they are written, so that they are written in one go.
    let mut filled = memory;
    for octet in octets {
        filled.push_reserved(*octet);
    }
    filled
}

/// Fills memory with octets to its end.
fn fill(memory: &mut Vec<u8>)
    ensures front { take (length memory.old.items) memory.new.items ≡ memory.old.items }
    ensures filled { length memory.new.items ≡ vec_capacity memory.new }
    ensures memory { vec_capacity memory.new ≡ vec_capacity memory.old }
{
    let alloc = *memory.allocator();
    // No one else sees them while they are written, so that they are written in one go.
    let mut octets = replace(memory, Vec::new(alloc));
    let more = octets.capacity().saturating_sub(octets.len());
    for place in 0..more {
        octets.push_reserved(0);
    }
    *memory = octets;
}
