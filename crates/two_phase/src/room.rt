// Empty buffers for the references of words to come.
ghost use Rattle.std.specs.Prelude.{◌≡◌, ◌≤◌, min, length, IfOk, OnOk, OnErr, vec_len};
ghost use Rattle.ots_model.specs.Limits.{reference_limit};
ghost use Rattle.two_phase.specs.StockInside.{AreRoomy};

use ots_model::{REFERENCE_LIMIT, RefBytes};
use std::alloc::{AllocError, Global};
use std::marker::Model;

/// An empty buffer. Contracts see for how many octets it has room.
#[derive(Drop)]
pub(crate) struct Buffer {
    octets: Vec<u8>,
}

impl Model for Buffer {
    ghost use Rattle.std.specs.Prelude.{◌≡◌, ℕ, [], vec_capacity};

    ghost Value = { ℕ };

    ghost view = { λ b. vec_capacity b.octets };

    ghost invariant = { λ b. b.octets.items ≡ [] };
}

impl Buffer {
    /// A buffer with room for so many octets.
    pub fn new(alloc: Global, octets: usize) -> Result<Buffer, AllocError>
        ensures { IfOk result (λ buffer. octets ≤ buffer) }
    {
        Ok(Buffer {
            octets: Vec::with_capacity(alloc, octets)?,
        })
    }

    /// A copy of the reference, which needs no memory.
    pub fn filled(self, reference: &RefBytes) -> RefBytes
        requires { min (length reference.now) reference_limit ≤ self }
        ensures { result ≡ reference.now }
    {
        let Buffer { mut octets } = self;
        let _ = octets.extend_from_slice(reference.bytes());
        RefBytes::from_vec(octets)
    }
}

/// An empty buffer with room for any reference.
#[derive(Drop)]
pub struct Blank {
    buffer: Buffer,
    ghost room: { reference_limit ≤ buffer },
}

impl Blank {
    /// An empty buffer.
    pub fn new(alloc: Global) -> Result<Blank, AllocError> {
        Ok(Blank {
            buffer: Buffer::new(alloc, REFERENCE_LIMIT)?,
        })
    }

    /// A copy of the reference, which needs no memory.
    pub fn filled(self, reference: &RefBytes) -> RefBytes
        ensures { result ≡ reference.now }
    {
        let Blank { buffer } = self;
        buffer.filled(reference)
    }
}

/// Adds buffers with room for so many octets, so that there are so many at least.
pub(crate) fn add_buffers(
    count: usize,
    octets: usize,
    buffers: &mut Vec<Buffer>,
) -> Result<(), AllocError>
    requires roomy { AreRoomy octets buffers.old.items }
    ensures ok { OnOk result (count ≤ vec_len buffers.new) }
    ensures more { vec_len buffers.old ≤ vec_len buffers.new }
    ensures roomy { AreRoomy octets buffers.new.items }
{
    let alloc = *buffers.allocator();
    for _so_many in buffers.len()..count {
        buffers.push(Buffer::new(alloc, octets)?)?;
    }
    Ok(())
}

/// Takes so many buffers at least, each with room for so many octets. Those that are there have room for `before`: where that
/// is less they are given back, else they stay. Want of memory takes none away.
pub(crate) fn refill(
    count: usize,
    before: usize,
    octets: usize,
    buffers: &mut Vec<Buffer>,
) -> Result<(), AllocError>
    requires roomy { AreRoomy before buffers.old.items }
    requires more { before ≤ octets }
    ensures count { OnOk result (count ≤ vec_len buffers.new) }
    ensures roomy { OnOk result (AreRoomy octets buffers.new.items) }
    ensures err { OnErr result (vec_len buffers.old ≤ vec_len buffers.new) }
    ensures as_roomy { OnErr result (AreRoomy before buffers.new.items) }
{
    if before == octets {
        return add_buffers(count, octets, buffers);
    }
    let mut longer = Vec::new(*buffers.allocator());
    add_buffers(count, octets, &mut longer)?;
    *buffers = longer;
    Ok(())
}
