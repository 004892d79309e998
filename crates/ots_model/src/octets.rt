ghost use Rattle.std.specs.Prelude.{◌≡◌, ℕ, ◌^◌, ◌<◌, ◌≤◌, ◌⊎◌, IsOk, IfOk, IfErr, OnErr, IsErrOf, length};
ghost use Rattle.ots_model.specs.Limits.{reference_limit};

use std::alloc::{AllocError, Global};
use std::marker::Model;

/// How many octets a reference has at most (our profile).
pub const REFERENCE_LIMIT: usize = 1024;

/// Some octets. Contracts see them as a list.
#[derive(Debug, Drop)]
pub struct Octets {
    items: Vec<u8>,
}

impl Model for Octets {
    ghost use Rattle.std.specs.Prelude.{List, ℕ};

    ghost Value = { List ℕ };

    ghost view = { λ o. o.items.items };
}

impl Octets {
    /// A copy of these octets.
    pub fn new(alloc: Global, octets: &[u8]) -> Result<Octets, AllocError>
        ensures copy { IfOk result (λ copy. copy ≡ octets.now) }
        ensures needed { OnErr result (0 < length octets.now) }
    {
        Ok(Octets {
            items: vector_of(alloc, octets)?,
        })
    }

    /// The octets of a vector. It needs no memory.
    pub fn from_vec(items: Vec<u8>) -> Octets
        ensures same { result ≡ items.items }
    {
        Octets { items }
    }

    /// The octets.
    pub fn bytes(&self) -> &[u8]
        ensures same { result.now ≡ self.now }
    {
        self.items.as_slice()
    }
}

/// A vector of these octets.
fn vector_of(alloc: Global, octets: &[u8]) -> Result<Vec<u8>, AllocError>
    ensures copy { IfOk result (λ copy. copy.items ≡ octets.now) }
    ensures needed { OnErr result (0 < length octets.now) }
{
    let mut items = Vec::with_capacity(alloc, octets.len())?;
    items.extend_from_slice(octets)?;
    Ok(items)
}

/// Why octets are no reference.
#[derive(Clone, Copy, Debug, PartialEq, Eq)]
pub enum RefFault {
    /// There are more octets than a reference has: so many.
    TooLong(u32),
    /// Memory ran out.
    Memory,
}

/// The octets of an object reference, at most 1,024. Contracts see them as a list.
#[derive(Drop)]
pub struct RefBytes {
    items: Vec<u8>,
}

impl Model for RefBytes {
    ghost use Rattle.std.specs.Prelude.{List, ℕ, length, ◌≤◌};
    ghost use Rattle.ots_model.specs.Limits.{reference_limit};

    ghost Value = { List ℕ };

    ghost view = { λ r. r.items.items };

    ghost invariant = { λ r. length r.items.items ≤ reference_limit };
}

impl RefBytes {
    /// A copy of these octets, of fewer than 2^31.
    pub fn new(alloc: Global, octets: &[u8]) -> Result<RefBytes, RefFault>
        requires { length octets.now < 2 ^ 31 }
        ensures copy { IfOk result (λ copy. copy ≡ octets.now) }
        ensures short { IsOk result → length octets.now ≤ reference_limit }
        ensures too_long { reference_limit < length octets.now
            → IsErrOf result (RefFault.TooLong (length octets.now)) }
        ensures memory { IfErr result (λ fault.
            (fault ≡ RefFault.Memory) ⊎ (reference_limit < length octets.now)) }
        ensures needed { OnErr result (0 < length octets.now) }
    {
        if octets.len() > REFERENCE_LIMIT {
            return Err(RefFault::TooLong(octets.len() as u32));
        }
        match vector_of(alloc, octets) {
            Ok(items) => Ok(RefBytes { items }),
            Err(_) => Err(RefFault::Memory),
        }
    }

    /// A copy of the reference.
    pub fn copy(&self, alloc: Global) -> Result<RefBytes, AllocError>
        ensures copy { IfOk result (λ copy. copy ≡ self.now) }
        ensures needed { OnErr result (0 < length self.now) }
    {
        Ok(RefBytes {
            items: vector_of(alloc, self.items.as_slice())?,
        })
    }

    /// The reference of a vector's octets. It needs no memory.
    pub fn from_vec(items: Vec<u8>) -> RefBytes
        requires { length items.items ≤ reference_limit }
        ensures same { result ≡ items.items }
    {
        RefBytes { items }
    }

    /// The octets.
    pub fn bytes(&self) -> &[u8]
        ensures same { result.now ≡ self.now }
        ensures short { length self.now ≤ reference_limit }
    {
        self.items.as_slice()
    }
}
