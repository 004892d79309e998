// References that differ in the numbers of their objects alone.
ghost use Rattle.std.specs.Prelude.{◌≡◌, ◌≤◌, length, IfOk, IfErr, IsTrue};
ghost use Rattle.nodes_world.specs.Objects as objects;
ghost use Rattle.nodes_parts.specs.Moulded.{numbered_as, with_number};

use crate::objects::{NUMBER_PLACE, reference};
use byteorder::{BigEndian, ByteOrder};
use cdr_values::values_are_written_canonically;
use ior_refs::ObjectKey;
use ots_model::{Name, RefBytes};
use ots_world::WorldFault;
use std::alloc::{AllocError, Global};
use std::marker::Model;

/// The reference to an object, from which those are made that differ in the number alone. Contracts see the name and the
/// key to which it leads.
#[derive(Drop)]
pub struct Mould {
    name: Name,
    key: ObjectKey,
    octets: RefBytes,
}

impl Model for Mould {
    ghost use Rattle.std.specs.Prelude.{◌≡◌, List, ℕ};
    ghost use Rattle.ior_refs.specs.declared.key.ObjectKey.{ObjectKey};
    ghost use Rattle.nodes_world.specs.Objects.{reference};

    ghost Value = { List ℕ × ObjectKey };

    ghost view = { λ m. (m.name, m.key) };

    ghost invariant = { λ m. m.octets ≡ reference m.name m.key };
}

impl Mould {
    /// One of the reference to this object.
    pub fn new(alloc: Global, name: &Name, key: &ObjectKey) -> Result<Mould, WorldFault>
        ensures ok { IfOk result (λ mould. mould ≡ (name.now, key.now)) }
        ensures err { IfErr result (λ fault. fault ≡ WorldFault.Memory) }
    {
        Ok(Mould {
            name: *name,
            key: *key,
            octets: reference(alloc, name, key)?,
        })
    }

    /// Whether the reference to this object differs in the number alone.
    pub fn fits(&self, name: &Name, key: &ObjectKey) -> bool
        ensures { IsTrue result → (name.now ≡ self.now.0) × (key.now ≡ numbered_as self.now.1 (key.now).generation) }
    {
        self.name == *name && has_key_but_number(&self.key, key)
    }

    /// The reference to the object with this number.
    pub fn cast(&self, alloc: Global, number: u64) -> Result<RefBytes, AllocError>
        ensures { IfOk result (λ to. to ≡ objects.reference self.now.0 (numbered_as self.now.1 number)) }
    {
        values_are_written_canonically();
        let mut octets = self.octets.bytes().to_vec(alloc)?;
        put_number(&mut octets, number);
        Ok(RefBytes::from_vec(octets))
    }
}

/// Whether keys differ in their numbers alone.
fn has_key_but_number(key: &ObjectKey, other: &ObjectKey) -> bool
    ensures { IsTrue result → other.now ≡ numbered_as key.now (other.now).generation }
{
    key.kind == other.kind
        && key.service == other.service
        && key.life == other.life
        && key.slot == other.slot
        && key.index == other.index
}

/// Another number stands in the octets of a reference from now on.
fn put_number(octets: &mut [u8], number: u64)
    requires long { 16 ≤ length octets.old }
    ensures { octets.new ≡ with_number number octets.old }
{
    let place = octets.len() - NUMBER_PLACE;
    BigEndian::write_u64(&mut octets[place..], number);
}
