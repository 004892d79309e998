ghost use Rattle.std.specs.Prelude.{◌≡◌, length, IfSome, IfNone};
ghost use Rattle.ior_refs.specs.Key.{AreNumbers, SpellsKey, key_in, octets_of_key};
ghost use Rattle.ior_refs.specs.Reference.{AreOctets};

use byteorder::{BigEndian, ByteOrder};

/// How many octets an object key of this service has (our profile).
pub const KEY_LENGTH: usize = 32;

/// The letters of kinds: factory, control, terminator, coordinator, recovery coordinator, resource, resource of a
/// subordinate, synchronization, subtransaction-aware resource and cells.
const KINDS: &[u8; 10] = b"FCTKVRUYAD";

/// The object key of one of this service's own objects (our profile).
#[derive(Clone, Copy, Debug, PartialEq, Eq)]
pub struct ObjectKey {
    /// The letter of the object's kind.
    pub kind: u8,
    /// The service that made the object.
    pub service: u64,
    /// The life of the service.
    pub life: u32,
    /// The slot of the object's transaction.
    pub slot: u32,
    /// The generation of the transaction within that life.
    pub generation: u64,
    /// The branch or the registration.
    pub index: u32,
}

/// The octets of a key. It takes a key of any kind.
pub fn key_octets(k: &ObjectKey) -> [u8; KEY_LENGTH]
    ensures { result ≡ octets_of_key k.now }
{
    let mut octets = [0; KEY_LENGTH];
    octets[..3].copy_from_slice(b"OTS");
    octets[3] = k.kind;
    BigEndian::write_u64(&mut octets[4..12], k.service);
    BigEndian::write_u32(&mut octets[12..16], k.life);
    BigEndian::write_u32(&mut octets[16..20], k.slot);
    BigEndian::write_u64(&mut octets[20..28], k.generation);
    BigEndian::write_u32(&mut octets[28..], k.index);
    octets
}

/// The key with these octets, where one of the kinds of this service has them.
pub fn key_of(octets: &[u8]) -> Option<ObjectKey>
    ensures found { IfSome result (λ key. SpellsKey octets.now key) }
    ensures none { IfNone result ((key : ObjectKey) → ¬ (SpellsKey octets.now key)) }
{
    let [b'O', b'T', b'S', kind, numbers @ ..] = octets else {
        return None;
    };
    if numbers.len() != KEY_LENGTH - 4 || !KINDS.contains(kind) {
        return None;
    }
    Some(key_in(*kind, numbers))
}

/// The key of a kind and the octets of its numbers.
fn key_in(kind: u8, numbers: &[u8]) -> ObjectKey
    requires { length numbers.now ≡ 28 }
    ensures key { result ≡ key_in kind numbers.now }
    ensures numbers { AreNumbers result }
    ensures octets { AreOctets numbers.now }
{
    ObjectKey {
        kind,
        service: BigEndian::read_u64(numbers),
        life: BigEndian::read_u32(&numbers[8..]),
        slot: BigEndian::read_u32(&numbers[12..]),
        generation: BigEndian::read_u64(&numbers[16..]),
        index: BigEndian::read_u32(&numbers[24..]),
    }
}
