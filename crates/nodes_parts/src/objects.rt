// The keys of the objects in a world, and the references by which they are known.
ghost use Rattle.std.specs.Prelude.{◌≡◌, IfOk, IfErr};
ghost use Rattle.nodes_world.specs.Objects as objects;
ghost use Rattle.nodes_world.specs.Resolve as resolving;

use ior_refs::{IorFault, ObjectKey, make_ref};
use nodes_world::Manner;
use ots_model::{CallNumber, Endpoint, Name, Octets, RefBytes};
use ots_world::WorldFault;
use std::alloc::Global;

/// The letters of keys: of a coordinator, of a terminator, of a resource, and of one that is told of the end of a
/// subtransaction.
pub const COORDINATOR_KIND: u8 = b'K';

const TERMINATOR_KIND: u8 = b'T';

const RESOURCE_KIND: u8 = b'R';

const AWARE_KIND: u8 = b'A';

/// The port at which each node and each end listens.
const SCRIPT_PORT: u16 = 1;

/// Where the number of an object stands in its reference, counted from the end.
pub(crate) const NUMBER_PLACE: usize = 16;

/// The life of an end, as long as ends don't crash.
pub const ONLY_LIFE: u32 = 1;

/// The number of the service at a place: the node or end that is made k-th has the number k.
pub fn service_at(place: u32) -> u64
    ensures { result ≡ objects.service_at place }
{
    u64::from(place) + 1
}

/// The place of the seat that has the object of a key.
pub fn place_of(key: &ObjectKey) -> usize
    ensures { result ≡ objects.place_of key.now }
{
    key.service.saturating_sub(1) as usize
}

/// The key of a branch of a family.
pub fn branch_of(key: &ObjectKey, branch: u32) -> ObjectKey
    ensures { result ≡ objects.branch_of key.now branch }
{
    ObjectKey {
        kind: COORDINATOR_KIND,
        index: branch,
        ..*key
    }
}

/// The key of a transaction's terminator.
pub fn terminator_of(key: &ObjectKey) -> ObjectKey
    ensures { result ≡ resolving.terminator_of key.now }
{
    ObjectKey {
        kind: TERMINATOR_KIND,
        ..*key
    }
}

/// The key of the family that sends a word with this number from a seat.
pub fn family_key(place: u32, number: &CallNumber) -> ObjectKey
    ensures { result ≡ objects.family_key place number.now }
{
    ObjectKey {
        kind: COORDINATOR_KIND,
        service: service_at(place),
        life: number.life,
        slot: number.slot,
        generation: number.generation,
        index: 0,
    }
}

/// The letter of a resource's key.
fn kind_of(manner: Manner) -> u8
    ensures { result ≡ objects.kind_of manner }
{
    match manner {
        Manner::Resource => RESOURCE_KIND,
        Manner::Aware | Manner::Double => AWARE_KIND,
    }
}

/// The key of the object with this number, of the end at a place.
pub fn resource_key(manner: Manner, place: u32, number: u64) -> ObjectKey
    ensures { result ≡ objects.resource_key manner place number }
{
    ObjectKey {
        kind: kind_of(manner),
        service: service_at(place),
        life: ONLY_LIFE,
        slot: 0,
        generation: number,
        index: 0,
    }
}

/// The interface of a resource by the letter of its key.
fn type_of(kind: u8) -> &'static [u8]
    ensures { result.now ≡ objects.type_of kind }
{
    if kind == AWARE_KIND {
        b"IDL:omg.org/CosTransactions/SubtransactionAwareResource:1.0"
    } else {
        b"IDL:omg.org/CosTransactions/Resource:1.0"
    }
}

/// The reference to an object of the node or end of that name.
#[tactic(auto, unfolding(nodes_world::specs::Objects::reference))]
pub fn reference(alloc: Global, name: &Name, key: &ObjectKey) -> Result<RefBytes, WorldFault>
    ensures ok { IfOk result (λ to. to ≡ objects.reference name.now key.now) }
    ensures err { IfErr result (λ fault. fault ≡ WorldFault.Memory) }
{
    let at = Endpoint {
        host: Octets::new(alloc, name.octets())?,
        port: SCRIPT_PORT,
    };
    match make_ref(alloc, type_of(key.kind), &at, key) {
        Ok(made) => Ok(made.to_bytes(alloc)?),
        Err(_) => Err(WorldFault::Memory),
    }
}
