// References to the objects of a service, and their keys.
ghost use Rattle.std.specs.Prelude.{◌≡◌, IfOk};
ghost use Rattle.std.specs.Str.{bytes_eq};
ghost use Rattle.ots_sessions.specs.References as refs;

use crate::fault::ServeFault;
use ior_refs::{ObjectKey, ObjectRef, make_ref};
use ots_model::{CallNumber, Endpoint};
use std::alloc::Global;

/// The repository id of the resources that learn of the end of their subtransaction.
const AWARE_ID: &[u8] = b"IDL:omg.org/CosTransactions/SubtransactionAwareResource:1.0";

/// The repository id of all objects.
const OBJECT_ID: &[u8] = b"IDL:omg.org/CORBA/Object:1.0";

/// The repository id of a resource.
const RESOURCE_ID: &[u8] = b"IDL:omg.org/CosTransactions/Resource:1.0";

/// The repository id of the interface of objects whose keys are of this kind.
#[tactic(auto, unfolding(crate::specs::References::type_id_of, crate::specs::References::aware_id, crate::specs::References::object_id, crate::specs::References::resource_id))]
pub fn type_id_of(kind: u8) -> &'static [u8]
    ensures { result.now ≡ refs.type_id_of kind }
{
    match kind {
        b'F' => b"IDL:omg.org/CosTransactions/TransactionFactory:1.0",
        b'C' => b"IDL:omg.org/CosTransactions/Control:1.0",
        b'T' => b"IDL:omg.org/CosTransactions/Terminator:1.0",
        b'K' => b"IDL:omg.org/CosTransactions/Coordinator:1.0",
        b'V' => b"IDL:omg.org/CosTransactions/RecoveryCoordinator:1.0",
        b'R' | b'U' => RESOURCE_ID,
        b'Y' => b"IDL:omg.org/CosTransactions/Synchronization:1.0",
        b'A' => AWARE_ID,
        b'D' => b"IDL:ots.local/Cells:1.0",
        _ => OBJECT_ID,
    }
}

#[tactic(auto, unfolding(crate::specs::References::aware_id))]
fn aware_id() -> &'static [u8]
    ensures { result.now ≡ refs.aware_id }
{
    AWARE_ID
}

#[tactic(auto, unfolding(crate::specs::References::object_id))]
fn object_id() -> &'static [u8]
    ensures { result.now ≡ refs.object_id }
{
    OBJECT_ID
}

#[tactic(auto, unfolding(crate::specs::References::resource_id))]
fn resource_id() -> &'static [u8]
    ensures { result.now ≡ refs.resource_id }
{
    RESOURCE_ID
}

/// Whether this repository id is that of the resources that learn of the end of their subtransaction.
pub fn is_aware_id(id: &[u8]) -> bool
    ensures { result ≡ bytes_eq id.now refs.aware_id }
{
    id == aware_id()
}

/// Whether this repository id is that of all objects.
pub(crate) fn is_object_id(id: &[u8]) -> bool
    ensures { result ≡ bytes_eq id.now refs.object_id }
{
    id == object_id()
}

/// Whether this repository id is that of a resource.
pub(crate) fn is_resource_id(id: &[u8]) -> bool
    ensures { result ≡ bytes_eq id.now refs.resource_id }
{
    id == resource_id()
}

/// The key of the factory of a service.
pub fn factory_key(service: u64) -> ObjectKey
    ensures { result ≡ refs.factory_key service }
{
    ObjectKey {
        kind: b'F',
        service,
        life: 0,
        slot: 0,
        generation: 0,
        index: 0,
    }
}

/// The key of the cells of a service.
pub fn cells_key(service: u64) -> ObjectKey
    ensures { result ≡ refs.cells_key service }
{
    ObjectKey {
        kind: b'D',
        ..factory_key(service)
    }
}

/// The key of a coordinator of the family that made a call.
pub fn coordinator_key(service: u64, number: &CallNumber, branch: u32) -> ObjectKey
    ensures { result ≡ refs.coordinator_key service number.now branch }
{
    ObjectKey {
        kind: b'K',
        service,
        life: number.life,
        slot: number.slot,
        generation: number.generation,
        index: branch,
    }
}

/// The reference to the factory of a service that stands at this place.
pub fn factory_reference(
    alloc: Global,
    at: &Endpoint,
    service: u64,
) -> Result<ObjectRef, ServeFault>
    ensures { IfOk result (λ reference. reference ≡ refs.reference_to at.now (refs.factory_key service)) }
{
    reference_to(alloc, at, &factory_key(service))
}

/// The reference to the cells of a service that stands at this place.
pub fn cells_reference(alloc: Global, at: &Endpoint, service: u64) -> Result<ObjectRef, ServeFault>
    ensures { IfOk result (λ reference. reference ≡ refs.reference_to at.now (refs.cells_key service)) }
{
    reference_to(alloc, at, &cells_key(service))
}

/// The reference to an object of the service that stands at this place.
pub fn reference_to(alloc: Global, at: &Endpoint, key: &ObjectKey) -> Result<ObjectRef, ServeFault>
    ensures { IfOk result (λ reference. reference ≡ refs.reference_to at.now key.now) }
{
    match make_ref(alloc, type_id_of(key.kind), at, key) {
        Ok(reference) => Ok(reference),
        Err(_) => Err(ServeFault::Memory),
    }
}
