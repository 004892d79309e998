ghost use Rattle.std.specs.Prelude.{◌≡◌, ◌⊎◌, ◌+◌, ◌<◌, ◌≤◌, length, false, [], IsOk, IfOk, IfErr, IfSome, OnOk, Some, None, Err};
ghost use Rattle.ots_model.specs.Limits.{reference_limit};
ghost use Rattle.cdr_values.specs.Value.{has_nul};
ghost use Rattle.cdr_values.specs.declared.fault.CdrFault.TheVariants as cdr;
ghost use Rattle.cdr_values.specs.declared.order.Order.TheVariants.{Big};
ghost use Rattle.cdr_values.specs.Encapsulation.{begun};
ghost use Rattle.cdr_values.specs.Values.{with_values};
ghost use Rattle.ior_refs.specs.Iiop.{iiop_values};
ghost use Rattle.ior_refs.specs.Making.{iiop_to, nul_in, profile_to, reference_to, refusal_to};

use crate::fault::IorFault;
use crate::key::{ObjectKey, key_octets};
use crate::reference::{IIOP_TAG, ObjectRef};
use cdr_values::{CdrFault, Order, Writer};
use ots_model::{Endpoint, Octets, REFERENCE_LIMIT};
use std::alloc::Global;

/// The place of the host in a profile, in front of its padding.
const HOST_PLACE: u32 = 3;

/// The reference to one of this service's own objects: an IIOP profile of version 1.2 with no components.
pub fn make_ref(
    alloc: Global,
    type_id: &[u8],
    at: &Endpoint,
    key: &ObjectKey,
) -> Result<ObjectRef, IorFault>
    ensures made { IfOk result (λ o. o ≡ reference_to type_id.now at.now key.now) }
    ensures fits { IsOk result → refusal_to type_id.now at.now key.now ≡ None }
    ensures refused { IfErr result (λ fault.
        (fault ≡ IorFault.Memory) ⊎ (refusal_to type_id.now at.now key.now ≡ Some fault)) }
    ensures nul { IfSome (nul_in type_id.now at.now.host) (λ fault. result ≡ Err fault) }
    ensures long { nul_in type_id.now at.now.host ≡ None → reference_limit < length type_id.now + length at.now.host
        → result ≡ Err (IorFault.TooLong 0) }
{
    if has_nul(type_id) {
        return Err(IorFault::Cdr(CdrFault::BadString(0)));
    }
    if has_nul(at.host.bytes()) {
        return Err(IorFault::Cdr(CdrFault::BadString(HOST_PLACE)));
    }
    if type_id.len() + at.host.bytes().len() > REFERENCE_LIMIT {
        return Err(IorFault::TooLong(0));
    }
    let profile = profile_octets(alloc, at, key)?;
    let mut profiles = Vec::new(alloc);
    profiles.push((IIOP_TAG, profile))?;
    ObjectRef::of_parts(alloc, Octets::new(alloc, type_id)?, profiles, 0)
}

/// Whether a text holds a NUL.
fn has_nul(text: &[u8]) -> bool
    ensures { result ≡ has_nul text.now }
{
    text.contains(&0)
}

/// The octets of the profile of an object.
#[tactic(auto, unfolding(crate::specs::Making::profile_to))]
fn profile_octets(alloc: Global, at: &Endpoint, key: &ObjectKey) -> Result<Octets, CdrFault>
    requires short { length at.now.host ≤ reference_limit }
    requires text { has_nul at.now.host ≡ false }
    ensures profile { IfOk result (λ octets. octets ≡ profile_to at.now key.now) }
    ensures memory { IfErr result (λ fault. fault ≡ cdr.Memory) }
{
    let mut writer = Writer::encapsulation(alloc, Order::Big)?;
    write_profile(&mut writer, at, key)?;
    Ok(writer.finish())
}

/// Writes the profile of an object behind the octet that tells its byte order.
fn write_profile(writer: &mut Writer, at: &Endpoint, key: &ObjectKey) -> Result<(), CdrFault>
    requires front { writer.old ≡ begun Big }
    requires short { length at.now.host ≤ reference_limit }
    requires text { has_nul at.now.host ≡ false }
    ensures ok { OnOk result (writer.new ≡ with_values (begun Big) (iiop_values (iiop_to at.now key.now) [])) }
    ensures memory { IfErr result (λ fault. fault ≡ cdr.Memory) }
{
    writer.octet(1)?;
    writer.octet(2)?;
    writer.string(at.host.bytes())?;
    writer.ushort(at.port)?;
    writer.octets(&key_octets(key))?;
    writer.ulong(0)
}
