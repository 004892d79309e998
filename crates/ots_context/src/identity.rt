ghost use Rattle.std.specs.Prelude.{◌≡◌, ◌+◌, ◌≤◌, Err, IfErr, OnOk, false, length};
ghost use Rattle.std.specs.Int.{w32, cast_unsigned};
ghost use Rattle.cdr_values.specs.Limits.{output_limit};
ghost use Rattle.cdr_values.specs.Tagged.{reference_values};
ghost use Rattle.cdr_values.specs.Values.{with_values};
ghost use Rattle.cdr_values.specs.declared.fault.CdrFault.TheVariants as cdr;
ghost use Rattle.ior_refs.specs.Reference.{IsReference};
ghost use Rattle.otid_names.specs.Otid.{IsOtid};
ghost use Rattle.ots_context.specs.Fault.{Finds, Gives};
ghost use Rattle.ots_context.specs.Identity.{IsIdentity, has_lengths, identity_values, otid_values};
ghost use Rattle.ots_context.specs.RoomInside.{identity_size, otid_size, reference_size};
ghost use Rattle.ots_context.specs.Reading.{identity_at, identity_behind, otid_at, otid_in};

use crate::context::Identity;
use crate::fault::ContextFault;
use cdr_values::{CdrFault, Reader, Writer};
use ior_refs::{ObjectRef, read_ref, write_ref};
use otid_names::{Otid, OtidFault};
use ots_model::REFERENCE_LIMIT;
use std::alloc::Global;

/// Reads an identity.
#[tactic(auto, unfolding(crate::specs::Reading::identity_at))]
pub fn read_identity(alloc: Global, reader: &mut Reader) -> Result<Identity, ContextFault>
    ensures { Gives (λ identity. identity) result reader.new (identity_at reader.old) }
{
    let coord = read_ref(alloc, reader)?;
    read_behind_coordinator(alloc, reader, coord)
}

/// Reads what stands behind the reference to the coordinator.
#[tactic(auto, unfolding(crate::specs::Reading::identity_behind))]
fn read_behind_coordinator(
    alloc: Global,
    reader: &mut Reader,
    coord: ObjectRef,
) -> Result<Identity, ContextFault>
    ensures { Gives (λ identity. identity) result reader.new (identity_behind coord reader.old) }
{
    let term = read_ref(alloc, reader)?;
    let otid = read_otid(alloc, reader)?;
    Ok(Identity { coord, term, otid })
}

#[tactic(auto, unfolding(crate::specs::Reading::otid_at))]
fn read_otid(alloc: Global, reader: &mut Reader) -> Result<Otid, ContextFault>
    ensures exact { Gives (λ otid. otid) result reader.new (otid_at reader.old) }
    ensures lengths { otid_at reader.old ≡ Err ContextFault.Otid → result ≡ Err ContextFault.Otid }
{
    let format = reader.ulong()?.cast_signed();
    let bqual = reader.ulong()?;
    let tid = reader.octets()?;
    otid_of(alloc, format, bqual, tid)
}

/// The otid of these fields.
fn otid_of(alloc: Global, format: i32, bqual: u32, tid: &[u8]) -> Result<Otid, ContextFault>
    ensures exact { Finds (λ otid. otid) result (otid_in format bqual tid.now) }
    ensures lengths { has_lengths bqual tid.now ≡ false → result ≡ Err ContextFault.Otid }
{
    match Otid::new(alloc, format, bqual, tid) {
        Ok(otid) => Ok(otid),
        Err(OtidFault::BadLength) => Err(ContextFault::Otid),
        Err(OtidFault::Memory) => Err(ContextFault::Memory),
    }
}

/// Writes an identity, for which there is room.
pub fn write_identity(writer: &mut Writer, identity: &Identity) -> Result<(), CdrFault>
    requires room { length writer.old.octets + identity_size ≤ output_limit }
    ensures ok { OnOk result (writer.new ≡ with_values writer.old (identity_values identity.now)) }
    ensures identity { OnOk result (IsIdentity identity.now) }
    ensures memory { IfErr result (λ fault. fault ≡ cdr.Memory) }
{
    write_reference(writer, &identity.coord)?;
    write_reference(writer, &identity.term)?;
    write_otid(writer, &identity.otid)
}

/// Writes a reference, for which there is room. Want of memory alone refuses it.
pub fn write_reference(writer: &mut Writer, reference: &ObjectRef) -> Result<(), CdrFault>
    requires room { length writer.old.octets + reference_size ≤ output_limit }
    ensures ok { OnOk result (writer.new ≡ with_values writer.old (reference_values reference.now)) }
    ensures reference { IsReference reference.now }
    ensures memory { IfErr result (λ fault. fault ≡ cdr.Memory) }
{
    let length = reference.bytes().len();
    prove!(length <= REFERENCE_LIMIT);
    write_ref(writer, reference)
}

/// Writes an otid, for which there is room.
fn write_otid(writer: &mut Writer, otid: &Otid) -> Result<(), CdrFault>
    requires room { length writer.old.octets + otid_size ≤ output_limit }
    ensures ok { let o = otid.now in
        OnOk result (writer.new ≡ with_values writer.old (otid_values (cast_unsigned w32 o.format) o.bqual o.tid)) }
    ensures otid { OnOk result (IsOtid otid.now) }
    ensures memory { IfErr result (λ fault. fault ≡ cdr.Memory) }
{
    let tid = otid.tid();
    writer.ulong(otid.format().cast_unsigned())?;
    writer.ulong(otid.bqual())?;
    writer.octets(tid)
}
