ghost use Rattle.std.specs.Prelude.{◌≡◌, ◌↔◌, ◌⊎◌, ◌<◌, ◌≤◌, ◌^◌, length, IsTrue, IsOk, IfOk, IfErr, OnErr, Err};
ghost use Rattle.std.specs.Option.{option_copied};
ghost use Rattle.ots_model.specs.Limits.{reference_limit};
ghost use Rattle.cdr_values.specs.declared.order.Order.TheVariants.{Big};
ghost use Rattle.cdr_values.specs.Again.{AllFit, standing};
ghost use Rattle.cdr_values.specs.Tagged.{reference_values};
ghost use Rattle.ior_refs.specs.Reference.{Reference, AreOctets, IsReference, nil, canonical_octets};
ghost use Rattle.ior_refs.specs.Fault.{Gives, Finds, stopped_as};
ghost use Rattle.ior_refs.specs.Reading.{if_short, short_reference_at, whole};
ghost use Rattle.ior_refs.specs.Writing.{WritesAll, WritesWhole};
ghost use Rattle.ior_refs.specs.Iiop.{first_iiop};

use crate::fault::IorFault;
use crate::tagged::{read_all_tagged, write_all_tagged};
use cdr_values::{CdrFault, Order, Reader, Writer};
use ots_model::{Octets, RefBytes, RefFault};
use std::alloc::{AllocError, Global};
use std::marker::Model;

/// The tag of an IIOP profile (TAG_INTERNET_IOP).
pub const IIOP_TAG: u32 = 0;

/// An object reference (IOR). It keeps its canonical octets, at most 1,024: the big endian spelling at offset 0, with
/// the octets of each profile as they came. Contracts see it as its type_id and its profiles.
#[derive(Drop)]
pub struct ObjectRef {
    type_id: Octets,
    profiles: Vec<(u32, Octets)>,
    octets: RefBytes,
}

impl Model for ObjectRef {
    ghost use Rattle.std.specs.Prelude.{◌≡◌};
    ghost use Rattle.ior_refs.specs.Reference.{Reference, IsReference, canonical_octets};

    ghost Value = { Reference };

    ghost view = { λ o. (o.type_id, o.profiles.items) };

    ghost invariant = { λ o.
        IsReference (o.type_id, o.profiles.items) × (o.octets ≡ canonical_octets (o.type_id, o.profiles.items)) };
}

impl ObjectRef {
    /// The reference that these octets spell in big endian order from offset 0 on. Padding may be any octets; the
    /// reference keeps its own canonical ones.
    pub fn from_bytes(alloc: Global, b: &RefBytes) -> Result<ObjectRef, IorFault>
        ensures { Finds (λ o. o) result (whole short_reference_at (standing Big 0 b.now)) }
    {
        let mut reader = Reader::new(b.bytes(), Order::Big, 0);
        read_whole(alloc, &mut reader)
    }

    /// A copy of its canonical octets.
    pub fn to_bytes(&self, alloc: Global) -> Result<RefBytes, AllocError>
        ensures { IfOk result (λ octets. octets ≡ canonical_octets self.now) }
    {
        self.octets.copy(alloc)
    }

    /// Its canonical octets. Two references are the same exactly where these are.
    pub fn bytes(&self) -> &[u8]
        ensures octets { result.now ≡ canonical_octets self.now }
        ensures reference { IsReference self.now }
    {
        self.octets.bytes()
    }

    /// Whether it is the reference to no object, which has an empty type_id and no profile.
    pub fn is_nil(&self) -> bool
        ensures { IsTrue result ↔ (self.now ≡ nil) }
    {
        self.type_id.bytes().is_empty() && self.profiles.is_empty()
    }

    /// Its type_id, a repository id or nothing.
    pub fn type_id(&self) -> &[u8]
        ensures { result.now ≡ self.now.0 }
    {
        self.type_id.bytes()
    }

    /// The octets of its first IIOP profile.
    pub(crate) fn first_iiop(&self) -> Option<&[u8]>
        ensures first { option_copied result ≡ first_iiop self.now }
        ensures fits { AllFit (reference_values self.now) }
    {
        let profile = self.profiles.iter().find(|profile| profile.0 == IIOP_TAG)?;
        Some(profile.1.bytes())
    }

    /// The reference of a type_id and profiles, which begins at this offset.
    pub(crate) fn of_parts(
        alloc: Global,
        type_id: Octets,
        profiles: Vec<(u32, Octets)>,
        place: u32,
    ) -> Result<ObjectRef, IorFault>
        requires { AllFit (reference_values (type_id, profiles.items)) }
        ensures { Finds (λ o. o) result (if_short place (type_id, profiles.items)) }
    {
        let mut writer = Writer::new(alloc, Order::Big, 0);
        if let Err(fault) = write_parts(&mut writer, type_id.bytes(), profiles.as_slice()) {
            return Err(too_long(place, fault));
        }
        let octets = kept(alloc, writer.finish().bytes(), place)?;
        Ok(ObjectRef {
            type_id,
            profiles,
            octets,
        })
    }
}

/// A copy of the canonical octets of the reference that begins at this offset.
fn kept(alloc: Global, octets: &[u8], place: u32) -> Result<RefBytes, IorFault>
    requires { length octets.now < 2 ^ 31 }
    ensures copy { IfOk result (λ copy. copy ≡ octets.now) }
    ensures short { IsOk result → length octets.now ≤ reference_limit }
    ensures long { IfErr result (λ fault.
        (fault ≡ IorFault.Memory) ⊎ ((fault ≡ IorFault.TooLong place) × (reference_limit < length octets.now))) }
    ensures too_long { reference_limit < length octets.now → result ≡ Err (IorFault.TooLong place) }
    ensures octets { AreOctets octets.now }
{
    match RefBytes::new(alloc, octets) {
        Ok(copy) => Ok(copy),
        Err(RefFault::TooLong(_)) => Err(IorFault::TooLong(place)),
        Err(RefFault::Memory) => Err(IorFault::Memory),
    }
}

/// Reads a reference, at any offset and in the reader's byte order. After a refusal the reader is as it was.
pub fn read_ref(alloc: Global, r: &mut Reader) -> Result<ObjectRef, IorFault>
    ensures exact { Gives (λ o. o) result r.new (short_reference_at r.old) }
    ensures err { OnErr result (r.new ≡ r.old) }
{
    let mut ahead = r.copy();
    let reference = read_parts(alloc, &mut ahead)?;
    *r = ahead;
    Ok(reference)
}

/// Reads a reference. After a refusal the reader stands behind some of its values.
#[tactic(auto, unfolding(crate::specs::Reading::short_reference_at, crate::specs::Reading::each_tagged_at, cdr_values::specs::Tagged::reference_at))]
fn read_parts(alloc: Global, r: &mut Reader) -> Result<ObjectRef, IorFault>
    ensures { Gives (λ o. o) result r.new (short_reference_at r.old) }
{
    let place = r.place();
    let type_id = Octets::new(alloc, r.string()?)?;
    let profiles = read_all_tagged(alloc, r)?;
    ObjectRef::of_parts(alloc, type_id, profiles, place)
}

/// Reads a reference that has nothing behind it.
pub fn read_whole(alloc: Global, reader: &mut Reader) -> Result<ObjectRef, IorFault>
    ensures { Finds (λ o. o) result (whole short_reference_at reader.old) }
{
    let reference = read_ref(alloc, reader)?;
    if !reader.rest().is_empty() {
        return Err(IorFault::Rest(reader.place()));
    }
    Ok(reference)
}

/// Writes a reference where the writer stands, in its byte order. After a refusal the writer is as it was.
pub fn write_ref(w: &mut Writer, o: &ObjectRef) -> Result<(), CdrFault>
    ensures { WritesWhole (reference_values o.now) result w.old w.new }
{
    let start = w.place();
    match write_parts(w, o.type_id.bytes(), o.profiles.as_slice()) {
        Ok(()) => Ok(()),
        Err(fault) => {
            w.take_back(start);
            Err(fault)
        }
    }
}

fn write_parts(
    writer: &mut Writer,
    type_id: &[u8],
    profiles: &[(u32, Octets)],
) -> Result<(), CdrFault>
    requires { AllFit (reference_values (type_id.now, profiles.now)) }
    ensures { WritesAll (reference_values (type_id.now, profiles.now)) result writer.old writer.new }
{
    writer.string(type_id)?;
    write_all_tagged(writer, profiles)
}

/// Why the reference that begins at this place isn't kept, where the writer of its canonical octets stopped: it wanted
/// memory, or it is full.
fn too_long(place: u32, fault: CdrFault) -> IorFault
    ensures { result ≡ stopped_as place fault }
{
    match fault {
        CdrFault::Memory => IorFault::Memory,
        _ => IorFault::TooLong(place),
    }
}
