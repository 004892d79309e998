ghost use Rattle.std.specs.Prelude.{◌≡◌, ◌+◌, ◌*◌, ◌^◌, ◌<◌, ◌≤◌, All, IfErr, IfOk, Ok, OnOk, length};
ghost use Rattle.std.specs.List.{flat_map};
ghost use Rattle.cdr_values.specs.declared.order.Order.TheVariants.{Big};
ghost use Rattle.cdr_values.specs.declared.fault.CdrFault.TheVariants as cdr;
ghost use Rattle.cdr_values.specs.Limits.{output_limit};
ghost use Rattle.cdr_values.specs.Raw.{WritesOctets};
ghost use Rattle.cdr_values.specs.Sequence.{sequence_values};
ghost use Rattle.cdr_values.specs.Values.{with_values};
ghost use Rattle.cdr_values.specs.Writing.{place_of};
ghost use Rattle.ots_context.specs.Context.{IsContext};
ghost use Rattle.ots_context.specs.Fault.{Finds};
ghost use Rattle.ots_context.specs.Identity.{IsIdentity, identity_values};
ghost use Rattle.ots_context.specs.Laws.{IsSound};
ghost use Rattle.ots_context.specs.Limits.{parent_limit};
ghost use Rattle.ots_context.specs.RoomInside.{identity_size};
ghost use Rattle.ots_context.specs.Reading.{context_in};
ghost use Rattle.ots_context.specs.Tail.{octets_of_tail};
ghost use Rattle.ots_context.specs.Writing.{behind_current, kept_length, with_context, with_tail, written};

use crate::context::{AnyTail, Context, Identity};
use crate::fault::ContextFault;
use crate::identity::write_identity;
use crate::laws::{contexts_are_read_exactly, written_contexts_are_read_again};
use crate::tail::can_stand;
use cdr_values::{CdrFault, Order, Writer};
use ots_model::Octets;
use std::alloc::Global;

/// How many parents a context has at most (our profile).
pub const PARENT_LIMIT: usize = 16;

/// The octets of a context, big endian. A kept tail is written only where it means what it meant where it stood.
pub fn encode_context(alloc: Global, c: &Context) -> Result<Octets, ContextFault>
    requires { kept_length c.now.tail < 2 ^ 31 }
    ensures exact { Finds (λ octets. octets) result (written c.now) }
    ensures context { IfOk result (λ octets. IsContext c.now octets) }
    ensures again { IfOk result (λ octets. context_in octets ≡ Ok c.now) }
    ensures short { IfOk result (λ octets. length octets ≤ output_limit) }
{
    contexts_are_read_exactly();
    written_contexts_are_read_again();
    let mut writer = Writer::encapsulation(alloc, Order::Big)?;
    write_context(&mut writer, c)?;
    Ok(writer.finish())
}

/// Writes a context as a parameter has it, with nothing or one octet in front of it. After a refusal the writer may have
/// written some of its values, and is not to be used again.
#[tactic(auto, unfolding(crate::specs::Writing::with_context))]
pub fn write_context(writer: &mut Writer, c: &Context) -> Result<(), ContextFault>
    requires tail { kept_length c.now.tail < 2 ^ 31 }
    requires big { writer.old.order ≡ Big }
    requires start { writer.old.start ≡ 0 }
    requires front { length writer.old.octets ≤ 1 }
    ensures exact { Finds (λ nothing. writer.new.octets) result (with_context writer.old c.now) }
    ensures sound { OnOk result (IsSound c.now) }
{
    write_current(writer, c)?;
    let parents = c.parents.items();
    if parents.len() > PARENT_LIMIT {
        return Err(ContextFault::TooMany(writer.place()));
    }
    write_parents(writer, parents)?;
    write_tail(writer, &c.tail)
}

/// Writes what stands in front of the parents.
#[tactic(auto, unfolding(crate::specs::Writing::behind_current))]
fn write_current(writer: &mut Writer, c: &Context) -> Result<(), CdrFault>
    requires front { length writer.old.octets ≤ 1 }
    ensures ok { OnOk result (writer.new ≡ behind_current writer.old c.now) }
    ensures current { OnOk result (IsIdentity c.now.current) }
    ensures timeout { c.now.timeout < 2 ^ 32 }
    ensures memory { IfErr result (λ fault. fault ≡ cdr.Memory) }
{
    let timeout = c.timeout;
    writer.ulong(timeout)?;
    write_identity(writer, &c.current)
}

/// Writes the parents, for which there is room.
fn write_parents(writer: &mut Writer, parents: &[Identity]) -> Result<(), CdrFault>
    requires few { length parents.now ≤ parent_limit }
    requires room { length writer.old.octets ≤ identity_size + 8 }
    ensures ok { OnOk result (writer.new ≡ with_values writer.old (sequence_values identity_values parents.now)) }
    ensures parents { OnOk result (All IsIdentity parents.now) }
    ensures memory { IfErr result (λ fault. fault ≡ cdr.Memory) }
{
    writer.ulong(parents.len() as u32)?;
    write_each(writer, parents)
}

fn write_each(writer: &mut Writer, parents: &[Identity]) -> Result<(), CdrFault>
    requires room { length writer.old.octets + identity_size * length parents.now ≤ output_limit }
    ensures ok { OnOk result (writer.new ≡ with_values writer.old (flat_map identity_values parents.now)) }
    ensures parents { OnOk result (All IsIdentity parents.now) }
    ensures memory { IfErr result (λ fault. fault ≡ cdr.Memory) }
{
    for parent in parents {
        write_identity(writer, parent)?;
    }
    Ok(())
}

/// Writes the tail of a context.
fn write_tail(writer: &mut Writer, tail: &AnyTail) -> Result<(), ContextFault>
    requires short { kept_length tail.now < 2 ^ 31 }
    requires big { writer.old.order ≡ Big }
    requires start { writer.old.start ≡ 0 }
    requires few { length writer.old.octets ≤ output_limit }
    ensures { Finds (λ nothing. writer.new.octets) result (with_tail writer.old tail.now) }
{
    let place = writer.place();
    write_octets(writer, tail)?;
    if can_stand(place, tail) {
        Ok(())
    } else {
        Err(ContextFault::TailPlace)
    }
}

/// Writes the octets of a tail.
fn write_octets(writer: &mut Writer, tail: &AnyTail) -> Result<(), CdrFault>
    requires short { kept_length tail.now < 2 ^ 31 }
    requires big { writer.old.order ≡ Big }
    ensures { WritesOctets (octets_of_tail (place_of writer.old) tail.now) result writer.old writer.new }
{
    match tail {
        AnyTail::Null => writer.ulong(0),
        AnyTail::Kept { octets, .. } => writer.raw(octets.bytes()),
    }
}
