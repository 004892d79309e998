ghost use Rattle.std.specs.Prelude.{◌≡◌, ◌+◌, ◌*◌, ◌<◌, ◌≤◌, ◌^◌, ◌∷◌, [], length, OnOk};
ghost use Rattle.std.specs.List.{flat_map};
ghost use Rattle.cdr_values.specs.Value.{Text};
ghost use Rattle.giop_frames.specs.Limits.{context_limit};
ghost use Rattle.giop_frames.specs.Layout.{context_values, contexts_values, layout};
ghost use Rattle.giop_frames.specs.Encode.{contexts_refusal, field_refusal, field_values, fields_refusal, octets_in_contexts, octets_in_target, operation_refusal, target_refusal, target_values};
ghost use Rattle.giop_frames.specs.EncodeInside.{fields_told, octets_in_field, octets_in_table, target_told};
ghost use Rattle.giop_frames.specs.Put.{HasPut, Puts};

use crate::fault::{CONTEXT_LIMIT, FrameFault, KEY_LIMIT, too_long};
use crate::layout::{Field, KEY_ADDR, Version, layout};
use crate::message::{ServiceContext, Target};
use crate::sink::{FieldValue, Sink};
use crate::told::Told;
use cdr_values::CdrFault;

/// Puts the fields of a message, in the order of the table of layouts, into a sink at their front. The first refusal is
/// answered.
pub fn put_fields(sink: &mut Sink, version: Version, told: &Told) -> Result<(), FrameFault>
    requires front { sink.old.end ≡ 12 }
    requires small { octets_in_table (fields_told told.now) (layout version told.now.kind) < 2 ^ 31 }
    ensures puts { Puts (flat_map (field_values (fields_told told.now)) (layout version told.now.kind))
        (fields_refusal (fields_told told.now) 12 (layout version told.now.kind)) result sink.old sink.new }
    ensures within { OnOk result
        (sink.new.end ≤ 2060 + octets_in_table (fields_told told.now) (layout version told.now.kind)) }
{
    for field in layout(version, told.kind) {
        put_field(sink, told, *field)?;
    }
    Ok(())
}

/// Puts a field. A reserved octet is 0.
fn put_field(sink: &mut Sink, told: &Told, field: Field) -> Result<(), FrameFault>
    requires low { sink.old.end < 2 ^ 31 + 4096 }
    requires small { octets_in_field (fields_told told.now) field < 2 ^ 31 }
    ensures puts { Puts (field_values (fields_told told.now) field)
        (field_refusal (fields_told told.now) sink.old.end field) result sink.old sink.new }
    ensures within { OnOk result
        (sink.new.end ≤ sink.old.end + octets_in_field (fields_told told.now) field + 256) }
{
    match field {
        Field::Id => sink.put(FieldValue::ULong(told.id)),
        Field::Flags => sink.put(FieldValue::Octet(told.flags)),
        Field::Reserved => sink.put(FieldValue::Octet(0)),
        Field::Status => sink.put(FieldValue::ULong(told.status)),
        Field::Target => return put_target(sink, told.target),
        Field::Operation => return put_operation(sink, told.operation),
        Field::Contexts => return put_contexts(sink, told.contexts),
    }
    Ok(())
}

/// Puts a target, which is written where it is a key.
fn put_target(sink: &mut Sink, target: Option<&Target>) -> Result<(), FrameFault>
    requires low { sink.old.end < 2 ^ 31 + 4096 }
    requires small { octets_in_target (target_told target) < 2 ^ 31 }
    ensures puts { Puts (target_values (target_told target.entry))
        (target_refusal sink.old.end (target_told target.entry)) result sink.old sink.new }
    ensures within { OnOk result (sink.new.end ≤ sink.old.end + octets_in_target (target_told target.entry) + 14) }
{
    let Some(Target::Key(key)) = target else {
        return Err(FrameFault::NotWritten);
    };
    let key = key.bytes();
    sink.put(FieldValue::UShort(KEY_ADDR));
    if key.len() > KEY_LIMIT {
        return Err(too_long(sink.end as u32, key.len() as u32));
    }
    sink.put(FieldValue::Octets(key));
    Ok(())
}

fn put_operation(sink: &mut Sink, operation: &[u8]) -> Result<(), FrameFault>
    requires low { sink.old.end < 2 ^ 31 + 4096 }
    requires small { length operation.now < 2 ^ 31 }
    ensures puts { Puts (Text operation.now ∷ []) (operation_refusal sink.old.end operation.now)
        result sink.old sink.new }
    ensures within { OnOk result (sink.new.end ≤ sink.old.end + length operation.now + 12) }
{
    if operation.contains(&0) {
        let place = sink.end as u32;
        return Err(FrameFault::Body {
            place,
            cdr: CdrFault::BadString(place),
        });
    }
    sink.put(FieldValue::Text(operation));
    Ok(())
}

/// Puts the count of the contexts, and the contexts.
fn put_contexts(sink: &mut Sink, contexts: &[ServiceContext]) -> Result<(), FrameFault>
    requires low { sink.old.end < 2 ^ 31 + 4096 }
    requires small { octets_in_contexts contexts.now + length contexts.now < 2 ^ 31 }
    ensures puts { Puts (contexts_values contexts.now) (contexts_refusal sink.old.end contexts.now)
        result sink.old sink.new }
    ensures within { OnOk result (sink.new.end ≤ sink.old.end + octets_in_contexts contexts.now + 256) }
{
    if contexts.len() > CONTEXT_LIMIT as usize {
        return Err(too_long(sink.end as u32, contexts.len() as u32));
    }
    sink.put(FieldValue::ULong(contexts.len() as u32));
    put_each_context(sink, contexts);
    Ok(())
}

fn put_each_context(sink: &mut Sink, contexts: &[ServiceContext])
    requires few { length contexts.now ≤ context_limit }
    requires low { sink.old.end < 2 ^ 32 }
    requires small { octets_in_contexts contexts.now < 2 ^ 31 }
    ensures puts { HasPut (flat_map context_values contexts.now) sink.old sink.new }
    ensures within { sink.new.end ≤ sink.old.end + octets_in_contexts contexts.now + 14 * length contexts.now }
{
    for context in contexts {
        sink.put(FieldValue::ULong(context.id));
        sink.put(FieldValue::Octets(context.bytes.bytes()));
    }
}
