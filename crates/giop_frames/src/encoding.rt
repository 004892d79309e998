ghost use Rattle.std.specs.Prelude.{◌≡◌, ◌+◌, ◌<◌, ◌≤◌, ◌^◌, length, None, Some, IfErr, IfOk, OnOk};
ghost use Rattle.cdr_values.specs.Value.{octets_of};
ghost use Rattle.cdr_values.specs.Appending.{Appends, AppendsSome};
ghost use Rattle.giop_frames.specs.declared.layout.Version.TheVariants.{V1_2};
ghost use Rattle.giop_frames.specs.Header.{header_octets, flags_of};
ghost use Rattle.giop_frames.specs.Encode.{Encodes, content_of, octets_in, refusal_of};
ghost use Rattle.giop_frames.specs.EncodeInside.{Tells, unwritten, fields_told, octets_in_table, octets_told, padding_at, parts_of, refusal_told, unless, values_told};
ghost use Rattle.giop_frames.specs.Layout.{layout};
ghost use Rattle.giop_frames.specs.Put.{IsPut};
ghost use Rattle.giop_frames.specs.Sizes.{end_of};

use crate::fault::{FrameFault, SIZE_LIMIT};
use crate::fields::put_fields;
use crate::header::{HEADER_LENGTH, Kind, MAGIC, version_octets};
use crate::layout::{Version, tail_gap};
use crate::message::Message;
use crate::sink::Sink;
use crate::told::Told;
use byteorder::{BigEndian, ByteOrder, LittleEndian};
use cdr_values::{Order, Writer};
use ots_model::Octets;
use std::alloc::{AllocError, Global};

static PADDING: [u8; 8] = [0; 8];

/// Appends the octets of the message to `into`, with padding 0: a Request or a Reply in its own byte order, a message of
/// another type big endian. The fields are tried from the left: a target other than a key is NotWritten, a key of more
/// than 256 octets is TooLong, an operation that holds a NUL BadString, and more than 16 contexts are TooLong, each in a
/// Body at the field's place. Where more than 65,536 octets would stand behind the header, it is TooLarge. After a
/// refusal `into` is as it was.
pub fn encode(alloc: Global, message: &Message, into: &mut Vec<u8>) -> Result<(), FrameFault>
    requires { octets_in message.now < 2 ^ 31 }
    ensures { Encodes V1_2 message.now result into.old.items into.new.items }
{
    encode_as(alloc, Version::V1_2, message, into)
}

/// Appends the octets of the message in this version, as `encode` does in version 1.2.
pub fn encode_as(
    alloc: Global,
    version: Version,
    message: &Message,
    into: &mut Vec<u8>,
) -> Result<(), FrameFault>
    requires { octets_in message.now < 2 ^ 31 }
    ensures { Encodes version message.now result into.old.items into.new.items }
{
    encode_told(alloc, version, &Told::of(message), into)
}

/// Appends the octets of a message that tells this.
fn encode_told(
    alloc: Global,
    version: Version,
    told: &Told,
    into: &mut Vec<u8>,
) -> Result<(), FrameFault>
    requires { octets_told version told.now < 2 ^ 31 }
    ensures { (message : Message) → Tells told.now message
        → Encodes version message result into.old.items into.new.items }
{
    cdr_values::canonical_octets_spell();
    let sink = put_told(alloc, version, told)?;
    let size = content_size(version, told, sink.end)?;
    let Some(writer) = sink.writer else {
        return Err(FrameFault::Memory);
    };
    let fields = writer.finish();
    append(version, told, size, fields.bytes(), into)?;
    Ok(())
}

/// The sink into which the fields of a message that tells this were put, or what refuses them first.
fn put_told(alloc: Global, version: Version, told: &Told) -> Result<Sink, FrameFault>
    requires { octets_told version told.now < 2 ^ 31 }
    ensures end { IfOk result (λ sink. sink.end ≡ end_of 12 (values_told version told.now)) }
    ensures written { IfOk result
        (λ sink. IsPut (values_told version told.now) (Some (unwritten told.now.order)) sink.writer) }
    ensures within { IfOk result
        (λ sink. sink.end ≤ 2060 + octets_in_table (fields_told told.now) (layout version told.now.kind)) }
    ensures passes { OnOk result (refusal_told version told.now ≡ None) }
    ensures refused { IfErr result (λ fault. refusal_told version told.now ≡ Some fault) }
{
    let mut sink = Sink {
        end: HEADER_LENGTH,
        writer: Some(Writer::new(alloc, told.order, HEADER_LENGTH as u32)),
    };
    put_fields(&mut sink, version, told)?;
    Ok(sink)
}

/// How many octets stand behind the header of a message that tells this, whose fields pass and end at this offset, or
/// that they are too many.
fn content_size(version: Version, told: &Told, end: usize) -> Result<u32, FrameFault>
    requires small { octets_told version told.now < 2 ^ 31 }
    requires ends { end ≡ end_of 12 (values_told version told.now) }
    requires within { end ≤ 2060 + octets_in_table (fields_told told.now) (layout version told.now.kind) }
    requires passes { refusal_told version told.now ≡ None }
    ensures { (message : Message) → Tells told.now message
        → result ≡ unless (refusal_of version message) (length (content_of version message)) }
{
    let fields = end - HEADER_LENGTH;
    let size = fields + padding(version, told, end).len() + told.behind.len();
    if size > SIZE_LIMIT {
        return Err(FrameFault::TooLarge(size as u32));
    }
    Ok(size as u32)
}

/// Appends the message with these fields, or nothing for want of memory.
fn append(
    version: Version,
    told: &Told,
    size: u32,
    fields: &[u8],
    into: &mut Vec<u8>,
) -> Result<(), AllocError>
    requires { length fields.now < 2 ^ 32 }
    ensures { Appends (parts_of version told.now size fields.now) result into.old.items into.new.items }
{
    let start = into.len();
    let appended = append_parts(version, told, size, fields, into);
    if appended.is_err() {
        into.truncate(start);
    }
    appended
}

/// Appends the header of a message, its fields, and what stands behind them.
fn append_parts(
    version: Version,
    told: &Told,
    size: u32,
    fields: &[u8],
    into: &mut Vec<u8>,
) -> Result<(), AllocError>
    requires { length fields.now < 2 ^ 32 }
    ensures { AppendsSome (parts_of version told.now size fields.now) result into.old.items into.new.items }
{
    into.extend_from_slice(&header_octets(version, told.order, told.kind, size))?;
    into.extend_from_slice(fields)?;
    into.extend_from_slice(padding(version, told, HEADER_LENGTH + fields.len()))?;
    into.extend_from_slice(told.behind)
}

/// The padding behind the fields, which end at an offset: none where nothing stands behind it.
fn padding(version: Version, told: &Told, at: usize) -> &'static [u8]
    ensures { result.now ≡ padding_at version told.now.kind at told.now.behind.now }
{
    if told.behind.is_empty() {
        return &[];
    }
    &PADDING[..tail_gap(version, told.kind, at)]
}

/// The header of a message that isn't fragmented.
fn header_octets(version: Version, order: Order, kind: Kind, size: u32) -> [u8; HEADER_LENGTH]
    ensures { result ≡ header_octets version order kind size }
{
    let [letter, second, third, last] = MAGIC;
    let [major, minor] = version_octets(version);
    let flags = header_flags(order);
    let [a, b, c, d] = size_octets(order, size);
    [
        letter,
        second,
        third,
        last,
        major,
        minor,
        flags,
        kind.octet(),
        a,
        b,
        c,
        d,
    ]
}

/// The flags of a message that isn't fragmented.
fn header_flags(order: Order) -> u8
    ensures { result ≡ flags_of order }
{
    match order {
        Order::Big => 0,
        Order::Little => 1,
    }
}

fn size_octets(order: Order, size: u32) -> [u8; 4]
    ensures { result ≡ octets_of order 4 size }
{
    let mut octets = [0; 4];
    match order {
        Order::Big => BigEndian::write_u32(&mut octets, size),
        Order::Little => LittleEndian::write_u32(&mut octets, size),
    }
    octets
}
