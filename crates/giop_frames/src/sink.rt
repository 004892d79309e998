ghost use Rattle.std.specs.Prelude.{◌≡◌, ◌+◌, ◌<◌, ◌≤◌, ◌^◌, ◌∷◌, [], OnOk};
ghost use Rattle.cdr_values.specs.Writing.{with_value};
ghost use Rattle.giop_frames.specs.Put.{HasPut, IsPlain, MayBePut, value_of};
ghost use Rattle.giop_frames.specs.Sizes.{end_of, size_of};

use cdr_values::{CdrFault, Writer, gap_before};

/// A value of a field.
#[derive(Drop)]
pub enum FieldValue<'a> {
    Octet(u8),
    UShort(u16),
    ULong(u32),
    /// A sequence of octets.
    Octets(&'a [u8]),
    /// A string of this text.
    Text(&'a [u8]),
}

/// Where the values of fields go, one after another: they are counted, and written where there is a writer.
#[derive(Drop)]
pub struct Sink {
    /// The offset behind the values.
    pub end: usize,
    /// What writes them. There is none any more where it wanted memory, or where it would have written too much.
    pub writer: Option<Writer>,
}

impl Sink {
    /// Puts one more value.
    pub fn put(&mut self, value: FieldValue)
        requires low { self.old.end < 2 ^ 33 }
        requires may { MayBePut (value_of value) }
        ensures put { HasPut (value_of value.entry ∷ []) self.old self.new }
        ensures within { self.new.end ≤ self.old.end + size_of (value_of value.entry) + 3 }
    {
        self.end = value.end(self.end);
        if let Some(writer) = &mut self.writer {
            if value.write(writer).is_err() {
                self.writer = None;
            }
        }
    }
}

impl FieldValue<'_> {
    /// The offset behind the value, where it is put at this offset.
    fn end(&self, at: usize) -> usize
        requires low { at < 2 ^ 33 }
        requires may { MayBePut (value_of self.now) }
        ensures end { result ≡ end_of at (value_of self.now ∷ []) }
        ensures within { result ≤ at + size_of (value_of self.now) + 3 }
    {
        match self {
            FieldValue::Octet(_) => at + 1,
            FieldValue::UShort(_) => at + gap_before(2, at) + 2,
            FieldValue::ULong(_) => at + gap_before(4, at) + 4,
            FieldValue::Octets(octets) => at + gap_before(4, at) + 4 + octets.len(),
            FieldValue::Text(text) => at + gap_before(4, at) + 4 + text.len() + 1,
        }
    }

    fn write(self, writer: &mut Writer) -> Result<(), CdrFault>
        requires { MayBePut (value_of self) }
        ensures written { OnOk result (writer.new ≡ with_value writer.old (value_of self.entry)) }
        ensures plain { IsPlain (value_of self.entry) }
    {
        match self {
            FieldValue::Octet(octet) => writer.octet(octet),
            FieldValue::UShort(number) => writer.ushort(number),
            FieldValue::ULong(number) => writer.ulong(number),
            FieldValue::Octets(octets) => writer.octets(octets),
            FieldValue::Text(text) => writer.string(text),
        }
    }
}
