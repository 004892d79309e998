ghost use Rattle.std.specs.Prelude.{◌≡◌, ◌+◌, ◌^◌, ◌<◌, ◌≤◌, ◌++◌, [], length, IfOk, IfErr};
ghost use Rattle.cdr_values.specs.Value.{Octet, Boolean, UShort, ULong, ULongLong, OctetSequence, Text, Aligned, IsSize, octets_of, padded};
ghost use Rattle.cdr_values.specs.Encapsulation.{begun};
ghost use Rattle.cdr_values.specs.Raw.{WritesOctets};
ghost use Rattle.cdr_values.specs.declared.fault.CdrFault.TheVariants.{Memory};
ghost use Rattle.cdr_values.specs.Limits.{output_limit, start_limit};
ghost use Rattle.cdr_values.specs.Writing.{WritesValue, place_of, written_before};
ghost use Rattle.cdr_values.specs.WritingInside.{Puts, in_order};
ghost use Rattle.cdr_values.specs.Appending.{Appends, AppendsSome};

use crate::fault::{CdrFault, OUTPUT_LIMIT};
use crate::order::Order;
use crate::reader::gap_before;
use byteorder::{BigEndian, ByteOrder, LittleEndian};
use ots_model::Octets;
use std::alloc::{AllocError, Global};
use std::marker::Model;

const PADDING: [u8; 8] = [0; 8];

/// For how many octets memory is taken at first, so that a short value takes it once.
const FIRST_ROOM: usize = 128;

/// Writes values at the end of octets, at offsets that count from a start of the caller's, with padding 0. It writes at
/// most 65,536 octets. Contracts see it as the order, the start, and the octets so far. A refusal leaves the writer as
/// it was.
#[derive(Drop)]
pub struct Writer {
    octets: Vec<u8>,
    start: u32,
    order: Order,
}

impl Model for Writer {
    ghost use Rattle.std.specs.Prelude.{◌≤◌, length};
    ghost use Rattle.cdr_values.specs.Limits.{output_limit, start_limit};
    ghost use Rattle.cdr_values.specs.Writing.{Writing};

    ghost Value = { Writing };

    ghost view = { λ w. record { order = w.order; start = w.start; octets = w.octets.items } };

    ghost invariant = { λ w. (w.start ≤ start_limit) × (length w.octets.items ≤ output_limit) };
}

impl Writer {
    /// A writer that has written nothing, and whose first octet is to stand at the offset `start`.
    pub fn new(alloc: Global, order: Order, start: u32) -> Writer
        requires { start ≤ start_limit }
        ensures stands { result ≡ record { order = order; start = start; octets = [] } }
    {
        Writer {
            octets: Vec::new(alloc),
            start,
            order,
        }
    }

    /// A writer of an encapsulation, which has written the octet that tells the byte order. Offsets count from that
    /// octet, at offset 0.
    pub fn encapsulation(alloc: Global, order: Order) -> Result<Writer, CdrFault>
        ensures ok { IfOk result (λ writer. writer ≡ begun order) }
        ensures refused { IfErr result (λ fault. fault ≡ Memory) }
    {
        let mut writer = Writer::new(alloc, order, 0);
        match order {
            Order::Big => writer.octet(0)?,
            Order::Little => writer.octet(1)?,
        }
        Ok(writer)
    }

    /// Writes an octet.
    pub fn octet(&mut self, value: u8) -> Result<(), CdrFault>
        ensures { WritesValue (Octet value) result self.old self.new }
    {
        self.put(1, &[value], &[], &[])
    }

    /// Writes a boolean, as the octet 0 or 1.
    pub fn boolean(&mut self, value: bool) -> Result<(), CdrFault>
        ensures { WritesValue (Boolean value) result self.old self.new }
    {
        self.put(1, &[u8::from(value)], &[], &[])
    }

    /// Writes an unsigned short.
    pub fn ushort(&mut self, value: u16) -> Result<(), CdrFault>
        ensures { WritesValue (UShort value) result self.old self.new }
    {
        let mut number = [0; 2];
        match self.order {
            Order::Big => BigEndian::write_u16(&mut number, value),
            Order::Little => LittleEndian::write_u16(&mut number, value),
        }
        self.put(2, &number, &[], &[])
    }

    /// Writes an unsigned long.
    pub fn ulong(&mut self, value: u32) -> Result<(), CdrFault>
        ensures { WritesValue (ULong value) result self.old self.new }
    {
        let number = ulong_octets(self.order, value);
        self.put(4, &number, &[], &[])
    }

    /// Writes an unsigned long long.
    pub fn ulonglong(&mut self, value: u64) -> Result<(), CdrFault>
        ensures { WritesValue (ULongLong value) result self.old self.new }
    {
        let mut number = [0; 8];
        match self.order {
            Order::Big => BigEndian::write_u64(&mut number, value),
            Order::Little => LittleEndian::write_u64(&mut number, value),
        }
        self.put(8, &number, &[], &[])
    }

    /// Writes a sequence of octets.
    pub fn octets(&mut self, value: &[u8]) -> Result<(), CdrFault>
        requires { length value.now < 2 ^ 31 }
        ensures { WritesValue (OctetSequence value.now) result self.old self.new }
    {
        let count = ulong_octets(self.order, value.len() as u32);
        self.put(4, &count, value, &[])
    }

    /// Writes a string of this text, with a NUL behind it. A text that holds a NUL is refused.
    pub fn string(&mut self, value: &[u8]) -> Result<(), CdrFault>
        requires { length value.now < 2 ^ 31 }
        ensures { WritesValue (Text value.now) result self.old self.new }
    {
        if value.contains(&0) {
            return Err(CdrFault::BadString(self.place()));
        }
        let count = ulong_octets(self.order, value.len() as u32 + 1);
        self.put(4, &count, value, &[0])
    }

    /// Goes on to the next multiple of n.
    pub fn align(&mut self, n: u32) -> Result<(), CdrFault>
        requires { IsSize n }
        ensures { WritesValue (Aligned n) result self.old self.new }
    {
        self.put(n, &[], &[], &[])
    }

    /// Writes these octets as they stand, with no count in front and no padding.
    pub fn raw(&mut self, octets: &[u8]) -> Result<(), CdrFault>
        requires { length octets.now < 2 ^ 31 }
        ensures { WritesOctets octets.now result self.old self.new }
    {
        self.put(1, &[], octets, &[])
    }

    /// The offset at which it stands, which is that of the next octet.
    pub fn place(&self) -> u32
        ensures { result ≡ place_of self.now }
    {
        self.start + self.octets.len() as u32
    }

    /// Takes back what it has written from this offset on. It needs no memory.
    pub fn take_back(&mut self, place: u32)
        requires begun { self.old.start ≤ place }
        ensures { self.new ≡ written_before place self.old }
    {
        self.octets.truncate((place - self.start) as usize);
    }

    /// The octets that it has written.
    pub fn finish(self) -> Octets
        ensures octets { result ≡ self.octets }
        ensures few { length self.octets ≤ output_limit }
    {
        Octets::from_vec(self.octets)
    }

    /// Writes padding to a multiple of n, and then these octets.
    fn put(&mut self, n: u32, number: &[u8], items: &[u8], end: &[u8]) -> Result<(), CdrFault>
        requires size { IsSize n }
        requires number { length number.now ≤ 8 }
        requires items { length items.now < 2 ^ 31 }
        requires end { length end.now ≤ 1 }
        ensures { Puts self.old (padded n (place_of self.old) (number.now ++ (items.now ++ end.now))) result self.new }
    {
        let gap = gap_before(n as usize, self.place() as usize);
        let length = self.octets.len() + gap + number.len() + items.len() + end.len();
        if length > OUTPUT_LIMIT {
            return Err(CdrFault::TooLong {
                place: self.place(),
                length: length as u32,
            });
        }
        append(&mut self.octets, &PADDING[..gap], number, items, end)?;
        Ok(())
    }
}

/// The octets of a number of four octets.
fn ulong_octets(order: Order, value: u32) -> [u8; 4]
    ensures { result ≡ octets_of order 4 value }
{
    let mut number = [0; 4];
    match order {
        Order::Big => BigEndian::write_u32(&mut number, value),
        Order::Little => LittleEndian::write_u32(&mut number, value),
    }
    number
}

/// Appends these octets, or nothing for want of memory.
fn append(
    octets: &mut Vec<u8>,
    padding: &[u8],
    number: &[u8],
    items: &[u8],
    end: &[u8],
) -> Result<(), AllocError>
    ensures { Appends (in_order padding.now number.now items.now end.now) result octets.old.items octets.new.items }
{
    take_first_room(octets)?;
    let start = octets.len();
    let appended = append_parts(octets, padding, number, items, end);
    if appended.is_err() {
        octets.truncate(start);
    }
    appended
}

/// Takes memory for the first octets, where there is none.
fn take_first_room(octets: &mut Vec<u8>) -> Result<(), AllocError>
    ensures same { octets.new.items ≡ octets.old.items }
{
    if octets.capacity() == 0 {
        octets.reserve(FIRST_ROOM)
    } else {
        Ok(())
    }
}

fn append_parts(
    octets: &mut Vec<u8>,
    padding: &[u8],
    number: &[u8],
    items: &[u8],
    end: &[u8],
) -> Result<(), AllocError>
    ensures { AppendsSome (in_order padding.now number.now items.now end.now) result octets.old.items octets.new.items }
{
    append_one(octets, padding)?;
    append_one(octets, number)?;
    append_one(octets, items)?;
    append_one(octets, end)
}

/// Appends these octets, or some of them for want of memory. Most calls have none to append.
fn append_one(octets: &mut Vec<u8>, items: &[u8]) -> Result<(), AllocError>
    ensures { AppendsSome items.now result octets.old.items octets.new.items }
{
    if items.is_empty() {
        Ok(())
    } else {
        octets.extend_from_slice(items)
    }
}
