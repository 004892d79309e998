ghost use Rattle.std.specs.Prelude.{◌≡◌, ◌+◌, ◌-◌, ◌^◌, ◌<◌, ◌≤◌, false, length, IsTrue, IfOk, IsOkAnd, IfSome, IfNone, Ok};
ghost use Rattle.cdr_values.specs.Value.{Octet, Boolean, UShort, ULong, ULongLong, OctetSequence, Text, Aligned, IsSize, gap, number_in};
ghost use Rattle.cdr_values.specs.Encapsulation.{IsEncapsulation, opened};
ghost use Rattle.cdr_values.specs.Reading.{Reading, Gives, GivesValue, Finds, is_string, text_in, sized_at, octet_at, boolean_at, number_at, ushort_at, ulong_at, ulonglong_at, octets_at, string_at, aligned_at};

use crate::fault::{CdrFault, LENGTH_LIMIT};
use crate::order::Order;
use byteorder::{BigEndian, ByteOrder, LittleEndian};
use std::marker::Model;

/// Reads values from the front of octets, at offsets that count from a start of the caller's. Contracts see it as the
/// order, the offset at which it stands, and the octets from there on. Reading takes no memory, and a refusal leaves
/// the reader as it was.
#[derive(Drop)]
pub struct Reader<'a> {
    rest: &'a [u8],
    place: u32,
    order: Order,
}

impl<'a> Model for Reader<'a> {
    ghost use Rattle.std.specs.Prelude.{◌+◌, ◌^◌, ◌<◌, length};
    ghost use Rattle.cdr_values.specs.Reading.{Reading};

    ghost Value = { Reading };

    ghost view = { λ r. record { order = r.order; place = r.place; rest = r.rest.now } };

    ghost invariant = { λ r. r.place + length r.rest.now < 2 ^ 32 };
}

impl<'a> Reader<'a> {
    /// A reader of these octets, of which the first stands at the offset `start`.
    pub fn new(bytes: &'a [u8], order: Order, start: u32) -> Reader<'a>
        requires short { length bytes.now < 2 ^ 31 }
        requires low { start < 2 ^ 31 }
        ensures stands { result ≡ record { order = order; place = start; rest = bytes.now } }
    {
        Reader {
            rest: bytes,
            place: start,
            order,
        }
    }

    /// A reader of an encapsulation of these octets. The first of them tells the byte order, and the reader stands
    /// behind it. Offsets count from that first octet, at offset 0.
    pub fn encapsulation(octets: &'a [u8]) -> Result<Reader<'a>, CdrFault>
        requires { length octets.now < 2 ^ 31 }
        ensures found { IfOk result (λ reader. IsEncapsulation octets.now reader) }
        ensures only { (r : Reading) → IsEncapsulation octets.now r → IsOkAnd result (λ reader. reader ≡ r) }
        ensures exact { Finds (λ reader. reader) result (opened octets.now) }
    {
        let [first, rest @ ..] = octets else {
            return Err(CdrFault::Short(0));
        };
        let order = match *first {
            0 => Order::Big,
            1 => Order::Little,
            _ => return Err(CdrFault::BadOrder(0)),
        };
        Ok(Reader::new(rest, order, 1))
    }

    /// The offset at which it stands.
    pub fn place(&self) -> u32
        ensures { result ≡ self.now.place }
    {
        self.place
    }

    /// Another reader, which stands where this one does.
    pub fn copy(&self) -> Reader<'a>
        ensures { result ≡ self.now }
    {
        Reader {
            rest: self.rest,
            place: self.place,
            order: self.order,
        }
    }

    /// The byte order in which it reads.
    pub fn order(&self) -> Order
        ensures { result ≡ self.now.order }
    {
        self.order
    }

    /// The octets from its place on.
    pub fn rest(&self) -> &'a [u8]
        ensures { result.now ≡ self.now.rest }
    {
        self.rest
    }

    /// Reads an octet.
    pub fn octet(&mut self) -> Result<u8, CdrFault>
        ensures { GivesValue Octet octet_at (λ n. n) result self.old self.new }
    {
        self.next_octet()
    }

    /// Reads a boolean: the octet 0 or 1, and no other.
    pub fn boolean(&mut self) -> Result<bool, CdrFault>
        ensures { GivesValue Boolean boolean_at (λ b. b) result self.old self.new }
    {
        self.next_boolean()
    }

    /// Reads an unsigned short.
    pub fn ushort(&mut self) -> Result<u16, CdrFault>
        ensures { GivesValue UShort ushort_at (λ n. n) result self.old self.new }
    {
        self.next_ushort()
    }

    /// Reads an unsigned long.
    pub fn ulong(&mut self) -> Result<u32, CdrFault>
        ensures { GivesValue ULong ulong_at (λ n. n) result self.old self.new }
    {
        self.next_ulong()
    }

    /// Reads an unsigned long long.
    pub fn ulonglong(&mut self) -> Result<u64, CdrFault>
        ensures { GivesValue ULongLong ulonglong_at (λ n. n) result self.old self.new }
    {
        self.next_ulonglong()
    }

    /// Reads a sequence of octets, of at most 65,536.
    pub fn octets(&mut self) -> Result<&'a [u8], CdrFault>
        ensures { GivesValue OctetSequence octets_at (λ octets. octets.now) result self.old self.new }
    {
        self.next_octets()
    }

    /// Reads a string, of at most 65,536 octets with its NUL, and gives its text without the NUL.
    pub fn string(&mut self) -> Result<&'a [u8], CdrFault>
        ensures { GivesValue Text string_at (λ text. text.now) result self.old self.new }
    {
        self.next_string()
    }

    /// Goes on to the next multiple of n.
    pub fn align(&mut self, n: u32) -> Result<(), CdrFault>
        requires { IsSize n }
        ensures { GivesValue (λ nothing. Aligned n) (aligned_at n) (λ nothing. nothing) result self.old self.new }
    {
        self.skip_gap(n)
    }

    #[tactic(auto, unfolding(crate::specs::Reading::aligned_at))]
    fn skip_gap(&mut self, n: u32) -> Result<(), CdrFault>
        requires { IsSize n }
        ensures { Gives (λ nothing. nothing) result self.new self.old (aligned_at n self.old) }
    {
        let gap = gap_before(n as usize, self.place as usize);
        if self.rest.len() < gap {
            return Err(CdrFault::Short(self.place));
        }
        self.rest = &self.rest[gap..];
        self.place += gap as u32;
        Ok(())
    }

    /// The octets of a number of this size.
    #[tactic(auto, unfolding(crate::specs::Reading::sized_at))]
    fn sized(&mut self, size: u32) -> Result<&'a [u8], CdrFault>
        requires { IsSize size }
        ensures size { IfOk result (λ octets. length octets.now ≡ size) }
        ensures exact { Gives (λ octets. octets.now) result self.new self.old (sized_at size self.old) }
    {
        let gap = gap_before(size as usize, self.place as usize);
        let end = gap + size as usize;
        if self.rest.len() < end {
            return Err(CdrFault::Short(self.place));
        }
        let octets = &self.rest[gap..end];
        self.rest = &self.rest[end..];
        self.place += end as u32;
        Ok(octets)
    }

    #[tactic(auto, unfolding(crate::specs::Reading::octet_at))]
    fn next_octet(&mut self) -> Result<u8, CdrFault>
        ensures { Gives (λ n. n) result self.new self.old (octet_at self.old) }
    {
        let octets = self.sized(1)?;
        Ok(octets[0])
    }

    #[tactic(auto, unfolding(crate::specs::Reading::boolean_at, crate::specs::Reading::octet_at, crate::specs::Reading::sized_at))]
    fn next_boolean(&mut self) -> Result<bool, CdrFault>
        ensures { Gives (λ b. b) result self.new self.old (boolean_at self.old) }
    {
        match self.rest {
            [0, rest @ ..] => {
                self.rest = rest;
                self.place += 1;
                Ok(false)
            }
            [1, rest @ ..] => {
                self.rest = rest;
                self.place += 1;
                Ok(true)
            }
            [] => Err(CdrFault::Short(self.place)),
            [_, ..] => Err(CdrFault::BadBoolean(self.place)),
        }
    }

    #[tactic(auto, unfolding(crate::specs::Reading::number_at))]
    fn next_ushort(&mut self) -> Result<u16, CdrFault>
        ensures { Gives (λ n. n) result self.new self.old (ushort_at self.old) }
    {
        let order = self.order;
        let octets = self.sized(2)?;
        Ok(ushort_in(order, octets))
    }

    #[tactic(auto, unfolding(crate::specs::Reading::number_at))]
    fn next_ulong(&mut self) -> Result<u32, CdrFault>
        ensures { Gives (λ n. n) result self.new self.old (ulong_at self.old) }
    {
        let order = self.order;
        let octets = self.sized(4)?;
        Ok(ulong_in(order, octets))
    }

    #[tactic(auto, unfolding(crate::specs::Reading::number_at))]
    fn next_ulonglong(&mut self) -> Result<u64, CdrFault>
        ensures { Gives (λ n. n) result self.new self.old (ulonglong_at self.old) }
    {
        let order = self.order;
        let octets = self.sized(8)?;
        Ok(ulonglong_in(order, octets))
    }

    fn next_octets(&mut self) -> Result<&'a [u8], CdrFault>
        ensures { Gives (λ octets. octets.now) result self.new self.old (octets_at self.old) }
    {
        let (octets, behind) = self.counted()?;
        *self = behind;
        Ok(octets)
    }

    #[tactic(auto, unfolding(crate::specs::Reading::string_at))]
    fn next_string(&mut self) -> Result<&'a [u8], CdrFault>
        ensures { Gives (λ text. text.now) result self.new self.old (string_at self.old) }
    {
        let (octets, behind) = self.counted()?;
        match text_of(octets) {
            None => Err(CdrFault::BadString(self.place)),
            Some(text) => {
                *self = behind;
                Ok(text)
            }
        }
    }

    /// The octets of a sequence, and the reader behind them.
    #[tactic(auto, unfolding(crate::specs::Reading::octets_at))]
    fn counted(&self) -> Result<(&'a [u8], Reader<'a>), CdrFault>
        ensures { Finds (λ found. (found.0.now, found.1)) result (octets_at self.now) }
    {
        let mut behind = Reader {
            rest: self.rest,
            place: self.place,
            order: self.order,
        };
        let count = behind.next_ulong()?;
        let length = count as usize;
        if length > LENGTH_LIMIT {
            return Err(CdrFault::TooLong {
                place: self.place,
                length: count,
            });
        }
        if behind.rest.len() < length {
            return Err(CdrFault::Short(self.place));
        }
        let octets = &behind.rest[..length];
        behind.rest = &behind.rest[length..];
        behind.place += count;
        Ok((octets, behind))
    }
}

/// How many octets there are from an offset up to the next multiple of n.
pub fn gap_before(n: usize, place: usize) -> usize
    requires { 0 < n }
    ensures gap { result ≡ gap n place }
    ensures within { result < n }
{
    (n - place % n) % n
}

fn ushort_in(order: Order, octets: &[u8]) -> u16
    requires { 2 ≤ length octets.now }
    ensures { result ≡ number_in order 2 octets.now }
{
    match order {
        Order::Big => BigEndian::read_u16(octets),
        Order::Little => LittleEndian::read_u16(octets),
    }
}

fn ulong_in(order: Order, octets: &[u8]) -> u32
    requires { 4 ≤ length octets.now }
    ensures { result ≡ number_in order 4 octets.now }
{
    match order {
        Order::Big => BigEndian::read_u32(octets),
        Order::Little => LittleEndian::read_u32(octets),
    }
}

fn ulonglong_in(order: Order, octets: &[u8]) -> u64
    requires { 8 ≤ length octets.now }
    ensures { result ≡ number_in order 8 octets.now }
{
    match order {
        Order::Big => BigEndian::read_u64(octets),
        Order::Little => LittleEndian::read_u64(octets),
    }
}

/// The text of a string's octets, where one NUL stands behind it.
fn text_of(octets: &[u8]) -> Option<&[u8]>
    ensures text { IfSome result (λ text. IsTrue (is_string octets.now) × (text.now ≡ text_in octets.now)) }
    ensures none { IfNone result (is_string octets.now ≡ false) }
{
    match octets.split_last() {
        Some((last, text)) if *last == 0 && !text.contains(&0) => Some(text),
        _ => None,
    }
}
