ghost use Rattle.std.specs.Prelude.{◌≡◌, ℕ, List, ◌<◌, ◌≤◌, ◌+◌, ◌^◌, ◌++◌, ◌↔◌, IsTrue, length, drop, IfOk, IfErr, IfSome, IfNone, OnOk, IsErrOf};
ghost use Rattle.decision_journal.specs.declared.reading.ReadFault.TheVariants.{NoRecord};
ghost use Rattle.decision_journal.specs.declared.journal.JournalFault.TheVariants.{BadHeader, BadRecord};
ghost use Rattle.decision_journal.specs.Limits.{area_limit};
ghost use Rattle.decision_journal.specs.Laws.{behind_letter, is_letter_due};
ghost use Rattle.decision_journal.specs.Index.{AreBefore, left};
ghost use Rattle.decision_journal.specs.Journal.{HasNoScanFault, HasNoStep, IsAlong, IsFilled, IsFirstOther, IsFresh, IsOther, IsOtherHeader, IsScanFault, IsScanned, IsStep, IsWithin, StandsAt, header, nothing_found};

use crate::found::Index;
use crate::journal::JournalFault;
use crate::reading::{ReadFault, body_of};
use byteorder::{BigEndian, ByteOrder};
use std::alloc::Global;

/// How many octets an area has at most.
pub(crate) const AREA_LIMIT: usize = 67_108_864;

/// Reads the record behind the open gate at this place, and gives what stands from the next gate on.
fn step<'a>(
    alloc: Global,
    gate: usize,
    behind: &'a [u8],
    index: &mut Index,
) -> Result<&'a [u8], ReadFault>
    requires within { gate < area_limit }
    requires behind { AreBefore gate index.old.found.standing }
    ensures next { IfOk result (λ rest. IsStep gate behind.now (left index.old.found) (left index.new.found) rest.now) }
    ensures before { OnOk result (AreBefore (gate + 1) index.new.found.standing) }
    ensures none { IsErrOf result NoRecord → HasNoStep gate behind.now (left index.old.found) }
{
    let (item, rest) = ok!(body_of(alloc, behind));
    if !is_within(gate, behind, rest) {
        return Err(ReadFault::NoRecord);
    }
    if !index.takes(&item) {
        return Err(ReadFault::NoRecord);
    }
    if index.gather(gate as u32, item).is_err() {
        return Err(ReadFault::Memory);
    }
    Ok(rest)
}

/// Whether there is a gate behind a record, and within the limit.
fn is_within(gate: usize, behind: &[u8], rest: &[u8]) -> bool
    requires { gate < area_limit }
    ensures { IsTrue result ↔ IsWithin gate behind.now rest.now }
{
    !rest.is_empty() && behind.len().saturating_sub(rest.len()) < AREA_LIMIT - gate - 1
}

/// How many octets the header has.
pub(crate) const HEADER_LENGTH: usize = 16;

/// What an open gate is.
pub(crate) const OPEN: u8 = 1;

/// Reads records behind the header, up to a gate that isn't open. Gives what stands from that gate on.
fn scan<'a>(
    alloc: Global,
    service: u64,
    octets: &'a [u8],
    index: &mut Index,
) -> Result<&'a [u8], JournalFault>
    requires long { 16 < length octets.now }
    requires header { octets.now ≡ header service ++ drop 16 octets.now }
    requires new { index.old.found ≡ nothing_found }
    ensures ok { IfOk result (λ rest. IsScanned service octets.now (left index.new.found) rest.now) }
    ensures fault { IfErr result (IsScanFault service octets.now) }
{
    let mut rest = &octets[HEADER_LENGTH..];
    while rest[0] == OPEN {
        let gate = octets.len() - rest.len();
        match step(alloc, gate, &rest[1..], index) {
            Ok(after) => rest = after,
            Err(ReadFault::NoRecord) => return Err(JournalFault::BadRecord(gate as u32)),
            Err(ReadFault::Memory) => return Err(JournalFault::Memory),
        }
    }
    Ok(rest)
}

/// The header of a service's journal.
pub(crate) fn header_of(service: u64) -> [u8; HEADER_LENGTH]
    ensures { result ≡ header service }
{
    let mut octets = [b'O', b'T', b'S', b'J', 0, 0, 0, 1, 0, 0, 0, 0, 0, 0, 0, 0];
    BigEndian::write_u64(&mut octets[8..], service);
    octets
}

/// What the header of a journal begins with, once the journal is there.
pub(crate) const FIRST_LETTER: u8 = b'O';

/// All octets of an empty journal, but the first letter.
pub(crate) fn behind_letter_of(service: u64) -> [u8; HEADER_LENGTH]
    ensures { result ≡ behind_letter service }
{
    let mut octets = [b'T', b'S', b'J', 0, 0, 0, 1, 0, 0, 0, 0, 0, 0, 0, 0, 0];
    BigEndian::write_u64(&mut octets[7..15], service);
    octets
}

/// Whether octets are not yet a journal.
pub(crate) fn is_fresh(octets: &[u8]) -> bool
    ensures { IsTrue result ↔ IsFresh octets.now }
{
    if octets.len() <= HEADER_LENGTH {
        return true;
    }
    octets.len() == HEADER_LENGTH + 1 && octets[0] != FIRST_LETTER
}

/// Whether the first letter stands there, or nothing does.
pub(crate) fn is_due(octets: &[u8]) -> bool
    ensures { result ≡ is_letter_due octets.now }
{
    match octets {
        [] => true,
        [first, ..] => *first == FIRST_LETTER,
    }
}

/// The place where the header is another, if it is.
fn other_header(service: u64, octets: &[u8]) -> Option<u32>
    requires { 16 < length octets.now }
    ensures same { IfNone result (octets.now ≡ header service ++ drop 16 octets.now) }
    ensures other { IfSome result (IsOtherHeader service octets.now) }
{
    let wanted = header_of(service);
    for place in 0..HEADER_LENGTH {
        if octets[place] != wanted[place] {
            return Some(place as u32);
        }
    }
    None
}

/// Reads the records of octets, and leaves those before the gate at the end.
pub(crate) fn filled(
    alloc: Global,
    service: u64,
    octets: &mut Vec<u8>,
) -> Result<Index, JournalFault>
    requires { 16 < length octets.old.items }
    ensures filled { IfOk result (λ index. IsFilled service octets.new.items index.found) }
    ensures stands { OnOk result (StandsAt octets.new.items octets.old.items) }
    ensures fault { IfErr result (IsScanFault service octets.old.items) }
{
    if let Some(place) = other_header(service, octets) {
        return Err(JournalFault::BadHeader(place));
    }
    let mut index = Index::new(alloc);
    let rest = ok!(scan(alloc, service, octets, &mut index));
    let gate = octets.len() - rest.len();
    octets.truncate(gate);
    index.settle();
    Ok(index)
}

/// Why octets stand for nothing, where they are enough for a journal.
fn scan_fault(alloc: Global, service: u64, mut read: Vec<u8>) -> Option<JournalFault>
    ensures fault { IfSome result (λ fault. (16 < length read.items) × IsScanFault service read.items fault) }
    ensures none { IfNone result (HasNoScanFault service read.items) }
{
    if read.len() <= HEADER_LENGTH {
        return None;
    }
    match filled(alloc, service, &mut read) {
        Ok(_) => None,
        Err(fault) => Some(fault),
    }
}

/// Why octets that were read are not those that are known: they stand for nothing, or else the first place that differs.
pub(crate) fn other(alloc: Global, service: u64, known: &[u8], read: Vec<u8>) -> JournalFault
    requires { length known.now < 2 ^ 32 }
    ensures { IsOther service known.now read.items result }
{
    let place = first_other(known, &read);
    match scan_fault(alloc, service, read) {
        Some(fault) => fault,
        None => fault_at(place),
    }
}

/// The fault of octets that are others from this place on.
pub(crate) fn fault_at(place: usize) -> JournalFault
    requires { place < 2 ^ 32 }
    ensures header { place < 16 → result ≡ BadHeader place }
    ensures record { 16 ≤ place → result ≡ BadRecord place }
{
    if place < HEADER_LENGTH {
        JournalFault::BadHeader(place as u32)
    } else {
        JournalFault::BadRecord(place as u32)
    }
}

/// How far octets that were read go along with those that are known.
#[derive(Clone, Copy)]
pub(crate) struct Along {
    /// So many at the front are the same.
    pub(crate) same: usize,
    /// Behind these there is a gate that isn't open.
    pub(crate) closed: bool,
}

impl Along {
    /// Whether a gate that isn't open stands at this place, behind octets that are the same.
    pub(crate) fn ends_at(self, gate: usize) -> bool
        ensures { IsTrue result ↔ ((self.same ≡ gate) × IsTrue self.closed) }
    {
        self.same == gate && self.closed
    }

    /// The same, once one more piece was read, which begins at this place.
    pub(crate) fn with_piece(self, place: usize, known: &[u8], piece: &[u8]) -> Along
        requires before { self.same ≤ place }
        requires known { self.same ≤ length known.now }
        ensures along { (read : List ℕ) → length read ≡ place → IsAlong known.now read self.same self.closed
            → IsAlong known.now (read ++ piece.now) result.same result.closed }
        ensures before { result.same ≤ place + length piece.now }
        ensures known { result.same ≤ length known.now }
    {
        if self.same < place {
            return self;
        }
        let more = compare(&known[place..], piece);
        Along {
            same: place + more.same,
            closed: more.closed,
        }
    }
}

/// How far octets that were read go along with those that are known.
fn compare(known: &[u8], read: &[u8]) -> Along
    ensures { IsAlong known.now read.now result.same result.closed }
{
    let same = first_other(known, read);
    Along {
        same,
        closed: same < read.len() && read[same] != OPEN,
    }
}

/// The first place at which octets are not those that are known, or the end of either.
fn first_other(known: &[u8], read: &[u8]) -> usize
    ensures { IsFirstOther known.now read.now result }
{
    let end = known.len().min(read.len());
    for place in 0..end {
        if read[place] != known[place] {
            return place;
        }
    }
    end
}
