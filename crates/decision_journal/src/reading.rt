ghost use Rattle.std.specs.Prelude.{◌≡◌};
ghost use Rattle.decision_journal.specs.declared.reading.ReadFault.TheVariants.{Memory};
ghost use Rattle.decision_journal.specs.Layout.{is_rising, rises_from};
ghost use Rattle.decision_journal.specs.Reading.{
  Gives,
  body_at,
  cells_outcome_at,
  cells_prepared_at,
  decision_at,
  done_at,
  end_at,
  fields_at,
  flag_at,
  key_at,
  life_at,
  list_at,
  number_at,
  one_phase_at,
  prepared_at,
  put_at,
  puts_at,
  record_in,
  reference_at,
  registration_at,
  registrations_at,
};

use crate::record::{CellsEnd, JournalRecord, Put, Puts, Registration, Registrations};
use byteorder::{BigEndian, ByteOrder};
use ots_model::{REFERENCE_LIMIT, RefBytes, RetryKey};
use std::alloc::{AllocError, AllocFailed, Global};

/// Why octets give no record.
#[derive(Clone, Copy)]
pub enum ReadFault {
    /// Memory ran out.
    Memory,
    /// They are the octets of no record.
    NoRecord,
}

impl From<AllocError> for ReadFault {
    ghost from_gives = { λ _ fault. fault ≡ Memory };

    fn from(_: AllocError) -> Self {
        ReadFault::Memory
    }
}

impl<T: Drop> From<AllocFailed<T>> for ReadFault {
    ghost from_gives = { λ _ fault. fault ≡ Memory };

    fn from(_: AllocFailed<T>) -> Self {
        ReadFault::Memory
    }
}

fn u8_at(octets: &[u8]) -> Result<(u8, &[u8]), ReadFault>
    ensures { Gives (λ x. (x.0, x.1.now)) result (number_at 1 octets.now) }
{
    match octets {
        [] => Err(ReadFault::NoRecord),
        [octet, rest @ ..] => Ok((*octet, rest)),
    }
}

fn u16_at(octets: &[u8]) -> Result<(u16, &[u8]), ReadFault>
    ensures { Gives (λ x. (x.0, x.1.now)) result (number_at 2 octets.now) }
{
    if octets.len() < 2 {
        return Err(ReadFault::NoRecord);
    }
    Ok((BigEndian::read_u16(octets), &octets[2..]))
}

fn u32_at(octets: &[u8]) -> Result<(u32, &[u8]), ReadFault>
    ensures { Gives (λ x. (x.0, x.1.now)) result (number_at 4 octets.now) }
{
    if octets.len() < 4 {
        return Err(ReadFault::NoRecord);
    }
    Ok((BigEndian::read_u32(octets), &octets[4..]))
}

fn u64_at(octets: &[u8]) -> Result<(u64, &[u8]), ReadFault>
    ensures { Gives (λ x. (x.0, x.1.now)) result (number_at 8 octets.now) }
{
    if octets.len() < 8 {
        return Err(ReadFault::NoRecord);
    }
    Ok((BigEndian::read_u64(octets), &octets[8..]))
}

#[tactic(auto, unfolding(crate::specs::Reading::reference_at))]
fn reference_of(alloc: Global, octets: &[u8]) -> Result<(RefBytes, &[u8]), ReadFault>
    ensures { Gives (λ x. (x.0, x.1.now)) result (reference_at octets.now) }
{
    let (count, rest) = ok!(u16_at(octets));
    let count = usize::from(count);
    if count > REFERENCE_LIMIT || rest.len() < count {
        return Err(ReadFault::NoRecord);
    }
    let (front, rest) = rest.split_at(count);
    Ok((RefBytes::from_vec(Vec::from_slice(alloc, front)?), rest))
}

#[tactic(auto, unfolding(crate::specs::Reading::registration_at))]
fn registration_of(alloc: Global, octets: &[u8]) -> Result<(Registration, &[u8]), ReadFault>
    ensures { Gives (λ x. (x.0, x.1.now)) result (registration_at octets.now) }
{
    let (index, rest) = ok!(u32_at(octets));
    let (reference, rest) = ok!(reference_of(alloc, rest));
    Ok((Registration { index, reference }, rest))
}

fn registration_list(
    alloc: Global,
    count: u16,
    octets: &[u8],
) -> Result<(Vec<Registration>, &[u8]), ReadFault>
    ensures { Gives (λ x. (x.0.items, x.1.now)) result (list_at registration_at count octets.now) }
{
    let mut items = Vec::new(alloc);
    let mut rest = octets;
    for _ in 0..count {
        let (item, after) = ok!(registration_of(alloc, rest));
        items.push(item)?;
        rest = after;
    }
    Ok((items, rest))
}

#[tactic(auto, unfolding(crate::specs::Reading::registrations_at))]
fn registrations_of(alloc: Global, octets: &[u8]) -> Result<(Registrations, &[u8]), ReadFault>
    ensures { Gives (λ x. (x.0, x.1.now)) result (registrations_at octets.now) }
{
    let (count, rest) = ok!(u16_at(octets));
    let (items, rest) = ok!(registration_list(alloc, count, rest));
    Ok((Registrations::from_vec(items), rest))
}

#[tactic(auto, unfolding(crate::specs::Reading::put_at))]
fn put_of(octets: &[u8]) -> Result<(Put, &[u8]), ReadFault>
    ensures { Gives (λ x. (x.0, x.1.now)) result (put_at octets.now) }
{
    let (cell, rest) = ok!(u64_at(octets));
    let (value, rest) = ok!(u64_at(rest));
    Ok((Put { cell, value }, rest))
}

fn put_list(alloc: Global, count: u16, octets: &[u8]) -> Result<(Vec<Put>, &[u8]), ReadFault>
    ensures { Gives (λ x. (x.0.items, x.1.now)) result (list_at put_at count octets.now) }
{
    let mut items = Vec::new(alloc);
    let mut rest = octets;
    for _ in 0..count {
        let (item, after) = ok!(put_of(rest));
        items.push(item)?;
        rest = after;
    }
    Ok((items, rest))
}

/// Whether each cell is above the one before it.
fn rises(puts: &[Put]) -> bool
    ensures { result ≡ is_rising puts.now }
{
    match puts {
        [] => true,
        [first, rest @ ..] => rises_above(first.cell, rest),
    }
}

fn rises_above(cell: u64, puts: &[Put]) -> bool
    ensures { result ≡ rises_from cell puts.now }
{
    let mut below = cell;
    for put in puts {
        if put.cell <= below {
            return false;
        }
        below = put.cell;
    }
    true
}

#[tactic(auto, unfolding(crate::specs::Reading::puts_at))]
fn puts_of(alloc: Global, octets: &[u8]) -> Result<(Puts, &[u8]), ReadFault>
    ensures { Gives (λ x. (x.0, x.1.now)) result (puts_at octets.now) }
{
    let (count, rest) = ok!(u16_at(octets));
    let (items, rest) = ok!(put_list(alloc, count, rest));
    if !rises(&items) {
        return Err(ReadFault::NoRecord);
    }
    Ok((Puts::from_vec(items), rest))
}

#[tactic(auto, unfolding(crate::specs::Reading::flag_at))]
fn flag_of(octets: &[u8]) -> Result<(bool, &[u8]), ReadFault>
    ensures { Gives (λ x. (x.0, x.1.now)) result (flag_at octets.now) }
{
    let (flag, rest) = ok!(u8_at(octets));
    match flag {
        0 => Ok((false, rest)),
        1 => Ok((true, rest)),
        _ => Err(ReadFault::NoRecord),
    }
}

#[tactic(auto, unfolding(crate::specs::Reading::key_at))]
fn key_of(octets: &[u8]) -> Result<(Option<RetryKey>, &[u8]), ReadFault>
    ensures { Gives (λ x. (x.0, x.1.now)) result (key_at octets.now) }
{
    let (flag, rest) = ok!(u8_at(octets));
    let (client, rest) = ok!(u64_at(rest));
    let (number, rest) = ok!(u64_at(rest));
    match (flag, client, number) {
        (1, client, number) => Ok((Some(RetryKey { client, number }), rest)),
        (0, 0, 0) => Ok((None, rest)),
        _ => Err(ReadFault::NoRecord),
    }
}

#[tactic(auto, unfolding(crate::specs::Reading::end_at))]
fn end_of(octets: &[u8]) -> Result<(CellsEnd, &[u8]), ReadFault>
    ensures { Gives (λ x. (x.0, x.1.now)) result (end_at octets.now) }
{
    let (number, rest) = ok!(u8_at(octets));
    let end = match number {
        1 => CellsEnd::Applied,
        2 => CellsEnd::Undone,
        3 => CellsEnd::ChoseCommit,
        4 => CellsEnd::ChoseRollback,
        5 => CellsEnd::Forgotten,
        _ => return Err(ReadFault::NoRecord),
    };
    Ok((end, rest))
}

#[tactic(auto, unfolding(crate::specs::Reading::life_at))]
fn life_of(octets: &[u8]) -> Result<(JournalRecord, &[u8]), ReadFault>
    ensures { Gives (λ x. (x.0, x.1.now)) result (life_at octets.now) }
{
    let (life, rest) = ok!(u32_at(octets));
    Ok((JournalRecord::Life(life), rest))
}

#[tactic(auto, unfolding(crate::specs::Reading::decision_at))]
fn decision_of(alloc: Global, octets: &[u8]) -> Result<(JournalRecord, &[u8]), ReadFault>
    ensures { Gives (λ x. (x.0, x.1.now)) result (decision_at octets.now) }
{
    let (life, rest) = ok!(u32_at(octets));
    let (slot, rest) = ok!(u32_at(rest));
    let (generation, rest) = ok!(u64_at(rest));
    let (key, rest) = ok!(key_of(rest));
    let (asked, rest) = ok!(flag_of(rest));
    let (registrations, rest) = ok!(registrations_of(alloc, rest));
    let decision = JournalRecord::Decision(life, slot, generation, key, asked, registrations);
    Ok((decision, rest))
}

#[tactic(auto, unfolding(crate::specs::Reading::done_at))]
fn done_of(octets: &[u8]) -> Result<(JournalRecord, &[u8]), ReadFault>
    ensures { Gives (λ x. (x.0, x.1.now)) result (done_at octets.now) }
{
    let (place, rest) = ok!(u32_at(octets));
    Ok((JournalRecord::Done(place), rest))
}

#[tactic(auto, unfolding(crate::specs::Reading::prepared_at))]
fn prepared_of(alloc: Global, octets: &[u8]) -> Result<(JournalRecord, &[u8]), ReadFault>
    ensures { Gives (λ x. (x.0, x.1.now)) result (prepared_at octets.now) }
{
    let (life, rest) = ok!(u32_at(octets));
    let (slot, rest) = ok!(u32_at(rest));
    let (generation, rest) = ok!(u64_at(rest));
    let (recovery, rest) = ok!(reference_of(alloc, rest));
    let (registrations, rest) = ok!(registrations_of(alloc, rest));
    let prepared = JournalRecord::Prepared(life, slot, generation, recovery, registrations);
    Ok((prepared, rest))
}

#[tactic(auto, unfolding(crate::specs::Reading::cells_prepared_at))]
fn cells_prepared_of(alloc: Global, octets: &[u8]) -> Result<(JournalRecord, &[u8]), ReadFault>
    ensures { Gives (λ x. (x.0, x.1.now)) result (cells_prepared_at octets.now) }
{
    let (life, rest) = ok!(u32_at(octets));
    let (number, rest) = ok!(u64_at(rest));
    let (recovery, rest) = ok!(reference_of(alloc, rest));
    let (puts, rest) = ok!(puts_of(alloc, rest));
    let prepared = JournalRecord::CellsPrepared(life, number, recovery, puts);
    Ok((prepared, rest))
}

#[tactic(auto, unfolding(crate::specs::Reading::cells_outcome_at))]
fn cells_outcome_of(octets: &[u8]) -> Result<(JournalRecord, &[u8]), ReadFault>
    ensures { Gives (λ x. (x.0, x.1.now)) result (cells_outcome_at octets.now) }
{
    let (place, rest) = ok!(u32_at(octets));
    let (end, rest) = ok!(end_of(rest));
    Ok((JournalRecord::CellsOutcome(place, end), rest))
}

#[tactic(auto, unfolding(crate::specs::Reading::one_phase_at))]
fn one_phase_of(alloc: Global, octets: &[u8]) -> Result<(JournalRecord, &[u8]), ReadFault>
    ensures { Gives (λ x. (x.0, x.1.now)) result (one_phase_at octets.now) }
{
    let (life, rest) = ok!(u32_at(octets));
    let (number, rest) = ok!(u64_at(rest));
    let (puts, rest) = ok!(puts_of(alloc, rest));
    Ok((JournalRecord::CellsOnePhase(life, number, puts), rest))
}

#[tactic(auto, unfolding(crate::specs::Reading::fields_at))]
fn fields_of(alloc: Global, kind: u8, octets: &[u8]) -> Result<(JournalRecord, &[u8]), ReadFault>
    ensures { Gives (λ x. (x.0, x.1.now)) result (fields_at kind octets.now) }
{
    match kind {
        1 => life_of(octets),
        2 => decision_of(alloc, octets),
        3 => done_of(octets),
        4 => prepared_of(alloc, octets),
        5 => cells_prepared_of(alloc, octets),
        6 => cells_outcome_of(octets),
        7 => one_phase_of(alloc, octets),
        _ => Err(ReadFault::NoRecord),
    }
}

#[tactic(auto, unfolding(crate::specs::Reading::record_in))]
pub(crate) fn record_of(alloc: Global, octets: &[u8]) -> Result<JournalRecord, ReadFault>
    ensures { Gives (λ x. x) result (record_in octets.now) }
{
    let (kind, rest) = ok!(u8_at(octets));
    let (record, rest) = ok!(fields_of(alloc, kind, rest));
    if !rest.is_empty() {
        return Err(ReadFault::NoRecord);
    }
    Ok(record)
}

/// The record behind an open gate, and the octets behind it.
#[tactic(auto, unfolding(crate::specs::Reading::body_at))]
pub(crate) fn body_of(alloc: Global, octets: &[u8]) -> Result<(JournalRecord, &[u8]), ReadFault>
    ensures { Gives (λ x. (x.0, x.1.now)) result (body_at octets.now) }
{
    let (count, rest) = ok!(u32_at(octets));
    let count = count as usize;
    if rest.len() < count {
        return Err(ReadFault::NoRecord);
    }
    let (front, rest) = rest.split_at(count);
    Ok((record_of(alloc, front)?, rest))
}
