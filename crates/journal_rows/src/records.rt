//! Records by their words:
//!
//! - `decision REF REF`: a decision of slot 0 and generation 1, with the key 3 of the client 1 and two registrations. A
//!   REF is the hexadecimal digits of a reference. `short`: one of slot 7 without a key and registrations.
//! - `prepared REF REF`: a prepared record, with the recovery coordinator and one registration.
//! - `cells REF`: cells that prepared, with the recovery coordinator, and `alone REF`: cells in one phase.
//!
//! Each is of life 1, and the cells have one put.
ghost use Rattle.std.specs.Prelude.{◌≡◌, ◌≤◌, true, IfOk};
ghost use Rattle.decision_journal.specs.Journal.{Found, can_follow};
ghost use Rattle.decision_journal.specs.Layout.{Fits, FitsPuts, FitsReference, FitsRegistrations};
ghost use Rattle.decision_journal.specs.State.{cells_in};

use crate::journals::{MemJournal, append};
use decision_journal::{JournalFault, JournalRecord, Put, Puts, Registration, Registrations};
use ots_model::{REFERENCE_LIMIT, RefBytes, RetryKey};
use std::alloc::Global;
use std::io;
use std::io::ErrorKind;

/// The key of a decision.
const KEY: RetryKey = RetryKey {
    client: 1,
    number: 3,
};

/// A number.
pub fn number(word: &str) -> io::Result<u32> {
    Ok(word.parse().ok().ok_or(ErrorKind::InvalidInput)?)
}

/// The lowest octet of a number.
pub fn low_octet(number: u32) -> u8 {
    number.to_be_bytes()[3]
}

/// Appends the octets of hexadecimal words.
pub fn add_octets(alloc: Global, octets: &mut Vec<u8>, words: &str) -> io::Result<()> {
    for word in words.split_whitespace() {
        add_word(alloc, octets, word)?;
    }
    Ok(())
}

fn add_word(alloc: Global, octets: &mut Vec<u8>, word: &str) -> io::Result<()> {
    let word = decoded(alloc, word)?;
    octets.extend_from_slice(word.as_slice())?;
    Ok(())
}

fn decoded(alloc: Global, word: &str) -> io::Result<Vec<u8>> {
    match hex::decode(alloc, word) {
        Ok(octets) => Ok(octets),
        Err(_) => Err(ErrorKind::InvalidInput.into()),
    }
}

/// Appends the record that words stand for, once there is room for it.
pub fn append_record(
    alloc: Global,
    journal: &mut MemJournal,
    words: &str,
) -> io::Result<Result<u32, JournalFault>> {
    append(journal, record_of(alloc, words)?)
}

/// The record that words stand for. It can follow any others.
pub fn record_of(alloc: Global, words: &str) -> io::Result<JournalRecord>
    ensures fits { IfOk result Fits }
    ensures follows { IfOk result (λ item. (found : Found) → can_follow found item ≡ true) }
    ensures cells { IfOk result (λ item. cells_in item ≤ 1) }
{
    let mut words = words.split(' ');
    let kind = words.next().unwrap_or("");
    let first = reference_of(alloc, words.next().unwrap_or(""))?;
    let second = reference_of(alloc, words.next().unwrap_or(""))?;
    Ok(match kind {
        "decision" => {
            let items = two_registrations(alloc, first, second)?;
            JournalRecord::Decision(1, 0, 1, Some(KEY), false, items)
        }
        "short" => {
            let items = Registrations::from_vec(Vec::new(alloc));
            JournalRecord::Decision(1, 7, 1, None, true, items)
        }
        "prepared" => JournalRecord::Prepared(1, 0, 2, first, one_registration(alloc, second)?),
        "cells" => JournalRecord::CellsPrepared(1, 1, first, one_put(alloc)?),
        _ => JournalRecord::CellsOnePhase(1, 2, one_put(alloc)?),
    })
}

fn reference_of(alloc: Global, word: &str) -> io::Result<RefBytes>
    ensures { IfOk result FitsReference }
{
    let octets = decoded(alloc, word)?;
    if octets.len() > REFERENCE_LIMIT {
        return Err(ErrorKind::InvalidInput.into());
    }
    Ok(RefBytes::from_vec(octets))
}

fn one_registration(alloc: Global, reference: RefBytes) -> io::Result<Registrations>
    requires { FitsReference reference }
    ensures { IfOk result FitsRegistrations }
{
    let one = Registration {
        index: 1,
        reference,
    };
    Ok(Registrations::from_vec(vec![in alloc; one]?))
}

fn two_registrations(alloc: Global, first: RefBytes, second: RefBytes) -> io::Result<Registrations>
    requires first { FitsReference first }
    requires second { FitsReference second }
    ensures { IfOk result FitsRegistrations }
{
    let one = Registration {
        index: 1,
        reference: first,
    };
    let two = Registration {
        index: 2,
        reference: second,
    };
    Ok(Registrations::from_vec(vec![in alloc; one, two]?))
}

fn one_put(alloc: Global) -> io::Result<Puts>
    ensures { IfOk result FitsPuts }
{
    let put = Put { cell: 4, value: 5 };
    Ok(Puts::from_vec(vec![in alloc; put]?))
}
