//! The calls of a journal. Each line is one of these:
//!
//! - `append RECORD ..`: a record is appended, as `records` says. `times N RECORD ..`: so often.
//! - `outcome PLACE`: the outcome that the cells which were prepared there were applied, where it can follow.
//! - `done PLACE`, `reopen`: these calls.
//! - `bytes`: the octets that the journal gives. `disk`: those that its disk reads. `standing`: what stands.

use crate::ends::tell_text;
use crate::journals::{
    MemJournal, append_outcome, bytes, disk_octets, done, life, reopen, standing,
};
use crate::records::{append_record, number};
use decision_journal::{CellsEnd, JournalRecord, Put};
use std::alloc::Global;
use std::io;
use std::io::{ErrorKind, Write};

/// How many places are told at most.
const MOST: usize = 20;

/// Makes the call of a line, and tells its answer.
pub fn call(
    alloc: Global,
    journal: &mut MemJournal,
    line: &str,
    told: &mut Vec<u8>,
) -> io::Result<()> {
    let (word, rest) = line.split_once(' ').unwrap_or((line, ""));
    match word {
        "append" => tell_append(alloc, journal, 1, rest, told),
        "times" => {
            let (count, words) = rest.split_once(' ').ok_or(ErrorKind::InvalidInput)?;
            tell_append(alloc, journal, number(count)?, words, told)
        }
        "outcome" => tell_outcome(journal, number(rest)?, told),
        "done" => write!(told, "{:?}", done(journal, number(rest)?)),
        "reopen" => write!(told, "{:?}", reopen(journal)),
        "bytes" => tell_bytes(alloc, journal, told),
        "disk" => tell_octets(alloc, disk_octets(journal), told),
        _ => tell_standing(journal, told),
    }
}

/// Appends a record so many times, and tells the last answer.
fn tell_append(
    alloc: Global,
    journal: &mut MemJournal,
    count: u32,
    words: &str,
    told: &mut Vec<u8>,
) -> io::Result<()> {
    let mut answer = Ok(0);
    for _ in 0..count {
        answer = append_record(alloc, journal, words)?;
    }
    write!(told, "{answer:?}")
}

fn tell_outcome(journal: &mut MemJournal, place: u32, told: &mut Vec<u8>) -> io::Result<()> {
    match append_outcome(journal, place)? {
        Some(answer) => write!(told, "{answer:?}"),
        None => tell_text("it can't follow", told),
    }
}

fn tell_bytes(alloc: Global, journal: &mut MemJournal, told: &mut Vec<u8>) -> io::Result<()> {
    let mut octets = Vec::new(alloc);
    let answer = bytes(journal, &mut octets);
    write!(told, "{answer:?} ")?;
    tell_octets(alloc, octets.as_slice(), told)
}

fn tell_octets(alloc: Global, octets: &[u8], told: &mut Vec<u8>) -> io::Result<()> {
    tell_text(hex::encode(alloc, octets)?.as_str(), told)
}

/// Tells the life, and the places of what stands.
pub fn tell_standing(journal: &MemJournal, told: &mut Vec<u8>) -> io::Result<()> {
    write!(told, "life {}", life(journal))?;
    let standing = standing(journal);
    for standing in standing.get(..MOST).unwrap_or(standing) {
        write!(told, " {}", standing.place)?;
    }
    Ok(())
}

/// Tells the records that stand, but for so many of the first.
pub fn tell_records(journal: &MemJournal, known: usize, told: &mut Vec<u8>) -> io::Result<()> {
    for standing in standing(journal).get(known..).unwrap_or(&[]) {
        tell_record(&standing.item, told)?;
    }
    Ok(())
}

/// Tells the kind of a record of cells and its fields.
fn tell_record(item: &JournalRecord, told: &mut Vec<u8>) -> io::Result<()> {
    match item {
        JournalRecord::CellsPrepared(life, number, recovery, puts) => {
            write!(told, "; prepared {life} {number} {:?}", recovery.bytes())?;
            tell_puts(puts.items(), told)
        }
        JournalRecord::CellsOnePhase(life, number, puts) => {
            write!(told, "; one phase {life} {number}")?;
            tell_puts(puts.items(), told)
        }
        JournalRecord::CellsOutcome(place, end) => write!(told, "; {} {place}", end_word(*end)),
        _ => tell_text("; another record", told),
    }
}

/// Tells the cells and their values; of more than 16 how many they are, the first and the last.
fn tell_puts(puts: &[Put], told: &mut Vec<u8>) -> io::Result<()> {
    match puts {
        [first, .., last] if puts.len() > 16 => {
            write!(told, " {} cells:", puts.len())?;
            tell_put(first, told)?;
            tell_text(" to", told)?;
            tell_put(last, told)
        }
        puts => tell_all(puts, told),
    }
}

fn tell_all(puts: &[Put], told: &mut Vec<u8>) -> io::Result<()> {
    for put in puts {
        tell_put(put, told)?;
    }
    Ok(())
}

/// Tells a cell and its value.
fn tell_put(put: &Put, told: &mut Vec<u8>) -> io::Result<()> {
    write!(told, " {}={}", put.cell, put.value)
}

/// The word of an outcome.
fn end_word(end: CellsEnd) -> &'static str {
    match end {
        CellsEnd::Applied => "applied",
        CellsEnd::Undone => "undone",
        CellsEnd::ChoseCommit => "chose commit",
        CellsEnd::ChoseRollback => "chose rollback",
        CellsEnd::Forgotten => "forgotten",
    }
}
