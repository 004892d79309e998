//! What a crash leaves, in each call of a disk.

use crate::case::{CALLS, Case};
use crate::end_runs::tell_looks;
use crate::journals::{MemJournal, bytes, life};
use crash_images::{Row, count, difference, images};
use std::alloc::Global;
use std::io;
use std::io::Write;

/// Tells what a crash in each call of the disk leaves.
pub fn tell_crashes(alloc: Global, case: &Case, told: &mut Vec<u8>) -> io::Result<()> {
    let end = case.stopped(alloc, CALLS)?;
    tell_each(alloc, case, end.octets(), told)
}

fn tell_each(alloc: Global, case: &Case, end: &[u8], told: &mut Vec<u8>) -> io::Result<()> {
    for call in 0..CALLS {
        if !tell_crash(alloc, case, call, end, told)? {
            break;
        }
    }
    Ok(())
}

/// Tells what a crash in a call of the disk leaves. The result is whether it was made.
fn tell_crash(
    alloc: Global,
    case: &Case,
    call: u64,
    end: &[u8],
    told: &mut Vec<u8>,
) -> io::Result<bool> {
    let before = case.stopped(alloc, call)?;
    if before.faults() == 0 {
        return Ok(false);
    }
    let after = case.stopped(alloc, call.saturating_add(1))?;
    write!(told, "{call}: ")?;
    tell_between(alloc, case, before.octets(), after.octets(), end, told)?;
    Ok(true)
}

fn tell_between(
    alloc: Global,
    case: &Case,
    before: &[u8],
    after: &[u8],
    end: &[u8],
    told: &mut Vec<u8>,
) -> io::Result<()> {
    let written = difference(before, after);
    write!(told, "{} to {}:", written.start, written.end)?;
    let rows = rows(alloc, case, before, after, Some(end))?;
    tell_rows(rows.as_slice(), [" ", " of ", ""], told)?;
    writeln!(told)
}

/// Tells how many images come to what, with these words around.
pub fn tell_rows(rows: &[Row], words: [&str; 3], told: &mut Vec<u8>) -> io::Result<()> {
    for row in rows {
        tell_row(row, words, told)?;
    }
    Ok(())
}

fn tell_row(row: &Row, words: [&str; 3], told: &mut Vec<u8>) -> io::Result<()> {
    let [front, between, behind] = words;
    write!(told, "{front}{}{between}", row.images)?;
    told.write_all(row.told.as_slice())?;
    told.write_all(behind.as_bytes())
}

/// What is told of each image that a crash can leave. Where there is an end, its records are told, else the answers to the
/// looks.
pub fn rows(
    alloc: Global,
    case: &Case,
    before: &[u8],
    after: &[u8],
    end: Option<&[u8]>,
) -> io::Result<Vec<Row>> {
    let mut rows = Vec::new(alloc);
    for image in images(alloc, before, after)? {
        count_image(alloc, case, image.as_slice(), end, &mut rows)?;
    }
    Ok(rows)
}

/// Counts an image with those that come to the same.
fn count_image(
    alloc: Global,
    case: &Case,
    image: &[u8],
    end: Option<&[u8]>,
    rows: &mut Vec<Row>,
) -> io::Result<()> {
    let mut told = Vec::new(alloc);
    match end {
        Some(end) => tell_records(alloc, case, image, end, &mut told)?,
        None => tell_looks(alloc, case, image, &mut told)?,
    }
    count(told, rows)
}

/// So many octets, or all of them.
fn front(octets: &[u8], count: usize) -> &[u8] {
    octets.get(..count).unwrap_or(octets)
}

/// Tells how many octets the records of an image have, and the life that its load begins. It has none where the load is
/// refused, or where they don't stand in front of the end.
fn tell_records(
    alloc: Global,
    case: &Case,
    image: &[u8],
    end: &[u8],
    told: &mut Vec<u8>,
) -> io::Result<()> {
    match case.load(alloc, image, Vec::new(alloc))? {
        Ok(mut journal) => tell_before(alloc, &mut journal, end, told),
        Err(_) => tell_count(0, 0, told),
    }
}

fn tell_before(
    alloc: Global,
    journal: &mut MemJournal,
    end: &[u8],
    told: &mut Vec<u8>,
) -> io::Result<()> {
    let mut octets = Vec::new(alloc);
    match bytes(journal, &mut octets) {
        Ok(()) => tell_counted(octets.as_slice(), life(journal), end, told),
        Err(_) => tell_count(0, 0, told),
    }
}

fn tell_counted(octets: &[u8], life: u32, end: &[u8], told: &mut Vec<u8>) -> io::Result<()> {
    // Behind the records are the next life, of ten octets, and a gate.
    let count = octets.len().saturating_sub(11);
    if end.starts_with(front(octets, count)) {
        tell_count(count, life, told)
    } else {
        tell_count(0, 0, told)
    }
}

fn tell_count(count: usize, life: u32, told: &mut Vec<u8>) -> io::Result<()> {
    write!(told, "{count} and life {life}")
}
