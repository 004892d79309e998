//! Runs of the calls of a case on a resource end. Behind an answer come the records that the call wrote: an outcome with
//! the place of the record that it names, and the others with the life and the number of the resource, its recovery
//! coordinator where it prepared, and its puts.

use crate::case::{CALLS, Case, calls_from};
use crate::crashes::{rows, tell_rows};
use crate::end_calls::{LoadedEnd, end_disk};
use crate::ends::{call, tell_fault, tell_text};
use crate::records::number;
use ots_outside::MemDisk;
use std::alloc::Global;
use std::io;
use std::io::Write;

/// The words that a resource is told.
const WORDS: [&str; 5] = [
    "prepare 1 1",
    "commit 1 1",
    "rollback 1 1",
    "one_phase 1 1",
    "forget 1 1",
];

/// Makes the calls, and tells each answer, and the records that the call wrote.
pub fn tell_end(alloc: Global, case: &Case, told: &mut Vec<u8>) -> io::Result<()> {
    for count in 1..=case.calls.len() {
        tell_last(alloc, case, &case.calls[..count], told)?;
    }
    Ok(())
}

/// Makes the calls and one word more, for each word; and behind each of these the words again, one each time, and a look
/// at the cell 5.
pub fn tell_words<'a>(alloc: Global, case: &Case<'a>, told: &mut Vec<u8>) -> io::Result<()> {
    for word in WORDS {
        tell_word(alloc, case, word, told)?;
    }
    Ok(())
}

fn tell_word<'a>(
    alloc: Global,
    case: &Case<'a>,
    word: &'a str,
    told: &mut Vec<u8>,
) -> io::Result<()> {
    let mut lines = case.calls.clone()?;
    lines.push(word)?;
    tell_next(alloc, case, &mut lines, told)
}

/// Tells what these calls come to, and each word behind them.
fn tell_next<'a>(
    alloc: Global,
    case: &Case,
    lines: &mut Vec<&'a str>,
    told: &mut Vec<u8>,
) -> io::Result<()> {
    tell_last(alloc, case, lines.as_slice(), told)?;
    for word in WORDS {
        tell_more(alloc, case, lines, word, told)?;
    }
    tell_more(alloc, case, lines, "cell 5", told)
}

/// Tells what one more call comes to behind these.
fn tell_more<'a>(
    alloc: Global,
    case: &Case,
    lines: &mut Vec<&'a str>,
    more: &'a str,
    told: &mut Vec<u8>,
) -> io::Result<()> {
    write!(told, "  ")?;
    lines.push(more)?;
    tell_last(alloc, case, lines.as_slice(), told)?;
    lines.pop();
    Ok(())
}

/// Makes these calls, and tells the last, its answer, and the records that it wrote.
fn tell_last(alloc: Global, case: &Case, lines: &[&str], told: &mut Vec<u8>) -> io::Result<()> {
    let first = &lines[..lines.len().saturating_sub(1)];
    let mut known = Vec::new(alloc);
    let before = run(alloc, case, Vec::new(alloc), first, "", &mut known)?;
    let mut answers = Vec::new(alloc);
    let after = run(alloc, case, Vec::new(alloc), lines, "", &mut answers)?;
    told.write_all(answers.get(known.len()..).unwrap_or(&[]))?;
    tell_written(alloc, case, before.octets(), after.octets(), told)?;
    writeln!(told)
}

/// Tells the records that a disk holds more than before, or why its journal is refused.
fn tell_written(
    alloc: Global,
    case: &Case,
    before: &[u8],
    after: &[u8],
    told: &mut Vec<u8>,
) -> io::Result<()> {
    let known = case.tell_load(alloc, before, None, &mut Vec::new(alloc))?;
    case.tell_load(alloc, after, Some(known), told)?;
    Ok(())
}

/// Makes these calls, over a disk of which these calls fail, and tells each answer. Gives the disk back.
fn run(
    alloc: Global,
    case: &Case,
    failing: Vec<u64>,
    lines: &[&str],
    between: &str,
    told: &mut Vec<u8>,
) -> io::Result<MemDisk> {
    let loaded = case.load_end(alloc, case.octets.as_slice(), failing)?;
    go_on(alloc, case, loaded, lines, between, told)
}

/// Makes these calls on an end that was loaded, and tells each answer. Gives the disk back.
fn go_on(
    alloc: Global,
    case: &Case,
    loaded: LoadedEnd,
    lines: &[&str],
    between: &str,
    told: &mut Vec<u8>,
) -> io::Result<MemDisk> {
    let mut loaded = loaded;
    let mut gap = "";
    for line in lines {
        loaded = next_end(alloc, case, loaded, gap, line, told)?;
        gap = between;
    }
    Ok(disk_of(loaded))
}

/// Makes the call of a line on an end, and tells the answer. `crash` loads it again from what its disk reads; after
/// `fail N` the call N of its disk fails too.
fn next_end(
    alloc: Global,
    case: &Case,
    loaded: LoadedEnd,
    gap: &str,
    line: &str,
    told: &mut Vec<u8>,
) -> io::Result<LoadedEnd> {
    write!(told, "{gap}{line}: ")?;
    match line.split_once(' ').unwrap_or((line, "")) {
        ("crash", _) => load_again(alloc, case, loaded, Vec::new(alloc), told),
        ("fail", call) => {
            let failing = vec![in alloc; u64::from(number(call)?)]?;
            load_again(alloc, case, loaded, failing, told)
        }
        _ => tell_call(alloc, loaded, line, told),
    }
}

/// Loads an end again from what its disk reads, where these calls of the new disk fail.
fn load_again(
    alloc: Global,
    case: &Case,
    loaded: LoadedEnd,
    failing: Vec<u64>,
    told: &mut Vec<u8>,
) -> io::Result<LoadedEnd> {
    let disk = disk_of(loaded);
    let loaded = case.load_end(alloc, disk.octets(), failing)?;
    match &loaded {
        Ok(_) => tell_text("ok", told)?,
        Err(back) => tell_fault(back.fault, told)?,
    }
    Ok(loaded)
}

/// The disk of what was loaded.
fn disk_of(loaded: LoadedEnd) -> MemDisk {
    match loaded {
        Ok(end) => end_disk(end),
        Err(back) => back.value,
    }
}

/// Makes the call of a line on an end that was loaded, and tells the answer.
fn tell_call(
    alloc: Global,
    loaded: LoadedEnd,
    line: &str,
    told: &mut Vec<u8>,
) -> io::Result<LoadedEnd> {
    let mut loaded = loaded;
    match &mut loaded {
        Ok(end) => call(alloc, end, line, told)?,
        Err(back) => tell_fault(back.fault, told)?,
    }
    Ok(loaded)
}

/// Makes the calls once for each call of the disk, from which on all fail, and tells the answers and what a crash in that
/// call leaves. Where it is the same for several, it is told once.
pub fn tell_stops(alloc: Global, case: &Case, told: &mut Vec<u8>) -> io::Result<()> {
    let mut last = Vec::new(alloc);
    for call in 0..CALLS {
        if !tell_stop(alloc, case, call, &mut last, told)? {
            break;
        }
    }
    Ok(())
}

/// Makes the calls, while all calls of the disk fail from this one on, and tells what comes of them where it isn't what came
/// last. The result is whether the disk came so far.
fn tell_stop(
    alloc: Global,
    case: &Case,
    call: u64,
    last: &mut Vec<u8>,
    told: &mut Vec<u8>,
) -> io::Result<bool> {
    let mut row = Vec::new(alloc);
    let failed = stop(alloc, case, call, &mut row)?;
    if row != *last {
        write!(told, "{call}: ")?;
        told.write_all(row.as_slice())?;
        *last = row;
    }
    Ok(failed)
}

/// Makes the calls, while all calls of the disk fail from this one on, and tells the answers, and what comes of the images
/// that a crash in that call leaves. The result is whether the disk came so far.
fn stop(alloc: Global, case: &Case, call: u64, told: &mut Vec<u8>) -> io::Result<bool> {
    let lines = case.calls.as_slice();
    let before = run(alloc, case, calls_from(alloc, call)?, lines, ", ", told)?;
    writeln!(told)?;
    tell_left(alloc, case, call.saturating_add(1), before.octets(), told)?;
    Ok(before.faults() > 0)
}

/// Tells what comes of the images that a crash leaves in the call of the disk in front of this one.
fn tell_left(
    alloc: Global,
    case: &Case,
    next: u64,
    before: &[u8],
    told: &mut Vec<u8>,
) -> io::Result<()> {
    let lines = case.calls.as_slice();
    let after = run(
        alloc,
        case,
        calls_from(alloc, next)?,
        lines,
        "",
        &mut Vec::new(alloc),
    )?;
    let rows = rows(alloc, case, before, after.octets(), None)?;
    tell_rows(rows.as_slice(), ["  ", ": ", "\n"], told)
}

/// Tells the answers to the looks that an end gives which is loaded from an image.
pub fn tell_looks(alloc: Global, case: &Case, image: &[u8], told: &mut Vec<u8>) -> io::Result<()> {
    let loaded = case.load_end(alloc, image, Vec::new(alloc))?;
    go_on(alloc, case, loaded, case.looks.as_slice(), ", ", told)?;
    Ok(())
}
