//! What a crash leaves, in each call of a disk.

use crate::case::{CALLS, Case};
use crash_images::{Row, count, difference, images};
use std::io;
use std::io::Write;

/// Tells what the next lives make of what a crash in each call of the disk leaves.
pub fn tell_crashes(case: &Case, told: &mut Vec<u8>) -> io::Result<()> {
    for call in 0..CALLS {
        if !tell_crash(case, call, told)? {
            break;
        }
    }
    Ok(())
}

/// Tells what they make of what a crash in this call leaves. The result is whether it was made.
fn tell_crash(case: &Case, call: u64, told: &mut Vec<u8>) -> io::Result<bool> {
    let before = case.stopped(call)?;
    if before.faults() == 0 {
        return Ok(false);
    }
    let after = case.stopped(call.saturating_add(1))?;
    write!(told, "{call}:")?;
    tell_images(case, before.octets(), after.octets(), told)?;
    Ok(true)
}

/// Tells which places a call writes, and what the next lives make of what a crash in it leaves.
fn tell_images(case: &Case, before: &[u8], after: &[u8], told: &mut Vec<u8>) -> io::Result<()> {
    let written = difference(before, after);
    writeln!(told, " {} to {}", written.start, written.end)?;
    let mut rows = Vec::new(case.rt.alloc());
    for image in images(case.rt.alloc(), before, after)? {
        count_image(case, image.as_slice(), &mut rows)?;
    }
    tell_rows(rows.as_slice(), told)
}

/// Counts an image with those that lead to the same.
fn count_image(case: &Case, image: &[u8], rows: &mut Vec<Row>) -> io::Result<()> {
    let mut told = Vec::new(case.rt.alloc());
    case.tell_next(image, &mut told)?;
    count(told, rows)
}

/// Tells how many images lead to what.
fn tell_rows(rows: &[Row], told: &mut Vec<u8>) -> io::Result<()> {
    for row in rows {
        tell_row(row, told)?;
    }
    Ok(())
}

fn tell_row(row: &Row, told: &mut Vec<u8>) -> io::Result<()> {
    write!(told, "  {}:", row.images)?;
    told.write_all(row.told.as_slice())?;
    writeln!(told)
}
