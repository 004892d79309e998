//! What a crash inside a write may leave of a disk, as images of its octets, and how many of them come to the same: for the
//! programs that play cases on a disk in memory.
#![tactic(auto)]

use std::alloc::Global;
use std::io;
use std::io::Write;
use std::ops::Range;

/// So many images come to the same.
#[derive(Drop)]
pub struct Row {
    /// What they come to.
    pub told: Vec<u8>,
    /// How many there are.
    pub images: u64,
}

/// The places from the first octet that differs to behind the last.
pub fn difference(before: &[u8], after: &[u8]) -> Range<usize> {
    let mut start = after.len();
    let mut end = after.len();
    for (place, octet) in after.iter().enumerate() {
        if before.get(place) != Some(octet) {
            start = start.min(place);
            end = place.saturating_add(1);
        }
    }
    start..end
}

/// The images that a crash leaves in a write that made these octets of those. Each has a front of what was written, up to all of
/// it, and behind that what stood there; or, where something is missing, octets that are 1.
pub fn images(alloc: Global, before: &[u8], after: &[u8]) -> io::Result<Vec<Vec<u8>>> {
    let written = difference(before, after);
    let ones = with_ones(alloc, after, &written)?;
    let mut images = Vec::new(alloc);
    for count in written.start..=written.end {
        images.push(torn(alloc, after, before, count)?)?;
    }
    for count in written {
        images.push(torn(alloc, after, ones.as_slice(), count)?)?;
    }
    Ok(images)
}

/// Counts an image that comes to this with those that come to the same.
pub fn count(told: Vec<u8>, rows: &mut Vec<Row>) -> io::Result<()> {
    for row in rows.as_mut_slice() {
        if row.told == told {
            row.images = row.images.saturating_add(1);
            return Ok(());
        }
    }
    rows.push(Row { told, images: 1 })?;
    Ok(())
}

/// The octets, of which those at these places are 1.
fn with_ones(alloc: Global, octets: &[u8], places: &Range<usize>) -> io::Result<Vec<u8>> {
    let mut ones = octets.to_vec(alloc)?;
    if let Some(part) = ones.as_mut_slice().get_mut(places.start..places.end) {
        part.fill(1);
    }
    Ok(ones)
}

/// So many octets of what was written, and what stands behind them.
fn torn(alloc: Global, written: &[u8], behind: &[u8], count: usize) -> io::Result<Vec<u8>> {
    let mut octets = written.get(..count).unwrap_or(written).to_vec(alloc)?;
    if let Some(rest) = behind.get(count..) {
        octets.write_all(rest)?;
    }
    Ok(octets)
}
