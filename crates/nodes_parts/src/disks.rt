// What a crash inside a write leaves of a disk.
ghost use Rattle.std.specs.Prelude.{◌≡◌, ◌≤◌, ◌++◌, length, take, drop, slice_range, IfOk, OnOk};
ghost use Rattle.nodes_world.specs.Disks as disks;
ghost use Rattle.nodes_parts.specs.Filling.{PutsNext, cycled};

use crate::journals::Gates;
use ots_world::Image;
use std::alloc::{AllocError, Global};

/// A crash inside a write: inside which one from now, counted from 1, and what it leaves.
#[derive(Drop)]
pub struct Stop {
    pub write: u64,
    pub image: Image,
}

/// A disk behind an append that went through: what it reads, what it read when it was loaded, and the gates of the
/// record.
#[derive(Clone, Copy)]
pub struct Appended<'a> {
    pub reads: &'a [u8],
    pub loaded: &'a [u8],
    pub gates: Gates,
}

impl Appended<'_> {
    ghost use Rattle.nodes_parts.specs.Striking.{HasGone, in_first, in_second, reads_before};

    /// What the disk read before the append.
    fn before(&self, alloc: Global) -> Result<Vec<u8>, AllocError>
        requires gone { HasGone self.now }
        ensures { IfOk result (λ octets. octets.items ≡ reads_before self.now) }
    {
        let gate = self.gates.last;
        let mut octets = self.reads[..gate].to_vec(alloc)?;
        octets.push(0)?;
        if let Some(behind) = self.loaded.get(gate + 1..) {
            octets.extend_from_slice(behind)?;
        }
        Ok(octets)
    }

    /// What it read between the two writes: all of the record, behind a closed gate.
    fn between(&self, alloc: Global) -> Result<Vec<u8>, AllocError>
        requires gone { HasGone self.now }
        ensures { IfOk result (λ octets. octets.items ≡ (in_first self.now).reads) }
    {
        let mut octets = self.reads.to_vec(alloc)?;
        octets[self.gates.last] = 0;
        Ok(octets)
    }

    /// What a crash leaves inside the write of the record.
    #[tactic(auto, unfolding(nodes_world::specs::Disks::left_by))]
    pub fn left_in_first(&self, alloc: Global, image: &Image) -> Result<Vec<u8>, AllocError>
        requires gone { HasGone self.now }
        ensures { IfOk result (λ octets. octets.items ≡ disks.left_by image.now (in_first self.now)) }
    {
        match image {
            Image::Old => self.before(alloc),
            Image::New => self.between(alloc),
            Image::Octets(octets) => {
                let between = self.between(alloc)?;
                let (from, to) = (self.gates.last + 1, self.gates.end + 1);
                with_cycled(alloc, &between, from, to, octets.bytes())
            }
        }
    }

    /// What a crash leaves inside the write that opens the gate.
    #[tactic(auto, unfolding(nodes_world::specs::Disks::left_by))]
    pub fn left_in_second(&self, alloc: Global, image: &Image) -> Result<Vec<u8>, AllocError>
        requires gone { HasGone self.now }
        ensures { IfOk result (λ octets. octets.items ≡ disks.left_by image.now (in_second self.now)) }
    {
        match image {
            Image::Old => self.between(alloc),
            Image::New => self.reads.to_vec(alloc),
            Image::Octets(octets) => {
                let gate = self.gates.last;
                with_cycled(alloc, self.reads, gate, gate + 1, octets.bytes())
            }
        }
    }
}

/// Octets, where in each place of a range stands the next of some, over and over.
fn with_cycled(
    alloc: Global,
    reads: &[u8],
    from: usize,
    to: usize,
    octets: &[u8],
) -> Result<Vec<u8>, AllocError>
    requires order { from ≤ to }
    requires within { to ≤ length reads.now }
    ensures { IfOk result (λ left. left.items
        ≡ take from reads.now ++ cycled octets.now (slice_range reads.now from to) ++ drop to reads.now) }
{
    let mut left = reads[..from].to_vec(alloc)?;
    push_cycled(&mut left, &reads[from..to], octets)?;
    left.extend_from_slice(&reads[to..])?;
    Ok(left)
}

/// Puts the next of these octets, over and over, behind others: as many as there are places.
fn push_cycled(into: &mut Vec<u8>, places: &[u8], octets: &[u8]) -> Result<(), AllocError>
    ensures { OnOk result (into.new.items ≡ into.old.items ++ cycled octets.now places.now) }
{
    let mut next = octets.len();
    for place in places {
        let mut octet = *place;
        next = put_next(&mut octet, octets, next);
        into.push(octet)?;
    }
    Ok(())
}

/// In a place stands the octet at an index, or the first where there is none. The answer is the index of the next one.
fn put_next(place: &mut u8, octets: &[u8], next: usize) -> usize
    requires within { next ≤ length octets.now }
    ensures put { PutsNext octets.now next place.old place.new result }
    ensures within { result ≤ length octets.now }
{
    let from = if next < octets.len() { next } else { 0 };
    match octets.get(from) {
        Some(octet) => {
            *place = *octet;
            from + 1
        }
        None => next,
    }
}
