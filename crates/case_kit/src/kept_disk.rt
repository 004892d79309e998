ghost use Rattle.std.specs.Prelude.{◌≡◌, IfErr};
ghost use Rattle.ots_outside.specs.declared.disk.DiskRefusal.TheVariants.{Memory};

use ots_outside::{Disk, DiskRefusal, SureDisk};
use std::alloc::Global;
use std::sync::{Arc, Mutex, Wait};

/// How much room a disk has.
#[derive(Clone, Copy, PartialEq, Eq)]
pub enum Room {
    /// Enough.
    Enough,
    /// For half of what is written next, at each time.
    Half,
    /// None.
    Full,
}

/// What is on a disk, and how much room it has.
#[derive(Drop)]
pub struct Stored {
    /// What is on it.
    pub disk: SureDisk,
    /// How much room it has.
    pub room: Room,
}

/// A disk, which outlasts the lives of its service.
pub type Shelf = Arc<Mutex<Stored>, Global>;

/// A disk in memory that stays where its service crashes. It tells nothing of its octets. A write fails where there is no room
/// for all of it.
#[derive(Drop)]
pub struct KeptDisk<R> {
    rt: R,
    shelf: Shelf,
    faults: u64,
}

impl<R: Wait> KeptDisk<R> {
    /// Another hold on this disk.
    pub fn new(rt: R, shelf: Shelf) -> KeptDisk<R> {
        KeptDisk {
            rt,
            shelf,
            faults: 0,
        }
    }

    /// How much room the disk has.
    fn room(&self) -> Room {
        self.shelf.lock(&self.rt).room
    }

    /// Writes the front half of the octets.
    fn write_half(&self, place: u64, bytes: &[u8]) {
        let half = bytes.get(..bytes.len() / 2).unwrap_or(bytes);
        let _ = write(&mut self.shelf.lock(&self.rt).disk, place, half);
    }
}

/// Reads the octets from a place on, where there are as many.
fn read(disk: &SureDisk, place: u64, into: &mut [u8]) -> Option<()> {
    let behind = disk.octets().get(place as usize..)?;
    if behind.len() < into.len() {
        return None;
    }
    into.copy_from_slice(&behind[..into.len()]);
    Some(())
}

/// Writes the octets from a place on, where that isn't past the end.
fn write(disk: &mut SureDisk, place: u64, bytes: &[u8]) -> Option<()> {
    if place > disk.octets().len() as u64 {
        return None;
    }
    disk.write_at(place, bytes).ok()
}

/// What a call is answered that was done, or wasn't, which is told as want of memory.
fn done<T>(answer: Option<T>) -> Result<T, DiskRefusal>
    ensures { IfErr result (λ refusal. refusal ≡ Memory) }
{
    answer.ok_or(DiskRefusal::Memory)
}

impl<R: Wait> Disk for KeptDisk<R> {
    ghost use Rattle.std.specs.Prelude.{None, true};

    ghost faults = { λ disk. disk.faults };

    ghost told = { λ _. None };

    ghost wants_memory = { true };

    fn fault_count(&self) -> u64 {
        self.faults
    }

    fn len(&mut self) -> Result<u64, DiskRefusal> {
        Ok(self.shelf.lock(&self.rt).disk.octets().len() as u64)
    }

    fn read_at(&mut self, place: u64, into: &mut [u8]) -> Result<(), DiskRefusal> {
        let stored = self.shelf.lock(&self.rt);
        done(read(&stored.disk, place, into))
    }

    fn write_at(&mut self, place: u64, bytes: &[u8]) -> Result<(), DiskRefusal> {
        let room = self.room();
        if room == Room::Half {
            self.write_half(place, bytes);
        }
        if room != Room::Enough {
            self.faults = self.faults.saturating_add(1);
            return Err(DiskRefusal::Failed);
        }
        let mut stored = self.shelf.lock(&self.rt);
        done(write(&mut stored.disk, place, bytes))
    }

    fn sync(&mut self) -> Result<(), DiskRefusal> {
        done(self.shelf.lock(&self.rt).disk.sync().ok())
    }
}
