ghost use Rattle.std.specs.Prelude.{◌≡◌, ◌≤◌, ◌+◌, ◌↔◌, length, IsTrue, IsOk, IsErr, IfErr, IsErrOf, IfOk, OnOk, OnErr, Contains, slice_range};
ghost use Rattle.std.specs.List.Sorted.{IsNonDecreasing, IsPermutation};
ghost use Rattle.ots_outside.specs.declared.disk.DiskRefusal.TheVariants.{Failed, Memory};
ghost use Rattle.ots_outside.specs.Source.{HasRisen, raised};
ghost use Rattle.ots_outside.specs.Disk.{IsAfterRefusal, IsImage, at_first, overwritten, synced, written};
ghost use Rattle.ots_outside.specs.Faults.{LeavesFaults};
ghost use Rattle.ots_outside.specs.MemDisk.{CountsCall};

use crate::disk::{Disk, DiskRefusal};
use std::alloc::{AllocError, Global};
use std::marker::Model;

/// Something that a disk in memory was told to do.
#[derive(Drop)]
enum DiskEvent {
    /// Octets were written from a place on.
    Wrote(u64, Vec<u8>),
    /// What was read was synced.
    Synced,
}

/// A disk in memory that never fails. It keeps each write and sync. Contracts see it as a `DiskState`.
#[derive(Drop)]
pub struct SureDisk {
    alloc: Global,
    start: Vec<u8>,
    events: Vec<DiskEvent>,
    octets: Vec<u8>,
}

impl Model for SureDisk {
    ghost use Rattle.ots_outside.specs.Disk.{DiskState, at_first};

    ghost Value = { DiskState };

    ghost use Rattle.ots_outside.specs.MemDisk.{IsKept, after_events};

    ghost view = { λ disk. after_events (at_first disk.start.items) disk.events.items };

    ghost invariant = { λ disk.
        IsKept (after_events (at_first disk.start.items) disk.events.items) disk.octets.items };
}

impl SureDisk {
    /// A disk of these octets, all of them synced.
    pub fn new(alloc: Global, contents: Vec<u8>) -> Result<SureDisk, AllocError>
        ensures disk { IfOk result (λ disk. disk ≡ at_first contents.items) }
        ensures image { IfOk result (λ disk. IsImage disk.present disk.reads) }
    {
        Ok(SureDisk {
            alloc,
            start: contents.to_vec(alloc)?,
            events: Vec::new(alloc),
            octets: contents,
        })
    }

    /// What the disk reads.
    pub fn octets(&self) -> &[u8]
        ensures octets { result.now ≡ self.now.reads }
        ensures image { IsImage self.now.present self.now.reads }
    {
        self.octets.as_slice()
    }

    /// Reads the octets from a place on.
    fn read(&self, place: u64, into: &mut [u8])
        requires { place + length into.old ≤ length self.now.reads }
        ensures octets { into.new ≡ slice_range self.now.reads place (place + length into.old) }
        ensures image { IsImage self.now.present self.now.reads }
    {
        let place = place as usize;
        into.copy_from_slice(&self.octets()[place..place + into.len()]);
    }

    /// Writes and keeps the write.
    fn write(&mut self, place: u64, bytes: &[u8]) -> Result<(), DiskRefusal>
        requires { place ≤ length self.old.reads }
        ensures ok { OnOk result (self.new ≡ written place bytes.now self.old) }
        ensures err { OnErr result (self.new ≡ self.old) }
        ensures want { IfErr result (λ refusal. refusal ≡ Memory) }
        ensures image { IsImage self.old.present self.old.reads × IsImage self.new.present self.new.reads }
    {
        let octets = bytes.to_vec(self.alloc)?;
        self.events.push(DiskEvent::Wrote(place, octets))?;
        let wrote = overwrite(&mut self.octets, place as usize, bytes);
        if wrote.is_err() {
            self.events.pop();
        }
        wrote
    }

    /// Keeps a sync.
    fn mark(&mut self) -> Result<(), DiskRefusal>
        ensures ok { OnOk result (self.new ≡ synced self.old) }
        ensures err { OnErr result (self.new ≡ self.old) }
        ensures want { IfErr result (λ refusal. refusal ≡ Memory) }
        ensures image { IsImage self.old.present self.old.reads × IsImage self.new.present self.new.reads }
    {
        self.events.push(DiskEvent::Synced)?;
        Ok(())
    }
}

/// Writes the octets over what stands from a place on, and past the end.
fn overwrite(octets: &mut Vec<u8>, place: usize, bytes: &[u8]) -> Result<(), DiskRefusal>
    requires { place ≤ length octets.old.items }
    ensures ok { OnOk result (octets.new.items ≡ overwritten octets.old.items place bytes.now) }
    ensures err { OnErr result (octets.new.items ≡ octets.old.items) }
    ensures want { IfErr result (λ refusal. refusal ≡ Memory) }
{
    let within = bytes.len().min(octets.len() - place);
    octets.extend_from_slice(&bytes[within..])?;
    octets[place..place + within].copy_from_slice(&bytes[..within]);
    Ok(())
}

impl Disk for SureDisk {
    ghost use Rattle.std.specs.Prelude.{Some, true};

    ghost faults = { λ _. 0 };

    ghost told = { λ disk. Some disk };

    ghost wants_memory = { true };

    fn fault_count(&self) -> u64 {
        0
    }

    fn len(&mut self) -> Result<u64, DiskRefusal>
        // What each disk promises.
        ensures length { IfOk result (λ n. n ≡ length self.old.reads) }
        ensures untouched { self.new ≡ self.old }
        ensures image { IsImage self.old.present self.old.reads }

        // It is never refused.
        ensures sure { IsOk result }
    {
        Ok(self.octets().len() as u64)
    }

    fn read_at(&mut self, place: u64, into: &mut [u8]) -> Result<(), DiskRefusal>
        requires { place + length into.old ≤ length self.old.reads }

        // What each disk promises.
        ensures octets { into.new ≡ slice_range self.old.reads place (place + length into.old) }
        ensures untouched { self.new ≡ self.old }
        ensures image { IsImage self.old.present self.old.reads }

        // It is never refused.
        ensures sure { IsOk result }
    {
        self.read(place, into);
        Ok(())
    }

    fn write_at(&mut self, place: u64, bytes: &[u8]) -> Result<(), DiskRefusal>
        requires { place ≤ length self.old.reads }

        // What each disk promises.
        ensures whole { OnOk result (self.new ≡ written place bytes.now self.old) }
        ensures refused { OnErr result (IsAfterRefusal self.old (written place bytes.now self.old) self.new) }
        ensures image { IsImage self.old.present self.old.reads × IsImage self.new.present self.new.reads }
        ensures cause { IsErrOf result Failed → ⊥ }

        // A refused one does nothing.
        ensures nothing { OnErr result (self.new ≡ self.old) }
    {
        self.write(place, bytes)
    }

    fn sync(&mut self) -> Result<(), DiskRefusal>
        // What each disk promises.
        ensures whole { OnOk result (self.new ≡ synced self.old) }
        ensures refused { OnErr result (IsAfterRefusal self.old (synced self.old) self.new) }
        ensures image { IsImage self.old.present self.old.reads × IsImage self.new.present self.new.reads }
        ensures cause { IsErrOf result Failed → ⊥ }

        // A refused one does nothing.
        ensures nothing { OnErr result (self.new ≡ self.old) }
    {
        self.mark()
    }
}

/// A disk in memory, of which chosen calls fail and then do nothing. Contracts see it as a `MemDiskState`.
#[derive(Drop)]
pub struct MemDisk {
    disk: SureDisk,
    failing: Vec<u64>,
    calls: u64,
    faults: u64,
}

impl Model for MemDisk {
    ghost use Rattle.ots_outside.specs.Disk.{IsImage};
    ghost use Rattle.std.specs.List.Sorted.{IsNonDecreasing};
    ghost use Rattle.ots_outside.specs.MemDisk.{MemDiskState};

    ghost Value = { MemDiskState };

    ghost view = { λ disk. record {
      disk = disk.disk;
      failing = disk.failing.items;
      calls = disk.calls;
      faults = disk.faults;
    } };

    ghost invariant = { λ disk.
        IsImage disk.disk.present disk.disk.reads × IsNonDecreasing disk.failing.items };
}

impl MemDisk {
    /// A disk of these octets, all of them synced. The calls of any kind whose numbers, from 0, are `failing` fail.
    pub fn new(
        alloc: Global,
        contents: Vec<u8>,
        mut failing: Vec<u64>,
    ) -> Result<MemDisk, AllocError>
        ensures disk { IfOk result (λ disk. disk.disk ≡ at_first contents.items) }
        ensures failing { IfOk result (λ disk. IsPermutation failing.items disk.failing) }
        ensures calls { IfOk result (λ disk. disk.calls ≡ 0) }
        ensures faults { IfOk result (λ disk. disk.faults ≡ 0) }
    {
        failing.sort_unstable();
        Ok(MemDisk {
            disk: SureDisk::new(alloc, contents)?,
            failing,
            calls: 0,
            faults: 0,
        })
    }

    /// What the disk reads.
    pub fn octets(&self) -> &[u8]
        ensures octets { result.now ≡ self.now.disk.reads }
        ensures image { IsImage self.now.disk.present self.now.disk.reads }
    {
        self.disk.octets()
    }

    /// How many calls have failed.
    pub fn faults(&self) -> u64
        ensures { result ≡ self.now.faults }
    {
        self.faults
    }

    /// Counts a call, which fails where it is listed.
    fn begin(&mut self) -> Result<(), DiskRefusal>
        ensures only { IsErr result ↔ Contains self.old.failing self.old.calls }
        ensures failed { IfErr result (λ refusal. refusal ≡ Failed) }
        ensures disk { self.new.disk ≡ self.old.disk }
        ensures image { IsImage self.old.disk.present self.old.disk.reads }
        ensures cause { OnErr result (HasRisen self.old.faults self.new.faults) }
        ensures later { self.old.faults ≤ self.new.faults }
        ensures count { CountsCall result self.old self.new }
    {
        let call = self.calls;
        self.calls = call.saturating_add(1);
        if is_listed(&self.failing, call) {
            self.faults = self.faults.saturating_add(1);
            return Err(DiskRefusal::Failed);
        }
        Ok(())
    }
}

/// Whether a call is among these, which are in order.
fn is_listed(failing: &[u64], call: u64) -> bool
    requires { IsNonDecreasing failing.now }
    ensures { IsTrue result ↔ Contains failing.now call }
{
    failing.binary_search(&call).is_ok()
}

impl Disk for MemDisk {
    ghost use Rattle.std.specs.Prelude.{Some, true};
    ghost use Rattle.ots_outside.specs.MemDisk.{IsCounted};

    ghost faults = { λ disk. disk.faults };

    ghost told = { λ disk. Some disk.disk };

    ghost wants_memory = { true };

    ghost asked = { λ before _ answered after. IsCounted answered before after };

    fn fault_count(&self) -> u64 {
        self.faults()
    }

    fn len(&mut self) -> Result<u64, DiskRefusal>
        // What each disk promises.
        ensures length { IfOk result (λ n. n ≡ length self.old.disk.reads) }
        ensures untouched { self.new.disk ≡ self.old.disk }
        ensures image { IsImage self.old.disk.present self.old.disk.reads }
        ensures cause { IsErrOf result Failed → HasRisen self.old.faults self.new.faults }
        ensures calm { LeavesFaults result self.old.faults self.new.faults }
        ensures later { self.old.faults ≤ self.new.faults }

        // Exactly the listed calls fail.
        ensures count { CountsCall result self.old self.new }
        ensures only { IsErr result ↔ Contains self.old.failing self.old.calls }
    {
        match self.begin() {
            Ok(()) => Ok(self.octets().len() as u64),
            Err(refusal) => Err(refusal),
        }
    }

    fn read_at(&mut self, place: u64, into: &mut [u8]) -> Result<(), DiskRefusal>
        requires { place + length into.old ≤ length self.old.disk.reads }

        // What each disk promises.
        ensures octets { OnOk result
            (into.new ≡ slice_range self.old.disk.reads place (place + length into.old)) }
        ensures untouched { self.new.disk ≡ self.old.disk }
        ensures image { IsImage self.old.disk.present self.old.disk.reads }
        ensures cause { IsErrOf result Failed → HasRisen self.old.faults self.new.faults }
        ensures calm { LeavesFaults result self.old.faults self.new.faults }
        ensures later { self.old.faults ≤ self.new.faults }

        // Exactly the listed calls fail.
        ensures count { CountsCall result self.old self.new }
        ensures only { IsErr result ↔ Contains self.old.failing self.old.calls }
    {
        match self.begin() {
            Ok(()) => {
                self.disk.read(place, into);
                Ok(())
            }
            refused => refused,
        }
    }

    fn write_at(&mut self, place: u64, bytes: &[u8]) -> Result<(), DiskRefusal>
        requires { place ≤ length self.old.disk.reads }

        // What each disk promises.
        ensures whole { OnOk result (self.new.disk ≡ written place bytes.now self.old.disk) }
        ensures refused { OnErr result
            (IsAfterRefusal self.old.disk (written place bytes.now self.old.disk) self.new.disk) }
        ensures image { IsImage self.old.disk.present self.old.disk.reads
            × IsImage self.new.disk.present self.new.disk.reads }
        ensures cause { IsErrOf result Failed → HasRisen self.old.faults self.new.faults }
        ensures calm { LeavesFaults result self.old.faults self.new.faults }
        ensures later { self.old.faults ≤ self.new.faults }

        // Exactly the listed calls answer Failed. A refused one does nothing.
        ensures count { CountsCall result self.old self.new }
        ensures nothing { OnErr result (self.new.disk ≡ self.old.disk) }
    {
        match self.begin() {
            Ok(()) => self.disk.write(place, bytes),
            refused => refused,
        }
    }

    fn sync(&mut self) -> Result<(), DiskRefusal>
        // What each disk promises.
        ensures whole { OnOk result (self.new.disk ≡ synced self.old.disk) }
        ensures refused { OnErr result (IsAfterRefusal self.old.disk (synced self.old.disk) self.new.disk) }
        ensures image { IsImage self.old.disk.present self.old.disk.reads
            × IsImage self.new.disk.present self.new.disk.reads }
        ensures cause { IsErrOf result Failed → HasRisen self.old.faults self.new.faults }
        ensures calm { LeavesFaults result self.old.faults self.new.faults }
        ensures later { self.old.faults ≤ self.new.faults }

        // Exactly the listed calls answer Failed. A refused one does nothing.
        ensures count { CountsCall result self.old self.new }
        ensures nothing { OnErr result (self.new.disk ≡ self.old.disk) }
    {
        match self.begin() {
            Ok(()) => self.disk.mark(),
            refused => refused,
        }
    }
}
