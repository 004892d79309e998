ghost use Rattle.std.specs.Prelude.{◌≡◌, ◌≤◌, IfErr, IsErrOf, IsTrue, OnErr};
ghost use Rattle.ots_outside.specs.declared.disk.DiskRefusal.TheVariants.{Failed as DiskFailed};
ghost use Rattle.ots_outside.specs.Faults.{LeavesFaults};
ghost use Rattle.ots_outside.specs.Source.{CountsFault, HasRisen, raised};

use crate::disk::{Disk, DiskRefusal};
use crate::file_disk::FileDisk;
use crate::source::Failed;
use std::fs::{File, Files, TryLockError};
use std::io;
use std::io::ErrorKind;
use std::path::Path;

/// A disk over a file that it has locked. There is no file where it or its folder can't be opened, or where it can't be locked,
/// as when another disk of this kind has locked it: then each call fails, and counts one fault, up to the count's end.
#[derive(Drop)]
pub struct LockedFile {
    disk: Option<FileDisk>,
    faults: u64,
}

impl LockedFile {
    ghost use Rattle.ots_outside.specs.Streams.{locked_faults};

    /// A disk over the file of this name, which is made where there is none.
    pub fn open<R: Files<File = File>>(rt: &R, name: &str) -> LockedFile
        ensures faults { locked_faults result ≡ 0 }
    {
        LockedFile {
            disk: open_locked(rt, name).ok(),
            faults: 0,
        }
    }

    /// The refusal of a call for which there is no disk.
    fn refuse(faults: &mut u64) -> DiskRefusal
        ensures refusal { result ≡ DiskFailed }
        ensures cause { HasRisen faults.old faults.new }
        ensures later { faults.old ≤ faults.new }
        ensures counts { faults.new ≡ raised faults.old }
    {
        Failed::counted(faults);
        DiskRefusal::Failed
    }
}

/// A disk over the file of this name, which is locked.
fn open_locked<R: Files<File = File>>(rt: &R, name: &str) -> io::Result<FileDisk> {
    let file = File::options()
        .read(true)
        .write(true)
        .create(true)
        .open(rt, name)?;
    match file.try_lock() {
        Ok(()) => {}
        Err(TryLockError::Error(error)) => return Err(error),
        Err(TryLockError::WouldBlock) => return Err(ErrorKind::WouldBlock.into()),
    }
    // A file that was there may have been made by a server that ended before it synced the folder.
    let folder = File::open(rt, folder_of(name))?;
    Ok(FileDisk::new(file, Some(folder)))
}

/// The folder in which the file of this name is.
fn folder_of(name: &str) -> &str {
    match Path::new(name).parent() {
        Some(folder) if !folder.as_str().is_empty() => folder.as_str(),
        _ => ".",
    }
}

impl Disk for LockedFile {
    ghost use Rattle.std.specs.Prelude.{None, false};
    ghost use Rattle.ots_outside.specs.Streams.{StaysLost, locked_faults, locked_lost};

    ghost faults = { locked_faults };

    ghost told = { λ _. None };

    ghost wants_memory = { false };

    fn fault_count(&self) -> u64 {
        self.faults
    }

    fn len(&mut self) -> Result<u64, DiskRefusal>
        // What each disk promises.
        ensures cause { IsErrOf result DiskFailed → HasRisen (locked_faults self.old) (locked_faults self.new) }
        ensures calm { LeavesFaults result (locked_faults self.old) (locked_faults self.new) }
        ensures later { locked_faults self.old ≤ locked_faults self.new }

        // It wants no memory. A refusal counts as one fault, and an Ok as none.
        ensures failed { IfErr result (λ refusal. refusal ≡ DiskFailed) }
        ensures faults { CountsFault result (locked_faults self.old) (locked_faults self.new) }

        // Where there is no file, or once a sync has failed, each call fails.
        ensures lost { StaysLost result (locked_lost self.old) (locked_lost self.new) }
    {
        match &mut self.disk {
            Some(disk) => counted(&mut self.faults, disk.len()),
            None => Err(LockedFile::refuse(&mut self.faults)),
        }
    }

    fn read_at(&mut self, place: u64, into: &mut [u8]) -> Result<(), DiskRefusal>
        // What each disk promises.
        ensures cause { IsErrOf result DiskFailed → HasRisen (locked_faults self.old) (locked_faults self.new) }
        ensures calm { LeavesFaults result (locked_faults self.old) (locked_faults self.new) }
        ensures later { locked_faults self.old ≤ locked_faults self.new }

        // It wants no memory. A refusal counts as one fault, and an Ok as none.
        ensures failed { IfErr result (λ refusal. refusal ≡ DiskFailed) }
        ensures faults { CountsFault result (locked_faults self.old) (locked_faults self.new) }

        // Where there is no file, or once a sync has failed, each call fails.
        ensures lost { StaysLost result (locked_lost self.old) (locked_lost self.new) }
    {
        match &mut self.disk {
            Some(disk) => counted(&mut self.faults, disk.read_at(place, into)),
            None => Err(LockedFile::refuse(&mut self.faults)),
        }
    }

    fn write_at(&mut self, place: u64, bytes: &[u8]) -> Result<(), DiskRefusal>
        // What each disk promises.
        ensures cause { IsErrOf result DiskFailed → HasRisen (locked_faults self.old) (locked_faults self.new) }
        ensures calm { LeavesFaults result (locked_faults self.old) (locked_faults self.new) }
        ensures later { locked_faults self.old ≤ locked_faults self.new }

        // It wants no memory. A refusal counts as one fault, and an Ok as none.
        ensures failed { IfErr result (λ refusal. refusal ≡ DiskFailed) }
        ensures faults { CountsFault result (locked_faults self.old) (locked_faults self.new) }

        // Where there is no file, or once a sync has failed, each call fails.
        ensures lost { StaysLost result (locked_lost self.old) (locked_lost self.new) }
    {
        match &mut self.disk {
            Some(disk) => counted(&mut self.faults, disk.write_at(place, bytes)),
            None => Err(LockedFile::refuse(&mut self.faults)),
        }
    }

    fn sync(&mut self) -> Result<(), DiskRefusal>
        // What each disk promises.
        ensures cause { IsErrOf result DiskFailed → HasRisen (locked_faults self.old) (locked_faults self.new) }
        ensures calm { LeavesFaults result (locked_faults self.old) (locked_faults self.new) }
        ensures later { locked_faults self.old ≤ locked_faults self.new }

        // It wants no memory. A refusal counts as one fault, and an Ok as none.
        ensures failed { IfErr result (λ refusal. refusal ≡ DiskFailed) }
        ensures faults { CountsFault result (locked_faults self.old) (locked_faults self.new) }

        // Where there is no file, or once a sync has failed, each call fails.
        ensures lost { StaysLost result (locked_lost self.old) (locked_lost self.new) }
        ensures fails { OnErr result (IsTrue (locked_lost self.new)) }
    {
        match &mut self.disk {
            Some(disk) => counted(&mut self.faults, disk.sync()),
            None => Err(LockedFile::refuse(&mut self.faults)),
        }
    }
}

/// What a disk answered, with its failure counted.
fn counted<T: Drop>(faults: &mut u64, answer: Result<T, DiskRefusal>) -> Result<T, DiskRefusal>
    requires failed { IfErr answer (λ refusal. refusal ≡ DiskFailed) }
    ensures same { result ≡ answer }
    ensures cause { OnErr result (HasRisen faults.old faults.new) }
    ensures calm { LeavesFaults result faults.old faults.new }
    ensures later { faults.old ≤ faults.new }
    ensures faults { CountsFault result faults.old faults.new }
{
    if answer.is_err() {
        Failed::counted(faults);
    }
    answer
}
