ghost use Rattle.std.specs.Prelude.{◌≡◌, ◌≤◌, false, IfErr, IsErrOf, IsTrue, OnErr, OnOk};
ghost use Rattle.ots_outside.specs.declared.disk.DiskRefusal.TheVariants.{Failed as DiskFailed};
ghost use Rattle.ots_outside.specs.Faults.{LeavesFaults};
ghost use Rattle.ots_outside.specs.Source.{CountsFault, HasRisen};

use crate::disk::{Disk, DiskRefusal};
use crate::source::Failed;
use std::fs::File;
use std::io;
use std::os::unix::fs::FileExt;

/// A disk over a file. Each failure that it answers counts as one fault. It tells nothing of its octets. Once a sync has
/// failed, each call fails: what the file reads then may be lost in a crash, even behind a later sync that succeeds.
#[derive(Drop)]
pub struct FileDisk {
    file: File,
    folder: Option<File>,
    lost: bool,
    faults: u64,
}

impl FileDisk {
    ghost use Rattle.ots_outside.specs.Streams.{StaysLost, file_disk_faults, file_disk_file, file_disk_folder, file_disk_lost};

    /// A disk over this file, which is open for reading and writing, without faults. `folder`, where it is given, is the one
    /// that the file is in: the first sync that succeeds syncs it too.
    pub fn new(file: File, folder: Option<File>) -> FileDisk
        ensures file { file_disk_file result ≡ file }
        ensures folder { file_disk_folder result ≡ folder }
        ensures faults { file_disk_faults result ≡ 0 }
        ensures lost { file_disk_lost result ≡ false }
    {
        FileDisk {
            file,
            folder,
            lost: false,
            faults: 0,
        }
    }

    /// How many calls have failed.
    pub fn faults(&self) -> u64
        ensures { result ≡ file_disk_faults self.now }
    {
        self.faults
    }

    /// The answer of a call to the file, with its failure counted. Once a sync has failed, it is a failure too.
    fn counted<T: Drop>(&mut self, answer: io::Result<T>) -> Result<T, DiskRefusal>
        ensures failed { IfErr result (λ refusal. refusal ≡ DiskFailed) }
        ensures cause { OnErr result (HasRisen (file_disk_faults self.old) (file_disk_faults self.new)) }
        ensures calm { LeavesFaults result (file_disk_faults self.old) (file_disk_faults self.new) }
        ensures later { file_disk_faults self.old ≤ file_disk_faults self.new }
        ensures faults { CountsFault result (file_disk_faults self.old) (file_disk_faults self.new) }
        ensures lost { StaysLost result (file_disk_lost self.old) (file_disk_lost self.new) }
        ensures sound { OnOk answer (OnErr result (IsTrue (file_disk_lost self.new))) }
    {
        match answer {
            Ok(value) if !self.lost => Ok(value),
            _ => {
                Failed::counted(&mut self.faults);
                Err(DiskRefusal::Failed)
            }
        }
    }
}

impl Disk for FileDisk {
    ghost use Rattle.std.specs.Prelude.{None};
    ghost use Rattle.ots_outside.specs.Streams.{StaysLost, file_disk_faults, file_disk_lost};

    ghost faults = { file_disk_faults };

    ghost told = { λ _. None };

    ghost wants_memory = { false };

    fn fault_count(&self) -> u64 {
        self.faults()
    }

    fn len(&mut self) -> Result<u64, DiskRefusal>
        // What each disk promises.
        ensures cause { IsErrOf result DiskFailed → HasRisen (file_disk_faults self.old) (file_disk_faults self.new) }
        ensures calm { LeavesFaults result (file_disk_faults self.old) (file_disk_faults self.new) }
        ensures later { file_disk_faults self.old ≤ file_disk_faults self.new }

        // It wants no memory. A refusal counts as one fault, and an Ok as none.
        ensures failed { IfErr result (λ refusal. refusal ≡ DiskFailed) }
        ensures faults { CountsFault result (file_disk_faults self.old) (file_disk_faults self.new) }

        // Once a sync has failed, each call fails.
        ensures lost { StaysLost result (file_disk_lost self.old) (file_disk_lost self.new) }
    {
        let length = self.file.metadata().map(|data| data.len());
        self.counted(length)
    }

    fn read_at(&mut self, place: u64, into: &mut [u8]) -> Result<(), DiskRefusal>
        // What each disk promises.
        ensures cause { IsErrOf result DiskFailed → HasRisen (file_disk_faults self.old) (file_disk_faults self.new) }
        ensures calm { LeavesFaults result (file_disk_faults self.old) (file_disk_faults self.new) }
        ensures later { file_disk_faults self.old ≤ file_disk_faults self.new }

        // It wants no memory. A refusal counts as one fault, and an Ok as none.
        ensures failed { IfErr result (λ refusal. refusal ≡ DiskFailed) }
        ensures faults { CountsFault result (file_disk_faults self.old) (file_disk_faults self.new) }

        // Once a sync has failed, each call fails.
        ensures lost { StaysLost result (file_disk_lost self.old) (file_disk_lost self.new) }
    {
        let read = self.file.read_exact_at(into, place);
        self.counted(read)
    }

    fn write_at(&mut self, place: u64, bytes: &[u8]) -> Result<(), DiskRefusal>
        // What each disk promises.
        ensures cause { IsErrOf result DiskFailed → HasRisen (file_disk_faults self.old) (file_disk_faults self.new) }
        ensures calm { LeavesFaults result (file_disk_faults self.old) (file_disk_faults self.new) }
        ensures later { file_disk_faults self.old ≤ file_disk_faults self.new }

        // It wants no memory. A refusal counts as one fault, and an Ok as none.
        ensures failed { IfErr result (λ refusal. refusal ≡ DiskFailed) }
        ensures faults { CountsFault result (file_disk_faults self.old) (file_disk_faults self.new) }

        // Once a sync has failed, each call fails.
        ensures lost { StaysLost result (file_disk_lost self.old) (file_disk_lost self.new) }
    {
        let written = self.file.write_all_at(bytes, place);
        self.counted(written)
    }

    fn sync(&mut self) -> Result<(), DiskRefusal>
        // What each disk promises.
        ensures cause { IsErrOf result DiskFailed → HasRisen (file_disk_faults self.old) (file_disk_faults self.new) }
        ensures calm { LeavesFaults result (file_disk_faults self.old) (file_disk_faults self.new) }
        ensures later { file_disk_faults self.old ≤ file_disk_faults self.new }

        // It wants no memory. A refusal counts as one fault, and an Ok as none.
        ensures failed { IfErr result (λ refusal. refusal ≡ DiskFailed) }
        ensures faults { CountsFault result (file_disk_faults self.old) (file_disk_faults self.new) }

        // Once it has failed, each call fails.
        ensures lost { StaysLost result (file_disk_lost self.old) (file_disk_lost self.new) }
        ensures fails { OnErr result (IsTrue (file_disk_lost self.new)) }
    {
        let synced = sync_both(&self.file, &self.folder);
        if synced.is_ok() {
            self.folder = None;
        } else {
            self.lost = true;
        }
        self.counted(synced)
    }
}

/// Syncs the file, and its folder where that is to be synced too.
fn sync_both(file: &File, folder: &Option<File>) -> io::Result<()> {
    file.sync_all()?;
    match folder {
        Some(folder) => folder.sync_all(),
        None => Ok(()),
    }
}
