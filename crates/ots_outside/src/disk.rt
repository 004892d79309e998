ghost use Rattle.std.specs.Prelude.{◌≡◌, ℕ, ◌+◌, ◌≤◌, Bool, Option, length, slice_range, is_ok, IsTrue, IfSome, IfOk, OnOk, OnErr, IsErrOf, ⊤};
ghost use Rattle.std.specs.Option.{ForSome};
ghost use Rattle.ots_outside.specs.Source.{HasRisen};
ghost use Rattle.ots_outside.specs.declared.disk.DiskRefusal.TheVariants.{Failed, Memory};
ghost use Rattle.ots_outside.specs.Disk.{DiskState, IsAfterRefusal, ReadsImage, Tells, synced, written};
ghost use Rattle.ots_outside.specs.Faults.{LeavesFaults};
ghost use Rattle.ots_outside.specs.Asked.{AskLength, AskRead, AskSync, AskWrite, DiskCall};

use std::alloc::{AllocError, AllocFailed};

/// Why a disk refuses a call.
#[derive(Clone, Copy, Debug, PartialEq, Eq)]
pub enum DiskRefusal {
    /// The disk failed.
    Failed,
    /// Memory ran out.
    Memory,
}

impl From<AllocError> for DiskRefusal {
    ghost from_gives = { λ _ refusal. refusal ≡ Memory };

    fn from(_: AllocError) -> Self {
        DiskRefusal::Memory
    }
}

impl<T: Drop> From<AllocFailed<T>> for DiskRefusal {
    ghost from_gives = { λ _ refusal. refusal ≡ Memory };

    fn from(_: AllocFailed<T>) -> Self {
        DiskRefusal::Memory
    }
}

/// Octets that outlast a crash, once they are synced.
pub trait Disk {
    /// How often the disk has failed.
    ghost faults: { Self → ℕ };

    /// What the disk reads, and its moments, where it tells them. A write and a sync are each a moment.
    ghost told: { Self → Option DiskState };

    /// Whether a call of the disk may want memory.
    ghost wants_memory: { Bool };

    /// What is known of the disk before and after a call, and of whether it answered Ok.
    ghost asked: { Self → DiskCall → Bool → Self → Type 0 } = { λ _ _ _ _. ⊤ };

    /// How often the disk has failed, as a number.
    fn fault_count(&self) -> u64
        ensures { result ≡ faults self.now };

    /// How many octets the disk reads.
    fn len(&mut self) -> Result<u64, DiskRefusal>
        ensures length { IfOk result (λ n. IfSome (told self.old) (λ disk. n ≡ length disk.reads)) }
        ensures untouched { told self.new ≡ told self.old }
        ensures image { ReadsImage (told self.old) }
        ensures want { IsErrOf result Memory → IsTrue wants_memory }
        ensures cause { IsErrOf result Failed → HasRisen (faults self.old) (faults self.new) }
        ensures calm { LeavesFaults result (faults self.old) (faults self.new) }
        ensures later { faults self.old ≤ faults self.new }
        ensures asked { asked self.old AskLength (is_ok result) self.new };

    /// Reads the octets from a place on, all of the piece.
    fn read_at(&mut self, place: u64, into: &mut [u8]) -> Result<(), DiskRefusal>
        requires { ForSome (told self.old) (λ disk. place + length into.old ≤ length disk.reads) }
        ensures octets { OnOk result (IfSome (told self.old)
            (λ disk. into.new ≡ slice_range disk.reads place (place + length into.old))) }
        ensures untouched { told self.new ≡ told self.old }
        ensures image { ReadsImage (told self.old) }
        ensures want { IsErrOf result Memory → IsTrue wants_memory }
        ensures cause { IsErrOf result Failed → HasRisen (faults self.old) (faults self.new) }
        ensures calm { LeavesFaults result (faults self.old) (faults self.new) }
        ensures later { faults self.old ≤ faults self.new }
        ensures asked { asked self.old (AskRead place (length into.old)) (is_ok result) self.new };

    /// Writes the octets from a place on, over what is there and past the end. A crash may leave them torn until a sync.
    fn write_at(&mut self, place: u64, bytes: &[u8]) -> Result<(), DiskRefusal>
        requires { ForSome (told self.old) (λ disk. place ≤ length disk.reads) }
        ensures whole { OnOk result
            (Tells (told self.old) (told self.new) (λ before after. after ≡ written place bytes.now before)) }
        ensures refused { OnErr result (Tells (told self.old) (told self.new)
            (λ before after. IsAfterRefusal before (written place bytes.now before) after)) }
        ensures image { ReadsImage (told self.old) × ReadsImage (told self.new) }
        ensures want { IsErrOf result Memory → IsTrue wants_memory }
        ensures cause { IsErrOf result Failed → HasRisen (faults self.old) (faults self.new) }
        ensures calm { LeavesFaults result (faults self.old) (faults self.new) }
        ensures later { faults self.old ≤ faults self.new }
        ensures asked { asked self.old (AskWrite place bytes.now) (is_ok result) self.new };

    /// Makes what is read outlast a crash.
    fn sync(&mut self) -> Result<(), DiskRefusal>
        ensures whole { OnOk result
            (Tells (told self.old) (told self.new) (λ before after. after ≡ synced before)) }
        ensures refused { OnErr result (Tells (told self.old) (told self.new)
            (λ before after. IsAfterRefusal before (synced before) after)) }
        ensures image { ReadsImage (told self.old) × ReadsImage (told self.new) }
        ensures want { IsErrOf result Memory → IsTrue wants_memory }
        ensures cause { IsErrOf result Failed → HasRisen (faults self.old) (faults self.new) }
        ensures calm { LeavesFaults result (faults self.old) (faults self.new) }
        ensures later { faults self.old ≤ faults self.new }
        ensures asked { asked self.old AskSync (is_ok result) self.new };
}
