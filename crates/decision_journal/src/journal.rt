ghost use Rattle.std.specs.Prelude.{◌≡◌, ℕ};
ghost use Rattle.ots_outside.specs.Faults.{IsNoFault as IsDiskNoFault};
ghost use Rattle.decision_journal.specs.declared.journal.JournalFault.TheVariants.{DiskFault, Memory};
ghost use Rattle.decision_journal.specs.Faults.{IsNoFault};
ghost use Rattle.decision_journal.specs.Journal.{IsOfDisk};

use crate::record::JournalRecord;
use ots_outside::DiskRefusal;
use std::alloc::{AllocError, AllocFailed};

/// A record that stands, and the place of its gate.
#[derive(Drop)]
pub struct Standing {
    /// The place of the record's gate.
    pub place: u32,
    /// The record.
    pub item: JournalRecord,
}

/// Why a call of a journal was refused.
#[derive(Clone, Copy, Debug, PartialEq, Eq)]
pub enum JournalFault {
    /// The disk failed.
    DiskFault,
    /// The area has no room: so many octets are used, and so many would be needed.
    Full {
        /// The octets that are used, with those that records which stand will need.
        used: u64,
        /// The octets that the record needs.
        need: u64,
    },
    /// The header is another from this place on.
    BadHeader(u32),
    /// The octets stand for nothing: at the gate at this place.
    BadRecord(u32),
    /// No life is left.
    LivesSpent,
    /// Memory ran out.
    Memory,
}

impl From<AllocError> for JournalFault {
    ghost from_gives = { λ _ fault. fault ≡ Memory };

    fn from(_: AllocError) -> Self {
        JournalFault::Memory
    }
}

impl<T: Drop> From<AllocFailed<T>> for JournalFault {
    ghost from_gives = { λ _ fault. fault ≡ Memory };

    fn from(_: AllocFailed<T>) -> Self {
        JournalFault::Memory
    }
}

/// The fault of a journal whose disk refused a call.
pub(crate) fn fault_of(refusal: DiskRefusal) -> JournalFault
    ensures failed { refusal ≡ DiskRefusal.Failed → result ≡ DiskFault }
    ensures memory { refusal ≡ DiskRefusal.Memory → result ≡ Memory }
    ensures kind { IsOfDisk result }
    ensures calm { (n m : ℕ) → IsDiskNoFault refusal n m → IsNoFault result n m }
{
    match refusal {
        DiskRefusal::Failed => JournalFault::DiskFault,
        DiskRefusal::Memory => JournalFault::Memory,
    }
}
