ghost use Rattle.std.specs.Prelude.{◌≡◌};
ghost use Rattle.resource_end.specs.declared.fault.EndFault.TheVariants.{Memory};
ghost use Rattle.resource_end.specs.Faults.{load_fault, write_fault};

use decision_journal::JournalFault;
use std::alloc::AllocError;

/// Why a call of a resource end was refused.
#[derive(Clone, Copy)]
pub enum EndFault {
    /// Another resource holds the cell: the one of this number.
    Transient(u64),
    /// The resource has gone too far for this call, or not far enough.
    Inactive,
    /// There is no such resource, or it was forgotten.
    ObjectNotExist,
    /// The journal's disk failed, or what it read was refused.
    PersistStore,
    /// A counted limit was reached, or the journal is full.
    NoResources,
    /// The journal couldn't be loaded.
    Start(JournalFault),
    /// Memory ran out.
    Memory,
}

impl EndFault {
    /// What a fault of the journal is to a call that writes a record or reads the journal again.
    pub fn of_write(fault: JournalFault) -> EndFault
        ensures { result ≡ write_fault fault }
    {
        match fault {
            JournalFault::Full { used: _, need: _ } => EndFault::NoResources,
            JournalFault::Memory => EndFault::Memory,
            JournalFault::DiskFault
            | JournalFault::BadHeader(_)
            | JournalFault::BadRecord(_)
            | JournalFault::LivesSpent => EndFault::PersistStore,
        }
    }

    /// What a fault of the journal is to a load.
    pub fn of_load(fault: JournalFault) -> EndFault
        ensures { result ≡ load_fault fault }
    {
        match fault {
            JournalFault::Memory => EndFault::Memory,
            other => EndFault::Start(other),
        }
    }
}

impl From<AllocError> for EndFault {
    ghost from_gives = { λ _ fault. fault ≡ Memory };

    fn from(_: AllocError) -> Self {
        EndFault::Memory
    }
}
