ghost use Rattle.std.specs.Prelude.{◌≡◌};

use crate::limits::AREA_LIMIT;
use crate::player::Stop;
use decision_journal::JournalFault;
use giop_frames::FrameFault;
use std::alloc::AllocError;
use std::fmt;
use std::process::{ExitCode, Termination};

/// How a run ends.
#[derive(Clone, Copy, Debug, PartialEq, Eq)]
pub enum Status {
    /// The input was read to its end, and all was written; or the door of a service has ended.
    Done,
    /// The words are no command line, or they can't be read.
    Usage,
    /// The script's line of this number is outside the grammar, or the world refuses it.
    Script(u64),
    /// Reading failed.
    ReadFault,
    /// Writing failed.
    WriteFault,
    /// At this line a count would pass its limit, which is the second number. The line is 0 where it is the room of a
    /// service's journal.
    Limit(u64, u64),
    /// The part of the stream at this offset is refused for this reason; or the input ends inside the message that
    /// begins there, which is `Short`.
    BadMessage(u64, FrameFault),
    /// The disk failed.
    DiskFault,
    /// The door failed.
    DoorFault,
    /// The octets of the disk are no journal of this service, from this place on; or its lives are spent, which is place 0.
    BadJournal(u32),
    /// Memory ran out.
    Memory,
}

impl Status {
    ghost use Rattle.ots_program.specs.Exit.{number_of};

    /// The number of the status, with which the program ends.
    pub fn number(&self) -> u8
        ensures { result ≡ number_of self.now }
    {
        match self {
            Status::Done => 0,
            Status::Usage => 2,
            Status::Script(_) => 3,
            Status::ReadFault => 4,
            Status::WriteFault => 5,
            Status::Limit(..) => 6,
            Status::BadMessage(..) => 7,
            Status::DiskFault => 8,
            Status::DoorFault => 9,
            Status::BadJournal(_) => 10,
            Status::Memory => 11,
        }
    }
}

/// What the program says on standard error when it ends: a line, or nothing where all is done.
impl fmt::Display for Status {
    ghost use Rattle.std.specs.Prelude.{Some};
    ghost use Rattle.ots_program.specs.Exit.{complaint_of};

    ghost output = { λ status. Some (complaint_of status) };

    fn fmt<W: fmt::Write>(&self, f: &mut fmt::Formatter<W>) -> fmt::Result {
        match self {
            Status::Done => Ok(()),
            Status::Usage => writeln!(f, "ots: usage"),
            Status::Script(line) => writeln!(f, "ots: script line {line}"),
            Status::ReadFault => writeln!(f, "ots: read fault"),
            Status::WriteFault => writeln!(f, "ots: write fault"),
            Status::Limit(line, limit) => writeln!(f, "ots: limit {limit} at line {line}"),
            Status::BadMessage(place, _) => writeln!(f, "ots: bad message at {place}"),
            Status::DiskFault => writeln!(f, "ots: disk fault"),
            Status::DoorFault => writeln!(f, "ots: door fault"),
            Status::BadJournal(place) => writeln!(f, "ots: bad journal at {place}"),
            Status::Memory => writeln!(f, "ots: out of memory"),
        }
    }
}

/// The program ends with the number of its status, and says its line on standard error.
impl Termination for Status {
    ghost use Rattle.std.specs.Process.{exit_status};
    ghost use Rattle.ots_program.specs.Exit.{number_of};

    fn report<R: Eprint>(self, rt: &R) -> ExitCode
        ensures { exit_status result ≡ number_of self }
    {
        let _ = eprint!(rt; "{self}");
        ExitCode::from(self.number())
    }
}

impl From<Stop> for Status {
    ghost use Rattle.ots_program.specs.ReplayInside.{status_of};

    ghost from_gives = { λ stop status. status ≡ status_of stop };

    fn from(stop: Stop) -> Status {
        match stop {
            Stop::Script(line) => Status::Script(line),
            Stop::Limit(line, limit) => Status::Limit(line, limit),
            Stop::Memory => Status::Memory,
        }
    }
}

impl From<AllocError> for Status {
    ghost use Rattle.ots_program.specs.declared.status.Status.TheVariants.{Memory};

    ghost from_gives = { λ _ status. status ≡ Memory };

    fn from(_error: AllocError) -> Status {
        Status::Memory
    }
}

/// Where a journal isn't loaded.
impl From<JournalFault> for Status {
    ghost use Rattle.ots_program.specs.Serve.{status_of_journal};

    ghost from_gives = { λ fault status. status ≡ status_of_journal fault };

    fn from(fault: JournalFault) -> Status {
        match fault {
            JournalFault::DiskFault => Status::DiskFault,
            JournalFault::Full { .. } => Status::Limit(0, AREA_LIMIT),
            JournalFault::BadHeader(place) | JournalFault::BadRecord(place) => {
                Status::BadJournal(place)
            }
            JournalFault::LivesSpent => Status::BadJournal(0),
            JournalFault::Memory => Status::Memory,
        }
    }
}
