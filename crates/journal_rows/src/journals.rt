//! The calls of a journal, each without what its contract says: nothing here needs it.
ghost use Rattle.std.specs.Prelude.{◌≡◌, ◌≤◌, true};
ghost use Rattle.decision_journal.specs.Journal.{Found, can_follow};
ghost use Rattle.decision_journal.specs.Layout.{Fits};
ghost use Rattle.decision_journal.specs.State.{cells_in};

use decision_journal::{CellsEnd, Journal, JournalFault, JournalRecord, Standing};
use ots_outside::{Back, MemDisk};
use std::alloc::Global;
use std::io;

/// A journal over a disk in memory.
pub type MemJournal = Journal<MemDisk>;

/// What comes of a load.
pub type Loaded = Result<MemJournal, Back<MemDisk, JournalFault>>;

/// How many octets an area has at most.
pub const AREA_LIMIT: u64 = 67_108_864;

/// Makes the call `Journal::load`, with an area within the limit.
pub fn load(alloc: Global, disk: MemDisk, area: u64, service: u64) -> Loaded {
    Journal::load(alloc, disk, area.min(AREA_LIMIT), service)
}

/// A disk of these octets, of which these calls fail.
pub fn disk_of(alloc: Global, octets: &[u8], failing: Vec<u64>) -> io::Result<MemDisk> {
    Ok(MemDisk::new(alloc, octets.to_vec(alloc)?, failing)?)
}

/// Makes the call `into_disk`.
pub fn into_disk(journal: MemJournal) -> MemDisk {
    journal.into_disk()
}

/// Makes the call `done`.
pub fn done(journal: &mut MemJournal, place: u32) -> Result<(), JournalFault> {
    journal.done(place)
}

/// Makes the call `reopen`.
pub fn reopen(journal: &mut MemJournal) -> Result<(), JournalFault> {
    journal.reopen()
}

/// Makes the call `bytes`.
pub fn bytes(journal: &mut MemJournal, octets: &mut Vec<u8>) -> Result<(), JournalFault> {
    journal.bytes(octets)
}

/// Makes the call `life`.
pub fn life(journal: &MemJournal) -> u32 {
    journal.life()
}

/// Makes the call `standing`.
pub fn standing(journal: &MemJournal) -> &[Standing] {
    journal.standing()
}

/// What the disk of a journal reads.
pub fn disk_octets(journal: &MemJournal) -> &[u8] {
    journal.disk().octets()
}

/// Appends a record that can follow any others, once there is room for it.
pub fn append(
    journal: &mut MemJournal,
    item: JournalRecord,
) -> io::Result<Result<u32, JournalFault>>
    requires fits { Fits item }
    requires follows { (found : Found) → can_follow found item ≡ true }
    requires cells { cells_in item ≤ 1 }
{
    journal.reserve()?;
    Ok(journal.append(item))
}

/// Appends the outcome of the cells which were prepared there, where it can follow.
pub fn append_outcome(
    journal: &mut MemJournal,
    place: u32,
) -> io::Result<Option<Result<u32, JournalFault>>> {
    let item = JournalRecord::CellsOutcome(place, CellsEnd::Applied);
    journal.reserve()?;
    if journal.failed() || !journal.takes(&item) {
        return Ok(None);
    }
    Ok(Some(journal.append(item)))
}
