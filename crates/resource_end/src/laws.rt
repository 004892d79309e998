// Laws of the definitions: these functions do nothing, and their contracts are the laws.
ghost use Rattle.resource_end.specs.Crashes.{RestartsTellOneMore};
ghost use Rattle.resource_end.specs.Laws.{CellsAreApplied, ChangesStoreOnce, ChoicesStay, HeldCellsAreHeld, LoadsTellOneMore, NumbersRise, PutsAreStored, RecordsTellChanges, StoresOnce};
ghost use Rattle.resource_end.specs.OnRecord.{CrashesLeaveRecords};
ghost use Rattle.resource_end.specs.Plays.{EndsPlay};
ghost use Rattle.resource_end.specs.TableByState.{TableByState};

use decision_journal::octets_stand_for_one_list;
use ots_outside::Disk;

/// Each word, in each state, has the answer that it must have, writes that record, and leaves that state and that cell.
pub fn words_follow_states()
    ensures { TableByState }
{}

/// In short runs of an end each call shows what it must: a crash of a prepared resource, a choice, two resources and one
/// cell, a journal that fails.
pub fn ends_play()
    ensures { EndsPlay }
{}

/// A cell that is put has the value that was put; each other cell has what it had.
pub fn puts_are_stored()
    ensures { PutsAreStored }
{}

/// A change stores the puts of its resource, or changes no cell.
pub fn changes_store_once()
    ensures { ChangesStoreOnce }
{}

/// Where nothing is in doubt a cell has, behind each call, what was applied there last.
pub fn cells_are_applied()
    ensures { CellsAreApplied }
{}

/// A resource whose puts were stored or dropped comes into no state again out of which puts are stored.
pub fn resources_store_once()
    ensures { StoresOnce }
{}

/// A resource's own choice stays until it is forgotten or told that very outcome.
pub fn choices_stay()
    ensures { ChoicesStay }
{}

/// A cell that a resource holds is held from each other resource.
pub fn held_cells_are_held()
    ensures { HeldCellsAreHeld }
{}

/// A record that a change writes tells that very change where it is read again: what a load or a reread finds is what was done.
pub fn records_tell_changes()
    ensures { RecordsTellChanges }
{}

/// A load of one record more leaves what that record tells of the end that a load of those before it leaves: after a crash in
/// a call the record of its change counts whole, or not at all.
pub fn loads_tell_one_more()
    ensures { LoadsTellOneMore }
{}

/// What a load would make once a record of cells stands is what it would have made before, and then what that record tells.
pub fn restarts_tell_one_more()
    ensures { RestartsTellOneMore }
{}

/// Each object that is made in a life has a number above those before it, and no other call makes an end count.
pub fn numbers_rise()
    ensures { NumbersRise }
{}

/// Whatever a crash leaves at any moment of a call, each end that a load of it makes is just what was on record before the call,
/// or what is behind it; where a record was in doubt, also what that record tells.
pub fn crashes_leave_what_is_on_record<D: Disk>()
    ensures { CrashesLeaveRecords D.told }
{
    octets_stand_for_one_list();
}
