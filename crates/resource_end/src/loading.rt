// What the records of a journal tell of resources and cells.
ghost use Rattle.std.specs.Prelude.{◌≡◌, ℕ, [], find, IfSome, IfOk, IsTrue, OnOk, Some, None};
ghost use Rattle.std.specs.Option.{option_and_then};
ghost use Rattle.std.specs.List.{All, Contains};
ghost use Rattle.decision_journal.specs.Index.{AreInOrder};
ghost use Rattle.decision_journal.specs.Layout.{Fits, is_rising};
ghost use Rattle.resource_end.specs.States.{state_of};
ghost use Rattle.resource_end.specs.Cells.{with_puts};
ghost use Rattle.resource_end.specs.End.{End, with_resource};
ghost use Rattle.resource_end.specs.Inside as inside;
ghost use Rattle.resource_end.specs.Recall.{is_recorded_at, recalls_all};

use crate::cells::Cells;
use crate::contents::Contents;
use crate::kept::{Id, Kept, Resources};
use crate::puts::RisingPuts;
use crate::standing::prepared_at;
use crate::state::State;
use decision_journal::{CellsEnd, JournalRecord, Puts, Standing};
use ots_model::RefBytes;
use std::alloc::{AllocError, Global};

/// The resources and cells of an end while it is loaded.
#[derive(Drop)]
struct Loading {
    alloc: Global,
    resources: Resources,
    cells: Cells,
}

/// What these records tell.
pub(crate) fn load_all(alloc: Global, standing: &[Standing]) -> Result<Contents, AllocError>
    requires order { AreInOrder standing.now }
    requires fit { All (λ s. Fits s.item) standing.now }
    ensures contents { IfOk result (λ c. (e : End)
        → recalls_all standing.now (inside.with_contents inside.no_contents e) ≡ inside.with_contents c e) }
    ensures recorded { IfOk result (λ c. inside.AreRecorded standing.now c.resources) }
    ensures writable { IfOk result (λ c. inside.AreWritable 0 c.resources) }
{
    let mut loading = Loading {
        alloc,
        resources: Resources::new(alloc),
        cells: Cells::new(alloc),
    };
    for each in standing {
        ok!(loading.recall(standing, each));
    }
    Contents::of(alloc, loading.resources, loading.cells)
}

impl Loading {
    /// What one of the records tells.
    fn recall(&mut self, standing: &[Standing], each: &Standing) -> Result<(), AllocError>
        requires order { AreInOrder standing.now }
        requires among { Contains standing.now each.now }
        requires fits { Fits each.now.item }
        requires recorded { inside.AreRecorded standing.now self.old.resources }
        requires writable { inside.AreWritable 0 self.old.resources }
        ensures told { OnOk result (inside.IsToldBy each.now
            (inside.contents_of self.old.resources self.old.cells)
            (inside.contents_of self.new.resources self.new.cells)) }
        ensures recorded { OnOk result (inside.AreRecorded standing.now self.new.resources) }
        ensures writable { OnOk result (inside.AreWritable 0 self.new.resources) }
    {
        match &each.item {
            JournalRecord::CellsPrepared(life, number, recovery, puts) => {
                self.prepare((*life, *number), recovery, puts, each.place)
            }
            JournalRecord::CellsOutcome(place, end) => self.end(standing, *place, *end),
            JournalRecord::CellsOnePhase(life, number, puts) => {
                self.apply((*life, *number), puts)
            }
            _ => Ok(()),
        }
    }

    /// A resource prepared by the record at this place.
    fn prepare(
        &mut self,
        id: Id,
        recovery: &RefBytes,
        puts: &Puts,
        place: u32,
    ) -> Result<(), AllocError>
        requires { IsTrue (is_rising puts.now) }
        ensures resources { OnOk result (self.new.resources ≡ with_resource
            (inside.put_by_record State.Prepared id recovery.now puts.now (Some place) self.old.resources) self.old.resources) }
        ensures cells { inside.stored_cells self.new.cells ≡ inside.stored_cells self.old.cells }
    {
        let kept = Kept {
            kind: self.letter_of(id),
            state: State::Prepared,
            recovery: ok!(recovery.copy(self.alloc)),
            puts: ok!(RisingPuts::of(self.alloc, puts.items())),
            record_place: Some(place),
        };
        self.resources.insert(id, kept)
    }

    /// A resource that prepared by the record at this place ended.
    fn end(&mut self, standing: &[Standing], place: u32, end: CellsEnd) -> Result<(), AllocError>
        requires order { AreInOrder standing.now }
        requires recorded { inside.AreRecorded standing.now self.old.resources }
        ensures after { OnOk result (inside.contents_of self.new.resources self.new.cells
            ≡ inside.ended (state_of end) (find (is_recorded_at place) self.old.resources)
            (inside.contents_of self.old.resources self.old.cells)) }
        ensures recorded { OnOk result (inside.AreRecorded standing.now self.new.resources) }
    {
        let id = match self.resources.recorded(prepared_at(standing, place), place) {
            Some(id) => id,
            None => return Ok(()),
        };
        let puts = self.resources.change(id, State::of_end(end), None);
        self.cells.load_all(puts.as_slice())
    }

    /// A resource committed in one phase.
    fn apply(&mut self, id: Id, puts: &Puts) -> Result<(), AllocError>
        ensures resources { OnOk result (self.new.resources ≡ with_resource
            (inside.put_by_record State.Applied id [] [] None self.old.resources) self.old.resources) }
        ensures cells { OnOk result
            (inside.stored_cells self.new.cells ≡ with_puts puts.now (inside.stored_cells self.old.cells)) }
    {
        let kept = Kept {
            kind: self.letter_of(id),
            state: State::Applied,
            recovery: RefBytes::from_vec(Vec::new(self.alloc)),
            puts: RisingPuts::new(self.alloc),
            record_place: None,
        };
        ok!(self.resources.insert(id, kept));
        self.cells.load_all(puts.items())
    }

    /// The letter of a resource's key, where it is known.
    fn letter_of(&self, id: Id) -> Option<u8>
        ensures { result ≡ option_and_then (λ r. r.kind) (inside.numbered id self.now.resources) }
    {
        match self.resources.numbered(id) {
            Some(kept) => kept.kind,
            None => None,
        }
    }
}
