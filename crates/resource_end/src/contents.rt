// The resources and cells of an end that is loaded.
ghost use Rattle.std.specs.Prelude.{◌≡◌, ℕ, ◌<◌, ◌^◌, true, find, is_some, IfSome, IfOk, OnOk, OnErr, IsSome, Some, None};
ghost use Rattle.std.specs.List.{Contains, count_by};
ghost use Rattle.std.specs.Option.{option_copied, option_map};
ghost use Rattle.decision_journal.specs.Index.{AreInOrder};
ghost use Rattle.resource_end.specs.States.{is_unfinished, state_of};
ghost use Rattle.resource_end.specs.Cells.{value_at};
ghost use Rattle.resource_end.specs.Recall.{is_recorded_at};
ghost use Rattle.resource_end.specs.End as end;
ghost use Rattle.resource_end.specs.Calls as calls;
ghost use Rattle.resource_end.specs.Inside as inside;

use crate::cells::Cells;
use crate::kept::{Id, Kept, Resources};
use crate::standing::prepared_at;
use crate::state::State;
use decision_journal::{CellsEnd, JournalRecord, Put, Standing};
use ior_refs::ObjectKey;
use ots_model::RefBytes;
use std::alloc::{AllocError, Global};
use std::marker::Model;

/// The resources of an end, and its cells. A resource that holds a cell is found by the cell.
#[derive(Drop)]
pub(crate) struct Contents {
    alloc: Global,
    pub(crate) resources: Resources,
    cells: Cells,
    /// Two resources hold one cell, which only the records of another program can say.
    contested: bool,
}

impl Model for Contents {
    ghost use Rattle.resource_end.specs.Inside.{AreHeld, ContentsState, stored_cells};

    ghost Value = { ContentsState };

    ghost view = { λ c. record { resources = c.resources; cells = stored_cells c.cells } };

    ghost invariant = { λ c. AreHeld c.contested c.cells c.resources };
}

impl Contents {
    /// What was loaded, with the holders of its cells.
    pub(crate) fn of(
        alloc: Global,
        resources: Resources,
        mut cells: Cells,
    ) -> Result<Contents, AllocError>
        ensures { IfOk result (λ c. c ≡ record { resources = resources; cells = inside.stored_cells cells }) }
    {
        let contested = ok!(resources.hold_all(&mut cells));
        Ok(Contents {
            alloc,
            resources,
            cells,
            contested,
        })
    }

    /// The resource that a key of this service names.
    pub(crate) fn named(&self, service: u64, key: &ObjectKey) -> Option<&Kept>
        ensures { option_map (inside.resource_at (key.now.life, key.now.generation)) (option_copied result)
            ≡ find (end.is_named service key.now) self.now.resources }
    {
        self.resources.named(service, key)
    }

    /// How the resource stands that a key of this service names.
    pub(crate) fn state_of(&self, service: u64, key: &ObjectKey) -> Option<State>
        ensures { inside.StandsSo service key.now self.now.resources result }
    {
        match self.resources.named(service, key) {
            Some(kept) => Some(kept.state),
            None => None,
        }
    }

    /// What is stored in a cell.
    pub(crate) fn stored(&self, cell: u64) -> Option<u64>
        ensures { result ≡ value_at cell self.now.cells }
    {
        self.cells.stored(cell)
    }

    /// How many resources are unfinished.
    pub(crate) fn unfinished(&self) -> usize
        ensures { result ≡ count_by (λ r. is_unfinished r.state) self.now.resources }
    {
        self.resources.unfinished()
    }

    /// The number of another resource that holds a cell, where there is one.
    pub(crate) fn other_holder(&self, id: Id, cell: u64) -> Option<u64>
        ensures { result ≡ option_map (λ r. r.number) (find (inside.is_other_holder id cell) self.now.resources) }
    {
        if self.contested {
            return self.resources.first_other_holder(id, cell);
        }
        let holder = self.cells.holder(cell);
        self.resources.other_holder(id, holder, cell)
    }

    /// Makes a resource with a key of this letter.
    pub(crate) fn add(&mut self, id: Id, letter: u8) -> Result<(), AllocError>
        ensures ok { OnOk result (self.new ≡ record self.old {
          resources = end.with_resource (inside.fresh_one id letter) self.old.resources;
        }) }
        ensures err { OnErr result (self.new ≡ self.old) }
    {
        self.resources.insert(id, Kept::fresh(self.alloc, letter))
    }

    /// A resource's recovery coordinator is this one, where it hasn't prepared. The result is the one before.
    pub(crate) fn bind(&mut self, id: Id, recovery: RefBytes) -> Option<RefBytes>
        requires known { IsSome (inside.numbered id self.old.resources) }
        ensures after { IfSome (inside.numbered id self.old.resources) (λ r. self.new ≡ record self.old {
          resources = end.with_resource (calls.bound recovery r) self.old.resources;
        }) }
        ensures before { IfSome result (λ before.
            option_map (λ r. r.recovery) (inside.numbered id self.old.resources) ≡ Some before) }
    {
        self.resources.bind(id, recovery)
    }

    /// Whether a resource has put a cell, or there is room for one more.
    pub(crate) fn has_room(&self, id: Id, cell: u64) -> bool
        requires known { IsSome (inside.numbered id self.now.resources) }
        ensures { IfSome (inside.numbered id self.now.resources) (λ r. result ≡ calls.has_room cell r) }
    {
        match self.resources.numbered(id) {
            Some(kept) => kept.has_room(cell),
            None => false,
        }
    }

    /// A resource puts a cell that no other one holds. Want of memory leaves all as it was.
    pub(crate) fn put(&mut self, id: Id, put: Put) -> Result<(), AllocError>
        requires free { find (inside.is_other_holder id put.cell) self.old.resources ≡ None }
        requires known { IsSome (inside.numbered id self.old.resources) }
        requires clean { IfSome (inside.numbered id self.old.resources) inside.HasOwnPuts }
        requires unfinished { IfSome (inside.numbered id self.old.resources) (λ r. is_unfinished r.state ≡ true) }
        ensures ok { OnOk result (IfSome (inside.numbered id self.old.resources) (λ r. self.new ≡ record self.old {
          resources = end.with_resource (calls.with_cell put.cell put.value r) self.old.resources;
        })) }
        ensures err { OnErr result (self.new ≡ self.old) }
    {
        ok!(self.cells.hold(put.cell, id));
        self.resources.put(id, put)
    }

    /// A resource changes its state, and what that stores is stored. It needs no memory.
    pub(crate) fn change(&mut self, id: Id, next: State, place: Option<u32>)
        requires known { IsSome (inside.numbered id self.old.resources) }
        requires follows { IfSome (inside.numbered id self.old.resources) (λ r. inside.MayFollow next r.state) }
        ensures { IfSome (inside.numbered id self.old.resources)
            (λ r. self.new ≡ inside.changed next (inside.placed next place r) self.old) }
    {
        let puts = self.resources.change(id, next, place);
        self.cells.store_all(puts.as_slice());
    }

    /// The record that has to stand before a resource changes its state.
    pub(crate) fn record_for(
        &self,
        id: Id,
        next: State,
    ) -> Result<Option<JournalRecord>, AllocError>
        requires known { IsSome (inside.numbered id self.now.resources) }
        ensures item { IfOk result (λ item. Some item
            ≡ option_map (end.record_for next) (inside.numbered id self.now.resources)) }
        ensures wanting { OnErr result (IfSome (inside.numbered id self.now.resources)
            (λ r. IsSome (end.record_for next r))) }
        ensures place { IfSome (inside.numbered id self.now.resources)
            (λ r. IfSome r.record_place (λ place. place < 2 ^ 32)) }
        ensures apart { inside.AreApart self.now.resources }
    {
        match self.resources.numbered(id) {
            Some(kept) => kept.record_for(self.alloc, id, next),
            None => Ok(None),
        }
    }

    /// The last record tells what was to become of a resource, which becomes it. Where it prepares, the recovery coordinator
    /// that the record names is handed in. It needs no memory.
    pub(crate) fn recall_last(&mut self, standing: &[Standing], recovery: RefBytes)
        requires order { AreInOrder standing.now }
        requires recorded { inside.AreRecorded standing.now self.old.resources }
        requires last { IfSome (inside.last_of standing.now)
            (λ s. inside.IsRecallable s.item recovery self.old.resources) }
        ensures told { IfSome (inside.last_of standing.now) (λ s. inside.IsToldBy s self.old self.new) }
        ensures recorded { inside.AreRecorded standing.now self.new.resources }
        ensures writable { inside.StayWritable self.old.resources self.new.resources }
    {
        if let Some(last) = standing.last() {
            self.recall(standing, last, recovery);
        }
    }

    /// One of the records tells what was to become of a resource.
    fn recall(&mut self, standing: &[Standing], each: &Standing, recovery: RefBytes)
        requires order { AreInOrder standing.now }
        requires among { Contains standing.now each.now }
        requires recorded { inside.AreRecorded standing.now self.old.resources }
        requires recallable { inside.IsRecallable each.now.item recovery self.old.resources }
        ensures told { inside.IsToldBy each.now self.old self.new }
        ensures recorded { inside.AreRecorded standing.now self.new.resources }
        ensures writable { inside.StayWritable self.old.resources self.new.resources }
    {
        match &each.item {
            JournalRecord::CellsPrepared(life, number, _, _) => {
                self.recall_prepared((*life, *number), recovery, each.place);
            }
            JournalRecord::CellsOutcome(place, end) => self.recall_end(standing, *place, *end),
            JournalRecord::CellsOnePhase(life, number, _) => {
                self.change((*life, *number), State::Applied, None);
            }
            _ => {}
        }
    }

    /// A resource prepared by the record at this place, which names this recovery coordinator.
    fn recall_prepared(&mut self, id: Id, recovery: RefBytes, place: u32)
        requires known { IsSome (inside.numbered id self.old.resources) }
        requires works { IfSome (inside.numbered id self.old.resources) inside.IsUnrecorded }
        ensures { IfSome (inside.numbered id self.old.resources)
            (λ r. self.new ≡ inside.changed State.Prepared (inside.with_record_of recovery place r) self.old) }
    {
        self.bind(id, recovery);
        self.change(id, State::Prepared, Some(place));
    }

    /// The resource ended that prepared by the record at this place, where there is one.
    fn recall_end(&mut self, standing: &[Standing], place: u32, end: CellsEnd)
        requires order { AreInOrder standing.now }
        requires recorded { inside.AreRecorded standing.now self.old.resources }
        ensures after { self.new
            ≡ inside.ended (state_of end) (find (is_recorded_at place) self.old.resources) self.old }
        ensures recorded { inside.AreRecorded standing.now self.new.resources }
    {
        let recorded = self.resources.recorded(prepared_at(standing, place), place);
        if let Some(id) = recorded {
            self.change(id, State::of_end(end), None);
        }
    }
}
