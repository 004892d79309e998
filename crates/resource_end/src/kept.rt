ghost use Rattle.std.specs.Prelude.{◌≡◌, ℕ, ◌<◌, ◌^◌, ◌||◌, true, find, is_some, IfSome, IfOk, OnOk, OnErr, IsSome, Some, None, []};
ghost use Rattle.std.specs.List.{count_by};
ghost use Rattle.std.specs.Option.{option_copied, option_map};
ghost use Rattle.resource_end.specs.States.{holds, is_unfinished};
ghost use Rattle.resource_end.specs.End as end;
ghost use Rattle.resource_end.specs.Calls as calls;
ghost use Rattle.resource_end.specs.Recall.{is_recorded_at};
ghost use Rattle.resource_end.specs.Inside as inside;

use crate::cells::Cells;
use crate::puts::{RisingPuts, copy_puts};
use crate::state::State;
use decision_journal::{JournalRecord, Put, Puts};
use ior_refs::ObjectKey;
use ots_model::RefBytes;
use std::alloc::{AllocError, Global};
use std::collections::{BTreeMap, BTreeSet};
use std::marker::Model;

/// The letter of a resource's key.
pub(crate) const RESOURCE_KIND: u8 = b'R';

/// The letter of the key of one that is aware of subtransactions.
pub(crate) const AWARE_KIND: u8 = b'A';

/// The life that made a resource, and its number in it.
pub(crate) type Id = (u32, u64);

/// What is kept of a resource beside its life and its number.
#[derive(Drop)]
pub(crate) struct Kept {
    /// The letter of its key, which a record doesn't tell.
    pub(crate) kind: Option<u8>,
    pub(crate) state: State,
    /// Its recovery coordinator.
    pub(crate) recovery: RefBytes,
    /// What it put, while that is its own, by rising cell.
    pub(crate) puts: RisingPuts,
    /// The place of its record, once it has prepared.
    pub(crate) record_place: Option<u32>,
}

/// How many cells one resource may put.
const CELL_LIMIT: usize = 1024;

impl Kept {
    /// A new resource with a key of this letter.
    pub(crate) fn fresh(alloc: Global, letter: u8) -> Kept
        ensures { (id : ℕ × ℕ) → inside.resource_at id result ≡ inside.fresh_one id letter }
    {
        Kept {
            kind: Some(letter),
            state: State::Fresh,
            recovery: RefBytes::from_vec(Vec::new(alloc)),
            puts: RisingPuts::new(alloc),
            record_place: None,
        }
    }

    /// Its own put of a cell, which it sees.
    pub(crate) fn own(&self, cell: u64) -> Option<u64>
        ensures { (id : ℕ × ℕ) → result ≡ inside.own cell (inside.resource_at id self.now) }
    {
        if self.state.holds() {
            return self.puts.value_at(cell);
        }
        None
    }

    /// Whether it has put a cell, or there is room for one more.
    pub(crate) fn has_room(&self, cell: u64) -> bool
        ensures { (id : ℕ × ℕ) → result ≡ calls.has_room cell (inside.resource_at id self.now) }
    {
        self.puts.value_at(cell).is_some() || self.puts.len() < CELL_LIMIT
    }

    /// Whether a key with this letter may be its own.
    fn has_letter(&self, letter: u8) -> bool
        ensures { result ≡ end.has_letter self.now.kind letter }
    {
        match self.kind {
            Some(own) => own == letter,
            None => letter == RESOURCE_KIND || letter == AWARE_KIND,
        }
    }

    /// Whether its record stands at this place.
    fn is_recorded_at(&self, place: u32) -> bool
        ensures { (id : ℕ × ℕ) → result ≡ is_recorded_at place (inside.resource_at id self.now) }
    {
        match self.record_place {
            Some(own) => own == place,
            None => false,
        }
    }

    /// Whether it holds a cell.
    fn holds_cell(&self, cell: u64) -> bool
        ensures { (id : ℕ × ℕ) → result ≡ inside.holds_cell cell (inside.resource_at id self.now) }
    {
        self.state.holds() && self.puts.value_at(cell).is_some()
    }

    /// The record that has to stand before it changes its state.
    pub(crate) fn record_for(
        &self,
        alloc: Global,
        id: Id,
        next: State,
    ) -> Result<Option<JournalRecord>, AllocError>
        ensures item { IfOk result (λ item. item ≡ end.record_for next (inside.resource_at id self.now)) }
        ensures wanting { OnErr result (IsSome (end.record_for next (inside.resource_at id self.now))) }
        ensures place { IfSome self.now.record_place (λ place. place < 2 ^ 32) }
    {
        match (self.record_place, self.state, next) {
            (Some(place), _, _) => match next.end() {
                Some(end) => Ok(Some(JournalRecord::CellsOutcome(place, end))),
                None => Ok(None),
            },
            (None, State::Working, State::Prepared) => Ok(Some(JournalRecord::CellsPrepared(
                id.0,
                id.1,
                ok!(self.recovery.copy(alloc)),
                ok!(self.copy_puts(alloc)),
            ))),
            (None, State::Working, State::Applied) => Ok(Some(JournalRecord::CellsOnePhase(
                id.0,
                id.1,
                ok!(self.copy_puts(alloc)),
            ))),
            _ => Ok(None),
        }
    }

    fn copy_puts(&self, alloc: Global) -> Result<Puts, AllocError>
        ensures { IfOk result (λ copy. copy ≡ self.now.puts) }
    {
        Ok(Puts::from_vec(ok!(copy_puts(alloc, self.puts.as_slice()))))
    }

    /// Each cell that it put is held by it. The result tells whether another one held one of them.
    fn hold_all(&self, id: Id, cells: &mut Cells) -> Result<bool, AllocError>
        ensures held { IfOk result (λ contested.
            inside.HoldsItsCells contested cells.new id (inside.resource_at id self.now)) }
        ensures others { IfOk result (λ contested. inside.Keeps contested cells.old cells.new) }
        ensures stored { inside.stored_cells cells.new ≡ inside.stored_cells cells.old }
    {
        let mut contested = false;
        for put in self.puts.as_slice() {
            let before = ok!(cells.hold(put.cell, id));
            contested = either(is_another(before, id), contested);
        }
        Ok(contested)
    }

    /// It puts a cell. Want of memory leaves it as it was.
    fn put(&mut self, put: Put) -> Result<(), AllocError>
        ensures ok { OnOk result ((id : ℕ × ℕ) → inside.resource_at id self.new
            ≡ calls.with_cell put.cell put.value (inside.resource_at id self.old)) }
        ensures err { OnErr result ((id : ℕ × ℕ) → inside.resource_at id self.new ≡ inside.resource_at id self.old) }
    {
        ok!(self.puts.set(put));
        self.state = State::Working;
        Ok(())
    }

    /// Its recovery coordinator is this one, where it hasn't prepared. The result is the one before.
    fn bind(&mut self, recovery: RefBytes) -> Option<RefBytes>
        ensures after { (id : ℕ × ℕ) → inside.resource_at id self.new
            ≡ calls.bound recovery (inside.resource_at id self.old) }
        ensures before { IfSome result (λ before. before ≡ self.old.recovery) }
        ensures state { self.new.state ≡ self.old.state }
    {
        if self.record_place.is_some() {
            return None;
        }
        Some(std::mem::replace(&mut self.recovery, recovery))
    }

    /// It changes its state. The result is what that stores.
    fn change(&mut self, alloc: Global, next: State, place: Option<u32>) -> Vec<Put>
        ensures after { (id : ℕ × ℕ) → inside.resource_at id self.new
            ≡ end.moved next (inside.placed next place (inside.resource_at id self.old)) }
        ensures puts { (id : ℕ × ℕ) → result.items ≡ inside.puts_stored next (inside.resource_at id self.old) }
        ensures state { self.new.state ≡ next }
    {
        let stores = self.state.stores(next);
        self.state = next;
        if let (State::Prepared, Some(_)) = (next, place) {
            self.record_place = place;
        }
        if !next.is_unfinished() {
            self.recovery = RefBytes::from_vec(Vec::new(alloc));
        }
        if next.holds() {
            return Vec::new(alloc);
        }
        let puts = std::mem::replace(&mut self.puts, RisingPuts::new(alloc));
        if stores {
            return puts.into_vec();
        }
        Vec::new(alloc)
    }
}

/// The resources of an end. Contracts see them as a list, by life and then by number.
#[derive(Drop)]
pub(crate) struct Resources {
    pub(crate) alloc: Global,
    pub(crate) map: BTreeMap<Id, Kept>,
    /// The numbers of those that are unfinished. One has its place here from the start, so that no change needs memory.
    pub(crate) unfinished: BTreeSet<Id>,
}

impl Model for Resources {
    ghost use Rattle.std.specs.Prelude.{◌≡◌, List};
    ghost use Rattle.std.specs.BTreeMap.{IsOrdered};
    ghost use Rattle.resource_end.specs.End.{Resource};
    ghost use Rattle.resource_end.specs.Inside.{id_cmp, resources_of, unfinished_ids};

    ghost Value = { List Resource };

    ghost view = { λ r. resources_of r.map.entries };

    ghost invariant = { λ r. IsOrdered id_cmp r.map × (r.unfinished.keys ≡ unfinished_ids r.map.entries) };
}

impl Resources {
    /// No resources.
    pub(crate) fn new(alloc: Global) -> Resources
        ensures { result ≡ [] }
    {
        Resources {
            alloc,
            map: BTreeMap::new(alloc),
            unfinished: BTreeSet::new(alloc),
        }
    }

    /// How many are unfinished.
    pub(crate) fn unfinished(&self) -> usize
        ensures { result ≡ count_by (λ r. is_unfinished r.state) self.now }
    {
        self.unfinished.len()
    }

    /// The resource of this life and number.
    pub(crate) fn numbered(&self, id: Id) -> Option<&Kept>
        ensures found { option_map (inside.resource_at id) (option_copied result) ≡ inside.numbered id self.now }
        ensures apart { inside.AreApart self.now }
    {
        self.map.get(&id)
    }

    /// The resource that a key of this service names.
    pub(crate) fn named(&self, service: u64, key: &ObjectKey) -> Option<&Kept>
        ensures found { option_map (inside.resource_at (key.now.life, key.now.generation)) (option_copied result)
            ≡ find (end.is_named service key.now) self.now }
        ensures apart { inside.AreApart self.now }
    {
        let map = &self.map;
        if key.service != service || key.slot != 0 || key.index != 0 {
            return None;
        }
        match map.get(&(key.life, key.generation)) {
            Some(kept) if kept.has_letter(key.kind) => Some(kept),
            _ => None,
        }
    }

    /// This resource, where its record stands at this place. No other one's does.
    pub(crate) fn recorded(&self, id: Option<Id>, place: u32) -> Option<Id>
        requires { inside.RecordedAlone place id self.now }
        ensures { inside.IsFoundAs (find (is_recorded_at place) self.now) self.now result }
    {
        let map = &self.map;
        let id = match id {
            Some(id) => id,
            None => return None,
        };
        match map.get(&id) {
            Some(kept) if kept.is_recorded_at(place) => Some(id),
            _ => None,
        }
    }

    /// The number of the resource that holds a cell, where it is another than this one. No one else holds it.
    pub(crate) fn other_holder(&self, id: Id, holder: Option<Id>, cell: u64) -> Option<u64>
        requires { inside.HoldsAlone cell holder self.now }
        ensures { result ≡ option_map (λ r. r.number) (find (inside.is_other_holder id cell) self.now) }
    {
        match holder {
            Some(holder) => self.holder_beside(id, holder, cell),
            None => self.holder_beside(id, id, cell),
        }
    }

    fn holder_beside(&self, id: Id, holder: Id, cell: u64) -> Option<u64>
        requires { inside.PassesAlone (inside.holds_cell cell) holder self.now }
        ensures { result ≡ option_map (λ r. r.number) (find (inside.is_other_holder id cell) self.now) }
    {
        let _known = &self.map;
        self.holder_at(id, holder, cell)
    }

    /// The number of the first resource other than this one that holds a cell. Those that are over aren't looked at.
    pub(crate) fn first_other_holder(&self, id: Id, cell: u64) -> Option<u64>
        ensures { result ≡ option_map (λ r. r.number) (find (inside.is_other_holder id cell) self.now) }
    {
        for other in &self.unfinished {
            let number = self.holder_at(id, *other, cell);
            if number.is_some() {
                return number;
            }
        }
        None
    }

    /// The number of a resource, where it is another one than the first, and holds a cell.
    fn holder_at(&self, id: Id, holder: Id, cell: u64) -> Option<u64>
        ensures { result ≡ option_map (λ r. r.number)
            (inside.if_passes (inside.is_other_holder id cell) (inside.numbered holder self.now)) }
    {
        match self.map.get(&holder) {
            Some(kept) if !is_same(holder, id) && kept.holds_cell(cell) => Some(holder.1),
            _ => None,
        }
    }

    /// Puts a resource into its turn, or in the place of the one that has its number.
    pub(crate) fn insert(&mut self, id: Id, kept: Kept) -> Result<(), AllocError>
        ensures ok { OnOk result (self.new ≡ end.with_resource (inside.resource_at id kept) self.old) }
        ensures err { OnErr result (self.new ≡ self.old) }
    {
        if !kept.state.is_unfinished() {
            match self.map.insert(id, kept) {
                Ok(_) => {}
                Err(_) => return Err(AllocError),
            }
            self.unfinished.remove(&id);
            return Ok(());
        }
        match self.unfinished.insert(id) {
            Ok(_) => {}
            Err(_) => {
                drop(kept);
                return Err(AllocError);
            }
        }
        match self.map.insert(id, kept) {
            Ok(_) => Ok(()),
            Err(_) => {
                self.unfinished.remove(&id);
                Err(AllocError)
            }
        }
    }

    /// A resource changes its state. The result is what that stores.
    pub(crate) fn change(&mut self, id: Id, next: State, place: Option<u32>) -> Vec<Put>
        requires known { IsSome (inside.numbered id self.old) }
        requires follows { IfSome (inside.numbered id self.old) (λ r. inside.MayFollow next r.state) }
        ensures after { IfSome (inside.numbered id self.old)
            (λ r. self.new ≡ end.kept (end.moved next (inside.placed next place r)) self.old) }
        ensures puts { IfSome (inside.numbered id self.old) (λ r. result.items ≡ inside.puts_stored next r) }
    {
        if let State::Forgotten = next {
            self.remove(id);
            return Vec::new(self.alloc);
        }
        self.alter(id, next, place)
    }

    /// A resource changes into another state in which it is known.
    fn alter(&mut self, id: Id, next: State, place: Option<u32>) -> Vec<Put>
        requires known { IsSome (inside.numbered id self.old) }
        requires follows { IfSome (inside.numbered id self.old) (λ r. inside.MayFollow next r.state) }
        ensures after { IfSome (inside.numbered id self.old)
            (λ r. self.new ≡ end.with_resource (end.moved next (inside.placed next place r)) self.old) }
        ensures puts { IfSome (inside.numbered id self.old) (λ r. result.items ≡ inside.puts_stored next r) }
    {
        let Some(kept) = self.map.get_mut(&id) else {
            return Vec::new(self.alloc);
        };
        let puts = kept.change(self.alloc, next, place);
        if !next.is_unfinished() {
            self.unfinished.remove(&id);
        }
        puts
    }

    /// A resource is kept no more.
    fn remove(&mut self, id: Id)
        ensures { self.new ≡ inside.without id self.old }
    {
        self.map.remove(&id);
        self.unfinished.remove(&id);
    }

    /// A resource puts a cell. Want of memory leaves it as it was.
    pub(crate) fn put(&mut self, id: Id, put: Put) -> Result<(), AllocError>
        requires unfinished { IfSome (inside.numbered id self.old) (λ r. is_unfinished r.state ≡ true) }
        ensures ok { OnOk result (IfSome (inside.numbered id self.old)
            (λ r. self.new ≡ end.with_resource (calls.with_cell put.cell put.value r) self.old)) }
        ensures err { OnErr result (self.new ≡ self.old) }
    {
        let Some(kept) = self.map.get_mut(&id) else {
            return Ok(());
        };
        kept.put(put)
    }

    /// A resource's recovery coordinator is this one, where it hasn't prepared. The result is the one before.
    pub(crate) fn bind(&mut self, id: Id, recovery: RefBytes) -> Option<RefBytes>
        ensures after { IfSome (inside.numbered id self.old)
            (λ r. self.new ≡ end.with_resource (calls.bound recovery r) self.old) }
        ensures before { IfSome result (λ before.
            option_map (λ r. r.recovery) (inside.numbered id self.old) ≡ Some before) }
    {
        match self.map.get_mut(&id) {
            Some(kept) => kept.bind(recovery),
            None => None,
        }
    }

    /// Each resource that holds its puts has their cells. The result tells whether two of them have one cell.
    pub(crate) fn hold_all(&self, cells: &mut Cells) -> Result<bool, AllocError>
        ensures held { IfOk result (λ contested. inside.AreHeld contested cells.new self.now) }
        ensures stored { inside.stored_cells cells.new ≡ inside.stored_cells cells.old }
    {
        let mut contested = false;
        for (id, kept) in &self.map {
            let more = ok!(kept.hold_all(*id, cells));
            contested = either(more, contested);
        }
        Ok(contested)
    }
}

/// Whether both are one resource.
fn is_same(one: Id, other: Id) -> bool
    ensures { result ≡ inside.is_same one other }
{
    one.0 == other.0 && one.1 == other.1
}

/// Whether that is another resource than this one.
fn is_another(before: Option<Id>, id: Id) -> bool
    ensures { result ≡ inside.is_another before id }
{
    match before {
        Some(other) => !is_same(other, id),
        None => false,
    }
}

fn either(one: bool, other: bool) -> bool
    ensures { result ≡ (one || other) }
{
    one || other
}
