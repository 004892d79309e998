// Ends, and their resources.
ghost use Rattle.std.specs.Prelude.{◌≡◌, ◌+◌, ◌-◌, ◌<◌, ◌≤◌, [], length, slice_get, slice_set, None, Some, IfErr, IfOk, OnErr, OnOk};
ghost use Rattle.std.specs.Option.{option_and_then, option_copied, option_map};
ghost use Rattle.nodes_world.specs.Ends as ends;
ghost use Rattle.nodes_world.specs.Objects as objects;
ghost use Rattle.nodes_world.specs.Resolve as resolving;
ghost use Rattle.nodes_parts.specs.Kept.{AreNumbered, end_of, flat, flat_object, names_cell, place_numbered, resource_numbered};

use crate::cells::Cells;
use crate::moulds::Mould;
use coordinator::Said;
use decision_journal::Put;
use ior_refs::ObjectKey;
use ots_model::tree::{Heard, Word};
use ots_model::{Disposition, Name, PhaseHeard, PhaseWord, RefBytes, ResourceState};
use ots_world::WorldFault;
use resource_end::{EndFault, State, Word as ToldWord};
use std::alloc::{AllocError, Global};
use std::marker::Model;

/// A resource of an end: its key, how it stands, the put that was accepted, and whether a refuse was.
#[derive(Clone, Copy)]
pub struct Resource {
    pub key: ObjectKey,
    pub state: State,
    pub put: Option<Put>,
    pub refused: bool,
}

impl Resource {
    /// One of which nothing was put.
    fn fresh(key: &ObjectKey) -> Resource
        ensures { flat result ≡ ends.fresh key.now }
    {
        Resource {
            key: *key,
            state: State::Fresh,
            put: None,
            refused: false,
        }
    }

    /// Whether a put or a refuse of it was accepted.
    pub fn is_touched(&self) -> bool
        ensures { result ≡ resolving.is_touched (flat self.now) }
    {
        self.put.is_some() || self.refused
    }
}

/// An end that doesn't crash. Each object that it has made has a number, which tells its place; some are no resources.
#[derive(Drop)]
pub struct End {
    objects: Vec<Option<Resource>>,
    cells: Cells,
    mould: Option<Mould>,
}

impl Model for End {
    ghost use Rattle.nodes_world.specs.World.{FlatEnd};
    ghost use Rattle.nodes_parts.specs.Kept.{end_of};
    ghost use Rattle.nodes_parts.specs.KeptInside.{IsKept};

    ghost Value = { FlatEnd };

    ghost view = { λ e. end_of e.objects.items };

    ghost invariant = { λ e. IsKept e.objects.items e.cells };
}

impl End {
    /// One without resources.
    pub fn new(alloc: Global) -> End
        ensures { result ≡ record { drawn = 0; resources = [] } }
    {
        End {
            objects: Vec::new(alloc),
            cells: Cells::new(alloc),
            mould: None,
        }
    }

    /// Makes an object, and tells its number. Where memory is wanted for it the end is as it was.
    pub fn draw(&mut self) -> Result<u64, AllocError>
        ensures ok { IfOk result (λ number. (number ≡ self.old.drawn + 1) × (self.new ≡ ends.drawn_once self.old)) }
        ensures free { IfOk result (λ number. resource_numbered number self.new ≡ None) }
        ensures err { OnErr result (self.new ≡ self.old) }
    {
        self.objects.push(None)?;
        Ok(self.objects.len() as u64)
    }

    /// The reference to an object. The end keeps one, from which it makes those that differ in the number alone.
    pub fn reference(
        &mut self,
        alloc: Global,
        name: &Name,
        key: &ObjectKey,
    ) -> Result<RefBytes, WorldFault>
        ensures ok { IfOk result (λ to. to ≡ objects.reference name.now key.now) }
        ensures err { IfErr result (λ fault. fault ≡ WorldFault.Memory) }
        ensures same { self.new ≡ self.old }
    {
        if let Some(mould) = &self.mould {
            if mould.fits(name, key) {
                return Ok(mould.cast(alloc, key.generation)?);
            }
        }
        let mould = Mould::new(alloc, name, key)?;
        let to = mould.cast(alloc, key.generation)?;
        self.mould = Some(mould);
        Ok(to)
    }

    /// The object that was made last, which has this key, is a resource from now on.
    pub fn make(&mut self, key: &ObjectKey)
        requires last { (key.now).generation ≡ self.old.drawn }
        requires some { 0 < self.old.drawn }
        requires free { resource_numbered self.old.drawn self.old ≡ None }
        ensures { self.new ≡ ends.with_fresh key.now self.old }
    {
        let place = self.objects.len() - 1;
        self.objects[place] = Some(Resource::fresh(key));
    }

    /// The resource with this number.
    pub fn resource(&self, number: u64) -> Option<&Resource>
        ensures { option_map flat (option_copied result) ≡ resource_numbered number self.now }
    {
        object_numbered(&self.objects, number)
    }

    /// Whether a resource names this cell.
    pub fn has_cell(&self, cell: u64) -> bool
        ensures { result ≡ names_cell cell self.now }
    {
        self.cells.has(cell)
    }

    /// A resource comes into another state.
    pub fn set_state(&mut self, resource: &Resource, state: State)
        requires there { resource_numbered ((resource.now).key).generation self.old ≡ Some (flat resource.now) }
        ensures { self.new ≡ ends.with_resource (record (flat resource.now) { state = state }) self.old }
    {
        replace(&mut self.objects, Resource { state, ..*resource });
    }

    /// A value is put into a cell for a resource. Where memory is wanted for it the end is as it was.
    pub fn put(&mut self, resource: &Resource, cell: u64, value: u64) -> Result<(), AllocError>
        requires there { resource_numbered ((resource.now).key).generation self.old ≡ Some (flat resource.now) }
        requires nothing { (resource.now).put ≡ None }
        ensures ok { OnOk result (self.new
            ≡ ends.with_resource (ends.put_into cell value (flat resource.now)) self.old) }
        ensures err { OnErr result (self.new ≡ self.old) }
    {
        self.cells.add(cell)?;
        let put = Some(Put { cell, value });
        let working = Resource {
            state: State::Working,
            put,
            ..*resource
        };
        replace(&mut self.objects, working);
        Ok(())
    }

    /// A resource is to vote rollback.
    pub fn refuse(&mut self, resource: &Resource)
        requires there { resource_numbered ((resource.now).key).generation self.old ≡ Some (flat resource.now) }
        ensures { self.new ≡ ends.with_resource (ends.refusing (flat resource.now)) self.old }
    {
        let refused = Resource {
            state: State::Refused,
            refused: true,
            ..*resource
        };
        replace(&mut self.objects, refused);
    }
}

/// A resource takes the place of the object with its number.
fn replace(objects: &mut Vec<Option<Resource>>, resource: Resource)
    requires number { 0 < (resource.key).generation }
    requires there { (resource.key).generation ≤ length objects.old.items }
    ensures { objects.new.items ≡ slice_set objects.old.items ((resource.key).generation - 1) (Some resource) }
{
    let place = resource.key.generation as usize - 1;
    objects[place] = Some(resource);
}

/// The place of the object with a number.
fn place_of(number: u64) -> Option<usize>
    ensures { result ≡ place_numbered number }
{
    if number == 0 {
        return None;
    }
    Some(number as usize - 1)
}

/// The resource with this number among the objects of an end.
fn object_numbered(objects: &[Option<Resource>], number: u64) -> Option<&Resource>
    requires numbered { AreNumbered objects.now }
    ensures { option_map flat (option_copied result) ≡ resource_numbered number (end_of objects.now) }
{
    match place_of(number) {
        Some(place) => object_at(objects, place),
        None => None,
    }
}

/// The resource at this place.
fn object_at(objects: &[Option<Resource>], place: usize) -> Option<&Resource>
    ensures { option_map flat (option_copied result) ≡ option_and_then flat_object (slice_get objects.now place) }
{
    match objects.get(place) {
        Some(Some(resource)) => Some(resource),
        _ => None,
    }
}

/// Why nothing can be put for a resource, nor refused by it, in this state.
pub fn closed_by(state: State) -> Option<Said>
    ensures { result ≡ ends.closed_by state }
{
    match state {
        State::Fresh | State::Working => None,
        State::Forgotten => Some(Said::ObjectNotExist),
        _ => Some(Said::Inactive),
    }
}

/// The words that a resource's table has.
pub fn told_word(word: Word) -> Option<ToldWord>
    ensures { result ≡ ends.told_word word }
{
    match word {
        Word::Phase(PhaseWord::Prepare) => Some(ToldWord::Prepare),
        Word::Phase(PhaseWord::Commit) => Some(ToldWord::Commit),
        Word::Phase(PhaseWord::CommitOnePhase) => Some(ToldWord::CommitOnePhase),
        Word::Phase(PhaseWord::Rollback) => Some(ToldWord::Rollback),
        Word::Forget => Some(ToldWord::Forget),
        _ => None,
    }
}

/// A heuristic exception, by what became of the updates.
fn heuristic(disposition: Disposition) -> Said
    ensures { result ≡ ends.heuristic disposition }
{
    match disposition {
        Disposition::Committed => Said::HeuristicCommit,
        Disposition::RolledBack => Said::HeuristicRollback,
        Disposition::Mixed => Said::HeuristicMixed,
        Disposition::Unknown => Said::HeuristicHazard,
    }
}

/// What is answered, by what its caller hears, or by why the word is refused.
pub fn answer_of_row(said: &Result<Heard, EndFault>) -> Option<Said>
    ensures { result ≡ ends.answer_of_row said.now }
{
    match said {
        Ok(Heard::Phase(PhaseHeard::Done)) => Some(Said::Plain),
        Ok(Heard::Phase(PhaseHeard::Voted(vote))) => Some(Said::Voted(*vote)),
        Ok(Heard::Phase(PhaseHeard::Heuristic(disposition))) => Some(heuristic(*disposition)),
        Ok(Heard::Phase(PhaseHeard::RolledBack)) => Some(Said::TransactionRolledBack),
        Ok(Heard::Phase(PhaseHeard::NotPrepared)) => Some(Said::NotPrepared),
        Ok(Heard::Phase(PhaseHeard::NoObject)) | Err(EndFault::ObjectNotExist) => Some(
            Said::ObjectNotExist,
        ),
        _ => None,
    }
}

/// The state that is told when a resource comes into it.
pub fn shown_state(state: State) -> Option<ResourceState>
    ensures { result ≡ ends.shown_state state }
{
    match state {
        State::Prepared => Some(ResourceState::Prepared),
        State::Applied => Some(ResourceState::Applied),
        State::Undone => Some(ResourceState::Undone),
        State::Forgotten => Some(ResourceState::Forgotten),
        _ => None,
    }
}
