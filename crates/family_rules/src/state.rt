// How the transactions of a family stand, and what they are called.
ghost use Rattle.std.specs.Prelude.{◌≡◌, ◌++◌, ◌<◌, ◌≤◌, is_some, IfOk, OnOk};
ghost use Rattle.family_rules.specs.Calls as calls;
ghost use Rattle.family_rules.specs.Changes.{nothing_yet};
ghost use Rattle.coordinator.specs.Family.{call_at, new_family};
ghost use Rattle.coordinator.specs.Phases as phases;
ghost use Rattle.coordinator.specs.Step as steps;
ghost use Rattle.coordinator.specs.Table as table;
ghost use Rattle.ots_model.specs.Limits.{reference_limit};
ghost use Rattle.two_phase.specs.Stages as stages;

use crate::call::Seat;
use crate::draft::Draft;
use crate::outs::Outs;
use crate::spare::Spare;
use crate::tally::Tally;
use coordinator::{Column, Entry, Phase, Stage, Superior};
use ior_refs::ObjectKey;
use ots_model::tree::Outcome;
use ots_model::{Status, Stood};
use resource_votes::Votes;
use std::alloc::{AllocError, Global};
use std::collections::VecDeque;
use std::marker::Model;
use two_phase::Completion;
use txn_tree::Tree;

/// The branch of the top-level transaction.
pub const TOP: u32 = 0;

/// For how many entries memory is taken at first: those of a transaction with a full list of participants, which so are never
/// moved.
const FIRST_ENTRIES: usize = 256;

/// What a family is. Contracts see it as its definition has it, and for how many more entries, subtransactions and
/// registrations memory is taken.
#[derive(Drop)]
pub struct State {
    pub(crate) key: ObjectKey,
    pub(crate) deadline: Option<u64>,
    pub(crate) superior: Option<Superior>,
    pub(crate) stage: Stage,
    pub(crate) tree: Tree,
    pub(crate) votes: Votes,
    pub(crate) seats: Vec<Seat>,
    pub(crate) outs: Outs,
    pub(crate) completion: Completion,
    pub(crate) closed: Option<Stood>,
    pub(crate) serial: u32,
    pub(crate) entries: Vec<Entry>,
    pub(crate) tally: Tally,
    /// What the last step has left of its memory, where it made an entry.
    pub(crate) spare: Option<Spare>,
}

impl Model for State {
    ghost use Rattle.family_rules.specs.Room.{StateParts};

    ghost Value = { StateParts };

    ghost use Rattle.family_rules.specs.StateInside.{shown, IsSound};

    ghost view = { shown };

    ghost invariant = { IsSound };
}

impl State {
    /// The top-level transaction of a root alone.
    #[tactic(auto, using(crate::proofs::Kept::none_few, crate::proofs::Kept::none_once, crate::proofs::Kept::none_placed, crate::proofs::Waited::none_out), unfolding(crate::specs::Calls::all_seated))]
    pub fn new(alloc: Global, key: ObjectKey, deadline: Option<u64>) -> Result<State, AllocError>
        ensures made { IfOk result (λ s. s.family ≡ new_family key deadline) }
    {
        let mut seats = Vec::new(alloc);
        seats.push(Seat {
            call: None,
            left: VecDeque::new(alloc),
        })?;
        Ok(State {
            key,
            deadline,
            superior: None,
            stage: Stage::Going,
            tree: Tree::new(alloc)?,
            votes: Votes::new(alloc)?,
            seats,
            outs: Outs::new(alloc)?,
            completion: Completion::idle(alloc),
            closed: None,
            serial: 0,
            entries: Vec::new(alloc),
            tally: Tally { most: 0, calls: 0 },
            spare: None,
        })
    }

    /// Takes memory for one more entry, subtransaction and registration, whose reference has at most so many octets.
    pub fn make_room(&mut self, octets: usize) -> Result<(), AllocError>
        requires short { octets ≤ reference_limit }
        ensures same { self.new.family ≡ self.old.family }
        ensures room { OnOk result (0 < self.new.room) }
        ensures reach { OnOk result (octets ≤ self.new.reach) }
        ensures history { OnOk result (0 < self.new.history_room) }
        ensures room_kept { self.old.room ≤ self.new.room }
        ensures reach_kept { self.old.reach ≤ self.new.reach }
        ensures history_kept { self.old.history_room ≤ self.new.history_room }
    {
        self.make_places(octets)?;
        let count = self.entries.len();
        if count < self.entries.capacity() {
            return Ok(());
        }
        self.entries.reserve((3 * count).max(FIRST_ENTRIES))
    }

    /// Takes memory for one more subtransaction, and for one more registration whose reference has at most so many octets.
    #[tactic(auto, using(crate::proofs::Unroomed::unroomed_reserved, crate::proofs::Unroomed::spare_reserved, crate::proofs::Unroomed::spare_kept, crate::proofs::Unroomed::reach_reserved, crate::proofs::Unroomed::reach_kept, crate::proofs::Kept::places_reserved))]
    fn make_places(&mut self, octets: usize) -> Result<(), AllocError>
        requires short { octets ≤ reference_limit }
        ensures same { self.new.family ≡ self.old.family }
        ensures room { OnOk result (0 < self.new.room) }
        ensures reach { OnOk result (octets ≤ self.new.reach) }
        ensures room_kept { self.old.room ≤ self.new.room }
        ensures reach_kept { self.old.reach ≤ self.new.reach }
        ensures history { self.new.history_room ≡ self.old.history_room }
    {
        self.seats.reserve(1)?;
        self.outs.reserve(self.seats.capacity())?;
        self.tree.reserve()?;
        self.votes.reserve()?;
        self.completion
            .reserve_within(self.votes.count() + 1, octets)
    }

    /// Memory for what a step brings: for so many answers and effects, and for so many tasks.
    pub fn draft(&mut self, room: usize, tasks: usize) -> Result<Draft, AllocError>
        ensures nothing { IfOk result (λ d. d.changes ≡ (nothing_yet 0 0).changes) }
        ensures room { IfOk result (λ d. room ≤ d.room) }
        ensures tasks { IfOk result (λ d. tasks ≤ d.tasks_room) }
        ensures same { self.new ≡ self.old }
    {
        let spare = match self.spare.take() {
            Some(spare) => spare,
            None => Spare::new(self.allocator())?,
        };
        Draft::new(spare, room, tasks)
    }

    /// Keeps the memory that a step has left, where further steps may come.
    pub fn keep(&mut self, spare: Spare)
        ensures same { self.new ≡ self.old }
    {
        self.spare = if self.is_finished() {
            None
        } else {
            Some(spare)
        };
    }

    /// How far the top-level transaction has come.
    #[tactic(auto, unfolding(coordinator::specs::Phases::phase))]
    pub fn phase(&self) -> Phase
        ensures { result ≡ phases.phase self.now.family }
    {
        match self.stage {
            Stage::Going if self.is_marked(TOP) => Phase::Marked,
            Stage::Going => Phase::Active,
            Stage::Finishing => Phase::Finishing,
            Stage::Completing => self.ending_phase(),
            Stage::Over => self.ended_phase(),
        }
    }

    /// Its phase while its completion is under way.
    #[tactic(auto, using(crate::proofs::Unroomed::unroomed_outcome))]
    fn ending_phase(&self) -> Phase
        ensures { result ≡ phases.ending_phase (self.now.family).completion
            (stages.outcome (self.now.family).completion) }
    {
        match self.completion.outcome() {
            None => self.open_phase(),
            Some(Outcome::Commit(_)) => Phase::Committing,
            Some(Outcome::Rollback(_)) => Phase::RollingBack,
            Some(Outcome::Unknown) => Phase::OnePhase,
        }
    }

    /// Its phase once its completion is over.
    #[tactic(auto, using(crate::proofs::Unroomed::unroomed_outcome))]
    fn ended_phase(&self) -> Phase
        ensures { result ≡ phases.ended_phase (self.now.family).completion
            (stages.outcome (self.now.family).completion) }
    {
        match self.completion.outcome() {
            None => self.open_phase(),
            Some(fixed) => Phase::Ended(fixed),
        }
    }

    /// Its phase before its outcome is fixed.
    #[tactic(auto, using(crate::proofs::Unroomed::unroomed_doubt, crate::proofs::Unroomed::unroomed_alone))]
    fn open_phase(&self) -> Phase
        ensures { result ≡ phases.open_phase (self.now.family).completion }
    {
        if self.completion.is_doubtful() {
            Phase::Doubt
        } else if self.completion.decides_alone() {
            Phase::OnePhase
        } else {
            Phase::Preparing
        }
    }

    /// Whether a transaction is marked.
    pub fn is_marked(&self, branch: u32) -> bool
        ensures { result ≡ phases.is_marked self.now.family branch }
    {
        self.tree.is_marked_at(branch)
    }

    /// The status of the top-level transaction.
    pub fn top_status(&self) -> Status
        ensures { result ≡ phases.top_status self.now.family }
    {
        self.phase().status(self.is_marked(TOP))
    }

    /// Whether a call is under way that ends this transaction.
    pub(crate) fn is_under_way(&self, branch: u32) -> bool
        ensures { result ≡ is_some (call_at self.now.family branch) }
    {
        has_call(&self.seats, branch as usize)
    }

    /// Whether the commit of this subtransaction is under way.
    pub(crate) fn is_ending(&self, branch: u32) -> bool
        ensures { result ≡ phases.is_ending self.now.family branch }
    {
        self.tree.is_live_at(branch) && self.is_under_way(branch)
    }

    /// The status of a transaction, where there is one.
    #[tactic(auto, unfolding(coordinator::specs::Phases::status_of))]
    pub fn status_of(&self, branch: u32) -> Option<Status>
        ensures { result ≡ phases.status_of self.now.family branch }
    {
        if branch == TOP {
            Some(self.top_status())
        } else if self.is_ending(branch) {
            Some(Status::Committing)
        } else {
            self.tree.status_at(branch)
        }
    }

    /// The status of its parent. The top-level transaction counts as its own.
    pub fn parent_status_of(&self, branch: u32) -> Option<Status>
        ensures { result ≡ phases.parent_status_of self.now.family branch }
    {
        self.status_of(self.tree.parent_at(branch).unwrap_or(branch))
    }

    /// How a transaction stands for a client's calls.
    #[tactic(auto, unfolding(coordinator::specs::Phases::column))]
    pub fn column(&self, branch: u32) -> Column
        ensures { result ≡ phases.column self.now.family branch }
    {
        if branch == TOP {
            self.phase().column()
        } else if self.is_ending(branch) {
            Column::Past
        } else {
            live_column(self.tree.status_at(branch))
        }
    }

    /// Whether the parent of a transaction has ended.
    pub fn has_parent_ended(&self, branch: u32) -> bool
        ensures { result ≡ phases.has_parent_ended self.now.family branch }
    {
        match self.tree.parent_at(branch) {
            Some(parent) => self.has_ended(parent),
            None => false,
        }
    }

    /// Whether it has ended as a parent: it was rolled back, or the top-level transaction has gone past its commit's
    /// beginning.
    fn has_ended(&self, parent: u32) -> bool
        ensures { result ≡ phases.has_ended self.now.family parent }
    {
        if parent == TOP {
            matches!(self.stage, Stage::Completing | Stage::Over)
        } else {
            !self.tree.is_live_at(parent)
        }
    }

    /// Whether the top-level transaction has ended, and no call is under way.
    pub fn is_finished(&self) -> bool
        ensures { result ≡ steps.is_finished self.now.family }
    {
        match self.stage {
            Stage::Over => self.tally.calls == 0,
            _ => false,
        }
    }

    /// The place at which the decision record stands.
    #[tactic(auto, using(crate::proofs::Unroomed::unroomed_record_place))]
    pub fn record_place(&self) -> Option<u32>
        ensures { result ≡ stages.record_place (self.now.family).completion }
    {
        self.completion.record_place()
    }

    /// Puts the registrations that are still to be told to commit behind those of a list.
    #[tactic(auto, using(crate::proofs::Unroomed::unroomed_pending_commits))]
    pub fn pending_commits(&self, into: &mut Vec<u32>) -> Result<(), AllocError>
        ensures { OnOk result (into.new.items ≡ into.old.items
            ++ stages.pending_commits (self.now.family).completion) }
    {
        self.completion.pending_commits(into)
    }

    /// Puts the registrations that are still to be told to forget behind those of a list.
    #[tactic(auto, using(crate::proofs::Unroomed::unroomed_pending_forgets))]
    pub fn pending_forgets(&self, into: &mut Vec<u32>) -> Result<(), AllocError>
        ensures { OnOk result (into.new.items ≡ into.old.items
            ++ stages.pending_forgets (self.now.family).completion) }
    {
        self.completion.pending_forgets(into)
    }

    /// Whether there is this transaction.
    pub fn has_branch(&self, branch: u32) -> bool
        ensures { result ≡ table.has_branch self.now.family branch }
    {
        branch < self.tree.count()
    }
}

/// Whether a call is under way at this place.
fn has_call(seats: &[Seat], place: usize) -> bool
    ensures { result ≡ calls.has_call seats.now place }
{
    match seats.get(place) {
        Some(seat) => seat.call.is_some(),
        None => false,
    }
}

/// How a subtransaction with this status stands, whose commit isn't under way.
fn live_column(status: Option<Status>) -> Column
    ensures { result ≡ phases.live_column status }
{
    match status {
        Some(Status::Active) => Column::Active,
        Some(Status::MarkedRollback) => Column::Marked,
        Some(Status::RolledBack) => Column::RolledBack,
        _ => Column::Past,
    }
}
