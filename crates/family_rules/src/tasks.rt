// What a call has to tell: it is gathered when a subtransaction ends, and told one by one.
ghost use Rattle.std.specs.Prelude.{◌≡◌, ◌<◌, ◌≤◌, ◌+◌, ◌*◌, ◌++◌, ◌∷◌, [], List, ℕ, length, map, position, Some, None, IsSome, IfSome, IsTrue};
ghost use Rattle.std.specs.List.{slice_get};
ghost use Rattle.std.specs.Option.{option_and_then};
ghost use Rattle.std.specs.VecDeque.{deque_capacity, deque_len};
ghost use Rattle.ots_model.specs.Limits.{registration_limit};
ghost use Rattle.resource_votes.specs.Ballots.{numbered};
ghost use Rattle.txn_tree.specs.Rows.{is_live_branch};
ghost use Rattle.family_rules.specs.declared.call.Call.{Call as KeptCall};
ghost use Rattle.family_rules.specs.Changes.{with_tasks};
ghost use Rattle.family_rules.specs.Calls as calls;
ghost use Rattle.family_rules.specs.Calls.{AreTasks, Sees, duties_in, duty_in, plain_call};
ghost use Rattle.coordinator.specs.Family as families;
ghost use Rattle.coordinator.specs.Family.{Duty};
ghost use Rattle.family_rules.specs.Going.{CanGo, Does};
ghost use Rattle.coordinator.specs.Moves as moves;
ghost use Rattle.coordinator.specs.Running as running;

use crate::call::{Call, Reply, Seat, Task};
use crate::draft::Draft;
use crate::state::State;
use coordinator::{Effect, Ending, Leg};
use ots_model::tree::{Parent, Word};
use ots_model::{CallNumber, PhaseWord};
use resource_votes::{Votes, Walk};
use std::collections::VecDeque;
use std::mem;

impl State {
    /// The call of a transaction.
    pub(crate) fn call_of(&self, branch: u32) -> Option<Call>
        ensures seen { Sees result (families.call_at self.now.family branch) }
        ensures there { IsSome result → branch < length (self.now.family).rows }
    {
        kept_call(&self.seats, branch as usize)
    }

    /// The caller of a call under way changes, and which word of it is out.
    pub(crate) fn change_call(&mut self, branch: u32, caller: Option<u32>, out: Option<u32>)
        requires there { branch < length (self.old.family).rows }
        ensures does { self.new.family
            ≡ calls.changed_in (families.call_at self.old.family branch) branch caller out self.old.family }
        ensures kept { self.old.history_room ≤ self.new.history_room }
    {
        let seat = &mut self.seats[branch as usize];
        let before = seat.awaited();
        set_out(seat, caller, out);
        self.outs.change(branch, before, seat.awaited());
    }

    /// A call under way goes on with the completion.
    pub(crate) fn begin_deciding(&mut self, branch: u32)
        requires there { branch < length (self.old.family).rows }
        ensures does { self.new.family
            ≡ calls.deciding_in (families.call_at self.old.family branch) branch self.old.family }
        ensures kept { self.old.history_room ≤ self.new.history_room }
    {
        set_deciding(&mut self.seats[branch as usize]);
    }

    /// The branch whose call has the word with this number out.
    pub fn waiting_for(&self, number: &CallNumber) -> Option<u32>
        ensures { result ≡ families.waiting_for self.now.family number.now }
    {
        if self.is_own_number(number) {
            self.waiting_at(number.serial)
        } else {
            None
        }
    }

    /// Whether a number is one of this family's.
    fn is_own_number(&self, number: &CallNumber) -> bool
        ensures { result ≡ families.is_own_number self.now.family number.now }
    {
        number.life == self.key.life
            && number.slot == self.key.slot
            && number.generation == self.key.generation
    }

    /// The branch whose call has the word with this serial number out.
    fn waiting_at(&self, serial: u32) -> Option<u32>
        ensures { result ≡ position (families.has_out serial) (self.now.family).calls }
    {
        self.outs.first_of(serial)
    }

    /// A live subtransaction is rolled back, and a commit of it is over. What is to be told then is gathered.
    #[tactic(auto, unfolding(coordinator::specs::Running::ends_below))]
    pub(crate) fn end_below(&mut self, branch: u32, out: &mut Draft)
        requires there { branch < length (self.old.family).rows }
        requires below { 0 < branch }
        requires live { IsTrue (is_live_branch (self.old.family).rows branch) }
        requires can { CanGo 1 self.old.family out.old }
        ensures moved { Does self.old.family out.old (running.ends_below branch) self.new.family out.new }
        ensures gathered { duties_in (self.new.family).ballots.registrations out.new.changes.tasks
            ≡ running.duties_below branch self.old.family }
        ensures tasks { AreTasks (self.new.family).ballots.registrations out.new.changes.tasks }
        ensures can { (n : ℕ) → CanGo (n + 1) self.old.family out.old → out.new.changes.tasks ≡ []
            → CanGo n self.new.family out.new }
        ensures kept { self.old.history_room ≤ self.new.history_room }
    {
        let caller = self.vacate(branch, out);
        self.tree.close(branch, false);
        out.show_answered(
            Effect::SubtransactionEnded(branch, false),
            caller,
            Reply::RolledBack,
        );
        self.gather_undo(branch, out);
    }

    /// A call of a subtransaction is over. What it had left to tell of a rollback below it is gathered.
    fn vacate(&mut self, branch: u32, out: &mut Draft) -> Option<u32>
        requires there { branch < length (self.old.family).rows }
        requires empty { out.old.changes.tasks ≡ [] }
        requires room { length (running.left_by (families.call_at self.old.family branch)) ≤ out.old.tasks_room }
        ensures family { self.new.family ≡ families.without_call branch self.old.family }
        ensures caller { result ≡ running.overtaken_caller (families.call_at self.old.family branch) }
        ensures gathered { duties_in (self.new.family).ballots.registrations out.new.changes.tasks
            ≡ running.left_by (families.call_at self.old.family branch) }
        ensures tasks { AreTasks (self.new.family).ballots.registrations out.new.changes.tasks }
        ensures others { out.new.changes ≡ record out.old.changes { tasks = out.new.changes.tasks } }
        ensures room { out.new.room ≡ out.old.room }
        ensures tasks_room { out.old.tasks_room ≤ out.new.tasks_room }
        ensures kept { self.old.history_room ≤ self.new.history_room }
    {
        let seat = &mut self.seats[branch as usize];
        let had = seat.call.is_some();
        self.outs.change(branch, seat.awaited(), None);
        let caller = vacate(seat, &mut out.tasks);
        self.tally = self.tally.without_call(had);
        caller
    }

    /// Gathers the tasks of a subtransaction's rollback: to those that are told of its end, and then to its list.
    #[tactic(auto, unfolding(coordinator::specs::Running::undo_duties))]
    pub(crate) fn gather_undo(&self, branch: u32, out: &mut Draft)
        requires there { branch < length (self.now.family).rows }
        requires tasks { AreTasks (self.now.family).ballots.registrations out.old.changes.tasks }
        requires room { length out.old.changes.tasks + 2 * registration_limit ≤ out.old.tasks_room }
        ensures gathered { duties_in (self.now.family).ballots.registrations out.new.changes.tasks
            ≡ duties_in (self.now.family).ballots.registrations out.old.changes.tasks
            ++ running.undo_duties (self.now.family).ballots branch }
        ensures tasks { AreTasks (self.now.family).ballots.registrations out.new.changes.tasks }
        ensures others { out.new ≡ with_tasks out.new.changes.tasks out.old }
    {
        let _ = self.tree.count();
        self.gather_aware(branch, Ending::TellsRollback, out);
        add_undo(self.votes.participants(branch), &mut out.tasks);
    }

    /// Gathers a task for each resource that is told of the end of a subtransaction.
    pub(crate) fn gather_aware(&self, branch: u32, ending: Ending, out: &mut Draft)
        requires tasks { AreTasks (self.now.family).ballots.registrations out.old.changes.tasks }
        requires room { length out.old.changes.tasks + registration_limit ≤ out.old.tasks_room }
        ensures gathered { duties_in (self.now.family).ballots.registrations out.new.changes.tasks
            ≡ duties_in (self.now.family).ballots.registrations out.old.changes.tasks
            ++ map (running.duty_to ending) (running.aware_of (self.now.family).ballots branch) }
        ensures tasks { AreTasks (self.now.family).ballots.registrations out.new.changes.tasks }
        ensures more { length out.new.changes.tasks ≤ length out.old.changes.tasks + registration_limit }
        ensures others { out.new ≡ with_tasks out.new.changes.tasks out.old }
    {
        add_aware(&self.votes, branch, ending, &mut out.tasks);
    }

    /// The first task that was gathered goes out, and the call keeps the others.
    #[tactic(auto, unfolding(coordinator::specs::Moves::sends))]
    pub(crate) fn tell_gathered(&mut self, branch: u32, call: Call, out: &mut Draft)
        requires there { branch < length (self.old.family).rows }
        requires serial { (self.old.family).serial ≤ length (self.old.family).entries }
        requires quiet { out.old.changes.words ≡ [] }
        requires some { 0 < length out.old.changes.tasks }
        requires tasks { AreTasks (self.old.family).ballots.registrations out.old.changes.tasks }
        ensures does { (d : Duty) (others : List Duty)
            → duties_in (self.old.family).ballots.registrations out.old.changes.tasks ≡ d ∷ others
            → Does self.old.family out.old
            (moves.sends branch (record (plain_call call) { left = others }) (running.duty_notice d) None)
            self.new.family out.new }
        ensures kept { self.old.history_room ≤ self.new.history_room }
    {
        let task = out.tasks.pop_front().unwrap();
        self.keep_gathered(branch, call, out);
        self.post_task(branch, call.caller, task, out);
    }

    /// A call keeps the tasks that were gathered.
    #[tactic(auto, using(crate::proofs::Tallied::few_open))]
    fn keep_gathered(&mut self, branch: u32, call: Call, out: &mut Draft)
        requires there { branch < length (self.old.family).rows }
        requires tasks { AreTasks (self.old.family).ballots.registrations out.old.changes.tasks }
        ensures family { self.new.family ≡ families.with_call branch (record (plain_call call) {
          left = duties_in (self.old.family).ballots.registrations out.old.changes.tasks;
        }) self.old.family }
        ensures call { families.call_at self.new.family branch ≡ Some (record (plain_call call) {
          left = duties_in (self.old.family).ballots.registrations out.old.changes.tasks;
        }) }
        ensures others { out.new.changes ≡ record out.old.changes { tasks = out.new.changes.tasks } }
        ensures kept { self.old.history_room ≤ self.new.history_room }
    {
        let tasks = out.tasks.len();
        let seat = &mut self.seats[branch as usize];
        let had = seat.call.is_some();
        self.outs.change(branch, seat.awaited(), call.out);
        mem::swap(&mut seat.left, &mut out.tasks);
        seat.call = Some(Call { owes: true, ..call });
        let called = self.tally.with_call(had);
        self.tally = called.with_tasks(tasks);
    }

    /// Whether a call has something left to tell.
    pub(crate) fn has_left(&self, branch: u32) -> bool
        ensures { result ≡ calls.has_left self.now.family branch }
    {
        keeps_tasks(&self.seats, branch as usize)
    }

    /// The first task that a call has left, which it has no more.
    pub(crate) fn take_left(&mut self, branch: u32) -> Option<Task>
        requires there { branch < length (self.old.family).rows }
        ensures first { option_and_then (duty_in (self.old.family).ballots.registrations) result
            ≡ slice_get (calls.left_at self.old.family branch) 0 }
        ensures rest { self.new.family
            ≡ calls.told_in (families.call_at self.old.family branch) branch self.old.family }
        ensures there { IfSome result (λ t.
            IsSome (numbered (self.old.family).ballots.registrations t.registration)) }
        ensures kept { self.old.history_room ≤ self.new.history_room }
    {
        take_task(&mut self.seats[branch as usize])
    }

    /// The word of a task goes out, and the call waits for the answer.
    pub(crate) fn post_task(
        &mut self,
        branch: u32,
        caller: Option<u32>,
        task: Task,
        out: &mut Draft,
    )
        requires there { branch < length (self.old.family).rows }
        requires serial { (self.old.family).serial ≤ length (self.old.family).entries }
        requires quiet { out.old.changes.words ≡ [] }
        requires task { IsSome (numbered (self.old.family).ballots.registrations task.registration) }
        ensures family { self.new.family ≡ calls.changed_in (families.call_at self.old.family branch) branch caller
            (Some ((self.old.family).serial + 1))
            (record self.old.family { serial = (self.old.family).serial + 1 }) }
        ensures sent { (d : Duty) → duty_in (self.old.family).ballots.registrations task ≡ Some d
            → out.new.changes ≡ record out.old.changes {
              words = moves.outward self.old.family (running.duty_notice d) None ∷ [];
            } }
        ensures kept { self.old.history_room ≤ self.new.history_room }
    {
        let number = self.next_number();
        let registration = self.votes.registration(task.registration).unwrap();
        out.post(number, word_of(task.ending), registration);
        self.serial += 1;
        let out = Some(self.serial);
        self.change_call(branch, caller, out);
    }
}

/// The call of the seat at this place.
fn kept_call(seats: &[Seat], place: usize) -> Option<Call>
    ensures { result ≡ calls.call_kept seats.now place }
{
    match seats.get(place) {
        Some(seat) => seat.call,
        None => None,
    }
}

/// Whether the call of the seat at this place has something left to tell.
fn keeps_tasks(seats: &[Seat], place: usize) -> bool
    ensures { result ≡ calls.keeps_tasks seats.now place }
{
    match seats.get(place) {
        Some(seat) => match seat.call {
            Some(call) => call.owes && !seat.left.is_empty(),
            None => false,
        },
        None => false,
    }
}

/// The caller of a seat's call changes, and which word of it is out.
fn set_out(seat: &mut Seat, caller: Option<u32>, out: Option<u32>)
    ensures { seat.new ≡ calls.changed_seat caller out seat.old }
{
    if let Some(call) = seat.call {
        seat.call = Some(Call {
            caller,
            out,
            ..call
        });
    }
}

/// A seat's call goes on with the completion.
fn set_deciding(seat: &mut Seat)
    ensures { seat.new ≡ calls.deciding_seat seat.old }
{
    if let Some(call) = seat.call {
        let leg = Leg::Deciding;
        seat.call = Some(Call { leg, ..call });
    }
}

/// The first task that a seat's call has left.
fn take_task(seat: &mut Seat) -> Option<Task>
    ensures call { seat.new.call ≡ seat.old.call }
    ensures first { result ≡ slice_get (calls.owed seat.old) 0 }
    ensures left { seat.new.left.items ≡ calls.left_behind seat.old }
{
    let call = seat.call?;
    if !call.owes {
        return None;
    }
    seat.left.pop_front()
}

/// A seat's call is over. What it has left of a rollback below it is put behind these tasks. Answers its caller.
fn vacate(seat: &mut Seat, tasks: &mut VecDeque<Task>) -> Option<u32>
    requires room { deque_len tasks.old + length (calls.owed_below seat.old) ≤ deque_capacity tasks.old }
    ensures caller { result ≡ option_and_then (λ (k : KeptCall). k.caller) seat.old.call }
    ensures vacant { seat.new.call ≡ None }
    ensures tasks { tasks.new.items ≡ tasks.old.items ++ calls.owed_below seat.old }
    ensures left { seat.new.left.items ≡ calls.left_below_it seat.old }
    ensures capacity { deque_capacity tasks.old ≤ deque_capacity tasks.new }
{
    let call = seat.call?;
    seat.call = None;
    if call.owes && matches!(call.leg, Leg::Below) {
        let _ = tasks.append(&mut seat.left);
    }
    call.caller
}

/// A task to roll back each of these.
fn add_undo(participants: Walk<'_>, tasks: &mut VecDeque<Task>)
    requires room { deque_len tasks.old + length participants ≤ deque_capacity tasks.old }
    ensures items { tasks.new.items
        ≡ tasks.old.items ++ map (calls.task_to Ending.RollsBackUpdates) participants.entry }
    ensures capacity { deque_capacity tasks.new ≡ deque_capacity tasks.old }
{
    for registration in participants {
        tasks.push_back_reserved(Task {
            ending: Ending::RollsBackUpdates,
            registration: registration.index,
        });
    }
}

/// A task for each resource that is told of the end of this subtransaction.
fn add_aware(votes: &Votes, branch: u32, ending: Ending, tasks: &mut VecDeque<Task>)
    requires tasks { AreTasks votes.now.ballots.registrations tasks.old.items }
    requires room { deque_len tasks.old + registration_limit ≤ deque_capacity tasks.old }
    ensures gathered { duties_in votes.now.ballots.registrations tasks.new.items
        ≡ duties_in votes.now.ballots.registrations tasks.old.items
        ++ map (running.duty_to ending) (running.aware_of votes.now.ballots branch) }
    ensures tasks { AreTasks votes.now.ballots.registrations tasks.new.items }
    ensures few { deque_len tasks.new ≤ deque_len tasks.old + registration_limit }
    ensures capacity { deque_capacity tasks.new ≡ deque_capacity tasks.old }
{
    for place in 0..votes.count() {
        let registration = place + 1;
        if !is_aware(votes, registration, branch) {
            continue;
        }
        tasks.push_back_reserved(Task {
            ending,
            registration,
        });
    }
}

/// Whether the registration with this number is told of the end of this subtransaction.
fn is_aware(votes: &Votes, number: u32, branch: u32) -> bool
    ensures { result ≡ calls.is_aware_at votes.now.ballots branch number }
{
    match votes.registration(number) {
        Some(registration) => registration.aware && registration.branch == branch,
        None => false,
    }
}

/// The word of a task.
fn word_of(ending: Ending) -> Word
    ensures { result ≡ running.word_of ending }
{
    match ending {
        Ending::TellsRollback => Word::RollbackSub,
        Ending::TellsCommit(above) => Word::CommitSub(Parent::Branch(above)),
        Ending::RollsBackUpdates => Word::Phase(PhaseWord::Rollback),
    }
}
