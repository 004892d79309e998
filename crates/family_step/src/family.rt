ghost use Rattle.std.specs.Prelude.{◌≡◌, ◌<◌, ◌≤◌, ◌↔◌, ◌++◌, None, Some, true, false, IfOk, OnOk, OnErr, IsErr, IsErrOf, IsSome, IfSome};
ghost use Rattle.std.specs.Option.{option_copied};
ghost use Rattle.coordinator.specs.Family.{new_family};
ghost use Rattle.coordinator.specs.History as history;
ghost use Rattle.coordinator.specs.NodeCalls.{answer_of};
ghost use Rattle.coordinator.specs.Phases as phases;
ghost use Rattle.coordinator.specs.Step as steps;
ghost use Rattle.family_laws.specs.Reasons.{OutcomeIsCaused};
ghost use Rattle.resource_votes.specs.Ballots as ballots;
ghost use Rattle.resource_votes.specs.Limits.{list_count};
ghost use Rattle.two_phase.specs.Stages as stages;
ghost use Rattle.family_rules.specs.Order.{AreInOrder};
ghost use Rattle.family_step.specs.Asking.{EntryIsCaused, HasStepped, is_reread};
ghost use Rattle.family_step.specs.Callers.{answered_at};

mod context;
mod naming;

use crate::asking::step_asking;
use crate::callers::Callers;
use crate::ready::{Ready, has_room, kept, make_ready};
use crate::step::{is_silent, step};
use coordinator::{Entry, Event, Phase, Said, StepAnswer, histories_grow_by_entries};
use decision_journal::Journal;
use family_laws::{families_have_causes, families_number_words, families_stay_sound};
use family_rules::State;
use ior_refs::ObjectKey;
use ots_model::{RetryKey, Stood};
use ots_outside::Disk;
use recovery_coord::Outbox;
use resource_votes::{Registration, Walk};
use std::alloc::{AllocError, Global};
use std::marker::Model;

/// A top-level transaction with its subtransactions, who is registered with them, the calls under way, and the history of
/// what happened, with an index of its retry keys. Contracts see it as the definition has it, and the event for which memory was
/// taken.
#[derive(Drop)]
pub struct Family {
    state: State,
    callers: Callers,
    ready: Option<Ready>,
}

impl Model for Family {
    ghost use Rattle.coordinator.specs.Family.{FamilyParts};

    ghost Value = { FamilyParts };

    ghost use Rattle.family_step.specs.FamilyInside.{shown, IsSound};

    ghost view = { shown };

    ghost invariant = { IsSound };
}

/// Why a step isn't made, or no memory is taken for it.
#[derive(Clone, Copy, Debug, PartialEq, Eq)]
pub enum FamilyFault {
    /// Memory ran out.
    Memory,
    /// The history has as many entries as there may be before such an event: so many.
    History(u32),
}

impl Family {
    /// The top-level transaction of a root alone. `key` is the key of its coordinator, and `deadline` the moment at which
    /// its time is over.
    pub fn new(alloc: Global, key: ObjectKey, deadline: Option<u64>) -> Result<Family, AllocError>
        ensures made { IfOk result (λ f. f ≡ record { family = new_family key deadline; ready = None }) }
    {
        families_stay_sound();
        families_have_causes();
        let state = State::new(alloc, key, deadline)?;
        let callers = Callers::new(alloc);
        Ok(Family {
            state,
            callers,
            ready: None,
        })
    }

    /// Takes memory for the step of an event, and room for its word. A call that comes again is a step also where the history
    /// is full.
    pub fn reserve(&mut self, event: &Event, out: &mut Outbox) -> Result<(), FamilyFault>
        ensures ok { OnOk result (self.new ≡ record self.old { ready = Some event.entry.now }) }
        ensures err { OnErr result (self.new ≡ self.old) }
        ensures history { IsErrOf result (FamilyFault.History (history.limit_of (event.entry.now).act))
            ↔ (history.has_room (self.old.family).entries event.entry.now ≡ false) }
        ensures memory { history.has_room (self.old.family).entries event.entry.now ≡ true
            → IsErr result → IsErrOf result FamilyFault.Memory }
        ensures words { out.new.words ≡ out.old.words }
        ensures room { OnOk result (0 < out.new.room) }
        ensures kept { out.old.room ≤ out.new.room }
    {
        if !has_room(&self.state, &self.callers, event) {
            return Err(FamilyFault::History(event.act.history_limit()));
        }
        match make_ready(&mut self.state, &mut self.callers, event, out) {
            Ok(ready) => {
                self.ready = Some(ready);
                Ok(())
            }
            Err(_) => Err(FamilyFault::Memory),
        }
    }

    /// The key with which it was made.
    pub fn key(&self) -> &ObjectKey
        ensures key { result.now ≡ (self.now.family).key }
    {
        self.state.key()
    }

    /// How far the top-level transaction has come.
    pub fn phase(&self) -> Phase
        ensures phase { result ≡ phases.phase self.now.family }
    {
        self.state.phase()
    }

    /// Whether the top-level transaction has ended, and no call is under way.
    pub fn finished(&self) -> bool
        ensures finished { result ≡ steps.is_finished self.now.family }
    {
        self.state.is_finished()
    }

    /// The place at which its decision record stands.
    pub fn record_place(&self) -> Option<u32>
        ensures place { result ≡ stages.record_place (self.now.family).completion }
    {
        self.state.record_place()
    }

    /// Puts the registrations that are still to be told to commit behind those of one list, and those that are still to be
    /// told to forget behind those of another.
    pub fn pending(&self, commits: &mut Vec<u32>, forgets: &mut Vec<u32>) -> Result<(), AllocError>
        ensures commits { OnOk result (commits.new.items ≡ commits.old.items
            ++ stages.pending_commits (self.now.family).completion) }
        ensures forgets { OnOk result (forgets.new.items ≡ forgets.old.items
            ++ stages.pending_forgets (self.now.family).completion) }
    {
        self.state.pending_commits(commits)?;
        self.state.pending_forgets(forgets)
    }

    /// Whether an event makes no entry, where it is no call that comes again: nobody waits for such an answer, or the time
    /// isn't over.
    pub fn is_silent(&self, event: &Event) -> bool
        ensures silent { result ≡ steps.is_silent event.entry.now self.now.family }
    {
        is_silent(&self.state, event)
    }

    /// Each registration has the number of its place, counted from 1, and so has each synchronization.
    pub fn in_order(&self)
        ensures registrations { AreInOrder (self.now.family).ballots.registrations }
        ensures synchronizations { AreInOrder (self.now.family).ballots.synchronizations }
    {
        self.state.in_order();
    }

    /// The registration with this number.
    pub fn registration(&self, number: u32) -> Option<&Registration>
        ensures { option_copied result ≡ ballots.numbered (self.now.family).ballots.registrations number }
    {
        self.state.registration(number)
    }

    /// The synchronization with this number.
    pub fn synchronization(&self, number: u32) -> Option<&Registration>
        ensures { option_copied result ≡ ballots.numbered (self.now.family).ballots.synchronizations number }
    {
        self.state.synchronization(number)
    }

    /// Whom a transaction asks, in the order in which it asks them.
    pub fn participants(&self, branch: u32) -> Walk<'_>
        requires there { branch < list_count }
        ensures { result ≡ ballots.participants branch (self.now.family).ballots }
    {
        self.state.participants(branch)
    }

    /// What has happened, in order.
    pub fn entries(&self) -> &[Entry]
        ensures entries { result.now ≡ (self.now.family).entries }
    {
        self.state.entries()
    }

    /// What the call with this key was answered, where there was one. Where it has no answer yet, that is `Later`.
    pub fn kept(&self, key: &RetryKey) -> Option<&Said>
        ensures kept { option_copied result ≡ history.kept (self.now.family).entries key.now }
    {
        kept(&self.state, &self.callers, key)
    }

    /// The place in the history of the first entry that has the first call with this key among those which it answers, or of
    /// that call's own entry, where none has.
    pub fn answered_at(&self, key: &RetryKey) -> Option<usize>
        ensures { result ≡ answered_at (self.now.family).entries key.now }
    {
        let call = self.callers.find(key)?;
        Some(call.answering() as usize)
    }

    /// The step of an event for which memory was taken, where it asks the journal for nothing. It takes no memory.
    pub fn step_alone(&mut self, event: &Event, out: &mut Outbox) -> StepAnswer
        requires reserved { self.old.ready ≡ Some event.now }
        requires room { 0 < out.old.room }
        requires alone { steps.wants_journal self.old.family event.now ≡ false }
        ensures family { self.new ≡ record {
          family = (steps.step_alone self.old.family event.entry.now).family;
          ready = None;
        } }
        ensures answer { result
            ≡ answer_of self.old.family (steps.step_alone self.old.family event.entry.now) }
        ensures caused { OutcomeIsCaused (self.new).family }
        ensures words { out.new.words
            ≡ out.old.words ++ (steps.step_alone self.old.family event.entry.now).words }
    {
        let _ = event;
        let answer = self.step_with(None, out);
        self.has_cause();
        answer
    }

    /// The step of the event for which memory was taken, where this is what the journal answers in it.
    fn step_with(&mut self, stood: Option<Stood>, out: &mut Outbox) -> StepAnswer
        requires reserved { IsSome self.old.ready }
        requires room { 0 < out.old.room }
        ensures family { IfSome self.old.ready (λ e. self.new ≡ record {
          family = (steps.family_step self.old.family e stood).family;
          ready = None;
        }) }
        ensures answer { IfSome self.old.ready (λ e. result
            ≡ answer_of self.old.family (steps.family_step self.old.family e stood)) }
        ensures words { IfSome self.old.ready (λ e. out.new.words
            ≡ out.old.words ++ (steps.family_step self.old.family e stood).words) }
    {
        families_stay_sound();
        families_have_causes();
        histories_grow_by_entries();
        let ready = self.ready.take().unwrap();
        let place = self.state.entry_count();
        let answer = step(&mut self.state, ready, stood, out);
        self.callers.note(self.state.entries(), place);
        answer
    }

    /// The step of an event for which memory was taken, which asks the journal for what is wanted in it. It takes no memory. No
    /// call tells a family yet that its journal was read again.
    pub fn step<D: Disk>(
        &mut self,
        journal: &mut Journal<D>,
        event: &Event,
        out: &mut Outbox,
    ) -> StepAnswer
        requires reserved { self.old.ready ≡ Some event.now }
        requires given { is_reread (event.now).act ≡ false }
        requires room { 0 < out.old.room }
        ensures stepped { HasStepped D.told D.faults self.old.family event.entry.now journal.old journal.new
            (self.new).family result out.old.words out.new.words }
        ensures cause { EntryIsCaused D.wants_memory (D.told journal.new.disk) (D.faults journal.old.disk)
            (D.faults journal.new.disk) (self.old.family).entries ((self.new).family).entries }
        ensures caused { OutcomeIsCaused (self.new).family }
        ensures later { D.faults journal.old.disk ≤ D.faults journal.new.disk }
        ensures ready { (self.new).ready ≡ None }
        ensures key { ((self.new).family).key ≡ (self.old.family).key }
    {
        families_stay_sound();
        families_have_causes();
        families_number_words();
        histories_grow_by_entries();
        let _ = event;
        let ready = self.ready.take().unwrap();
        let place = self.state.entry_count();
        let answer = step_asking(&mut self.state, ready, journal, out);
        self.callers.note(self.state.entries(), place);
        self.has_cause();
        answer
    }

    /// Takes memory for the step of an event, and makes it: `reserve` and `step` in one. Memory that was taken for an event before
    /// is given back, also where this is refused. No call tells a family yet that its journal was read again.
    pub fn apply<D: Disk>(
        &mut self,
        journal: &mut Journal<D>,
        event: &Event,
        out: &mut Outbox,
    ) -> Result<StepAnswer, FamilyFault>
        requires given { is_reread (event.now).act ≡ false }
        ensures stepped { IfOk result (λ answer. HasStepped D.told D.faults (self.old).family event.entry.now
            journal.old journal.new (self.new).family answer out.old.words out.new.words) }
        ensures cause { OnOk result (EntryIsCaused D.wants_memory (D.told journal.new.disk) (D.faults journal.old.disk)
            (D.faults journal.new.disk) ((self.old).family).entries ((self.new).family).entries) }
        ensures caused { OnOk result (OutcomeIsCaused (self.new).family) }
        ensures fits { OnOk result (history.has_room ((self.old).family).entries event.entry.now ≡ true) }
        ensures later { D.faults journal.old.disk ≤ D.faults journal.new.disk }
        ensures ready { (self.new).ready ≡ None }
        ensures key { ((self.new).family).key ≡ ((self.old).family).key }
        ensures same { OnErr result ((self.new).family ≡ (self.old).family) }
        ensures journal { OnErr result (journal.new ≡ journal.old) }
        ensures unsaid { OnErr result (out.new.words ≡ out.old.words) }
        ensures kept { OnErr result (out.old.room ≤ out.new.room) }
        ensures history { IsErrOf result (FamilyFault.History (history.limit_of (event.entry.now).act))
            ↔ (history.has_room ((self.old).family).entries event.entry.now ≡ false) }
        ensures memory { history.has_room ((self.old).family).entries event.entry.now ≡ true
            → IsErr result → IsErrOf result FamilyFault.Memory }
    {
        self.let_go();
        self.reserve(event, out)?;
        Ok(self.step(journal, event, out))
    }

    /// Where the outcome of a family is fixed, what it names stands behind it.
    fn has_cause(&self)
        ensures { OutcomeIsCaused self.now.family }
    {
        families_have_causes();
        self.state.in_order();
    }

    /// Gives back the memory that was taken for a step. Where there is none, nothing is written.
    fn let_go(&mut self)
        ensures { self.new ≡ record self.old { ready = None } }
    {
        if self.ready.is_some() {
            self.ready = None;
        }
    }
}
