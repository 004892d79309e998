// The step of an event that asks the journal for what is wanted in it.
ghost use Rattle.std.specs.Prelude.{◌≡◌, ◌<◌, ◌≤◌, ◌+◌, ℕ, length, Some, true, false, IfSome};
ghost use Rattle.std.specs.Option.{option_map};
ghost use Rattle.std.specs.Vec.{vec_items};
ghost use Rattle.coordinator.specs.Hearing.{decision_record, settles};
ghost use Rattle.coordinator.specs.Moves.{◌▹◌};
ghost use Rattle.coordinator.specs.Running.{goes_on};
ghost use Rattle.coordinator.specs.Step as steps;
ghost use Rattle.family_laws.specs.Sound.{IsSoundFamily};
ghost use Rattle.family_rules.specs.Going.{CanGo, Does};
ghost use Rattle.family_step.specs.Asking as asking;
ghost use Rattle.family_step.specs.Asking.{HasCausedStep, HasStepped, HasVoters, HaveVoters, IsAnswered, IsAsked, IsCaused};
ghost use Rattle.family_step.specs.Reserving.{IsReadyFor, IsStocked};
ghost use Rattle.two_phase.specs.Stages as stages;

use crate::ready::Ready;
use crate::step::{conclude, step};
use coordinator::{Act, Said, StepAnswer};
use decision_journal::{Journal, JournalFault, Registration};
use family_rules::{Draft, State};
use ots_model::{Doubted, Stood};
use ots_outside::Disk;
use recovery_coord::Outbox;
use two_phase::the_last_answer_decides;

/// A step, which asks the journal for what is wanted in it.
pub(crate) fn step_asking<D: Disk>(
    state: &mut State,
    ready: Ready,
    journal: &mut Journal<D>,
    out: &mut Outbox,
) -> StepAnswer
    requires ready { IsStocked state.old ready }
    requires sound { IsSoundFamily state.old.family }
    requires given { asking.is_reread ready.event.act ≡ false }
    requires room { 0 < out.old.room }
    ensures stepped { HasStepped D.told D.faults state.old.family ready.event journal.old journal.new
        state.new.family result out.old.words out.new.words }
    ensures caused { HasCausedStep D.wants_memory (D.told journal.new.disk)
        (D.faults journal.old.disk) (D.faults journal.new.disk) state.old.family ready.event state.new.family }
    ensures later { D.faults journal.old.disk ≤ D.faults journal.new.disk }
    ensures serial { (state.new.family).serial ≤ length (state.new.family).entries }
{
    match hearer(state, &ready) {
        Some(branch) => carry_on(state, branch, ready, journal, out),
        None => step(state, ready, None, out),
    }
}

/// The transaction whose call waits for the answer that an event brings, where it is no call that comes again.
fn hearer(state: &State, ready: &Ready) -> Option<u32>
    requires ready { IsReadyFor ready.now.event state.now.family ready.now }
    ensures { result ≡ asking.hearer ready.now.event state.now.family }
{
    if ready.answered.is_some() {
        return None;
    }
    match &ready.event.act {
        Act::Answer(number, _) => state.waiting_for(number),
        _ => None,
    }
}

/// An answer is heard for which the call of this transaction waits. Then the journal is asked, and the call goes on.
fn carry_on<D: Disk>(
    state: &mut State,
    branch: u32,
    ready: Ready,
    journal: &mut Journal<D>,
    out: &mut Outbox,
) -> StepAnswer
    requires hearer { asking.hearer ready.event state.old.family ≡ Some branch }
    requires ready { IsStocked state.old ready }
    requires sound { IsSoundFamily state.old.family }
    requires room { 0 < out.old.room }
    ensures stepped { HasStepped D.told D.faults state.old.family ready.event journal.old journal.new
        state.new.family result out.old.words out.new.words }
    ensures caused { HasCausedStep D.wants_memory (D.told journal.new.disk)
        (D.faults journal.old.disk) (D.faults journal.new.disk) state.old.family ready.event state.new.family }
    ensures later { D.faults journal.old.disk ≤ D.faults journal.new.disk }
    ensures serial { (state.new.family).serial ≤ length (state.new.family).entries }
{
    the_last_answer_decides();
    let mut ready = ready;
    let position = state.entry_count();
    let stood = hear_and_go_on(
        state,
        branch,
        &ready.event.act,
        ready.named.take(),
        journal,
        &mut ready.draft,
    );
    conclude(state, position, ready, stood, Said::Plain, out)
}

/// An answer is heard by the call of this transaction. Then the journal is asked, where a decision record names some of these, and
/// the call goes on.
fn hear_and_go_on<D: Disk>(
    state: &mut State,
    branch: u32,
    act: &Act,
    named: Option<Vec<Registration>>,
    journal: &mut Journal<D>,
    out: &mut Draft,
) -> Option<Stood>
    requires waits { asking.waits_for act.now state.old.family ≡ Some branch }
    requires named { stages.wants_decision (asking.hears_act act.now branch state.old.family).family.completion ≡ true
        → HasVoters (option_map vec_items named) (asking.hears_act act.now branch state.old.family).family }
    requires can { CanGo (length (state.old.family).rows + 8) state.old.family out.old }
    ensures asked { IsAsked D.told D.faults (steps.wanted_by (asking.hears_act act.now branch state.old.family).family)
        journal.old journal.new result }
    ensures cause { IfSome result (IsCaused D.wants_memory (D.told journal.new.disk)
        (D.faults journal.old.disk) (D.faults journal.new.disk)) }
    ensures later { D.faults journal.old.disk ≤ D.faults journal.new.disk }
    ensures does { Does state.old.family out.old
        (λ f. asking.hears_act act.now branch f ▹ settles result ▹ goes_on branch) state.new.family out.new }
    ensures kept { state.old.history_room ≤ state.new.history_room }
{
    hear(state, branch, act, out);
    let stood = ask(state, named, journal);
    state.settle(stood, out);
    state.go_on(branch, out);
    stood
}

/// The answer that an act brings is heard by the call of this transaction.
fn hear(state: &mut State, branch: u32, act: &Act, out: &mut Draft)
    requires waits { asking.waits_for act.now state.old.family ≡ Some branch }
    requires can { CanGo 2 state.old.family out.old }
    ensures moved { Does state.old.family out.old (asking.hears_act act.now branch) state.new.family out.new }
    ensures can { (n : ℕ) → CanGo (n + 2) state.old.family out.old → CanGo n state.new.family out.new }
    ensures count { length (state.new.family).rows ≡ length (state.old.family).rows }
    ensures kept { state.old.history_room ≤ state.new.history_room }
{
    if let Act::Answer(number, heard) = act {
        state.hear(branch, number, heard, out);
    }
}

/// The journal is asked for what a family wants of it that has heard an answer, where a decision record names some of these.
fn ask<D: Disk>(
    state: &State,
    named: Option<Vec<Registration>>,
    journal: &mut Journal<D>,
) -> Option<Stood>
    requires named { stages.wants_decision (state.now.family).completion ≡ true
        → HasVoters (option_map vec_items named) state.now.family }
    ensures asked { IsAsked D.told D.faults (steps.wanted_by state.now.family) journal.old journal.new result }
    ensures cause { IfSome result (IsCaused D.wants_memory (D.told journal.new.disk)
        (D.faults journal.old.disk) (D.faults journal.new.disk)) }
    ensures later { D.faults journal.old.disk ≤ D.faults journal.new.disk }
{
    if state.wants_decision() {
        Some(ask_decision(state, named.unwrap(), journal))
    } else if state.wants_done() {
        ask_closing(state.record_place(), journal)
    } else {
        None
    }
}

/// The journal is asked for the decision.
fn ask_decision<D: Disk>(state: &State, named: Vec<Registration>, journal: &mut Journal<D>) -> Stood
    requires voters { HaveVoters named.items state.now.family }
    ensures answered { IsAnswered D.told D.faults (steps.Appends (decision_record state.now.family))
        journal.old journal.new result }
    ensures cause { IsCaused D.wants_memory (D.told journal.new.disk)
        (D.faults journal.old.disk) (D.faults journal.new.disk) result }
    ensures later { D.faults journal.old.disk ≤ D.faults journal.new.disk }
{
    let mut named = named;
    state.keep_named(&mut named);
    let item = state.decision(named);
    let before = journal.disk().fault_count();
    match journal.append(item) {
        Ok(place) => Stood::Stands(place),
        Err(fault) => stood_by(fault, before, journal.disk().fault_count()),
    }
}

/// The journal is asked for the Done of the record at this place, where there is one.
fn ask_closing<D: Disk>(place: Option<u32>, journal: &mut Journal<D>) -> Option<Stood>
    ensures asked { IsAsked D.told D.faults (option_map steps.WritesDone place) journal.old journal.new result }
    ensures cause { IfSome result (IsCaused D.wants_memory (D.told journal.new.disk)
        (D.faults journal.old.disk) (D.faults journal.new.disk)) }
    ensures later { D.faults journal.old.disk ≤ D.faults journal.new.disk }
{
    match place {
        Some(place) => Some(ask_done(place, journal)),
        None => None,
    }
}

/// The journal is asked for the Done of the record at this place.
fn ask_done<D: Disk>(place: u32, journal: &mut Journal<D>) -> Stood
    ensures answered { IsAnswered D.told D.faults (steps.WritesDone place) journal.old journal.new result }
    ensures cause { IsCaused D.wants_memory (D.told journal.new.disk)
        (D.faults journal.old.disk) (D.faults journal.new.disk) result }
    ensures later { D.faults journal.old.disk ≤ D.faults journal.new.disk }
{
    let before = journal.disk().fault_count();
    match journal.done(place) {
        Ok(()) => Stood::Stands(place),
        Err(fault) => stood_by(fault, before, journal.disk().fault_count()),
    }
}

/// What a refusal of the journal says of a record, where the disk's count of faults was and is so.
fn stood_by(fault: JournalFault, before: u64, after: u64) -> Stood
    ensures { result ≡ asking.stood_by fault before after }
{
    match fault {
        JournalFault::Full { used, need } => Stood::Full(used, need),
        JournalFault::BadHeader(place) | JournalFault::BadRecord(place) => {
            Stood::Unsure(Doubted::Damaged(place))
        }
        JournalFault::Memory => Stood::Unsure(Doubted::Starved),
        JournalFault::DiskFault | JournalFault::LivesSpent => {
            Stood::Unsure(Doubted::Counted(before, after))
        }
    }
}
