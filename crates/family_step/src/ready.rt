// What is made ready for a step, so that it takes no memory.
ghost use Rattle.std.specs.Prelude.{◌≡◌, ◌+◌, ◌<◌, ◌≤◌, length, is_some, true, IfOk, OnOk};
ghost use Rattle.std.specs.Option.{option_copied, option_map};
ghost use Rattle.std.specs.Vec.{vec_items};
ghost use Rattle.coordinator.specs.History as history;
ghost use Rattle.family_rules.specs.Changes.{nothing_yet};
ghost use Rattle.family_rules.specs.Going.{CanGo};
ghost use Rattle.family_step.specs.Acting.{length_in, name_in, name_of_said, reference_in};
ghost use Rattle.family_step.specs.Asking.{AreReady, may_decide, may_want, waits_for};
ghost use Rattle.family_step.specs.Callers.{IsIndex, IsKept, answer_to, answered_later, call_for};
ghost use Rattle.family_step.specs.Reserving.{IsStocked};
ghost use Rattle.ots_model.specs.Limits.{reference_limit};

use crate::callers::{CallPlaces, Callers};
use crate::step::again;
use coordinator::{Act, Entry, Event, Finished, Said, copy_event};
use decision_journal::Registration;
use family_rules::{Draft, State};
use ots_model::{Octets, RefBytes, RetryKey};
use recovery_coord::Outbox;
use std::alloc::{AllocError, Global};

/// What was made ready for the step of an event: a copy of it, what it was answered where it is a call that comes again, the
/// reference that it registers, the name that is said, once for the caller and once for the history, whom a decision record of
/// it may name, and the memory for all else.
#[derive(Drop)]
pub(crate) struct Ready {
    pub event: Event,
    pub answered: Option<Said>,
    pub to: Option<RefBytes>,
    pub name: Option<Octets>,
    pub name_again: Option<Octets>,
    pub named: Option<Vec<Registration>>,
    pub draft: Draft,
}

impl Ready {
    /// Makes all this ready for an event, with this memory for what its step brings.
    fn new(
        draft: Draft,
        state: &State,
        callers: &Callers,
        event: &Event,
    ) -> Result<Ready, AllocError>
        requires nothing { draft.changes ≡ (nothing_yet 0 0).changes }
        requires can { CanGo (length (state.now.family).rows + 8) state.now.family draft }
        requires index { IsIndex (callers.now).places (state.now.family).entries }
        requires fits { history.has_room (state.now.family).entries event.now ≡ true }
        requires room { 0 < state.now.room }
        requires reach { length_in (event.now).act ≤ state.now.reach }
        requires history { 0 < state.now.history_room }
        ensures event { IfOk result (λ ready. ready.event ≡ event.entry.now) }
        ensures stocked { IfOk result (λ ready. IsStocked state.now ready) }
    {
        let alloc = state.allocator();
        let name = name_asked(alloc, state, event)?;
        Ok(Ready {
            event: copy_event(alloc, event)?,
            answered: copy_answer(alloc, known(state, callers, event))?,
            to: reference_of(alloc, &event.act)?,
            name_again: copy_name(alloc, &name)?,
            name,
            named: named_by(alloc, state, event)?,
            draft,
        })
    }
}

/// Takes memory for the step of an event for which the history has room, and room for its word. Nothing changes but for how
/// much memory is taken.
pub(crate) fn make_ready(
    state: &mut State,
    callers: &mut Callers,
    event: &Event,
    out: &mut Outbox,
) -> Result<Ready, AllocError>
    requires serial { (state.old.family).serial ≤ length (state.old.family).entries }
    requires index { IsIndex (callers.old).places (state.old.family).entries }
    requires fits { history.has_room (state.old.family).entries event.now ≡ true }
    ensures event { IfOk result (λ ready. ready.event ≡ event.entry.now) }
    ensures stocked { IfOk result (λ ready. IsStocked state.new ready) }
    ensures noted { OnOk result (0 < callers.new.room) }
    ensures family { state.new.family ≡ state.old.family }
    ensures room_kept { state.old.room ≤ state.new.room }
    ensures reach_kept { state.old.reach ≤ state.new.reach }
    ensures history_kept { state.old.history_room ≤ state.new.history_room }
    ensures places { IsKept callers.old.places callers.new.places }
    ensures places_room { callers.old.room ≤ callers.new.room }
    ensures words { out.new.words ≡ out.old.words }
    ensures room { OnOk result (0 < out.new.room) }
    ensures kept { out.old.room ≤ out.new.room }
{
    state.make_room(registered_length(&event.act))?;
    callers.reserve()?;
    out.reserve(1)?;
    let draft = draft_of(state)?;
    Ready::new(draft, state, callers, event)
}

/// Memory for what a step brings.
fn draft_of(state: &mut State) -> Result<Draft, AllocError>
    requires serial { (state.old.family).serial ≤ length (state.old.family).entries }
    ensures nothing { IfOk result (λ d. d.changes ≡ (nothing_yet 0 0).changes) }
    ensures can { IfOk result (λ d.
        CanGo (length (state.old.family).rows + 8) state.old.family d) }
    ensures same { state.new ≡ state.old }
{
    let room = state.branch_count() as usize + 8;
    match state.most_left().checked_add(128) {
        Some(tasks) => state.draft(room, tasks),
        None => Err(AllocError),
    }
}

/// How long the reference is that an act registers, where what it registers may be told the outcome.
fn registered_length(act: &Act) -> usize
    ensures length { result ≡ length_in act.now }
    ensures short { result ≤ reference_limit }
{
    match act {
        Act::RegisterResource(to, _) => to.bytes().len(),
        Act::RegisterSubtranAware(to) => to.bytes().len(),
        _ => 0,
    }
}

/// A copy of the reference that an act registers.
fn reference_of(alloc: Global, act: &Act) -> Result<Option<RefBytes>, AllocError>
    ensures { IfOk result (λ to. to ≡ reference_in act.now) }
{
    Ok(match act {
        Act::RegisterResource(to, _) => Some(to.copy(alloc)?),
        Act::RegisterSynchronization(to) => Some(to.copy(alloc)?),
        Act::RegisterSubtranAware(to) => Some(to.copy(alloc)?),
        _ => None,
    })
}

/// A copy of what was answered, where something was.
fn copy_answer(alloc: Global, said: Option<&Said>) -> Result<Option<Said>, AllocError>
    ensures { IfOk result (λ copy. copy ≡ option_copied said.entry) }
{
    match said {
        Some(said) => Ok(Some(again(said, name_in_answer(alloc, said)?))),
        None => Ok(None),
    }
}

/// A copy of the name that is said.
fn name_in_answer(alloc: Global, said: &Said) -> Result<Option<Octets>, AllocError>
    ensures { IfOk result (λ name. name ≡ name_of_said said.now) }
{
    match said {
        Said::Name(octets) => Ok(Some(Octets::new(alloc, octets.bytes())?)),
        _ => Ok(None),
    }
}

/// A copy of a name, where there is one.
fn copy_name(alloc: Global, name: &Option<Octets>) -> Result<Option<Octets>, AllocError>
    ensures { IfOk result (λ copy. copy ≡ name.now) }
{
    match name {
        Some(octets) => Ok(Some(Octets::new(alloc, octets.bytes())?)),
        None => Ok(None),
    }
}

/// The name for which an event asks.
fn name_asked(alloc: Global, state: &State, event: &Event) -> Result<Option<Octets>, AllocError>
    ensures { IfOk result (λ name.
        name ≡ name_in (event.entry.now).act (event.entry.now).branch state.now.family) }
{
    match &event.act {
        Act::GetTransactionName => Ok(Some(state.name_of(alloc, event.branch)?)),
        _ => Ok(None),
    }
}

/// Copies of the registrations that a decision record of this step may name, where a decision may be wanted.
fn named_by(
    alloc: Global,
    state: &State,
    event: &Event,
) -> Result<Option<Vec<Registration>>, AllocError>
    ensures { IfOk result (λ named. AreReady (option_map vec_items named) event.entry.now state.now.family) }
{
    if !may_decide(state, event) {
        return Ok(None);
    }
    Ok(Some(state.copy_participants(alloc)?))
}

/// Whether a decision may be wanted after this event.
fn may_decide(state: &State, event: &Event) -> bool
    ensures { result ≡ may_decide event.entry.now state.now.family }
{
    may_want(state) && is_waited_for(state, &event.act)
}

/// Whether a call waits for the answer that an act brings.
fn is_waited_for(state: &State, act: &Act) -> bool
    ensures { result ≡ is_some (waits_for act.now state.now.family) }
{
    match act {
        Act::Answer(number, _) => state.waiting_for(number).is_some(),
        _ => false,
    }
}

/// Whether a decision may be wanted once an answer is heard: it is the last vote, or a decision is wanted already.
fn may_want(state: &State) -> bool
    ensures { result ≡ may_want (state.now.family).completion }
{
    state.is_last_asked() || state.wants_decision()
}

/// Whether the history has room for an event, or the event is a call that comes again.
pub(crate) fn has_room(state: &State, callers: &Callers, event: &Event) -> bool
    requires index { IsIndex (callers.now).places (state.now.family).entries }
    ensures { result ≡ history.has_room (state.now.family).entries event.entry.now }
{
    call_of(callers, event).is_some() || state.entry_count() < event.act.history_limit()
}

/// Where the first call with the key of an event stands.
fn call_of(callers: &Callers, event: &Event) -> Option<CallPlaces>
    ensures { result ≡ call_for (callers.now).places (event.entry.now).key }
{
    match &event.key {
        Some(key) => callers.find(key),
        None => None,
    }
}

/// What a call was answered that comes again under its key.
fn known<'a>(state: &'a State, callers: &Callers, event: &Event) -> Option<&'a Said>
    requires index { IsIndex (callers.now).places (state.now.family).entries }
    ensures { option_copied result ≡ history.kept_for (state.now.family).entries (event.entry.now).key }
{
    match &event.key {
        Some(key) => kept(state, callers, key),
        None => None,
    }
}

/// What the call with this key was answered. Of the history its entry is read, and the one that answered it.
pub(crate) fn kept<'a>(state: &'a State, callers: &Callers, key: &RetryKey) -> Option<&'a Said>
    requires index { IsIndex (callers.now).places (state.now.family).entries }
    ensures { option_copied result ≡ history.kept (state.now.family).entries key.now }
{
    let call = callers.find(key)?;
    let entries = state.entries();
    let entry = entries.get(call.entry as usize)?;
    Some(answer_to(entries, call, entry))
}

/// What a call was answered, where this is its entry.
fn answer_to<'a>(entries: &'a [Entry], call: CallPlaces, entry: &'a Entry) -> &'a Said
    ensures { result.now ≡ answer_to entries.now call entry.now }
{
    if !entry.said.is_later() {
        return &entry.said;
    }
    match answered_later(entries, call) {
        Some(said) => said,
        None => &entry.said,
    }
}

/// What the first entry that answers a call says of it.
fn answered_later(entries: &[Entry], call: CallPlaces) -> Option<&Said>
    ensures { option_copied result ≡ answered_later entries.now call }
{
    let entry = entries.get(call.answered? as usize)?;
    answer_for(entry.finished.items(), call.entry)
}

/// The one of these answers that is for the call at a place.
fn answer_for(answers: &[Finished], at: u32) -> Option<&Said>
    ensures { option_copied result ≡ history.answer_among at answers.now }
{
    let found = answers.iter().find(|a| a.position == at)?;
    Some(&found.said)
}
