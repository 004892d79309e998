// One step of a family, in memory that was taken before it.
ghost use Rattle.std.specs.Prelude.{◌≡◌, ◌<◌, ◌≤◌, ◌++◌, [], length, Some, None, true, is_some, IfSome};
ghost use Rattle.std.specs.Option.{option_to_list};
ghost use Rattle.coordinator.specs.History as history;
ghost use Rattle.coordinator.specs.Limits.{history_limit};
ghost use Rattle.coordinator.specs.NodeCalls.{answer_of};
ghost use Rattle.coordinator.specs.Step as steps;
ghost use Rattle.family_rules.specs.Changes.{IsReplied, nothing_yet};
ghost use Rattle.family_step.specs.Acting.{brings, name_of_said};
ghost use Rattle.family_step.specs.Reserving.{IsReadyFor, IsStocked};

use crate::acting::{Given, act};
use crate::ready::Ready;
use crate::table::has_timed_out;
use coordinator::{Act, Entry, Event, Said, StepAnswer};
use family_rules::{Draft, State};
use ots_model::tree::Outward;
use ots_model::{Octets, Stood};
use recovery_coord::Outbox;

/// A step, where this is what the journal answers in it.
#[tactic(auto, unfolding(coordinator::specs::Step::family_step))]
pub(crate) fn step(
    state: &mut State,
    ready: Ready,
    stood: Option<Stood>,
    out: &mut Outbox,
) -> StepAnswer
    requires ready { IsStocked state.old ready }
    requires room { 0 < out.old.room }
    ensures family { state.new.family
        ≡ (steps.family_step state.old.family ready.event stood).family }
    ensures answer { result
        ≡ answer_of state.old.family (steps.family_step state.old.family ready.event stood) }
    ensures words { out.new.words
        ≡ out.old.words ++ (steps.family_step state.old.family ready.event stood).words }
    ensures serial { (state.new.family).serial ≤ length (state.new.family).entries }
{
    let position = state.entry_count();
    if ready.answered.is_some() {
        return repeat(state, position, ready);
    }
    if is_silent(state, &ready.event) {
        return quiet(position, Said::Plain, ready.draft);
    }
    carry_out(state, position, ready, stood, out)
}

/// Whether an event makes no entry.
pub(crate) fn is_silent(state: &State, event: &Event) -> bool
    ensures { result ≡ steps.is_silent event.entry.now state.now.family }
{
    match &event.act {
        Act::Answer(number, _) => state.waiting_for(number).is_none(),
        Act::Tick => !has_timed_out(state, event.now),
        _ => false,
    }
}

/// A call that comes again is answered as it was, or told to try again while it has no answer.
fn repeat(state: &State, position: u32, ready: Ready) -> StepAnswer
    requires position { position ≡ length (state.now.family).entries }
    requires ready { IsReadyFor ready.event state.now.family ready }
    requires known { is_some (history.kept_for (state.now.family).entries ready.event.key) ≡ true }
    ensures { result
        ≡ answer_of state.now.family (steps.step_by (history.kept_for (state.now.family).entries ready.event.key)
        state.now.family ready.event None) }
{
    let _ = state;
    let Ready {
        answered,
        draft,
        ..
    } = ready;
    let said = match answered {
        Some(said) => repeated(said),
        None => Said::Plain,
    };
    quiet(position, said, draft)
}

/// What a repeat is answered, where this was answered before.
fn repeated(said: Said) -> Said
    ensures { result ≡ history.repeated said }
{
    if said.is_later() {
        Said::Transient
    } else {
        said
    }
}

/// Nothing but an answer.
fn quiet(position: u32, said: Said, draft: Draft) -> StepAnswer
    requires nothing { draft.changes ≡ (nothing_yet 0 0).changes }
    ensures { result
        ≡ record { position = position; said = said; finished = []; effects = [] } }
{
    let brought = draft.brought(position);
    StepAnswer {
        position,
        said,
        finished: brought.told,
        effects: brought.effects,
    }
}

/// An event is carried out, and makes an entry.
fn carry_out(
    state: &mut State,
    position: u32,
    ready: Ready,
    stood: Option<Stood>,
    out: &mut Outbox,
) -> StepAnswer
    requires position { position ≡ length (state.old.family).entries }
    requires ready { IsStocked state.old ready }
    requires new { history.kept_for (state.old.family).entries ready.event.key ≡ None }
    requires room { 0 < out.old.room }
    ensures family { state.new.family ≡ (steps.entered state.old.family ready.event stood
        (steps.acted ready.event stood state.old.family)).family }
    ensures answer { result ≡ answer_of state.old.family (steps.entered state.old.family ready.event stood
        (steps.acted ready.event stood state.old.family)) }
    ensures words { out.new.words ≡ out.old.words ++ (steps.entered state.old.family ready.event stood
        (steps.acted ready.event stood state.old.family)).words }
    ensures serial { (state.new.family).serial ≤ length (state.new.family).entries }
{
    let mut ready = ready;
    let mut given = Given {
        to: ready.to.take(),
        name: ready.name.take(),
    };
    let said = act(state, &ready.event, stood, &mut given, &mut ready.draft);
    drop(given);
    conclude(state, position, ready, stood, said, out)
}

/// A step has brought all, and makes its entry, where this is what the journal answered in it and what is said unless its call
/// has ended.
pub(crate) fn conclude(
    state: &mut State,
    position: u32,
    ready: Ready,
    stood: Option<Stood>,
    said: Said,
    out: &mut Outbox,
) -> StepAnswer
    requires position { position ≡ length (state.old.family).entries }
    requires few { length (state.old.family).entries < history_limit }
    requires history { 0 < state.old.history_room }
    requires room { 0 < out.old.room }
    requires name { (y : Said) → IsReplied said y → IfSome (name_of_said y) (λ octets. ready.name_again ≡ Some octets) }
    ensures family { state.new.family ≡ (steps.entered state.old.family ready.event stood
        (brings state.old.family ready.draft said)).family }
    ensures answer { result ≡ answer_of state.old.family (steps.entered state.old.family ready.event stood
        (brings state.old.family ready.draft said)) }
    ensures words { out.new.words ≡ out.old.words ++ (steps.entered state.old.family ready.event stood
        (brings state.old.family ready.draft said)).words }
    ensures serial { (state.new.family).serial ≤ length (state.new.family).entries }
{
    let said = ready.draft.said_now(position, said);
    let said_again = again(&said, ready.name_again);
    let brought = ready.draft.brought(position);
    put_word(brought.word, out);
    state.keep(brought.spare);
    state.enter(Entry {
        event: ready.event,
        stood,
        said: said_again,
        finished: brought.kept,
    });
    StepAnswer {
        position,
        said,
        finished: brought.told,
        effects: brought.effects,
    }
}

/// A word goes out, where there is one.
fn put_word(word: Option<Outward>, out: &mut Outbox)
    requires room { 0 < out.old.room }
    ensures { out.new.words ≡ out.old.words ++ option_to_list word }
{
    if let Some(word) = word {
        out.put(word);
    }
}

/// The same. It needs no memory, since a name is given for one that is said.
pub(crate) fn again(said: &Said, name: Option<Octets>) -> Said
    requires name { IfSome (name_of_said said.now) (λ octets. name ≡ Some octets) }
    ensures { result ≡ said.now }
{
    match said {
        Said::Plain => Said::Plain,
        Said::Flag(yes) => Said::Flag(*yes),
        Said::State(status) => Said::State(*status),
        Said::Number(number) => Said::Number(*number),
        Said::Name(_) => Said::Name(name.unwrap()),
        Said::Made(number) => Said::Made(*number),
        Said::Voted(vote) => Said::Voted(*vote),
        Said::Later => Said::Later,
        Said::TransactionRolledBack => Said::TransactionRolledBack,
        Said::HeuristicMixed => Said::HeuristicMixed,
        Said::HeuristicHazard => Said::HeuristicHazard,
        Said::HeuristicRollback => Said::HeuristicRollback,
        Said::HeuristicCommit => Said::HeuristicCommit,
        Said::CommFailure => Said::CommFailure,
        Said::PersistStore => Said::PersistStore,
        Said::NoMemory => Said::NoMemory,
        Said::InvalidTransaction => Said::InvalidTransaction,
        Said::Inactive => Said::Inactive,
        Said::NotPrepared => Said::NotPrepared,
        Said::Transient => Said::Transient,
        Said::Unavailable => Said::Unavailable,
        Said::NotSubtransaction => Said::NotSubtransaction,
        Said::SynchronizationUnavailable => Said::SynchronizationUnavailable,
        Said::SubtransactionsUnavailable => Said::SubtransactionsUnavailable,
        Said::NoResources => Said::NoResources,
        Said::ObjectNotExist => Said::ObjectNotExist,
        Said::NoImplement => Said::NoImplement,
    }
}
