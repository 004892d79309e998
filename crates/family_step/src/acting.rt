// What an event does to a family, and what is said at once.
ghost use Rattle.std.specs.Prelude.{◌≡◌, ◌<◌, ◌≤◌, ◌+◌, length};
ghost use Rattle.coordinator.specs.Family.{call_at};
ghost use Rattle.coordinator.specs.Hearing.{settles};
ghost use Rattle.coordinator.specs.Moves.{◌▹◌};
ghost use Rattle.coordinator.specs.Running.{goes_on};
ghost use Rattle.coordinator.specs.Step as steps;
ghost use Rattle.coordinator.specs.Table as table;
ghost use Rattle.family_rules.specs.Going.{ActsBy, CanGo, Does};
ghost use Rattle.family_step.specs.Acting.{called, carried_out, is_named_there, length_in, name_in, reference_in, told};

use crate::registering::{
    create_subtransaction, register_aware, register_resource, register_synchronization,
};
use crate::table::{commit, has_terminator, mark_only, roll_back_asked, tick};
use coordinator::{Act, Event, Said};
use family_rules::{Draft, State, TOP};
use ots_model::tree::Heard;
use ots_model::{CallNumber, Octets, RefBytes, Status, Stood};

/// What was made ready for a call: the reference that it registers, and the name that it is answered.
#[derive(Drop)]
pub(crate) struct Given {
    pub to: Option<RefBytes>,
    pub name: Option<Octets>,
}

/// An event is carried out, where this is what the journal answered.
#[tactic(auto, unfolding(coordinator::specs::Step::acted))]
pub(crate) fn act(
    state: &mut State,
    event: &Event,
    stood: Option<Stood>,
    given: &mut Given,
    out: &mut Draft,
) -> Said
    requires to { given.old.to ≡ reference_in (event.now).act }
    requires fits { length_in (event.now).act ≤ state.old.reach }
    requires name { given.old.name ≡ name_in (event.now).act (event.now).branch state.old.family }
    requires room { 0 < state.old.room }
    requires can { CanGo (length (state.old.family).rows + 8) state.old.family out.old }
    ensures acts { ActsBy state.old.family out.old (steps.acted event.entry.now stood)
        state.new.family out.new result }
    ensures kept { state.old.history_room ≤ state.new.history_room }
{
    match &event.act {
        Act::GetStatus => say_status(state.status_of(event.branch)),
        Act::GetParentStatus => say_status(state.parent_status_of(event.branch)),
        Act::Replay(registration, _) => replay(state, *registration),
        Act::Superior(_) => Said::ObjectNotExist,
        Act::Answer(number, heard) => {
            answer(state, number, heard, stood, out);
            Said::Plain
        }
        Act::Tick => {
            tick(state, event.now, out);
            Said::Plain
        }
        Act::Reread(_) => {
            state.reread(stood, out);
            Said::Plain
        }
        Act::Opened(deadline) => {
            state.set_deadline(*deadline);
            Said::State(Status::Active)
        }
        other => call(state, other, event.branch, given, out),
    }
}

/// What is said of a status.
fn say_status(status: Option<Status>) -> Said
    ensures { result ≡ table.status_said status }
{
    match status {
        Some(status) => Said::State(status),
        None => Said::ObjectNotExist,
    }
}

/// What an ask of a participant is answered.
#[tactic(auto, unfolding(coordinator::specs::Table::replays))]
fn replay(state: &State, registration: u32) -> Said
    ensures { table.replays registration state.now.family ≡ table.says result state.now.family }
{
    if !state.has_registration(registration) {
        return Said::ObjectNotExist;
    }
    let voted = state.is_named(registration);
    state.phase().replayed(voted, state.top_status())
}

/// An answer to a word: it is heard where a call waits for it, and that goes on.
#[tactic(auto, unfolding(coordinator::specs::Step::answered, coordinator::specs::Step::hears))]
fn answer(
    state: &mut State,
    number: &CallNumber,
    heard: &Heard,
    stood: Option<Stood>,
    out: &mut Draft,
)
    requires can { CanGo (length (state.old.family).rows + 8) state.old.family out.old }
    ensures does { Does state.old.family out.old (steps.answered number.now heard.now stood)
        state.new.family out.new }
    ensures kept { state.old.history_room ≤ state.new.history_room }
{
    match state.waiting_for(number) {
        Some(branch) => answer_at(state, branch, number, heard, stood, out),
        None => state.settle(stood, out),
    }
}

/// The same, where the call of this transaction waits for it.
fn answer_at(
    state: &mut State,
    branch: u32,
    number: &CallNumber,
    heard: &Heard,
    stood: Option<Stood>,
    out: &mut Draft,
)
    requires can { CanGo (length (state.old.family).rows + 8) state.old.family out.old }
    ensures does { Does state.old.family out.old
        (λ f. steps.hears_call (call_at f branch) branch number.now heard.now f ▹ settles stood ▹ goes_on branch)
        state.new.family out.new }
    ensures kept { state.old.history_room ≤ state.new.history_room }
{
    state.hear(branch, number, heard, out);
    state.settle(stood, out);
    state.go_on(branch, out);
}

/// A call is carried out, where what its key names is there.
fn call(state: &mut State, act: &Act, branch: u32, given: &mut Given, out: &mut Draft) -> Said
    requires to { given.old.to ≡ reference_in act.now }
    requires fits { length_in act.now ≤ state.old.reach }
    requires name { given.old.name ≡ name_in act.now branch state.old.family }
    requires room { 0 < state.old.room }
    requires can { CanGo (length (state.old.family).rows + 4) state.old.family out.old }
    ensures acts { ActsBy state.old.family out.old (called act.now branch) state.new.family out.new result }
    ensures kept { state.old.history_room ≤ state.new.history_room }
{
    if !is_there(state, act, branch) {
        return Said::ObjectNotExist;
    }
    carry_out(state, act, branch, given, out)
}

/// Whether what the key of a call names is there.
fn is_there(state: &State, act: &Act, branch: u32) -> bool
    ensures { result ≡ is_named_there act.now branch state.now.family }
{
    match act {
        Act::Commit(_) | Act::Rollback => has_terminator(state, branch),
        _ => state.has_branch(branch),
    }
}

/// A call on a transaction that is there.
fn carry_out(state: &mut State, act: &Act, branch: u32, given: &mut Given, out: &mut Draft) -> Said
    requires there { branch < length (state.old.family).rows }
    requires to { given.old.to ≡ reference_in act.now }
    requires fits { length_in act.now ≤ state.old.reach }
    requires name { given.old.name ≡ name_in act.now branch state.old.family }
    requires room { 0 < state.old.room }
    requires can { CanGo (length (state.old.family).rows + 4) state.old.family out.old }
    ensures acts { ActsBy state.old.family out.old (carried_out act.now branch)
        state.new.family out.new result }
    ensures kept { state.old.history_room ≤ state.new.history_room }
{
    let position = state.entry_count();
    match act {
        Act::Commit(asked) => commit(state, branch, position, *asked, out),
        Act::Rollback => roll_back_asked(state, branch, position, out),
        Act::RollbackOnly => mark_only(state, branch, out),
        Act::RegisterResource(_, aware) => register_resource(
            state,
            branch,
            given.to.take().unwrap(),
            *aware,
        ),
        Act::RegisterSynchronization(_) => register_synchronization(
            state,
            branch,
            given.to.take().unwrap(),
        ),
        Act::RegisterSubtranAware(_) => register_aware(state, branch, given.to.take().unwrap()),
        Act::CreateSubtransaction => create_subtransaction(state, branch),
        Act::GetTransactionName => Said::Name(given.name.take().unwrap()),
        other => tell(state, other, branch),
    }
}

/// What a call is answered that changes nothing.
fn tell(state: &State, act: &Act, branch: u32) -> Said
    requires there { branch < length (state.now.family).rows }
    ensures { result ≡ told act.now branch state.now.family }
{
    match act {
        Act::GetTerminator if has_terminator(state, branch) => Said::Plain,
        Act::GetTerminator => Said::Unavailable,
        Act::GetTopLevelStatus => Said::State(state.top_status()),
        Act::IsSameTransaction(other) => state.is_same(branch, *other),
        Act::IsRelatedTransaction(other) => state.is_related(branch, *other),
        Act::IsAncestorTransaction(other) => state.is_ancestor(branch, *other),
        Act::IsDescendantTransaction(other) => state.is_descendant(branch, *other),
        Act::IsTopLevelTransaction => Said::Flag(branch == TOP),
        Act::HashTransaction => Said::Number(state.hash_of(branch)),
        Act::HashTopLevelTran => Said::Number(state.hash_of(TOP)),
        _ => Said::Plain,
    }
}
