// What a client's call that ends or marks a transaction does and is answered, by how that stands.
ghost use Rattle.std.specs.Prelude.{◌≡◌, ◌<◌, ◌≤◌, ◌+◌, ℕ, length, Some, None, IsTrue};
ghost use Rattle.coordinator.specs.Phases as phases;
ghost use Rattle.coordinator.specs.Step as steps;
ghost use Rattle.coordinator.specs.Table as table;
ghost use Rattle.family_rules.specs.Calls.{said_of};
ghost use Rattle.family_rules.specs.Going.{ActsBy, CanGo, Does};

use coordinator::{Column, Effect, Said, Stage};
use family_rules::{Aim, Draft, Reply, State, TOP};
use ots_model::tree::Reason;

/// Whether there is a terminator of this transaction.
pub(crate) fn has_terminator(state: &State, branch: u32) -> bool
    ensures { result ≡ table.has_terminator state.now.family branch }
{
    state.has_branch(branch) && (state.is_root() || branch > TOP)
}

/// `commit`.
#[tactic(auto, unfolding(coordinator::specs::Table::commits))]
pub(crate) fn commit(
    state: &mut State,
    branch: u32,
    position: u32,
    asked: bool,
    out: &mut Draft,
) -> Said
    requires there { branch < length (state.old.family).rows }
    requires can { CanGo (length (state.old.family).rows + 4) state.old.family out.old }
    ensures acts { ActsBy state.old.family out.old (table.commits branch position asked)
        state.new.family out.new result }
    ensures kept { state.old.history_room ≤ state.new.history_room }
{
    match state.column(branch) {
        Column::Active => commit_active(state, branch, position, asked, out),
        Column::Marked => commit_marked(state, branch, position, out),
        Column::RolledBack => Said::TransactionRolledBack,
        Column::Finishing | Column::Past => Said::InvalidTransaction,
    }
}

/// The commit of a transaction that is going on. One whose parent has ended can only be rolled back.
fn commit_active(
    state: &mut State,
    branch: u32,
    position: u32,
    asked: bool,
    out: &mut Draft,
) -> Said
    requires there { branch < length (state.old.family).rows }
    requires can { CanGo (length (state.old.family).rows + 4) state.old.family out.old }
    ensures acts { ActsBy state.old.family out.old
        (λ f. table.unless_orphan branch f (table.begins_commit branch position asked f))
        state.new.family out.new result }
    ensures kept { state.old.history_room ≤ state.new.history_room }
{
    if state.has_parent_ended(branch) {
        return Said::TransactionRolledBack;
    }
    begin_commit(state, branch, position, asked, out);
    Said::Later
}

/// The commit of a marked transaction rolls it back.
fn commit_marked(state: &mut State, branch: u32, position: u32, out: &mut Draft) -> Said
    requires there { branch < length (state.old.family).rows }
    requires opened { IsTrue (phases.is_open (phases.column state.old.family branch)) }
    requires can { CanGo (length (state.old.family).rows + 4) state.old.family out.old }
    ensures acts { ActsBy state.old.family out.old
        (λ f. table.unless_orphan branch f
        (table.rolls_back branch Reason.Marked (Some position) Said.TransactionRolledBack f))
        state.new.family out.new result }
    ensures kept { state.old.history_room ≤ state.new.history_room }
{
    if state.has_parent_ended(branch) {
        return Said::TransactionRolledBack;
    }
    roll_back(
        state,
        branch,
        Reason::Marked,
        Some(position),
        Reply::RolledBack,
        out,
    );
    Said::Later
}

/// The commit of a transaction begins.
#[tactic(auto, unfolding(coordinator::specs::Table::begins_commit))]
fn begin_commit(state: &mut State, branch: u32, position: u32, asked: bool, out: &mut Draft)
    requires there { branch < length (state.old.family).rows }
    requires can { CanGo (length (state.old.family).rows + 4) state.old.family out.old }
    ensures does { Does state.old.family out.old (table.begins_commit branch position asked)
        state.new.family out.new }
    ensures kept { state.old.history_room ≤ state.new.history_room }
{
    if branch == TOP {
        state.begin_finishing();
    }
    state.run(branch, Some(position), Aim::Commits(asked), out);
}

/// `rollback`.
#[tactic(auto, unfolding(coordinator::specs::Table::rolls_back_asked))]
pub(crate) fn roll_back_asked(
    state: &mut State,
    branch: u32,
    position: u32,
    out: &mut Draft,
) -> Said
    requires there { branch < length (state.old.family).rows }
    requires can { CanGo (length (state.old.family).rows + 4) state.old.family out.old }
    ensures acts { ActsBy state.old.family out.old (table.rolls_back_asked branch position)
        state.new.family out.new result }
    ensures kept { state.old.history_room ≤ state.new.history_room }
{
    match state.column(branch) {
        Column::Active | Column::Marked => {
            let reason = Reason::Asked;
            roll_back(state, branch, reason, Some(position), Reply::Plain, out);
            Said::Later
        }
        Column::RolledBack => Said::Plain,
        Column::Finishing | Column::Past => Said::InvalidTransaction,
    }
}

/// A transaction is rolled back.
fn roll_back(
    state: &mut State,
    branch: u32,
    reason: Reason,
    caller: Option<u32>,
    reply: Reply,
    out: &mut Draft,
)
    requires there { branch < length (state.old.family).rows }
    requires opened { IsTrue (phases.is_open (phases.column state.old.family branch)) }
    requires can { CanGo (length (state.old.family).rows + 4) state.old.family out.old }
    ensures does { Does state.old.family out.old (table.rolls_back branch reason caller (said_of reply))
        state.new.family out.new }
    ensures kept { state.old.history_room ≤ state.new.history_room }
{
    if branch == TOP {
        roll_back_top(state, reason, caller, reply, out);
    } else {
        roll_back_sub(state, branch, caller, reply, out);
    }
}

/// The top-level transaction is rolled back: that is decided first.
#[tactic(auto, unfolding(coordinator::specs::Table::rolls_back_top))]
pub(crate) fn roll_back_top(
    state: &mut State,
    reason: Reason,
    caller: Option<u32>,
    reply: Reply,
    out: &mut Draft,
)
    requires can { CanGo (length (state.old.family).rows + 4) state.old.family out.old }
    ensures does { Does state.old.family out.old (table.rolls_back_top reason caller (said_of reply))
        state.new.family out.new }
    ensures kept { state.old.history_room ≤ state.new.history_room }
{
    state.begin_rollback(false, reason, out);
    state.run(TOP, caller, Aim::RollsBack(reply), out);
}

/// A subtransaction is rolled back: it ends first.
#[tactic(auto, unfolding(coordinator::specs::Table::rolls_back_sub))]
fn roll_back_sub(state: &mut State, branch: u32, caller: Option<u32>, reply: Reply, out: &mut Draft)
    requires there { branch < length (state.old.family).rows }
    requires below { 0 < branch }
    requires opened { IsTrue (phases.is_open (phases.column state.old.family branch)) }
    requires can { CanGo (length (state.old.family).rows + 4) state.old.family out.old }
    ensures does { Does state.old.family out.old (table.rolls_back_sub branch caller (said_of reply))
        state.new.family out.new }
    ensures kept { state.old.history_room ≤ state.new.history_room }
{
    out.show(Effect::SubtransactionEnded(branch, false));
    state.close_sub(branch);
    state.run(branch, caller, Aim::RollsBack(reply), out);
}

/// `rollback_only`.
#[tactic(auto, unfolding(coordinator::specs::Table::marks_only))]
pub(crate) fn mark_only(state: &mut State, branch: u32, out: &mut Draft) -> Said
    requires can { CanGo 1 state.old.family out.old }
    ensures acts { ActsBy state.old.family out.old (table.marks_only branch)
        state.new.family out.new result }
    ensures kept { state.old.history_room ≤ state.new.history_room }
{
    if !state.column(branch).is_open() {
        return Said::Inactive;
    }
    state.mark(branch, out);
    Said::Plain
}

/// The clock stands at a moment: a transaction whose time is over is rolled back, or marked where it is to commit.
#[tactic(auto, unfolding(coordinator::specs::Step::ticks))]
pub(crate) fn tick(state: &mut State, now: u64, out: &mut Draft)
    requires can { CanGo (length (state.old.family).rows + 4) state.old.family out.old }
    ensures does { Does state.old.family out.old (steps.ticks now) state.new.family out.new }
    ensures kept { state.old.history_room ≤ state.new.history_room }
{
    if !has_timed_out(state, now) {
        return;
    }
    match state.stage() {
        Stage::Going => roll_back_top(state, Reason::Timeout, None, Reply::Plain, out),
        _ => state.mark(TOP, out),
    }
}

/// Whether the time is over, and that matters.
#[tactic(auto, unfolding(coordinator::specs::Step::has_timed_out))]
pub(crate) fn has_timed_out(state: &State, now: u64) -> bool
    ensures { result ≡ steps.has_timed_out state.now.family now }
{
    state.is_over(now) && may_time_out(state)
}

/// Whether it matters that the time is over.
fn may_time_out(state: &State) -> bool
    ensures { result ≡ steps.ticks_in (state.now.family).stage (phases.is_marked state.now.family 0) }
{
    match state.stage() {
        Stage::Going => true,
        Stage::Finishing => !state.is_marked(TOP),
        _ => false,
    }
}
