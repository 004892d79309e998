// What a client's call that registers something or makes a subtransaction does and is answered.
ghost use Rattle.std.specs.Prelude.{◌≡◌, ◌<◌, ◌≤◌, length};
ghost use Rattle.txn_tree.specs.Calls.{creating};
ghost use Rattle.coordinator.specs.Table as table;
ghost use Rattle.family_step.specs.Acting.{ActsAlone};

use coordinator::{Column, Said};
use family_rules::{State, TOP};
use ots_model::RefBytes;

/// `register_resource`.
#[tactic(auto, unfolding(coordinator::specs::Table::registers_resource))]
pub(crate) fn register_resource(state: &mut State, branch: u32, to: RefBytes, aware: bool) -> Said
    requires there { branch < length (state.old.family).rows }
    requires room { 0 < state.old.room }
    requires fits { length to ≤ state.old.reach }
    ensures acts { ActsAlone state.old.family (table.registers_resource branch to aware)
        state.new.family result }
    ensures kept { state.old.history_room ≤ state.new.history_room }
{
    if !state.column(branch).is_open() {
        return Said::Inactive;
    }
    match state.register(branch, to, aware) {
        Ok(number) => Said::Made(number),
        Err(fault) => Said::of_vote_fault(fault),
    }
}

/// `register_subtran_aware`. Of the top-level transaction it is refused however that stands.
#[tactic(auto, unfolding(coordinator::specs::Table::registers_aware))]
pub(crate) fn register_aware(state: &mut State, branch: u32, to: RefBytes) -> Said
    requires there { branch < length (state.old.family).rows }
    requires room { 0 < state.old.room }
    requires fits { length to ≤ state.old.reach }
    ensures acts { ActsAlone state.old.family (table.registers_aware branch to) state.new.family result }
    ensures kept { state.old.history_room ≤ state.new.history_room }
{
    if branch == TOP {
        return Said::NotSubtransaction;
    }
    if !state.column(branch).is_open() {
        return Said::Inactive;
    }
    match state.register_aware(branch, to) {
        Ok(_) => Said::Plain,
        Err(fault) => Said::of_vote_fault(fault),
    }
}

/// `register_synchronization`. Of a subtransaction it is refused however that stands.
#[tactic(auto, unfolding(coordinator::specs::Table::registers_synchronization))]
pub(crate) fn register_synchronization(state: &mut State, branch: u32, to: RefBytes) -> Said
    requires there { branch < length (state.old.family).rows }
    requires room { 0 < state.old.room }
    ensures acts { ActsAlone state.old.family (table.registers_synchronization branch to)
        state.new.family result }
    ensures kept { state.old.history_room ≤ state.new.history_room }
{
    if branch != TOP {
        return Said::SynchronizationUnavailable;
    }
    if !state.column(branch).is_open() {
        return Said::Inactive;
    }
    match state.register_sync(branch, to) {
        Ok(_) => Said::Plain,
        Err(fault) => Said::of_vote_fault(fault),
    }
}

/// `create_subtransaction`.
#[tactic(auto, unfolding(coordinator::specs::Table::creates_subtransaction))]
pub(crate) fn create_subtransaction(state: &mut State, branch: u32) -> Said
    requires there { branch < length (state.old.family).rows }
    requires room { 0 < state.old.room }
    ensures acts { ActsAlone state.old.family (table.creates_subtransaction branch)
        state.new.family result }
    ensures kept { state.old.history_room ≤ state.new.history_room }
{
    match state.column(branch) {
        Column::Active => make_sub(state, branch),
        Column::Marked => Said::TransactionRolledBack,
        _ => Said::Inactive,
    }
}

/// A subtransaction is made, where the tree allows it.
fn make_sub(state: &mut State, branch: u32) -> Said
    requires there { branch < length (state.old.family).rows }
    requires room { 0 < state.old.room }
    ensures acts { ActsAlone state.old.family
        (λ f. table.creates_by (creating f.rows branch) branch f) state.new.family result }
    ensures kept { state.old.history_room ≤ state.new.history_room }
{
    match state.create_sub(branch) {
        Ok(number) => Said::Made(number),
        Err(fault) => Said::of_tree_fault(fault),
    }
}
