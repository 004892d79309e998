// Lines that are refused until what they need is there.
ghost use Rattle.std.specs.Prelude.{◌≡◌, ◌&&◌, ◌≤◌, true, not, length};
ghost use Rattle.std.specs.Option.{option_map_or};
ghost use Rattle.coordinator.specs.Family.{Family as TheFamily};
ghost use Rattle.coordinator.specs.Node as nodes;
ghost use Rattle.nodes_world.specs.Resolve as resolving;
ghost use Rattle.nodes_world.specs.World as world;
ghost use Rattle.resource_votes.specs.Limits.{list_count};
ghost use Rattle.nodes_state.specs.Shown.{HasNames, shown};

use crate::touching::{are_none, are_touched, is_one};
use coordinator::Phase;
use family_step::Family;
use ior_refs::ObjectKey;
use nodes_lives::LiveNode;
use nodes_parts::place_of;
use nodes_state::State;
use nodes_world::Manner;

/// How many transactions a tree has at most, of which each may have a list of its own.
const LIST_COUNT: u32 = 1024;

/// Whether a resource may be registered so: none that takes part in the two phases is while the transaction is to
/// commit.
pub(crate) fn may_register(state: &State, manner: Manner, key: &ObjectKey) -> bool
    ensures { result ≡ resolving.may_register manner (shown state.now) key.now }
{
    match manner {
        Manner::Aware => true,
        Manner::Resource | Manner::Double => !is_finishing(state, key),
    }
}

/// Whether a top-level transaction is to commit, and nobody was asked yet.
fn is_finishing(state: &State, key: &ObjectKey) -> bool
    ensures { result ≡ resolving.is_finishing (shown state.now) key.now }
{
    match state.family(key) {
        Some(family) => key.index == 0 && is_finishing_in(family.phase()),
        None => false,
    }
}

/// Whether a top-level transaction in this phase is to commit, and nobody was asked yet.
fn is_finishing_in(phase: Phase) -> bool
    ensures { result ≡ resolving.is_finishing_in phase }
{
    matches!(phase, Phase::Finishing)
}

/// Whether a top-level transaction in this phase is going on.
fn is_active_in(phase: Phase) -> bool
    ensures { result ≡ resolving.is_active_in phase }
{
    matches!(phase, Phase::Active)
}

/// Whether a value may be put: nothing was put or refused for the resource, and no other one of its end names the
/// cell.
pub(crate) fn may_put(state: &State, cell: u64, key: &ObjectKey) -> bool
    ensures { result ≡ resolving.may_put (shown state.now) cell key.now }
{
    is_untouched(state, key) && is_cell_free(state, cell, key)
}

/// Whether there is such a resource, and nothing was put or refused for it.
fn is_untouched(state: &State, key: &ObjectKey) -> bool
    ensures { result ≡ not (option_map_or resolving.is_touched (world.resource_at (shown state.now) key.now) true) }
{
    match state.resource(key) {
        Some(resource) => !resource.is_touched(),
        None => false,
    }
}

/// Whether no resource of its end names the cell.
fn is_cell_free(state: &State, cell: u64, key: &ObjectKey) -> bool
    ensures { result ≡ resolving.is_cell_free (shown state.now) key.now cell }
{
    match state.end(place_of(key)) {
        Some(end) => !end.has_cell(cell),
        None => false,
    }
}

/// Whether a resource may be made to refuse: it doesn't yet.
pub(crate) fn may_refuse(state: &State, key: &ObjectKey) -> bool
    ensures { result ≡ resolving.may_refuse (shown state.now) key.now }
{
    match state.resource(key) {
        Some(resource) => !resource.refused,
        None => false,
    }
}

/// Whether commit may be called.
pub(crate) fn may_commit(state: &State, key: &ObjectKey, reports: bool) -> bool
    requires names { HasNames state.now }
    ensures { result ≡ resolving.may_commit (shown state.now) key.now reports }
{
    match state.node(place_of(key)) {
        Some(node) => may_commit_at(state, node, key, reports),
        None => true,
    }
}

/// The same where this node is up at the place of the transaction.
#[tactic(auto, using(crate::proofs::Fitting::lists_fit))]
fn may_commit_at(state: &State, node: &LiveNode, key: &ObjectKey, reports: bool) -> bool
    requires names { HasNames state.now }
    ensures { result ≡ option_map_or (λ (f : TheFamily).
        resolving.may_commit_top (shown state.now) f key.now && resolving.may_report f key.now reports)
        (nodes.family_of key.now node.now.node) true }
{
    node.kept();
    match node.family(key) {
        Some(family) => may_commit_top(state, family, key) && may_report(family, key, reports),
        None => true,
    }
}

/// Whether commit may be called where a top-level transaction that is going on is to ask its participants: nobody takes
/// part, or several do, and each was put or refused something.
fn may_commit_top(state: &State, family: &Family, key: &ObjectKey) -> bool
    requires names { HasNames state.now }
    ensures { result ≡ resolving.may_commit_top (shown state.now) family.now.family key.now }
{
    if key.index == 0 && is_active_in(family.phase()) {
        !is_one(family.participants(0)) && are_touched(state, family.participants(0))
    } else {
        true
    }
}

/// Whether reports may be asked for: only where the transaction has no list.
fn may_report(family: &Family, key: &ObjectKey, reports: bool) -> bool
    requires lists { length family.now.family.ballots.lists ≤ list_count }
    ensures { result ≡ resolving.may_report family.now.family key.now reports }
{
    !reports || key.index >= LIST_COUNT || are_none(family.participants(key.index))
}
