// The calls of clients that lines are.
ghost use Rattle.std.specs.Prelude.{◌≡◌};
ghost use Rattle.nodes_world.specs.Resolve as resolving;
ghost use Rattle.nodes_state.specs.Shown.{HasNames, shown};

use crate::accepting::may_commit;
use crate::naming::{only_if, transaction_named};
use coordinator::Act;
use ior_refs::ObjectKey;
use nodes_parts::terminator_of;
use nodes_state::State;
use nodes_world::Deed;
use ots_model::Name;
use ots_world::{Relation, Whose};

/// A call that ends a transaction, on its terminator.
fn ends_by(act: Act, key: &ObjectKey) -> Deed
    ensures { result ≡ resolving.ends_by act key.now }
{
    Deed::Call {
        to: terminator_of(key),
        act,
    }
}

/// `commit T R`.
#[tactic(auto, unfolding(nodes_world::specs::Resolve::commits_named))]
pub(crate) fn commits_named(state: &State, name: &Name, reports: bool) -> Option<Deed>
    requires names { HasNames state.now }
    ensures { result ≡ resolving.commits_named (shown state.now) name.now reports }
{
    let key = transaction_named(state, name)?;
    only_if(
        may_commit(state, &key, reports),
        ends_by(Act::Commit(reports), &key),
    )
}

/// A call that ends the transaction of this name, on its terminator.
pub(crate) fn ends_named(state: &State, name: &Name, act: Act) -> Option<Deed>
    ensures { result ≡ resolving.calls_named (shown state.now) name.now (resolving.ends_by act) }
{
    let key = transaction_named(state, name)?;
    Some(ends_by(act, &key))
}

/// A call on the coordinator of the transaction of this name.
pub(crate) fn asks_named(state: &State, name: &Name, act: Act) -> Option<Deed>
    ensures { result ≡ resolving.calls_named (shown state.now) name.now (resolving.asks_for act) }
{
    let to = transaction_named(state, name)?;
    Some(Deed::Call { to, act })
}

/// `rel W T U`.
#[tactic(auto, unfolding(nodes_world::specs::Resolve::relates_named))]
pub(crate) fn relates_named(
    state: &State,
    relation: Relation,
    name: &Name,
    other: &Name,
) -> Option<Deed>
    ensures { result ≡ resolving.relates_named (shown state.now) relation name.now other.now }
{
    let other = transaction_named(state, other)?;
    asks_named(state, name, relation_act(relation, other))
}

/// The call by which a status is asked.
pub(crate) fn status_act(whose: Whose) -> Act
    ensures { result ≡ resolving.status_act whose }
{
    match whose {
        Whose::Own => Act::GetStatus,
        Whose::Parent => Act::GetParentStatus,
        Whose::Top => Act::GetTopLevelStatus,
    }
}

/// The call by which a relation is asked.
fn relation_act(relation: Relation, other: ObjectKey) -> Act
    ensures { result ≡ resolving.relation_act relation other }
{
    match relation {
        Relation::Same => Act::IsSameTransaction(Some(other)),
        Relation::Ancestor => Act::IsAncestorTransaction(Some(other)),
        Relation::Descendant => Act::IsDescendantTransaction(Some(other)),
        Relation::Related => Act::IsRelatedTransaction(Some(other)),
    }
}
