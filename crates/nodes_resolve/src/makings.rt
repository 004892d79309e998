// The lines that make transactions and resources, and those that touch a resource.
ghost use Rattle.std.specs.Prelude.{◌≡◌};
ghost use Rattle.nodes_world.specs.Resolve as resolving;
ghost use Rattle.nodes_state.specs.Shown.{shown};

use crate::accepting::{may_put, may_refuse, may_register};
use crate::naming::{end_named, if_free, node_named, only_if, resource_named, transaction_named};
use ior_refs::ObjectKey;
use nodes_state::State;
use nodes_world::{Deed, Manner};
use ots_model::Name;

/// `begin N T S`.
#[tactic(auto, unfolding(nodes_world::specs::Resolve::begins_named))]
pub(crate) fn begins_named(state: &State, node: &Name, name: &Name, seconds: u32) -> Option<Deed>
    ensures { result ≡ resolving.begins_named (shown state.now) node.now name.now seconds }
{
    let at = node_named(state, node)?;
    let begin = Deed::Begin {
        at,
        name: *name,
        seconds,
    };
    if_free(state, name, begin)
}

/// `sub P T`.
#[tactic(auto, unfolding(nodes_world::specs::Resolve::creates_named))]
pub(crate) fn creates_named(state: &State, parent: &Name, name: &Name) -> Option<Deed>
    ensures { result ≡ resolving.creates_named (shown state.now) parent.now name.now }
{
    let parent = transaction_named(state, parent)?;
    let create = Deed::Create {
        parent,
        name: *name,
    };
    if_free(state, name, create)
}

/// `register T E G`, `aware T E G`, `double T E G`.
#[tactic(auto, unfolding(nodes_world::specs::Resolve::registers_named))]
pub(crate) fn registers_named(
    state: &State,
    manner: Manner,
    transaction: &Name,
    end: &Name,
    name: &Name,
) -> Option<Deed>
    ensures { result ≡ resolving.registers_named (shown state.now) manner transaction.now end.now name.now }
{
    let transaction = transaction_named(state, transaction)?;
    let end = end_named(state, end)?;
    registers_with(state, manner, name, transaction, end)
}

/// The same where the transaction and the end are found.
fn registers_with(
    state: &State,
    manner: Manner,
    name: &Name,
    transaction: ObjectKey,
    end: u32,
) -> Option<Deed>
    ensures { result ≡ resolving.registers_with (shown state.now) manner name.now transaction end }
{
    let register = Deed::Register {
        manner,
        transaction,
        end,
        name: *name,
    };
    let accepted = state.names.is_free(name) && may_register(state, manner, &transaction);
    only_if(accepted, register)
}

/// `put G C V`.
#[tactic(auto, unfolding(nodes_world::specs::Resolve::puts_named))]
pub(crate) fn puts_named(state: &State, name: &Name, cell: u64, value: u64) -> Option<Deed>
    ensures { result ≡ resolving.puts_named (shown state.now) name.now cell value }
{
    let resource = resource_named(state, name)?;
    let put = Deed::Put {
        resource,
        cell,
        value,
    };
    only_if(may_put(state, cell, &resource), put)
}

/// `refuse G`.
#[tactic(auto, unfolding(nodes_world::specs::Resolve::refuses_named))]
pub(crate) fn refuses_named(state: &State, name: &Name) -> Option<Deed>
    ensures { result ≡ resolving.refuses_named (shown state.now) name.now }
{
    let resource = resource_named(state, name)?;
    only_if(may_refuse(state, &resource), Deed::Refuse(resource))
}
