// What a name of a script names.
ghost use Rattle.std.specs.Prelude.{◌≡◌, is_some};
ghost use Rattle.std.specs.Option.{option_and_then};
ghost use Rattle.nodes_world.specs.Resolve as resolving;
ghost use Rattle.nodes_world.specs.World as world;
ghost use Rattle.nodes_state.specs.Shown.{shown};

use ior_refs::ObjectKey;
use nodes_parts::place_of;
use nodes_state::State;
use nodes_world::{Deed, Thing};
use ots_model::Name;

/// The value where it is so, and otherwise nothing.
pub(crate) fn only_if<T: Drop>(holds: bool, value: T) -> Option<T>
    ensures { result ≡ resolving.only_if holds value }
{
    if holds { Some(value) } else { None }
}

/// A deed that makes something of this name, which is free.
pub(crate) fn if_free(state: &State, name: &Name, deed: Deed) -> Option<Deed>
    ensures { result ≡ resolving.if_free (shown state.now) name.now deed }
{
    only_if(state.names.is_free(name), deed)
}

/// The place of the node or end of this name.
fn seat_named(state: &State, name: &Name) -> Option<u32>
    ensures { result ≡ option_and_then resolving.as_seat (world.thing (shown state.now) name.now) }
{
    match state.names.thing(name) {
        Some(Thing::Seat(place)) => Some(place),
        _ => None,
    }
}

/// The place of the node that has this name and is up.
pub fn node_named(state: &State, name: &Name) -> Option<u32>
    ensures { result ≡ resolving.node_named (shown state.now) name.now }
{
    let place = seat_named(state, name)?;
    only_if(is_node(state, place), place)
}

/// The place of the end that has this name and is up.
pub(crate) fn end_named(state: &State, name: &Name) -> Option<u32>
    ensures { result ≡ resolving.end_named (shown state.now) name.now }
{
    let place = seat_named(state, name)?;
    only_if(is_end(state, place), place)
}

/// The place of the node that has this name and is down.
pub(crate) fn down_named(state: &State, name: &Name) -> Option<u32>
    ensures { result ≡ resolving.down_named (shown state.now) name.now }
{
    let place = seat_named(state, name)?;
    only_if(is_down(state, place), place)
}

/// The key of the transaction that has this name; its node is up.
pub(crate) fn transaction_named(state: &State, name: &Name) -> Option<ObjectKey>
    ensures { result ≡ resolving.transaction_named (shown state.now) name.now }
{
    match state.names.thing(name) {
        Some(Thing::Transaction(key)) => only_if(is_key_up(state, &key), key),
        _ => None,
    }
}

/// The key of the resource that has this name; its end is up.
pub(crate) fn resource_named(state: &State, name: &Name) -> Option<ObjectKey>
    ensures { result ≡ resolving.resource_named (shown state.now) name.now }
{
    match state.names.thing(name) {
        Some(Thing::Resource(key)) => only_if(is_key_up(state, &key), key),
        _ => None,
    }
}

/// Whether a node is up at a place.
fn is_node(state: &State, place: u32) -> bool
    ensures { result ≡ is_some (world.node_at (shown state.now) place) }
{
    state.node(place as usize).is_some()
}

/// Whether an end is up at a place.
fn is_end(state: &State, place: u32) -> bool
    ensures { result ≡ is_some (world.end_at (shown state.now) place) }
{
    state.end(place as usize).is_some()
}

/// Whether a node is down at a place.
fn is_down(state: &State, place: u32) -> bool
    ensures { result ≡ resolving.is_down_at (shown state.now) place }
{
    match state.seats.get(place as usize) {
        Some(seat) => seat.is_down(),
        None => false,
    }
}

/// Whether the node or end of a key is up.
fn is_key_up(state: &State, key: &ObjectKey) -> bool
    ensures { result ≡ resolving.is_key_up (shown state.now) key.now }
{
    state.life(place_of(key)).is_some()
}
