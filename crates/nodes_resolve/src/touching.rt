// How many resources are registered, and whether a put or a refuse was accepted of them.
ghost use Rattle.std.specs.Prelude.{◌≡◌, ◌==◌, false, length};
ghost use Rattle.std.specs.List.{list_all};
ghost use Rattle.std.specs.Option.{option_map_or};
ghost use Rattle.nodes_world.specs.Resolve as resolving;
ghost use Rattle.nodes_world.specs.World as world;
ghost use Rattle.nodes_state.specs.Shown.{HasNames, shown};

use ior_refs::ObjectKey;
use nodes_state::State;
use resource_votes::{Registration, Walk};

/// Whether these are none.
pub(crate) fn are_none(some: Walk<'_>) -> bool
    ensures { result ≡ (length some.entry == 0) }
{
    let mut some = some;
    some.next().is_none()
}

/// Whether this is one and no more.
pub(crate) fn is_one(some: Walk<'_>) -> bool
    ensures { result ≡ (length some.entry == 1) }
{
    let mut some = some;
    match some.next() {
        Some(_) => are_none(some),
        None => false,
    }
}

/// Whether a put or a refuse was accepted of each of these.
pub(crate) fn are_touched(state: &State, some: Walk<'_>) -> bool
    requires names { HasNames state.now }
    ensures { result ≡ list_all (resolving.is_touched_one (shown state.now)) some.entry }
{
    for registration in some {
        if !is_touched(state, registration) {
            return false;
        }
    }
    true
}

/// Whether a put or a refuse was accepted of a resource that is registered.
fn is_touched(state: &State, registration: &Registration) -> bool
    requires names { HasNames state.now }
    ensures { result ≡ resolving.is_touched_one (shown state.now) registration.now }
{
    match state.names.referred(registration.to.bytes()) {
        Some(named) => is_key_touched(state, &named.key),
        None => false,
    }
}

/// The same of the resource with a key.
fn is_key_touched(state: &State, key: &ObjectKey) -> bool
    ensures { result ≡ option_map_or resolving.is_touched (world.resource_at (shown state.now) key.now) false }
{
    match state.resource(key) {
        Some(resource) => resource.is_touched(),
        None => false,
    }
}
