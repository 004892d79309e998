// The node that is lent.
ghost use Rattle.std.specs.Prelude.{◌≡◌};
ghost use Rattle.std.specs.Option.{option_and_then, option_copied, option_map};
ghost use Rattle.nodes_world.specs.Resolve as resolving;
ghost use Rattle.nodes_state.specs.Seated.{seat_of};
ghost use Rattle.nodes_state.specs.Shown.{shown};
ghost use Rattle.nodes_replay.specs.Lent.{lent_as, living_at, living_in};

use nodes_resolve::node_named;
use nodes_state::{Seat, Server, State};
use ots_model::Name;
use ots_outside::MemDisk;
use service_node::Node;

/// The node of a name, where it is up.
pub(crate) fn lent_node<'a>(state: &'a State, name: &Name) -> Option<&'a Node<MemDisk>>
    ensures { option_map lent_as (option_copied result)
        ≡ option_and_then (living_at (shown state.now)) (resolving.node_named (shown state.now) name.now) }
{
    let place = node_named(state, name)?;
    node_at(state, place as usize)
}

/// The node at a place, where one is up.
fn node_at(state: &State, place: usize) -> Option<&Node<MemDisk>>
    ensures { option_map lent_as (option_copied result) ≡ living_at (shown state.now) place }
{
    node_in(state.seats.get(place)?)
}

/// The node at a seat, where one is up.
fn node_in(seat: &Seat) -> Option<&Node<MemDisk>>
    ensures { option_map lent_as (option_copied result) ≡ living_in (seat_of seat.now) }
{
    match &seat.server {
        Server::Up(node) => Some(node.node()),
        _ => None,
    }
}
