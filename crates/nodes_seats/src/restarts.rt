// Nodes come up.
ghost use Rattle.std.specs.Prelude.{◌≡◌, true, OnOk};
ghost use Rattle.nodes_world.specs.Limits.{area_limit};
ghost use Rattle.nodes_world.specs.Lives as lives;
ghost use Rattle.nodes_world.specs.Objects.{service_at};
ghost use Rattle.nodes_world.specs.Resolve.{is_down_at};
ghost use Rattle.nodes_world.specs.Step.{lacks_life_at, limit_where};
ghost use Rattle.nodes_state.specs.Does.{Does};
ghost use Rattle.nodes_state.specs.Shown.{shown};
ghost use Rattle.nodes_seats.specs.Carries.{Carries};
ghost use Rattle.nodes_seats.specs.Placed.{comes_up_at};
ghost use Rattle.nodes_seats.specs.Whole.{IsWhole};

use crate::places::set_server;
use crate::standing::tell_up_at;
use nodes_lives::LiveNode;
use nodes_parts::service_at;
use nodes_state::{Server, State};
use ots_world::WorldFault;

/// `restart N`: the node is loaded from its disk.
pub fn restart(state: &mut State, lines: &mut Vec<u8>, place: u32) -> Result<(), WorldFault>
    requires whole { IsWhole state.old }
    requires down { is_down_at (shown state.old) place ≡ true }
    ensures carries { Carries (limit_where (lacks_life_at (shown state.old) place) area_limit)
        (lives.restarts place (shown state.old)) (shown state.new) lines.old.items lines.new.items result }
    ensures whole { OnOk result (IsWhole state.new) }
{
    let Some(seat) = state.seats.get(place as usize) else {
        return Ok(());
    };
    let Server::Down(octets) = &seat.server else {
        return Ok(());
    };
    let octets = octets.to_vec(state.alloc)?;
    let node = LiveNode::load(state.alloc, octets, service_at(place))?;
    come_up(state, lines, place as usize, node)
}

/// A node that was loaded comes up at a place.
fn come_up(
    state: &mut State,
    lines: &mut Vec<u8>,
    place: usize,
    node: LiveNode,
) -> Result<(), WorldFault>
    requires whole { IsWhole state.old }
    requires service { node.node.service ≡ service_at place }
    ensures does { Does (comes_up_at place node.node node.disk (shown state.old)) (shown state.new)
        lines.old.items lines.new.items result }
    ensures whole { OnOk result (IsWhole state.new) }
{
    set_server(state, place, Server::Up(node));
    tell_up_at(state, lines, place)?;
    Ok(())
}
