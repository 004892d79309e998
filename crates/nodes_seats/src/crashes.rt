// Nodes go down.
ghost use Rattle.std.specs.Prelude.{◌≡◌, true, is_some, OnOk};
ghost use Rattle.nodes_lives.specs.Calling.{stop_of};
ghost use Rattle.nodes_lives.specs.Loads.{StoresJournal};
ghost use Rattle.nodes_world.specs.Lives as lives;
ghost use Rattle.nodes_world.specs.Nodes as nodes;
ghost use Rattle.nodes_world.specs.Objects.{service_at};
ghost use Rattle.nodes_world.specs.World as world;
ghost use Rattle.nodes_state.specs.Does.{Does};
ghost use Rattle.nodes_state.specs.Shown.{shown};
ghost use Rattle.nodes_seats.specs.Carries.{DoesUntold};
ghost use Rattle.nodes_seats.specs.Whole.{IsWhole};

use crate::places::set_server;
use nodes_lines::tell_down;
use nodes_parts::Stop;
use nodes_state::{Seat, Server, State};
use ots_world::WorldFault;

/// `stop N WRITE IMAGE`: a crash inside a write is to come, in place of one that was.
pub fn set_stop(state: &mut State, place: u32, stop: Stop)
    requires whole { IsWhole state.old }
    ensures does { DoesUntold (lives.stops place (stop_of stop) (shown state.old)) (shown state.new) }
    ensures whole { IsWhole state.new }
{
    let place = place as usize;
    if place < state.seats.len() {
        set_stop_in(&mut state.seats[place], stop);
    }
}

/// The same at the seat of the node.
fn set_stop_in(seat: &mut Seat, stop: Stop)
    ensures { seat.new ≡ record seat.old { stop = Some stop } }
{
    seat.stop = Some(stop);
}

/// A node goes down, and these octets are left of its disk.
pub fn go_down(
    state: &mut State,
    lines: &mut Vec<u8>,
    place: u32,
    image: Vec<u8>,
) -> Result<(), WorldFault>
    requires whole { IsWhole state.old }
    requires journal { StoresJournal (service_at place) image.items }
    ensures does { Does (nodes.crashes place image.items (shown state.old)) (shown state.new)
        lines.old.items lines.new.items result }
    ensures whole { OnOk result (IsWhole state.new) }
{
    let place = place as usize;
    if place < state.seats.len() {
        tell_down(lines, state.seats[place].name)?;
        set_server(state, place, Server::Down(image));
    }
    Ok(())
}

/// `crash N`: what the disk of the node reads is left.
pub fn crash(state: &mut State, lines: &mut Vec<u8>, place: u32) -> Result<(), WorldFault>
    requires whole { IsWhole state.old }
    requires up { is_some (world.node_at (shown state.old) place) ≡ true }
    ensures does { Does (lives.crashes_now place (shown state.old)) (shown state.new)
        lines.old.items lines.new.items result }
    ensures whole { OnOk result (IsWhole state.new) }
{
    let Some(seat) = state.seats.get(place as usize) else {
        return Ok(());
    };
    let Server::Up(node) = &seat.server else {
        return Ok(());
    };
    node.kept();
    let image = node.octets().to_vec(state.alloc)?;
    go_down(state, lines, place, image)
}
