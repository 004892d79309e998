// Seats, and what stands there.
ghost use Rattle.std.specs.Prelude.{◌≡◌, ◌<◌, length, None, OnOk};
ghost use Rattle.nodes_world.specs.Limits.{seat_limit};
ghost use Rattle.nodes_world.specs.World as world;
ghost use Rattle.nodes_state.specs.Shown.{shown};
ghost use Rattle.nodes_seats.specs.Placed.{with_seat_of, with_server_of};
ghost use Rattle.nodes_seats.specs.Whole.{IsServed, IsWhole};

use nodes_state::{Seat, Server, State};
use ots_model::Name;
use std::alloc::AllocError;

/// A further seat is there, which has a name, and where this stands.
pub(crate) fn add_seat(state: &mut State, name: &Name, server: Server) -> Result<(), AllocError>
    requires whole { IsWhole state.old }
    requires free { world.thing (shown state.old) name.now ≡ None }
    requires room { length state.old.seats.items < seat_limit }
    requires served { IsServed (length state.old.seats.items) server }
    ensures world { OnOk result (shown state.new ≡ with_seat_of name.now server (shown state.old)) }
    ensures whole { OnOk result (IsWhole state.new) }
{
    let place = state.seats.len() as u32;
    state.seats.push(Seat::new(name, server))?;
    state.names.name_seat(name, place)?;
    Ok(())
}

/// This stands at a place from now on, and no stop is to come there.
pub fn set_server(state: &mut State, place: usize, server: Server)
    requires whole { IsWhole state.old }
    requires served { IsServed place server }
    ensures world { shown state.new ≡ with_server_of place server (shown state.old) }
    ensures whole { IsWhole state.new }
{
    let Some(seat) = state.seats.get(place) else {
        return;
    };
    let (name, clock) = (seat.name, seat.clock);
    state.seats[place] = Seat {
        name,
        clock,
        stop: None,
        server,
    };
}
