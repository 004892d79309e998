// Nodes and ends are made.
ghost use Rattle.std.specs.Prelude.{◌≡◌, Err, None, OnOk, false, true};
ghost use Rattle.ots_world.specs.declared.fault.WorldFault.TheVariants.{Limit};
ghost use Rattle.nodes_world.specs.Limits.{seat_limit};
ghost use Rattle.nodes_world.specs.Lives as lives;
ghost use Rattle.nodes_world.specs.Step.{is_full, limit_where};
ghost use Rattle.nodes_world.specs.World as world;
ghost use Rattle.nodes_state.specs.Does.{Does};
ghost use Rattle.nodes_state.specs.Shown.{shown};
ghost use Rattle.nodes_seats.specs.Carries.{Carries};
ghost use Rattle.nodes_seats.specs.Whole.{IsWhole};

use crate::places::add_seat;
use crate::standing::tell_up_at;
use nodes_lines::tell_known;
use nodes_lives::LiveNode;
use nodes_parts::{End, ONLY_LIFE, service_at};
use nodes_state::{Server, State};
use ots_model::{Line, Name};
use ots_world::WorldFault;
use std::alloc::Global;

/// How many nodes and ends there are at most, together.
const SEAT_LIMIT: usize = 64;

/// A world in which nothing was made.
pub fn empty(alloc: Global) -> State
    ensures empty { shown result ≡ world.empty }
    ensures whole { IsWhole result }
{
    State::new(alloc)
}

/// Whether there are as many nodes and ends as there may be.
fn has_all_seats(state: &State) -> bool
    ensures { result ≡ is_full (shown state.now) }
{
    state.seats.len() >= SEAT_LIMIT
}

/// `node N`: it is made, and loaded from its disk, which is empty.
pub fn make_node(state: &mut State, lines: &mut Vec<u8>, name: &Name) -> Result<(), WorldFault>
    requires whole { IsWhole state.old }
    requires free { world.thing (shown state.old) name.now ≡ None }
    ensures carries { Carries (limit_where (is_full (shown state.old)) seat_limit)
        (lives.makes_node name.now (shown state.old)) (shown state.new) lines.old.items lines.new.items result }
    ensures full { is_full (shown state.old) ≡ true → result ≡ Err (Limit seat_limit) }
    ensures whole { OnOk result (IsWhole state.new) }
{
    if has_all_seats(state) {
        return Err(WorldFault::Limit(SEAT_LIMIT as u64));
    }
    add_node(state, lines, name)
}

/// A node is made where there is room, and loaded.
fn add_node(state: &mut State, lines: &mut Vec<u8>, name: &Name) -> Result<(), WorldFault>
    requires whole { IsWhole state.old }
    requires free { world.thing (shown state.old) name.now ≡ None }
    requires room { is_full (shown state.old) ≡ false }
    ensures does { Does (lives.makes_node name.now (shown state.old)) (shown state.new)
        lines.old.items lines.new.items result }
    ensures whole { OnOk result (IsWhole state.new) }
{
    let place = state.seats.len();
    let octets = Vec::new(state.alloc);
    let node = LiveNode::load(state.alloc, octets, service_at(place as u32))?;
    add_seat(state, name, Server::Up(node))?;
    tell_up_at(state, lines, place)?;
    Ok(())
}

/// `end E`: it is made, and runs.
pub fn make_end(state: &mut State, lines: &mut Vec<u8>, name: &Name) -> Result<(), WorldFault>
    requires whole { IsWhole state.old }
    requires free { world.thing (shown state.old) name.now ≡ None }
    ensures carries { Carries (limit_where (is_full (shown state.old)) seat_limit)
        (lives.makes_end name.now (shown state.old)) (shown state.new) lines.old.items lines.new.items result }
    ensures full { is_full (shown state.old) ≡ true → result ≡ Err (Limit seat_limit) }
    ensures whole { OnOk result (IsWhole state.new) }
{
    if has_all_seats(state) {
        return Err(WorldFault::Limit(SEAT_LIMIT as u64));
    }
    add_end(state, lines, name)
}

/// An end is made where there is room, and runs.
fn add_end(state: &mut State, lines: &mut Vec<u8>, name: &Name) -> Result<(), WorldFault>
    requires whole { IsWhole state.old }
    requires free { world.thing (shown state.old) name.now ≡ None }
    requires room { is_full (shown state.old) ≡ false }
    ensures does { Does (lives.makes_end name.now (shown state.old)) (shown state.new)
        lines.old.items lines.new.items result }
    ensures whole { OnOk result (IsWhole state.new) }
{
    add_seat(state, name, Server::End(End::new(state.alloc)))?;
    tell_known(
        lines,
        Line::Up {
            server: *name,
            life: ONLY_LIFE,
        },
    )?;
    Ok(())
}
