// The making of top-level transactions.
ghost use Rattle.std.specs.Prelude.{◌≡◌, None, Some, IfOk, IfErr, OnOk};
ghost use Rattle.ots_world.specs.declared.fault.WorldFault.TheVariants.{Memory};
ghost use Rattle.nodes_world.specs.Clients as clients;
ghost use Rattle.nodes_world.specs.World as world;
ghost use Rattle.nodes_state.specs.Shown.{HasNames, shown};
ghost use Rattle.nodes_state.specs.Seated.{seat_of};
ghost use Rattle.nodes_state.specs.Does.{Does};
ghost use Rattle.nodes_clients.specs.Beginning.{HasCreated, begun_named, is_starved};
ghost use Rattle.nodes_clients.specs.Keeping.{KeepsSeat, KeepsSeats};

use coordinator::{NodeFault, Said};
use ior_refs::ObjectKey;
use nodes_lines::{tell_known, tell_refused};
use nodes_state::{Seat, Server, State};
use ots_model::{Line, Name};
use ots_world::WorldFault;

/// `begin N T S`: `create` of the factory of the node at a place.
pub fn begin(
    state: &mut State,
    lines: &mut Vec<u8>,
    place: u32,
    name: &Name,
    seconds: u32,
) -> Result<(), WorldFault>
    requires names { HasNames state.old }
    requires free { world.thing_in (state.old).names.things name.now ≡ None }
    ensures does { Does (clients.begins place name.now seconds (shown state.old)) (shown state.new)
        lines.old.items lines.new.items result }
    ensures seats { OnOk result (KeepsSeats state.old state.new) }
    ensures resources { OnOk result (world.resources (shown state.new) ≡ world.resources (shown state.old)) }
    ensures names { OnOk result (HasNames state.new) }
{
    let place = place as usize;
    if place >= state.seats.len() {
        return Ok(());
    }
    let node = state.seats[place].name;
    match create_in(&mut state.seats[place], seconds)? {
        Some(answer) => begun_with(state, lines, name, node, answer),
        None => Ok(()),
    }
}

/// A family is made at the node of a seat, where one is up.
fn create_in(
    seat: &mut Seat,
    seconds: u32,
) -> Result<Option<Result<ObjectKey, NodeFault>>, WorldFault>
    ensures created { IfOk result (λ said. HasCreated seconds (seat_of seat.old) (seat_of seat.new) said) }
    ensures keeps { OnOk result (KeepsSeat seat.old seat.new) }
    ensures fault { IfErr result (λ fault. fault ≡ Memory) }
{
    let now = seat.clock;
    let Server::Up(node) = &mut seat.server else {
        return Ok(None);
    };
    let answer = node.create(now, seconds);
    if is_starved(&answer) {
        return Err(WorldFault::Memory);
    }
    Ok(Some(answer))
}

/// Whether memory was wanted.
fn is_starved(answer: &Result<ObjectKey, NodeFault>) -> bool
    ensures { result ≡ is_starved answer.now }
{
    matches!(answer, Err(NodeFault::Memory))
}

/// A node made a transaction, or refused to.
fn begun_with(
    state: &mut State,
    lines: &mut Vec<u8>,
    name: &Name,
    node: Name,
    answer: Result<ObjectKey, NodeFault>,
) -> Result<(), WorldFault>
    requires names { HasNames state.old }
    requires free { world.thing_in (state.old).names.things name.now ≡ None }
    ensures does { Does (begun_named name.now node answer (shown state.old)) (shown state.new)
        lines.old.items lines.new.items result }
    ensures resources { OnOk result (world.resources (shown state.new) ≡ world.resources (shown state.old)) }
    ensures names { OnOk result (HasNames state.new) }
    ensures seats { (state.new).seats ≡ (state.old).seats }
{
    match answer {
        Ok(key) => {
            state.names.name_transaction(name, &key)?;
            Ok(tell_known(
                lines,
                Line::Top {
                    transaction: *name,
                    node,
                },
            )?)
        }
        Err(fault) => Ok(tell_refused(lines, b"begin", &fault_said(fault))?),
    }
}

/// What a call is answered that a node refuses.
pub(crate) fn fault_said(fault: NodeFault) -> Said
    ensures { result ≡ clients.fault_said fault }
{
    match fault {
        NodeFault::ObjectNotExist => Said::ObjectNotExist,
        NodeFault::NoResources => Said::NoResources,
        NodeFault::NoImplement => Said::NoImplement,
        NodeFault::Journal(_) => Said::PersistStore,
        NodeFault::Memory => Said::NoMemory,
    }
}
