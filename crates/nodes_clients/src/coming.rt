// What becomes of a seat to which an event comes.
ghost use Rattle.std.specs.Prelude.{◌≡◌, ◌<◌, [], false, length, IfOk, IfErr, OnOk};
ghost use Rattle.ots_world.specs.declared.fault.WorldFault.TheVariants.{Memory};
ghost use Rattle.service_node.specs.Given.{node_makes};
ghost use Rattle.nodes_state.specs.Seated.{seat_of};
ghost use Rattle.nodes_state.specs.Shown.{HasNames};
ghost use Rattle.nodes_clients.specs.Coming.{HasCome, HasComeAt};
ghost use Rattle.nodes_clients.specs.Keeping.{KeepsSeat, KeepsSeats};

use coordinator::{Effects, Event, NodeFault, StepAnswer};
use ior_refs::ObjectKey;
use nodes_lives::Called;
use nodes_state::{Seat, Server, State};
use ots_world::WorldFault;
use recovery_coord::Outbox;
use std::alloc::Global;
use std::mem;

/// What has come of an event at a seat.
#[derive(Drop)]
pub(crate) enum Came {
    /// No node is up there.
    Nothing,
    /// The call went through, and is answered so or refused.
    Through(Result<StepAnswer, NodeFault>),
    /// The node has crashed inside a write, and this had happened before.
    Down(Effects),
}

/// An event comes to the seat at a place: a node that is up there goes on, with the words that go out in `words`, or crashes.
pub(crate) fn come_at(
    state: &mut State,
    place: usize,
    key: &ObjectKey,
    event: &Event,
    words: &mut Outbox,
) -> Result<Came, WorldFault>
    requires there { place < length (state.old).seats.items }
    requires named { HasNames state.old }
    requires given { node_makes (event.now).act ≡ false }
    requires none { words.old.words ≡ [] }
    ensures come { IfOk result
        (λ came. HasComeAt key.now event.entry.now place state.old state.new came words.new.words) }
    ensures seats { OnOk result (KeepsSeats state.old state.new) }
    ensures names { OnOk result ((state.new).names ≡ (state.old).names) }
    ensures named { OnOk result (HasNames state.new) }
    ensures fault { IfErr result (λ fault. fault ≡ Memory) }
{
    Ok(come_to(state.alloc, &mut state.seats[place], key, event, words)?)
}

/// An event comes to a seat: a node that is up there goes on, or crashes.
fn come_to(
    alloc: Global,
    seat: &mut Seat,
    key: &ObjectKey,
    event: &Event,
    words: &mut Outbox,
) -> Result<Came, WorldFault>
    requires given { node_makes (event.now).act ≡ false }
    requires none { words.old.words ≡ [] }
    ensures come { IfOk result
        (λ came. HasCome key.now event.entry.now (seat_of seat.old) (seat_of seat.new) came words.new.words) }
    ensures keeps { OnOk result (KeepsSeat seat.old seat.new) }
    ensures fault { IfErr result (λ fault. fault ≡ Memory) }
{
    let node = match mem::replace(&mut seat.server, Server::Down(Vec::new(alloc))) {
        Server::Up(node) => node,
        other => {
            seat.server = other;
            return Ok(Came::Nothing);
        }
    };
    match node.call(key, event, mem::replace(&mut seat.stop, None), words)? {
        Called::Answered(answered) => {
            seat.server = Server::Up(answered.node);
            seat.stop = answered.stop;
            Ok(Came::Through(answered.answer))
        }
        Called::Stopped(stopped) => {
            seat.server = Server::Down(stopped.image);
            Ok(Came::Down(stopped.heard))
        }
    }
}
