// An event comes to the node at a place.
ghost use Rattle.std.specs.Prelude.{◌≡◌, ◌<◌, ◌≤◌, false, length, OnOk, Some};
ghost use Rattle.coordinator.specs.Node.{Node};
ghost use Rattle.service_node.specs.Given.{node_makes};
ghost use Rattle.nodes_world.specs.Limits.{seat_limit};
ghost use Rattle.nodes_world.specs.Nodes as nodes;
ghost use Rattle.nodes_world.specs.World as world;
ghost use Rattle.nodes_state.specs.Does.{StaysSo};
ghost use Rattle.nodes_state.specs.Shown.{HasNames, shown};
ghost use Rattle.nodes_state.specs.Telling.{AreNamesOf, TellsSome};
ghost use Rattle.nodes_clients.specs.Carrying.{HasCarried, passed_lines, passes};
ghost use Rattle.nodes_clients.specs.Keeping.{KeepsSeats};

use crate::answering::{family_for, names_before_stop, recorded_at, tell_answer, tell_crash};
use crate::coming::{Came, come_at};
use coordinator::{Event, NodeFault, StepAnswer};
use ior_refs::ObjectKey;
use nodes_state::State;
use ots_world::WorldFault;
use recovery_coord::Outbox;
use std::alloc::AllocError;

/// An event comes to the node at a place, where one is up: it is told what happened, and its words go out; or the node
/// has crashed inside a write, and is down.
pub fn carry(
    state: &mut State,
    lines: &mut Vec<u8>,
    place: usize,
    key: &ObjectKey,
    event: &Event,
) -> Result<Option<Result<StepAnswer, NodeFault>>, WorldFault>
    requires few { length (state.old).seats.items ≤ seat_limit }
    requires names { HasNames state.old }
    requires given { node_makes (event.now).act ≡ false }
    ensures carried { HasCarried (nodes.steps place key.now event.entry.now (shown state.old)) (shown state.new)
        lines.old.items lines.new.items result }
    ensures seats { OnOk result (KeepsSeats state.old state.new) }
    ensures names { OnOk result ((state.new).names ≡ (state.old).names) }
    ensures named { OnOk result (HasNames state.new) }
{
    let Some(seat) = state.seats.get(place) else {
        return Ok(None);
    };
    let name = seat.name;
    let recorded = recorded_at(seat, &event.act);
    let roster = names_before_stop(state.alloc, seat, &state.names, key)?;
    let mut words = Outbox::new(state.alloc);
    match come_at(state, place, key, event, &mut words)? {
        Came::Nothing => Ok(None),
        Came::Through(answer) => {
            go_through(
                state,
                lines,
                place,
                key,
                event,
                recorded,
                Passed { answer, words },
            )
        }
        Came::Down(heard) => {
            tell_crash(lines, &state.names, &roster, heard.items(), name)?;
            Ok(None)
        }
    }
}

/// A call that went through: what it is answered, or why it is refused, and the words that go out.
#[derive(Drop)]
struct Passed {
    answer: Result<StepAnswer, NodeFault>,
    words: Outbox,
}

/// A call went through at the node at a place: what happened is told, and its words go out.
fn go_through(
    state: &mut State,
    lines: &mut Vec<u8>,
    place: usize,
    key: &ObjectKey,
    event: &Event,
    recorded: Option<ObjectKey>,
    passed: Passed,
) -> Result<Option<Result<StepAnswer, NodeFault>>, WorldFault>
    requires small { place < seat_limit }
    requires names { HasNames state.old }
    ensures carried { (w : world.World) (n : Node) → AreNamesOf (state.old).names w
        → world.node_at (shown state.old) place ≡ Some n
        → HasCarried (passes (passed_lines w key.now event.entry.now n recorded passed.answer) place
        passed.words.words passed.answer (shown state.old)) (shown state.new)
        lines.old.items lines.new.items result }
    ensures same { StaysSo state.old state.new }
{
    tell_passed(state, lines, place, key, event, recorded, &passed.answer)?;
    state.send_words(lines, place as u32, passed.words)?;
    Ok(Some(passed.answer))
}

/// Tells what a call was answered that went through at the node at a place.
fn tell_passed(
    state: &State,
    lines: &mut Vec<u8>,
    place: usize,
    key: &ObjectKey,
    event: &Event,
    recorded: Option<ObjectKey>,
    answer: &Result<StepAnswer, NodeFault>,
) -> Result<(), AllocError>
    ensures { (w : world.World) (n : Node) → AreNamesOf (state.now).names w
        → world.node_at (shown state.now) place ≡ Some n
        → TellsSome (passed_lines w key.now event.entry.now n recorded answer.entry.now)
        lines.old.items lines.new.items result }
{
    match state.node(place) {
        Some(node) => tell_answer(
            lines,
            &state.names,
            family_for(node, key, event),
            recorded,
            answer,
        ),
        None => Ok(()),
    }
}
