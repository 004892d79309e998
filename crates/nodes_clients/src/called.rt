// A client's calls to transactions.
ghost use Rattle.std.specs.Prelude.{◌≡◌, ◌≤◌, false, length, OnOk};
ghost use Rattle.std.specs.Option.{option_map};
ghost use Rattle.service_node.specs.Given.{node_makes};
ghost use Rattle.nodes_world.specs.Clients as clients;
ghost use Rattle.nodes_world.specs.Limits.{seat_limit};
ghost use Rattle.nodes_world.specs.World.{next_message};
ghost use Rattle.nodes_state.specs.Does.{Does};
ghost use Rattle.nodes_state.specs.Shown.{HasNames, shown};
ghost use Rattle.nodes_state.specs.Telling.{TellsOne};
ghost use Rattle.nodes_clients.specs.Called.{IsMade, called, made_lines};
ghost use Rattle.nodes_clients.specs.Keeping.{KeepsSeats};

use crate::beginning::fault_said;
use crate::calling::{call_event, send_call, tell_said};
use crate::carrying::carry;
use coordinator::{Act, NodeFault, Said, StepAnswer};
use ior_refs::ObjectKey;
use nodes_parts::place_of;
use nodes_state::State;
use ots_world::WorldFault;
use std::alloc::AllocError;

/// The number of a call, and what it was answered at once.
#[derive(Drop)]
pub struct Made {
    pub message: u32,
    pub said: Option<Said>,
}

/// A client calls a transaction, and nothing comes of its answer but the line that tells it.
pub fn call(
    state: &mut State,
    lines: &mut Vec<u8>,
    to: &ObjectKey,
    act: Act,
) -> Result<(), WorldFault>
    requires few { length (state.old).seats.items ≤ seat_limit }
    requires names { HasNames state.old }
    requires given { node_makes act ≡ false }
    ensures does { Does (clients.calls to.now act clients.answer_only (shown state.old)) (shown state.new)
        lines.old.items lines.new.items result }
    ensures seats { OnOk result (KeepsSeats state.old state.new) }
    ensures names { OnOk result ((state.new).names ≡ (state.old).names) }
    ensures named { OnOk result (HasNames state.new) }
{
    let made = make_call(state, lines, to, act)?;
    Ok(tell_made(lines, &made)?)
}

/// A client's call goes out to a transaction, and acts.
pub fn make_call(
    state: &mut State,
    lines: &mut Vec<u8>,
    to: &ObjectKey,
    act: Act,
) -> Result<Made, WorldFault>
    requires few { length (state.old).seats.items ≤ seat_limit }
    requires names { HasNames state.old }
    requires given { node_makes act ≡ false }
    ensures made { IsMade (next_message (shown state.old)) (called to.now act (shown state.old))
        (shown state.new) lines.old.items lines.new.items result }
    ensures seats { OnOk result (KeepsSeats state.old state.new) }
    ensures names { OnOk result ((state.new).names ≡ (state.old).names) }
    ensures named { OnOk result (HasNames state.new) }
{
    let message = state.messages.next_number();
    let place = place_of(to);
    let now = state.clock(place).unwrap_or(0);
    let event = call_event(message, to, act, now);
    send_call(state, lines, to, &event)?;
    let answer = carry(state, lines, place, to, &event)?;
    Ok(Made {
        message,
        said: said_of(answer),
    })
}

/// What a call is answered at once, where it is answered.
fn said_of(answer: Option<Result<StepAnswer, NodeFault>>) -> Option<Said>
    ensures { result ≡ option_map clients.said_in answer }
{
    Some(said_in(answer?))
}

/// What a call is answered at once.
pub fn said_in(answer: Result<StepAnswer, NodeFault>) -> Said
    ensures { result ≡ clients.said_in answer }
{
    match answer {
        Ok(answer) => answer.said,
        Err(fault) => fault_said(fault),
    }
}

/// Tells what a call was answered at once.
pub fn tell_made(lines: &mut Vec<u8>, made: &Made) -> Result<(), AllocError>
    ensures { TellsOne (made_lines made.now) lines.old.items lines.new.items result }
{
    match &made.said {
        Some(said) => tell_said(lines, made.message, said),
        None => Ok(()),
    }
}
