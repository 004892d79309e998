// A client's call that comes again.
ghost use Rattle.std.specs.Prelude.{◌≡◌, ◌+◌, ◌<◌, false, OnOk, Some};
ghost use Rattle.coordinator.specs.declared.event.Act.{Act as Called};
ghost use Rattle.coordinator.specs.History as history;
ghost use Rattle.ior_refs.specs.declared.key.ObjectKey.{ObjectKey as Key};
ghost use Rattle.service_node.specs.Given.{node_makes};
ghost use Rattle.nodes_world.specs.Clients as clients;
ghost use Rattle.nodes_world.specs.Limits.{message_limit};
ghost use Rattle.nodes_parts.specs.Sending.{called_in};
ghost use Rattle.nodes_state.specs.Does.{Does};
ghost use Rattle.nodes_state.specs.Shown.{shown};
ghost use Rattle.nodes_state.specs.Telling.{TellsOne};
ghost use Rattle.nodes_ready.specs.Ready.{IsReady};

use coordinator::{Act, NodeFault, StepAnswer};
use ior_refs::ObjectKey;
use nodes_clients::{call_event, carry, said_in, tell_said};
use nodes_parts::place_of;
use nodes_state::State;
use ots_world::WorldFault;
use std::alloc::AllocError;

/// The client's call in the message at a place comes again.
pub(crate) fn call_again(
    state: &mut State,
    lines: &mut Vec<u8>,
    place: usize,
) -> Result<(), WorldFault>
    requires ready { IsReady state.old }
    requires within { place < message_limit }
    ensures does { (to : Key) (act : Called) → called_in (shown state.old).messages place ≡ Some (to, act)
        → Does (clients.acts_at (place + 1) to act clients.answer_only (shown state.old)) (shown state.new)
        lines.old.items lines.new.items result }
    ensures ready { OnOk result (IsReady state.new) }
{
    match state.messages.call(state.alloc, place)? {
        Some((to, act)) => act_again(state, lines, place as u32 + 1, &to, act),
        None => Ok(()),
    }
}

/// The call in the message with a number acts at the node of its object once more, under the same key.
fn act_again(
    state: &mut State,
    lines: &mut Vec<u8>,
    number: u32,
    to: &ObjectKey,
    act: Act,
) -> Result<(), WorldFault>
    requires ready { IsReady state.old }
    requires given { node_makes act ≡ false }
    ensures does { Does (clients.acts_at number to.now act clients.answer_only (shown state.old)) (shown state.new)
        lines.old.items lines.new.items result }
    ensures ready { OnOk result (IsReady state.new) }
{
    let place = place_of(to);
    let Some(now) = state.clock(place) else {
        return Ok(());
    };
    let event = call_event(number, to, act, now);
    match carry(state, lines, place, to, &event)? {
        Some(answer) => Ok(tell_answer(lines, number, answer)?),
        None => Ok(()),
    }
}

/// Tells what the call in a message was answered. An answer that comes later is told then.
fn tell_answer(
    lines: &mut Vec<u8>,
    message: u32,
    answer: Result<StepAnswer, NodeFault>,
) -> Result<(), AllocError>
    ensures { TellsOne (clients.said_lines message (history.is_later (clients.said_in answer))
        (clients.said_in answer)) lines.old.items lines.new.items result }
{
    tell_said(lines, message, &said_in(answer))
}
