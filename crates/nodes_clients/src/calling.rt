// A client's call as it goes out, and the lines that tell it.
ghost use Rattle.std.specs.Prelude.{◌≡◌};
ghost use Rattle.coordinator.specs.History as history;
ghost use Rattle.nodes_world.specs.Clients as clients;
ghost use Rattle.nodes_world.specs.Told as told;
ghost use Rattle.nodes_world.specs.World as world;
ghost use Rattle.nodes_state.specs.Does.{Does, StaysSo};
ghost use Rattle.nodes_state.specs.Shown.{HasNames, shown};
ghost use Rattle.nodes_state.specs.Telling.{TellsOne};
ghost use Rattle.nodes_clients.specs.Calling.{sends_call};

use coordinator::{Act, Event, Said, copy_event};
use ior_refs::ObjectKey;
use nodes_lines::{operation_of, tell_answered, tell_called};
use nodes_state::State;
use nodes_world::Manner;
use ots_model::{RefBytes, RetryKey};
use ots_world::WorldFault;
use std::alloc::AllocError;

/// The number of the client in the keys of its calls.
const SCRIPT_CLIENT: u64 = 1;

/// The event that a client's call in a message is, at a moment.
pub fn call_event(message: u32, to: &ObjectKey, act: Act, now: u64) -> Event
    ensures { result ≡ clients.call_event message to.now act now }
{
    Event {
        key: Some(RetryKey {
            client: SCRIPT_CLIENT,
            number: u64::from(message),
        }),
        branch: to.index,
        now,
        act,
    }
}

/// A client's call goes out to a transaction, in the next message, and is delivered at once.
pub fn send_call(
    state: &mut State,
    lines: &mut Vec<u8>,
    to: &ObjectKey,
    event: &Event,
) -> Result<(), WorldFault>
    requires names { HasNames state.old }
    ensures does { Does (sends_call to.now (event.entry.now).act (shown state.old)) (shown state.new)
        lines.old.items lines.new.items result }
    ensures same { StaysSo state.old state.new }
{
    let message = state.messages.next_number();
    let act = copy_event(state.alloc, event)?.act;
    tell_call(state, lines, message, to, &act)?;
    state.messages.send_call(state.alloc, *to, act)?;
    Ok(())
}

/// Tells a call, where it is one of a transaction that has a name.
fn tell_call(
    state: &State,
    lines: &mut Vec<u8>,
    message: u32,
    to: &ObjectKey,
    act: &Act,
) -> Result<(), AllocError>
    requires names { HasNames state.now }
    ensures { TellsOne (clients.called_line message (told.operation_of act.now)
        (world.transaction_name (shown state.now) to.now)) lines.old.items lines.new.items result }
{
    match (operation_of(act), state.names.transaction(to)) {
        (Some(operation), Some(name)) => tell_called(lines, message, operation, name),
        _ => Ok(()),
    }
}

/// Tells what a call was answered. An answer that comes later is told then.
pub fn tell_said(lines: &mut Vec<u8>, message: u32, said: &Said) -> Result<(), AllocError>
    ensures { TellsOne (clients.said_lines message (history.is_later said.now) said.now)
        lines.old.items lines.new.items result }
{
    if said.is_later() {
        return Ok(());
    }
    tell_answered(lines, u64::from(message), said)
}

/// The call by which a resource is registered.
pub fn registering(manner: Manner, to: RefBytes) -> Act
    ensures { result ≡ clients.registering manner to }
{
    match manner {
        Manner::Resource => Act::RegisterResource(to, false),
        Manner::Aware => Act::RegisterSubtranAware(to),
        Manner::Double => Act::RegisterResource(to, true),
    }
}
