// Messages are delivered in the order of their sending.
ghost use Rattle.std.specs.Prelude.{◌<◌, length, OnOk};
ghost use Rattle.nodes_world.specs.Deliveries as deliveries;
ghost use Rattle.nodes_world.specs.Limits.{message_limit};
ghost use Rattle.nodes_state.specs.Does.{Does};
ghost use Rattle.nodes_state.specs.Shown.{shown};
ghost use Rattle.nodes_ready.specs.Ready.{IsReady};

use crate::arriving::arrive;
use crate::waiting::receiver_of;
use nodes_state::State;
use ots_world::WorldFault;

/// `flow K`: up to so many messages are delivered, each time the lowest that waits.
pub fn flow(state: &mut State, lines: &mut Vec<u8>, count: u32) -> Result<(), WorldFault>
    requires ready { IsReady state.old }
    ensures does { Does (deliveries.flows count (shown state.old)) (shown state.new)
        lines.old.items lines.new.items result }
    ensures ready { OnOk result (IsReady state.new) }
{
    let mut left = count;
    while left > 0 {
        let Some(place) = state.messages.lowest() else {
            return Ok(());
        };
        deliver(state, lines, place)?;
        left -= 1;
    }
    Ok(())
}

/// The message at a place is delivered.
fn deliver(state: &mut State, lines: &mut Vec<u8>, place: usize) -> Result<(), WorldFault>
    requires ready { IsReady state.old }
    requires there { place < length (shown state.old).messages }
    requires within { place < message_limit }
    ensures does { Does (deliveries.delivers place (shown state.old)) (shown state.new)
        lines.old.items lines.new.items result }
    ensures ready { OnOk result (IsReady state.new) }
{
    let receiver = receiver_of(state, place);
    state.messages.deliver(place);
    match receiver {
        Some(receiver) => arrive(state, lines, place, receiver),
        None => Ok(()),
    }
}
