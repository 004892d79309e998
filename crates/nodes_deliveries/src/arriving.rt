// A message comes to its receiver.
ghost use Rattle.std.specs.Prelude.{◌≡◌, ◌+◌, ◌<◌, OnOk};
ghost use Rattle.std.specs.Option.{option_map};
ghost use Rattle.nodes_world.specs.Deliveries as deliveries;
ghost use Rattle.nodes_world.specs.Limits.{message_limit};
ghost use Rattle.nodes_world.specs.World.{is_up};
ghost use Rattle.nodes_world.specs.declared.message.Content.{Content as Says};
ghost use Rattle.nodes_state.specs.Does.{Does};
ghost use Rattle.nodes_state.specs.Shown.{shown};
ghost use Rattle.nodes_parts.specs.Referring.{named};
ghost use Rattle.nodes_deliveries.specs.Arriving.{SaysAt, led_at};
ghost use Rattle.nodes_ready.specs.Ready.{IsReady};

use crate::again::call_again;
use crate::hearing::{hear, heard_in};
use crate::waiting::Receiver;
use nodes_ends::obey;
use nodes_lines::{tell_dropped, tell_known};
use nodes_parts::NamedKey;
use nodes_state::State;
use nodes_world::Content;
use ots_model::Line;
use ots_world::WorldFault;

/// The message at a place has come to the seat of its receiver: to one that is up, or it is dropped.
pub(crate) fn arrive(
    state: &mut State,
    lines: &mut Vec<u8>,
    place: usize,
    receiver: Receiver,
) -> Result<(), WorldFault>
    requires ready { IsReady state.old }
    requires within { place < message_limit }
    requires led { option_map named receiver.resource ≡ led_at state.old place }
    ensures does { (content : Says) → SaysAt (shown state.old) place content
        → Does (deliveries.comes_to (is_up (shown state.old) receiver.seat) (place + 1) content (shown state.old))
        (shown state.new) lines.old.items lines.new.items result }
    ensures ready { OnOk result (IsReady state.new) }
{
    let number = place as u32 + 1;
    if state.life(receiver.seat).is_none() {
        tell_dropped(lines, number)?;
        return Ok(());
    }
    tell_known(lines, Line::Recv { message: number })?;
    reach(state, lines, place, receiver.resource)
}

/// The message at a place reaches its receiver, which is up. A word leads to this resource.
fn reach(
    state: &mut State,
    lines: &mut Vec<u8>,
    place: usize,
    resource: Option<NamedKey>,
) -> Result<(), WorldFault>
    requires ready { IsReady state.old }
    requires within { place < message_limit }
    requires led { option_map named resource ≡ led_at state.old place }
    ensures does { (content : Says) → SaysAt (shown state.old) place content
        → Does (deliveries.reaches (place + 1) content (shown state.old)) (shown state.new)
        lines.old.items lines.new.items result }
    ensures ready { OnOk result (IsReady state.new) }
{
    let Some(message) = state.messages.at(place) else {
        return Ok(());
    };
    match &message.content {
        Content::Call { .. } => call_again(state, lines, place),
        Content::Request { outward, .. } => {
            let word = outward.word;
            match resource {
                Some(named) => obey(state, lines, place as u32 + 1, named, word),
                None => Ok(()),
            }
        }
        Content::Reply { request, said } => {
            let (request, heard) = (*request, heard_in(said));
            hear(state, lines, request, heard)
        }
    }
}
