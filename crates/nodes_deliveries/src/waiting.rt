// To whom a message goes, and who waits for a reply.
ghost use Rattle.std.specs.Prelude.{◌≡◌, ◌-◌, IfSome};
ghost use Rattle.std.specs.Option.{option_map};
ghost use Rattle.nodes_world.specs.Deliveries as deliveries;
ghost use Rattle.nodes_parts.specs.Referring.{named};
ghost use Rattle.nodes_state.specs.Shown.{HasNames, shown};
ghost use Rattle.nodes_deliveries.specs.Arriving.{led_at, receiver_at, waits_for};
ghost use Rattle.nodes_deliveries.specs.declared.waiting.Receiver.{Receiver as Found};

use nodes_parts::{NamedKey, place_of};
use nodes_state::State;
use nodes_world::{Content, Message};
use ots_model::CallNumber;

/// Where a message comes: the place of its seat, and the resource there to which a word leads.
#[derive(Clone, Copy)]
pub(crate) struct Receiver {
    pub seat: usize,
    pub resource: Option<NamedKey>,
}

impl Receiver {
    /// A seat, where the message is no word.
    fn seated(seat: usize) -> Receiver
        ensures { result ≡ record { seat = seat; resource = None } }
    {
        Receiver {
            seat,
            resource: None,
        }
    }
}

/// The place of the message with a number.
pub(crate) fn message_place(number: u32) -> usize
    ensures { result ≡ number - 1 }
{
    number.saturating_sub(1) as usize
}

/// The place of the seat that sent a word.
fn sender_of(message: &Message) -> Option<usize>
    ensures { result ≡ deliveries.sender_of (message.now).content }
{
    match &message.content {
        Content::Request { from, .. } => Some(*from as usize),
        _ => None,
    }
}

/// Where the message at a place comes.
pub(crate) fn receiver_of(state: &State, place: usize) -> Option<Receiver>
    requires names { HasNames state.now }
    ensures seat { option_map (λ (r : Found). r.seat) result ≡ receiver_at (shown state.now) place }
    ensures resource { IfSome result (λ r. option_map named r.resource ≡ led_at state.now place) }
{
    match &state.messages.at(place)?.content {
        Content::Call { to, .. } => Some(Receiver::seated(place_of(to))),
        Content::Request { outward, .. } => {
            let resource = state.names.referred(outward.to.bytes())?;
            Some(Receiver {
                seat: place_of(&resource.key),
                resource: Some(resource),
            })
        }
        Content::Reply { request, .. } => {
            let request = state.messages.at(message_place(*request))?;
            Some(Receiver::seated(sender_of(request)?))
        }
    }
}

/// Who waits for the reply to a request, and the number of its word.
pub(crate) fn waiting(state: &State, request: u32) -> Option<(u32, CallNumber)>
    ensures { result ≡ waits_for (shown state.now) request }
{
    let message = state.messages.at(message_place(request))?;
    let Content::Request { from, outward } = &message.content else {
        return None;
    };
    if message.answered {
        return None;
    }
    let life = state.life(*from as usize)?;
    (life == outward.number.life).then_some((*from, outward.number))
}
