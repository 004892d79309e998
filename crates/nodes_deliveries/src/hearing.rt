// What the sender of a word hears in the answer to it.
ghost use Rattle.std.specs.Prelude.{◌≡◌, OnOk};
ghost use Rattle.coordinator.specs.declared.said.Said.{Said as Answer};
ghost use Rattle.nodes_world.specs.Deliveries as deliveries;
ghost use Rattle.nodes_state.specs.Does.{Does};
ghost use Rattle.nodes_state.specs.Shown.{shown};
ghost use Rattle.nodes_ready.specs.Ready.{IsReady};

use crate::waiting::{message_place, waiting};
use coordinator::{Act, Event, Said};
use nodes_clients::carry;
use nodes_parts::family_key;
use nodes_state::State;
use ots_model::tree::Heard;
use ots_model::{Disposition, PhaseHeard};
use ots_world::WorldFault;

/// What the caller of a participant hears in an answer.
#[tactic(auto, unfolding(nodes_world::specs::Deliveries::heard_in))]
pub fn heard_in(said: &Said) -> Heard
    ensures { result ≡ deliveries.heard_in said.now }
{
    match said {
        Said::Plain => Heard::Phase(PhaseHeard::Done),
        Said::State(status) => Heard::Told(*status),
        Said::Voted(vote) => Heard::Phase(PhaseHeard::Voted(*vote)),
        Said::TransactionRolledBack => Heard::Phase(PhaseHeard::RolledBack),
        Said::HeuristicMixed => Heard::Phase(PhaseHeard::Heuristic(Disposition::Mixed)),
        Said::HeuristicHazard => Heard::Phase(PhaseHeard::Heuristic(Disposition::Unknown)),
        Said::HeuristicRollback => Heard::Phase(PhaseHeard::Heuristic(Disposition::RolledBack)),
        Said::HeuristicCommit => Heard::Phase(PhaseHeard::Heuristic(Disposition::Committed)),
        Said::NotPrepared => Heard::Phase(PhaseHeard::NotPrepared),
        Said::ObjectNotExist => Heard::Phase(PhaseHeard::NoObject),
        _ => Heard::Phase(PhaseHeard::Other),
    }
}

/// The reply to a request is heard by its sender, where that waits for it.
pub(crate) fn hear(
    state: &mut State,
    lines: &mut Vec<u8>,
    request: u32,
    heard: Heard,
) -> Result<(), WorldFault>
    requires ready { IsReady state.old }
    ensures does { (answer : Answer) → deliveries.heard_in answer ≡ heard
        → Does (deliveries.hears_reply request answer (shown state.old)) (shown state.new)
        lines.old.items lines.new.items result }
    ensures ready { OnOk result (IsReady state.new) }
{
    let Some((from, number)) = waiting(state, request) else {
        return Ok(());
    };
    let Some(now) = state.clock(from as usize) else {
        return Ok(());
    };
    state.messages.answer(message_place(request));
    let event = Event {
        key: None,
        branch: 0,
        now,
        act: Act::Answer(number, heard),
    };
    carry(
        state,
        lines,
        from as usize,
        &family_key(from, &number),
        &event,
    )?;
    Ok(())
}
