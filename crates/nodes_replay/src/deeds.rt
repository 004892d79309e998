// A line of a script is carried out.
ghost use Rattle.std.specs.Prelude.{◌≡◌, IsErrOf, None, OnOk};
ghost use Rattle.std.specs.Result.{IsOk};
ghost use Rattle.ots_world.specs.declared.fault.WorldFault.TheVariants.{Memory, Names};
ghost use Rattle.nodes_world.specs.Deliveries.{flows, lowest};
ghost use Rattle.nodes_world.specs.Step as stepping;
ghost use Rattle.nodes_ready.specs.Ready.{IsReady};
ghost use Rattle.nodes_resolve.specs.Named.{IsNamed};
ghost use Rattle.nodes_seats.specs.Carries.{Carries};
ghost use Rattle.nodes_state.specs.Does.{Does};
ghost use Rattle.nodes_state.specs.Shown.{shown};
ghost use Rattle.nodes_replay.specs.Carrying.{CarriesLine};
ghost use Rattle.nodes_replay.specs.Quiet.{IsQuiet, IsQuietDeed};

use nodes_calls::register;
use nodes_clients::{begin, call, create_sub};
use nodes_deliveries::flow;
use nodes_ends::{put, refuse};
use nodes_parts::Stop;
use nodes_resolve::resolve;
use nodes_seats::{crash, make_end, make_node, restart, set_stop, tick};
use nodes_state::State;
use nodes_world::Deed;
use ots_world::{ScriptEvent, WorldFault};

/// Carries out one line of a script, and tells what happened at the end of `lines`.
pub(crate) fn carry_line(
    state: &mut State,
    event: &ScriptEvent,
    lines: &mut Vec<u8>,
) -> Result<(), WorldFault>
    requires ready { IsReady state.old }
    ensures carries { CarriesLine (stepping.step event.now (shown state.old)) (shown state.old) (shown state.new)
        lines.old.items lines.new.items result }
    ensures ready { OnOk result (IsReady state.new) }
    ensures kept { IsErrOf result Names → state.new ≡ state.old }
    ensures quiet { IsQuiet event.now (shown state.old) → ¬ (IsErrOf result Memory) }
{
    if let ScriptEvent::Flow(count) = event {
        return flow_line(state, lines, *count);
    }
    let deed = resolve(state, event)?;
    carry_out(state, lines, deed)
}

/// A line that lets messages flow, which needs no names: what `carry_out` does with its deed.
#[tactic(auto, unfolding(nodes_world::specs::Step::carried_out))]
fn flow_line(state: &mut State, lines: &mut Vec<u8>, count: u32) -> Result<(), WorldFault>
    requires ready { IsReady state.old }
    ensures carries { CarriesLine (stepping.carries (Deed.Flow count) (shown state.old)) (shown state.old)
        (shown state.new) lines.old.items lines.new.items result }
    ensures ready { OnOk result (IsReady state.new) }
    ensures quiet { IsQuietDeed (Deed.Flow count) (shown state.old) → ¬ (IsErrOf result Memory) }
{
    flow_waiting(state, lines, count)?;
    let _within_the_limit = state.messages.next_number();
    Ok(())
}

/// A deed is carried out, unless a limit is passed.
fn carry_out(state: &mut State, lines: &mut Vec<u8>, deed: Deed) -> Result<(), WorldFault>
    requires ready { IsReady state.old }
    requires named { IsNamed deed (shown state.old) }
    ensures carries { CarriesLine (stepping.carries deed (shown state.old)) (shown state.old) (shown state.new)
        lines.old.items lines.new.items result }
    ensures ready { OnOk result (IsReady state.new) }
    ensures quiet { IsQuietDeed deed (shown state.old) → ¬ (IsErrOf result Memory) }
{
    do_deed(state, lines, deed)?;
    let _within_the_limit = state.messages.next_number();
    Ok(())
}

/// What a deed comes to, or a limit that it passes before.
#[tactic(auto, unfolding(nodes_world::specs::Step::carried_out))]
fn do_deed(state: &mut State, lines: &mut Vec<u8>, deed: Deed) -> Result<(), WorldFault>
    requires ready { IsReady state.old }
    requires named { IsNamed deed (shown state.old) }
    ensures carries { Carries
        (stepping.limit_before deed (shown state.old)) (stepping.carried_out deed (shown state.old))
        (shown state.new) lines.old.items lines.new.items result }
    ensures ready { OnOk result (IsReady state.new) }
    ensures quiet { IsQuietDeed deed (shown state.old) → ¬ (IsErrOf result Memory) }
{
    match deed {
        Deed::MakeNode(name) => make_node(state, lines, &name),
        Deed::MakeEnd(name) => make_end(state, lines, &name),
        Deed::Begin { at, name, seconds } => begin(state, lines, at, &name, seconds),
        Deed::Call { to, act } => call(state, lines, &to, act),
        Deed::Create { parent, name } => create_sub(state, lines, &parent, &name),
        Deed::Register {
            manner,
            transaction,
            end,
            name,
        } => register(state, lines, manner, &transaction, end, &name),
        Deed::Put {
            resource,
            cell,
            value,
        } => put(state, lines, &resource, cell, value),
        Deed::Refuse(resource) => refuse(state, lines, &resource),
        Deed::Flow(count) => flow_waiting(state, lines, count),
        Deed::Tick { at, seconds } => tick(state, lines, at, seconds),
        Deed::Crash(place) => crash(state, lines, place),
        Deed::Restart(place) => restart(state, lines, place),
        Deed::Stop { at, write, image } => {
            set_stop(state, at, Stop { write, image });
            Ok(())
        }
    }
}

/// Up to so many messages are delivered. Where none waits, no memory is wanted.
fn flow_waiting(state: &mut State, lines: &mut Vec<u8>, count: u32) -> Result<(), WorldFault>
    requires ready { IsReady state.old }
    ensures does { Does (flows count (shown state.old)) (shown state.new) lines.old.items lines.new.items result }
    ensures ready { OnOk result (IsReady state.new) }
    ensures quiet { lowest (shown state.old) ≡ None → IsOk result }
{
    match state.messages.lowest() {
        Some(_) => flow(state, lines, count),
        None => Ok(()),
    }
}
