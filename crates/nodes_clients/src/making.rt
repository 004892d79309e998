// The making of subtransactions.
ghost use Rattle.std.specs.Prelude.{◌≡◌, ◌≤◌, length, None, OnOk};
ghost use Rattle.coordinator.specs.declared.said.Said.TheVariants.{Made};
ghost use Rattle.nodes_world.specs.Clients as clients;
ghost use Rattle.nodes_world.specs.Happenings as happenings;
ghost use Rattle.nodes_world.specs.Limits.{seat_limit};
ghost use Rattle.nodes_world.specs.Told as told;
ghost use Rattle.nodes_world.specs.World as world;
ghost use Rattle.nodes_state.specs.Does.{Does};
ghost use Rattle.nodes_state.specs.Shown.{HasNames, shown};
ghost use Rattle.nodes_state.specs.Telling.{TellsOne};
ghost use Rattle.nodes_clients.specs.Called.{comes_of, made_in};
ghost use Rattle.nodes_clients.specs.Keeping.{KeepsSeats};

use crate::called::{make_call, tell_made};
use coordinator::{Act, Said};
use ior_refs::ObjectKey;
use nodes_lines::tell_known;
use nodes_parts::branch_of;
use nodes_state::State;
use ots_model::{Line, Name};
use ots_world::WorldFault;
use std::alloc::AllocError;

/// `sub P T`: `create_subtransaction` of a transaction.
pub fn create_sub(
    state: &mut State,
    lines: &mut Vec<u8>,
    parent: &ObjectKey,
    name: &Name,
) -> Result<(), WorldFault>
    requires few { length (state.old).seats.items ≤ seat_limit }
    requires names { HasNames state.old }
    requires free { world.thing_in (state.old).names.things name.now ≡ None }
    ensures does { Does (clients.creates_sub parent.now name.now (shown state.old)) (shown state.new)
        lines.old.items lines.new.items result }
    ensures seats { OnOk result (KeepsSeats state.old state.new) }
    ensures resources { OnOk result (world.resources (shown state.new) ≡ world.resources (shown state.old)) }
    ensures named { OnOk result (HasNames state.new) }
{
    let made = make_call(state, lines, parent, Act::CreateSubtransaction)?;
    name_created(state, lines, parent, name, &made.said)?;
    Ok(tell_made(lines, &made)?)
}

/// A subtransaction has its name, where one was made.
fn name_created(
    state: &mut State,
    lines: &mut Vec<u8>,
    parent: &ObjectKey,
    name: &Name,
    said: &Option<Said>,
) -> Result<(), WorldFault>
    requires names { HasNames state.old }
    requires free { world.thing_in (state.old).names.things name.now ≡ None }
    ensures does { Does (comes_of (clients.created parent.now name.now) said.entry.now (shown state.old))
        (shown state.new) lines.old.items lines.new.items result }
    ensures seats { (state.new).seats ≡ (state.old).seats }
    ensures resources { OnOk result (world.resources (shown state.new) ≡ world.resources (shown state.old)) }
    ensures named { OnOk result (HasNames state.new) }
{
    match branch_made(said) {
        Some(branch) => name_sub(state, lines, parent, name, branch),
        None => Ok(()),
    }
}

/// The branch that was made, where that is the answer.
fn branch_made(said: &Option<Said>) -> Option<u32>
    ensures { result ≡ made_in said.entry.now }
{
    match said {
        Some(Said::Made(branch)) => Some(*branch),
        _ => None,
    }
}

/// A subtransaction that was made has its name.
fn name_sub(
    state: &mut State,
    lines: &mut Vec<u8>,
    parent: &ObjectKey,
    name: &Name,
    branch: u32,
) -> Result<(), WorldFault>
    requires names { HasNames state.old }
    requires free { world.thing_in (state.old).names.things name.now ≡ None }
    ensures does { Does (clients.created parent.now name.now (Made branch) (shown state.old)) (shown state.new)
        lines.old.items lines.new.items result }
    ensures seats { (state.new).seats ≡ (state.old).seats }
    ensures resources { OnOk result (world.resources (shown state.new) ≡ world.resources (shown state.old)) }
    ensures named { OnOk result (HasNames state.new) }
{
    let above = state.names.transaction(parent);
    state
        .names
        .name_transaction(name, &branch_of(parent, branch))?;
    Ok(tell_sub(lines, *name, above)?)
}

/// Tells that a subtransaction was made, where its parent has a name.
fn tell_sub(lines: &mut Vec<u8>, transaction: Name, parent: Option<Name>) -> Result<(), AllocError>
    ensures { TellsOne (happenings.naming (λ above. told.Known (Line.Sub transaction above)) parent)
        lines.old.items lines.new.items result }
{
    match parent {
        Some(parent) => tell_known(
            lines,
            Line::Sub {
                transaction,
                parent,
            },
        ),
        None => Ok(()),
    }
}
