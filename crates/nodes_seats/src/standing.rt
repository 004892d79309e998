// The lines that tell that a node runs, and the decisions that stand there.
ghost use Rattle.std.specs.Prelude.{◌≡◌};
ghost use Rattle.std.specs.List.{flat_map};
ghost use Rattle.nodes_world.specs.Lives as lives;
ghost use Rattle.nodes_world.specs.World.{World};
ghost use Rattle.nodes_state.specs.Shown.{HasNames, shown};
ghost use Rattle.nodes_state.specs.Telling.{AreNamesOf, TellsOne, TellsSome};
ghost use Rattle.nodes_seats.specs.Placed.{up_lines_at};

use nodes_lines::tell_known;
use nodes_lives::LiveNode;
use nodes_parts::Directory;
use nodes_state::{State, key_of_record};
use ots_model::{Ground, Line, Name, Outcome};
use recovery_coord::Held;
use std::alloc::AllocError;

/// Tells that the node at a place runs, and each decision that stands there.
pub(crate) fn tell_up_at(state: &State, lines: &mut Vec<u8>, place: usize) -> Result<(), AllocError>
    requires names { HasNames state.now }
    ensures { TellsSome (up_lines_at (shown state.now) place) lines.old.items lines.new.items result }
{
    let Some(seat) = state.seats.get(place) else {
        return Ok(());
    };
    match seat.node() {
        Some(node) => tell_up(lines, &state.names, seat.name, node),
        None => Ok(()),
    }
}

/// Tells that a node runs, and each decision that stands.
fn tell_up(
    lines: &mut Vec<u8>,
    names: &Directory,
    server: Name,
    node: &LiveNode,
) -> Result<(), AllocError>
    ensures { (w : World) → AreNamesOf names.now w
        → TellsSome (lives.up_lines w server node.now.node) lines.old.items lines.new.items result }
{
    let life = node.life();
    tell_known(lines, Line::Up { server, life })?;
    tell_all_standing(lines, names, node.service(), node.records())
}

/// Tells the decisions among records that stand, in order.
fn tell_all_standing(
    lines: &mut Vec<u8>,
    names: &Directory,
    service: u64,
    records: &[Held],
) -> Result<(), AllocError>
    ensures { (w : World) → AreNamesOf names.now w
        → TellsSome (flat_map (lives.standing_lines w service) records.now) lines.old.items lines.new.items result }
{
    for held in records {
        tell_standing(lines, names, service, held)?;
    }
    Ok(())
}

/// Tells a record that stands, where it is a decision.
fn tell_standing(
    lines: &mut Vec<u8>,
    names: &Directory,
    service: u64,
    held: &Held,
) -> Result<(), AllocError>
    ensures { (w : World) → AreNamesOf names.now w
        → TellsOne (lives.standing_lines w service held.now) lines.old.items lines.new.items result }
{
    if !held.kind.is_decided() {
        return Ok(());
    }
    match names.transaction(&key_of_record(service, held)) {
        Some(transaction) => tell_known(
            lines,
            Line::Decide {
                transaction,
                outcome: Outcome::Commit(Ground::Record),
            },
        ),
        None => Ok(()),
    }
}
