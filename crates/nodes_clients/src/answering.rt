// What is told of a call to a node.
ghost use Rattle.std.specs.Prelude.{◌≡◌, ◌==◌, IfOk, List, [], ◌∷◌, ◌++◌, find, Some};
ghost use Rattle.std.specs.Option.{option_copied, option_map};
ghost use Rattle.coordinator.specs.Node.{Node};
ghost use Rattle.coordinator.specs.NodeCalls as calls;
ghost use Rattle.nodes_world.specs.Happenings as happenings;
ghost use Rattle.nodes_world.specs.Nodes as nodes;
ghost use Rattle.nodes_world.specs.Told.{Down, Told};
ghost use Rattle.nodes_world.specs.World.{World, node_in};
ghost use Rattle.nodes_state.specs.Seated.{seat_of};
ghost use Rattle.nodes_state.specs.Telling.{AreNamesOf, TellsSome};
ghost use Rattle.nodes_clients.specs.Answering.{AreKept, AreTold, family_in, spoken_of};

use coordinator::{Act, Effect, Entry, Event, NodeFault, StepAnswer};
use family_step::Family;
use ior_refs::ObjectKey;
use nodes_lines::tell_down;
use nodes_lives::LiveNode;
use nodes_parts::Directory;
use nodes_state::{Cast, Roster, Seat, key_of_record, tell_effects, tell_finished};
use ots_model::{CallNumber, Name};
use std::alloc::{AllocError, Global};

/// The number of the word that was told again, where this is the answer to one.
fn retold_number(act: &Act) -> Option<&CallNumber>
    ensures { option_copied result ≡ option_map (λ (a : calls.RetoldAnswer). a.number) (calls.retold_answer act.now) }
{
    match act.retold_answer() {
        Some((number, _)) => Some(number),
        None => None,
    }
}

/// The family that an event is for.
pub(crate) fn family_for<'a>(
    node: &'a LiveNode,
    key: &ObjectKey,
    event: &Event,
) -> Option<&'a Family>
    ensures { family_in result ≡ calls.family_for key.now event.entry.now node.now.node }
{
    if retold_number(&event.act).is_some() {
        return None;
    }
    node.family(key)
}

/// The key of the family of the record at a seat for which an answer comes, where it is one to a word that was told
/// again.
pub(crate) fn recorded_at(seat: &Seat, act: &Act) -> Option<ObjectKey>
    ensures { (n : Node) → node_in (seat_of seat.now).server ≡ Some n
        → option_map happenings.cast_of_key result ≡ nodes.cast_of_record (calls.retold_answer act.now) n }
{
    match seat.node() {
        Some(node) => recorded_key(node, act),
        None => None,
    }
}

/// The same at a node.
fn recorded_key(node: &LiveNode, act: &Act) -> Option<ObjectKey>
    ensures { option_map happenings.cast_of_key result
        ≡ nodes.cast_of_record (calls.retold_answer act.now) node.now.node }
{
    let number = retold_number(act)?;
    let held = node.record_at(number.generation)?;
    Some(key_of_record(node.service(), held))
}

/// Tells what a call was answered that went through, to a family or to a record.
pub(crate) fn tell_answer(
    lines: &mut Vec<u8>,
    names: &Directory,
    family: Option<&Family>,
    recorded: Option<ObjectKey>,
    answer: &Result<StepAnswer, NodeFault>,
) -> Result<(), AllocError>
    ensures { (w : World) → AreNamesOf names.now w
        → TellsSome (nodes.answer_told w (spoken_of (family_in family.entry) recorded) (nodes.entries_of (family_in family.entry))
        answer.now) lines.old.items lines.new.items result }
{
    match answer {
        Ok(answer) => {
            tell_happened(lines, names, family, recorded, answer.effects.items())?;
            tell_finished(lines, entries_of(family), answer.finished.items())
        }
        Err(_) => Ok(()),
    }
}

/// Tells what happened to a family, or to the one of a record.
fn tell_happened(
    lines: &mut Vec<u8>,
    names: &Directory,
    family: Option<&Family>,
    recorded: Option<ObjectKey>,
    effects: &[Effect],
) -> Result<(), AllocError>
    ensures { (w : World) → AreNamesOf names.now w
        → TellsSome (nodes.effects_told w (spoken_of (family_in family.entry) recorded) effects.now)
        lines.old.items lines.new.items result }
{
    match family {
        Some(family) => tell_effects(lines, names, Cast::of(family), effects),
        None => match recorded {
            Some(key) => tell_effects(lines, names, Cast::of_key(key), effects),
            None => Ok(()),
        },
    }
}

/// The history in which the calls are that an event answers.
fn entries_of(family: Option<&Family>) -> &[Entry]
    ensures { result.now ≡ nodes.entries_of (family_in family.entry) }
{
    match family {
        Some(family) => family.entries(),
        None => &[],
    }
}

/// The names of those who are registered with the family of a key, where a stop is to come at a seat.
pub(crate) fn names_before_stop(
    alloc: Global,
    seat: &Seat,
    names: &Directory,
    key: &ObjectKey,
) -> Result<Option<Roster>, AllocError>
    ensures { IfOk result (λ roster. (w : World) → AreNamesOf names.now w
        → AreKept key.now (seat_of seat.now) roster w) }
{
    if seat.stop.is_none() {
        return Ok(None);
    }
    let Some(node) = seat.node() else {
        return Ok(None);
    };
    match node.family(key) {
        Some(family) => Ok(Some(Roster::of(alloc, family, names)?)),
        None => Ok(None),
    }
}

/// Tells that a node has crashed in a call, and before that what had happened to the family.
pub(crate) fn tell_crash(
    lines: &mut Vec<u8>,
    names: &Directory,
    roster: &Option<Roster>,
    effects: &[Effect],
    node: Name,
) -> Result<(), AllocError>
    ensures { (w : World) (some : List Told) → AreNamesOf names.now w → AreTold w roster.now effects.now some
        → TellsSome (some ++ Down node ∷ []) lines.old.items lines.new.items result }
{
    tell_heard(lines, names, roster, effects)?;
    tell_down(lines, node)
}

/// Tells what had happened to a family before its node crashed.
fn tell_heard(
    lines: &mut Vec<u8>,
    names: &Directory,
    roster: &Option<Roster>,
    effects: &[Effect],
) -> Result<(), AllocError>
    ensures { (w : World) (some : List Told) → AreNamesOf names.now w → AreTold w roster.now effects.now some
        → TellsSome some lines.old.items lines.new.items result }
{
    match roster {
        Some(roster) => tell_effects(lines, names, Cast::of_roster(roster), effects),
        None => Ok(()),
    }
}
