// The clocks of nodes go on.
ghost use Rattle.std.specs.Prelude.{◌≡◌, ℕ, List, OnOk, IfOk, IfErr, Some};
ghost use Rattle.coordinator.specs.Node.{Node};
ghost use Rattle.coordinator.specs.NodeTick as ticks;
ghost use Rattle.ots_model.specs.declared.tree.Outward.{Outward as Word};
ghost use Rattle.ots_world.specs.declared.fault.WorldFault.TheVariants.{Memory};
ghost use Rattle.nodes_world.specs.Happenings as happenings;
ghost use Rattle.nodes_world.specs.Lives as lives;
ghost use Rattle.nodes_world.specs.Nodes as nodes;
ghost use Rattle.nodes_world.specs.World as world;
ghost use Rattle.nodes_state.specs.Does.{Does, StaysSo};
ghost use Rattle.nodes_state.specs.Seated.{seat_of};
ghost use Rattle.nodes_state.specs.Shown.{HasNames, shown};
ghost use Rattle.nodes_state.specs.Telling.{TellsSome};
ghost use Rattle.nodes_seats.specs.Ticking.{HasTickedIn, IsDueOf, IsNext, happening_lines, tells_tick};
ghost use Rattle.nodes_seats.specs.Waiting.{IsPrimed, IsSplit, waiting_words};
ghost use Rattle.nodes_seats.specs.Whole.{IsServed, IsWhole};

use crate::waiting::Waiting;
use family_laws::families_number_words;
use nodes_state::{Cast, Seat, Server, State, tell_effects, tell_finished};
use ots_world::WorldFault;
use recovery_coord::Outbox;
use service_node::{Happening, Happenings};
use std::alloc::{AllocError, Global};
use std::mem;

/// What is still to be told of a tick, and the words that are still to go out: those of the families by slot, and then
/// those that are told again.
#[derive(Drop)]
struct Due {
    happened: Happenings,
    words: Outbox,
}

/// `tick N SECONDS`: the clock of the seat goes on, and what is due at its node is done.
pub fn tick(
    state: &mut State,
    lines: &mut Vec<u8>,
    place: u32,
    seconds: u64,
) -> Result<(), WorldFault>
    requires whole { IsWhole state.old }
    ensures does { Does (lives.ticks place seconds (shown state.old)) (shown state.new)
        lines.old.items lines.new.items result }
    ensures whole { OnOk result (IsWhole state.new) }
{
    if place as usize >= state.seats.len() {
        return Ok(());
    }
    let alloc = state.alloc;
    match tick_in(alloc, &mut state.seats[place as usize], seconds)? {
        Some(due) => {
            let Due { happened, words } = due;
            tell_due(state, lines, place, happened.items(), words)
        }
        None => Ok(()),
    }
}

/// The clock of a seat goes on, and time passes for its node, where one is up.
fn tick_in(alloc: Global, seat: &mut Seat, seconds: u64) -> Result<Option<Due>, WorldFault>
    ensures ticked { IfOk result (λ due. HasTickedIn seconds (seat_of seat.old) (seat_of seat.new) due) }
    ensures served { OnOk result ((place : ℕ) → IsServed place seat.old.server → IsServed place seat.new.server) }
    ensures fault { IfErr result (λ fault. fault ≡ Memory) }
{
    families_number_words();
    let now = seat.clock.saturating_add(seconds);
    seat.clock = now;
    match mem::replace(&mut seat.server, Server::Down(Vec::new(alloc))) {
        Server::Up(node) => {
            node.kept();
            let ticked = node.tick(now)?;
            seat.server = Server::Up(ticked.node);
            Ok(Some(Due {
                happened: ticked.happened,
                words: ticked.words,
            }))
        }
        Server::Down(octets) => {
            seat.server = Server::Down(octets);
            Ok(None)
        }
        Server::End(end) => {
            seat.server = Server::End(end);
            Ok(None)
        }
    }
}

/// What happened in a tick of the node at a place is told, and the words go out.
fn tell_due(
    state: &mut State,
    lines: &mut Vec<u8>,
    place: u32,
    happened: &[Happening],
    words: Outbox,
) -> Result<(), WorldFault>
    requires names { HasNames state.old }
    ensures does { (t : ticks.Ticked) → world.node_at (shown state.old) place ≡ Some t.node
        → IsDueOf t happened.now words.words
        → Does (tells_tick place t.node t.happened t.words (shown state.old)) (shown state.new)
        lines.old.items lines.new.items result }
    ensures same { StaysSo state.old state.new }
{
    let mut words = Waiting::of(words);
    for happening in happened {
        tell_one(state, lines, place, happening, &mut words)?;
    }
    send_waiting(state, lines, place, words)
}

/// What happened to one family is told, and its words go out.
fn tell_one(
    state: &mut State,
    lines: &mut Vec<u8>,
    place: u32,
    happening: &Happening,
    words: &mut Waiting,
) -> Result<(), WorldFault>
    requires names { HasNames state.old }
    requires primed { IsPrimed words.old }
    ensures does { (later : Node) (h : ticks.Happening) (rest : List Word)
        → world.node_at (shown state.old) place ≡ Some later → IsNext h rest happening.now words.old
        → Does (nodes.happens place later h (shown state.old)) (shown state.new) lines.old.items lines.new.items result }
    ensures rest { (h : ticks.Happening) (rest : List Word) → IsNext h rest happening.now words.old
        → OnOk result (waiting_words words.new ≡ rest) }
    ensures primed { OnOk result (IsPrimed words.new) }
    ensures same { StaysSo state.old state.new }
{
    tell_happening(state, lines, place, happening)?;
    send_words_of(state, lines, place, happening.key.slot, words)
}

/// What happened to a family of the node at a place is told, where it is still there.
fn tell_happening(
    state: &State,
    lines: &mut Vec<u8>,
    place: u32,
    happening: &Happening,
) -> Result<(), AllocError>
    requires names { HasNames state.now }
    ensures { (later : Node) → world.node_at (shown state.now) place ≡ Some later
        → TellsSome (happening_lines (shown state.now) later happening.now) lines.old.items lines.new.items result }
{
    let Some(node) = state.node(place as usize) else {
        return Ok(());
    };
    let Some(family) = node.family(&happening.key) else {
        return Ok(());
    };
    let effects = happening.effects.items();
    tell_effects(lines, &state.names, Cast::of(family), effects)?;
    tell_finished(lines, family.entries(), happening.finished.items())
}

/// The words that wait and are of a family in a slot go out.
fn send_words_of(
    state: &mut State,
    lines: &mut Vec<u8>,
    place: u32,
    slot: u32,
    words: &mut Waiting,
) -> Result<(), WorldFault>
    requires names { HasNames state.old }
    requires primed { IsPrimed words.old }
    ensures does { (own rest : List Word) → IsSplit slot own rest words.old
        → Does (happenings.requests_all place own (shown state.old)) (shown state.new)
        lines.old.items lines.new.items result }
    ensures rest { (own rest : List Word) → IsSplit slot own rest words.old
        → OnOk result (waiting_words words.new ≡ rest) }
    ensures primed { OnOk result (IsPrimed words.new) }
    ensures same { StaysSo state.old state.new }
{
    while let Some(outward) = words.take_of(slot) {
        state.request(lines, place, outward)?;
    }
    Ok(())
}

/// All words that wait go out.
fn send_waiting(
    state: &mut State,
    lines: &mut Vec<u8>,
    place: u32,
    words: Waiting,
) -> Result<(), WorldFault>
    requires names { HasNames state.old }
    ensures does { Does (happenings.requests_all place (waiting_words words) (shown state.old)) (shown state.new)
        lines.old.items lines.new.items result }
    ensures same { StaysSo state.old state.new }
{
    let Waiting { next, others } = words;
    match next {
        Some(outward) => {
            state.request(lines, place, outward)?;
            state.send_words(lines, place, others)
        }
        None => state.send_words(lines, place, others),
    }
}
