// The journals of nodes are told.
ghost use Rattle.std.specs.Prelude.{◌≢◌, ℕ, [], OnErr};
ghost use Rattle.nodes_lives.specs.Loads.{StoresJournal};
ghost use Rattle.nodes_world.specs.Journals.{records_in};
ghost use Rattle.nodes_world.specs.Lives as lives;
ghost use Rattle.nodes_state.specs.Seated.{seat_of, server_of};
ghost use Rattle.nodes_state.specs.Shown.{shown};
ghost use Rattle.nodes_state.specs.Telling.{TellsOne, TellsSome};
ghost use Rattle.nodes_seats.specs.Whole.{IsServed, IsWhole};
ghost use Rattle.nodes_endings.specs.Stored.{IsStored};

use nodes_lines::tell_journal;
use nodes_parts::last_gates;
use nodes_state::{Seat, Server, State};
use nodes_world::records_are_read;
use ots_model::Name;
use std::alloc::AllocError;

/// The journal of each node is told, in the order of their making: of one that is down, that which its crash left. Where there
/// is no node, no memory is wanted.
pub fn tell_journals(state: &State, lines: &mut Vec<u8>) -> Result<(), AllocError>
    requires whole { IsWhole state.now }
    ensures told { TellsSome (lives.last_lines (shown state.now)) lines.old.items lines.new.items result }
    ensures memory { OnErr result (lives.last_lines (shown state.now) ≢ []) }
{
    for (place, seat) in state.seats.iter().enumerate() {
        tell_seat(lines, seat, place)?;
    }
    Ok(())
}

/// The journal of the node at a seat is told, where one is there.
fn tell_seat(lines: &mut Vec<u8>, seat: &Seat, place: usize) -> Result<(), AllocError>
    requires served { IsServed place (seat.now).server }
    ensures told { TellsOne (lives.journal_lines_of place (seat_of seat.now) (server_of (seat.now).server))
        lines.old.items lines.new.items result }
    ensures memory { OnErr result (lives.journal_lines_of place (seat_of seat.now) (server_of (seat.now).server) ≢ []) }
{
    match &seat.server {
        Server::Up(node) => {
            node.kept();
            tell_octets(lines, seat.name, node.octets())
        }
        Server::Down(octets) => tell_octets(lines, seat.name, octets.as_slice()),
        Server::End(_) => Ok(()),
    }
}

/// The journal on a disk of these octets is told, up to the gate at its end, which is closed.
fn tell_octets(lines: &mut Vec<u8>, name: Name, octets: &[u8]) -> Result<(), AllocError>
    requires stored { IsStored octets.now }
    ensures told { (service : ℕ) → StoresJournal service octets.now → TellsOne
        (lives.journal_line name service (records_in service octets.now)) lines.old.items lines.new.items result }
    ensures memory { (service : ℕ) → StoresJournal service octets.now
        → lives.journal_line name service (records_in service octets.now) ≢ [] }
{
    records_are_read();
    let end = last_gates(octets).end;
    tell_journal(lines, name, &octets[..end], 0)
}
