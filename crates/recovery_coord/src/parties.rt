// The registrations of a record, one after another.
ghost use Rattle.std.specs.Prelude.{◌≡◌, map, IfOk};
ghost use Rattle.recovery_coord.specs.Held as holding;
ghost use Rattle.recovery_coord.specs.Hearing as hearing;
ghost use Rattle.recovery_coord.specs.Telling as telling;
ghost use Rattle.recovery_coord.specs.Waiting.{waiting_of};

use crate::held::{Due, Party};
use crate::waiting::Waiting;
use decision_journal::Registration;
use ots_model::PhaseHeard;
use ots_model::tree::Heard;
use std::alloc::{AllocError, Global};

/// What a registration waits for once it has answered what it waited for.
fn due_after(due: Due, h: &Heard) -> Due
    ensures { result ≡ hearing.due_after due h.now }
{
    match (due, h) {
        (_, Heard::Phase(PhaseHeard::Done) | Heard::Phase(PhaseHeard::NoObject)) => Due::Nothing,
        (Due::Commit, Heard::Phase(PhaseHeard::Heuristic(_))) => Due::Forget,
        _ => due,
    }
}

/// A registration hears an answer, where it has this number.
fn hear_one(party: &mut Party, serial: u32, h: &Heard)
    ensures { party.new ≡ hearing.party_after serial h.now party.old }
{
    if party.index == serial {
        party.due = due_after(party.due, h);
    }
}

/// The registration with this number hears an answer. The result is what they wait for then.
pub(crate) fn hear_all(parties: &mut [Party], serial: u32, h: &Heard) -> Waiting
    ensures after { parties.new ≡ map (hearing.party_after serial h.now) parties.old }
    ensures waiting { result ≡ waiting_of parties.new }
{
    let mut waiting = Waiting::none();
    for party in parties.iter_mut() {
        hear_one(party, serial, h);
        waiting = waiting.with(party.due);
    }
    waiting
}

/// A registration waits for commit once more.
fn recall_one(party: &mut Party)
    ensures { party.new ≡ telling.recalled party.old }
{
    party.due = Due::Commit;
}

/// Each registration waits for commit once more. The result is what they wait for then.
pub(crate) fn recall_all(parties: &mut [Party]) -> Waiting
    ensures after { parties.new ≡ map telling.recalled parties.old }
    ensures waiting { result ≡ waiting_of parties.new }
{
    let mut waiting = Waiting::none();
    for party in parties.iter_mut() {
        recall_one(party);
        waiting = waiting.with(party.due);
    }
    waiting
}

/// The registrations of a record, of whose tree these words are left over.
pub(crate) fn copy_parties(
    alloc: Global,
    registrations: &[Registration],
    first: Due,
    commits: &[u32],
    forgets: &[u32],
) -> Result<Vec<Party>, AllocError>
    ensures { IfOk result (λ parties. parties.items
        ≡ map (holding.party_of first commits.now forgets.now) registrations.now) }
{
    let mut parties = Vec::with_capacity(alloc, registrations.len())?;
    for registration in registrations {
        let due = due_to(first, commits, forgets, registration.index);
        parties.push(copy_party(alloc, registration, due)?)?;
    }
    Ok(parties)
}

/// A registration that waits for this.
fn copy_party(alloc: Global, registration: &Registration, due: Due) -> Result<Party, AllocError>
    ensures { IfOk result (λ party. party
        ≡ record { index = registration.now.index; to = registration.now.reference; due = due }) }
{
    Ok(Party {
        index: registration.index,
        to: registration.reference.copy(alloc)?,
        due,
    })
}

/// What a registration waits for by the words that its tree left over; where there are none, this.
fn due_to(first: Due, commits: &[u32], forgets: &[u32], index: u32) -> Due
    ensures { result ≡ holding.due_to first commits.now forgets.now index }
{
    if commits.is_empty() && forgets.is_empty() {
        return first;
    }
    if commits.contains(&index) {
        return Due::Commit;
    }
    if forgets.contains(&index) {
        return Due::Forget;
    }
    Due::Nothing
}
