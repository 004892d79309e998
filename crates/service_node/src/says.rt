// What is answered for a family that is gone, by its record alone.
ghost use Rattle.std.specs.Prelude.{◌≡◌, ◌==◌, None, find, if◌then◌else◌};
ghost use Rattle.std.specs.Option.{option_copied};
ghost use Rattle.recovery_coord.specs.Limits.{recovery_kind};
ghost use Rattle.coordinator.specs.NodeRecords as records;
ghost use Rattle.recovery_coord.specs.Replay as replay;

use coordinator::{Act, Event, Said};
use ior_refs::ObjectKey;
use ots_model::tree::Word;
use ots_model::{PhaseWord, RefBytes, RetryKey, Vote};
use recovery_coord::{Held, Kind, Party};

/// The letters of the keys of a terminator, of a subordinate's resource, and of a recovery coordinator.
const TERMINATOR_KIND: u8 = b'T';

const SUBORDINATE_KIND: u8 = b'U';

const RECOVERY_KIND: u8 = b'V';

/// What a record answers to a call on one of its objects. It answers no other.
pub(crate) fn record_says(key: &ObjectKey, event: &Event, held: &Held) -> Option<Said>
    ensures { result ≡ records.record_says key.now (event.entry.now).key (event.entry.now).act held.now }
{
    match &event.act {
        Act::Commit(_) | Act::Rollback => terminator_says(key, held, event.key),
        Act::Replay(_, resource) => recovery_says(key, held, resource),
        Act::Superior(word) => resource_says(key, held, *word),
        _ => None,
    }
}

/// Whether the key is that of the only object of this kind.
fn is_only(kind: u8, key: &ObjectKey) -> bool
    ensures { result ≡ records.is_only kind key.now }
{
    key.kind == kind && key.index == 0
}

/// What commit and rollback on its terminator are answered.
fn terminator_says(key: &ObjectKey, held: &Held, by: Option<RetryKey>) -> Option<Said>
    ensures { result ≡ (if records.is_only records.terminator_kind key.now
        then records.terminator_says (held.now).kind by else None) }
{
    if !is_only(TERMINATOR_KIND, key) {
        return None;
    }
    match &held.kind {
        Kind::Decision(called, asked) => Some(end_said(*called, by, *asked)),
        Kind::Prepared(_) => None,
    }
}

/// What a call to end a family is answered whose commit was called with the first of these keys.
fn end_said(called: Option<RetryKey>, by: Option<RetryKey>, asked: bool) -> Said
    ensures { result ≡ records.end_said called by asked }
{
    if !is_commit_again(called, by) {
        return Said::InvalidTransaction;
    }
    if asked {
        return Said::Transient;
    }
    Said::Plain
}

/// Whether a call has the key by which the commit was called.
fn is_commit_again(called: Option<RetryKey>, by: Option<RetryKey>) -> bool
    ensures { result ≡ records.is_commit_again called by }
{
    match (called, by) {
        (Some(key), Some(other)) => key.client == other.client && key.number == other.number,
        _ => false,
    }
}

/// What `replay_completion` is answered on the recovery coordinator of a registration that it names.
fn recovery_says(key: &ObjectKey, held: &Held, resource: &RefBytes) -> Option<Said>
    ensures { result ≡ (if (key.now).kind == recovery_kind
        then records.recovery_says held.now resource.now (replay.party_named key.now held.now) else None) }
{
    if key.kind != RECOVERY_KIND {
        return None;
    }
    match party_named(held.parties.items(), key.index) {
        Some(party) => Some(party_says(held, party, resource)),
        None => None,
    }
}

/// The registration with this number.
pub(crate) fn party_named(parties: &[Party], index: u32) -> Option<&Party>
    ensures { option_copied result ≡ find (λ p. p.index == index) parties.now }
{
    parties.iter().find(|party| party.index == index)
}

/// What a registration is answered whose resource asks.
fn party_says(held: &Held, party: &Party, resource: &RefBytes) -> Said
    ensures { result ≡ records.party_says (held.now).status resource.now party.now }
{
    if party.to.bytes() == resource.bytes() {
        return Said::State(held.status);
    }
    Said::NotPrepared
}

/// What a superior's word is answered, of a subordinate that was told to decide for itself and has decided to commit.
fn resource_says(key: &ObjectKey, held: &Held, word: Word) -> Option<Said>
    ensures { result ≡ (if records.is_only records.subordinate_kind key.now
        then records.resource_says (held.now).kind word else None) }
{
    if !is_only(SUBORDINATE_KIND, key) || !held.kind.is_decided() {
        return None;
    }
    Some(word_said(word))
}

fn word_said(word: Word) -> Said
    ensures { result ≡ records.word_said word }
{
    match word {
        Word::Phase(PhaseWord::Prepare) => Said::Voted(Vote::VoteCommit),
        Word::Phase(PhaseWord::Rollback) => Said::HeuristicCommit,
        _ => Said::Transient,
    }
}
