// Questions about all participants of a completion together, and what is done to each of them.
ghost use Rattle.std.specs.Prelude.{◌≡◌, suc, ◌+◌, ◌<◌, ◌≤◌, ◌++◌, length, take, drop, position, true, None, Some, if◌then◌else◌, IsOk, OnOk, vec_len, vec_capacity};
ghost use Rattle.std.specs.Option.{option_copied, option_to_list};
ghost use Rattle.std.specs.List.{slice_get, list_all};
ghost use Rattle.two_phase.specs.Limits.{disposition_limit, registration_limit};
ghost use Rattle.two_phase.specs.Course as course;
ghost use Rattle.two_phase.specs.Parties.{has_been_told, has_consented, has_refused, is_unasked, is_untold};
ghost use Rattle.two_phase.specs.Reports as reports;

use crate::dispositions::Dispositions;
use crate::party::{Errand, Party, Stage, by_answer, disposition_of_ballot};
use ots_model::tree::Outcome;
use ots_model::{Decision, Disposition, PhaseHeard};
use std::alloc::AllocError;

/// What a participant answers to a word.
pub(crate) fn hear(parties: &mut [Party], errand: Errand, heard: PhaseHeard)
    requires there { errand.place < length parties.old }
    ensures { parties.new ≡ course.heard_by parties.old errand heard }
{
    parties[errand.place].hear(errand.stage, heard);
}

/// Whether each participant but the one at this place has answered its first word, where those in front have consented, and
/// behind nobody was asked.
#[tactic(auto, using(crate::proofs::Deciding::last_is_asked))]
pub(crate) fn others_have_answered(place: usize, parties: &[Party]) -> bool
    requires there { place < length parties.now }
    requires consented { list_all has_consented (take place parties.now) ≡ true }
    requires unasked { list_all is_unasked (drop (suc place) parties.now) ≡ true }
    ensures { result ≡ course.others_have_answered place parties.now }
{
    place + 1 == parties.len()
}

/// Those behind the first so many.
#[tactic(auto, using(crate::proofs::Behind::drop_none))]
fn behind(count: usize, parties: &[Party]) -> &[Party]
    ensures { result.now ≡ drop count parties.now }
{
    if count < parties.len() {
        &parties[count..]
    } else {
        &[]
    }
}

/// The first participant whose answer is no consent, where the first so many have consented, and behind the next one
/// nobody was asked.
pub(crate) fn first_refuser(consented: usize, parties: &[Party]) -> Option<&Party>
    requires consented { list_all has_consented (take consented parties.now) ≡ true }
    requires unasked { list_all is_unasked (drop (suc consented) parties.now) ≡ true }
    ensures { option_copied result ≡ course.first_refuser parties.now }
{
    match party_at(consented, parties) {
        Some(party) => refusing(party),
        None => None,
    }
}

/// The participant at this place.
fn party_at(place: usize, parties: &[Party]) -> Option<&Party>
    ensures { option_copied result ≡ slice_get parties.now place }
{
    parties.get(place)
}

/// This participant, where its answer is no consent.
fn refusing(party: &Party) -> Option<&Party>
    ensures { option_copied result ≡ (if has_refused party.now then Some party.now else None) }
{
    if party.has_refused() {
        Some(party)
    } else {
        None
    }
}

/// Whether each participant has consented, where the first so many have.
pub(crate) fn all_have_consented(consented: usize, parties: &[Party]) -> bool
    requires consented { list_all has_consented (take consented parties.now) ≡ true }
    ensures { result ≡ list_all has_consented parties.now }
{
    are_consents(behind(consented, parties))
}

/// Whether each of these has consented.
fn are_consents(parties: &[Party]) -> bool
    ensures { result ≡ list_all has_consented parties.now }
{
    parties.iter().all(|p| p.has_consented())
}

/// The place of the next participant that is asked, where the first so many have consented.
#[tactic(auto, using(crate::proofs::Consented::asked_within))]
pub(crate) fn next_asked(consented: usize, parties: &[Party]) -> Option<usize>
    requires consented { list_all has_consented (take consented parties.now) ≡ true }
    ensures { result ≡ course.next_asked parties.now }
{
    match unasked_of(behind(consented, parties)) {
        Some(further) => Some(consented + further),
        None => None,
    }
}

/// The place among these of the first that isn't asked yet.
fn unasked_of(parties: &[Party]) -> Option<usize>
    ensures { result ≡ position is_unasked parties.now }
{
    parties.iter().position(|p| p.is_unasked())
}

/// The place of the next participant that is told this outcome, where the first so many were told.
#[tactic(auto, using(crate::proofs::Told::untold_within))]
pub(crate) fn next_told(
    told: usize,
    alone: bool,
    fixed: Outcome,
    parties: &[Party],
) -> Option<usize>
    requires told { list_all has_been_told (take told parties.now) ≡ true }
    ensures { result ≡ course.next_told alone fixed parties.now }
{
    match untold_of(alone, fixed, behind(told, parties)) {
        Some(further) => Some(told + further),
        None => None,
    }
}

/// The place among these of the first that is still to be told this outcome.
fn untold_of(alone: bool, fixed: Outcome, parties: &[Party]) -> Option<usize>
    ensures { result ≡ position (is_untold alone fixed) parties.now }
{
    parties.iter().position(|p| p.is_untold(alone, fixed))
}

/// The place of the next participant that is told to forget.
#[tactic(auto, unfolding(crate::specs::Course::next_forgetting))]
pub(crate) fn next_forgetting(parties: &[Party]) -> Option<usize>
    ensures { result ≡ course.next_forgetting parties.now }
{
    parties.iter().position(|p| p.is_unforgotten())
}

/// What was heard of the updates of these participants, where this is decided.
#[tactic(auto, unfolding(crate::specs::Reports::gathered))]
pub(crate) fn gathered(told: Decision, parties: &[Party]) -> Dispositions
    requires few { length parties.now ≤ registration_limit }
    ensures { result ≡ reports.gathered told parties.now }
{
    let mut list = Dispositions::new();
    for party in parties {
        add(disposition_of_ballot(party.ballot), &mut list);
        add(party.disposition(told), &mut list);
    }
    list
}

/// Adds a disposition, where there is one.
fn add(disposition: Option<Disposition>, list: &mut Dispositions)
    requires { length list.old < disposition_limit }
    ensures { list.new ≡ list.old ++ option_to_list disposition }
{
    if let Some(disposition) = disposition {
        list.push(disposition);
    }
}

/// Whether each participant that was to be told this outcome has completed. They are told in order, so the last is looked at
/// first.
#[tactic(auto, using(crate::proofs::Through::not_through, crate::proofs::Through::others_through, crate::proofs::Through::none_there))]
pub(crate) fn all_through(alone: bool, fixed: Outcome, parties: &[Party]) -> bool
    ensures { result ≡ reports.all_through alone fixed parties.now }
{
    match parties.split_last() {
        Some((last, others)) => {
            last.is_through(alone, fixed) && are_through(alone, fixed, others)
        }
        None => true,
    }
}

/// Whether each of these has completed that was to be told this outcome.
#[tactic(auto, unfolding(crate::specs::Reports::all_through))]
fn are_through(alone: bool, fixed: Outcome, parties: &[Party]) -> bool
    ensures { result ≡ reports.all_through alone fixed parties.now }
{
    parties.iter().all(|p| p.is_through(alone, fixed))
}

/// Whether some participant is owed a word of this stage.
#[tactic(auto, unfolding(crate::specs::Reports::some_owed))]
pub(crate) fn some_owed(stage: Stage, parties: &[Party]) -> bool
    ensures { result ≡ reports.some_owed stage parties.now }
{
    parties.iter().any(|p| p.is_owed(stage))
}

/// Takes memory for so many more numbers, where there is none yet.
pub(crate) fn make_room(count: usize, into: &mut Vec<u32>) -> Result<(), AllocError>
    ensures ok { OnOk result (vec_len into.new + count ≤ vec_capacity into.new) }
    ensures same { into.new.items ≡ into.old.items }
    ensures reserved { vec_len into.old + count ≤ vec_capacity into.old → IsOk result }
    ensures capacity { vec_capacity into.old ≤ vec_capacity into.new }
{
    if into.capacity() - into.len() < count {
        into.reserve(count)
    } else {
        Ok(())
    }
}

/// Appends the numbers of those that are owed a word of this stage. It needs no memory.
#[tactic(auto, unfolding(crate::specs::Reports::owed_numbers))]
pub(crate) fn add_owed_numbers(stage: Stage, parties: &[Party], into: &mut Vec<u32>)
    requires room { vec_len into.old + length parties.now ≤ vec_capacity into.old }
    ensures numbers { into.new.items ≡ into.old.items ++ reports.owed_numbers stage parties.now }
    ensures capacity { vec_capacity into.new ≡ vec_capacity into.old }
{
    for party in parties {
        if party.is_owed(stage) {
            into.push_reserved(party.index);
        }
    }
}

/// The outcome where one was asked to decide alone.
pub(crate) fn by_one(parties: &[Party]) -> Option<Outcome>
    ensures { result ≡ course.by_one (slice_get parties.now 0) }
{
    let party = parties.first()?;
    let heard = party.ballot?;
    Some(by_answer(party.index, heard))
}
