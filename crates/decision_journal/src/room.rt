ghost use Rattle.std.specs.Prelude.{◌≡◌, ◌⊎◌, ℕ, List, ◌<◌, ◌≤◌, ◌+◌, ◌*◌, ◌^◌, ◌++◌, ◌∷◌, [], length, take, vec_capacity, false, IsTrue, IfErr, IfSome, OnOk, OnErr, None, Some};
ghost use Rattle.decision_journal.specs.Limits.{area_limit};
ghost use Rattle.decision_journal.specs.Layout.{Fits, record_octets};
ghost use Rattle.decision_journal.specs.Index.{AreBefore};
ghost use Rattle.decision_journal.specs.Room.{IsRoomy, cells_in_doubt, stands_in_doubt};
ghost use Rattle.decision_journal.specs.State.{IsRoomFault, MayFind, cells_in, decisions, doubted_octets, need, used, with_doubted};

use crate::found::{Index, STANDING_LIMIT, is_decided};
use crate::journal::JournalFault;
use crate::record::JournalRecord;
use crate::scan::Along;
use crate::writing::{length_of, put_octets, put_record};
use std::alloc::AllocError;

/// How many octets the Done of a decision takes.
const DONE_LENGTH: u64 = 10;

/// How many octets a record needs, of so many octets itself.
fn need_of(area: u64, index: &Index, item: &JournalRecord, size: usize) -> u64
    requires small { size < 2 ^ 32 }
    requires area { area ≤ area_limit }
    requires size { size ≡ length (record_octets item.now) }
    ensures { result ≡ need area index.now.found item.now }
{
    if !is_decided(item) {
        return size as u64;
    }
    if index.decisions() < STANDING_LIMIT {
        size as u64 + DONE_LENGTH
    } else {
        area + 1
    }
}

/// Whether there is room for a record behind these octets.
pub(crate) fn has_room(
    area: u64,
    octets: &[u8],
    index: &Index,
    item: &JournalRecord,
) -> Result<(), JournalFault>
    requires fits { Fits item.now }
    requires area { area ≤ area_limit }
    requires gate { length octets.now < area_limit }
    requires few { decisions index.now.found ≤ length octets.now }
    ensures room { OnOk result (used octets.now index.now.found + need area index.now.found item.now ≤ area) }
    ensures fault { IfErr result (IsRoomFault area octets.now index.now.found item.now) }
{
    let used = used_of(octets, index);
    let need = need_of(area, index, item, length_of(item));
    if area < used + need {
        return Err(JournalFault::Full { used, need });
    }
    Ok(())
}

/// How many octets are used.
pub(crate) fn used_of(octets: &[u8], index: &Index) -> u64
    requires gate { length octets.now < area_limit }
    requires few { decisions index.now.found ≤ length octets.now }
    ensures { result ≡ used octets.now index.now.found }
{
    octets.len() as u64 + 1 + DONE_LENGTH * index.decisions() as u64
}

/// How many records of cells a record is.
pub(crate) fn count_cells(item: &JournalRecord) -> usize
    ensures { result ≡ cells_in item.now }
{
    match item {
        JournalRecord::CellsPrepared(..)
        | JournalRecord::CellsOutcome(..)
        | JournalRecord::CellsOnePhase(..) => 1,
        _ => 0,
    }
}

/// Puts a record behind these octets, and a closed gate behind it. There is room for both.
pub(crate) fn put_closed_record(octets: &mut Vec<u8>, item: &JournalRecord)
    requires fits { Fits item.now }
    requires room { length octets.old.items + length (record_octets item.now) + 1 ≤ vec_capacity octets.old }
    ensures octets { octets.new.items ≡ octets.old.items ++ (record_octets item.now ++ 0 ∷ []) }
    ensures room { vec_capacity octets.old ≤ vec_capacity octets.new }
{
    put_record(octets, item);
    octets.push_reserved(0);
}

/// Puts the record in doubt behind these octets. There is room for it.
pub(crate) fn put_doubted(octets: &mut Vec<u8>, doubted: &Option<JournalRecord>)
    requires fits { IfSome doubted.now Fits }
    requires room { length octets.old.items + length (doubted_octets doubted.now) ≤ vec_capacity octets.old }
    ensures octets { octets.new.items ≡ octets.old.items ++ doubted_octets doubted.now }
    ensures room { vec_capacity octets.old ≤ vec_capacity octets.new }
{
    if let Some(item) = doubted {
        put_record(octets, item);
    }
}

/// Leaves a record in doubt.
pub(crate) fn doubt(doubted: &mut Option<JournalRecord>, item: JournalRecord)
    ensures { doubted.new ≡ Some item }
{
    *doubted = Some(item);
}

/// Adds the record in doubt, whose gate is at this place.
fn add_doubted(index: &mut Index, gate: u32, doubted: &mut Option<JournalRecord>)
    requires behind { AreBefore gate index.old.found.standing }
    requires room { stands_in_doubt doubted.old ≤ index.old.spare }
    ensures found { index.new.found ≡ with_doubted index.old.found gate doubted.old }
    ensures spare { index.old.spare ≤ index.new.spare + stands_in_doubt doubted.old }
    ensures decisions { decisions index.old.found + index.old.spare
        ≤ decisions index.new.found + index.new.spare + cells_in_doubt doubted.old }
    ensures none { doubted.new ≡ None }
{
    if let Some(item) = doubted.take() {
        index.add(gate, item);
    }
}

/// Whether a disk that was read has the octets before this gate, or these and those of the record in doubt. It is known then
/// which, and nothing is in doubt; else all is as before the octets in doubt were put behind the others.
pub(crate) fn find(
    octets: &mut Vec<u8>,
    gate: usize,
    index: &mut Index,
    doubted: &mut Option<JournalRecord>,
    along: Along,
) -> bool
    requires small { gate < 2 ^ 32 }
    requires whole { octets.old.items ≡ take gate octets.old.items ++ doubted_octets doubted.old }
    requires gate { length (take gate octets.old.items) ≡ gate }
    requires behind { AreBefore gate index.old.found.standing }
    requires room { stands_in_doubt doubted.old ≤ index.old.spare }
    ensures known { IsTrue result → MayFind (take gate octets.old.items) index.old.found doubted.old
        octets.new.items index.new.found }
    ensures front { IsTrue result → (rest : List ℕ) × (octets.old.items ≡ octets.new.items ++ rest) }
    ensures ends { IsTrue result → (along.same ≡ length octets.new.items) × IsTrue along.closed }
    ensures none { IsTrue result → doubted.new ≡ None }
    ensures other { result ≡ false → IsTrue along.closed
        → ((along.same ≡ gate) ⊎ (along.same ≡ length octets.old.items)) → ⊥ }
    ensures same { result ≡ false → (octets.new.items ≡ take gate octets.old.items)
        × (index.new ≡ index.old) × (doubted.new ≡ doubted.old) }
    ensures roomy { (area piece kept : ℕ) → IsRoomy area (vec_capacity octets.old) piece index.old doubted.old kept
        → IsRoomy area (vec_capacity octets.new) piece index.new doubted.new kept }
{
    if along.ends_at(gate) {
        octets.truncate(gate);
        *doubted = None;
        return true;
    }
    if along.ends_at(octets.len()) {
        add_doubted(index, gate as u32, doubted);
        return true;
    }
    octets.truncate(gate);
    false
}

/// Puts octets and a closed gate behind those of a list, or leaves it as it was where memory runs out.
pub(crate) fn put_closed(into: &mut Vec<u8>, octets: &[u8]) -> Result<(), AllocError>
    ensures ok { OnOk result (into.new.items ≡ into.old.items ++ (octets.now ++ 0 ∷ [])) }
    ensures err { OnErr result (into.new.items ≡ into.old.items) }
{
    ok!(into.reserve(octets.len() + 1));
    put_octets(into, octets);
    into.push_reserved(0);
    Ok(())
}
