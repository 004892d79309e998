ghost use Rattle.std.specs.Prelude.{◌≡◌, ◌<◌, ◌≤◌, ◌+◌, ◌^◌, ◌++◌, is_ok, length, vec_capacity, IsErrOf, IsTrue, OnErr, OnOk, IfOk, IfSome};
ghost use Rattle.std.specs.Option.{ForSome};
ghost use Rattle.ots_outside.specs.declared.disk.DiskRefusal.TheVariants.{Failed, Memory};
ghost use Rattle.ots_outside.specs.Disk.{IsAfterRefusal, ReadsImage, Tells, synced, written};
ghost use Rattle.ots_outside.specs.Asked.{IsAsked};
ghost use Rattle.ots_outside.specs.Faults.{LeavesFaults};
ghost use Rattle.ots_outside.specs.Source.{HasRisen};
ghost use Rattle.decision_journal.specs.Layout.{Fits, record_octets};
ghost use Rattle.decision_journal.specs.Laws.{IsOnTheWay, appended, behind_gate, cleared, created, is_letter_due};
ghost use Rattle.decision_journal.specs.Journal.{IsAlong};
ghost use Rattle.decision_journal.specs.Asking.{AsksReads, AsksReread, append_calls, clear_calls, create_calls, write_calls};
ghost use Rattle.decision_journal.specs.Limits.{piece_length};

use crate::record::JournalRecord;
use crate::room::put_closed_record;
use crate::scan::{Along, FIRST_LETTER, OPEN, behind_letter_of};
use ots_outside::{Disk, DiskRefusal};
use std::alloc::Global;

/// Writes octets behind the gate at this place, and then opens the gate, with a sync behind each write.
pub(crate) fn append_at<D: Disk>(disk: &mut D, gate: u64, behind: &[u8]) -> Result<(), DiskRefusal>
    requires small { gate < 2 ^ 32 }
    requires within { ForSome (D.told disk.old) (λ s. gate + 1 ≤ length s.reads) }
    ensures ok { OnOk result
        (Tells (D.told disk.old) (D.told disk.new) (λ s t. t ≡ appended gate behind.now s)) }
    ensures way { Tells (D.told disk.old) (D.told disk.new)
        (λ s t. IsOnTheWay s (appended gate behind.now s) t) }
    ensures want { IsErrOf result Memory → IsTrue D.wants_memory }
    ensures cause { IsErrOf result Failed → HasRisen (D.faults disk.old) (D.faults disk.new) }
    ensures calm { LeavesFaults result (D.faults disk.old) (D.faults disk.new) }
    ensures later { D.faults disk.old ≤ D.faults disk.new }
    ensures asked { IsAsked D.asked (is_ok result) (append_calls gate behind.now) disk.old disk.new }
{
    ok!(write_and_sync(disk, gate + 1, behind));
    write_and_sync(disk, gate, &[OPEN])
}

/// Appends a record to a disk that reads these octets and then a gate that isn't open, and puts it behind the octets. Where
/// the disk refuses that, they are as before.
pub(crate) fn append_record<D: Disk>(
    disk: &mut D,
    octets: &mut Vec<u8>,
    item: &JournalRecord,
) -> Result<(), DiskRefusal>
    requires fits { Fits item.now }
    requires small { length octets.old.items < 2 ^ 32 }
    requires room { length octets.old.items + length (record_octets item.now) + 1 ≤ vec_capacity octets.old }
    requires within { ForSome (D.told disk.old) (λ s. length octets.old.items + 1 ≤ length s.reads) }
    ensures more { OnOk result (octets.new.items ≡ octets.old.items ++ record_octets item.now) }
    ensures same { OnErr result (octets.new.items ≡ octets.old.items) }
    ensures room { vec_capacity octets.old ≤ vec_capacity octets.new }
    ensures ok { OnOk result (Tells (D.told disk.old) (D.told disk.new)
        (λ s t. t ≡ appended (length octets.old.items) (behind_gate item.now) s)) }
    ensures way { Tells (D.told disk.old) (D.told disk.new)
        (λ s t. IsOnTheWay s (appended (length octets.old.items) (behind_gate item.now) s) t) }
    ensures want { IsErrOf result Memory → IsTrue D.wants_memory }
    ensures cause { IsErrOf result Failed → HasRisen (D.faults disk.old) (D.faults disk.new) }
    ensures calm { LeavesFaults result (D.faults disk.old) (D.faults disk.new) }
    ensures later { D.faults disk.old ≤ D.faults disk.new }
    ensures asked { IsAsked D.asked (is_ok result)
        (append_calls (length octets.old.items) (behind_gate item.now)) disk.old disk.new }
{
    let gate = octets.len();
    put_closed_record(octets, item);
    if let Err(refusal) = append_at(disk, gate as u64, &octets[gate + 1..]) {
        octets.truncate(gate);
        return Err(refusal);
    }
    let end = octets.len() - 1;
    octets.truncate(end);
    Ok(())
}

/// Writes octets from a place on, and syncs.
fn write_and_sync<D: Disk>(disk: &mut D, place: u64, octets: &[u8]) -> Result<(), DiskRefusal>
    requires { ForSome (D.told disk.old) (λ s. place ≤ length s.reads) }
    ensures ok { OnOk result
        (Tells (D.told disk.old) (D.told disk.new) (λ s t. t ≡ synced (written place octets.now s))) }
    ensures way { Tells (D.told disk.old) (D.told disk.new)
        (λ s t. IsOnTheWay s (synced (written place octets.now s)) t) }
    ensures want { IsErrOf result Memory → IsTrue D.wants_memory }
    ensures cause { IsErrOf result Failed → HasRisen (D.faults disk.old) (D.faults disk.new) }
    ensures calm { LeavesFaults result (D.faults disk.old) (D.faults disk.new) }
    ensures later { D.faults disk.old ≤ D.faults disk.new }
    ensures asked { IsAsked D.asked (is_ok result) (write_calls place octets.now) disk.old disk.new }
{
    ok!(disk.write_at(place, octets));
    disk.sync()
}

/// Takes the first letter away, where that is due.
fn clear_letter<D: Disk>(disk: &mut D, due: bool) -> Result<(), DiskRefusal>
    requires { ForSome (D.told disk.old) (λ s. is_letter_due s.reads ≡ due) }
    ensures ok { OnOk result (Tells (D.told disk.old) (D.told disk.new) (λ s t. t ≡ cleared s)) }
    ensures way { Tells (D.told disk.old) (D.told disk.new) (λ s t. IsOnTheWay s (cleared s) t) }
    ensures cause { IsErrOf result Failed → HasRisen (D.faults disk.old) (D.faults disk.new) }
    ensures calm { LeavesFaults result (D.faults disk.old) (D.faults disk.new) }
    ensures later { D.faults disk.old ≤ D.faults disk.new }
    ensures asked { IsAsked D.asked (is_ok result) (clear_calls due) disk.old disk.new }
{
    if !due {
        return Ok(());
    }
    write_and_sync(disk, 0, &[0])
}

/// Makes a disk that holds no records a journal without records.
pub(crate) fn create_at<D: Disk>(disk: &mut D, service: u64, due: bool) -> Result<(), DiskRefusal>
    requires { ForSome (D.told disk.old) (λ s. is_letter_due s.reads ≡ due) }
    ensures ok { OnOk result
        (Tells (D.told disk.old) (D.told disk.new) (λ s t. t ≡ created service (cleared s))) }
    ensures way { Tells (D.told disk.old) (D.told disk.new)
        (λ s t. IsOnTheWay s (created service (cleared s)) t) }
    ensures cause { IsErrOf result Failed → HasRisen (D.faults disk.old) (D.faults disk.new) }
    ensures calm { LeavesFaults result (D.faults disk.old) (D.faults disk.new) }
    ensures later { D.faults disk.old ≤ D.faults disk.new }
    ensures asked { IsAsked D.asked (is_ok result) (create_calls service due) disk.old disk.new }
{
    ok!(clear_letter(disk, due));
    let behind = behind_letter_of(service);
    ok!(write_and_sync(disk, 1, &behind));
    write_and_sync(disk, 0, &[FIRST_LETTER])
}

/// How many octets are read at a time.
pub(crate) const PIECE: usize = 65_536;

/// Syncs the disk, and reads all of its octets, in order.
pub(crate) fn read_whole<D: Disk>(alloc: Global, disk: &mut D) -> Result<Vec<u8>, DiskRefusal>
    ensures way { Tells (D.told disk.old) (D.told disk.new) (λ s t. IsAfterRefusal s (synced s) t) }
    ensures octets { IfOk result (λ octets. IfSome (D.told disk.new) (λ t. octets.items ≡ t.reads)) }
    ensures settled { OnOk result (Tells (D.told disk.old) (D.told disk.new) (λ s t. t ≡ synced s)) }
    ensures image { ReadsImage (D.told disk.old) }
    ensures cause { IsErrOf result Failed → HasRisen (D.faults disk.old) (D.faults disk.new) }
    ensures calm { LeavesFaults result (D.faults disk.old) (D.faults disk.new) }
    ensures later { D.faults disk.old ≤ D.faults disk.new }
    ensures asked { AsksReread D.asked D.told (is_ok result) disk.old disk.new }
{
    ok!(disk.sync());
    let length = ok!(disk.len());
    let mut octets = vec![in alloc; 0; length as usize]?;
    ok!(read_pieces(disk, &mut octets));
    Ok(octets)
}

/// Reads so many octets, a piece at a time.
fn read_pieces<D: Disk>(disk: &mut D, octets: &mut [u8]) -> Result<(), DiskRefusal>
    requires { ForSome (D.told disk.old) (λ s. length octets.old ≡ length s.reads) }
    ensures untouched { D.told disk.new ≡ D.told disk.old }
    ensures octets { OnOk result (IfSome (D.told disk.old) (λ s. octets.new ≡ s.reads)) }
    ensures cause { IsErrOf result Failed → HasRisen (D.faults disk.old) (D.faults disk.new) }
    ensures calm { LeavesFaults result (D.faults disk.old) (D.faults disk.new) }
    ensures later { D.faults disk.old ≤ D.faults disk.new }
    ensures asked { AsksReads D.asked (length octets.old) (is_ok result) disk.old disk.new }
{
    let mut place = 0;
    while place < octets.len() {
        let end = octets.len().min(place + PIECE);
        ok!(disk.read_at(place as u64, &mut octets[place..end]));
        place = end;
    }
    Ok(())
}

/// Syncs the disk, and reads all of its octets, in order, a piece at a time. Tells how far they go along with those that are
/// known.
pub(crate) fn read_along<D: Disk>(
    disk: &mut D,
    piece: &mut [u8],
    known: &[u8],
) -> Result<Along, DiskRefusal>
    requires { length piece.old ≡ piece_length }
    ensures way { Tells (D.told disk.old) (D.told disk.new) (λ s t. IsAfterRefusal s (synced s) t) }
    ensures along { IfOk result (λ along. IfSome (D.told disk.new)
        (λ t. IsAlong known.now t.reads along.same along.closed)) }
    ensures settled { OnOk result (Tells (D.told disk.old) (D.told disk.new) (λ s t. t ≡ synced s)) }
    ensures within { IfOk result (λ along. along.same ≤ length known.now) }
    ensures image { ReadsImage (D.told disk.old) }
    ensures want { IsErrOf result Memory → IsTrue D.wants_memory }
    ensures cause { IsErrOf result Failed → HasRisen (D.faults disk.old) (D.faults disk.new) }
    ensures calm { LeavesFaults result (D.faults disk.old) (D.faults disk.new) }
    ensures later { D.faults disk.old ≤ D.faults disk.new }
    ensures piece { length piece.new ≡ length piece.old }
    ensures asked { AsksReread D.asked D.told (is_ok result) disk.old disk.new }
{
    ok!(disk.sync());
    let length = ok!(disk.len());
    go_along(disk, length as usize, piece, known)
}

/// Reads so many octets, a piece at a time, and tells how far they go along with those that are known.
fn go_along<D: Disk>(
    disk: &mut D,
    count: usize,
    piece: &mut [u8],
    known: &[u8],
) -> Result<Along, DiskRefusal>
    requires piece { length piece.old ≡ piece_length }
    requires whole { ForSome (D.told disk.old) (λ s. count ≡ length s.reads) }
    ensures untouched { D.told disk.new ≡ D.told disk.old }
    ensures along { IfOk result (λ along. IfSome (D.told disk.old)
        (λ s. IsAlong known.now s.reads along.same along.closed)) }
    ensures within { IfOk result (λ along. along.same ≤ length known.now) }
    ensures want { IsErrOf result Memory → IsTrue D.wants_memory }
    ensures cause { IsErrOf result Failed → HasRisen (D.faults disk.old) (D.faults disk.new) }
    ensures calm { LeavesFaults result (D.faults disk.old) (D.faults disk.new) }
    ensures later { D.faults disk.old ≤ D.faults disk.new }
    ensures piece { length piece.new ≡ length piece.old }
    ensures asked { AsksReads D.asked count (is_ok result) disk.old disk.new }
{
    let mut place = 0;
    let mut found = Along {
        same: 0,
        closed: false,
    };
    while place < count {
        let part = piece.len().min(count - place);
        ok!(disk.read_at(place as u64, &mut piece[..part]));
        found = found.with_piece(place, known, &piece[..part]);
        place += part;
    }
    Ok(found)
}
