ghost use Rattle.std.specs.Prelude.{◌≡◌, ◌≤◌, ◌<◌, ◌+◌, ◌^◌, true, false, None, length, vec_capacity, is_ok, IfOk, IfErr, OnErr, OnOk};
ghost use Rattle.std.specs.Option.{ForSome};
ghost use Rattle.ots_outside.specs.Disk.{Tells, synced};
ghost use Rattle.ots_outside.specs.Asked.{IsAsked};
ghost use Rattle.decision_journal.specs.Asking.{AsksStart, AsksStartSome, create_calls};
ghost use Rattle.decision_journal.specs.Faults.{IsNoFault, LeavesFaults};
ghost use Rattle.decision_journal.specs.Limits.{area_limit, piece_length, standing_limit};
ghost use Rattle.decision_journal.specs.Laws.{IsOnTheWay, IsSettled, cleared, created, is_letter_due};
ghost use Rattle.decision_journal.specs.Journal.{IsFilled, IsFresh};
ghost use Rattle.decision_journal.specs.State.{IsReadFault, decisions, used};
ghost use Rattle.decision_journal.specs.Loading.{IsDiskFault, IsLoadFault, IsRefusedLoad, IsStartFault, IsStarted, LoadIsSafe, last_life, readied};

use crate::disk_calls::{PIECE, create_at, read_whole};
use crate::found::Index;
use crate::journal::{JournalFault, fault_of};
use crate::room::used_of;
use crate::scan::{fault_at, filled, header_of, is_due, is_fresh, other};
use ots_outside::{Disk, DiskRefusal};
use std::alloc::{AllocError, Global};

/// How many octets a Life takes.
const LIFE_LENGTH: u64 = 10;

/// A journal that was read, before its next life.
#[derive(Drop)]
pub(crate) struct Start {
    /// The octets before the gate at the end.
    pub(crate) octets: Vec<u8>,
    /// What their records leave.
    pub(crate) index: Index,
    /// Into this a disk is read a piece at a time.
    pub(crate) piece: Vec<u8>,
}

/// Makes a journal without records of a disk that was read and is not yet one.
fn create<D: Disk>(
    alloc: Global,
    disk: &mut D,
    service: u64,
    octets: &[u8],
) -> Result<Start, JournalFault>
    requires read { ForSome (D.told disk.old) (λ s. octets.now ≡ s.reads) }
    requires settled { ForSome (D.told disk.old) IsSettled }
    requires fresh { IsFresh octets.now }
    ensures filled { IfOk result (λ start. IsFilled service start.octets.items start.index.found) }
    ensures started { IfOk result (λ start. Tells (D.told disk.old) (D.told disk.new)
        (IsStarted service start.octets.items start.index.found)) }
    ensures safe { Tells (D.told disk.old) (D.told disk.new) (LoadIsSafe service) }
    ensures made { OnOk result
        (Tells (D.told disk.old) (D.told disk.new) (λ s t. t ≡ created service (cleared s))) }
    ensures way { Tells (D.told disk.old) (D.told disk.new)
        (λ s t. IsOnTheWay s (created service (cleared s)) t) }
    ensures fault { IfErr result (IsDiskFault true (D.faults disk.old) (D.faults disk.new)) }
    ensures calm { LeavesFaults result (D.faults disk.old) (D.faults disk.new) }
    ensures later { D.faults disk.old ≤ D.faults disk.new }
    ensures asked { IsAsked D.asked (is_ok result)
        (create_calls service (is_letter_due octets.now)) disk.old disk.new }
{
    if let Err(refusal) = create_at(disk, service, is_due(octets)) {
        return Err(fault_of(refusal));
    }
    Ok(Start {
        octets: header_of(service).to_vec(alloc)?,
        index: Index::new(alloc),
        piece: Vec::new(alloc),
    })
}

/// Reads the journal that a disk holds, or makes one where there is none.
fn read_or_create<D: Disk>(alloc: Global, disk: &mut D, service: u64) -> Result<Start, JournalFault>
    ensures filled { IfOk result (λ start. IsFilled service start.octets.items start.index.found) }
    ensures started { IfOk result (λ start. Tells (D.told disk.old) (D.told disk.new)
        (IsStarted service start.octets.items start.index.found)) }
    ensures safe { Tells (D.told disk.old) (D.told disk.new) (LoadIsSafe service) }
    ensures readied { OnOk result
        (Tells (D.told disk.old) (D.told disk.new) (λ s t. t ≡ readied service (synced s))) }
    ensures refused { IfErr result (λ fault. Tells (D.told disk.old) (D.told disk.new)
        (IsRefusedLoad service fault)) }
    ensures fault { IfErr result
        (IsStartFault service (D.told disk.old) (D.faults disk.old) (D.faults disk.new)) }
    ensures calm { LeavesFaults result (D.faults disk.old) (D.faults disk.new) }
    ensures later { D.faults disk.old ≤ D.faults disk.new }
    ensures asked { OnOk result (AsksStart D.asked D.told service true disk.old disk.new) }
    ensures begun { OnErr result (AsksStartSome D.asked D.told service disk.old disk.new) }
{
    let mut octets = match read_whole(alloc, disk) {
        Ok(octets) => octets,
        Err(refusal) => return Err(fault_of(refusal)),
    };
    if is_fresh(&octets) {
        return create(alloc, disk, service, &octets);
    }
    let index = ok!(filled(alloc, service, &mut octets));
    Ok(Start {
        octets,
        index,
        piece: Vec::new(alloc),
    })
}

/// Takes the memory for all octets of an area, for the decisions that may stand, and for reading a disk.
fn make_room(start: &mut Start, area: u64) -> Result<(), AllocError>
    requires { area ≤ area_limit }
    ensures octets { start.new.octets.items ≡ start.old.octets.items }
    ensures found { start.new.index.found ≡ start.old.index.found }
    ensures area { OnOk result (area ≤ vec_capacity start.new.octets) }
    ensures records { OnOk result (standing_limit ≤ decisions start.new.index.found + start.new.index.spare) }
    ensures piece { OnOk result (length start.new.piece.items ≡ piece_length) }
{
    let more = (area as usize).saturating_sub(start.octets.len());
    ok!(start.octets.reserve(more));
    ok!(start.index.reserve());
    start.piece.resize(PIECE, 0)
}

/// The same, where a life is left and there is room for it.
pub(crate) fn start_within<D: Disk>(
    alloc: Global,
    disk: &mut D,
    area: u64,
    service: u64,
) -> Result<Start, JournalFault>
    requires { area ≤ area_limit }
    ensures filled { IfOk result (λ start. IsFilled service start.octets.items start.index.found) }
    ensures life { IfOk result (λ start. start.index.found.life < last_life) }
    ensures room { IfOk result (λ start. used start.octets.items start.index.found + 10 ≤ area) }
    ensures area { IfOk result (λ start. area ≤ vec_capacity start.octets) }
    ensures records { IfOk result (λ start. standing_limit ≤ decisions start.index.found + start.index.spare) }
    ensures piece { IfOk result (λ start. length start.piece.items ≡ piece_length) }
    ensures started { IfOk result (λ start. Tells (D.told disk.old) (D.told disk.new)
        (IsStarted service start.octets.items start.index.found)) }
    ensures safe { Tells (D.told disk.old) (D.told disk.new) (LoadIsSafe service) }
    ensures readied { OnOk result
        (Tells (D.told disk.old) (D.told disk.new) (λ s t. t ≡ readied service (synced s))) }
    ensures refused { IfErr result (λ fault. Tells (D.told disk.old) (D.told disk.new)
        (IsRefusedLoad service fault)) }
    ensures fault { IfErr result
        (IsLoadFault area service (D.told disk.old) (D.faults disk.old) (D.faults disk.new)) }
    ensures calm { LeavesFaults result (D.faults disk.old) (D.faults disk.new) }
    ensures later { D.faults disk.old ≤ D.faults disk.new }
    ensures asked { OnOk result (AsksStart D.asked D.told service true disk.old disk.new) }
    ensures begun { OnErr result (AsksStartSome D.asked D.told service disk.old disk.new) }
{
    let mut start = ok!(read_or_create(alloc, disk, service));
    if start.index.life() == u32::MAX {
        return Err(JournalFault::LivesSpent);
    }
    let used = used_of(&start.octets, &start.index);
    if area < used + LIFE_LENGTH {
        return Err(JournalFault::Full {
            used,
            need: LIFE_LENGTH,
        });
    }
    make_room(&mut start, area)?;
    Ok(start)
}

/// Why a disk reads neither what is known nor that and the record in doubt, where it is read once more: what a load would tell
/// of its octets, or else the first place that differs. So too where memory is wanted to read it. It tells nothing of its state.
pub(crate) fn misread<D: Disk>(
    alloc: Global,
    disk: &mut D,
    service: u64,
    known: &[u8],
    place: usize,
) -> JournalFault
    requires none { D.told disk.old ≡ None }
    requires small { length known.now < 2 ^ 32 }
    requires within { place ≤ length known.now }
    ensures none { D.told disk.new ≡ None }
    ensures fault { IsReadFault false None (D.faults disk.old) (D.faults disk.new) result }
    ensures calm { IsNoFault result (D.faults disk.old) (D.faults disk.new) }
    ensures later { D.faults disk.old ≤ D.faults disk.new }
{
    let read = match read_whole(alloc, disk) {
        Ok(read) => read,
        Err(DiskRefusal::Failed) => return JournalFault::DiskFault,
        Err(DiskRefusal::Memory) => return fault_at(place),
    };
    match other(alloc, service, known, read) {
        JournalFault::Memory => fault_at(place),
        fault => fault,
    }
}
