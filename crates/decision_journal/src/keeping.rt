ghost use Rattle.std.specs.Prelude.{◌≡◌, ℕ, ◌<◌, ◌≤◌, ◌+◌, ◌++◌, ◌∷◌, [], is_ok, length, false, true, None, IsTrue, Err, IfOk, IfErr, IfSome, OnOk, OnErr};
ghost use Rattle.std.specs.List.{All, list_any};
ghost use Rattle.std.specs.Option.{ForSome};
ghost use Rattle.ots_outside.specs.Disk.{Tells, synced};
ghost use Rattle.decision_journal.specs.Layout.{Fits, record_octets};
ghost use Rattle.decision_journal.specs.Laws.{IsOnTheWay, appended, behind_gate};
ghost use Rattle.decision_journal.specs.Limits.{area_limit, standing_limit};
ghost use Rattle.decision_journal.specs.Journal.{can_follow, is_decision, is_decision_at, with_record};
ghost use Rattle.decision_journal.specs.Faults.{IsNoFault, LeavesFaults};
ghost use Rattle.decision_journal.specs.Index.{AreInOrder};

use crate::disk_calls::{append_record, read_along};
use crate::found::Index;
use crate::journal::{JournalFault, Standing, fault_of};
use crate::loading::{misread, start_within};
use crate::record::JournalRecord;
use crate::room::{count_cells, doubt, find, has_room, put_closed, put_doubted};
use ots_outside::{Back, Disk};
use std::alloc::{AllocError, Global};
use std::marker::Model;

/// A journal over a disk. Contracts see it as a `JournalState`.
#[derive(Drop)]
pub struct Journal<D: Disk> {
    alloc: Global,
    disk: D,
    area: u64,
    service: u64,
    octets: Vec<u8>,
    piece: Vec<u8>,
    index: Index,
    failed: bool,
    doubted: Option<JournalRecord>,
    room: usize,
}

impl<D: Disk> Model for Journal<D> {
    ghost use Rattle.std.specs.Prelude.{vec_capacity, vec_len};
    ghost use Rattle.decision_journal.specs.Room.{IsRoomy};
    ghost use Rattle.decision_journal.specs.State.{IsSound, JournalState};

    ghost Value = { JournalState D };

    ghost view = { λ j. record {
      disk = j.disk;
      area = j.area;
      service = j.service;
      octets = j.octets.items;
      found = j.index.found;
      failed = j.failed;
      doubted = j.doubted;
      room = j.room;
    } };

    ghost invariant = { λ j.
        IsSound (D.told j.disk) j.area j.service j.octets.items j.index.found j.failed j.doubted
        × IsRoomy j.area (vec_capacity j.octets) (vec_len j.piece) j.index j.doubted j.room };
}

impl<D: Disk> Journal<D> {
    ghost use Rattle.decision_journal.specs.Loading.{IsDiskFault, IsLoadFault, IsRefusedLoad, LoadIsDone, LoadIsSafe};
    ghost use Rattle.decision_journal.specs.State.{AppendIsDone, AppendIsSafe, HasMore, HasReread, DoneIsDone, IsAppendFault, IsReadFault, IsRoomFault, IsUnread, IsUnsure, IsKept, LeavesFound, StaysWithinArea, MayFollow, ReadIsDone, ReadIsSafe, cells_in, decisions, need, used};
    ghost use Rattle.ots_outside.specs.Asked.{IsAsked};
    ghost use Rattle.decision_journal.specs.Asking.{AsksBehind, AsksLoad, AsksLoadSome, AsksReady, AsksReread, AsksSome, AsksThen, append_calls, done_calls, no_calls, record_calls};
    ghost use Rattle.decision_journal.specs.Calls.{HasAppended, IsAfterDone, IsCurrent, IsReady, IsRefusedAppend, IsRefusedReading, IsUnwritten, reread};

    /// Whether the next call reads the disk again.
    pub fn failed(&self) -> bool
        ensures { result ≡ self.now.failed }
    {
        self.failed
    }

    /// The number of the journal's service.
    pub fn service(&self) -> u64
        ensures { result ≡ self.now.service }
    {
        self.service
    }

    /// The life of this load.
    pub fn life(&self) -> u32
        ensures { result ≡ self.now.found.life }
    {
        self.index.life()
    }

    /// The records that stand, and all records of cells, in the order of their places.
    pub fn standing(&self) -> &[Standing]
        ensures same { result.now ≡ self.now.found.standing }
        ensures order { AreInOrder self.now.found.standing }
        ensures fit { All (λ s. Fits s.item) self.now.found.standing }
    {
        self.index.standing()
    }

    /// The disk, and what it holds: all that the journal may find has room and keeps the rules.
    pub fn disk(&self) -> &D
        ensures disk { result.now ≡ self.now.disk }
        ensures kept { IsKept self.now.failed self.now.octets self.now.doubted (D.told self.now.disk) }
        ensures each { StaysWithinArea self.now }
    {
        &self.disk
    }

    /// Whether a record can follow those of the journal.
    pub fn takes(&self, item: &JournalRecord) -> bool
        ensures takes { result ≡ can_follow self.now.found item.now }
        ensures follows { self.now.failed ≡ false → IsTrue result → MayFollow self.now item.now }
    {
        self.index.takes(item)
    }

    /// Takes memory for one record of cells, where there is room for none.
    pub fn reserve(&mut self) -> Result<(), AllocError>
        ensures ok { OnOk result (0 < self.new.room) }
        ensures same { self.new ≡ record self.old { room = self.new.room } }
        ensures full { OnErr result (self.old.room ≡ 0) }
        ensures room { self.old.room ≤ self.new.room }
    {
        if self.room == 0 {
            ok!(self.index.reserve());
            self.room = 1;
        }
        Ok(())
    }

    /// Syncs the disk, and reads it again. Where a call had failed, this tells whether its record is there. Want of
    /// memory refuses it over a disk alone that may want some.
    pub fn reopen(&mut self) -> Result<(), JournalFault>
        ensures read { OnOk result (HasReread self.old self.new) }
        ensures current { OnOk result (IsCurrent D.told self.new) }
        ensures disk { OnOk result
            (Tells (D.told self.old.disk) (D.told self.new.disk) (λ s t. t ≡ synced s)) }
        ensures done { OnOk result
            (Tells (D.told self.old.disk) (D.told self.new.disk) (ReadIsDone self.old.service)) }
        ensures unread { OnErr result (IsUnread self.old self.new) }
        ensures unwritten { OnErr result
            (Tells (D.told self.old.disk) (D.told self.new.disk) IsUnwritten) }
        ensures fault { IfErr result (IsReadFault D.wants_memory (D.told self.new.disk)
            (D.faults self.old.disk) (D.faults self.new.disk)) }
        ensures calm { LeavesFaults result (D.faults self.old.disk) (D.faults self.new.disk) }
        ensures later { D.faults self.old.disk ≤ D.faults self.new.disk }
        ensures safe { Tells (D.told self.old.disk) (D.told self.new.disk) (ReadIsSafe self.old.service) }
        ensures room { self.old.room ≤ self.new.room }
        ensures asked { OnOk result (AsksReread D.asked D.told true self.old.disk self.new.disk) }
        ensures begun { OnErr result (IfSome (D.told self.old.disk)
            (λ _. AsksReread D.asked D.told false self.old.disk self.new.disk)) }
    {
        self.failed = true;
        let gate = self.octets.len();
        put_doubted(&mut self.octets, &self.doubted);
        let along = match read_along(&mut self.disk, &mut self.piece, &self.octets) {
            Ok(along) => along,
            Err(refusal) => {
                self.octets.truncate(gate);
                return Err(fault_of(refusal));
            }
        };
        if !find(
            &mut self.octets,
            gate,
            &mut self.index,
            &mut self.doubted,
            along,
        ) {
            let place = along.same.min(gate);
            return Err(misread(
                self.alloc,
                &mut self.disk,
                self.service,
                &self.octets,
                place,
            ));
        }
        self.failed = false;
        Ok(())
    }

    /// Reads the disk again where a call has failed.
    fn ready(&mut self) -> Result<(), JournalFault>
        ensures read { OnOk result (HasReread self.old self.new) }
        ensures current { OnOk result (IsCurrent D.told self.new) }
        ensures disk { OnOk result
            (Tells (D.told self.old.disk) (D.told self.new.disk) (λ s t. t ≡ reread self.old.failed s)) }
        ensures done { OnOk result
            (Tells (D.told self.old.disk) (D.told self.new.disk) (ReadIsDone self.old.service)) }
        ensures unread { OnErr result (IsUnread self.old self.new) }
        ensures unwritten { OnErr result
            (Tells (D.told self.old.disk) (D.told self.new.disk) IsUnwritten) }
        ensures was { OnErr result (self.old.failed ≡ true) }
        ensures fault { IfErr result (IsReadFault D.wants_memory (D.told self.new.disk)
            (D.faults self.old.disk) (D.faults self.new.disk)) }
        ensures calm { LeavesFaults result (D.faults self.old.disk) (D.faults self.new.disk) }
        ensures later { D.faults self.old.disk ≤ D.faults self.new.disk }
        ensures safe { Tells (D.told self.old.disk) (D.told self.new.disk) (ReadIsSafe self.old.service) }
        ensures room { self.old.room ≤ self.new.room }
        ensures asked { OnOk result
            (AsksReady D.asked D.told self.old.failed self.old.disk self.new.disk) }
        ensures begun { OnErr result (IfSome (D.told self.old.disk)
            (λ _. AsksReread D.asked D.told false self.old.disk self.new.disk)) }
    {
        if self.failed {
            return self.reopen();
        }
        Ok(())
    }

    /// Whether there is room for a record.
    fn has_room(&self, item: &JournalRecord) -> Result<(), JournalFault>
        requires fits { Fits item.now }
        requires kept { self.now.failed ≡ false }
        ensures room { OnOk result (used self.now.octets self.now.found
            + need self.now.area self.now.found item.now ≤ self.now.area) }
        ensures within { OnOk result (used (self.now.octets ++ record_octets item.now)
            (with_record self.now.found (length self.now.octets) item.now) ≤ self.now.area) }
        ensures few { OnOk result (IsTrue (is_decision item.now) → decisions self.now.found < standing_limit) }
        ensures fault { IfErr result
            (IsRoomFault self.now.area self.now.octets self.now.found item.now) }
    {
        has_room(self.area, &self.octets, &self.index, item)
    }

    /// Whether a decision or prepared record stands at this place. There is room for its Done.
    fn stands(&self, place: u32) -> bool
        requires kept { self.now.failed ≡ false }
        ensures stands { result ≡ list_any (is_decision_at place) self.now.found.standing }
        ensures within { IsTrue result → used (self.now.octets ++ record_octets (JournalRecord.Done place))
            (with_record self.now.found (length self.now.octets) (JournalRecord.Done place)) ≤ self.now.area }
    {
        self.index.stands(place)
    }

    /// Writes a record behind the gate at the end, and then opens that gate.
    fn write(&mut self, item: JournalRecord) -> Result<u32, JournalFault>
        requires kept { self.old.failed ≡ false }
        requires fits { Fits item }
        requires follows { IsTrue (can_follow self.old.found item) }
        requires within { used (self.old.octets ++ record_octets item)
            (with_record self.old.found (length self.old.octets) item) ≤ self.old.area }
        requires few { IsTrue (is_decision item) → decisions self.old.found < standing_limit }
        requires room { cells_in item ≤ self.old.room }
        ensures more { IfOk result (HasMore self.old self.new item) }
        ensures current { OnOk result (IsCurrent D.told self.new) }
        ensures disk { IfOk result (λ place. Tells (D.told self.old.disk) (D.told self.new.disk)
            (λ s t. t ≡ appended place (behind_gate item) s)) }
        ensures done { OnOk result
            (Tells (D.told self.old.disk) (D.told self.new.disk) (AppendIsDone self.old.service item)) }
        ensures unsure { OnErr result (IsUnsure self.old item self.new) }
        ensures way { OnErr result (Tells (D.told self.old.disk) (D.told self.new.disk)
            (λ s t. IsOnTheWay s (appended (length self.old.octets) (behind_gate item) s) t)) }
        ensures fault { IfErr result
            (IsDiskFault D.wants_memory (D.faults self.old.disk) (D.faults self.new.disk)) }
        ensures calm { LeavesFaults result (D.faults self.old.disk) (D.faults self.new.disk) }
        ensures later { D.faults self.old.disk ≤ D.faults self.new.disk }
        ensures safe { Tells (D.told self.old.disk) (D.told self.new.disk) (AppendIsSafe self.old.service item) }
        ensures room { self.old.room ≡ self.new.room + cells_in item }
        ensures asked { IsAsked D.asked (is_ok result)
            (append_calls (length self.old.octets) (behind_gate item)) self.old.disk self.new.disk }
    {
        let gate = self.octets.len() as u32;
        self.failed = true;
        self.room -= count_cells(&item);
        if let Err(refusal) = append_record(&mut self.disk, &mut self.octets, &item) {
            doubt(&mut self.doubted, item);
            return Err(fault_of(refusal));
        }
        self.index.add(gate, item);
        self.failed = false;
        Ok(gate)
    }

    /// Appends a record, and tells the place of its gate. Where a call has failed, the disk is read again first. A record of
    /// cells needs the room that `reserve` takes, and uses it. Want of memory refuses it over a disk alone that may want some.
    pub fn append(&mut self, item: JournalRecord) -> Result<u32, JournalFault>
        requires fits { Fits item }
        requires follows { MayFollow self.old item }
        requires room { cells_in item ≤ self.old.room }
        ensures more { IfOk result (HasAppended D.told self.old item self.new) }
        ensures current { OnOk result (IsCurrent D.told self.new) }
        ensures done { OnOk result
            (Tells (D.told self.old.disk) (D.told self.new.disk) (AppendIsDone self.old.service item)) }
        ensures refused { IfErr result (IsRefusedAppend D.told self.old item self.new) }
        ensures fault { IfErr result (IsAppendFault D.wants_memory (D.told self.new.disk)
            (D.faults self.old.disk) (D.faults self.new.disk)) }
        ensures calm { LeavesFaults result (D.faults self.old.disk) (D.faults self.new.disk) }
        ensures later { D.faults self.old.disk ≤ D.faults self.new.disk }
        ensures safe { Tells (D.told self.old.disk) (D.told self.new.disk) (AppendIsSafe self.old.service item) }
        ensures room { self.old.room ≤ self.new.room + cells_in item }
        ensures full { (used need : ℕ) → result ≡ Err (JournalFault.Full used need) → self.old.room ≤ self.new.room }
        ensures asked { IfOk result (λ place. AsksBehind D.asked D.told self.old.failed
            (append_calls place (behind_gate item)) true self.old.disk self.new.disk) }
        ensures begun { OnErr result
            (AsksSome D.asked D.told (record_calls item) self.old self.new.disk) }
    {
        ok!(self.ready());
        ok!(self.has_room(&item));
        self.write(item)
    }

    /// Appends a Done of the decision or prepared record at this place, where one stands; else it writes nothing. Where a
    /// call has failed, the disk is read again first. Want of memory refuses it over a disk alone that may want some.
    pub fn done(&mut self, place: u32) -> Result<(), JournalFault>
        ensures after { OnOk result (IsAfterDone D.told self.old self.new place) }
        ensures current { OnOk result (IsCurrent D.told self.new) }
        ensures done { OnOk result
            (Tells (D.told self.old.disk) (D.told self.new.disk) (DoneIsDone self.old.service place)) }
        ensures refused { IfErr result
            (IsRefusedAppend D.told self.old (JournalRecord.Done place) self.new) }
        ensures fault { IfErr result (IsReadFault D.wants_memory (D.told self.new.disk)
            (D.faults self.old.disk) (D.faults self.new.disk)) }
        ensures calm { LeavesFaults result (D.faults self.old.disk) (D.faults self.new.disk) }
        ensures later { D.faults self.old.disk ≤ D.faults self.new.disk }
        ensures safe { Tells (D.told self.old.disk) (D.told self.new.disk)
            (AppendIsSafe self.old.service (JournalRecord.Done place)) }
        ensures room { self.old.room ≤ self.new.room }
        ensures asked { OnOk result
            (AsksThen D.asked D.told (done_calls place) true self.old self.new.disk) }
        ensures begun { OnErr result
            (AsksSome D.asked D.told (done_calls place) self.old self.new.disk) }
    {
        ok!(self.ready());
        if !self.stands(place) {
            return Ok(());
        }
        ok!(self.write(JournalRecord::Done(place)));
        Ok(())
    }

    /// Puts the journal's octets behind those of a list: all before the gate at the end, and a closed gate. Where a call has
    /// failed, the disk is read again first.
    pub fn bytes(&mut self, into: &mut Vec<u8>) -> Result<(), JournalFault>
        ensures ready { OnOk result (IsReady D.told self.old self.new) }
        ensures octets { OnOk result (into.new.items ≡ into.old.items ++ (self.new.octets ++ 0 ∷ [])) }
        ensures stands { OnOk result
            (LeavesFound self.new.service (self.new.octets ++ 0 ∷ []) self.new.found) }
        ensures done { OnOk result
            (Tells (D.told self.old.disk) (D.told self.new.disk) (ReadIsDone self.old.service)) }
        ensures refused { IfErr result (IsRefusedReading D.told self.old self.new) }
        ensures same { OnErr result (into.new.items ≡ into.old.items) }
        ensures fault { IfErr result (IsReadFault true (D.told self.new.disk)
            (D.faults self.old.disk) (D.faults self.new.disk)) }
        ensures calm { LeavesFaults result (D.faults self.old.disk) (D.faults self.new.disk) }
        ensures later { D.faults self.old.disk ≤ D.faults self.new.disk }
        ensures safe { Tells (D.told self.old.disk) (D.told self.new.disk) (ReadIsSafe self.old.service) }
        ensures room { self.old.room ≤ self.new.room }
        ensures asked { OnOk result
            (AsksReady D.asked D.told self.old.failed self.old.disk self.new.disk) }
        ensures begun { OnErr result
            (AsksSome D.asked D.told no_calls self.old self.new.disk) }
    {
        ok!(self.ready());
        self.put_bytes(into)?;
        Ok(())
    }

    /// Puts the octets before the gate at the end and a closed gate behind those of a list.
    fn put_bytes(&self, into: &mut Vec<u8>) -> Result<(), AllocError>
        requires kept { self.now.failed ≡ false }
        ensures octets { OnOk result (into.new.items ≡ into.old.items ++ (self.now.octets ++ 0 ∷ [])) }
        ensures same { OnErr result (into.new.items ≡ into.old.items) }
        ensures stands { LeavesFound self.now.service (self.now.octets ++ 0 ∷ []) self.now.found }
    {
        put_closed(into, &self.octets)
    }

    /// Gives the disk back.
    pub fn into_disk(self) -> D
        ensures { result ≡ self.disk }
    {
        self.disk
    }

    /// Loads the journal that a disk holds, or makes one where there is none, and begins its next life. Where that is
    /// refused, the disk comes back.
    pub fn load(
        alloc: Global,
        mut disk: D,
        area: u64,
        service: u64,
    ) -> Result<Journal<D>, Back<D, JournalFault>>
        requires { area ≤ area_limit }
        ensures area { IfOk result (λ journal. journal.area ≡ area) }
        ensures service { IfOk result (λ journal. journal.service ≡ service) }
        ensures failed { IfOk result (λ journal. journal.failed ≡ false) }
        ensures doubted { IfOk result (λ journal. journal.doubted ≡ None) }
        ensures current { IfOk result (λ journal. IsCurrent D.told journal) }
        ensures done { IfOk result
            (λ journal. Tells (D.told disk) (D.told journal.disk) (LoadIsDone service)) }
        ensures safe_ok { IfOk result
            (λ journal. Tells (D.told disk) (D.told journal.disk) (LoadIsSafe service)) }
        ensures safe_err { IfErr result
            (λ back. Tells (D.told disk) (D.told back.value) (LoadIsSafe service)) }
        ensures refused { IfErr result (λ back. Tells (D.told disk) (D.told back.value)
            (IsRefusedLoad service back.fault)) }
        ensures fault { IfErr result (λ back. IsLoadFault area service (D.told disk) (D.faults disk)
            (D.faults back.value) back.fault) }
        ensures calm_ok { IfOk result (λ journal. D.faults journal.disk ≡ D.faults disk) }
        ensures calm_err { IfErr result (λ back. IsNoFault back.fault (D.faults disk) (D.faults back.value)) }
        ensures later_ok { IfOk result (λ journal. D.faults disk ≤ D.faults journal.disk) }
        ensures later_err { IfErr result (λ back. D.faults disk ≤ D.faults back.value) }
        ensures asked { IfOk result
            (λ journal. AsksLoad D.asked D.told service true disk journal.disk) }
        ensures begun { IfErr result (λ back. AsksLoadSome D.asked D.told service disk back.value) }
    {
        let start = match start_within(alloc, &mut disk, area, service) {
            Ok(start) => start,
            Err(fault) => return Err(Back { value: disk, fault }),
        };
        let life = JournalRecord::Life(start.index.next_life());
        let mut journal = Journal {
            alloc,
            disk,
            area,
            service,
            octets: start.octets,
            piece: start.piece,
            index: start.index,
            failed: false,
            doubted: None,
            room: 0,
        };
        match journal.append(life) {
            Ok(_) => Ok(journal),
            Err(fault) => Err(Back {
                value: journal.into_disk(),
                fault,
            }),
        }
    }
}
