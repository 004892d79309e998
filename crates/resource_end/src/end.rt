ghost use Rattle.std.specs.Prelude.{◌≡◌, ◌++◌, ◌+◌, ◌^◌, ◌<◌, ◌≤◌, false, true, None, Some, IfOk, IfErr, IfSome, IsSome, IsTrue, OnOk};
ghost use Rattle.ots_outside.specs.Disk.{Tells};
ghost use Rattle.decision_journal.specs.Limits.{area_limit};
ghost use Rattle.decision_journal.specs.Asking.{AsksLoad};
ghost use Rattle.decision_journal.specs.Calls.{IsCurrent};
ghost use Rattle.decision_journal.specs.Laws.{AppendsAreSafe};
ghost use Rattle.decision_journal.specs.Journal.{can_follow};
ghost use Rattle.decision_journal.specs.Layout.{Fits};
ghost use Rattle.decision_journal.specs.State.{cells_in};
ghost use Rattle.decision_journal.specs.Loading.{LoadIsDone, LoadIsSafe};
ghost use Rattle.resource_end.specs.Asking.{HasFrontOf};
ghost use Rattle.resource_end.specs.Limits.{object_limit};
ghost use Rattle.resource_end.specs.Recall.{loaded};
ghost use Rattle.resource_end.specs.End as end;
ghost use Rattle.resource_end.specs.Calls as calls;
ghost use Rattle.resource_end.specs.Faults.{AsksRefusedLoad, IsLoadCause, IsNoFault, IsRefusedLoad};
ghost use Rattle.resource_end.specs.Inside as inside;
ghost use Rattle.resource_end.specs.Journaling as journaling;
ghost use Rattle.resource_end.specs.Crashes as crashes;
ghost use Rattle.resource_end.specs.Crashes.{Makes};
ghost use Rattle.resource_end.specs.OnRecord.{AreOfEarlierLives, IsOnRecord};

use crate::contents::Contents;
use crate::fault::EndFault;
use crate::kept::Id;
use crate::loading::load_all;
use crate::state::{State, Word};
use decision_journal::{Journal, JournalRecord, Put, appends_are_safe, octets_stand_for_one_list};
use ior_refs::ObjectKey;
use ots_model::tree::Heard;
use ots_model::{Decision, RefBytes, Status};
use ots_outside::{Back, Disk};
use recovery_coord::Outbox;
use std::alloc::{AllocError, Global};
use std::marker::Model;

/// The letter of a synchronization's key.
const SYNCHRONIZATION_KIND: u8 = b'Y';

/// How many objects may be made in one life.
const OBJECT_LIMIT: u64 = 1 << 48;

/// How many resources may be unfinished at once.
const UNFINISHED_LIMIT: usize = 4096;

/// Resources with cells that outlive a crash, over a disk. Contracts see the end as its definition has it, and its journal.
#[derive(Drop)]
pub struct ResourceEnd<D: Disk> {
    alloc: Global,
    journal: Journal<D>,
    drawn: u64,
    contents: Contents,
    /// The recovery coordinator that the record in doubt names, where it names one.
    recovery: RefBytes,
    changed: Option<Status>,
}

impl<D: Disk> Model for ResourceEnd<D> {
    ghost use Rattle.resource_end.specs.Inside.{IsWhole};
    ghost use Rattle.resource_end.specs.Journaling.{EndState};

    ghost Value = { EndState D };

    ghost view = { λ e. record {
      end = record {
        service = e.journal.service;
        life = e.journal.found.life;
        drawn = e.drawn;
        resources = e.contents.resources;
        cells = e.contents.cells;
        doubted = e.journal.doubted;
        changed = e.changed;
      };
      journal = e.journal;
    } };

    ghost invariant = { λ e. IsWhole e.journal e.drawn e.recovery e.contents.resources };
}

impl<D: Disk> ResourceEnd<D> {
    /// Loads the end of this service that a disk holds, or makes one where there is none, and begins its next life. What isn't
    /// recorded is unknown. Where that is refused, the disk comes back.
    pub fn load(
        alloc: Global,
        disk: D,
        area: u64,
        service: u64,
    ) -> Result<ResourceEnd<D>, Back<D, EndFault>>
        requires { area ≤ area_limit }
        ensures end { IfOk result (λ e. e.end ≡ loaded service e.journal.found) }
        ensures made { IfOk result
            (λ e. IfSome (D.told disk) (λ s. Makes service s.reads e.end)) }
        ensures stays { IfOk result (λ e. AreOfEarlierLives e.end → IsOnRecord e) }
        ensures area { IfOk result (λ e. e.journal.area ≡ area) }
        ensures service { IfOk result (λ e. e.journal.service ≡ service) }
        ensures failed { IfOk result (λ e. e.journal.failed ≡ false) }
        ensures current { IfOk result (λ e. IsCurrent D.told e.journal) }
        ensures done { IfOk result
            (λ e. Tells (D.told disk) (D.told e.journal.disk) (LoadIsDone service)) }
        ensures safe_ok { IfOk result
            (λ e. Tells (D.told disk) (D.told e.journal.disk) (LoadIsSafe service)) }
        ensures safe_err { IfErr result
            (λ back. Tells (D.told disk) (D.told back.value) (LoadIsSafe service)) }
        ensures refused { IfErr result (λ back. Tells (D.told disk) (D.told back.value)
            (IsRefusedLoad service back.fault)) }
        ensures fault { IfErr result (λ back. IsLoadCause area service (D.told disk) (D.faults disk)
            (D.faults back.value) back.fault) }
        ensures calm_ok { IfOk result (λ e. D.faults e.journal.disk ≡ D.faults disk) }
        ensures calm_err { IfErr result (λ back. IsNoFault back.fault (D.faults disk) (D.faults back.value)) }
        ensures later_ok { IfOk result (λ e. D.faults disk ≤ D.faults e.journal.disk) }
        ensures later_err { IfErr result (λ back. D.faults disk ≤ D.faults back.value) }
        ensures asked { IfOk result (λ e. AsksLoad D.asked D.told service true disk e.journal.disk) }
        ensures begun_err { IfErr result
            (λ back. AsksRefusedLoad D.asked D.told service back.fault disk back.value) }
    {
        octets_stand_for_one_list();
        let journal = match Journal::load(alloc, disk, area, service) {
            Ok(journal) => journal,
            Err(back) => {
                return Err(Back {
                    value: back.value,
                    fault: EndFault::of_load(back.fault),
                });
            }
        };
        match load_all(alloc, journal.standing()) {
            Ok(contents) => Ok(ResourceEnd {
                alloc,
                journal,
                drawn: 0,
                contents,
                recovery: RefBytes::from_vec(Vec::new(alloc)),
                changed: None,
            }),
            Err(_) => Err(Back {
                value: journal.into_disk(),
                fault: EndFault::Memory,
            }),
        }
    }

    /// Gives the disk back, as the last call left it.
    pub fn into_disk(self) -> D
        ensures { result ≡ self.journal.disk }
    {
        self.journal.into_disk()
    }

    /// The number of its service.
    pub fn service(&self) -> u64
        ensures { result ≡ self.now.end.service }
    {
        self.journal.service()
    }

    /// What is stored in a cell.
    pub fn stored(&self, cell: u64) -> Option<u64>
        ensures { result ≡ end.stored cell self.now.end }
    {
        self.contents.stored(cell)
    }

    /// How the resource of a key stands. One that the key doesn't name is as one that was forgotten.
    pub fn state(&self, key: &ObjectKey) -> State
        ensures { result ≡ end.state_named key.now self.now.end }
    {
        match self.contents.state_of(self.journal.service(), key) {
            Some(state) => state,
            None => State::Forgotten,
        }
    }

    /// What the last word, or the last answer to an ask, made of its resource; nothing where there was none since the load.
    pub fn changed(&self) -> Option<Status>
        ensures { result ≡ self.now.end.changed }
    {
        self.changed
    }

    /// What a resource sees of a cell: its own put, or what is stored. There is none where the key names no resource
    /// (ObjectNotExist).
    pub fn get(&self, key: &ObjectKey, cell: u64) -> Result<Option<u64>, EndFault>
        ensures { result ≡ calls.get key.now cell self.now.end }
    {
        let own = match self.contents.named(self.journal.service(), key) {
            Some(kept) => kept.own(cell),
            None => return Err(EndFault::ObjectNotExist),
        };
        match own {
            Some(value) => Ok(Some(value)),
            None => Ok(self.contents.stored(cell)),
        }
    }

    /// Makes an object with a key of this letter, R, A or Y. A synchronization, Y, is no resource. It is refused where 2^48
    /// objects of this life were made, or 4,096 resources are unfinished (NoResources). A resource that could be made may want
    /// memory.
    pub fn fresh(&mut self, kind: u8) -> Result<ObjectKey, EndFault>
        ensures called { journaling.IsMadeOrUnmade kind self.old self.new result }
        ensures stays { IsOnRecord self.old → IsOnRecord self.new }
        ensures apart { IsOnRecord self.old → IfOk result (λ key. end.named key self.old.end ≡ None) }
    {
        if self.is_spent(kind) {
            return Err(EndFault::NoResources);
        }
        let key = self.next_key(kind);
        if kind == SYNCHRONIZATION_KIND {
            self.drawn += 1;
            return Ok(key);
        }
        self.contents.add((key.life, key.generation), kind)?;
        self.drawn += 1;
        Ok(key)
    }

    /// Whether no further object with a key of this letter can be made.
    fn is_spent(&self, kind: u8) -> bool
        ensures spent { result ≡ calls.is_spent kind self.now.end }
        ensures left { result ≡ false → self.now.end.drawn < object_limit }
    {
        if self.drawn >= OBJECT_LIMIT {
            return true;
        }
        if kind == SYNCHRONIZATION_KIND {
            return false;
        }
        self.contents.unfinished() >= UNFINISHED_LIMIT
    }

    /// The next key of this letter.
    fn next_key(&self, kind: u8) -> ObjectKey
        requires { self.now.end.drawn < object_limit }
        ensures key { result ≡ calls.key_of kind (self.now.end.drawn + 1) self.now.end }
        ensures life { result.life < 2 ^ 32 }
    {
        ObjectKey {
            kind,
            service: self.journal.service(),
            life: self.journal.life(),
            slot: 0,
            generation: self.drawn + 1,
            index: 0,
        }
    }

    /// A resource's recovery coordinator is this one from now on. One that has prepared keeps that of its record. It is
    /// refused where the key names no resource (ObjectNotExist).
    pub fn bind(&mut self, key: &ObjectKey, recovery: RefBytes) -> Result<(), EndFault>
        ensures called { journaling.IsAlone self.old self.new result (calls.bind key.now recovery self.old.end) }
        ensures stays { IsOnRecord self.old → IsOnRecord self.new }
    {
        match self.contents.state_of(self.journal.service(), key) {
            Some(_) => {
                let _fits = recovery.bytes().len();
                self.contents.bind((key.life, key.generation), recovery);
                Ok(())
            }
            None => Err(EndFault::ObjectNotExist),
        }
    }

    /// Forgets a resource that has put nothing, where the key names one.
    pub fn unmake(&mut self, key: &ObjectKey)
        ensures called { self.new ≡ record self.old { end = calls.unmake key.now self.old.end } }
        ensures stays { IsOnRecord self.old → IsOnRecord self.new }
    {
        let state = match self.contents.state_of(self.journal.service(), key) {
            Some(state) => state,
            None => return,
        };
        if !state.is_fresh() {
            return;
        }
        self.contents
            .change((key.life, key.generation), State::Forgotten, None);
    }

    /// A resource puts a value into a cell. Where a call has failed, the journal is read again first (PersistStore). It is
    /// refused where the key names no resource (ObjectNotExist), where the resource has gone too far (Inactive), where another
    /// one holds the cell (Transient), and where it has put 1,024 other cells (NoResources). One that nothing else refuses may
    /// want memory.
    pub fn put(&mut self, key: &ObjectKey, cell: u64, value: u64) -> Result<(), EndFault>
        ensures called { journaling.IsCalledOrStarved D.told self.old self.new result (calls.put key.now cell value) }
        ensures crash { crashes.IsCrashSafe D.told self.old self.new }
        ensures stays { IsOnRecord self.old → IsOnRecord self.new }
        ensures fault { IfErr result
            (journaling.IsCause D.wants_memory D.told D.faults self.old.journal self.new.journal) }
        ensures later { D.faults self.old.journal.disk ≤ D.faults self.new.journal.disk }
    {
        self.kept();
        let said = self.try_put(key, cell, value);
        self.kept();
        said
    }

    /// Puts a value into a cell, or is refused.
    fn try_put(&mut self, key: &ObjectKey, cell: u64, value: u64) -> Result<(), EndFault>
        ensures called { journaling.IsCalledOrStarved D.told self.old self.new result (calls.put key.now cell value) }
        ensures fault { IfErr result
            (journaling.IsCause D.wants_memory D.told D.faults self.old.journal self.new.journal) }
        ensures later { D.faults self.old.journal.disk ≤ D.faults self.new.journal.disk }
    {
        ok!(self.reread());
        ok!(self.needs_open(key));
        let id = (key.life, key.generation);
        if let Some(number) = self.contents.other_holder(id, cell) {
            return Err(EndFault::Transient(number));
        }
        if !self.contents.has_room(id, cell) {
            return Err(EndFault::NoResources);
        }
        match self.contents.put(id, Put { cell, value }) {
            Ok(()) => {}
            Err(_) => return Err(EndFault::Memory),
        }
        Ok(())
    }

    /// A resource is to vote rollback. Where a call has failed, the journal is read again first (PersistStore). It is refused
    /// where the key names no resource (ObjectNotExist), and where the resource has gone too far (Inactive).
    pub fn refuse(&mut self, key: &ObjectKey) -> Result<(), EndFault>
        ensures called { journaling.IsCalled D.told self.old self.new result journaling.nothing (calls.refuse key.now) }
        ensures crash { crashes.IsCrashSafe D.told self.old self.new }
        ensures stays { IsOnRecord self.old → IsOnRecord self.new }
        ensures fault { IfErr result
            (journaling.IsCause D.wants_memory D.told D.faults self.old.journal self.new.journal) }
        ensures later { D.faults self.old.journal.disk ≤ D.faults self.new.journal.disk }
    {
        self.kept();
        let said = self.try_refuse(key);
        self.kept();
        said
    }

    /// Makes a resource vote rollback, or is refused.
    fn try_refuse(&mut self, key: &ObjectKey) -> Result<(), EndFault>
        ensures called { journaling.IsCalled D.told self.old self.new result journaling.nothing (calls.refuse key.now) }
        ensures fault { IfErr result
            (journaling.IsCause D.wants_memory D.told D.faults self.old.journal self.new.journal) }
        ensures later { D.faults self.old.journal.disk ≤ D.faults self.new.journal.disk }
    {
        ok!(self.reread());
        ok!(self.needs_open(key));
        self.contents
            .change((key.life, key.generation), State::Refused, None);
        Ok(())
    }

    /// A resource that waits for the outcome decides by itself. Where a call has failed, the journal is read again first. It is
    /// refused where the key names no resource (ObjectNotExist), where it doesn't wait (Inactive), and where the journal fails
    /// (PersistStore) or is full (NoResources).
    pub fn choose_heuristic(&mut self, key: &ObjectKey, d: Decision) -> Result<(), EndFault>
        ensures called { journaling.IsCalled D.told self.old self.new result
            (calls.wanted_by_choice d key.now) (calls.choose_heuristic key.now d) }
        ensures crash { crashes.IsCrashSafe D.told self.old self.new }
        ensures stays { IsOnRecord self.old → IsOnRecord self.new }
        ensures fault { IfErr result
            (journaling.IsCause D.wants_memory D.told D.faults self.old.journal self.new.journal) }
        ensures later { D.faults self.old.journal.disk ≤ D.faults self.new.journal.disk }
    {
        self.kept();
        let said = self.try_choice(key, d);
        self.kept();
        said
    }

    /// Makes a resource decide by itself, or is refused.
    fn try_choice(&mut self, key: &ObjectKey, d: Decision) -> Result<(), EndFault>
        ensures called { journaling.IsCalled D.told self.old self.new result
            (calls.wanted_by_choice d key.now) (calls.choose_heuristic key.now d) }
        ensures fault { IfErr result
            (journaling.IsCause D.wants_memory D.told D.faults self.old.journal self.new.journal) }
        ensures later { D.faults self.old.journal.disk ≤ D.faults self.new.journal.disk }
    {
        ok!(self.reread());
        let state = match self.contents.state_of(self.journal.service(), key) {
            Some(state) => state,
            None => return Err(EndFault::ObjectNotExist),
        };
        if !state.is_prepared() {
            return Err(EndFault::Inactive);
        }
        self.moves((key.life, key.generation), State::of_choice(d))
    }

    /// `prepare`: A resource is to vote. Where a call has failed, the journal is read again first. It is refused where the key names no
    /// resource (ObjectNotExist), and where the journal fails (PersistStore) or is full (NoResources).
    pub fn prepare(&mut self, key: &ObjectKey) -> Result<Heard, EndFault>
        ensures called { journaling.IsCalled D.told (journaling.afresh self.old) self.new result
            (calls.wanted Word.Prepare key.now) (calls.told Word.Prepare key.now) }
        ensures crash { crashes.IsCrashSafe D.told self.old self.new }
        ensures stays { IsOnRecord self.old → IsOnRecord self.new }
        ensures fault { IfErr result
            (journaling.IsCause D.wants_memory D.told D.faults self.old.journal self.new.journal) }
        ensures later { D.faults self.old.journal.disk ≤ D.faults self.new.journal.disk }
    {
        self.told(Word::Prepare, key)
    }

    /// `commit`: A resource is to make its puts last. Where a call has failed, the journal is read again first. It is refused where the key names no
    /// resource (ObjectNotExist), and where the journal fails (PersistStore) or is full (NoResources).
    pub fn commit(&mut self, key: &ObjectKey) -> Result<Heard, EndFault>
        ensures called { journaling.IsCalled D.told (journaling.afresh self.old) self.new result
            (calls.wanted Word.Commit key.now) (calls.told Word.Commit key.now) }
        ensures crash { crashes.IsCrashSafe D.told self.old self.new }
        ensures stays { IsOnRecord self.old → IsOnRecord self.new }
        ensures fault { IfErr result
            (journaling.IsCause D.wants_memory D.told D.faults self.old.journal self.new.journal) }
        ensures later { D.faults self.old.journal.disk ≤ D.faults self.new.journal.disk }
    {
        self.told(Word::Commit, key)
    }

    /// `rollback`: A resource is to drop its puts. Where a call has failed, the journal is read again first. It is refused where the key names no
    /// resource (ObjectNotExist), and where the journal fails (PersistStore) or is full (NoResources).
    pub fn rollback(&mut self, key: &ObjectKey) -> Result<Heard, EndFault>
        ensures called { journaling.IsCalled D.told (journaling.afresh self.old) self.new result
            (calls.wanted Word.Rollback key.now) (calls.told Word.Rollback key.now) }
        ensures crash { crashes.IsCrashSafe D.told self.old self.new }
        ensures stays { IsOnRecord self.old → IsOnRecord self.new }
        ensures fault { IfErr result
            (journaling.IsCause D.wants_memory D.told D.faults self.old.journal self.new.journal) }
        ensures later { D.faults self.old.journal.disk ≤ D.faults self.new.journal.disk }
    {
        self.told(Word::Rollback, key)
    }

    /// `commit_one_phase`: A resource is to decide alone. Where a call has failed, the journal is read again first. It is refused where the key names no
    /// resource (ObjectNotExist), and where the journal fails (PersistStore) or is full (NoResources).
    pub fn commit_one_phase(&mut self, key: &ObjectKey) -> Result<Heard, EndFault>
        ensures called { journaling.IsCalled D.told (journaling.afresh self.old) self.new result
            (calls.wanted Word.CommitOnePhase key.now) (calls.told Word.CommitOnePhase key.now) }
        ensures crash { crashes.IsCrashSafe D.told self.old self.new }
        ensures stays { IsOnRecord self.old → IsOnRecord self.new }
        ensures fault { IfErr result
            (journaling.IsCause D.wants_memory D.told D.faults self.old.journal self.new.journal) }
        ensures later { D.faults self.old.journal.disk ≤ D.faults self.new.journal.disk }
    {
        self.told(Word::CommitOnePhase, key)
    }

    /// `forget`: A resource need not keep its choice any more. Where a call has failed, the journal is read again first. It is refused where the key names no
    /// resource (ObjectNotExist), and where the journal fails (PersistStore) or is full (NoResources).
    pub fn forget(&mut self, key: &ObjectKey) -> Result<Heard, EndFault>
        ensures called { journaling.IsCalled D.told (journaling.afresh self.old) self.new result
            (calls.wanted Word.Forget key.now) (calls.told Word.Forget key.now) }
        ensures crash { crashes.IsCrashSafe D.told self.old self.new }
        ensures stays { IsOnRecord self.old → IsOnRecord self.new }
        ensures fault { IfErr result
            (journaling.IsCause D.wants_memory D.told D.faults self.old.journal self.new.journal) }
        ensures later { D.faults self.old.journal.disk ≤ D.faults self.new.journal.disk }
    {
        self.told(Word::Forget, key)
    }

    /// Puts the ask of each resource that waits for an outcome behind the other words, by life and then by number. Where memory
    /// is wanting (Memory) a front of the asks is there.
    pub fn asks(&self, out: &mut Outbox) -> Result<(), EndFault>
        ensures ok { OnOk result (out.new.words ≡ out.old.words ++ calls.asks self.now.end) }
        ensures err { IfErr result (λ fault. fault ≡ EndFault.Memory) }
        ensures front { HasFrontOf out.old.words (calls.asks self.now.end) out.new.words }
        ensures room { out.new.room ≡ out.old.room }
    {
        self.contents.asks(out)?;
        Ok(())
    }

    /// A resource hears the answer to its ask. One that isn't there, or waits for nothing, learns nothing. Where a call has
    /// failed, the journal is read again first. It is refused where the journal fails (PersistStore) or is full (NoResources).
    pub fn learn(&mut self, key: &ObjectKey, heard: &Heard) -> Result<(), EndFault>
        ensures called { journaling.IsCalled D.told (journaling.afresh self.old) self.new result
            (calls.wanted_by_answer heard.now key.now) (calls.learn key.now heard.now) }
        ensures crash { crashes.IsCrashSafe D.told self.old self.new }
        ensures stays { IsOnRecord self.old → IsOnRecord self.new }
        ensures fault { IfErr result
            (journaling.IsCause D.wants_memory D.told D.faults self.old.journal self.new.journal) }
        ensures later { D.faults self.old.journal.disk ≤ D.faults self.new.journal.disk }
    {
        self.kept();
        let said = self.try_learn(key, heard);
        self.kept();
        said
    }

    /// Tells a resource the answer to its ask, or is refused.
    fn try_learn(&mut self, key: &ObjectKey, heard: &Heard) -> Result<(), EndFault>
        ensures called { journaling.IsCalled D.told (journaling.afresh self.old) self.new result
            (calls.wanted_by_answer heard.now key.now) (calls.learn key.now heard.now) }
        ensures fault { IfErr result
            (journaling.IsCause D.wants_memory D.told D.faults self.old.journal self.new.journal) }
        ensures later { D.faults self.old.journal.disk ≤ D.faults self.new.journal.disk }
    {
        self.changed = None;
        ok!(self.reread());
        let state = match self.contents.state_of(self.journal.service(), key) {
            Some(state) => state,
            None => return Ok(()),
        };
        if let Some(next) = state.learns(heard) {
            ok!(self.moves((key.life, key.generation), next));
            self.changed = next.shown();
        }
        Ok(())
    }

    /// A resource is told a word.
    fn told(&mut self, word: Word, key: &ObjectKey) -> Result<Heard, EndFault>
        ensures called { journaling.IsCalled D.told (journaling.afresh self.old) self.new result
            (calls.wanted word key.now) (calls.told word key.now) }
        ensures crash { crashes.IsCrashSafe D.told self.old self.new }
        ensures stays { IsOnRecord self.old → IsOnRecord self.new }
        ensures fault { IfErr result
            (journaling.IsCause D.wants_memory D.told D.faults self.old.journal self.new.journal) }
        ensures later { D.faults self.old.journal.disk ≤ D.faults self.new.journal.disk }
    {
        self.kept();
        let said = self.try_word(word, key);
        self.kept();
        said
    }

    /// Tells a resource a word, or is refused.
    fn try_word(&mut self, word: Word, key: &ObjectKey) -> Result<Heard, EndFault>
        ensures called { journaling.IsCalled D.told (journaling.afresh self.old) self.new result
            (calls.wanted word key.now) (calls.told word key.now) }
        ensures fault { IfErr result
            (journaling.IsCause D.wants_memory D.told D.faults self.old.journal self.new.journal) }
        ensures later { D.faults self.old.journal.disk ≤ D.faults self.new.journal.disk }
    {
        self.changed = None;
        ok!(self.reread());
        let state = match self.contents.state_of(self.journal.service(), key) {
            Some(state) => state,
            None => return Err(EndFault::ObjectNotExist),
        };
        let row = state.row(word);
        if let Some(next) = row.next {
            match self.moves((key.life, key.generation), next) {
                Ok(()) => self.changed = next.shown(),
                Err(fault) => {
                    drop(row);
                    return Err(fault);
                }
            }
        }
        row.said
    }

    /// What the disk holds is known, and what an append may leave of it.
    fn kept(&self)
        ensures whole { inside.IsKeptWhole D.told self.now }
        ensures appends { AppendsAreSafe }
    {
        appends_are_safe();
        let _disk = self.journal.disk();
    }

    /// It is refused where the resource that a key names can't put.
    fn needs_open(&self, key: &ObjectKey) -> Result<(), EndFault>
        ensures can_put { OnOk result (inside.IsOpen key.now self.now.end) }
        ensures refused { IfErr result (inside.IsNotOpen key.now self.now.end) }
    {
        let state = match self.contents.state_of(self.journal.service(), key) {
            Some(state) => state,
            None => return Err(EndFault::ObjectNotExist),
        };
        if !state.is_open() {
            return Err(EndFault::Inactive);
        }
        Ok(())
    }

    /// Reads the journal again where a call has failed. Where the record in doubt stands, its resource changes as it says.
    fn reread(&mut self) -> Result<(), EndFault>
        ensures rereads { inside.HasReadAgain D.told self.old self.new result }
        ensures ready { OnOk result (self.new.journal.failed ≡ false) }
        ensures fault { IfErr result
            (journaling.IsCause D.wants_memory D.told D.faults self.old.journal self.new.journal) }
        ensures later { D.faults self.old.journal.disk ≤ D.faults self.new.journal.disk }
        ensures shown { self.new.end.changed ≡ self.old.end.changed }
    {
        if !self.journal.failed() {
            return Ok(());
        }
        let known = self.journal.standing().len();
        if let Err(fault) = self.journal.reopen() {
            return Err(EndFault::of_write(fault));
        }
        let recovery = std::mem::replace(
            &mut self.recovery,
            RefBytes::from_vec(Vec::new(self.alloc)),
        );
        if self.journal.standing().len() > known {
            self.contents.recall_last(self.journal.standing(), recovery);
        }
        Ok(())
    }

    /// A resource changes its state. Where a record has to stand first, it is written.
    fn moves(&mut self, id: Id, next: State) -> Result<(), EndFault>
        requires known { IsSome (inside.numbered id self.old.end.resources) }
        requires can { IfSome (inside.numbered id self.old.end.resources)
            (λ r. inside.CanMove r.state next) }
        requires ready { self.old.journal.failed ≡ false }
        ensures moves { IfSome (inside.numbered id self.old.end.resources)
            (inside.HasMoved D.told self.old self.new result next) }
        ensures fault { IfErr result
            (journaling.IsCause D.wants_memory D.told D.faults self.old.journal self.new.journal) }
        ensures later { D.faults self.old.journal.disk ≤ D.faults self.new.journal.disk }
        ensures shown { self.new.end.changed ≡ self.old.end.changed }
    {
        let due = match self.contents.record_for(id, next) {
            Ok(due) => due,
            Err(_) => return Err(EndFault::Memory),
        };
        match due {
            Some(item) => self.write(item),
            None => {
                self.contents.change(id, next, None);
                Ok(())
            }
        }
    }

    /// Writes a record of a resource, which then changes as it says. Nothing is written where memory is wanting.
    fn write(&mut self, item: JournalRecord) -> Result<(), EndFault>
        requires fits { Fits item }
        requires follows { IsTrue (can_follow self.old.journal.found item) }
        requires cells { cells_in item ≡ 1 }
        requires recallable { inside.IsRecallable item (inside.named_by item) self.old.end.resources }
        requires ready { self.old.journal.failed ≡ false }
        ensures writes { inside.HasWrittenRecord D.told self.old self.new result item }
        ensures fault { IfErr result
            (journaling.IsCause D.wants_memory D.told D.faults self.old.journal self.new.journal) }
        ensures later { D.faults self.old.journal.disk ≤ D.faults self.new.journal.disk }
        ensures shown { self.new.end.changed ≡ self.old.end.changed }
    {
        let recovery = match room_for(self.alloc, &mut self.journal, &item) {
            Ok(recovery) => recovery,
            Err(_) => {
                drop(item);
                return Err(EndFault::Memory);
            }
        };
        match self.journal.append(item) {
            Ok(_) => {
                self.contents.recall_last(self.journal.standing(), recovery);
                Ok(())
            }
            Err(fault) => {
                self.recovery = recovery;
                Err(EndFault::of_write(fault))
            }
        }
    }
}

/// Room in a journal for one more record of cells, and a copy of the recovery coordinator that this one names.
fn room_for<D: Disk>(
    alloc: Global,
    journal: &mut Journal<D>,
    item: &JournalRecord,
) -> Result<RefBytes, AllocError>
    ensures named { IfOk result (λ recovery. recovery ≡ inside.named_by item.now) }
    ensures room { OnOk result (0 < journal.new.room) }
    ensures same { journal.new ≡ record journal.old { room = journal.new.room } }
{
    ok!(journal.reserve());
    named_by(alloc, item)
}

/// A copy of the recovery coordinator that a record of cells names, or of none.
fn named_by(alloc: Global, item: &JournalRecord) -> Result<RefBytes, AllocError>
    ensures { IfOk result (λ recovery. recovery ≡ inside.named_by item.now) }
{
    match item {
        JournalRecord::CellsPrepared(_, _, recovery, _) => recovery.copy(alloc),
        _ => Ok(RefBytes::from_vec(Vec::new(alloc))),
    }
}
