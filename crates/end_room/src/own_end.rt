ghost use Rattle.std.specs.Prelude.{◌≡◌, ◌≤◌, ◌⊎◌, [], false, IfErr, OnErr, OnOk};
ghost use Rattle.resource_end.specs.Calls as calls;
ghost use Rattle.resource_end.specs.Crashes as crashes;
ghost use Rattle.resource_end.specs.Journaling as journaling;
ghost use Rattle.resource_end.specs.OnRecord.{IsOnRecord};
ghost use Rattle.end_room.specs.Own as own;
ghost use Rattle.end_room.specs.Own.{IsNamed, IsNew, IsUnkept, Keeps};

use crate::ends::{Ends, Enlisted, Entered};
use crate::given::Given;
use ior_refs::ObjectKey;
use ots_model::tree::Heard;
use ots_model::{Endpoint, RefBytes};
use ots_outside::Disk;
use recovery_coord::Outbox;
use resource_end::{EndFault, ResourceEnd, State, Word};
use std::alloc::{AllocError, Global};
use std::collections::BTreeMap;
use std::marker::Model;

/// The letter of the keys of resources.
const RESOURCE_KIND: u8 = b'R';

/// A resource end with the resources of transactions in this life. Contracts see it as an `OwnState`.
#[derive(Drop)]
pub struct OwnEnd<D: Disk> {
    alloc: Global,
    at: Endpoint,
    service: u64,
    end: ResourceEnd<D>,
    given: Given,
    /// The tid for which a resource of this life was made, by its number, so that one that is over is found.
    tids: BTreeMap<u64, Vec<u8>>,
}

impl<D: Disk> Model for OwnEnd<D> {
    ghost use Rattle.end_room.specs.Own.{OwnState};

    ghost Value = { OwnState D };

    ghost view = { λ o. record {
      end = o.end;
      names = o.given;
      place = record { at = o.at; service = o.service };
    } };
}

impl<D: Disk> OwnEnd<D> {
    /// This end, which stands at this place. No transaction has a resource there yet.
    pub fn new(alloc: Global, end: ResourceEnd<D>, at: Endpoint) -> OwnEnd<D>
        ensures end { result.end ≡ end }
        ensures place { result.place ≡ record { at = at; service = end.end.service } }
        ensures names { result.names ≡ [] }
    {
        let service = end.service();
        OwnEnd {
            alloc,
            at,
            service,
            end,
            given: Given::new(alloc),
            tids: BTreeMap::new(alloc),
        }
    }

    /// The unfinished resource of a transaction.
    fn live(&self, tid: &[u8]) -> Option<Enlisted>
        ensures { result ≡ own.live tid.now self.now.names self.now.end.end }
    {
        match self.given.get(tid) {
            Some(enlisted) if self.end.state(&enlisted.key).is_unfinished() => Some(enlisted),
            _ => None,
        }
    }

    /// A resource is made for a transaction.
    fn enlist(&mut self, tid: &[u8]) -> Result<Entered, EndFault>
        ensures made { IsNew tid.now self.old result self.new ⊎ IsUnkept self.old result self.new }
        ensures place { self.new.place ≡ self.old.place }
    {
        let key = self.end.fresh(RESOURCE_KIND)?;
        match self.note(tid, key) {
            Ok(()) => Ok(Entered::New(key)),
            Err(_) => {
                self.end.unmake(&key);
                Err(EndFault::Memory)
            }
        }
    }

    /// A transaction has this new resource from now on.
    fn note(&mut self, tid: &[u8], key: ObjectKey) -> Result<(), AllocError>
        ensures named { OnOk result (IsNamed tid.now (record { key = key; bound = false }) self.old.names self.new.names) }
        ensures unnamed { OnErr result (self.new.names ≡ self.old.names) }
        ensures end { self.new.end ≡ self.old.end }
        ensures place { self.new.place ≡ self.old.place }
    {
        let mut own = Vec::new(self.alloc);
        own.extend_from_slice(tid)?;
        let mut known = Vec::new(self.alloc);
        known.extend_from_slice(tid)?;
        self.tids.insert(key.generation, known)?;
        let enlisted = Enlisted { key, bound: false };
        let given = self.given.insert(own, enlisted);
        if given.is_err() {
            self.tids.remove(&key.generation);
        }
        given
    }

    /// Where the resource of this number is over, the transaction that it was made for has none any more.
    fn tidy(&mut self, number: u64)
        ensures names { Keeps self.old.end.end self.old.names self.new.names }
        ensures end { self.new.end ≡ self.old.end }
        ensures place { self.new.place ≡ self.old.place }
    {
        let Some(tid) = self.tids.get(&number) else {
            return;
        };
        let tid = tid.as_slice();
        if let Some(enlisted) = self.given.get(tid) {
            if self.end.state(&enlisted.key).is_unfinished() {
                return;
            }
            self.given.remove(tid);
        }
        self.tids.remove(&number);
    }
}

impl<D: Disk> Ends for OwnEnd<D> {
    ghost use Rattle.end_room.specs.Own.{Does};

    ghost does = { Does D.wants_memory D.told D.faults };

    ghost place = { λ o. o.place };

    fn at(&self) -> &Endpoint {
        &self.at
    }

    fn service(&self) -> u64 {
        self.service
    }

    fn enter(&mut self, tid: &[u8]) -> Result<Entered, EndFault> {
        match self.live(tid) {
            Some(enlisted) if enlisted.bound => Ok(Entered::Known(enlisted.key)),
            Some(_) => Ok(Entered::Registering),
            None => self.enlist(tid),
        }
    }

    fn bind(&mut self, tid: &[u8], key: &ObjectKey, recovery: RefBytes) -> Result<(), EndFault> {
        match self.given.get(tid) {
            Some(enlisted) if enlisted.key == *key => self.given.bind(tid),
            _ => {}
        }
        self.end.bind(key, recovery)
    }

    fn unmake(&mut self, key: &ObjectKey) {
        self.end.unmake(key);
        self.tidy(key.generation);
    }

    fn put(&mut self, key: &ObjectKey, cell: u64, value: u64) -> Result<(), EndFault> {
        self.end.put(key, cell, value)
    }

    fn read(&mut self, tid: Option<&[u8]>, cell: u64) -> Option<u64> {
        let Some(tid) = tid else {
            return self.end.stored(cell);
        };
        let Some(enlisted) = self.live(tid) else {
            return self.end.stored(cell);
        };
        match self.end.get(&enlisted.key, cell) {
            Ok(seen) => seen,
            Err(_) => self.end.stored(cell),
        }
    }

    fn has(&mut self, key: &ObjectKey) -> bool {
        !matches!(self.end.state(key), State::Forgotten)
    }

    fn tell(&mut self, word: Word, key: &ObjectKey) -> Result<Heard, EndFault> {
        let said = tell(&mut self.end, word, key);
        self.tidy(key.generation);
        said
    }

    fn asks(&mut self, out: &mut Outbox) -> Result<(), EndFault> {
        self.end.asks(out)
    }

    fn learn(&mut self, key: &ObjectKey, heard: &Heard) -> Result<(), EndFault> {
        let said = self.end.learn(key, heard);
        self.tidy(key.generation);
        said
    }
}

/// A resource is told a word (`ResourceEnd::prepare` and its like).
fn tell<D: Disk>(end: &mut ResourceEnd<D>, word: Word, key: &ObjectKey) -> Result<Heard, EndFault>
    ensures called { journaling.IsCalled D.told (journaling.afresh end.old) end.new result
        (calls.wanted word key.now) (calls.told word key.now) }
    ensures crash { crashes.IsCrashSafe D.told end.old end.new }
    ensures stays { IsOnRecord end.old → IsOnRecord end.new }
    ensures fault { IfErr result (journaling.IsCause D.wants_memory D.told D.faults end.old.journal end.new.journal) }
    ensures later { D.faults end.old.journal.disk ≤ D.faults end.new.journal.disk }
{
    match word {
        Word::Prepare => end.prepare(key),
        Word::Commit => end.commit(key),
        Word::Rollback => end.rollback(key),
        Word::CommitOnePhase => end.commit_one_phase(key),
        Word::Forget => end.forget(key),
    }
}
