ghost use Rattle.std.specs.Prelude.{◌≡◌, ◌≢◌, ◌==◌, ◌++◌, false, not, map, find, Some, IfOk, OnOk, OnErr, IsErrOf};
ghost use Rattle.std.specs.List.{filter_map};
ghost use Rattle.std.specs.Option.{option_copied, option_to_list};
ghost use Rattle.decision_journal.specs.Index.{AreInOrder};
ghost use Rattle.ior_refs.specs.Reference.{canonical_octets, nil};
ghost use Rattle.recovery_coord.specs.declared.held.Held.{Held as HeldRecord};
ghost use Rattle.recovery_coord.specs.Held as holding;
ghost use Rattle.recovery_coord.specs.Hearing as hearing;
ghost use Rattle.recovery_coord.specs.Telling as telling;
ghost use Rattle.recovery_coord.specs.Replay as replay;

use crate::finding::stands;
use crate::held::{Held, Party, held_of};
use crate::outbox::Outbox;
use crate::records::{holds, record_at, search};
use crate::row::Row;
use crate::telling::RETOLD_SLOT;
use crate::trees::{Trees, tree_named, tree_of};
use decision_journal::{Journal, JournalRecord, Standing};
use ior_refs::{ObjectKey, ObjectRef};
use ots_model::tree::Heard;
use ots_model::{CallNumber, Status};
use ots_outside::Disk;
use std::alloc::{AllocError, Global};
use std::marker::Model;

/// The letter of a recovery coordinator's key.
const RECOVERY_KIND: u8 = b'V';

/// Why `replay_completion` is refused.
#[derive(Clone, Copy, Debug, PartialEq, Eq)]
pub enum ReplayFault {
    /// The registration is that of another resource (NotPrepared).
    NotPrepared,
    /// No record names the registration (OBJECT_NOT_EXIST).
    ObjectNotExist,
    /// The resource is the reference to no object (BAD_PARAM).
    BadParam,
}

/// The records that stand and whose trees are gone. Contracts see the service, the life in which they are told again, and the
/// records in the order of their places.
#[derive(Drop)]
pub struct Recovered {
    alloc: Global,
    service: u64,
    life: u32,
    records: Row,
    trees: Trees,
}

impl Model for Recovered {
    ghost use Rattle.recovery_coord.specs.Held.{Recoveries};
    ghost use Rattle.recovery_coord.specs.Trees.{AreFound};

    ghost Value = { Recoveries };

    ghost view = { λ r. record { service = r.service; life = r.life; records = r.records } };

    ghost invariant = { λ r. AreFound r.trees.firsts r.records };
}

impl Recovered {
    /// The decisions and prepared records that stand in a journal, as a load leaves them: of a decision the commit word to each
    /// registration is to be told, of a prepared record none.
    pub fn from<D: Disk>(alloc: Global, journal: &Journal<D>) -> Result<Recovered, AllocError>
        ensures service { IfOk result (λ r. r.service ≡ journal.now.service) }
        ensures life { IfOk result (λ r. r.life ≡ journal.now.found.life) }
        ensures records { IfOk result (λ r. r.records ≡ filter_map holding.loaded journal.now.found.standing) }
    {
        let records = load_all(alloc, journal.standing())?;
        let trees = Trees::of(alloc, &records)?;
        Ok(Recovered {
            alloc,
            service: journal.service(),
            life: journal.life(),
            records: Row::of(records),
            trees,
        })
    }

    /// The records that are held, in the order of their places.
    pub fn records(&self) -> &[Held]
        ensures { result.now ≡ self.now.records }
    {
        self.records.as_slice()
    }

    /// Whether a record is held at this place.
    pub fn holds(&self, place: u64) -> bool
        ensures { result ≡ holding.is_held place self.now.records }
    {
        holds(self.records.as_slice(), place)
    }

    /// The record at a place.
    pub fn record_at(&self, place: u64) -> Option<&Held>
        ensures { option_copied result ≡ find (λ (r : HeldRecord). r.place == place) self.now.records }
    {
        record_at(self.records.as_slice(), place)
    }

    /// What a recovery coordinator answers by the records alone. It needs no memory.
    pub fn replay_completion(
        &self,
        key: &ObjectKey,
        resource: &ObjectRef,
    ) -> Result<Status, ReplayFault>
        ensures nil { resource.now ≡ nil → IsErrOf result ReplayFault.BadParam }
        ensures answer { resource.now ≢ nil → replay.AnswersRecord key.now
            (replay.record_named self.now.service key.now self.now.records) (canonical_octets resource.now) result }
    {
        if resource.is_nil() {
            return Err(ReplayFault::BadParam);
        }
        match self.record_named(key) {
            Some(held) => party_answer(held, key, resource.bytes()),
            None => Err(ReplayFault::ObjectNotExist),
        }
    }

    /// The record that a recovery coordinator's key names.
    fn record_named(&self, key: &ObjectKey) -> Option<&Held>
        ensures { option_copied result ≡ replay.record_named self.now.service key.now self.now.records }
    {
        if key.kind != RECOVERY_KIND {
            return None;
        }
        self.record_of(key)
    }

    /// The first record of the tree that a key of this service names.
    pub fn record_of(&self, key: &ObjectKey) -> Option<&Held>
        ensures { option_copied result ≡ find (replay.is_of_tree self.now.service key.now) self.now.records }
    {
        if key.service != self.service {
            return None;
        }
        let first = self.trees.first(tree_named(key))?;
        match search(self.records.as_slice(), u64::from(first.place)) {
            Ok(index) => Some(&self.records.as_slice()[index]),
            Err(_) => None,
        }
    }

    /// Puts each word that is still to be told behind the others, in record order, and within a record in the order of its
    /// registrations. A record that is complete and is held still, since its Done doesn't stand, is told again from the
    /// beginning. Want of memory leaves the words as they were.
    pub fn redrive(&mut self, out: &mut Outbox) -> Result<(), AllocError>
        ensures records { self.new ≡ record self.old { records = map telling.retold self.old.records } }
        ensures words { OnOk result (out.new.words ≡ out.old.words ++ telling.words self.new.life self.new.records) }
        ensures err { OnErr result (out.new.words ≡ out.old.words) }
        ensures room { out.new.room ≡ out.old.room }
    {
        let count = out.len();
        match self.records.tell_all(self.alloc, self.life, out) {
            Ok(()) => Ok(()),
            Err(refused) => {
                out.keep(count);
                Err(refused)
            }
        }
    }

    /// Hears the answer to a word that was told again. The result is the place of the record that is complete now. It is held
    /// on, and answers as before, until `done`.
    pub fn heard(&mut self, n: &CallNumber, h: &Heard) -> Option<u32>
        ensures records { self.new ≡ record self.old {
          records = hearing.records_after self.old.life n.now h.now self.old.records;
        } }
        ensures complete { result ≡ hearing.completed self.old.life n.now h.now self.old.records }
    {
        if n.life != self.life || n.slot != RETOLD_SLOT {
            return None;
        }
        self.records.hear(n, h)
    }

    /// The standing record of a tree that is finished goes on here. The commit and forget words to these registrations are then to
    /// be told; where both lists are empty, the record is as a load leaves it. A record that is held already stays as it is.
    pub fn take_over(
        &mut self,
        place: u32,
        item: &JournalRecord,
        commits: &[u32],
        forgets: &[u32],
    ) -> Result<(), AllocError>
        ensures ok { OnOk result (self.new ≡ record self.old {
          records = holding.taken (holding.held_of place item.now commits.now forgets.now) self.old.records;
        }) }
        ensures err { OnErr result (self.new ≡ self.old) }
    {
        if self.holds(u64::from(place)) {
            return Ok(());
        }
        match held_of(self.alloc, place, item, commits, forgets)? {
            Some(held) => self.take_in(held),
            None => Ok(()),
        }
    }

    /// One more record is held, where none is at its place.
    fn take_in(&mut self, held: Held) -> Result<(), AllocError>
        requires free { holding.is_held held.place self.old.records ≡ false }
        ensures ok { OnOk result (self.new ≡ record self.old { records = holding.taken (Some held) self.old.records }) }
        ensures err { OnErr result (self.new ≡ self.old) }
    {
        self.trees.reserve()?;
        let tree = tree_of(&held);
        let place = held.place;
        self.records.take_in(held)?;
        self.trees.join(tree, place);
        Ok(())
    }

    /// Lets the record at this place go, unless a decision or prepared record stands there still. The result tells whether none
    /// does.
    pub fn done(&mut self, place: u32, standing: &[Standing]) -> bool
        requires order { AreInOrder standing.now }
        ensures done { result ≡ not (holding.stands_at place standing.now) }
        ensures records { self.new ≡ record self.old {
          records = holding.without_done place standing.now self.old.records;
        } }
    {
        if stands(standing, place) {
            return false;
        }
        self.release(place);
        true
    }

    /// The record at this place is held no more.
    fn release(&mut self, place: u32)
        ensures { self.new ≡ record self.old { records = holding.without place self.old.records } }
    {
        if let Some(tree) = self.records.let_go(self.alloc, place) {
            self.trees.part(tree, self.records.as_slice());
        }
    }
}

/// The answer by the record of a tree.
fn party_answer(held: &Held, key: &ObjectKey, octets: &[u8]) -> Result<Status, ReplayFault>
    ensures { replay.AnswersRecord key.now (Some held.now) octets.now result }
{
    match party_named(held.parties.items(), key.index) {
        None => Err(ReplayFault::ObjectNotExist),
        Some(party) => {
            if party.to.bytes() == octets {
                return Ok(held.status);
            }
            Err(ReplayFault::NotPrepared)
        }
    }
}

/// The registration with this number.
fn party_named(parties: &[Party], index: u32) -> Option<&Party>
    ensures { option_copied result ≡ find (λ p. p.index == index) parties.now }
{
    parties.iter().find(|party| party.index == index)
}

/// The decisions and prepared records among those that stand, as a load leaves them.
fn load_all(alloc: Global, standing: &[Standing]) -> Result<Vec<Held>, AllocError>
    ensures { IfOk result (λ records. records.items ≡ filter_map holding.loaded standing.now) }
{
    let mut records = Vec::new(alloc);
    for each in standing {
        load_one(alloc, each, &mut records)?;
    }
    Ok(records)
}

/// Puts what stands behind these records, as a load leaves it, where it is a decision or a prepared record.
fn load_one(alloc: Global, each: &Standing, records: &mut Vec<Held>) -> Result<(), AllocError>
    ensures { OnOk result (records.new.items ≡ records.old.items ++ option_to_list (holding.loaded each.now)) }
{
    match held_of(alloc, each.place, &each.item, &[], &[])? {
        Some(held) => {
            records.push(held)?;
            Ok(())
        }
        None => Ok(()),
    }
}
