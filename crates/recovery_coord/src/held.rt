ghost use Rattle.std.specs.Prelude.{◌≡◌, not, ◌&&◌, map, if◌then◌else◌, IfOk};
ghost use Rattle.ots_model.specs.declared.service.Status.TheVariants as status;
ghost use Rattle.recovery_coord.specs.Held as holding;
ghost use Rattle.recovery_coord.specs.Hearing as hearing;
ghost use Rattle.recovery_coord.specs.Telling as telling;
ghost use Rattle.recovery_coord.specs.Waiting as waits;

use crate::parties::{copy_parties, hear_all, recall_all};
use crate::waiting::{Waiting, waiting_of};
use decision_journal::{JournalRecord, Registration};
use ots_model::tree::Heard;
use ots_model::{RefBytes, RetryKey, Status};
use std::alloc::{AllocError, Global};
use std::marker::Model;

/// What a registration of a record still waits for.
#[derive(Clone, Copy, Debug, PartialEq, Eq)]
pub enum Due {
    /// Commit, and forget where it answers that by a heuristic exception.
    Commit,
    /// Forget.
    Forget,
    /// Nothing.
    Nothing,
}

/// A registration of a record, and what it still waits for.
#[derive(Drop)]
pub struct Party {
    /// Its index among those of its tree.
    pub index: u32,
    /// The resource.
    pub to: RefBytes,
    /// What it waits for.
    pub due: Due,
}

/// The registrations of a record, with what they wait for, taken together. Contracts see them as a list.
#[derive(Drop)]
pub struct Parties {
    items: Vec<Party>,
    waiting: Waiting,
}

impl Model for Parties {
    ghost use Rattle.std.specs.Prelude.{◌≡◌, List};
    ghost use Rattle.recovery_coord.specs.declared.held.Party.{Party};
    ghost use Rattle.recovery_coord.specs.Waiting.{waiting_of};

    ghost Value = { List Party };

    ghost view = { λ p. p.items.items };

    ghost invariant = { λ p. p.waiting ≡ waiting_of p.items.items };
}

impl Parties {
    /// These registrations.
    fn of(items: Vec<Party>) -> Parties
        ensures { result ≡ items.items }
    {
        let waiting = waiting_of(&items);
        Parties { items, waiting }
    }

    /// The registrations.
    pub fn items(&self) -> &[Party]
        ensures { result.now ≡ self.now }
    {
        self.items.as_slice()
    }

    /// Whether each waits for nothing. It looks at none of them.
    fn are_done(&self) -> bool
        ensures { result ≡ holding.are_done self.now }
    {
        self.waiting.is_over()
    }

    /// Whether one has a word to tell, of a decision or of a prepared record. It looks at none of them.
    pub(crate) fn have_words(&self, decided: bool) -> bool
        ensures { result ≡ waits.have_words decided (waits.waiting_of self.now) }
    {
        self.waiting.has_words(decided)
    }

    /// The registration with this number hears an answer.
    fn hear(&mut self, serial: u32, h: &Heard)
        ensures { self.new ≡ map (hearing.party_after serial h.now) self.old }
    {
        self.waiting = hear_all(self.items.as_mut_slice(), serial, h);
    }

    /// Each waits for commit once more.
    fn recall(&mut self)
        ensures { self.new ≡ map telling.recalled self.old }
    {
        self.waiting = recall_all(self.items.as_mut_slice());
    }
}

/// Which record it is.
#[derive(Drop)]
pub enum Kind {
    /// A tree's own decision: the key of the commit call where it had one, and whether reports were asked for.
    Decision(Option<RetryKey>, bool),
    /// That a subordinate prepared: its superior's recovery coordinator.
    Prepared(RefBytes),
}

impl Kind {
    /// Whether it is a decision.
    pub fn is_decided(&self) -> bool
        ensures { result ≡ holding.is_decided self.now }
    {
        matches!(self, Kind::Decision(..))
    }
}

/// A record that stands, of a tree that is gone.
#[derive(Drop)]
pub struct Held {
    /// The place of its gate in the journal.
    pub place: u32,
    /// The life in which its tree was made.
    pub life: u32,
    /// The slot of its tree.
    pub slot: u32,
    /// The generation of its tree.
    pub generation: u64,
    /// Which record it is.
    pub kind: Kind,
    /// How its tree stands.
    pub status: Status,
    /// Its registrations, in its own order.
    pub parties: Parties,
}

impl Held {
    /// Whether each registration of a decision has completed.
    pub fn is_complete(&self) -> bool
        ensures { result ≡ holding.is_complete self.now }
    {
        self.kind.is_decided() && self.parties.are_done()
    }

    /// The registration with this number hears an answer. The result tells whether that completes the record.
    pub(crate) fn hear(&mut self, serial: u32, h: &Heard) -> bool
        ensures after { self.new ≡ hearing.held_after serial h.now self.old }
        ensures complete { result ≡ (not (holding.is_complete self.old) && holding.is_complete self.new) }
    {
        let was_complete = self.is_complete();
        self.parties.hear(serial, h);
        !was_complete && self.is_complete()
    }

    /// Tells a complete record again.
    pub(crate) fn recall(&mut self)
        ensures { self.new ≡ telling.retold self.old }
    {
        if self.is_complete() {
            self.parties.recall();
        }
    }
}

/// A record without registrations, in the stead of one that is gone. It takes no memory.
pub(crate) fn nobody(alloc: Global) -> Held {
    Held {
        place: 0,
        life: 0,
        slot: 0,
        generation: 0,
        kind: Kind::Decision(None, false),
        status: Status::Committing,
        parties: Parties::of(Vec::new(alloc)),
    }
}

/// A record of the journal, of whose tree these words are left over; none, where it is no decision and no prepared record.
pub(crate) fn held_of(
    alloc: Global,
    place: u32,
    item: &JournalRecord,
    commits: &[u32],
    forgets: &[u32],
) -> Result<Option<Held>, AllocError>
    ensures { IfOk result (λ held. held ≡ holding.held_of place item.now commits.now forgets.now) }
{
    match item {
        JournalRecord::Decision(life, slot, generation, key, asked, registrations) => {
            Ok(Some(Held {
                place,
                life: *life,
                slot: *slot,
                generation: *generation,
                kind: Kind::Decision(*key, *asked),
                status: Status::Committing,
                parties: parties_of(alloc, registrations.items(), Due::Commit, commits, forgets)?,
            }))
        }
        JournalRecord::Prepared(life, slot, generation, recovery, registrations) => {
            Ok(Some(Held {
                place,
                life: *life,
                slot: *slot,
                generation: *generation,
                kind: Kind::Prepared(recovery.copy(alloc)?),
                status: prepared_status(commits, forgets),
                parties: parties_of(alloc, registrations.items(), Due::Nothing, commits, forgets)?,
            }))
        }
        _ => Ok(None),
    }
}

/// How the tree of a prepared record stands, of which these words are left over.
fn prepared_status(commits: &[u32], forgets: &[u32]) -> Status
    ensures { result ≡ (if holding.none_listed commits.now forgets.now then status.Prepared else status.Committing) }
{
    if commits.is_empty() && forgets.is_empty() {
        return Status::Prepared;
    }
    Status::Committing
}

/// The registrations of a record, of whose tree these words are left over.
fn parties_of(
    alloc: Global,
    registrations: &[Registration],
    first: Due,
    commits: &[u32],
    forgets: &[u32],
) -> Result<Parties, AllocError>
    ensures { IfOk result (λ parties. parties
        ≡ map (holding.party_of first commits.now forgets.now) registrations.now) }
{
    let items = copy_parties(alloc, registrations, first, commits, forgets)?;
    Ok(Parties::of(items))
}
