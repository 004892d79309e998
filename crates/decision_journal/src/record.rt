ghost use Rattle.std.specs.Prelude.{◌≡◌};

use ots_model::{RefBytes, RetryKey};
use std::marker::Model;

/// A registration that a record names.
#[derive(Drop)]
pub struct Registration {
    /// Its index among those of its tree.
    pub index: u32,
    /// The resource.
    pub reference: RefBytes,
}

/// Some registrations. Contracts see them as a list.
#[derive(Drop)]
pub struct Registrations {
    items: Vec<Registration>,
}

impl Model for Registrations {
    ghost use Rattle.std.specs.Prelude.{List};
    ghost use Rattle.decision_journal.specs.declared.record.Registration.{Registration};

    ghost Value = { List Registration };

    ghost view = { λ r. r.items.items };
}

impl Registrations {
    /// The registrations of a vector. It needs no memory.
    pub fn from_vec(items: Vec<Registration>) -> Registrations
        ensures same { result ≡ items.items }
    {
        Registrations { items }
    }

    /// The registrations.
    pub fn items(&self) -> &[Registration]
        ensures same { result.now ≡ self.now }
    {
        self.items.as_slice()
    }
}

/// What a cell is set to.
#[derive(Clone, Copy)]
pub struct Put {
    /// The cell.
    pub cell: u64,
    /// Its value.
    pub value: u64,
}

/// Some puts. Contracts see them as a list.
#[derive(Drop)]
pub struct Puts {
    items: Vec<Put>,
}

impl Model for Puts {
    ghost use Rattle.std.specs.Prelude.{List};
    ghost use Rattle.decision_journal.specs.declared.record.Put.{Put};

    ghost Value = { List Put };

    ghost view = { λ p. p.items.items };
}

impl Puts {
    /// The puts of a vector. It needs no memory.
    pub fn from_vec(items: Vec<Put>) -> Puts
        ensures same { result ≡ items.items }
    {
        Puts { items }
    }

    /// The puts.
    pub fn items(&self) -> &[Put]
        ensures same { result.now ≡ self.now }
    {
        self.items.as_slice()
    }
}

/// How prepared cells ended, or what was chosen for them.
#[derive(Clone, Copy)]
pub enum CellsEnd {
    /// The puts were applied.
    Applied,
    /// The puts were undone.
    Undone,
    /// A heuristic decision to commit.
    ChoseCommit,
    /// A heuristic decision to roll back.
    ChoseRollback,
    /// The resource was forgotten.
    Forgotten,
}

/// A record of the journal, of each kind.
#[derive(Drop)]
pub enum JournalRecord {
    /// A load of the journal began this life.
    Life(u32),
    /// A tree decided to commit: its life, slot and generation, the key of the commit call where it had one, whether reports
    /// were asked for, and the registrations that voted commit.
    Decision(u32, u32, u64, Option<RetryKey>, bool, Registrations),
    /// The decision or prepared record at this place is complete.
    Done(u32),
    /// A subordinate prepared: its life, slot and generation, its superior's recovery coordinator, and the registrations that
    /// voted commit.
    Prepared(u32, u32, u64, RefBytes, Registrations),
    /// A resource prepared: its life and number, its recovery coordinator, and what it put.
    CellsPrepared(u32, u64, RefBytes, Puts),
    /// How the resource that prepared at this place ended.
    CellsOutcome(u32, CellsEnd),
    /// A resource committed in one phase: its life and number, and what it put.
    CellsOnePhase(u32, u64, Puts),
}
