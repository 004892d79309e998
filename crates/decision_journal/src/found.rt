ghost use Rattle.std.specs.Prelude.{◌≡◌, ℕ, ◌+◌, ◌*◌, ◌≤◌, ◌<◌, ◌++◌, ◌∷◌, [], ◌==◌, is_some, position, OnOk};
ghost use Rattle.std.specs.List.{list_any};
ghost use Rattle.decision_journal.specs.Limits.{standing_limit};
ghost use Rattle.decision_journal.specs.Journal.{are_cells_at, can_follow, is_cells_prepared, is_decision, is_decision_at, nothing_found, taken_away, with_record};
ghost use Rattle.decision_journal.specs.Index.{AreBefore, AreInOrder, IsIndexed, left};
ghost use Rattle.decision_journal.specs.Loading.{last_life};
ghost use Rattle.decision_journal.specs.Room.{stands_in};
ghost use Rattle.decision_journal.specs.State.{cells_in, decisions};

use crate::journal::Standing;
use crate::line::Line;
use crate::record::JournalRecord;
use std::alloc::{AllocError, Global};
use std::marker::Model;

/// How many decisions and prepared records stand at most.
pub(crate) const STANDING_LIMIT: usize = 8_192;

/// What the records of a journal leave: the life, and what stands. Contracts see this, and for how many more that stand there
/// is room.
#[derive(Drop)]
pub(crate) struct Index {
    life: u32,
    standing: Line,
    decisions: usize,
}

impl Model for Index {
    ghost use Rattle.decision_journal.specs.Index.{IsIndexed};
    ghost use Rattle.decision_journal.specs.Room.{Stock};

    ghost Value = { Stock };

    ghost view = { λ index. record {
      found = record { life = index.life; standing = index.standing.standing };
      spare = index.standing.spare;
    } };

    ghost invariant = { λ index. IsIndexed index.standing.standing index.decisions };
}

impl Index {
    pub(crate) fn new(alloc: Global) -> Index
        ensures { result.found ≡ nothing_found }
    {
        Index {
            life: 0,
            standing: Line::new(alloc),
            decisions: 0,
        }
    }

    pub(crate) fn life(&self) -> u32
        ensures { result ≡ self.now.found.life }
    {
        self.life
    }

    /// The life behind the last.
    pub(crate) fn next_life(&self) -> u32
        requires { self.now.found.life < last_life }
        ensures { result ≡ self.now.found.life + 1 }
    {
        self.life + 1
    }

    pub(crate) fn standing(&self) -> &[Standing]
        ensures same { result.now ≡ self.now.found.standing }
        ensures order { AreInOrder self.now.found.standing }
    {
        self.standing.as_slice()
    }

    /// How many decisions and prepared records stand.
    pub(crate) fn decisions(&self) -> usize
        ensures { result ≡ decisions self.now.found }
    {
        self.decisions
    }

    /// Whether a record can follow those that were found.
    pub(crate) fn takes(&self, item: &JournalRecord) -> bool
        ensures { result ≡ can_follow self.now.found item.now }
    {
        match item {
            JournalRecord::Life(life) => is_next(*life, self.life),
            JournalRecord::Done(place) => self.stands(*place),
            JournalRecord::CellsOutcome(place, _) => cells_stand(self.standing.as_slice(), *place),
            _ => true,
        }
    }

    /// Takes memory for all decisions that may stand beside those that do, for as many that are gone, and for two records more.
    pub(crate) fn reserve(&mut self) -> Result<(), AllocError>
        ensures same { self.new.found ≡ self.old.found }
        ensures ok { OnOk result (2 * standing_limit + 2 ≤ decisions self.new.found + self.new.spare) }
        ensures two { OnOk result (2 ≤ self.new.spare) }
        ensures spare { self.old.spare ≤ self.new.spare }
    {
        let more = (2 * STANDING_LIMIT).saturating_sub(self.decisions) + 2;
        self.standing.reserve(more)
    }

    /// Adds a record whose gate is at this place, behind all that stands.
    pub(crate) fn add(&mut self, place: u32, item: JournalRecord)
        requires behind { AreBefore place self.old.found.standing }
        requires room { stands_in item ≤ self.old.spare }
        ensures found { self.new.found ≡ with_record self.old.found place item }
        ensures spare { self.old.spare ≤ self.new.spare + stands_in item }
        ensures decisions { decisions self.old.found + self.old.spare
            ≤ decisions self.new.found + self.new.spare + cells_in item }
    {
        match item {
            JournalRecord::Life(life) => self.life = life,
            JournalRecord::Done(named) => self.take_away(named),
            item => self.put(place, item),
        }
    }

    /// Lets a record stand.
    fn put(&mut self, place: u32, item: JournalRecord)
        requires behind { AreBefore place self.old.found.standing }
        requires room { 0 < self.old.spare }
        ensures found { self.new.found ≡ record self.old.found {
          standing = self.old.found.standing ++ record { place = place; item = item } ∷ [];
        } }
        ensures spare { self.old.spare ≡ self.new.spare + 1 }
    {
        let decided = is_decided(&item);
        self.standing.push(Standing { place, item });
        if decided {
            self.decisions += 1;
        }
    }

    /// Takes the decision or prepared record at this place away, where one stands.
    fn take_away(&mut self, place: u32)
        ensures found { self.new.found ≡ record self.old.found {
          standing = taken_away (position (is_decision_at place) self.old.found.standing) self.old.found.standing;
        } }
        ensures spare { self.old.spare ≤ self.new.spare }
        ensures decisions { decisions self.old.found + self.old.spare ≤ decisions self.new.found + self.new.spare }
    {
        if let Some(index) = decision_at(self.standing.as_slice(), place) {
            self.standing.remove(index);
            self.decisions -= 1;
        }
    }

    /// Adds a record that was read, whose gate is at this place, behind all that stands. A Done stands in the stead of what
    /// it names until all is read.
    pub(crate) fn gather(&mut self, place: u32, item: JournalRecord) -> Result<(), AllocError>
        requires behind { AreBefore place self.old.found.standing }
        ensures ok { OnOk result (left self.new.found ≡ with_record (left self.old.found) place item) }
        ensures before { OnOk result (AreBefore (place + 1) self.new.found.standing) }
    {
        match item {
            JournalRecord::Done(named) => self.mark(named),
            item => {
                ok!(self.standing.reserve(1));
                self.add(place, item);
            }
        }
        Ok(())
    }

    /// Puts a Done in the stead of the decision or prepared record at this place, where one stands.
    fn mark(&mut self, place: u32)
        ensures marked { left self.new.found ≡ record (left self.old.found) {
          standing = taken_away (position (is_decision_at place) (left self.old.found).standing)
              (left self.old.found).standing;
        } }
        ensures before { (n : ℕ) → AreBefore n self.old.found.standing → AreBefore n self.new.found.standing }
    {
        if let Some(index) = decision_at(self.standing.as_slice(), place) {
            self.standing.set(
                index,
                Standing {
                    place,
                    item: JournalRecord::Done(place),
                },
            );
            self.decisions -= 1;
        }
    }

    /// Leaves what stands, once all is read, and gives back the room of what is done.
    pub(crate) fn settle(&mut self)
        ensures { self.new.found ≡ left self.old.found }
    {
        self.standing.settle();
    }

    /// Whether a decision or prepared record stands at this place.
    pub(crate) fn stands(&self, place: u32) -> bool
        ensures { result ≡ list_any (is_decision_at place) self.now.found.standing }
    {
        decision_at(self.standing.as_slice(), place).is_some()
    }
}

/// Whether a life is the one behind the last.
fn is_next(life: u32, last: u32) -> bool
    ensures { result ≡ (life == last + 1) }
{
    u64::from(life) == u64::from(last) + 1
}

/// The index of what stands at this place.
fn index_of(standing: &[Standing], place: u32) -> Option<usize>
    requires { AreInOrder standing.now }
    ensures { result ≡ position (λ s. s.place == place) standing.now }
{
    let index = standing.partition_point(|s| s.place < place);
    if index >= standing.len() {
        return None;
    }
    if standing[index].place != place {
        return None;
    }
    Some(index)
}

/// The index of the decision or prepared record at this place.
fn decision_at(standing: &[Standing], place: u32) -> Option<usize>
    requires { AreInOrder standing.now }
    ensures index { result ≡ position (is_decision_at place) standing.now }
    ensures stands { is_some result ≡ list_any (is_decision_at place) standing.now }
{
    let index = match index_of(standing, place) {
        Some(index) => index,
        None => return None,
    };
    if is_decided(&standing[index].item) {
        return Some(index);
    }
    None
}

/// Whether a record of prepared cells stands at this place.
fn cells_stand(standing: &[Standing], place: u32) -> bool
    requires { AreInOrder standing.now }
    ensures { result ≡ list_any (are_cells_at place) standing.now }
{
    match index_of(standing, place) {
        Some(index) => are_cells(&standing[index].item),
        None => false,
    }
}

/// Whether it is a decision or prepared record.
pub(crate) fn is_decided(item: &JournalRecord) -> bool
    ensures { result ≡ is_decision item.now }
{
    matches!(
        item,
        JournalRecord::Decision(..) | JournalRecord::Prepared(..)
    )
}

/// Whether it is a record of prepared cells.
fn are_cells(item: &JournalRecord) -> bool
    ensures { result ≡ is_cells_prepared item.now }
{
    matches!(item, JournalRecord::CellsPrepared(..))
}
