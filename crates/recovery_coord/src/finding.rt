// What stands in a journal, found by halving.
ghost use Rattle.std.specs.Prelude.{◌≡◌, find};
ghost use Rattle.std.specs.Option.{option_copied};
ghost use Rattle.decision_journal.specs.Index.{AreInOrder};
ghost use Rattle.decision_journal.specs.Journal.{is_decision_at};
ghost use Rattle.decision_journal.specs.Journal as journals;
ghost use Rattle.recovery_coord.specs.Held as holding;

use decision_journal::{JournalRecord, Standing};

/// The decision or prepared record at this place.
pub fn decision_at(standing: &[Standing], place: u32) -> Option<&Standing>
    requires order { AreInOrder standing.now }
    ensures { option_copied result ≡ find (is_decision_at place) standing.now }
{
    let index = standing.partition_point(|s| s.place < place);
    if index >= standing.len() {
        return None;
    }
    let found = &standing[index];
    if !stands_at(found, place) {
        return None;
    }
    Some(found)
}

/// Whether a decision or prepared record stands at this place.
pub(crate) fn stands(standing: &[Standing], place: u32) -> bool
    requires order { AreInOrder standing.now }
    ensures { result ≡ holding.stands_at place standing.now }
{
    match decision_at(standing, place) {
        Some(_) => true,
        None => false,
    }
}

/// Whether it is a decision or prepared record at this place.
fn stands_at(standing: &Standing, place: u32) -> bool
    ensures { result ≡ is_decision_at place standing.now }
{
    standing.place == place && is_decision(&standing.item)
}

/// Whether it is a decision or prepared record.
fn is_decision(item: &JournalRecord) -> bool
    ensures { result ≡ journals.is_decision item.now }
{
    matches!(
        item,
        JournalRecord::Decision(..) | JournalRecord::Prepared(..)
    )
}
