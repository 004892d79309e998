// The records that stand in a journal, by their places.
ghost use Rattle.std.specs.Prelude.{◌≡◌};
ghost use Rattle.decision_journal.specs.Index.{AreInOrder};
ghost use Rattle.resource_end.specs.Inside as inside;

use crate::kept::Id;
use decision_journal::{JournalRecord, Standing};

/// The resource that prepared by the record at this place.
pub(crate) fn prepared_at(standing: &[Standing], place: u32) -> Option<Id>
    requires order { AreInOrder standing.now }
    ensures { result ≡ inside.prepared_at place standing.now }
{
    let index = standing.partition_point(|s| s.place < place);
    if index >= standing.len() {
        return None;
    }
    let each = &standing[index];
    if each.place != place {
        return None;
    }
    match each.item {
        JournalRecord::CellsPrepared(life, number, _, _) => Some((life, number)),
        _ => None,
    }
}
