// The Done of a record that an answer to a word told again completes.
ghost use Rattle.std.specs.Prelude.{◌≡◌, ◌++◌, ◌∷◌, [], ◌<◌, ◌≤◌, true, false, filter, vec_len, vec_capacity, None, IsSome, if◌then◌else◌};
ghost use Rattle.std.specs.List.{list_any};
ghost use Rattle.decision_journal.specs.Calls.{IsAfterDone, IsRefusedAppend};
ghost use Rattle.decision_journal.specs.Index.{AreInOrder};
ghost use Rattle.decision_journal.specs.Journal.{is_decision_at};
ghost use Rattle.decision_journal.specs.State.{IsReadFault};
ghost use Rattle.recovery_coord.specs.Held.{stands_at, without};
ghost use Rattle.service_node.specs.Journaling as journaling;

use coordinator::Effect;
use decision_journal::{Journal, JournalFault, JournalRecord, Standing};
use ots_outside::Disk;
use recovery_coord::Recovered;

/// Lets each record go that stands no more.
fn keep_standing(standing: &[Standing], recovered: &mut Recovered)
    requires order { AreInOrder standing.now }
    ensures { recovered.new ≡ record recovered.old {
      records = filter (λ r. list_any (is_decision_at r.place) standing.now) recovered.old.records;
    } }
{
    let mut index = 0;
    while index < recovered.records().len() {
        let place = recovered.records()[index].place;
        if !recovered.done(place, standing) {
            index += 1;
        }
    }
}

/// The same where the journal was read again.
pub(crate) fn keep_where(failed: bool, standing: &[Standing], recovered: &mut Recovered)
    requires order { AreInOrder standing.now }
    ensures { recovered.new ≡ record recovered.old {
      records = if failed then filter (λ r. list_any (is_decision_at r.place) standing.now) recovered.old.records
          else recovered.old.records;
    } }
{
    if failed {
        keep_standing(standing, recovered);
    }
}

/// Lets the record at this place go, where its Done stands, and tells that.
fn let_go(
    stands: bool,
    place: u32,
    standing: &[Standing],
    recovered: &mut Recovered,
    happened: &mut Vec<Effect>,
)
    requires order { AreInOrder standing.now }
    requires gone { stands ≡ true → stands_at place standing.now ≡ false }
    requires room { vec_len happened.old < vec_capacity happened.old }
    ensures records { recovered.new ≡ record recovered.old {
      records = if stands then without place recovered.old.records else recovered.old.records;
    } }
    ensures happened { happened.new.items
        ≡ (if stands then happened.old.items ++ Effect.Done ∷ [] else happened.old.items) }
{
    if stands {
        recovered.done(place, standing);
        happened.push_reserved(Effect::Done);
    }
}

/// Asks the journal for the Done of the record at this place, and tells whether that stands.
fn ask_done<D: Disk>(journal: &mut Journal<D>, place: u32) -> bool
    ensures stands { result ≡ true → IsAfterDone D.told journal.old journal.new place }
    ensures refused { result ≡ false
        → (fault : JournalFault) × (IsRefusedAppend D.told journal.old (JournalRecord.Done place) journal.new fault
        × IsReadFault D.wants_memory (D.told journal.new.disk) (D.faults journal.old.disk)
        (D.faults journal.new.disk) fault) }
    ensures later { D.faults journal.old.disk ≤ D.faults journal.new.disk }
    ensures sure { journal.old.failed ≡ false → journal.old.doubted ≡ None }
{
    let _ = journal.disk();
    match journal.done(place) {
        Ok(()) => true,
        Err(_) => false,
    }
}

/// Asks the journal for the Done of the record that is complete, where there is one. Where that stands, the record is
/// held no more; and where the journal had to be read again, no record is that stands no more.
pub(crate) fn conclude<D: Disk>(
    journal: &mut Journal<D>,
    recovered: &mut Recovered,
    complete: Option<u32>,
    happened: &mut Vec<Effect>,
)
    requires none { happened.old.items ≡ [] }
    requires room { 0 < vec_capacity happened.old }
    ensures concluded { journaling.HasConcluded D.wants_memory D.told D.faults complete journal.old journal.new
        recovered.old recovered.new happened.new.items }
    ensures later { D.faults journal.old.disk ≤ D.faults journal.new.disk }
    ensures sure { journal.old.failed ≡ false → IsSome complete → journal.old.doubted ≡ None }
{
    if let Some(place) = complete {
        let failed = journal.failed();
        let stands = ask_done(journal, place);
        let_go(stands, place, journal.standing(), recovered, happened);
        keep_where(failed, journal.standing(), recovered);
    }
}
