// Held records in the order of their places.
ghost use Rattle.std.specs.Prelude.{◌≡◌, ◌==◌, ◌&&◌, map, find, not, Some, None, if◌then◌else◌, IfOk, IfErr};
ghost use Rattle.std.specs.Option.{option_copied, option_map};
ghost use Rattle.recovery_coord.specs.declared.held.Held.{Held as HeldRecord};
ghost use Rattle.recovery_coord.specs.Held as holding;
ghost use Rattle.recovery_coord.specs.Hearing as hearing;
ghost use Rattle.recovery_coord.specs.Order.{IsAt, IsGap, RiseFrom};

use crate::held::Held;
use ots_model::CallNumber;
use ots_model::tree::Heard;

/// The index of the record at this place, or that at which it would stand.
pub(crate) fn search(records: &[Held], place: u64) -> Result<usize, usize>
    requires order { RiseFrom 0 records.now }
    ensures found { IfOk result (λ index. IsAt place index records.now) }
    ensures none { IfErr result (λ index. IsGap place index records.now) }
{
    let index = records.partition_point(|r| u64::from(r.place) < place);
    if index >= records.len() {
        return Err(index);
    }
    if u64::from(records[index].place) != place {
        return Err(index);
    }
    Ok(index)
}

/// Whether a record is held at this place.
pub(crate) fn holds(records: &[Held], place: u64) -> bool
    requires order { RiseFrom 0 records.now }
    ensures { result ≡ holding.is_held place records.now }
{
    search(records, place).is_ok()
}

/// The record at this place.
pub(crate) fn record_at(records: &[Held], place: u64) -> Option<&Held>
    requires order { RiseFrom 0 records.now }
    ensures { option_copied result ≡ find (λ (r : HeldRecord). r.place == place) records.now }
{
    match search(records, place) {
        Ok(index) => Some(&records[index]),
        Err(_) => None,
    }
}

/// The record at the place that the number of the call names hears an answer. The result is that place, where the record is
/// complete now and wasn't.
pub(crate) fn hear(records: &mut [Held], n: &CallNumber, h: &Heard) -> Option<u32>
    requires order { RiseFrom 0 records.old }
    ensures after { records.new ≡ map (hearing.record_after n.now h.now) records.old }
    ensures complete { result ≡ option_map (λ r. r.place) (find (hearing.completes n.now h.now) records.old) }
    ensures order { RiseFrom 0 records.new }
{
    let index = match search(records, n.generation) {
        Ok(index) => index,
        Err(_) => return None,
    };
    hear_one(&mut records[index], n.serial, h)
}

/// A record hears an answer. The result is its place, where it is complete now and wasn't.
fn hear_one(held: &mut Held, serial: u32, h: &Heard) -> Option<u32>
    ensures after { held.new ≡ hearing.held_after serial h.now held.old }
    ensures complete { result
        ≡ (if not (holding.is_complete held.old) && holding.is_complete held.new then Some held.old.place else None) }
{
    if held.hear(serial, h) {
        return Some(held.place);
    }
    None
}
