// The records of finished families go on without them.
ghost use Rattle.std.specs.Prelude.{◌≡◌, None, Some, OnOk, OnErr, if◌then◌else◌};
ghost use Rattle.std.specs.Option.{option_copied};
ghost use Rattle.recovery_coord.specs.Held as holding;
ghost use Rattle.coordinator.specs.Hearing as hearing;
ghost use Rattle.coordinator.specs.NodeSlots as slots;
ghost use Rattle.coordinator.specs.Step as steps;
ghost use Rattle.service_node.specs.NodeState.{shown};

use decision_journal::{Journal, Standing};
use family_step::Family;
use ots_outside::Disk;
use recovery_coord::{Recovered, decision_at};
use std::alloc::{AllocError, Global};

/// The place of the record of a family, where the family is finished.
fn left_place(family: &Family) -> Option<u32>
    ensures { result ≡ (if steps.is_finished (family.now).family
        then hearing.record_place ((family.now).family).completion else None) }
{
    if family.finished() {
        family.record_place()
    } else {
        None
    }
}

/// The record that a family leaves goes on without it, with the words that are left over.
fn hold(
    alloc: Global,
    family: &Family,
    left: &Standing,
    recovered: &mut Recovered,
) -> Result<(), AllocError>
    ensures ok { OnOk result (recovered.new ≡ record recovered.old {
      records = holding.taken (slots.held_for (family.now).family left.now) recovered.old.records;
    }) }
    ensures err { OnErr result (recovered.new ≡ recovered.old) }
{
    let mut commits = Vec::new(alloc);
    let mut forgets = Vec::new(alloc);
    family.pending(&mut commits, &mut forgets)?;
    recovered.take_over(left.place, &left.item, &commits, &forgets)
}

/// The record of a family goes on without it, where the family is finished and its record stands. Where the record is held
/// already, nothing is looked up in the journal, and nothing is copied.
pub(crate) fn take_over<D: Disk>(
    alloc: Global,
    journal: &Journal<D>,
    family: &Family,
    recovered: &mut Recovered,
) -> Result<(), AllocError>
    ensures ok { OnOk result (recovered.new ≡ record recovered.old {
      records = slots.takes_over journal.now.found (Some (family.now).family) recovered.old.records;
    }) }
    ensures err { OnErr result (recovered.new ≡ recovered.old) }
{
    let place = match left_place(family) {
        Some(place) => place,
        None => return Ok(()),
    };
    if recovered.holds(u64::from(place)) {
        return Ok(());
    }
    match decision_at(journal.standing(), place) {
        Some(left) => hold(alloc, family, left, recovered),
        None => Ok(()),
    }
}

/// The same of the family in a slot, where there is one.
pub(crate) fn take_from<D: Disk>(
    alloc: Global,
    journal: &Journal<D>,
    place: Option<&Family>,
    recovered: &mut Recovered,
) -> Result<(), AllocError>
    ensures ok { OnOk result (recovered.new ≡ record recovered.old {
      records = slots.takes_over journal.now.found (shown (option_copied place.entry)) recovered.old.records;
    }) }
    ensures err { OnErr result (recovered.new ≡ recovered.old) }
{
    match place {
        Some(family) => take_over(alloc, journal, family, recovered),
        None => Ok(()),
    }
}
