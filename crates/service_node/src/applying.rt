// A call to a node: a step of a family, or the answer of a record.
ghost use Rattle.std.specs.Prelude.{◌≡◌, ◌⊎◌, ◌≤◌, ◌∷◌, ◌↔◌, [], IsSome, false, true, None, Some, is_some, filter, slice_get, IsErr, IsErrOf, OnOk, OnErr, IfOk, IfErr, if◌then◌else◌};
ghost use Rattle.std.specs.List.{list_any};
ghost use Rattle.std.specs.Option.{option_and_then};
ghost use Rattle.coordinator.specs.declared.said.Entry.{Entry as Written};
ghost use Rattle.coordinator.specs.History as history;
ghost use Rattle.coordinator.specs.NodeCalls as calls;
ghost use Rattle.decision_journal.specs.Index.{AreInOrder};
ghost use Rattle.decision_journal.specs.Journal.{is_decision_at};
ghost use Rattle.family_step.specs.Asking.{is_reread};
ghost use Rattle.service_node.specs.Applying as applying;
ghost use Rattle.service_node.specs.Applying.{HasSteppedAt, HasSteppedIn, IsApplied, IsGoneWhere, IsUnapplied, IsUnmovedAt};
ghost use Rattle.service_node.specs.Crashes.{IsCrashSafe};
ghost use Rattle.service_node.specs.Given.{node_makes};
ghost use Rattle.service_node.specs.NodeState.{StaysInLife, shown};

use crate::hearing::keep_where;
use crate::node::Node;
use coordinator::{Effect, Entry, Event, NodeFault, StepAnswer};
use decision_journal::{Journal, Standing};
use family_laws::families_close_last;
use family_step::{Family, FamilyFault};
use ior_refs::ObjectKey;
use ots_model::Stood;
use ots_outside::Disk;
use recovery_coord::{Outbox, Recovered};

impl<D: Disk> Node<D> {
    /// A call on the object with this key: a step of its family, where that is in its slot, else what the records
    /// answer alone. The step asks the journal for what is wanted in it, before its word goes out. It is NoResources
    /// where the family's history has no room. Memory is taken before anything happens. The event is none that a node
    /// tells its families itself. No call tells a family yet that the journal was read again.
    pub fn apply(
        &mut self,
        key: &ObjectKey,
        event: &Event,
        out: &mut Outbox,
    ) -> Result<StepAnswer, NodeFault>
        requires given { node_makes (event.now).act ≡ false }
        ensures applied { IsApplied D.wants_memory D.told D.faults key.now event.entry.now self.old self.new
            result out.old.words out.new.words
            ⊎ IsUnapplied key.now event.entry.now self.old self.new result out.old.words out.new.words }
        ensures crash { IsCrashSafe D.told self.old self.new }
        ensures stays { StaysInLife self.old self.new }
        ensures later { D.faults self.old.journal.disk ≤ D.faults self.new.journal.disk }
    {
        self.hangs_together();
        self.kept();
        let said = self.call(key, event, out);
        self.kept();
        said
    }

    /// A step of the family that hears a call, or what the records answer.
    fn call(
        &mut self,
        key: &ObjectKey,
        event: &Event,
        out: &mut Outbox,
    ) -> Result<StepAnswer, NodeFault>
        requires given { is_reread (event.now).act ≡ false }
        ensures applied { IsApplied D.wants_memory D.told D.faults key.now event.entry.now self.old self.new
            result out.old.words out.new.words
            ⊎ IsUnapplied key.now event.entry.now self.old self.new result out.old.words out.new.words }
        ensures later { D.faults self.old.journal.disk ≤ D.faults self.new.journal.disk }
    {
        if self.hears(key, event) {
            self.step_in(key, event, out)
        } else {
            self.answer_recovered(key, event)
        }
    }

    /// Whether a family hears a call: the one that the key names, unless this is the answer to a word that was told
    /// again.
    fn hears(&self, key: &ObjectKey, event: &Event) -> bool
        ensures { result ≡ is_some (calls.family_for key.now event.entry.now self.now.node) }
    {
        event.act.retold_answer().is_none() && self.family(key).is_some()
    }

    /// The step of the family that hears a call.
    fn step_in(
        &mut self,
        key: &ObjectKey,
        event: &Event,
        out: &mut Outbox,
    ) -> Result<StepAnswer, NodeFault>
        requires hears { is_some (calls.family_for key.now event.now self.old.node) ≡ true }
        requires given { is_reread (event.now).act ≡ false }
        ensures applied { IsApplied D.wants_memory D.told D.faults key.now event.entry.now self.old self.new
            result out.old.words out.new.words
            ⊎ IsUnapplied key.now event.entry.now self.old self.new result out.old.words out.new.words }
        ensures later { D.faults self.old.journal.disk ≤ D.faults self.new.journal.disk }
    {
        self.slots.step(key.slot, event, &mut self.journal, &mut self.recovered, out)
    }
}

/// A step of the family in this place.
pub(crate) fn step_place<D: Disk>(
    place: &mut Option<Family>,
    event: &Event,
    journal: &mut Journal<D>,
    recovered: &mut Recovered,
    out: &mut Outbox,
) -> Result<StepAnswer, NodeFault>
    requires there { IsSome (shown place.old) }
    requires given { is_reread (event.now).act ≡ false }
    ensures stepped { IfOk result (λ answer. HasSteppedAt D.wants_memory D.told D.faults 0 event.entry.now
        (shown place.old ∷ []) (shown place.new ∷ []) journal.old journal.new recovered.old recovered.new
        answer out.old.words out.new.words) }
    ensures unmoved { IfErr result (λ fault. IsUnmovedAt 0 event.entry.now
        (shown place.old ∷ []) (shown place.new ∷ []) journal.old journal.new recovered.old recovered.new
        fault out.old.words out.new.words) }
    ensures sure { journal.old.failed ≡ false → journal.old.doubted ≡ None }
    ensures later { D.faults journal.old.disk ≤ D.faults journal.new.disk }
{
    match place {
        Some(family) => step_family(family, event, journal, recovered, out),
        None => Err(NodeFault::ObjectNotExist),
    }
}

/// A step of a family, and what it makes of the journal and of the records that are held.
fn step_family<D: Disk>(
    family: &mut Family,
    event: &Event,
    journal: &mut Journal<D>,
    recovered: &mut Recovered,
    out: &mut Outbox,
) -> Result<StepAnswer, NodeFault>
    requires given { is_reread (event.now).act ≡ false }
    ensures stepped { IfOk result (λ answer. HasSteppedIn D.wants_memory D.told D.faults (family.old).family
        event.entry.now journal.old journal.new recovered.old recovered.new (family.new).family
        answer out.old.words out.new.words) }
    ensures fits { IfOk result (λ answer. history.has_room ((family.old).family).entries event.entry.now ≡ true) }
    ensures key { ((family.new).family).key ≡ ((family.old).family).key }
    ensures sure { journal.old.failed ≡ false → journal.old.doubted ≡ None }
    ensures later { D.faults journal.old.disk ≤ D.faults journal.new.disk }
    ensures same { OnErr result (applying.IsUnmoved (family.old).family (family.new).family journal.old journal.new
        recovered.old recovered.new out.old.words out.new.words) }
    ensures fault { IfErr result (λ fault. applying.IsStepFault (family.old).family event.entry.now fault) }
{
    let _ = journal.disk();
    match apply_to(family, event, journal, recovered, out) {
        Ok(answer) => Ok(answer),
        Err(FamilyFault::History(_)) => Err(NodeFault::NoResources),
        Err(FamilyFault::Memory) => Err(NodeFault::Memory),
    }
}

/// The same, with the fault that the family gives.
fn apply_to<D: Disk>(
    family: &mut Family,
    event: &Event,
    journal: &mut Journal<D>,
    recovered: &mut Recovered,
    out: &mut Outbox,
) -> Result<StepAnswer, FamilyFault>
    requires given { is_reread (event.now).act ≡ false }
    ensures stepped { IfOk result (λ answer. HasSteppedIn D.wants_memory D.told D.faults (family.old).family
        event.entry.now journal.old journal.new recovered.old recovered.new (family.new).family
        answer out.old.words out.new.words) }
    ensures fits { OnOk result (history.has_room ((family.old).family).entries event.entry.now ≡ true) }
    ensures later { D.faults journal.old.disk ≤ D.faults journal.new.disk }
    ensures key { ((family.new).family).key ≡ ((family.old).family).key }
    ensures same { OnErr result (applying.IsUnmoved (family.old).family (family.new).family journal.old journal.new
        recovered.old recovered.new out.old.words out.new.words) }
    ensures history { IsErrOf result (FamilyFault.History (history.limit_of (event.entry.now).act))
        ↔ (history.has_room ((family.old).family).entries event.entry.now ≡ false) }
    ensures memory { history.has_room ((family.old).family).entries event.entry.now ≡ true
        → IsErr result → IsErrOf result FamilyFault.Memory }
{
    families_close_last();
    let failed = journal.failed();
    let count = family.entries().len();
    let answer = family.apply(journal, event, out)?;
    let stood = stood_at(family.entries(), count);
    let_go_done(stood, &answer, journal.standing(), recovered);
    keep_once(failed, stood, journal.standing(), recovered);
    Ok(answer)
}

/// What the journal answered in the step of the entry at this place.
fn stood_at(entries: &[Entry], place: usize) -> Option<Stood>
    ensures { result ≡ option_and_then (λ (e : Written). e.stood) (slice_get entries.now place) }
{
    entries.get(place)?.stood
}

/// Where the journal was asked, and had to be read again for that, lets each record go that stands no more.
fn keep_once(failed: bool, stood: Option<Stood>, standing: &[Standing], recovered: &mut Recovered)
    requires order { AreInOrder standing.now }
    ensures { recovered.new ≡ record recovered.old {
      records = if is_some stood
          then (if failed then filter (λ r. list_any (is_decision_at r.place) standing.now) recovered.old.records
          else recovered.old.records)
          else recovered.old.records;
    } }
{
    if stood.is_some() {
        keep_where(failed, standing, recovered);
    }
}

/// Where a step tells that a Done stands, the record is held no more that it names.
fn let_go_done(
    stood: Option<Stood>,
    answer: &StepAnswer,
    standing: &[Standing],
    recovered: &mut Recovered,
)
    requires order { AreInOrder standing.now }
    requires gone { IsGoneWhere (answer.now).effects stood standing.now }
    ensures { recovered.new ≡ record recovered.old {
      records = if list_any applying.is_done (answer.now).effects
          then applying.records_without stood recovered.old.records else recovered.old.records;
    } }
{
    if let Some(Stood::Stands(place)) = stood
        && has_done(answer.effects.items())
    {
        recovered.done(place, standing);
    }
}

/// Whether a Done is among these effects.
fn has_done(effects: &[Effect]) -> bool
    ensures { result ≡ list_any applying.is_done effects.now }
{
    effects.iter().any(|effect| matches!(effect, Effect::Done))
}
