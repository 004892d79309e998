// Time passes for families.
ghost use Rattle.std.specs.Prelude.{◌≡◌, ◌⊎◌, ◌++◌, [], length, map, filter_map, false, IfOk, IfErr, OnOk, OnErr};
ghost use Rattle.std.specs.Option.{option_map, option_to_list};
ghost use Rattle.coordinator.specs.NodeSlots as slots;
ghost use Rattle.coordinator.specs.NodeTick as ticks;
ghost use Rattle.coordinator.specs.Step as steps;
ghost use Rattle.service_node.specs.NodeState.{shown};
ghost use Rattle.service_node.specs.Ticking as ticking;

use crate::handing::take_from;
use coordinator::{Act, Answers, Effects, Event, NodeFault, StepAnswer};
use decision_journal::Journal;
use family_step::{Family, FamilyFault};
use ior_refs::ObjectKey;
use ots_outside::Disk;
use recovery_coord::{Outbox, Recovered};
use std::alloc::Global;
use std::marker::Model;

/// What a tick did to a family: whom it answered, in this order, and what happened, in order.
#[derive(Drop)]
pub struct Happening {
    /// The key with which the family was made.
    pub key: ObjectKey,
    /// Which earlier calls were answered.
    pub finished: Answers,
    /// What happened.
    pub effects: Effects,
}

/// Some of these, by slot. Contracts see them as a list.
#[derive(Drop)]
pub struct Happenings {
    items: Vec<Happening>,
}

impl Model for Happenings {
    ghost use Rattle.std.specs.Prelude.{List};
    ghost use Rattle.service_node.specs.declared.passing.Happening.{Happening};

    ghost Value = { List Happening };

    ghost view = { λ h. h.items.items };
}

impl Happenings {
    ghost use Rattle.std.specs.Prelude.{◌≡◌};

    /// Those of a vector. It needs no memory.
    pub fn from_vec(items: Vec<Happening>) -> Happenings
        ensures same { result ≡ items.items }
    {
        Happenings { items }
    }

    /// All of them.
    pub fn items(&self) -> &[Happening]
        ensures same { result.now ≡ self.now }
    {
        self.items.as_slice()
    }
}

/// The clock stands at a moment.
fn tick_at(now: u64) -> Event
    ensures { result ≡ ticks.tick_at now }
{
    Event {
        key: None,
        branch: 0,
        now,
        act: Act::Tick,
    }
}

/// What is told of a family for whose step its history had no room.
fn untold(alloc: Global, key: ObjectKey) -> Happening
    ensures { result ≡ record { key = key; finished = []; effects = [] } }
{
    Happening {
        key,
        finished: Answers::from_vec(Vec::new(alloc)),
        effects: Effects::from_vec(Vec::new(alloc)),
    }
}

/// What is told of a step.
fn told(key: ObjectKey, answer: StepAnswer) -> Happening
    ensures { result ≡ record { key = key; finished = answer.finished; effects = answer.effects } }
{
    Happening {
        key,
        finished: answer.finished,
        effects: answer.effects,
    }
}

/// The step of a family whose time is over.
fn step_over(
    alloc: Global,
    now: u64,
    family: &mut Family,
    out: &mut Outbox,
) -> Result<Happening, NodeFault>
    requires over { steps.is_silent (ticks.tick_at now) family.old.family ≡ false }
    ensures family { OnOk result ((family.new).family ≡ (ticks.tick_of now (family.old).family).family) }
    ensures words { OnOk result (out.new.words
        ≡ out.old.words ++ (ticks.tick_of now (family.old).family).words) }
    ensures told { IfOk result (λ h. h
        ≡ ticking.told (ticks.happening (family.old).family (ticks.tick_of now (family.old).family))) }
    ensures same { OnErr result ((family.new).family ≡ (family.old).family) }
    ensures unsaid { OnErr result (out.new.words ≡ out.old.words) }
    ensures fault { IfErr result (λ fault. fault ≡ NodeFault.Memory) }
{
    let key = *family.key();
    let event = tick_at(now);
    match family.reserve(&event, out) {
        Ok(()) => Ok(told(key, family.step_alone(&event, out))),
        Err(FamilyFault::History(_)) => Ok(untold(alloc, key)),
        Err(FamilyFault::Memory) => Err(NodeFault::Memory),
    }
}

/// Time passes for a family.
fn pass_one(
    alloc: Global,
    now: u64,
    family: &mut Family,
    out: &mut Outbox,
    happened: &mut Vec<Happening>,
) -> Result<(), NodeFault>
    ensures family { OnOk result ((family.new).family ≡ (ticks.tick_of now (family.old).family).family) }
    ensures words { OnOk result (out.new.words
        ≡ out.old.words ++ ticking.words_of (ticks.happens_to now (family.old).family)) }
    ensures happened { OnOk result (happened.new.items ≡ happened.old.items
        ++ option_to_list (option_map ticking.told (ticks.happens_to now (family.old).family))) }
    ensures same { OnErr result ((family.new).family ≡ (family.old).family) }
    ensures unsaid { OnErr result (out.new.words ≡ out.old.words) }
    ensures fault { IfErr result (λ fault. fault ≡ NodeFault.Memory) }
{
    if family.is_silent(&tick_at(now)) {
        return Ok(());
    }
    happened.reserve(1)?;
    happened.push_reserved(step_over(alloc, now, family, out)?);
    Ok(())
}

/// Time passes in a slot.
fn pass_in(
    alloc: Global,
    now: u64,
    place: &mut Option<Family>,
    out: &mut Outbox,
    happened: &mut Vec<Happening>,
) -> Result<(), NodeFault>
    ensures place { OnOk result (shown place.new ≡ ticks.ticked now (shown place.old)) }
    ensures words { OnOk result (out.new.words
        ≡ out.old.words ++ ticking.words_of (ticks.happens_in now (shown place.old))) }
    ensures happened { OnOk result (happened.new.items ≡ happened.old.items
        ++ option_to_list (option_map ticking.told (ticks.happens_in now (shown place.old)))) }
    ensures same { OnErr result (shown place.new ≡ shown place.old) }
    ensures unsaid { OnErr result (out.new.words ≡ out.old.words) }
    ensures fault { IfErr result (λ fault. fault ≡ NodeFault.Memory) }
{
    match place {
        Some(family) => pass_one(alloc, now, family, out, happened),
        None => Ok(()),
    }
}

/// Time passes in a slot, and then the record of the family there goes on without it, where it is finished.
fn pass_on<D: Disk>(
    alloc: Global,
    now: u64,
    place: &mut Option<Family>,
    journal: &Journal<D>,
    recovered: &mut Recovered,
    out: &mut Outbox,
    happened: &mut Vec<Happening>,
) -> Result<(), NodeFault>
    ensures place { OnOk result (ticking.HasPassedIn now (shown place.old) (shown place.new)
        out.old.words out.new.words) }
    ensures happened { OnOk result (happened.new.items ≡ happened.old.items
        ++ option_to_list (option_map ticking.told (ticks.happens_in now (shown place.old)))) }
    ensures records { OnOk result (recovered.new ≡ record recovered.old {
      records = slots.takes_over journal.now.found (ticks.ticked now (shown place.old)) recovered.old.records;
    }) }
    ensures part { OnErr result (ticking.HasPassedIn now (shown place.old) (shown place.new) out.old.words out.new.words
        ⊎ ticking.IsStill (shown place.old) (shown place.new) out.old.words out.new.words) }
    ensures same { OnErr result (recovered.new ≡ recovered.old) }
    ensures fault { IfErr result (λ fault. fault ≡ NodeFault.Memory) }
{
    pass_in(alloc, now, place, out, happened)?;
    take_from(alloc, journal, place.as_ref(), recovered)?;
    Ok(())
}

/// Time passes in all slots, one after another, and the records of the families that are finished then go on without them.
pub(crate) fn pass_all<D: Disk>(
    alloc: Global,
    now: u64,
    places: &mut [Option<Family>],
    journal: &Journal<D>,
    recovered: &mut Recovered,
    out: &mut Outbox,
    happened: &mut Vec<Happening>,
) -> Result<(), NodeFault>
    ensures passed { OnOk result (ticking.HasPassed now (length places.old) (map shown places.old)
        (map shown places.new) out.old.words out.new.words) }
    ensures happened { OnOk result (happened.new.items ≡ happened.old.items
        ++ map ticking.told (filter_map (ticks.happens_in now) (map shown places.old))) }
    ensures taken { OnOk result (ticking.AreTaken journal.now.found now (length places.old) (map shown places.old)
        recovered.old.records recovered.new.records) }
    ensures part { OnErr result (ticking.HasPassedInPart now journal.now.found (map shown places.old)
        (map shown places.new) recovered.old.records recovered.new.records out.old.words out.new.words) }
    ensures others { recovered.new ≡ record recovered.old { records = recovered.new.records } }
    ensures fault { IfErr result (λ fault. fault ≡ NodeFault.Memory) }
{
    for place in places.iter_mut() {
        pass_on(alloc, now, place, journal, recovered, out, happened)?;
    }
    Ok(())
}
