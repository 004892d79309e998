ghost use Rattle.std.specs.Prelude.{◌≡◌, ◌<◌, ◌≤◌, ◌++◌, false, length, map, filter_map, position, replicate, slice_set, take, None, Some, IfErr, IfOk, IfSome, IsSome, OnErr, OnOk};
ghost use Rattle.std.specs.Option.{option_copied, option_map, option_or};
ghost use Rattle.coordinator.specs.Family.{FamilyParts as TheFamily};
ghost use Rattle.coordinator.specs.Limits.{slot_limit};
ghost use Rattle.coordinator.specs.Node as nodes;
ghost use Rattle.coordinator.specs.NodeSlots as slots;
ghost use Rattle.coordinator.specs.NodeTick.{happens_in};
ghost use Rattle.family_step.specs.Asking.{is_reread};
ghost use Rattle.service_node.specs.Applying.{HasSteppedAt, IsUnmovedAt};
ghost use Rattle.service_node.specs.NodeState.{shown};
ghost use Rattle.service_node.specs.Ticking.{AreTaken, HasPassed, HasPassedInPart, told};

use crate::applying::step_place;
use crate::passing::{Happening, pass_all};
use coordinator::{Event, NodeFault, StepAnswer};
use decision_journal::Journal;
use family_step::Family;
use ots_outside::Disk;
use recovery_coord::{Outbox, Recovered};
use std::alloc::{AllocError, Global};
use std::marker::Model;

/// The families of a node, by slot: none is in a slot that was not given yet. Contracts see them as a list.
#[derive(Drop)]
pub struct Slots {
    items: Vec<Option<Family>>,
}

impl Model for Slots {
    ghost use Rattle.std.specs.Prelude.{List, Option, map};
    ghost use Rattle.coordinator.specs.Family.{Family};
    ghost use Rattle.service_node.specs.NodeState.{shown};

    ghost Value = { List (Option Family) };

    ghost view = { λ s. map shown s.items.items };
}

impl Slots {
    /// The families of a vector. It needs no memory.
    pub fn from_vec(items: Vec<Option<Family>>) -> Slots
        ensures { result ≡ map shown items.items }
    {
        Slots { items }
    }

    /// The families as a vector. It needs no memory.
    pub fn into_vec(self) -> Vec<Option<Family>>
        ensures { map shown result.items ≡ self }
    {
        self.items
    }

    /// So many slots without a family.
    pub(crate) fn empty(alloc: Global, count: u32) -> Result<Slots, AllocError>
        ensures { IfOk result (λ s. s ≡ replicate count None) }
    {
        let mut items = Vec::with_capacity(alloc, count as usize)?;
        for slot in 0..count {
            items.push(None)?;
        }
        Ok(Slots { items })
    }

    /// The families, in the order of their slots.
    pub(crate) fn items(&self) -> &[Option<Family>]
        ensures { map shown result.now ≡ self.now }
    {
        self.items.as_slice()
    }

    /// The family in this slot.
    pub(crate) fn family(&self, slot: u32) -> Option<&Family>
        ensures { option_map (λ (p : TheFamily). p.family) (option_copied result) ≡ nodes.family_in self.now slot }
    {
        family_at(&self.items, slot as usize)
    }

    /// The first slot that may be given, behind this one or else up to it.
    pub(crate) fn free_from(&self, last: u32) -> Option<u32>
        requires all { length self.now ≡ slot_limit }
        requires last { last < slot_limit }
        ensures slot { result ≡ option_or (slots.free_behind last self.now) (slots.free_up_to last self.now) }
        ensures within { IfSome result (λ slot. slot < slot_limit) }
    {
        free_in(&self.items, last as usize)
    }

    /// Time passes in all slots, one after another, and the records of the families that are finished then go on without
    /// them.
    pub(crate) fn pass_time<D: Disk>(
        &mut self,
        alloc: Global,
        now: u64,
        journal: &Journal<D>,
        recovered: &mut Recovered,
        out: &mut Outbox,
        happened: &mut Vec<Happening>,
    ) -> Result<(), NodeFault>
        ensures passed { OnOk result (HasPassed now (length self.old) self.old self.new out.old.words out.new.words) }
        ensures happened { OnOk result (happened.new.items
            ≡ happened.old.items ++ map told (filter_map (happens_in now) self.old)) }
        ensures taken { OnOk result (AreTaken journal.now.found now (length self.old) self.old
            recovered.old.records recovered.new.records) }
        ensures part { OnErr result (HasPassedInPart now journal.now.found self.old self.new
            recovered.old.records recovered.new.records out.old.words out.new.words) }
        ensures others { recovered.new ≡ record recovered.old { records = recovered.new.records } }
        ensures fault { IfErr result (λ fault. fault ≡ NodeFault.Memory) }
    {
        pass_all(
            alloc,
            now,
            self.items.as_mut_slice(),
            journal,
            recovered,
            out,
            happened,
        )
    }

    /// A step of the family in this slot.
    pub(crate) fn step<D: Disk>(
        &mut self,
        slot: u32,
        event: &Event,
        journal: &mut Journal<D>,
        recovered: &mut Recovered,
        out: &mut Outbox,
    ) -> Result<StepAnswer, NodeFault>
        requires there { IsSome (nodes.family_in self.old slot) }
        requires given { is_reread (event.now).act ≡ false }
        ensures stepped { IfOk result (λ answer. HasSteppedAt D.wants_memory D.told D.faults slot event.entry.now
            self.old self.new journal.old journal.new recovered.old recovered.new
            answer out.old.words out.new.words) }
        ensures unmoved { IfErr result (λ fault. IsUnmovedAt slot event.entry.now self.old self.new
            journal.old journal.new recovered.old recovered.new fault out.old.words out.new.words) }
        ensures sure { journal.old.failed ≡ false → journal.old.doubted ≡ None }
        ensures later { D.faults journal.old.disk ≤ D.faults journal.new.disk }
    {
        step_place(
            &mut self.items[slot as usize],
            event,
            journal,
            recovered,
            out,
        )
    }

    /// A family begins in this slot.
    pub(crate) fn put(&mut self, slot: u32, family: Family)
        requires { slot < length self.old }
        ensures { self.new ≡ slice_set self.old slot (Some family.family) }
    {
        self.items[slot as usize] = Some(family);
    }
}

/// The family at this index.
fn family_at(items: &[Option<Family>], index: usize) -> Option<&Family>
    ensures { option_map (λ (p : TheFamily). p.family) (option_copied result)
        ≡ nodes.family_in (map shown items.now) index }
{
    match items.get(index) {
        Some(Some(family)) => Some(family),
        _ => None,
    }
}

/// The first slot that may be given, behind this one or else up to it.
fn free_in(items: &[Option<Family>], last: usize) -> Option<u32>
    requires all { length items.now ≡ slot_limit }
    requires last { last < slot_limit }
    ensures slot { result ≡ option_or (slots.free_behind last (map shown items.now))
        (slots.free_up_to last (map shown items.now)) }
    ensures within { IfSome result (λ slot. slot < slot_limit) }
{
    let behind = last + 1;
    match first_free(&items[behind..]) {
        Some(index) => Some((behind + index) as u32),
        None => free_before(items, behind),
    }
}

/// The first slot before this one that may be given.
fn free_before(items: &[Option<Family>], end: usize) -> Option<u32>
    requires all { length items.now ≡ slot_limit }
    requires end { end ≤ slot_limit }
    ensures slot { result ≡ position (λ place. slots.is_free (shown place)) (take end items.now) }
    ensures within { IfSome result (λ slot. slot < slot_limit) }
{
    match first_free(&items[..end]) {
        Some(index) => Some(index as u32),
        None => None,
    }
}

/// The index of the first of these slots that may be given.
fn first_free(items: &[Option<Family>]) -> Option<usize>
    ensures index { result ≡ position (λ place. slots.is_free (shown place)) items.now }
    ensures within { IfSome result (λ index. index < length items.now) }
{
    items.iter().position(|place| is_free(place))
}

/// Whether a slot may be given: it has no family, or one that is finished.
fn is_free(place: &Option<Family>) -> bool
    ensures { result ≡ slots.is_free (shown place.now) }
{
    match place {
        Some(family) => family.finished(),
        None => true,
    }
}
