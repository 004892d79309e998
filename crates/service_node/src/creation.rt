// How a node makes a family, and what its clock does.
ghost use Rattle.std.specs.Prelude.{◌≡◌, ◌<◌, ◌++◌, IfSome, IfErr, IsNone, OnOk, OnErr, Some, map, filter_map, IfOk};
ghost use Rattle.coordinator.specs.Family.{Family as TheFamily};
ghost use Rattle.coordinator.specs.Limits.{generation_limit, slot_limit};
ghost use Rattle.coordinator.specs.Node as nodes;
ghost use Rattle.coordinator.specs.NodeSlots as slots;
ghost use Rattle.coordinator.specs.NodeTick as ticking;
ghost use Rattle.ior_refs.specs.declared.key.ObjectKey.{ObjectKey as Key};
ghost use Rattle.recovery_coord.specs.Telling as telling;
ghost use Rattle.service_node.specs.NodeState.{IsMadeOrStarved};
ghost use Rattle.service_node.specs.Ticking.{HasPassedSome, HasTickedInPart, hands_over, told, words_in};

use crate::handing::take_from;
use crate::node::Node;
use crate::passing::{Happening, Happenings};
use coordinator::NodeFault;
use family_step::Family;
use ior_refs::ObjectKey;
use ots_outside::Disk;
use recovery_coord::Outbox;

/// How many families are made in one life at most.
const GENERATION_LIMIT: u64 = 1 << 48;

/// The letter of a coordinator's key.
const COORDINATOR_KIND: u8 = b'K';

impl<D: Disk> Node<D> {
    /// Makes a family (`create` of TransactionFactory), in the next slot that has none or a finished one. Its time is
    /// over after so many seconds, or never where none are given. The record of a finished family that was there is
    /// told again from then on. The answer is the key of the coordinator of its top-level transaction. Where each slot
    /// has a family that isn't finished, or no further number is left, it is NoResources.
    pub fn create(&mut self, now: u64, seconds: u32) -> Result<ObjectKey, NodeFault>
        ensures { IsMadeOrStarved self.old self.new result (slots.creates now seconds self.old.node) }
    {
        let slot = match self.next_slot() {
            Some(slot) => slot,
            None => return Err(NodeFault::NoResources),
        };
        let key = self.next_key(slot);
        let family = Family::new(self.alloc, key, deadline_after(now, seconds))?;
        self.begin(slot, family)?;
        Ok(key)
    }

    /// The slot of the next family, where there can be one.
    fn next_slot(&self) -> Option<u32>
        ensures some { IfSome result (λ slot. (slots.free_slot self.now.node ≡ Some slot)
            × (slot < slot_limit) × (self.now.node.generation < generation_limit)) }
        ensures none { IsNone result → (make : Key → TheFamily)
            → slots.makes make self.now.node ≡ slots.makes_no_family self.now.node }
    {
        if self.generation >= GENERATION_LIMIT {
            return None;
        }
        self.slots.free_from(self.last)
    }

    /// The key of the next family.
    fn next_key(&self, slot: u32) -> ObjectKey
        requires { self.now.node.generation < generation_limit }
        ensures { result ≡ slots.next_key self.now.node slot }
    {
        ObjectKey {
            kind: COORDINATOR_KIND,
            service: self.journal.service(),
            life: self.journal.life(),
            slot,
            generation: self.generation + 1,
            index: 0,
        }
    }

    /// A family begins in a slot, and the record of the one that was there goes on.
    fn begin(&mut self, slot: u32, family: Family) -> Result<(), NodeFault>
        requires slot { slot < slot_limit }
        requires number { self.old.node.generation < generation_limit }
        requires key { (family.family).key ≡ slots.next_key self.old.node slot }
        ensures ok { OnOk result (self.new.node ≡ slots.with_new (λ key. family.family) slot self.old.node) }
        ensures journal { self.new.journal ≡ self.old.journal }
        ensures err { IfErr result (λ fault. (self.new ≡ self.old) × (fault ≡ NodeFault.Memory)) }
    {
        let left = self.slots.family(slot);
        match take_from(self.alloc, &self.journal, left, &mut self.recovered) {
            Ok(()) => {}
            Err(fault) => {
                drop(family);
                return Err(fault.into());
            }
        }
        self.slots.put(slot, family);
        self.last = slot;
        self.generation += 1;
        Ok(())
    }

    /// The clock of the node goes on: time is over for some families, whose words go out by slot, and then the records
    /// are told again whose families are gone, or finished. Each slot is looked at once. Want of memory leaves what was
    /// done, and the words that went out.
    #[tactic(auto, unfolding(coordinator::specs::NodeTick::ticks))]
    pub fn tick(&mut self, now: u64, out: &mut Outbox) -> Result<Happenings, NodeFault>
        ensures node { OnOk result (self.new.node ≡ (ticking.ticks now self.old.node).node) }
        ensures happened { IfOk result (λ h. h ≡ map told (ticking.ticks now self.old.node).happened) }
        ensures words { OnOk result (out.new.words ≡ out.old.words
            ++ (words_in (ticking.ticks now self.old.node).happened ++ (ticking.ticks now self.old.node).words)) }
        ensures journal { self.new.journal ≡ self.old.journal }
        ensures part { OnErr result (HasTickedInPart now self.old.node self.new.node out.old.words out.new.words) }
        ensures fault { IfErr result (λ fault. fault ≡ NodeFault.Memory) }
    {
        let mut happened = Vec::new(self.alloc);
        self.pass_time(now, out, &mut happened)?;
        self.tell_again(out)?;
        Ok(Happenings::from_vec(happened))
    }

    /// Time passes for each family, and the records of those that are finished then go on without them.
    fn pass_time(
        &mut self,
        now: u64,
        out: &mut Outbox,
        happened: &mut Vec<Happening>,
    ) -> Result<(), NodeFault>
        ensures node { OnOk result (self.new.node ≡ hands_over (ticking.passes_time now self.old.node)) }
        ensures happened { OnOk result (happened.new.items ≡ happened.old.items
            ++ map told (filter_map (ticking.happens_in now) (self.old.node).families)) }
        ensures words { OnOk result (out.new.words ≡ out.old.words
            ++ words_in (filter_map (ticking.happens_in now) (self.old.node).families)) }
        ensures journal { self.new.journal ≡ self.old.journal }
        ensures part { OnErr result (HasPassedSome now self.old.node self.new.node out.old.words out.new.words) }
        ensures fault { IfErr result (λ fault. fault ≡ NodeFault.Memory) }
    {
        self.slots.pass_time(
            self.alloc,
            now,
            &self.journal,
            &mut self.recovered,
            out,
            happened,
        )
    }

    /// Tells the records again that are held: puts each word that is still to be told behind the others, in record order. Want
    /// of memory leaves the words as they were.
    fn tell_again(&mut self, out: &mut Outbox) -> Result<(), NodeFault>
        ensures node { self.new.node ≡ record self.old.node {
          recovered = map telling.retold (self.old.node).recovered;
        } }
        ensures words { OnOk result (out.new.words
            ≡ out.old.words ++ telling.words (nodes.life self.new.node) (self.new.node).recovered) }
        ensures journal { self.new.journal ≡ self.old.journal }
        ensures unsaid { OnErr result (out.new.words ≡ out.old.words) }
        ensures fault { IfErr result (λ fault. fault ≡ NodeFault.Memory) }
    {
        self.recovered.redrive(out)?;
        Ok(())
    }
}

/// The moment at which the time of a family is over: none where no seconds are given.
fn deadline_after(now: u64, seconds: u32) -> Option<u64>
    ensures { result ≡ slots.deadline_after now seconds }
{
    if seconds == 0 {
        return None;
    }
    Some(now.saturating_add(u64::from(seconds)))
}
