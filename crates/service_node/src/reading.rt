// What a node shows of itself.
ghost use Rattle.std.specs.Prelude.{◌≡◌, ◌==◌, ◌&&◌, find};
ghost use Rattle.std.specs.Option.{option_and_then, option_copied, option_map};
ghost use Rattle.recovery_coord.specs.declared.held.Held.{Held as HeldRecord};
ghost use Rattle.coordinator.specs.Family.{FamilyParts as TheFamily};
ghost use Rattle.coordinator.specs.Node as nodes;
ghost use Rattle.service_node.specs.NodeState.{HangsTogether};

use crate::node::Node;
use decision_journal::Journal;
use family_step::Family;
use ior_refs::ObjectKey;
use ots_outside::Disk;
use recovery_coord::Held;

impl<D: Disk> Node<D> {
    /// Its journal.
    pub fn journal(&self) -> &Journal<D>
        ensures { result.now ≡ self.now.journal }
    {
        &self.journal
    }

    /// The node is whole, its slots and records are of its journal, and a record in doubt leaves the life. This does nothing.
    pub fn hangs_together(&self)
        ensures { HangsTogether self.now }
    {
        let _last = self.last;
    }

    /// The life that it is in.
    pub fn life(&self) -> u32
        ensures { result ≡ nodes.life self.now.node }
    {
        self.journal.life()
    }

    /// The records whose families are gone, as they are told again.
    pub fn records(&self) -> &[Held]
        ensures { result.now ≡ (self.now.node).recovered }
    {
        self.recovered.records()
    }

    /// The record at a place, where it is one of these.
    pub fn record_at(&self, place: u64) -> Option<&Held>
        ensures { option_copied result ≡ find (λ (r : HeldRecord). r.place == place) (self.now.node).recovered }
    {
        self.recovered.record_at(place)
    }

    /// The family that a key names, where its slot holds it.
    #[tactic(auto, unfolding(coordinator::specs::Node::family_of))]
    pub fn family(&self, key: &ObjectKey) -> Option<&Family>
        ensures { option_map (λ (p : TheFamily). p.family) (option_copied result)
            ≡ nodes.family_of key.now self.now.node }
    {
        only_of(key, self.slots.family(key.slot))
    }
}

/// The family, where there is one and a key is of one of its objects.
fn only_of<'a>(key: &ObjectKey, place: Option<&'a Family>) -> Option<&'a Family>
    ensures { option_map (λ (p : TheFamily). p.family) (option_copied result)
        ≡ option_and_then (nodes.only_of key.now) (option_map (λ (p : TheFamily). p.family) (option_copied place.entry)) }
{
    match place {
        Some(family) if is_of(key, family.key()) => Some(family),
        _ => None,
    }
}

/// Whether a key is of an object of the family that was made with this one.
fn is_of(key: &ObjectKey, made: &ObjectKey) -> bool
    ensures { result ≡ ((key.now).service == (made.now).service && (key.now).life == (made.now).life
        && (key.now).slot == (made.now).slot && (key.now).generation == (made.now).generation) }
{
    key.service == made.service
        && key.life == made.life
        && key.slot == made.slot
        && key.generation == made.generation
}
