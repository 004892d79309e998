// What lies behind the lock of a room: its node, which one caller has at a time.
ghost use Rattle.std.specs.Prelude.{◌≡◌, ◌⊎◌, ◌++◌, false, IfErr, OnErr, OnOk};
ghost use Rattle.coordinator.specs.NodeSlots as slots;
ghost use Rattle.coordinator.specs.NodeTick as ticking;
ghost use Rattle.service_node.specs.Applying.{IsApplied, IsUnapplied};
ghost use Rattle.service_node.specs.Crashes.{IsCrashSafe};
ghost use Rattle.service_node.specs.Given.{node_makes};
ghost use Rattle.service_node.specs.NodeState.{IsMadeOrStarved};
ghost use Rattle.service_node.specs.Ticking.{HasTickedInPart, words_in};
ghost use Rattle.tree_room.specs.Room.{IsNamed, IsOfRoom};

use crate::naming::Naming;
use coordinator::{Event, NodeFault, StepAnswer};
use ior_refs::ObjectKey;
use ots_outside::Disk;
use recovery_coord::Outbox;
use service_node::{Happenings, Node};
use std::marker::{Model, PhantomData};

/// A node of the service and in the life that its name tells. Each call makes one step of it, and tells what its caller may
/// know of the node behind a lock: that it is whole, and of that name. Contracts see it as the node.
#[derive(Drop)]
pub struct LockedNode<N: Naming, D: Disk> {
    node: Node<D>,
    of: PhantomData<N>,
}

impl<N: Naming, D: Disk> Model for LockedNode<N, D> {
    ghost use Rattle.service_node.specs.NodeState.{NodeState};
    ghost use Rattle.tree_room.specs.Room.{IsNamed};

    ghost Value = { NodeState D };

    ghost view = { λ l. l.node };

    ghost invariant = { λ l. IsNamed N.service N.life l.node };
}

impl<N: Naming, D: Disk> LockedNode<N, D> {
    /// This node, for a room of its name.
    pub fn new(node: Node<D>) -> LockedNode<N, D>
        requires named { IsNamed N.service N.life node }
        ensures { result ≡ node }
    {
        LockedNode {
            node,
            of: PhantomData,
        }
    }

    /// The node.
    pub fn node(&self) -> &Node<D>
        ensures same { result.now ≡ self.now }
        ensures of_room { IsOfRoom N.service N.life self.now }
    {
        self.node.hangs_together();
        &self.node
    }

    /// The node makes a family (`Node::create`).
    #[tactic(auto, using(crate::proofs::Staying::stays_by_create))]
    pub fn create(&mut self, now: u64, seconds: u32) -> Result<ObjectKey, NodeFault>
        ensures of_room { IsOfRoom N.service N.life self.old }
        ensures made { IsMadeOrStarved self.old self.new result (slots.creates now seconds self.old.node) }
    {
        self.node.hangs_together();
        let said = self.node.create(now, seconds);
        self.node.hangs_together();
        said
    }

    /// The node answers a call (`Node::apply`).
    #[tactic(auto, using(crate::proofs::Staying::stays_named))]
    pub fn apply(
        &mut self,
        key: &ObjectKey,
        event: &Event,
        out: &mut Outbox,
    ) -> Result<StepAnswer, NodeFault>
        requires given { node_makes (event.now).act ≡ false }
        ensures of_room { IsOfRoom N.service N.life self.old }
        ensures applied { IsApplied D.wants_memory D.told D.faults key.now event.entry.now self.old self.new
            result out.old.words out.new.words
            ⊎ IsUnapplied key.now event.entry.now self.old self.new result out.old.words out.new.words }
        ensures crash { IsCrashSafe D.told self.old self.new }
    {
        self.node.hangs_together();
        let said = self.node.apply(key, event, out);
        self.node.hangs_together();
        said
    }

    /// The clock of the node goes on (`Node::tick`).
    #[tactic(auto, using(crate::proofs::Staying::stays_with))]
    pub fn tick(&mut self, now: u64, out: &mut Outbox) -> Result<Happenings, NodeFault>
        ensures of_room { IsOfRoom N.service N.life self.old }
        ensures node { OnOk result (self.new.node ≡ (ticking.ticks now self.old.node).node) }
        ensures words { OnOk result (out.new.words ≡ out.old.words
            ++ (words_in (ticking.ticks now self.old.node).happened ++ (ticking.ticks now self.old.node).words)) }
        ensures journal { self.new.journal ≡ self.old.journal }
        ensures part { OnErr result (HasTickedInPart now self.old.node self.new.node out.old.words out.new.words) }
        ensures fault { IfErr result (λ fault. fault ≡ NodeFault.Memory) }
    {
        self.node.hangs_together();
        let said = self.node.tick(now, out);
        self.node.hangs_together();
        said
    }
}
