// A node that is up.
ghost use Rattle.std.specs.Prelude.{◌≡◌, ◌⊎◌, ◌==◌, find, IfOk, IfErr};
ghost use Rattle.std.specs.Option.{option_copied, option_map};
ghost use Rattle.recovery_coord.specs.declared.held.Held.{Held as HeldRecord};
ghost use Rattle.coordinator.specs.Family.{FamilyParts as TheFamily};
ghost use Rattle.coordinator.specs.Node as nodes;
ghost use Rattle.ots_world.specs.declared.fault.WorldFault.TheVariants.{Memory};
ghost use Rattle.family_laws.specs.SoundNode.{IsSoundNode};
ghost use Rattle.nodes_lives.specs.Loads.{HoldsJournal, IsLoadRefusal, IsLoaded, StoresJournal, refusal_of};
ghost use Rattle.nodes_lives.specs.Making.{HasMade, IsStarved};
ghost use Rattle.nodes_lives.specs.Shown.{Runs, living};
ghost use Rattle.nodes_lives.specs.Ticking.{HasTicked};

use crate::running::{Running, is_current};
use crate::ticking::Ticked;
use coordinator::NodeFault;
use decision_journal::{
    JournalFault, creations_are_safe, journals_grow, octets_stand_for_one_list,
};
use family_laws::{held_records_stood, nodes_keep_decisions};
use family_step::Family;
use ior_refs::ObjectKey;
use nodes_parts::last_gates;
use nodes_world::records_are_read;
use ots_outside::MemDisk;
use ots_world::WorldFault;
use recovery_coord::{Held, Outbox};
use service_node::Node;
use std::alloc::{AllocError, Global};
use std::marker::Model;

/// How many octets a journal has at most.
const AREA_LIMIT: u64 = 67_108_864;

/// A node that is up: it runs in one life, over a disk of its own of which no call fails. Contracts see the node and
/// its disk.
#[derive(Drop)]
pub struct LiveNode {
    pub(crate) running: Running,
}

impl Model for LiveNode {
    ghost use Rattle.nodes_lives.specs.Living.{Living};

    ghost Value = { Living };

    ghost use Rattle.nodes_lives.specs.Shown.{Runs, living};

    ghost view = { λ n. living n.running };

    ghost invariant = { λ n. Runs n.running };
}

impl LiveNode {
    /// `restart`: loads the node of a service from the octets of its disk, or makes one where they are not yet a
    /// journal, and begins its next life. Where no further life has room, the limit of a journal is passed.
    pub fn load(alloc: Global, octets: Vec<u8>, service: u64) -> Result<LiveNode, WorldFault>
        requires journal { HoldsJournal service octets.items }
        ensures loaded { IfOk result (λ n. IsLoaded service octets.items n) }
        ensures fault { IfErr result (λ fault. IsLoadRefusal service octets.items fault) }
    {
        Ok(LiveNode {
            running: load(alloc, octets, service)?,
        })
    }

    /// Its families are sound, and each decision that stands is told again or has its family. Its disk holds a journal.
    pub fn kept(&self)
        ensures sound { IsSoundNode self.now.node }
        ensures journal { StoresJournal self.now.node.service self.now.disk.reads }
    {
        is_current(&self.running);
    }

    /// The node itself, over its disk.
    pub fn node(&self) -> &Node<MemDisk>
        ensures node { (result.now).node ≡ self.now.node }
        ensures disk { (result.now).journal.disk.disk ≡ self.now.disk }
    {
        &self.running.node
    }

    /// What its disk reads.
    pub fn octets(&self) -> &[u8]
        ensures { result.now ≡ self.now.disk.reads }
    {
        self.running.node.journal().disk().octets()
    }

    /// The number of its service.
    pub fn service(&self) -> u64
        ensures { result ≡ self.now.node.service }
    {
        self.running.node.journal().service()
    }

    /// The life that it is in.
    pub fn life(&self) -> u32
        ensures { result ≡ nodes.life self.now.node }
    {
        self.running.node.life()
    }

    /// The records whose families are gone, as they are told again.
    pub fn records(&self) -> &[Held]
        ensures { result.now ≡ self.now.node.recovered }
    {
        self.running.node.records()
    }

    /// The record at a place, where it is one of these.
    pub fn record_at(&self, place: u64) -> Option<&Held>
        ensures { option_copied result ≡ find (λ (r : HeldRecord). r.place == place) self.now.node.recovered }
    {
        self.running.node.record_at(place)
    }

    /// The family that a key names.
    pub fn family(&self, key: &ObjectKey) -> Option<&Family>
        ensures { option_map (λ (p : TheFamily). p.family) (option_copied result)
            ≡ nodes.family_of key.now self.now.node }
    {
        self.running.node.family(key)
    }

    /// Makes a family (`create` of TransactionFactory).
    pub fn create(&mut self, now: u64, seconds: u32) -> Result<ObjectKey, NodeFault>
        ensures { HasMade now seconds self.old self.new result ⊎ IsStarved now seconds self.old self.new result }
    {
        nodes_keep_decisions();
        held_records_stood();
        self.running.node.create(now, seconds)
    }

    /// Its clock goes on. Where memory runs out, the node is gone.
    pub fn tick(self, now: u64) -> Result<Ticked, WorldFault>
        ensures ticked { IfOk result (λ t. HasTicked now self t) }
        ensures fault { IfErr result (λ fault. fault ≡ Memory) }
    {
        nodes_keep_decisions();
        held_records_stood();
        let mut running = self.running;
        let alloc = running.alloc;
        let mut words = Outbox::new(alloc);
        match running.node.tick(now, &mut words) {
            Ok(happened) => Ok(Ticked {
                node: LiveNode { running },
                happened,
                words,
            }),
            Err(_) => Err(WorldFault::Memory),
        }
    }
}

/// Why a node doesn't come up: its journal has no room for a further life, or memory ran out.
fn load_refusal(fault: NodeFault) -> WorldFault
    ensures { result ≡ refusal_of fault }
{
    match fault {
        NodeFault::Journal(JournalFault::Full { .. }) => WorldFault::Limit(AREA_LIMIT),
        _ => WorldFault::Memory,
    }
}

/// Loads the node of a service from the octets of its disk.
fn load(alloc: Global, octets: Vec<u8>, service: u64) -> Result<Running, WorldFault>
    requires journal { HoldsJournal service octets.items }
    ensures loaded { IfOk result (λ r. IsLoaded service octets.items (living r)) }
    ensures runs { IfOk result Runs }
    ensures fault { IfErr result (λ fault. IsLoadRefusal service octets.items fault) }
{
    octets_stand_for_one_list();
    creations_are_safe();
    journals_grow();
    records_are_read();
    nodes_keep_decisions();
    held_records_stood();
    let disk = MemDisk::new(alloc, octets, Vec::new(alloc))?;
    let node = match Node::load(alloc, disk, AREA_LIMIT, service) {
        Ok(node) => node,
        Err(back) => return Err(load_refusal(back.fault)),
    };
    let loaded = node.journal().disk().octets().to_vec(alloc)?;
    let end = last_gates(loaded.as_slice()).end;
    let held = in_block(alloc, node)?;
    Ok(Running {
        alloc,
        node: held,
        loaded,
        end,
    })
}

/// A node, in a block of its own.
fn in_block(alloc: Global, node: Node<MemDisk>) -> Result<Box<Node<MemDisk>>, AllocError>
    ensures same { IfOk result (λ held. held.value ≡ node) }
{
    let held = Box::new(alloc, node)?;
    Ok(held)
}
