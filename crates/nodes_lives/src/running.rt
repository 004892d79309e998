// A node over its disk, and a call to it while no stop comes.
ghost use Rattle.std.specs.Prelude.{◌≡◌, false, None, IfOk, IfErr};
ghost use Rattle.decision_journal.specs.Calls.{IsCurrent};
ghost use Rattle.ots_world.specs.declared.fault.WorldFault.TheVariants.{Memory};
ghost use Rattle.service_node.specs.Given.{node_makes};
ghost use Rattle.nodes_lives.specs.Running.{end_from, told};
ghost use Rattle.nodes_lives.specs.Shown.{Runs};
ghost use Rattle.nodes_lives.specs.Writing.{HasGoneThrough, is_memory};

use coordinator::{Event, NodeFault, StepAnswer};
use family_laws::{held_records_stood, nodes_keep_decisions};
use ior_refs::ObjectKey;
use nodes_parts::next_gate;
use nodes_world::records_are_read;
use ots_outside::MemDisk;
use ots_world::WorldFault;
use recovery_coord::{Outbox, completes_once};
use service_node::Node;
use std::alloc::Global;

/// A node over its disk, what that read once the node was loaded, and the place of the gate at its journal's end.
#[derive(Drop)]
pub(crate) struct Running {
    pub(crate) alloc: Global,
    /// In a block of its own, so that it stays where it is while calls hand it on.
    pub(crate) node: Box<Node<MemDisk>>,
    pub(crate) loaded: Vec<u8>,
    pub(crate) end: usize,
}

impl Running {
    /// What its disk reads.
    pub(crate) fn octets(&self) -> &[u8]
        ensures { result.now ≡ self.now.node.value.journal.disk.disk.reads }
    {
        self.node.journal().disk().octets()
    }

    /// Whether its journal has failed.
    fn has_failed(&self) -> bool
        ensures { result ≡ self.now.node.value.journal.failed }
    {
        self.node.journal().failed()
    }
}

/// A call that went through: the node behind it, and what it is answered or why it is refused.
#[derive(Drop)]
pub(crate) struct Through {
    pub(crate) running: Running,
    pub(crate) answer: Result<StepAnswer, NodeFault>,
}

/// The disk of a node whose journal has not failed holds its records, and nothing else.
pub(crate) fn is_current(running: &Running)
    requires failed { running.now.node.value.journal.failed ≡ false }
    requires sure { running.now.node.value.journal.doubted ≡ None }
    ensures { IsCurrent told running.now.node.value.journal }
{
    let _disk = running.node.journal().disk();
}

/// A call to a node, while no stop comes; the words that go out are put behind those that wait. Where its journal fails, memory
/// ran out.
pub(crate) fn apply(
    running: Running,
    key: &ObjectKey,
    event: &Event,
    words: &mut Outbox,
) -> Result<Through, WorldFault>
    requires runs { Runs running }
    requires given { node_makes (event.now).act ≡ false }
    ensures through { IfOk result
        (λ t. HasGoneThrough key.now event.entry.now running t words.old.words words.new.words) }
    ensures runs { IfOk result (λ t. Runs t.running) }
    ensures fault { IfErr result (λ fault. fault ≡ Memory) }
{
    nodes_keep_decisions();
    held_records_stood();
    records_are_read();
    completes_once();
    is_current(&running);
    let mut running = running;
    let answer = running.node.apply(key, event, words);
    if is_memory(&answer) || running.has_failed() {
        return Err(WorldFault::Memory);
    }
    running.end = end_from(running.octets(), running.end);
    Ok(Through { running, answer })
}

/// The gate behind the record of this one, or this one where it isn't open.
fn end_from(octets: &[u8], gate: usize) -> usize
    ensures { result ≡ end_from octets.now gate }
{
    next_gate(octets, gate).unwrap_or(gate)
}

/// Whether a call was refused for want of memory.
fn is_memory(answer: &Result<StepAnswer, NodeFault>) -> bool
    ensures { result ≡ is_memory answer.now }
{
    matches!(answer, Err(NodeFault::Memory))
}
