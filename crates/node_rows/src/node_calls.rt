//! The calls of a node over a disk in memory, each without what its contract says: no case needs it.
ghost use Rattle.std.specs.Prelude.{◌≡◌};
ghost use Rattle.service_node.specs.Given.{node_makes};

use crate::client::Client;
use coordinator::{Act, NodeFault, StepAnswer};
use decision_journal::Standing;
use ior_refs::ObjectKey;
use ots_context::Context;
use ots_model::{Endpoint, Octets};
use ots_outside::{Back, MemDisk};
use recovery_coord::{Held, Outbox};
use service_node::{Happenings, Node};
use std::alloc::Global;
use std::io;

/// A node over a disk in memory.
pub type MemNode = Node<MemDisk>;

/// How many octets an area has at most.
const AREA_LIMIT: u64 = 67_108_864;

/// Makes the call `Node::load`, with an area within the limit.
pub fn load(alloc: Global, disk: MemDisk, area: u64) -> Result<MemNode, Back<MemDisk, NodeFault>> {
    Node::load(alloc, disk, area.min(AREA_LIMIT), 1)
}

/// A disk of these octets, of which these calls fail.
pub fn disk_of(alloc: Global, octets: &[u8], failing: Vec<u64>) -> io::Result<MemDisk> {
    Ok(MemDisk::new(alloc, octets.to_vec(alloc)?, failing)?)
}

/// Makes the call `crash`.
pub fn crash(node: MemNode) -> MemDisk {
    node.crash()
}

/// Makes the call `parts`, and then `whole` of the same parts.
pub fn rebuilt(alloc: Global, node: MemNode) -> MemNode {
    Node::whole(alloc, node.parts())
}

/// Makes the call `create`.
pub fn create(node: &mut MemNode, now: u64, seconds: u32) -> Result<ObjectKey, NodeFault> {
    node.create(now, seconds)
}

/// Makes the call `apply` of this client, but for an act that a node itself brings.
pub fn apply(
    node: &mut MemNode,
    client: &mut Client,
    act: Act,
) -> Option<Result<StepAnswer, NodeFault>> {
    if is_made(&act) {
        return None;
    }
    let event = client.event(act);
    Some(node.apply(&client.key, &event, &mut client.out))
}

/// Whether a node itself tells its families this.
fn is_made(act: &Act) -> bool
    ensures { result ≡ node_makes act.now }
{
    matches!(act, Act::Reread(_) | Act::Opened(_))
}

/// Makes the call `tick`.
pub fn tick(node: &mut MemNode, now: u64, out: &mut Outbox) -> Result<Happenings, NodeFault> {
    node.tick(now, out)
}

/// Makes the call `life`.
pub fn life(node: &MemNode) -> u32 {
    node.life()
}

/// Makes the call `records`.
pub fn held(node: &MemNode) -> &[Held] {
    node.records()
}

/// Makes the call `journal`.
pub fn standing(node: &MemNode) -> &[Standing] {
    node.journal().standing()
}

/// Makes the call `has_object`.
pub fn has_object(node: &MemNode, key: &ObjectKey) -> bool {
    node.has_object(key)
}

/// Makes the call `context` of this client, for a service that stands at `h:1`.
pub fn context(
    alloc: Global,
    node: &MemNode,
    client: &Client,
) -> io::Result<Result<Context, NodeFault>> {
    let at = Endpoint {
        host: Octets::new(alloc, b"h")?,
        port: 1,
    };
    Ok(node.context(&client.key, client.now, &at))
}
