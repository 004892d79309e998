// What a tick gives.
use crate::live::LiveNode;
use recovery_coord::Outbox;
use service_node::Happenings;

/// A node behind a tick: what happened to its families, and the words that go out: those of the families by slot, and
/// then those that are told again.
#[derive(Drop)]
pub struct Ticked {
    pub node: LiveNode,
    pub happened: Happenings,
    pub words: Outbox,
}
