// Which objects a node has, and what its transactions say of themselves.
ghost use Rattle.std.specs.Prelude.{◌≡◌, ◌≤◌, ◌⊎◌, ◌↔◌, false, length, Some, None, IfErr, IfOk, IsErrOf};
ghost use Rattle.cdr_values.specs.Value.{has_nul};
ghost use Rattle.coordinator.specs.Contexts as contexts;
ghost use Rattle.coordinator.specs.Objects as objects;

use crate::node::Node;
use crate::says::party_named;
use coordinator::NodeFault;
use ior_refs::ObjectKey;
use ots_context::Context;
use ots_model::Endpoint;
use ots_outside::Disk;
use recovery_coord::Held;

impl<D: Disk> Node<D> {
    /// Whether there is the object that a key names: one of the family that the key names, or, where that isn't there, one of
    /// the record of its tree that is held.
    #[tactic(auto, unfolding(coordinator::specs::Objects::node_has_object))]
    pub fn has_object(&self, key: &ObjectKey) -> bool
        ensures { result ≡ objects.node_has_object key.now self.now.node }
    {
        match self.family(key) {
            Some(family) => family.names(key.kind, key.index),
            None => match self.recovered.record_of(key) {
                Some(held) => record_names(held, key),
                None => false,
            },
        }
    }

    /// What a request says at a moment that belongs to a transaction, of a service that stands at this place. The key's number is that
    /// of its branch, whatever object the key is of.
    #[tactic(auto, unfolding(coordinator::specs::Contexts::context_named))]
    pub fn context(&self, key: &ObjectKey, now: u64, at: &Endpoint) -> Result<Context, NodeFault>
        requires short { length at.now.host ≤ contexts.host_limit }
        requires text { has_nul at.now.host ≡ false }
        ensures told { IfOk result (λ context. contexts.context_named at.now now key.now self.now.node ≡ Some context) }
        ensures refused { IsErrOf result NodeFault.ObjectNotExist
            ↔ (contexts.context_named at.now now key.now self.now.node ≡ None) }
        ensures memory { IfErr result (λ fault. (fault ≡ NodeFault.ObjectNotExist) ⊎ (fault ≡ NodeFault.Memory)) }
    {
        match self.family(key) {
            Some(family) if family.names(b'K', key.index) => {
                Ok(family.context(self.alloc, key.index, now, at)?)
            }
            _ => Err(NodeFault::ObjectNotExist),
        }
    }
}

/// Whether a record has the object that a key of its tree names: its terminator or its resource, where it tells a decision, or
/// a recovery coordinator of a registration that it names.
fn record_names(held: &Held, key: &ObjectKey) -> bool
    ensures { result ≡ objects.record_has_object held.now key.now }
{
    match key.kind {
        b'T' | b'U' => key.index == 0 && held.kind.is_decided(),
        b'V' => match party_named(held.parties.items(), key.index) {
            Some(_) => true,
            None => false,
        },
        _ => false,
    }
}
