ghost use Rattle.std.specs.Prelude.{◌≡◌};
ghost use Rattle.coordinator.specs.declared.node.NodeFault.TheVariants.{Memory};

use decision_journal::JournalFault;
use std::alloc::AllocError;

/// Why a node refuses a call.
#[derive(Clone, Copy, Debug, PartialEq, Eq)]
pub enum NodeFault {
    /// The key names nothing (OBJECT_NOT_EXIST).
    ObjectNotExist,
    /// There is no slot, no further number, or no room in the history (NO_RESOURCES).
    NoResources,
    /// The context has parents (NO_IMPLEMENT).
    NoImplement,
    /// The journal was refused.
    Journal(JournalFault),
    /// Memory ran out.
    Memory,
}

impl From<AllocError> for NodeFault {
    ghost from_gives = { λ _ fault. fault ≡ Memory };

    fn from(_: AllocError) -> Self {
        NodeFault::Memory
    }
}
