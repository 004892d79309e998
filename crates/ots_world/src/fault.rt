ghost use Rattle.std.specs.Prelude.{◌≡◌};
ghost use Rattle.ots_world.specs.declared.fault.WorldFault.TheVariants.{Memory};

use std::alloc::{AllocError, AllocFailed};

/// How many messages a script sends at most.
pub const MESSAGE_LIMIT: usize = 1_000_000;

/// Why a world refuses a line.
#[derive(Clone, Copy, Debug, PartialEq, Eq)]
pub enum WorldFault {
    /// A name isn't there, is of the wrong kind or is taken, or the line isn't accepted there. Nothing has changed.
    Names,
    /// A count would pass its limit, which is this number. The world answers so from now on.
    Limit(u64),
    /// Memory ran out. The world answers so from now on.
    Memory,
}

impl From<AllocError> for WorldFault {
    ghost from_gives = { λ _ fault. fault ≡ Memory };

    fn from(_error: AllocError) -> WorldFault {
        WorldFault::Memory
    }
}

impl<T: Drop> From<AllocFailed<T>> for WorldFault {
    ghost from_gives = { λ _ fault. fault ≡ Memory };

    fn from(_error: AllocFailed<T>) -> WorldFault {
        WorldFault::Memory
    }
}
