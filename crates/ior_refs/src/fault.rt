ghost use Rattle.std.specs.Prelude.{◌≡◌};
ghost use Rattle.ior_refs.specs.Fault.{fault_of};
ghost use Rattle.ior_refs.specs.declared.fault.IorFault.TheVariants.{Memory};

use cdr_values::CdrFault;
use std::alloc::{AllocError, AllocFailed};

/// Why octets or a text are no reference, or a reference doesn't say where its object is, or none is made. Each number
/// is an offset.
#[derive(Clone, Copy, Debug, PartialEq, Eq)]
pub enum IorFault {
    /// The text's octet at this offset is not as a stringified reference has it, or is wanting.
    BadText(u32),
    /// A value is not spelled, a count is above its limit, or a text of a reference that is made holds a NUL. Its offset is
    /// as the reader counts, or from the first octet of the encapsulation.
    Cdr(CdrFault),
    /// The reference that begins at this offset has more than 1,024 canonical octets.
    TooLong(u32),
    /// The reference has no IIOP profile.
    NoIiop,
    /// From this offset on there are octets left over.
    Rest(u32),
    /// Memory ran out.
    Memory,
}

impl From<CdrFault> for IorFault {
    ghost from_gives = { λ cdr fault. fault ≡ fault_of cdr };

    fn from(cdr: CdrFault) -> IorFault {
        match cdr {
            CdrFault::Memory => IorFault::Memory,
            _ => IorFault::Cdr(cdr),
        }
    }
}

impl From<AllocError> for IorFault {
    ghost from_gives = { λ _ fault. fault ≡ Memory };

    fn from(_error: AllocError) -> IorFault {
        IorFault::Memory
    }
}

impl<T: Drop> From<AllocFailed<T>> for IorFault {
    ghost from_gives = { λ _ fault. fault ≡ Memory };

    fn from(_error: AllocFailed<T>) -> IorFault {
        IorFault::Memory
    }
}
