ghost use Rattle.std.specs.Prelude.{◌≡◌};
ghost use Rattle.ots_context.specs.Fault.{fault_of, fault_of_reference};
ghost use Rattle.ots_context.specs.declared.fault.ContextFault.TheVariants.{Memory};

use cdr_values::CdrFault;
use ior_refs::IorFault;
use std::alloc::{AllocError, AllocFailed};

/// Why octets are no context, or a context isn't written. Offsets count from the first octet of
/// the encapsulation, or as the reader or the writer counts.
#[derive(Clone, Copy, Debug, PartialEq, Eq)]
pub enum ContextFault {
    /// A value is not spelled, or there is no room for one.
    Cdr(CdrFault),
    /// A reference is not spelled, or is too long.
    Ior(IorFault),
    /// The tid of an otid has no octets or too many, or its branch qualifier is longer than the tid.
    Otid,
    /// There are more than 16 parents. The identity in front of their count ends at this offset.
    TooMany(u32),
    /// The tail isn't big endian, stood at another offset modulo 8, or would be read as null. Only writing answers
    /// this.
    TailPlace,
    /// Memory ran out.
    Memory,
}

impl From<CdrFault> for ContextFault {
    ghost from_gives = { λ cdr fault. fault ≡ fault_of cdr };

    fn from(cdr: CdrFault) -> ContextFault {
        match cdr {
            CdrFault::Memory => ContextFault::Memory,
            _ => ContextFault::Cdr(cdr),
        }
    }
}

impl From<IorFault> for ContextFault {
    ghost from_gives = { λ ior fault. fault ≡ fault_of_reference ior };

    fn from(ior: IorFault) -> ContextFault {
        match ior {
            IorFault::Memory => ContextFault::Memory,
            _ => ContextFault::Ior(ior),
        }
    }
}

impl From<AllocError> for ContextFault {
    ghost from_gives = { λ _ fault. fault ≡ Memory };

    fn from(_error: AllocError) -> ContextFault {
        ContextFault::Memory
    }
}

impl<T: Drop> From<AllocFailed<T>> for ContextFault {
    ghost from_gives = { λ _ fault. fault ≡ Memory };

    fn from(_error: AllocFailed<T>) -> ContextFault {
        ContextFault::Memory
    }
}
