ghost use Rattle.std.specs.Prelude.{◌≡◌};
ghost use Rattle.ots_calls.specs.Fault.{fault_of, fault_of_context, fault_of_reference};
ghost use Rattle.ots_calls.specs.declared.fault.CallFault.TheVariants.{Memory};

use cdr_values::CdrFault;
use ior_refs::IorFault;
use ots_context::ContextFault;
use std::alloc::{AllocError, AllocFailed};

/// Why a request is no call, or a call isn't written. Offsets count from the first octet of the body, or of the service
/// context that is refused.
#[derive(Clone, Copy, Debug, PartialEq, Eq)]
pub enum CallFault {
    /// The object has no operation of that name.
    BadOperation,
    /// A value isn't spelled at this offset, is out of its range, or more is left than may be (MARSHAL).
    Marshal(u32),
    /// A reference is nil where one is needed, or an answer to be written isn't one of the call's (BAD_PARAM).
    BadParam,
    /// A reply isn't an answer to the call.
    Garbled(u32),
    /// The target of the request isn't an object key.
    BadTarget,
    /// The object key isn't of the form that this project's keys have (OBJECT_NOT_EXIST). One of another service is.
    BadKey,
    /// Memory ran out.
    Memory,
}

impl From<CdrFault> for CallFault {
    ghost from_gives = { λ cdr fault. fault ≡ fault_of cdr };

    fn from(cdr: CdrFault) -> CallFault {
        match cdr {
            CdrFault::Short(place)
            | CdrFault::BadBoolean(place)
            | CdrFault::BadString(place)
            | CdrFault::BadOrder(place)
            | CdrFault::TooLong { place, .. } => CallFault::Marshal(place),
            CdrFault::Memory => CallFault::Memory,
        }
    }
}

impl From<IorFault> for CallFault {
    ghost from_gives = { λ ior fault. fault ≡ fault_of_reference ior };

    fn from(ior: IorFault) -> CallFault {
        match ior {
            IorFault::Cdr(fault) => fault.into(),
            IorFault::BadText(place) | IorFault::TooLong(place) | IorFault::Rest(place) => {
                CallFault::Marshal(place)
            }
            IorFault::NoIiop => CallFault::Marshal(0),
            IorFault::Memory => CallFault::Memory,
        }
    }
}

impl From<ContextFault> for CallFault {
    ghost from_gives = { λ context fault. fault ≡ fault_of_context context };

    fn from(context: ContextFault) -> CallFault {
        match context {
            ContextFault::Cdr(fault) => fault.into(),
            ContextFault::Ior(fault) => fault.into(),
            ContextFault::TooMany(place) => CallFault::Marshal(place),
            ContextFault::Otid | ContextFault::TailPlace => CallFault::Marshal(0),
            ContextFault::Memory => CallFault::Memory,
        }
    }
}

impl From<AllocError> for CallFault {
    ghost from_gives = { λ _ fault. fault ≡ Memory };

    fn from(_error: AllocError) -> CallFault {
        CallFault::Memory
    }
}

impl<T: Drop> From<AllocFailed<T>> for CallFault {
    ghost from_gives = { λ _ fault. fault ≡ Memory };

    fn from(_error: AllocFailed<T>) -> CallFault {
        CallFault::Memory
    }
}
