ghost use Rattle.std.specs.Prelude.{◌≡◌};
ghost use Rattle.giop_frames.specs.Fault.{fault_of, too_long};
ghost use Rattle.giop_frames.specs.declared.fault.FrameFault.TheVariants.{Memory};

use cdr_values::CdrFault;
use std::alloc::{AllocError, AllocFailed};

/// How many octets stand behind a header at most, and in a message's joined fragments (our profile).
pub const SIZE_LIMIT: usize = 65_536;

/// How many service contexts a message has at most (our profile).
pub const CONTEXT_LIMIT: u32 = 16;

/// How many octets an object key has at most (our profile).
pub const KEY_LIMIT: usize = 256;

/// How many profiles a reference has at most (our profile).
pub const PROFILE_LIMIT: u32 = 65_536;

/// Why octets are no message, or why a message isn't written.
#[derive(Clone, Copy, Debug, PartialEq, Eq)]
pub enum FrameFault {
    /// The first four octets are not "GIOP".
    BadMagic,
    /// The version is none of those that are admitted: not 1.2, where a call is given no versions.
    BadVersion,
    /// A message type above 7, or a target other than KeyAddr, ProfileAddr and ReferenceAddr.
    BadType,
    /// So many octets stand behind the header, or in the joined fragments: more than 65,536.
    TooLarge(u32),
    /// A fragment where none can be: `decode` and `Stream::next_framed` tell where.
    BadFragment,
    /// A field is not spelled. The place is its offset from the header's first octet, fragments being joined. More than
    /// 16 contexts and a key above 256 octets are TooLong.
    Body {
        /// The offset of the field.
        place: u32,
        /// The fault of the field.
        cdr: CdrFault,
    },
    /// The octets end before the message does, or before its header. Of the calls of this crate `decode`, `decode_as`,
    /// `read_header` and `HeaderWalk::go_on` answer it; a stream waits.
    Short,
    /// A ProfileAddr or a ReferenceAddr, which `encode` doesn't write.
    NotWritten,
    /// Memory ran out.
    Memory,
}

impl From<CdrFault> for FrameFault {
    ghost from_gives = { λ cdr fault. fault ≡ fault_of cdr };

    fn from(cdr: CdrFault) -> FrameFault {
        match cdr {
            CdrFault::Short(place)
            | CdrFault::BadBoolean(place)
            | CdrFault::BadString(place)
            | CdrFault::BadOrder(place)
            | CdrFault::TooLong { place, .. } => FrameFault::Body { place, cdr },
            CdrFault::Memory => FrameFault::Memory,
        }
    }
}

impl From<AllocError> for FrameFault {
    ghost from_gives = { λ _ fault. fault ≡ Memory };

    fn from(_error: AllocError) -> FrameFault {
        FrameFault::Memory
    }
}

impl<T: Drop> From<AllocFailed<T>> for FrameFault {
    ghost from_gives = { λ _ fault. fault ≡ Memory };

    fn from(_error: AllocFailed<T>) -> FrameFault {
        FrameFault::Memory
    }
}

/// A limit of this profile is passed at the place.
pub fn too_long(place: u32, length: u32) -> FrameFault
    ensures { result ≡ too_long place length }
{
    FrameFault::Body {
        place,
        cdr: CdrFault::TooLong { place, length },
    }
}
