ghost use Rattle.std.specs.Prelude.{◌≡◌};
ghost use Rattle.cdr_values.specs.declared.fault.CdrFault.TheVariants.{Memory};

use std::alloc::AllocError;

/// How many octets a sequence of octets has at most, and a string with its NUL (our profile).
pub const LENGTH_LIMIT: usize = 65_536;

/// How many octets a writer has written at most (our profile).
pub const OUTPUT_LIMIT: usize = 65_536;

/// Why a value is not read or written. Each place is the offset at which the reader or the writer stood when the call
/// began.
#[derive(Clone, Copy, Debug, PartialEq, Eq)]
pub enum CdrFault {
    /// The octets end before the value does.
    Short(u32),
    /// The octet of a boolean is neither 0 nor 1.
    BadBoolean(u32),
    /// The octets of a string are not a text and one NUL behind it; or a text to be written holds a NUL.
    BadString(u32),
    /// A length is above 65,536 octets.
    TooLong {
        /// Where the reader or the writer stood.
        place: u32,
        /// The length.
        length: u32,
    },
    /// The octet that tells an encapsulation's byte order is neither 0 nor 1.
    BadOrder(u32),
    /// Memory ran out.
    Memory,
}

impl From<AllocError> for CdrFault {
    ghost from_gives = { λ _ fault. fault ≡ Memory };

    fn from(_error: AllocError) -> CdrFault {
        CdrFault::Memory
    }
}
