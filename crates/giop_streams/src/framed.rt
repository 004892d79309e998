ghost use Rattle.std.specs.Prelude.{◌≡◌, Ok, Some};
ghost use Rattle.giop_streams.specs.Stream.{whole};

use cdr_values::Order;
use giop_frames::{Content, Header, Message, Version};

/// A message of a stream, and what the header of its first part says.
#[derive(Drop)]
pub struct Framed {
    /// The offset of the first part in the stream, at most 2^64 - 1.
    pub place: u64,
    /// The version of the message.
    pub version: Version,
    /// The byte order of the first part.
    pub order: Order,
    /// How many octets stand behind the header in the first part.
    pub size: u32,
    /// The offset modulo 8 at which what the message keeps behind its fields begins, by which values in it are aligned.
    /// In version 1.2 a body begins at 0.
    pub start: u32,
    /// The message itself.
    pub message: Message,
}

/// A message whose first part has this place and header.
pub fn frame(place: u64, header: Header, found: Content) -> Framed
    ensures { Ok (Some result) ≡ whole place header found.start (Ok found.message) }
{
    Framed {
        place,
        version: header.version,
        order: header.order,
        size: header.size,
        start: found.start,
        message: found.message,
    }
}
