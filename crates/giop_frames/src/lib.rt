//! Messages of the General Inter-ORB Protocol: what octets spell them, and how they are written and read. Each call
//! that names no version is of version 1.2; the layouts of that version are the ones that are known.
#![tactic(auto)]

pub use content::{Content, finish_message, read_message};
pub use decoding::{Decoded, decode, decode_as};
pub use encoding::{encode, encode_as};
pub use fault::{CONTEXT_LIMIT, FrameFault, KEY_LIMIT, PROFILE_LIMIT, SIZE_LIMIT};
pub use header::{HEADER_LENGTH, Header, Kind, behind, front, read_header};
pub use header_walk::HeaderWalk;
pub use laws::{
    a_message_is_its_content, bodies_begin_at_eight, headers_are_read_exactly,
    no_message_begins_another,
};
pub use layout::{Version, profile_versions};
pub use message::{Contexts, Locate, Located, Message, Reply, Request, ServiceContext, Target};
pub use walk::Walk;

mod content;
mod decoding;
mod encoding;
mod fault;
mod fields;
mod found;
mod header;
mod header_walk;
mod laws;
mod layout;
mod message;
mod sink;
mod told;
mod walk;
