//! Transaction contexts: the PropagationContext that a request carries, and its octets.
#![tactic(auto)]

pub use context::{AnyTail, Context, Identities, Identity};
pub use decoding::{decode_context, find_context, read_context};
pub use encoding::{PARENT_LIMIT, encode_context, write_context};
pub use fault::ContextFault;
pub use identity::write_reference;
pub use laws::{
    contexts_are_read_exactly, contexts_are_read_where_written, contexts_stand_exactly,
    tails_stand_where_read_again, written_contexts_are_read_again,
};

mod context;
mod decoding;
mod encoding;
mod fault;
mod identity;
mod laws;
mod tail;
