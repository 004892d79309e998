//! Object references and the object keys in them: their octets, their stringified form, and what an IIOP profile says.
#![tactic(auto)]

pub use fault::IorFault;
pub use key::{KEY_LENGTH, ObjectKey, key_octets, key_of};
pub use laws::{
    profiles_are_read_exactly, references_are_read_again, references_are_read_exactly,
    references_are_read_where_written, same_octets_same_key, same_octets_same_reference,
    texts_are_read_exactly,
};
pub use location::iiop;
pub use making::make_ref;
pub use profile::Iiop;
pub use reference::{ObjectRef, read_ref, write_ref};
pub use text::{parse_ior, print_ior};

mod fault;
mod key;
mod laws;
mod location;
mod making;
mod profile;
mod reference;
mod tagged;
mod text;
