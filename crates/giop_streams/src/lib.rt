//! Streams of messages of the General Inter-ORB Protocol: octets that come in pieces, and messages in several parts.
#![tactic(auto)]

pub use framed::Framed;
pub use laws::{
    a_framed_message_is_its_content, a_refusal_stays, a_stream_is_cut_in_one_way,
    fragments_join_by_request_id, octets_end_in_one_way,
};
pub use stream::Stream;
pub use stream_laws::parts_belong_to_messages;

mod buffer;
mod framed;
mod laws;
mod parts;
mod stream;
mod stream_laws;
mod unfinished;
