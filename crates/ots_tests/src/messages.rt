//! Tests of a stream of messages.

use giop_frames::{FrameFault, Message};
use giop_streams::Stream;
use std::alloc::AllocError;
use std::test::Fail;

/// The octets of a CloseConnection.
const CLOSE: &[u8; 12] = b"GIOP\x01\x02\x01\x05\0\0\0\0";

fn feed(stream: &mut Stream) -> Result<(), FrameFault> {
    stream.feed(CLOSE)
}

fn next(stream: &mut Stream) -> Result<Option<Message>, FrameFault> {
    stream.next()
}

#[test]
fn a_stream_gives_what_it_was_fed(rt: HostRuntime) -> Result<(), Fail> {
    let mut stream = Stream::new(rt.alloc());
    feed(&mut stream)?;
    assert!(rt; matches!(next(&mut stream)?, Some(Message::Close)));
    Ok(())
}

/// It is more than what a stream keeps memory for, so some is taken beside it.
#[test]
fn a_stream_takes_memory_ahead(rt: HostRuntime) -> Result<(), AllocError> {
    Stream::new(rt.alloc()).reserve(300_000)
}
