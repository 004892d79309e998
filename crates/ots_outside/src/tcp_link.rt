ghost use Rattle.std.specs.Prelude.{◌≡◌};
ghost use Rattle.ots_outside.specs.Net.{tcp_faults};

use crate::link::{Link, LinkRefusal};
use crate::source::Failed;
use byteorder::{BigEndian, ByteOrder, LittleEndian};
use ots_model::Endpoint;
use std::alloc::Global;
use std::io::{ErrorKind, Read, Write};
use std::net::{Net, OpenStream, SocketAddr, TcpStream, ToSocketAddrs};
use std::time::{Clock, Duration, Instant};
use std::{io, str};

/// How long a peer may take until it is connected.
const CONNECT_SECONDS: u64 = 3;

/// How long a peer may take from then on until it has answered.
const ANSWER_SECONDS: u64 = 15;

/// How many octets the header of a message has.
const HEADER: usize = 12;

/// How many octets stand behind the header of a part at most.
const SIZE_LIMIT: u32 = 65_536;

/// How many octets all parts of a message have at most.
const MESSAGE_LIMIT: usize = 1_048_576;

/// A link over TCP: one connection for each call. A peer that can't be reached, hangs up or takes too long is a failure,
/// which counts as one fault. It tells nothing of what is exchanged.
#[derive(Drop)]
pub struct TcpLink<R> {
    rt: R,
    alloc: Global,
    faults: u64,
}

impl<R: Net + Clock> TcpLink<R> {
    /// A link over this network, without faults.
    pub fn new(rt: R, alloc: Global) -> TcpLink<R>
        ensures { tcp_faults result ≡ 0 }
    {
        TcpLink {
            rt,
            alloc,
            faults: 0,
        }
    }

    /// How many calls have failed.
    pub fn faults(&self) -> u64
        ensures { result ≡ tcp_faults self.now }
    {
        self.faults
    }
}

impl<R: Net + Clock> Link for TcpLink<R> {
    ghost use Rattle.std.specs.Prelude.{None};

    ghost faults = { λ link. link.faults };

    ghost exchanged = { λ _. None };

    fn invoke(
        &mut self,
        to: &Endpoint,
        request: &[u8],
        reply: &mut Vec<u8>,
    ) -> Result<(), LinkRefusal> {
        match exchange(&self.rt, self.alloc, to, request) {
            Ok(octets) => {
                reply.extend_from_slice(octets.as_slice())?;
                Ok(())
            }
            Err(error) if error.kind() == ErrorKind::OutOfMemory => Err(LinkRefusal::Memory),
            Err(_) => {
                Failed::counted(&mut self.faults);
                Err(LinkRefusal::Failed)
            }
        }
    }
}

/// Sends the request to the place and reads the answer.
fn exchange<R: Net + Clock>(
    rt: &R,
    alloc: Global,
    to: &Endpoint,
    request: &[u8],
) -> io::Result<Vec<u8>> {
    let mut stream = connect(rt, to)?;
    let start = Instant::now(rt)?;
    stream.set_nodelay(true)?;
    stream.set_write_timeout(Some(Duration::from_secs(ANSWER_SECONDS)))?;
    stream.write_all(request)?;
    let mut reply = Vec::new(alloc);
    read_message(rt, start, &mut stream, &mut reply)?;
    Ok(reply)
}

/// A connection to the place, by the first of its addresses that answers.
fn connect<R: Net>(rt: &R, to: &Endpoint) -> io::Result<R::Stream> {
    let Ok(host) = str::from_utf8(to.host.bytes()) else {
        return Err(ErrorKind::InvalidInput.into());
    };
    let mut last = io::Error::from(ErrorKind::InvalidInput);
    for address in (host, to.port).to_socket_addrs(rt)? {
        match connect_to(rt, &address) {
            Ok(stream) => return Ok(stream),
            Err(error) => last = error,
        }
    }
    Err(last)
}

fn connect_to<R: Net>(rt: &R, address: &SocketAddr) -> io::Result<R::Stream> {
    TcpStream::connect_timeout(rt, address, Duration::from_secs(CONNECT_SECONDS))
}

/// Reads the parts of a message, up to the first one without the "more fragments" bit.
fn read_message<R: Clock, S: Read + OpenStream>(
    rt: &R,
    start: Instant,
    stream: &mut S,
    reply: &mut Vec<u8>,
) -> io::Result<()> {
    for _ in 0..MESSAGE_LIMIT {
        if !read_part(rt, start, stream, reply)? {
            return Ok(());
        }
    }
    Err(ErrorKind::InvalidData.into())
}

/// Reads a part of a message, and says whether it has the "more fragments" bit.
fn read_part<R: Clock, S: Read + OpenStream>(
    rt: &R,
    start: Instant,
    stream: &mut S,
    reply: &mut Vec<u8>,
) -> io::Result<bool> {
    let mut header = [0; HEADER];
    read_whole(rt, start, stream, &mut header)?;
    let size = size_in(&header);
    if size > SIZE_LIMIT || reply.len() + HEADER + size as usize > MESSAGE_LIMIT {
        return Err(ErrorKind::InvalidData.into());
    }
    reply.extend_from_slice(&header)?;
    let from = reply.len();
    reply.resize(from + size as usize, 0)?;
    read_whole(rt, start, stream, &mut reply.as_mut_slice()[from..])?;
    Ok(header[6] & 2 != 0)
}

/// How many octets stand behind a header.
fn size_in(header: &[u8; HEADER]) -> u32 {
    if header[6] & 1 == 0 {
        BigEndian::read_u32(&header[8..])
    } else {
        LittleEndian::read_u32(&header[8..])
    }
}

/// Fills the piece, as long as the peer has time.
fn read_whole<R: Clock, S: Read + OpenStream>(
    rt: &R,
    start: Instant,
    stream: &mut S,
    into: &mut [u8],
) -> io::Result<()> {
    let mut filled = 0;
    for _ in 0..u64::MAX {
        if filled >= into.len() {
            return Ok(());
        }
        stream.set_read_timeout(Some(time_left(rt, start)?))?;
        match stream.read(&mut into[filled..]) {
            Ok(0) => return Err(ErrorKind::UnexpectedEof.into()),
            Ok(count) => filled += count,
            Err(error) if error.kind() == ErrorKind::Interrupted => {}
            Err(error) => return Err(error),
        }
    }
    Err(ErrorKind::TimedOut.into())
}

/// How much time the peer has left that was called at this moment.
fn time_left<R: Clock>(rt: &R, start: Instant) -> io::Result<Duration> {
    let passed = start.elapsed(rt)?;
    match Duration::from_secs(ANSWER_SECONDS).checked_sub(passed) {
        Some(left) if !left.is_zero() => Ok(left),
        _ => Err(ErrorKind::TimedOut.into()),
    }
}
