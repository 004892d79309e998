ghost use Rattle.std.specs.Prelude.{◌≡◌};
ghost use Rattle.ots_outside.specs.Net.{door_faults, door_given};
ghost use Rattle.ots_outside.specs.Source.{CountsWithin};

use crate::door::Door;
use crate::sink::Sink;
use crate::source::{Failed, Source};
use std::alloc::Global;
use std::io::{ErrorKind, Read, Write};
use std::net::{Net, TcpListener, TcpStream};
use std::sync::Arc;
use std::sync::atomic::{AtomicU64, Ordering};
use std::time::{Clock, Duration};
use std::{io, thread};

/// The message CloseConnection.
const CLOSE: [u8; 12] = *b"GIOP\x01\x02\x00\x05\x00\x00\x00\x00";

/// After how many seconds without an octet a connection is ended.
const IDLE_SECONDS: u32 = 150;

/// After how many it is ended while others wait.
const CROWDED_SECONDS: u32 = 5;

/// How long a peer may take for what is written to it.
const WRITE_SECONDS: u64 = 15;

/// Where the door stands.
#[derive(Drop)]
pub struct Address {
    /// The name or the address of the machine.
    pub host: String,
    /// The port.
    pub port: u16,
}

/// A door over TCP, which never ends. The connections that it gives end by themselves where no octet comes for long.
#[derive(Drop)]
pub struct TcpDoor<R> {
    rt: R,
    address: Address,
    listener: Option<TcpListener>,
    open: Arc<AtomicU64, Global>,
    crowd: u64,
    given: u64,
    faults: u64,
}

/// A connection over TCP. Where no octet comes for long it is told to end, and then its input is at its end.
#[derive(Drop)]
pub struct TcpConn {
    stream: TcpStream,
    seat: Seat,
    crowd: u64,
    faults: u64,
}

/// A place among the connections that are open, which is free again when it is dropped.
struct Seat {
    open: Arc<AtomicU64, Global>,
}

impl Drop for Seat {
    fn drop(self) {
        let Seat { open } = self;
        open.fetch_sub(1, Ordering::SeqCst);
    }
}

impl<R: Net<Listener = TcpListener, Stream = TcpStream> + Clock> TcpDoor<R> {
    /// A door at this address. So many connections at once are a crowd, in which none may be idle for long.
    pub fn new(rt: R, open: Arc<AtomicU64, Global>, address: Address, crowd: u64) -> TcpDoor<R>
        ensures faults { door_faults result ≡ 0 }
        ensures given { door_given result ≡ 0 }
    {
        TcpDoor {
            rt,
            address,
            listener: None,
            open,
            crowd,
            given: 0,
            faults: 0,
        }
    }

    /// The port at which it listens, where it is open: with port 0 the system has chosen one.
    pub fn port(&self) -> Option<u16> {
        let place = self.listener.as_ref()?.local_addr().ok()?;
        Some(place.port())
    }

    /// The next connection, without its options. A connection that was gone before it was taken is passed over; while the system
    /// has no room for one, it waits.
    fn accept(&self) -> io::Result<TcpStream> {
        let Some(listener) = &self.listener else {
            return Err(ErrorKind::NotConnected.into());
        };
        for _ in 0..u64::MAX {
            match listener.accept() {
                Ok((stream, _)) => return Ok(stream),
                Err(error) if is_passing(&error) => {}
                Err(error) if is_full(&error) => {
                    thread::sleep(&self.rt, Duration::from_millis(100));
                }
                Err(error) => return Err(error),
            }
        }
        Err(ErrorKind::TimedOut.into())
    }

    /// The connection over a stream.
    fn connection(&self, stream: TcpStream) -> io::Result<TcpConn> {
        stream.set_nodelay(true)?;
        stream.set_read_timeout(Some(Duration::from_secs(1)))?;
        stream.set_write_timeout(Some(Duration::from_secs(WRITE_SECONDS)))?;
        let open = Arc::try_clone(&self.open)?;
        open.fetch_add(1, Ordering::SeqCst);
        Ok(TcpConn {
            stream,
            seat: Seat { open },
            crowd: self.crowd,
            faults: 0,
        })
    }
}

/// Whether an accept failed by what its peer did, or was interrupted.
fn is_passing(error: &io::Error) -> bool {
    matches!(
        error.kind(),
        ErrorKind::Interrupted | ErrorKind::ConnectionAborted
    )
}

/// Whether an accept failed since too many files are open (EMFILE, ENFILE).
fn is_full(error: &io::Error) -> bool {
    matches!(error.raw_os_error(), Some(23 | 24))
}

impl<R: Net<Listener = TcpListener, Stream = TcpStream> + Clock> Door for TcpDoor<R> {
    ghost use Rattle.std.specs.Prelude.{false};

    type Conn = TcpConn;

    ghost faults = { λ door. door.faults };

    ghost given = { λ door. door.given };

    ghost ended = { λ _. false };

    fn open(&mut self) -> Result<(), Failed> {
        match TcpListener::bind(&self.rt, (self.address.host.as_str(), self.address.port)) {
            Ok(listener) => {
                self.listener = Some(listener);
                Ok(())
            }
            Err(_) => Err(Failed::counted(&mut self.faults)),
        }
    }

    fn next(&mut self) -> Result<Option<TcpConn>, Failed> {
        let taken = match self.accept() {
            Ok(stream) => self.connection(stream),
            Err(error) => Err(error),
        };
        match taken {
            Ok(conn) => {
                self.given = self.given.saturating_add(1);
                Ok(Some(conn))
            }
            Err(_) => Err(Failed::counted(&mut self.faults)),
        }
    }
}

/// Whether a read failed since it was interrupted, or since no octet came for a while.
fn is_no_end(error: &io::Error) -> bool {
    matches!(error.kind(), ErrorKind::Interrupted | ErrorKind::WouldBlock)
}

impl Seat {
    /// Whether a connection is to end that was idle for so many seconds, where so many at once are a crowd.
    fn is_over(&self, crowd: u64, idle: u32) -> bool {
        let crowded = self.open.load(Ordering::SeqCst) >= crowd;
        idle >= if crowded {
            CROWDED_SECONDS
        } else {
            IDLE_SECONDS
        }
    }
}

impl Source for TcpConn {
    ghost use Rattle.std.specs.Prelude.{None};

    ghost faults = { λ conn. conn.faults };

    ghost remaining = { λ _. None };

    fn read(&mut self, into: &mut [u8]) -> Result<usize, Failed> {
        match read_in_time(&mut self.stream, &self.seat, self.crowd, into) {
            Ok(count) => Ok(count),
            Err(_) => Err(Failed::counted(&mut self.faults)),
        }
    }
}

/// Reads what comes next. Where nothing comes for long, the peer is told that the connection ends, and there is no further
/// octet.
fn read_in_time(
    stream: &mut TcpStream,
    seat: &Seat,
    crowd: u64,
    into: &mut [u8],
) -> io::Result<usize>
    ensures { CountsWithin result into.old }
{
    for idle in 0..IDLE_SECONDS {
        if seat.is_over(crowd, idle) {
            break;
        }
        match stream.read(into) {
            Ok(count) => return Ok(count),
            Err(error) if is_no_end(&error) => {}
            Err(error) => return Err(error),
        }
    }
    let _ = stream.write_all(&CLOSE);
    Ok(0)
}

impl Sink for TcpConn {
    ghost use Rattle.std.specs.Prelude.{None};

    ghost faults = { λ conn. conn.faults };

    ghost taken = { λ _. None };

    fn write(&mut self, bytes: &[u8]) -> Result<(), Failed> {
        match self.stream.write_all(bytes) {
            Ok(()) => Ok(()),
            Err(_) => Err(Failed::counted(&mut self.faults)),
        }
    }
}
