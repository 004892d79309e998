//! Tests of what is over the network, threads, the system's clock and a locked file, and of the same in memory.

use ots_model::{Endpoint, Octets};
use ots_outside::{
    Address, Clock, Disk, Door, Failed, Job, Link, LinkRefusal, LockedFile, MemClock, MemConn,
    MemDoor, MemLink, MemSink, MemSource, Sink, Source, Spawner, SystemClock, TcpConn, TcpDoor,
    TcpLink,
};
use std::alloc::Global;
use std::collections::VecDeque;
use std::net::{Net, TcpListener, TcpStream, ToSocketAddrs};
use std::sync::Arc;
use std::sync::atomic::{AtomicU64, Ordering};
use std::test::Fail;
use std::time::Duration;
use std::{fs, time};

/// A request, and what it is answered: two messages without a body.
const REQUEST: [u8; 12] = *b"GIOP\x01\x02\x00\x00\x00\x00\x00\x00";

const REPLY: [u8; 12] = *b"GIOP\x01\x02\x00\x01\x00\x00\x00\x00";

/// The header of a reply that has 60 octets behind it.
const LONG: &[u8] = b"GIOP\x01\x02\x00\x01\x00\x00\x00\x3c";

/// A reply in two parts: the first in little endian with two octets behind its header, the second in big endian with one.
const PARTS: &[u8] = b"GIOP\x01\x02\x03\x01\x02\x00\x00\x00abGIOP\x01\x02\x00\x07\x00\x00\x00\x01c";

/// Answers one connection.
#[derive(Drop)]
struct Answerer<R> {
    door: TcpDoor<R>,
    reply: &'static [u8],
}

impl<R: Net<Listener = TcpListener, Stream = TcpStream> + time::Clock + Drop> Job for Answerer<R> {
    fn turn(&mut self) -> bool {
        if let Ok(Some(mut conn)) = self.door.next() {
            let _ = answer(&mut conn, self.reply);
        }
        false
    }
}

/// Reads a request, and writes the reply.
fn answer(conn: &mut TcpConn, reply: &[u8]) -> Result<(), Failed> {
    let mut octets = [0; 12];
    let mut count = 0;
    for _ in 0..12 {
        if count < 12 {
            count += conn.read(&mut octets[count..])?;
        }
    }
    if octets == REQUEST {
        conn.write(reply)?;
    }
    Ok(())
}

/// A door on this machine, at a port that the system chooses.
fn door_here(rt: HostRuntime) -> Result<TcpDoor<HostRuntime>, Fail> {
    let open = Arc::new(rt.alloc(), AtomicU64::new(0))?;
    let host = String::from_str(rt.alloc(), "127.0.0.1")?;
    Ok(TcpDoor::new(rt, open, Address { host, port: 0 }, 64))
}

/// A link's answer to a request at this port of this machine.
fn answered(rt: HostRuntime, port: u16) -> Result<Vec<u8>, Fail> {
    let host = Octets::new(rt.alloc(), b"127.0.0.1")?;
    let mut link = TcpLink::new(rt, rt.alloc());
    let mut octets = Vec::new(rt.alloc());
    match link.invoke(&Endpoint { host, port }, &REQUEST, &mut octets) {
        Ok(()) => Ok(octets),
        Err(_) => Err("no answer".into()),
    }
}

#[test]
fn a_link_is_answered_at_a_door(rt: HostRuntime) -> Result<(), Fail> {
    let mut door = door_here(rt)?;
    assert!(rt; door.open().is_ok());
    let port = door.port().unwrap_or(0);
    let reply = &REPLY;
    assert!(rt; Spawner::on_threads(rt).start(Answerer { door, reply }));
    assert!(rt; answered(rt, port)?.as_slice() == REPLY.as_slice());
    Ok(())
}

#[test]
fn a_link_reads_a_reply_in_parts(rt: HostRuntime) -> Result<(), Fail> {
    let mut door = door_here(rt)?;
    assert!(rt; door.open().is_ok());
    let port = door.port().unwrap_or(0);
    let reply = PARTS;
    assert!(rt; Spawner::on_threads(rt).start(Answerer { door, reply }));
    assert!(rt; answered(rt, port)?.as_slice() == PARTS);
    Ok(())
}

/// Takes one connection, reads a request, writes these octets, and then the others, once in each second, until the other side is
/// over.
#[derive(Drop)]
struct Hanging<R> {
    door: TcpDoor<R>,
    octets: &'static [u8],
    others: &'static [u8],
    over: Arc<AtomicU64, Global>,
    clock: SystemClock<R>,
}

impl<R: Net<Listener = TcpListener, Stream = TcpStream> + time::Clock + Drop> Job for Hanging<R> {
    fn turn(&mut self) -> bool {
        if let Ok(Some(mut conn)) = self.door.next() {
            let _ = answer(&mut conn, self.octets);
            for _ in 0..40 {
                if self.over.load(Ordering::SeqCst) == 0 {
                    let _ = conn.write(self.others);
                    self.clock.pause();
                }
            }
        }
        false
    }
}

/// A peer that writes these octets, and then the others in each second, until the other side is over.
fn peer_saying(
    rt: HostRuntime,
    octets: &'static [u8],
    others: &'static [u8],
    over: &Arc<AtomicU64, Global>,
) -> Result<Hanging<HostRuntime>, Fail> {
    let mut door = door_here(rt)?;
    if door.open().is_err() {
        return Err("no door".into());
    }
    Ok(Hanging {
        door,
        octets,
        others,
        over: Arc::try_clone(over)?,
        clock: SystemClock::new(rt),
    })
}

/// Whether a link to this port fails once, so many seconds later at least, and fewer than 30.
fn fails_late(rt: HostRuntime, port: u16, least: u64) -> Result<bool, Fail> {
    let mut clock = SystemClock::new(rt);
    let start = clock.now();
    let host = Octets::new(rt.alloc(), b"127.0.0.1")?;
    let mut link = TcpLink::new(rt, rt.alloc());
    let mut reply = Vec::new(rt.alloc());
    let heard = link.invoke(&Endpoint { host, port }, &REQUEST, &mut reply);
    let seconds = clock.now().saturating_sub(start);
    let is_unsaid = heard == Err(LinkRefusal::Failed) && reply.is_empty();
    Ok(is_unsaid && link.faults() == 1 && seconds >= least && seconds < 30)
}

#[test]
fn a_link_fails_whose_peer_says_nothing(rt: HostRuntime) -> Result<(), Fail> {
    let over = Arc::new(rt.alloc(), AtomicU64::new(0))?;
    let peer = peer_saying(rt, &[], &[], &over)?;
    let port = peer.door.port().unwrap_or(0);
    assert!(rt; Spawner::on_threads(rt).start(peer));
    assert!(rt; fails_late(rt, port, 13)?);
    over.store(1, Ordering::SeqCst);
    Ok(())
}

#[test]
fn a_link_fails_whose_peer_says_half_a_header(rt: HostRuntime) -> Result<(), Fail> {
    let over = Arc::new(rt.alloc(), AtomicU64::new(0))?;
    let peer = peer_saying(rt, &REPLY[..6], &[], &over)?;
    let port = peer.door.port().unwrap_or(0);
    assert!(rt; Spawner::on_threads(rt).start(peer));
    assert!(rt; fails_late(rt, port, 13)?);
    over.store(1, Ordering::SeqCst);
    Ok(())
}

#[test]
fn a_link_fails_whose_peer_says_an_octet_a_second(rt: HostRuntime) -> Result<(), Fail> {
    let over = Arc::new(rt.alloc(), AtomicU64::new(0))?;
    let peer = peer_saying(rt, LONG, &[0], &over)?;
    let port = peer.door.port().unwrap_or(0);
    assert!(rt; Spawner::on_threads(rt).start(peer));
    assert!(rt; fails_late(rt, port, 13)?);
    over.store(1, Ordering::SeqCst);
    Ok(())
}

/// Connects to a port of this machine until no more are taken there, and gives the connections.
fn crowd_at(rt: HostRuntime, port: u16) -> Result<Vec<TcpStream>, Fail> {
    let mut waiting = Vec::new(rt.alloc());
    let mut addresses = ("127.0.0.1", port).to_socket_addrs(&rt)?;
    let Some(address) = addresses.next() else {
        return Err("no address".into());
    };
    for _ in 0..900 {
        match TcpStream::connect_timeout(&rt, &address, Duration::from_secs(1)) {
            Ok(stream) => waiting.push(stream)?,
            Err(_) => return Ok(waiting),
        }
    }
    Err("all were taken".into())
}

#[test]
fn a_link_fails_that_is_not_taken(rt: HostRuntime) -> Result<(), Fail> {
    let mut door = door_here(rt)?;
    assert!(rt; door.open().is_ok());
    let port = door.port().unwrap_or(0);
    let waiting = crowd_at(rt, port)?;
    assert!(rt; !waiting.is_empty() && fails_late(rt, port, 2)?);
    Ok(())
}

/// Counts its turns, of which there are three.
#[derive(Drop)]
struct Counting {
    turns: Arc<AtomicU64, Global>,
}

impl Job for Counting {
    fn turn(&mut self) -> bool {
        self.turns.fetch_add(1, Ordering::SeqCst) < 2
    }
}

#[test]
fn a_job_is_turned_on_its_thread(rt: HostRuntime) -> Result<(), Fail> {
    let turns = Arc::new(rt.alloc(), AtomicU64::new(0))?;
    let job = Counting {
        turns: Arc::try_clone(&turns)?,
    };
    assert!(rt; Spawner::on_threads(rt).start(job));
    let mut clock = SystemClock::new(rt);
    for _ in 0..20 {
        if turns.load(Ordering::SeqCst) < 3 {
            clock.pause();
        }
    }
    assert!(rt; turns.load(Ordering::SeqCst) == 3);
    Ok(())
}

#[test]
fn the_clock_goes_on(rt: HostRuntime) -> Result<(), Fail> {
    let mut clock = SystemClock::new(rt);
    let start = clock.now();
    clock.pause();
    clock.pause();
    // The year 2020 is past.
    assert!(rt; start > 1_577_836_800 && clock.now() > start);
    Ok(())
}

#[test]
fn a_file_has_one_disk(rt: HostRuntime) -> Result<(), Fail> {
    let mut disk = LockedFile::open(&rt, "ots_locked_file");
    assert!(rt; disk.write_at(0, b"abcd").is_ok() && disk.write_at(3, b"ef").is_ok());
    assert!(rt; disk.sync().is_ok());
    let mut other = LockedFile::open(&rt, "ots_locked_file");
    assert!(rt; other.len().is_err() && other.write_at(0, b"x").is_err() && other.sync().is_err());
    assert!(rt; other.fault_count() == 3);
    let mut kept = [0; 5];
    assert!(rt; disk.read_at(0, &mut kept).is_ok() && kept == *b"abcef" && disk.len() == Ok(5));
    fs::remove_file(&rt, "ots_locked_file")?;
    Ok(())
}

#[test]
fn a_file_that_cannot_be_opened_has_no_disk(rt: HostRuntime) -> Result<(), Fail> {
    let mut disk = LockedFile::open(&rt, "ots_no_such_folder/file");
    assert!(rt; disk.len().is_err() && disk.read_at(0, &mut [0]).is_err());
    assert!(rt; disk.write_at(0, b"x").is_err() && disk.sync().is_err());
    assert!(rt; disk.fault_count() == 4);
    Ok(())
}

#[test]
fn a_link_in_memory_gives_its_answers(rt: HostRuntime) -> Result<(), Fail> {
    let alloc = rt.alloc();
    let mut answers = Vec::new(alloc);
    answers.push(Octets::new(alloc, &REPLY)?)?;
    let mut link = MemLink::new(alloc, answers, Vec::new(alloc));
    let host = Octets::new(alloc, b"a")?;
    let to = Endpoint { host, port: 1 };
    let mut reply = Vec::new(alloc);
    assert!(rt; link.invoke(&to, &REQUEST, &mut reply).is_ok());
    assert!(rt; reply.as_slice() == REPLY.as_slice());
    assert!(rt; link.invoke(&to, &REQUEST, &mut reply) == Err(LinkRefusal::Failed));
    assert!(rt; link.faults() == 1 && link.exchanges().len() == 2);
    Ok(())
}

#[test]
fn a_door_in_memory_ends_behind_its_connections(rt: HostRuntime) -> Result<(), Fail> {
    let alloc = rt.alloc();
    let mut contents = Vec::new(alloc);
    contents.extend_from_slice(&REQUEST)?;
    let mut waiting = VecDeque::new(alloc);
    waiting.push_back(MemConn {
        source: MemSource::new(contents, Vec::new(alloc)),
        sink: MemSink::new(alloc, Vec::new(alloc)),
    })?;
    let mut door = MemDoor::new(waiting, Vec::new(alloc));
    assert!(rt; door.open().is_ok() && matches!(door.next(), Ok(Some(_))));
    assert!(rt; matches!(door.next(), Ok(None)));
    Ok(())
}

#[test]
fn a_job_may_be_turned_at_once(rt: HostRuntime) -> Result<(), Fail> {
    let turns = Arc::new(rt.alloc(), AtomicU64::new(0))?;
    let job = Counting {
        turns: Arc::try_clone(&turns)?,
    };
    let mut spawner: Spawner<HostRuntime> = Spawner::at_once(10, Vec::new(rt.alloc()));
    assert!(rt; spawner.start(job) && turns.load(Ordering::SeqCst) == 3);
    let mut clock = MemClock::new(5);
    clock.pause();
    assert!(rt; clock.now() == 6);
    Ok(())
}

#[test]
fn a_spawner_refuses_what_is_listed(rt: HostRuntime) -> Result<(), Fail> {
    let turns = Arc::new(rt.alloc(), AtomicU64::new(0))?;
    let mut failing = Vec::new(rt.alloc());
    failing.push(0)?;
    let mut spawner: Spawner<HostRuntime> = Spawner::at_once(2, failing);
    let first = Counting {
        turns: Arc::try_clone(&turns)?,
    };
    assert!(rt; !spawner.start(first) && turns.load(Ordering::SeqCst) == 0);
    let second = Counting {
        turns: Arc::try_clone(&turns)?,
    };
    // It is turned twice at most.
    assert!(rt; spawner.start(second) && turns.load(Ordering::SeqCst) == 2);
    Ok(())
}
