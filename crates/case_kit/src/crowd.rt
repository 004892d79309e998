//! A door in memory with more connections than servants, where each session has a thread of its own.

use crate::client::Batch;
use crate::counts::{CaseClock, Counts, Shared, held};
use crate::house::{Host, House};
use crate::links::{HeldLink, Replies, Way};
use crate::sessions::serve_at;
use crate::tell::tell_replies;
use crate::told_door::{Sent, none_sent};
use ots_outside::{Door, Failed, MemConn, MemDoor, MemSink, MemSource, Sink, Source, Spawner};
use std::alloc::Global;
use std::collections::VecDeque;
use std::io;
use std::io::Write;
use std::sync::Wait;

/// How many connections wait at the door.
const CONNECTIONS: u32 = 4;

/// How many servants there are: two for sessions, and one for ticks.
const SERVERS: u32 = 3;

/// What a connection of a crowd has beside its octets.
#[derive(Drop)]
struct Seat {
    counts: Shared,
    sent: Sent,
    is_begun: bool,
}

/// A connection of a crowd.
#[derive(Drop)]
struct CrowdConn<R> {
    rt: R,
    conn: MemConn,
    seat: Option<Seat>,
}

impl<R: Wait> Source for CrowdConn<R> {
    ghost use Rattle.std.specs.Prelude.{Some};

    ghost faults = { λ crowded. (crowded.conn).source.faults };

    ghost remaining = { λ crowded. Some (crowded.conn).source.left };

    fn read(&mut self, into: &mut [u8]) -> Result<usize, Failed> {
        if let Some(seat) = &mut self.seat {
            seat.begin();
        }
        let read = self.conn.read(into);
        if let (Some(seat), Ok(0)) = (&self.seat, &read) {
            seat.counts.end(&self.rt);
        }
        read
    }
}

impl Seat {
    /// Its connection is read from.
    fn begin(&mut self) {
        if !self.is_begun {
            self.is_begun = true;
            self.counts.begin();
        }
    }
}

impl<R: Wait> Sink for CrowdConn<R> {
    ghost use Rattle.std.specs.Prelude.{Some};

    ghost faults = { λ crowded. (crowded.conn).sink.faults };

    ghost taken = { λ crowded. Some (crowded.conn).sink.octets };

    fn write(&mut self, bytes: &[u8]) -> Result<(), Failed> {
        if let Some(seat) = &self.seat {
            let _ = seat.sent.lock(&self.rt).extend_from_slice(bytes);
        }
        self.conn.write(bytes)
    }
}

/// The door of a crowd.
#[derive(Drop)]
struct CrowdDoor<R> {
    rt: R,
    door: MemDoor,
    seats: VecDeque<Seat>,
    counts: Shared,
    given: u64,
}

impl<R: Wait + Copy + Send + Drop + 'static> Door for CrowdDoor<R> {
    type Conn = CrowdConn<R>;

    ghost faults = { λ crowd. (crowd.door).faults };

    ghost given = { λ crowd. (crowd.door).given };

    ghost ended = { λ crowd. (crowd.door).ended };

    fn open(&mut self) -> Result<(), Failed> {
        self.door.open()
    }

    fn next(&mut self) -> Result<Option<CrowdConn<R>>, Failed> {
        self.counts.ask(&self.rt, self.given);
        match self.door.next() {
            Ok(Some(conn)) => {
                self.given = self.given.saturating_add(1);
                Ok(Some(CrowdConn {
                    rt: self.rt,
                    conn,
                    seat: self.seats.pop_front(),
                }))
            }
            Ok(None) => Ok(None),
            Err(failed) => Err(failed),
        }
    }
}

/// What a crowd is of.
#[derive(Drop)]
pub struct Crowd<'a> {
    counts: Shared,
    batch: Batch<'a>,
    sent: Vec<Sent>,
}

impl<'a> Crowd<'a> {
    /// A crowd of clients, each of which sends this batch.
    pub fn new(alloc: Global, batch: Batch<'a>) -> io::Result<Crowd<'a>> {
        let mut sent = Vec::new(alloc);
        for _ in 0..CONNECTIONS {
            sent.push(none_sent(alloc)?)?;
        }
        Ok(Crowd {
            counts: Counts::new(alloc)?,
            batch,
            sent,
        })
    }

    /// Serves it, and tells what comes of it.
    pub fn serve<R: Host, H: House<R>>(
        &self,
        rt: &R,
        alloc: Global,
        house: &mut H,
        told: &mut Vec<u8>,
    ) -> io::Result<()> {
        let servers = self.servers(rt, alloc, house)?;
        let mut door = self.door(rt, alloc)?;
        let mut spawner = Spawner::on_threads(*rt);
        let end = serve_at(rt, alloc, servers, &mut door, &mut spawner)?;
        let mut counted = Vec::new(alloc);
        self.counts.tell(rt, SERVERS, &mut counted)?;
        let asked = self.batch.asked.as_slice();
        for one in self.sent.as_slice() {
            let octets = one.lock(rt).to_vec(alloc)?;
            tell_replies(alloc, told, "", octets.as_slice(), asked)?;
        }
        told.write_all(counted.as_slice())?;
        writeln!(told, "door: {end:?}")
    }

    /// The servants.
    fn servers<R: Host, H: House<R>>(
        &self,
        rt: &R,
        alloc: Global,
        house: &mut H,
    ) -> io::Result<Vec<H::Server>> {
        let mut links = Vec::new(alloc);
        let mut clocks = Vec::new(alloc);
        for _ in 0..SERVERS {
            links.push(HeldLink::new(*rt, alloc, Replies::new(alloc), Way::Plain))?;
            clocks.push(CaseClock::counted(*rt, held(&self.counts)?))?;
        }
        house.servers(links, clocks)
    }

    /// The door.
    fn door<R: Host>(&self, rt: &R, alloc: Global) -> io::Result<CrowdDoor<R>> {
        let mut waiting = VecDeque::new(alloc);
        let mut seats = VecDeque::new(alloc);
        for one in self.sent.as_slice() {
            waiting.push_back(MemConn {
                source: MemSource::new(self.batch.input.to_vec(alloc)?, Vec::new(alloc)),
                sink: MemSink::new(alloc, Vec::new(alloc)),
            })?;
            seats.push_back(Seat {
                counts: held(&self.counts)?,
                sent: held(one)?,
                is_begun: false,
            })?;
        }
        Ok(CrowdDoor {
            rt: *rt,
            door: MemDoor::new(waiting, Vec::new(alloc)),
            seats,
            counts: held(&self.counts)?,
            given: 0,
        })
    }
}
