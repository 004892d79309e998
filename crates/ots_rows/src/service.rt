//! What a service has in memory: a door, and a link and a clock for its sessions, and for its ticks.

ghost use Rattle.std.specs.Prelude.{◌≤◌, IfOk, length};

use case_kit::{Sent, ToldConn, ToldDoor};
use ots_outside::{Door, Failed, MemClock, MemConn, MemDoor, MemLink, MemSink, MemSource};
use std::alloc::{AllocError, Global};
use std::collections::VecDeque;
use std::io;
use std::sync::Wait;

/// A link for sessions, and one for ticks. None is answered.
pub fn links(alloc: Global) -> Result<Vec<MemLink>, AllocError>
    ensures { IfOk result (λ links. 2 ≤ length links.items) }
{
    let sessions = MemLink::new(alloc, Vec::new(alloc), Vec::new(alloc));
    let ticks = MemLink::new(alloc, Vec::new(alloc), Vec::new(alloc));
    Ok(vec![in alloc; sessions, ticks]?)
}

/// A clock for sessions, and one for ticks.
pub fn clocks(alloc: Global) -> Result<Vec<MemClock>, AllocError>
    ensures { IfOk result (λ clocks. 2 ≤ length clocks.items) }
{
    Ok(vec![in alloc; MemClock::new(0), MemClock::new(0)]?)
}

/// Connections that send these octets.
pub fn conns(alloc: Global, inputs: &[Vec<u8>]) -> Result<VecDeque<MemConn>, AllocError> {
    let mut conns = VecDeque::new(alloc);
    for input in inputs {
        conns.push_back(MemConn {
            source: MemSource::new(input.to_vec(alloc)?, Vec::new(alloc)),
            sink: MemSink::new(alloc, Vec::new(alloc)),
        })?;
    }
    Ok(conns)
}

/// A door in memory, which can't be opened where its port is in use.
#[derive(Drop)]
pub struct PortDoor<R> {
    door: ToldDoor<R>,
    is_in_use: bool,
    faults: u64,
}

impl<R: Drop> PortDoor<R> {
    /// This door. It has not failed yet.
    pub fn new(rt: R, alloc: Global, door: MemDoor, is_in_use: bool) -> io::Result<PortDoor<R>> {
        Ok(PortDoor {
            door: ToldDoor::new(rt, alloc, door)?,
            is_in_use,
            faults: 0,
        })
    }

    /// What its connections are sent.
    pub fn sent(&self) -> io::Result<Sent> {
        self.door.sent()
    }
}

impl<R: Wait + Copy + Send + Drop + 'static> Door for PortDoor<R> {
    type Conn = ToldConn<R>;

    ghost faults = { λ port. port.faults };

    ghost given = { λ port. ((port.door).door).given };

    ghost ended = { λ port. ((port.door).door).ended };

    fn open(&mut self) -> Result<(), Failed> {
        if self.is_in_use {
            self.faults = self.faults.saturating_add(1);
            return Err(Failed);
        }
        Ok(())
    }

    fn next(&mut self) -> Result<Option<ToldConn<R>>, Failed> {
        match self.door.next() {
            Ok(conn) => Ok(conn),
            Err(failed) => {
                self.faults = self.faults.saturating_add(1);
                Err(failed)
            }
        }
    }
}
