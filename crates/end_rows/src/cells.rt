//! Servers of cells over devices in memory.

use case_kit::{CaseClock, HeldLink, Host, House, KeptDisk, Life, Lives};
use end_room::{OwnEnd, SharedEnd};
use end_server::{EndServant, servants_of};
use ots_model::{Endpoint, Octets};
use ots_sessions::cells_key;
use resource_end::{EndFault, ResourceEnd};
use std::alloc::Global;
use std::io;
use std::io::Write;
use std::sync::Wait;

/// The number of the service.
const SERVICE: u64 = 1;

/// How many octets the journal has at most.
const AREA: u64 = 4096;

/// A server of cells in one of its lives.
#[derive(Drop)]
struct CellHouse<R: Wait> {
    rt: R,
    alloc: Global,
    shared: SharedEnd<R, KeptDisk<R>>,
}

impl<R: Host> House<R> for CellHouse<R> {
    type Server = EndServant<R, SharedEnd<R, KeptDisk<R>>, HeldLink<R>, CaseClock<R>>;

    fn servers(
        &mut self,
        links: Vec<HeldLink<R>>,
        clocks: Vec<CaseClock<R>>,
    ) -> io::Result<Vec<Self::Server>> {
        Ok(servants_of(&self.rt, self.alloc, &self.shared, links, clocks)?)
    }

    fn link(server: &Self::Server) -> &HeldLink<R> {
        &server.link
    }
}

/// Tells what comes of a case.
pub fn tell_case<R: Host>(rt: &R, alloc: Global, case: &str, told: &mut Vec<u8>) -> io::Result<()> {
    let (head, lines) = case.split_once('\n').unwrap_or((case, ""));
    writeln!(told, "== {head}")?;
    let lives = Lives::new(alloc, cells_key(SERVICE), "cells")?;
    for (number, lines) in lines.split("\ncrash\n").enumerate() {
        if number > 0 {
            writeln!(told, "crash")?;
        }
        let mut life = lives.life(lines)?;
        play(rt, alloc, lives.disk(rt)?, &mut life)?;
        told.write_all(life.told.as_slice())?;
    }
    writeln!(told)
}

/// Loads the end from this disk, and plays a life of it, or tells why it can't be loaded.
fn play<R: Host>(rt: &R, alloc: Global, disk: KeptDisk<R>, life: &mut Life<'_>) -> io::Result<()> {
    match ResourceEnd::load(alloc, disk, AREA, SERVICE) {
        Ok(end) => open(rt, alloc, end, life),
        Err(back) => {
            life.pass(rt);
            match back.fault {
                EndFault::Start(fault) => writeln!(life.told, "{fault:?}"),
                _ => writeln!(life.told, "no memory"),
            }
        }
    }
}

/// Plays a life of this end.
fn open<R: Host>(
    rt: &R,
    alloc: Global,
    end: ResourceEnd<KeptDisk<R>>,
    life: &mut Life<'_>,
) -> io::Result<()> {
    let at = Endpoint {
        host: Octets::new(alloc, b"h")?,
        port: 7,
    };
    let shared = SharedEnd::new(*rt, alloc, OwnEnd::new(alloc, end, at))?;
    let mut house = CellHouse {
        rt: *rt,
        alloc,
        shared,
    };
    life.play(rt, &mut house)
}
