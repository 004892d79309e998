//! Transaction services over devices in memory.
ghost use Rattle.tree_room.specs.Room.{IsNamed};

use case_kit::{CaseClock, HeldLink, Host, House, KeptDisk, Life, Lives, known};
use ots_model::{Endpoint, Octets};
use ots_server::{RoomServant, servants_of};
use ots_sessions::factory_key;
use service_node::Node;
use std::alloc::Global;
use std::io;
use std::io::{ErrorKind, Write};
use std::marker::Brand;
use std::sync::{Arc, Wait};
use tree_room::{Naming, Pass, Room};

/// The number of the service.
const SERVICE: u64 = 1;

/// How many octets the journal has at most.
const AREA: u64 = 4096;

/// How many sessions and ticks there are in one life at most.
const PASSES: u32 = 100;

/// A transaction service in one of its lives, and the passes that nobody has taken yet.
#[derive(Drop)]
struct RoomHouse<R: Wait, N: Naming> {
    rt: R,
    alloc: Global,
    room: Arc<Room<N, KeptDisk<R>>, Global>,
    passes: Vec<Pass>,
}

impl<R: Host, N: Naming + Send + Sync + 'static> House<R> for RoomHouse<R, N> {
    type Server = RoomServant<R, N, KeptDisk<R>, HeldLink<R>, CaseClock<R>>;

    fn servers(
        &mut self,
        links: Vec<HeldLink<R>>,
        clocks: Vec<CaseClock<R>>,
    ) -> io::Result<Vec<Self::Server>> {
        let mut passes = Vec::new(self.alloc);
        for _ in 0..links.len() {
            passes.push(known(self.passes.pop())?)?;
        }
        Ok(servants_of(&self.rt, self.alloc, &self.room, passes, links, clocks)?)
    }

    fn link(server: &Self::Server) -> &HeldLink<R> {
        &server.link
    }
}

/// Tells what comes of a case.
pub fn tell_case<R: Host>(rt: &R, alloc: Global, case: &str, told: &mut Vec<u8>) -> io::Result<()> {
    let (head, lines) = case.split_once('\n').unwrap_or((case, ""));
    writeln!(told, "== {head}")?;
    let lives = Lives::new(alloc, factory_key(SERVICE), "factory")?;
    for (number, lines) in lines.split("\ncrash\n").enumerate() {
        if number > 0 {
            writeln!(told, "crash")?;
        }
        let mut life = lives.life(lines)?;
        play(rt, alloc, lives.disk(rt)?, &mut life)?;
        told.write_all(life.told.as_slice())?;
    }
    writeln!(told)
}

/// Loads the service from this disk, and plays a life of it, or tells why it can't be loaded.
fn play<R: Host>(rt: &R, alloc: Global, disk: KeptDisk<R>, life: &mut Life<'_>) -> io::Result<()> {
    match Node::load(alloc, disk, AREA, SERVICE) {
        Ok(node) => open::<Brand, R>(rt, alloc, node, life),
        Err(back) => {
            life.pass(rt);
            writeln!(life.told, "{:?}", back.fault)
        }
    }
}

/// Plays a life of this node, in a room of its name.
fn open<N: Naming + Send + Sync + 'static, R: Host>(
    rt: &R,
    alloc: Global,
    node: Node<KeptDisk<R>>,
    life: &mut Life<'_>,
) -> io::Result<()>
    requires named { IsNamed N.service N.life node }
{
    let at = Endpoint {
        host: Octets::new(alloc, b"h")?,
        port: 7,
    };
    let Ok(opened) = Room::<N, KeptDisk<R>>::new(alloc, node, at, PASSES) else {
        return Err(ErrorKind::OutOfMemory.into());
    };
    let Ok(room) = Arc::new(alloc, opened.room) else {
        return Err(ErrorKind::OutOfMemory.into());
    };
    let mut house = RoomHouse {
        rt: *rt,
        alloc,
        room,
        passes: opened.passes,
    };
    life.play(rt, &mut house)
}
