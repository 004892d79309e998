//! `ots replay` replays the script on standard input, and tells on standard output what happened. `ots show` writes a
//! line for each message of the octets on standard input. `ots serve` serves transactions to CORBA programs, and `ots resource`
//! cells that take part in them.
#![tactic(auto)]

ghost use Rattle.std.specs.Prelude.{◌≡◌, IfOk, length};

use ots_outside::{
    Address, LockedFile, Spawner, StdSink, StdSource, SystemClock, TcpDoor, TcpLink,
};
use ots_program::{Command, Devices, SERVER_COUNT, Service, Status, run, words_of};
use std::alloc::{AllocError, Global};
use std::env;
use std::net::{Net, TcpListener, TcpStream};
use std::sync::Arc;
use std::sync::atomic::AtomicU64;
use std::time::Clock;

fn main(rt: HostRuntime) -> Status {
    let alloc = rt.alloc();
    let words = match words_of(alloc, env::args(&rt)) {
        Ok(words) => words,
        Err(status) => return status,
    };
    let service = match Command::of(words.as_slice()) {
        Some(Command::Serve(service) | Command::Resource(service)) => Some(service),
        _ => None,
    };
    let (Ok(links), Ok(clocks), Ok(door)) = (
        links_over(alloc, rt),
        clocks_of(alloc, rt),
        door_for(alloc, rt, service),
    ) else {
        return Status::Memory;
    };
    let mut devices = Devices {
        source: StdSource::new(rt.stdin()),
        sink: StdSink::new(rt.stdout()),
        disk: service.map(|service| LockedFile::open(&rt, service.file)),
        door,
        links,
        clocks,
        spawner: Spawner::on_threads(rt),
    };
    run(&rt, alloc, words.as_slice(), &mut devices)
}

/// A link over TCP for each session of a service, and for its ticks.
fn links_over<R: Net + Clock + Copy + Drop>(
    alloc: Global,
    rt: R,
) -> Result<Vec<TcpLink<R>>, AllocError>
    ensures { IfOk result (λ links. length links.items ≡ 65) }
{
    let mut links = Vec::with_capacity(alloc, SERVER_COUNT as usize)?;
    for number in 0..SERVER_COUNT {
        links.push(TcpLink::new(rt, alloc))?;
    }
    Ok(links)
}

/// The system's clock for each session of a service, and for its ticks.
fn clocks_of<R: Clock + Copy + Drop>(
    alloc: Global,
    rt: R,
) -> Result<Vec<SystemClock<R>>, AllocError>
    ensures { IfOk result (λ clocks. length clocks.items ≡ 65) }
{
    let mut clocks = Vec::with_capacity(alloc, SERVER_COUNT as usize)?;
    for number in 0..SERVER_COUNT {
        clocks.push(SystemClock::new(rt))?;
    }
    Ok(clocks)
}

/// The door of a service. Where none is asked for, it stands nowhere.
fn door_for<R: Net<Listener = TcpListener, Stream = TcpStream> + Clock + Drop>(
    alloc: Global,
    rt: R,
    service: Option<Service<'_>>,
) -> Result<TcpDoor<R>, AllocError> {
    let address = match service {
        Some(service) => Address {
            host: String::from_str(alloc, service.host)?,
            port: service.port,
        },
        None => Address {
            host: String::new(alloc),
            port: 0,
        },
    };
    let open = Arc::new(alloc, AtomicU64::new(0))?;
    Ok(TcpDoor::new(rt, open, address, u64::from(SERVER_COUNT - 1)))
}
