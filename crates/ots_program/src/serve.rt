ghost use Rattle.std.specs.Prelude.{◌≡◌, ◌≢◌, IfErr, IfNone, IfSome};
ghost use Rattle.ots_outside.specs.Source.{HasRisen};
ghost use Rattle.ots_outside.specs.Spawning.{refused, started};
ghost use Rattle.ots_program.specs.Serve.{HasServed, HasTwo, IsUnloaded, OfService, TellsLine, factory_line, is_of_load, is_of_session, status_of_load};
ghost use Rattle.tree_room.specs.Room as rooms;
ghost use Rattle.ots_program.specs.Words.{IsNamed, IsServed, Serving, served};

use crate::attending::{attend, endpoint_of, reference_line};
use crate::devices::{Devices, Word};
use crate::digits::number_in;
use crate::limits::AREA_LIMIT;
use crate::status::Status;
use coordinator::NodeFault;
use ots_outside::{Clock, Disk, Door, Link, Sink};
use ots_server::servants_of;
use ots_sessions::factory_key;
use service_node::Node;
use std::alloc::Global;
use std::marker::Brand;
use std::str;
use std::sync::{Arc, Wait};
use std::thread::Threads;
use tree_room::{Naming, Opened, Room};

/// How many sessions are served at once, and one more for ticks.
pub const SERVER_COUNT: u32 = 65;

/// How many octets a name of a file or of a host has at most.
const NAME_LIMIT: usize = 255;

/// What a command line asks a service for.
#[derive(Clone, Copy)]
pub struct Service<'a> {
    /// The number of the service.
    pub number: u64,
    /// The name of the file in which its journal is.
    pub file: &'a str,
    /// The name or the address of the machine, as it stands in its references.
    pub host: &'a str,
    /// The port.
    pub port: u16,
}

impl<'a> Service<'a> {
    /// The service of these words, where each is one of its kind.
    pub(crate) fn of(
        number: &'a Word,
        file: &'a Word,
        host: &'a Word,
        port: &'a Word,
    ) -> Option<Service<'a>>
        ensures some { IfSome result (λ service. IsServed number.now file.now host.now port.now (served service)) }
        ensures none { IfNone result ((service : Serving) → ¬ IsServed number.now file.now host.now port.now service) }
    {
        Some(Service {
            number: number_in(number.bytes(), u64::from(u32::MAX))?,
            file: name_in(file.bytes())?,
            host: name_in(host.bytes())?,
            port: u16::try_from(number_in(port.bytes(), u64::from(u16::MAX))?).ok()?,
        })
    }
}

/// The name in these octets: UTF-8 of 1 to 255 octets without a NUL, which doesn't begin with a dash.
fn name_in(octets: &[u8]) -> Option<&str>
    ensures some { IfSome result (λ text. (text.now ≡ octets.now) × IsNamed octets.now) }
    ensures none { IfNone result (¬ IsNamed octets.now) }
{
    let text = str::from_utf8(octets).ok()?;
    let is_named = !octets.is_empty() && octets.len() <= NAME_LIMIT && !octets.contains(&0);
    if is_named && octets.first() != Some(&b'-') {
        Some(text)
    } else {
        None
    }
}

/// Where a node isn't loaded.
impl From<NodeFault> for Status {
    ghost from_gives = { λ fault status. status ≡ status_of_load fault };

    fn from(fault: NodeFault) -> Status {
        match fault {
            NodeFault::Journal(fault) => fault.into(),
            _ => Status::Memory,
        }
    }
}

/// Serves transactions on the devices, until the door ends. Once it listens, the reference of its factory is written as one
/// line.
#[tactic(auto, using(crate::proofs::Serving::untold))]
pub(crate) fn serve<
    R: Wait + Threads + Copy + Send + Sync + Drop + 'static,
    S,
    K: Sink,
    D: Disk + Send + Drop + 'static,
    O: Door,
    L: Link + Send + Drop + 'static,
    C: Clock + Send + Drop + 'static,
>(
    rt: &R,
    alloc: Global,
    service: &Service<'_>,
    devices: &mut Devices<S, K, D, O, L, C, R>,
) -> Status
    requires host { IsNamed ((service.now).host).now }
    requires two { HasTwo devices.old }
    ensures disk_fault { IsUnloaded D.told D.faults (service.now).number result devices.old.disk devices.new.disk }
    ensures door_fault { result ≡ Status.DoorFault
        → HasRisen (O.faults devices.old.door) (O.faults devices.new.door) }
    ensures write_fault { result ≡ Status.WriteFault
        → HasRisen (K.faults devices.old.sink) (K.faults devices.new.sink) }
    ensures done { result ≡ Status.Done → HasServed (O.ended devices.new.door)
        (O.given devices.old.door) (O.given devices.new.door)
        (started devices.old.spawner) (started devices.new.spawner)
        (refused devices.old.spawner) (refused devices.new.spawner) }
    ensures kind { OfService result }
    ensures told { TellsLine result (factory_line (served service.now)) (K.taken devices.old.sink) (K.taken devices.new.sink) }
    ensures idle { devices.new.source ≡ devices.old.source }
    ensures calm { result ≢ Status.WriteFault → K.faults devices.new.sink ≡ K.faults devices.old.sink }
{
    match load(alloc, service, devices) {
        Ok(node) => open::<Brand, R, S, K, D, O, L, C>(rt, alloc, service, node, devices),
        Err(status) => status,
    }
}

/// The node of the service, by the journal on the disk. A load that is refused puts the disk back.
#[tactic(auto, using(crate::proofs::Serving::unloaded))]
fn load<S, K, D: Disk + Drop, O, L, C, R>(
    alloc: Global,
    service: &Service<'_>,
    devices: &mut Devices<S, K, D, O, L, C, R>,
) -> Result<Node<D>, Status>
    ensures unloaded { IfErr result (λ status. IsUnloaded D.told D.faults (service.now).number status
        devices.old.disk devices.new.disk) }
    ensures kind { IfErr result is_of_load }
    ensures others { devices.new ≡ record devices.old { disk = devices.new.disk } }
{
    let Some(disk) = devices.disk.take() else {
        return Err(Status::DiskFault);
    };
    match Node::load(alloc, disk, AREA_LIMIT, service.number) {
        Ok(node) => Ok(node),
        Err(back) => {
            devices.disk = Some(back.value);
            Err(back.fault.into())
        }
    }
}

/// Serves a node, in a room of its name.
#[tactic(auto, using(crate::proofs::Serving::can_be_told, crate::proofs::Serving::told_as, crate::proofs::Serving::two_in_room))]
fn open<
    N: Naming + Send + Sync + 'static,
    R: Wait + Threads + Copy + Send + Sync + Drop + 'static,
    S,
    K: Sink,
    D: Disk + Send + Drop + 'static,
    O: Door,
    L: Link + Send + Drop + 'static,
    C: Clock + Send + Drop + 'static,
>(
    rt: &R,
    alloc: Global,
    service: &Service<'_>,
    node: Node<D>,
    devices: &mut Devices<S, K, D, O, L, C, R>,
) -> Status
    requires host { IsNamed ((service.now).host).now }
    requires two { HasTwo devices.old }
    requires named { rooms.IsNamed N.service N.life node }
    ensures kind { is_of_session result }
    ensures told { TellsLine result (factory_line (served service.now)) (K.taken devices.old.sink) (K.taken devices.new.sink) }
    ensures door_fault { result ≡ Status.DoorFault
        → HasRisen (O.faults devices.old.door) (O.faults devices.new.door) }
    ensures write_fault { result ≡ Status.WriteFault
        → HasRisen (K.faults devices.old.sink) (K.faults devices.new.sink) }
    ensures done { result ≡ Status.Done → HasServed (O.ended devices.new.door)
        (O.given devices.old.door) (O.given devices.new.door)
        (started devices.old.spawner) (started devices.new.spawner)
        (refused devices.old.spawner) (refused devices.new.spawner) }
    ensures idle { devices.new.source ≡ devices.old.source }
    ensures calm { result ≢ Status.WriteFault → K.faults devices.new.sink ≡ K.faults devices.old.sink }
{
    let Ok(at) = endpoint_of(alloc, service) else {
        return Status::Memory;
    };
    let Ok(line) = reference_line(alloc, &at, &factory_key(service.number)) else {
        return Status::Memory;
    };
    let Ok(opened) = Room::<N, D>::new(alloc, node, at, SERVER_COUNT) else {
        return Status::Memory;
    };
    let Opened { room, passes } = opened;
    let Ok(room) = Arc::new(alloc, room) else {
        return Status::Memory;
    };
    let (links, clocks) = devices.take_workers(alloc);
    let Ok(servants) = servants_of(rt, alloc, &room, passes, links, clocks) else {
        return Status::Memory;
    };
    attend(rt, alloc, line.as_slice(), servants, devices)
}
