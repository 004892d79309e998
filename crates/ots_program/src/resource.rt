ghost use Rattle.std.specs.Prelude.{◌≡◌, ◌≢◌, IfErr};
ghost use Rattle.ots_outside.specs.Source.{HasRisen};
ghost use Rattle.ots_outside.specs.Spawning.{refused, started};
ghost use Rattle.ots_program.specs.Serve.{HasServed, HasTwo, IsUnloadedEnd, OfService, TellsLine, cells_line, is_of_load, is_of_session, status_of_end};
ghost use Rattle.ots_program.specs.Words.{served};

use crate::attending::{attend, endpoint_of, reference_line};
use crate::devices::Devices;
use crate::limits::AREA_LIMIT;
use crate::serve::Service;
use crate::status::Status;
use end_room::{OwnEnd, SharedEnd};
use end_server::servants_of;
use ots_outside::{Clock, Disk, Door, Link, Sink};
use ots_sessions::cells_key;
use resource_end::{EndFault, ResourceEnd};
use std::alloc::Global;
use std::sync::Wait;
use std::thread::Threads;

/// Where a resource end isn't loaded.
impl From<EndFault> for Status {
    ghost from_gives = { λ fault status. status ≡ status_of_end fault };

    fn from(fault: EndFault) -> Status {
        match fault {
            EndFault::Start(fault) => fault.into(),
            _ => Status::Memory,
        }
    }
}

/// Serves a resource end on the devices, until the door ends. Once it listens, the reference of its cells is written as one
/// line.
#[tactic(auto, using(crate::proofs::Serving::untold))]
pub(crate) fn serve_end<
    R: Wait + Threads + Copy + Send + Sync + Drop + 'static,
    S,
    K: Sink,
    D: Disk + Send + Drop + 'static,
    O: Door,
    L: Link + Send + Drop + 'static,
    C: Clock + Send + Drop + 'static,
>(
    rt: &R,
    alloc: Global,
    service: &Service<'_>,
    devices: &mut Devices<S, K, D, O, L, C, R>,
) -> Status
    requires two { HasTwo devices.old }
    ensures disk_fault { IsUnloadedEnd D.told D.faults (service.now).number result devices.old.disk devices.new.disk }
    ensures door_fault { result ≡ Status.DoorFault
        → HasRisen (O.faults devices.old.door) (O.faults devices.new.door) }
    ensures write_fault { result ≡ Status.WriteFault
        → HasRisen (K.faults devices.old.sink) (K.faults devices.new.sink) }
    ensures done { result ≡ Status.Done → HasServed (O.ended devices.new.door)
        (O.given devices.old.door) (O.given devices.new.door)
        (started devices.old.spawner) (started devices.new.spawner)
        (refused devices.old.spawner) (refused devices.new.spawner) }
    ensures kind { OfService result }
    ensures told { TellsLine result (cells_line (served service.now)) (K.taken devices.old.sink) (K.taken devices.new.sink) }
    ensures idle { devices.new.source ≡ devices.old.source }
    ensures calm { result ≢ Status.WriteFault → K.faults devices.new.sink ≡ K.faults devices.old.sink }
{
    match load(alloc, service, devices) {
        Ok(end) => open(rt, alloc, service, end, devices),
        Err(status) => status,
    }
}

/// The resource end of the service, by the journal on the disk. A load that is refused puts the disk back.
#[tactic(auto, using(crate::proofs::Serving::unloaded))]
fn load<S, K, D: Disk + Drop, O, L, C, R>(
    alloc: Global,
    service: &Service<'_>,
    devices: &mut Devices<S, K, D, O, L, C, R>,
) -> Result<ResourceEnd<D>, Status>
    ensures unloaded { IfErr result (λ status. IsUnloadedEnd D.told D.faults (service.now).number status
        devices.old.disk devices.new.disk) }
    ensures kind { IfErr result is_of_load }
    ensures others { devices.new ≡ record devices.old { disk = devices.new.disk } }
{
    let Some(disk) = devices.disk.take() else {
        return Err(Status::DiskFault);
    };
    match ResourceEnd::load(alloc, disk, AREA_LIMIT, service.number) {
        Ok(end) => Ok(end),
        Err(back) => {
            devices.disk = Some(back.value);
            Err(back.fault.into())
        }
    }
}

/// Serves a resource end, which its sessions share.
#[tactic(auto, using(crate::proofs::Serving::told_as, crate::proofs::Serving::two_servants))]
fn open<
    R: Wait + Threads + Copy + Send + Sync + Drop + 'static,
    S,
    K: Sink,
    D: Disk + Send + Drop + 'static,
    O: Door,
    L: Link + Send + Drop + 'static,
    C: Clock + Send + Drop + 'static,
>(
    rt: &R,
    alloc: Global,
    service: &Service<'_>,
    end: ResourceEnd<D>,
    devices: &mut Devices<S, K, D, O, L, C, R>,
) -> Status
    requires two { HasTwo devices.old }
    ensures kind { is_of_session result }
    ensures told { TellsLine result (cells_line (served service.now)) (K.taken devices.old.sink) (K.taken devices.new.sink) }
    ensures door_fault { result ≡ Status.DoorFault
        → HasRisen (O.faults devices.old.door) (O.faults devices.new.door) }
    ensures write_fault { result ≡ Status.WriteFault
        → HasRisen (K.faults devices.old.sink) (K.faults devices.new.sink) }
    ensures done { result ≡ Status.Done → HasServed (O.ended devices.new.door)
        (O.given devices.old.door) (O.given devices.new.door)
        (started devices.old.spawner) (started devices.new.spawner)
        (refused devices.old.spawner) (refused devices.new.spawner) }
    ensures idle { devices.new.source ≡ devices.old.source }
    ensures calm { result ≢ Status.WriteFault → K.faults devices.new.sink ≡ K.faults devices.old.sink }
{
    let Ok(at) = endpoint_of(alloc, service) else {
        return Status::Memory;
    };
    let Ok(line) = reference_line(alloc, &at, &cells_key(service.number)) else {
        return Status::Memory;
    };
    let Ok(shared) = SharedEnd::new(*rt, alloc, OwnEnd::new(alloc, end, at)) else {
        return Status::Memory;
    };
    let (links, clocks) = devices.take_workers(alloc);
    let Ok(servants) = servants_of(rt, alloc, &shared, links, clocks) else {
        return Status::Memory;
    };
    attend(rt, alloc, line.as_slice(), servants, devices)
}
