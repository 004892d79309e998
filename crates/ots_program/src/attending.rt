// What the commands have in common that serve: where their objects stand, and how a door is attended.
ghost use Rattle.std.specs.Prelude.{◌≡◌, ◌≢◌, ◌≤◌, IfErr, IfOk, length};
ghost use Rattle.ots_outside.specs.Source.{HasRisen};
ghost use Rattle.ots_outside.specs.Spawning.{refused, started};
ghost use Rattle.ots_program.specs.Serve as specs;
ghost use Rattle.ots_program.specs.Serve.{HasServed, TellsLine, is_of_session, status_by};
ghost use Rattle.ots_program.specs.Words.{served};

use crate::devices::Devices;
use crate::serve::Service;
use crate::status::Status;
use ior_refs::{ObjectKey, print_ior};
use ots_model::{Endpoint, Octets};
use ots_outside::{Door, Sink};
use ots_sessions::{Servant, ServeEnd, ServeFault, reference_to, serve_sessions};
use std::alloc::Global;
use std::sync::Wait;
use std::thread::Threads;

impl From<ServeFault> for Status {
    ghost use Rattle.ots_program.specs.declared.status.Status.TheVariants.{Memory};

    ghost from_gives = { λ _ status. status ≡ Memory };

    fn from(_fault: ServeFault) -> Status {
        Status::Memory
    }
}

/// How the program ends where its sessions end so.
impl From<ServeEnd> for Status {
    ghost from_gives = { λ end status. status ≡ status_by end };

    fn from(end: ServeEnd) -> Status {
        match end {
            ServeEnd::Ended => Status::Done,
            ServeEnd::DoorFault => Status::DoorFault,
            ServeEnd::Memory => Status::Memory,
        }
    }
}

/// Where the objects of a service stand.
pub(crate) fn endpoint_of(alloc: Global, service: &Service<'_>) -> Result<Endpoint, Status>
    ensures at { IfOk result (λ at. at ≡ specs.endpoint_of (served service.now)) }
    ensures memory { IfErr result (λ status. status ≡ Status.Memory) }
{
    Ok(Endpoint {
        host: Octets::new(alloc, service.host.as_bytes())?,
        port: service.port,
    })
}

/// The stringified reference of the object of a key that stands there, as a line.
pub(crate) fn reference_line(
    alloc: Global,
    at: &Endpoint,
    key: &ObjectKey,
) -> Result<Vec<u8>, Status>
    ensures line { IfOk result (λ line. line.items ≡ specs.reference_line at.now key.now) }
    ensures memory { IfErr result (λ status. status ≡ Status.Memory) }
{
    let reference = reference_to(alloc, at, key)?;
    let text = print_ior(alloc, &reference)?;
    let mut line = text.bytes().to_vec(alloc)?;
    match line.push(b'\n') {
        Ok(()) => Ok(line),
        Err(_) => Err(Status::Memory),
    }
}

/// Serves the connections of the door by these servants, until it ends. Once it is open, the line is written.
#[tactic(auto, using(crate::proofs::Serving::told_by))]
pub(crate) fn attend<
    R: Wait + Threads + Copy + Send + Drop + 'static,
    V: Servant + Send + Drop + 'static,
    S,
    K: Sink,
    D,
    O: Door,
    L,
    C,
>(
    rt: &R,
    alloc: Global,
    line: &[u8],
    servants: Vec<V>,
    devices: &mut Devices<S, K, D, O, L, C, R>,
) -> Status
    requires two { 2 ≤ length servants.items }
    ensures kind { is_of_session result }
    ensures told { TellsLine result line.now (K.taken devices.old.sink) (K.taken devices.new.sink) }
    ensures door_fault { result ≡ Status.DoorFault
        → HasRisen (O.faults devices.old.door) (O.faults devices.new.door) }
    ensures write_fault { result ≡ Status.WriteFault
        → HasRisen (K.faults devices.old.sink) (K.faults devices.new.sink) }
    ensures done { result ≡ Status.Done → HasServed (O.ended devices.new.door)
        (O.given devices.old.door) (O.given devices.new.door)
        (started devices.old.spawner) (started devices.new.spawner)
        (refused devices.old.spawner) (refused devices.new.spawner) }
    ensures idle { devices.new.source ≡ devices.old.source }
    ensures calm { result ≢ Status.WriteFault → K.faults devices.new.sink ≡ K.faults devices.old.sink }
{
    if devices.door.open().is_err() {
        return Status::DoorFault;
    }
    if devices.sink.write(line).is_err() {
        return Status::WriteFault;
    }
    serve_sessions(rt, alloc, servants, &mut devices.door, &mut devices.spawner).into()
}
