ghost use Rattle.std.specs.Prelude.{◌≡◌, ◌⊎◌, [], ◌∷◌, IfNone, IfSome};
ghost use Rattle.ots_outside.specs.Source.{HasRisen};
ghost use Rattle.ots_outside.specs.Spawning.{refused, started};
ghost use Rattle.ots_program.specs.Answers.{HasReadFault, HasWriteFault, IsDoneAtEnd, Replays};
ghost use Rattle.ots_program.specs.Serve.{HasServed, HasTwo, IsUnloaded, IsUnloadedEnd, OfService, TellsLine, cells_line, factory_line};
ghost use Rattle.ots_program.specs.Show.{Shows};
ghost use Rattle.ots_program.specs.Words.{Asks, AsksNothing, IsReplay, IsResource, IsServe, IsService, IsShow, IsUsage, Serving, asked_by};

use crate::devices::{Devices, Word};
use crate::replay::replay_script;
use crate::resource::serve_end;
use crate::serve::{Service, serve};
use crate::show::show_messages;
use crate::status::Status;
use ots_outside::{Clock, Disk, Door, Link, Sink, Source};
use std::alloc::Global;
use std::sync::Wait;
use std::thread::Threads;

/// What a command line asks for.
#[derive(Clone, Copy)]
pub enum Command<'a> {
    /// The script on the source is replayed.
    Replay,
    /// The messages of the source are shown.
    Show,
    /// Transactions are served.
    Serve(Service<'a>),
    /// A resource end is served.
    Resource(Service<'a>),
}

impl<'a> Command<'a> {
    /// What these words ask for, where they are a command line.
    pub fn of(words: &'a [Word]) -> Option<Command<'a>>
        ensures some { IfSome result (λ command. Asks words.now (asked_by command)) }
        ensures none { IfNone result (AsksNothing words.now) }
    {
        match words {
            [word] => Command::of_one(word),
            [word, number, file, host, port] if word.bytes() == b"serve".as_slice() => {
                match Service::of(number, file, host, port) {
                    Some(service) => Some(Command::Serve(service)),
                    None => None,
                }
            }
            [word, number, file, host, port] if word.bytes() == b"resource".as_slice() => {
                match Service::of(number, file, host, port) {
                    Some(service) => Some(Command::Resource(service)),
                    None => None,
                }
            }
            _ => None,
        }
    }

    /// What this word asks for alone.
    fn of_one(word: &Word) -> Option<Command<'a>>
        ensures some { IfSome result (λ command. Asks (word.now ∷ []) (asked_by command)) }
        ensures none { IfNone result (AsksNothing (word.now ∷ [])) }
    {
        if word.bytes() == b"replay".as_slice() {
            Some(Command::Replay)
        } else if word.bytes() == b"show".as_slice() {
            Some(Command::Show)
        } else {
            None
        }
    }
}

/// Carries out the command line on its devices. A show may have to wait for its source, and a service serves until its door
/// ends: the clauses hold if it returns.
#[tactic(auto, using(crate::proofs::Serving::host_of, crate::proofs::Serving::two_of, crate::proofs::Serving::two_of_end))]
pub fn run<
    R: Wait + Threads + Copy + Send + Sync + Drop + 'static,
    S: Source,
    K: Sink,
    D: Disk + Send + Drop + 'static,
    O: Door,
    L: Link + Send + Drop + 'static,
    C: Clock + Send + Drop + 'static,
>(rt: &R, alloc: Global, words: &[Word], devices: &mut Devices<S, K, D, O, L, C, R>) -> Status
    // What serves has links and clocks for its sessions and for its ticks.
    requires two { (service : Serving) → IsService words.now service → HasTwo devices.old }

    // Usage comes exactly where the words are no command line, and then the devices are as they were.
    ensures usage { IsUsage result words.now }
    ensures idle { result ≡ Status.Usage → devices.new ≡ devices.old }

    // What each command answers and writes, by the octets of the source.
    ensures replays { IsReplay words.now →
        Replays result (S.remaining devices.old.source) (K.taken devices.old.sink) (K.taken devices.new.sink) }
    ensures shows { IsShow words.now →
        Shows result (S.remaining devices.old.source) (K.taken devices.old.sink) (K.taken devices.new.sink) }

    // Done comes once the source was read to its end, or, of a service, once its door has ended.
    ensures end { IsReplay words.now ⊎ IsShow words.now
        → IsDoneAtEnd result (S.remaining devices.old.source) (S.remaining devices.new.source) }
    ensures served { (service : Serving) → IsService words.now service → result ≡ Status.Done
        → HasServed (O.ended devices.new.door) (O.given devices.old.door) (O.given devices.new.door)
        (started devices.old.spawner) (started devices.new.spawner)
        (refused devices.old.spawner) (refused devices.new.spawner) }

    // A service ends by a status of its own, and what it has written then.
    ensures of_service { (service : Serving) → IsService words.now service → OfService result }
    ensures tells_factory { (service : Serving) → IsServe words.now service
        → TellsLine result (factory_line service) (K.taken devices.old.sink) (K.taken devices.new.sink) }
    ensures tells_cells { (service : Serving) → IsResource words.now service
        → TellsLine result (cells_line service) (K.taken devices.old.sink) (K.taken devices.new.sink) }

    // A fault of a device is told exactly where that device has failed, and that of a door only there.
    ensures read_fault { HasReadFault result (S.faults devices.old.source) (S.faults devices.new.source) }
    ensures write_fault { HasWriteFault result (K.faults devices.old.sink) (K.faults devices.new.sink) }
    ensures door_fault { result ≡ Status.DoorFault
        → HasRisen (O.faults devices.old.door) (O.faults devices.new.door) }

    // Why a service has loaded nothing from its disk.
    ensures unloaded { (service : Serving) → IsServe words.now service
        → IsUnloaded D.told D.faults service.number result devices.old.disk devices.new.disk }
    ensures unloaded_end { (service : Serving) → IsResource words.now service
        → IsUnloadedEnd D.told D.faults service.number result devices.old.disk devices.new.disk }
{
    let Some(command) = Command::of(words) else {
        return Status::Usage;
    };
    match command {
        Command::Replay => replay_script(alloc, &mut devices.source, &mut devices.sink),
        Command::Show => show_messages(rt, alloc, &mut devices.source, &mut devices.sink),
        Command::Serve(service) => serve(rt, alloc, &service, devices),
        Command::Resource(service) => serve_end(rt, alloc, &service, devices),
    }
}

/// Carries out a command line that is no `show`, no `serve` and no `resource` on a source and a sink. It returns.
pub fn run_plain<S: Source, K: Sink>(
    alloc: Global,
    words: &[Word],
    source: &mut S,
    sink: &mut K,
) -> Status
    requires plain { ¬ (IsShow words.now) }
    requires idle { (service : Serving) → ¬ (IsService words.now service) }

    // Usage comes exactly where the words are no command line, and then the devices are as they were.
    ensures usage { IsUsage result words.now }
    ensures idle_source { result ≡ Status.Usage → source.new ≡ source.old }
    ensures idle_sink { result ≡ Status.Usage → sink.new ≡ sink.old }

    // What a replay answers and writes, by the octets of the source.
    ensures replays { IsReplay words.now →
        Replays result (S.remaining source.old) (K.taken sink.old) (K.taken sink.new) }

    // Done comes once the source was read to its end.
    ensures end { IsDoneAtEnd result (S.remaining source.old) (S.remaining source.new) }

    // A fault of a device is told exactly where that device has failed.
    ensures read_fault { HasReadFault result (S.faults source.old) (S.faults source.new) }
    ensures write_fault { HasWriteFault result (K.faults sink.old) (K.faults sink.new) }
{
    match Command::of(words) {
        Some(Command::Replay) => replay_script(alloc, source, sink),
        Some(Command::Show | Command::Serve(_) | Command::Resource(_)) => unreachable!(),
        None => Status::Usage,
    }
}
