// Calls on the cells of an end.
ghost use Rattle.std.specs.Prelude.{◌≡◌, ◌≤◌, ℕ, List, Option};
ghost use Rattle.ots_outside.specs.declared.link.Exchange.{Exchange};
ghost use Rattle.outward_calls.specs.Moment.{moment};
ghost use Rattle.end_server.specs.Answers.{Gets, PutsInto, PutsWithin};
ghost use Rattle.end_server.specs.Serving as serving;
ghost use Rattle.end_server.specs.Serving.{GoesOut, side};
ghost use Rattle.ots_sessions.specs.Replies.{IsWritable};
ghost use Rattle.std.specs.Option.{option_copied, option_map};

use crate::answers::{refused_by, unregistered};
use end_room::{Ends, Entered};
use ior_refs::{ObjectKey, ObjectRef};
use ots_calls::{Answer, Completed, Given, SystemException};
use ots_context::Context;
use ots_model::tree::{Heard, Outward, Word};
use ots_model::{CallNumber, PhaseHeard};
use ots_outside::Link;
use ots_sessions::answer_without_step;
use outward_calls::{Sender, send};
use std::alloc::Global;

/// The letter of the keys of an end's resources.
pub(crate) const RESOURCE_KIND: u8 = b'R';

/// A transaction puts a value into a cell. Where it has no resource yet, one is made and registered with its coordinator, while
/// others may call the end.
pub(crate) fn put<E: Ends, L: Link>(
    alloc: Global,
    ends: &mut E,
    link: &mut L,
    context: &Context,
    cell: u64,
    value: u64,
) -> Answer
    ensures answer { PutsWithin E.does (E.place ends.old) context.now cell value
        (side ends.old (moment (L.faults link.old) (L.exchanged link.old))) result
        (side ends.new (moment (L.faults link.new) (L.exchanged link.new))) }
    ensures stays { E.place ends.new ≡ E.place ends.old }
    ensures later { L.faults link.old ≤ L.faults link.new }
    ensures short { IsWritable result }
{
    let tid = context.current.otid.tid();
    match ends.enter(tid) {
        Ok(Entered::Known(key)) => put_into(Completed::No, ends, &key, cell, value),
        Ok(Entered::Registering) => answer_without_step(SystemException::Transient),
        Ok(Entered::New(key)) => match register(alloc, ends, link, &context.current.coord, &key) {
            Heard::Enlisted(recovery) => match ends.bind(tid, &key, recovery) {
                Ok(()) => put_into(Completed::Maybe, ends, &key, cell, value),
                Err(fault) => refused_by(Completed::Maybe, fault),
            },
            heard => {
                ends.unmake(&key);
                unregistered(&heard)
            }
        },
        Err(fault) => refused_by(Completed::No, fault),
    }
}

/// A resource puts a value into a cell. It is told whether a step of the call may have been made so far.
fn put_into<E: Ends>(
    so_far: Completed,
    ends: &mut E,
    key: &ObjectKey,
    cell: u64,
    value: u64,
) -> Answer
    ensures answer { (faults : ℕ) → (exchanged : Option (List Exchange))
        → PutsInto E.does so_far key.now cell value
        (side ends.old (moment faults exchanged)) result (side ends.new (moment faults exchanged)) }
    ensures stays { E.place ends.new ≡ E.place ends.old }
    ensures short { IsWritable result }
{
    match ends.put(key, cell, value) {
        Ok(()) => Answer::Plain(Given::Nothing),
        Err(fault) => refused_by(so_far, fault),
    }
}

/// A new resource is registered with the coordinator of its transaction, and this is heard of it.
fn register<E: Ends, L: Link>(
    alloc: Global,
    ends: &E,
    link: &mut L,
    coordinator: &ObjectRef,
    key: &ObjectKey,
) -> Heard
    ensures sent { GoesOut (E.place ends.now) (serving.registering coordinator.now key.now)
        (moment (L.faults link.old) (L.exchanged link.old)) result
        (moment (L.faults link.new) (L.exchanged link.new)) }
{
    let Ok(to) = coordinator.to_bytes(alloc) else {
        return Heard::Phase(PhaseHeard::Starved);
    };
    let word = Outward {
        number: CallNumber {
            life: key.life,
            slot: 0,
            generation: key.generation,
            serial: 0,
        },
        registration: 0,
        to,
        word: Word::RegisterResource,
        receipt: None,
    };
    let sender = Sender {
        service: ends.service(),
        resource_kind: RESOURCE_KIND,
    };
    send(alloc, ends.at(), sender, &word, link)
}

/// What a transaction, or nobody, sees of a cell.
pub(crate) fn get<E: Ends>(ends: &mut E, context: Option<&Context>, cell: u64) -> Answer
    ensures answer { (faults : ℕ) → (exchanged : Option (List Exchange))
        → Gets E.does (option_copied context.entry) cell
        (side ends.old (moment faults exchanged)) result (side ends.new (moment faults exchanged)) }
    ensures stays { E.place ends.new ≡ E.place ends.old }
    ensures short { IsWritable result }
{
    let seen = match context {
        Some(context) => ends.read(Some(context.current.otid.tid()), cell),
        None => ends.read(None, cell),
    };
    Answer::Plain(Given::Found(seen))
}
