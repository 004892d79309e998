// What calls on the objects of a room are answered.
ghost use Rattle.std.specs.Prelude.{◌≡◌, ◌≤◌, IfOk, IfSome, is_some};
ghost use Rattle.ots_calls.specs.declared.system.SystemException.TheVariants as systems;
ghost use Rattle.ots_server.specs.Answers as answers;
ghost use Rattle.ots_server.specs.Answers.{AnswersAlone, AnswersCall, IsCreation, IsOfFactory};
ghost use Rattle.ots_server.specs.Site.{site};
ghost use Rattle.ots_sessions.specs.Replies as replies;
ghost use Rattle.ots_sessions.specs.Replies.{IsWritable};
ghost use Rattle.outward_calls.specs.Moment.{moment};

use crate::desk::Desk;
use crate::refusals::refused_by;
use crate::stepping::step;
use ior_refs::ObjectKey;
use ots_calls::{Answer, Call, Called, Given, SystemException};
use ots_outside::{Disk, Link};
use ots_sessions::{ServeFault, answer_without_step, factory_key, reference_to};
use std::sync::Wait;
use tree_room::{Naming, Pass};

/// The answer of a call. Its words go out over the link before it is answered.
#[tactic(auto, using(crate::proofs::Calls::alone_is, crate::proofs::Calls::step_is))]
pub(crate) fn answer_call<R: Wait, N: Naming, D: Disk, L: Link>(
    desk: &Desk<'_, R, N, D>,
    pass: &mut Pass,
    called: &Called,
    link: &mut L,
) -> Result<Answer, ServeFault>
    ensures answer { IfOk result (λ answer. AnswersCall
        (site D.wants_memory D.told D.faults ((desk.entry.now).room).now) (desk.entry.now).now called.now
        (moment (L.faults link.old) (L.exchanged link.old)) (moment (L.faults link.new) (L.exchanged link.new)) answer) }
    ensures later { L.faults link.old ≤ L.faults link.new }
    ensures short { IfOk result IsWritable }
{
    match answer_alone(desk, pass, called)? {
        Some(answer) => Ok(answer),
        None => step(desk, pass, called, link),
    }
}

/// The answer of a call on the factory; none is of the others.
fn answer_alone<R: Wait, N: Naming, D: Disk>(
    desk: &Desk<'_, R, N, D>,
    pass: &mut Pass,
    called: &Called,
) -> Result<Option<Answer>, ServeFault>
    ensures answer { IfOk result (λ found. IfSome found (λ answer. AnswersAlone D ((desk.entry.now).room).now
        (desk.entry.now).now (called.now).key (called.now).call answer)) }
    ensures alone { IfOk result (λ found. is_some found ≡ answers.is_alone (called.now).call) }
    ensures short { IfOk result (λ found. IfSome found IsWritable) }
{
    match &called.call {
        Call::Create(seconds) => Ok(Some(create(desk, pass, &called.key, *seconds)?)),
        Call::Recreate(_) => Ok(Some(recreate(desk, &called.key))),
        _ => Ok(None),
    }
}

/// The answer of `create`: the control of a new transaction.
fn create<R: Wait, N: Naming, D: Disk>(
    desk: &Desk<'_, R, N, D>,
    pass: &mut Pass,
    key: &ObjectKey,
    seconds: u32,
) -> Result<Answer, ServeFault>
    ensures answer { IfOk result (λ answer. IsOfFactory (((desk.entry.now).room).now).service key.now answer
        (IsCreation D ((desk.entry.now).room).now (desk.entry.now).now seconds answer)) }
    ensures short { IfOk result IsWritable }
{
    if *key != factory_key(desk.room.service()) {
        return Ok(answer_without_step(SystemException::ObjectNotExist));
    }
    match desk.room.create(desk.rt, pass, desk.now, seconds) {
        Ok(ticket) => {
            let control = ObjectKey {
                kind: b'C',
                ..ticket.key
            };
            let reference = reference_to(desk.alloc, desk.room.at(), &control)?;
            Ok(Answer::Plain(Given::Reference(reference)))
        }
        Err(fault) => Ok(refused_by(fault)),
    }
}

/// The answer of `recreate`, which nobody can do yet.
fn recreate<R, N: Naming, D: Disk>(desk: &Desk<'_, R, N, D>, key: &ObjectKey) -> Answer
    ensures answer { IsOfFactory (((desk.entry.now).room).now).service key.now result
        (result ≡ replies.without_step systems.NoImplement) }
    ensures short { IsWritable result }
{
    answer_without_step(if *key == factory_key(desk.room.service()) {
        SystemException::NoImplement
    } else {
        SystemException::ObjectNotExist
    })
}
