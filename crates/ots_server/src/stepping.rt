// A call on an object of a transaction, as a step of it, and what it is answered once its words went out.
ghost use Rattle.std.specs.Prelude.{◌≡◌, ◌<◌, ◌≤◌, ◌^◌, [], false, true, IfOk, IfSome, None};
ghost use Rattle.std.specs.Option.{option_copied, option_map};
ghost use Rattle.coordinator.specs.History as history;
ghost use Rattle.coordinator.specs.declared.said.Finished.{Finished as TheFinished};
ghost use Rattle.ots_context.specs.Writing.{kept_length};
ghost use Rattle.ots_server.specs.Answers.{IsStepped};
ghost use Rattle.ots_server.specs.Site.{site};
ghost use Rattle.ots_server.specs.StepsInside.{AreTold, EndsStep, at_once, or_among};
ghost use Rattle.ots_server.specs.Telling as tellings;
ghost use Rattle.ots_sessions.specs.Replies.{IsWritable};
ghost use Rattle.outward_calls.specs.Moment.{moment};

use crate::acts::act_of;
use crate::answers::answer_of;
use crate::desk::Desk;
use crate::refusals::refused_by;
use crate::telling::tell_next;
use coordinator::{Answers, Event, Finished, Said, StepAnswer};
use ots_calls::{Answer, Bare, Call, Called, Completed, SystemException};
use ots_context::Context;
use ots_model::Vote;
use ots_outside::{Disk, Link};
use ots_sessions::{ServeFault, answer_without_step};
use recovery_coord::Outbox;
use std::sync::Wait;
use tree_room::{Naming, Pass};

/// The answer of a call on an object of a transaction.
pub(crate) fn step<R: Wait, N: Naming, D: Disk, L: Link>(
    desk: &Desk<'_, R, N, D>,
    pass: &mut Pass,
    called: &Called,
    link: &mut L,
) -> Result<Answer, ServeFault>
    ensures answer { IfOk result (λ answer. IsStepped
        (site D.wants_memory D.told D.faults ((desk.entry.now).room).now) (desk.entry.now).now called.now
        (moment (L.faults link.old) (L.exchanged link.old)) (moment (L.faults link.new) (L.exchanged link.new)) answer) }
    ensures later { L.faults link.old ≤ L.faults link.new }
    ensures short { IfOk result (λ answer. IsWritable answer) }
{
    let Some(act) = act_of(desk.alloc, called)? else {
        return Ok(answer_without_step(SystemException::ObjectNotExist));
    };
    let event = Event {
        key: called.retry,
        branch: called.key.index,
        now: desk.now,
        act,
    };
    let mut out = Outbox::new(desk.alloc);
    match desk
        .room
        .apply(desk.rt, pass, &called.key, &event, &mut out)
    {
        Ok(ticket) => {
            let answer = ticket.answer;
            settle(desk, pass, called, &answer, ticket.context, &mut out, link)
        }
        Err(fault) => Ok(refused_by(fault)),
    }
}

/// The answer of a call whose step was made: what was said of it then, or is said once its words went out.
#[tactic(auto, using(crate::proofs::Told::ends_starved, crate::proofs::Told::ends_answered, crate::proofs::Told::ends_overtaken))]
fn settle<R: Wait, N: Naming, D: Disk, L: Link>(
    desk: &Desk<'_, R, N, D>,
    pass: &mut Pass,
    called: &Called,
    step: &StepAnswer,
    context: Option<Context>,
    out: &mut Outbox,
    link: &mut L,
) -> Result<Answer, ServeFault>
    requires tail { IfSome context (λ c. kept_length c.tail < 2 ^ 31) }
    requires later { history.is_later step.now.said ≡ true → context ≡ None }
    ensures answer { IfOk result (λ answer. EndsStep
        (site D.wants_memory D.told D.faults ((desk.entry.now).room).now) (desk.entry.now).now called.now
        step.now context out.old.words
        (moment (L.faults link.old) (L.exchanged link.old)) (moment (L.faults link.new) (L.exchanged link.new)) answer) }
    ensures later { L.faults link.old ≤ L.faults link.new }
    ensures short { IfOk result (λ answer. IsWritable answer) }
{
    let first = first_answer(desk, called, step, context)?;
    let ending = tell_all(desk, pass, called, step.position, first, out, link)?;
    let Ending { starved, answer } = ending;
    if starved {
        drop(answer);
        return Ok(Answer::System(SystemException::NoMemory, 0, Completed::Maybe));
    }
    match answer {
        Some(answer) => Ok(answer),
        None => {
            let said = overtaken(&called.call);
            let answer = answer_of(desk.alloc, desk.room.at(), called, &said, None)?;
            Ok(answer)
        }
    }
}

/// What comes of the words of a step.
#[derive(Drop)]
struct Ending {
    /// Whether memory was wanting for one of them.
    starved: bool,
    /// What its call is answered, where it is.
    answer: Option<Answer>,
}

/// All words of an outbox go out. The call at this place of its history, which had this answer before, is answered where it is
/// among those that are answered on the way.
#[tactic(auto, using(crate::proofs::Told::told_first, crate::proofs::Told::told_next))]
fn tell_all<R: Wait, N: Naming, D: Disk, L: Link>(
    desk: &Desk<'_, R, N, D>,
    pass: &mut Pass,
    called: &Called,
    position: u32,
    first: Option<Answer>,
    out: &mut Outbox,
    link: &mut L,
) -> Result<Ending, ServeFault>
    requires short { IfSome first (λ answer. IsWritable answer) }
    ensures told { IfOk result (λ ending. AreTold
        (site D.wants_memory D.told D.faults ((desk.entry.now).room).now) (desk.entry.now).now called.now position
        out.old.words (moment (L.faults link.old) (L.exchanged link.old)) first
        ending.starved ending.answer [] (moment (L.faults link.new) (L.exchanged link.new))) }
    ensures later { L.faults link.old ≤ L.faults link.new }
    ensures short { IfOk result (λ ending. IfSome ending.answer (λ answer. IsWritable answer)) }
{
    let mut ending = Ending {
        starved: false,
        answer: first,
    };
    for _ in desk.rt.forever() {
        let Some(told) = tell_next(desk, pass, out, link)? else {
            return Ok(ending);
        };
        ending = Ending {
            starved: told.is_starved(ending.starved),
            answer: answer_or(desk, called, position, &told.finished, ending.answer)?,
        };
    }
    unreachable!()
}

/// The answer that the step of a call has at once, where it has one.
fn first_answer<R, N: Naming, D: Disk>(
    desk: &Desk<'_, R, N, D>,
    called: &Called,
    step: &StepAnswer,
    context: Option<Context>,
) -> Result<Option<Answer>, ServeFault>
    requires tail { IfSome context (λ c. kept_length c.tail < 2 ^ 31) }
    ensures answer { IfOk result (λ found. found ≡ at_once ((desk.entry.now).room).now.at called.now step.now context) }
    ensures short { IfOk result (λ found. IfSome found (λ answer. IsWritable answer)) }
{
    if step.said.is_later() {
        drop(context);
        return answer_or(desk, called, step.position, &step.finished, None);
    }
    let at = desk.room.at();
    Ok(Some(answer_of(desk.alloc, at, called, &step.said, context)?))
}

/// The answer of a call, or, where it has none yet, the one of the call at this place of its history, where it is among these.
fn answer_or<R, N: Naming, D: Disk>(
    desk: &Desk<'_, R, N, D>,
    called: &Called,
    position: u32,
    finished: &Answers,
    answer: Option<Answer>,
) -> Result<Option<Answer>, ServeFault>
    requires short { IfSome answer (λ answer. IsWritable answer) }
    ensures answer { IfOk result (λ found. found
        ≡ or_among ((desk.entry.now).room).now.at called.now position finished.now answer) }
    ensures short { IfOk result (λ found. IfSome found (λ answer. IsWritable answer)) }
{
    if let Some(answer) = answer {
        return Ok(Some(answer));
    }
    let Some(one) = answered_at(finished.items(), position) else {
        return Ok(None);
    };
    let at = desk.room.at();
    Ok(Some(answer_of(desk.alloc, at, called, &one.said, None)?))
}

/// The answer to the call at this place.
fn answered_at(finished: &[Finished], position: u32) -> Option<&Finished>
    ensures { option_map (λ (f : TheFinished). f.said) (option_copied result)
        ≡ history.answer_among position finished.now }
{
    finished.iter().find(|one| one.position == position)
}

/// What is said of a call that another session's step has answered: its transaction was rolled back.
fn overtaken(call: &Call) -> Said
    ensures { result ≡ tellings.overtaken call.now }
{
    match call {
        Call::Bare(Bare::Prepare) => Said::Voted(Vote::VoteRollback),
        _ => Said::TransactionRolledBack,
    }
}
