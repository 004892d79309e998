// The words of an outbox go out one after another, and what is heard of each is told to its transaction.
ghost use Rattle.std.specs.Prelude.{◌≡◌, ◌≤◌, ◌||◌, [], IfOk, IfSome, None, Ok};
ghost use Rattle.ots_server.specs.Site.{site};
ghost use Rattle.ots_server.specs.StepsInside.{HasGoneNext, IsToldBy};
ghost use Rattle.ots_server.specs.Telling as tellings;
ghost use Rattle.outward_calls.specs.Moment.{moment};

use crate::desk::Desk;
use coordinator::{Act, Answers, Event};
use ots_model::PhaseHeard;
use ots_model::tree::{Heard, Outward};
use ots_outside::{Disk, Link};
use ots_sessions::{ServeFault, coordinator_key};
use outward_calls::{Sender, send};
use recovery_coord::Outbox;
use std::sync::Wait;
use tree_room::{Naming, Pass, RoomFault};

/// What came of a word.
#[derive(Drop)]
pub(crate) struct Told {
    /// Whether memory was wanting for the word.
    pub starved: bool,
    /// Which earlier calls were answered by what was heard of it.
    pub finished: Answers,
}

impl Told {
    /// Whether memory was wanting for this word, or for one before it.
    pub(crate) fn is_starved(&self, before: bool) -> bool
        ensures { result ≡ (before || self.now.starved) }
    {
        before || self.starved
    }
}

/// Sends the first word of the outbox, and tells its transaction what is heard of it. None where there is no word.
#[tactic(auto, using(crate::proofs::Told::goes_next_told))]
pub(crate) fn tell_next<R: Wait, N: Naming, D: Disk, L: Link>(
    desk: &Desk<'_, R, N, D>,
    pass: &mut Pass,
    out: &mut Outbox,
    link: &mut L,
) -> Result<Option<Told>, ServeFault>
    ensures told { IfOk result (λ found. IfSome found (λ told. HasGoneNext
        (site D.wants_memory D.told D.faults ((desk.entry.now).room).now) (desk.entry.now).now
        out.old.words (moment (L.faults link.old) (L.exchanged link.old)) told.starved told.finished
        out.new.words (moment (L.faults link.new) (L.exchanged link.new)))) }
    ensures none { result ≡ Ok None → out.old.words ≡ [] }
    ensures done { result ≡ Ok None → out.new.words ≡ [] }
    ensures unsaid { result ≡ Ok None
        → moment (L.faults link.new) (L.exchanged link.new) ≡ moment (L.faults link.old) (L.exchanged link.old) }
    ensures later { L.faults link.old ≤ L.faults link.new }
{
    let Some(word) = out.take() else {
        return Ok(None);
    };
    let sender = Sender {
        service: desk.room.service(),
        resource_kind: b'U',
    };
    let heard = send(desk.alloc, desk.room.at(), sender, &word, link);
    let starved = is_want(&heard);
    let finished = tell(desk, pass, &word, heard, out)?;
    Ok(Some(Told { starved, finished }))
}

/// Whether memory was wanted for what is heard.
fn is_want(heard: &Heard) -> bool
    ensures { result ≡ tellings.is_want heard.now }
{
    matches!(heard, Heard::Phase(PhaseHeard::Starved))
}

/// Tells a transaction what was heard of its word, and says which earlier calls were answered by that.
#[tactic(auto, using(crate::proofs::Told::told_to, crate::proofs::Told::told_nobody))]
fn tell<R: Wait, N: Naming, D: Disk>(
    desk: &Desk<'_, R, N, D>,
    pass: &mut Pass,
    word: &Outward,
    heard: Heard,
    out: &mut Outbox,
) -> Result<Answers, ServeFault>
    ensures { IfOk result (λ finished. IsToldBy
        (site D.wants_memory D.told D.faults ((desk.entry.now).room).now) (desk.entry.now).now word.now heard finished
        out.old.words out.new.words) }
{
    let key = coordinator_key(desk.room.service(), &word.number, 0);
    let event = Event {
        key: None,
        branch: 0,
        now: desk.now,
        act: Act::Answer(word.number, heard),
    };
    match desk.room.apply(desk.rt, pass, &key, &event, out) {
        Ok(ticket) => {
            let answer = ticket.answer;
            Ok(answer.finished)
        }
        Err(RoomFault::ObjectNotExist) => Ok(Answers::from_vec(Vec::new(desk.alloc))),
        // The transaction is there, but hasn't heard it: memory was wanting, or room in its history.
        Err(_) => Err(ServeFault::Memory),
    }
}
