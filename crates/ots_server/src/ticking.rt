ghost use Rattle.std.specs.Prelude.{◌≡◌, ◌≤◌, [], IfOk, OnOk};
ghost use Rattle.ots_server.specs.Site.{site};
ghost use Rattle.ots_server.specs.StepsInside.{HaveGoneSo};
ghost use Rattle.ots_server.specs.Telling.{Ticks};
ghost use Rattle.outward_calls.specs.Moment.{moment};

use crate::desk::Desk;
use crate::telling::tell_next;
use ots_outside::{Disk, Link};
use ots_sessions::ServeFault;
use recovery_coord::Outbox;
use std::alloc::Global;
use std::sync::Wait;
use tree_room::{Naming, Pass, Room};

/// The clock of a room goes on, and all words go out that are to be told then. Memory is the answer where it was wanting for
/// a word too; the other words go out all the same. Where it is wanting for the step that hears a word, those behind that one
/// are dropped; those of records are told again by the next tick.
pub fn tick_once<R: Wait, N: Naming, D: Disk, L: Link>(
    rt: &R,
    alloc: Global,
    room: &Room<N, D>,
    pass: &mut Pass,
    now: u64,
    link: &mut L,
) -> Result<(), ServeFault>
    ensures ticked { OnOk result (Ticks (site D.wants_memory D.told D.faults room.now) now
        (moment (L.faults link.old) (L.exchanged link.old)) (moment (L.faults link.new) (L.exchanged link.new))) }
    ensures later { L.faults link.old ≤ L.faults link.new }
{
    let desk = Desk {
        rt,
        alloc,
        room,
        now,
    };
    let mut out = Outbox::new(alloc);
    let ticked = room.tick(rt, pass, now, &mut out);
    let starved = tell_rest(&desk, pass, &mut out, link)?;
    if ticked.is_err() || starved {
        return Err(ServeFault::Memory);
    }
    Ok(())
}

/// All words of an outbox go out. It says whether memory was wanting for one of them.
#[tactic(auto, using(crate::proofs::Told::goes_first, crate::proofs::Told::goes_next))]
fn tell_rest<R: Wait, N: Naming, D: Disk, L: Link>(
    desk: &Desk<'_, R, N, D>,
    pass: &mut Pass,
    out: &mut Outbox,
    link: &mut L,
) -> Result<bool, ServeFault>
    ensures gone { IfOk result (λ starved. HaveGoneSo
        (site D.wants_memory D.told D.faults ((desk.entry.now).room).now) (desk.entry.now).now
        out.old.words (moment (L.faults link.old) (L.exchanged link.old)) starved
        [] (moment (L.faults link.new) (L.exchanged link.new))) }
    ensures later { L.faults link.old ≤ L.faults link.new }
{
    let mut starved = false;
    for _ in desk.rt.forever() {
        match tell_next(desk, pass, out, link)? {
            Some(told) => starved = told.is_starved(starved),
            None => return Ok(starved),
        }
    }
    unreachable!()
}
