ghost use Rattle.std.specs.Arc.{arc_value};
ghost use Rattle.std.specs.Prelude.{◌≡◌, All, IfOk, length, min};
ghost use Rattle.ots_server.specs.Answers.{IsThere};

use crate::calling::answer_call;
use crate::desk::Desk;
use crate::ticking::tick_once;
use ior_refs::ObjectKey;
use ots_calls::{Answer, Called};
use ots_outside::{Clock, Disk, Link};
use ots_sessions::{Servant, ServeFault, factory_key};
use std::alloc::{AllocError, Global};
use std::sync::{Arc, Wait};
use tree_room::{Naming, Pass, Room};

/// What serves one session of a room, or its ticks.
#[derive(Drop)]
pub struct RoomServant<R, N: Naming, D: Disk, L, C> {
    rt: R,
    alloc: Global,
    /// The transactions.
    pub room: Arc<Room<N, D>, Global>,
    /// Its pass to them.
    pub pass: Pass,
    /// The link for its words.
    pub link: L,
    /// Its clock.
    pub clock: C,
}

impl<R: Wait, N: Naming, D: Disk, L: Link, C: Clock> RoomServant<R, N, D, L, C> {
    /// Serves this room.
    pub fn new(
        rt: R,
        alloc: Global,
        room: Arc<Room<N, D>, Global>,
        pass: Pass,
        link: L,
        clock: C,
    ) -> RoomServant<R, N, D, L, C>
        ensures room { result.room ≡ room }
        ensures pass { result.pass ≡ pass }
        ensures link { result.link ≡ link }
        ensures clock { result.clock ≡ clock }
    {
        RoomServant {
            rt,
            alloc,
            room,
            pass,
            link,
            clock,
        }
    }
}

impl<R: Wait, N: Naming, D: Disk, L: Link, C: Clock> Servant for RoomServant<R, N, D, L, C> {
    ghost use Rattle.std.specs.Arc.{arc_value};
    ghost use Rattle.std.specs.Prelude.{◌≡◌, ◌≤◌, OnOk};
    ghost use Rattle.ots_server.specs.Answers.{AnswersWithin, IsThere};
    ghost use Rattle.ots_server.specs.Site.{site};
    ghost use Rattle.ots_server.specs.Telling.{Ticks};
    ghost use Rattle.outward_calls.specs.Moment.{moment};

    ghost faults = { λ s. L.faults s.link };

    ghost finds = { λ before key there after. IsThere D (arc_value before.room) key there
        × (after ≡ record before { pass = after.pass }) };

    ghost answers = { λ before called answer after. AnswersWithin
        (site D.wants_memory D.told D.faults (arc_value before.room)) called
        (C.moment before.clock) (C.moment after.clock)
        (moment (L.faults before.link) (L.exchanged before.link)) (moment (L.faults after.link) (L.exchanged after.link)) answer
        × (after.room ≡ before.room) };

    ghost ticks = { λ before said after. OnOk said (Ticks
        (site D.wants_memory D.told D.faults (arc_value before.room)) (C.moment after.clock)
        (moment (L.faults before.link) (L.exchanged before.link)) (moment (L.faults after.link) (L.exchanged after.link)))
        × ((C.moment before.clock ≤ C.moment after.clock) × (after.room ≡ before.room)) };

    fn is_there(&mut self, key: &ObjectKey) -> bool {
        is_there(&self.rt, &self.room, &mut self.pass, key)
    }

    fn answer(&mut self, called: &Called) -> Result<Answer, ServeFault> {
        let desk = Desk {
            rt: &self.rt,
            alloc: self.alloc,
            room: &self.room,
            now: self.clock.now(),
        };
        answer_call(&desk, &mut self.pass, called, &mut self.link)
    }

    fn tick(&mut self) -> Result<(), ServeFault> {
        let now = self.clock.now();
        tick_once(
            &self.rt,
            self.alloc,
            &self.room,
            &mut self.pass,
            now,
            &mut self.link,
        )
    }

    fn pause(&mut self) {
        self.clock.pause();
    }
}

/// Whether there is the object that a key names: the factory of the service, one of a transaction that is there, or one of a
/// record that stands.
fn is_there<R: Wait, N: Naming, D: Disk>(
    rt: &R,
    room: &Room<N, D>,
    pass: &mut Pass,
    key: &ObjectKey,
) -> bool
    ensures { IsThere D room.now key.now result }
{
    *key == factory_key(room.service()) || room.holds(rt, pass, key)
}

/// Servants of a room: as many as there are passes, links and clocks for.
#[tactic(auto, using(crate::proofs::Counts::least, crate::proofs::Counts::one_more))]
pub fn servants_of<R: Copy + Wait, N: Naming, D: Disk + Drop, L: Drop, C: Drop>(
    rt: &R,
    alloc: Global,
    room: &Arc<Room<N, D>, Global>,
    passes: Vec<Pass>,
    links: Vec<L>,
    clocks: Vec<C>,
) -> Result<Vec<RoomServant<R, N, D, L, C>>, AllocError>
    ensures count { IfOk result (λ servants. length servants.items
        ≡ min (length passes.items) (min (length links.items) (length clocks.items))) }
    ensures room { IfOk result (λ servants. All (λ servant. arc_value servant.room ≡ arc_value room.now) servants.items) }
{
    let mut passes = passes;
    let mut links = links;
    let mut clocks = clocks;
    let mut servants = Vec::with_capacity(alloc, passes.len())?;
    for number in 0..passes.len() {
        let Some(clock) = clocks.pop() else {
            return Ok(servants);
        };
        let Some(link) = links.pop() else {
            return Ok(servants);
        };
        let Some(pass) = passes.pop() else {
            return Ok(servants);
        };
        let mine = Arc::try_clone(room)?;
        servants.push(RoomServant {
            rt: *rt,
            alloc,
            room: mine,
            pass,
            link,
            clock,
        })?;
    }
    Ok(servants)
}
