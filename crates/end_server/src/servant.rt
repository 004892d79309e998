ghost use Rattle.std.specs.Prelude.{◌≡◌, ◌≢◌, ◌≤◌, false, true, All, IfOk, length, min};
ghost use Rattle.end_room.specs.Sharing.{place_of};
ghost use Rattle.ots_sessions.specs.References as refs;
ghost use Rattle.outward_calls.specs.Moment.{moment};
ghost use Rattle.end_server.specs.Answers.{AnswersAsked, HearsOfSubtransaction, IsTold};
ghost use Rattle.end_server.specs.declared.asked.Asked.TheVariants as asks;
ghost use Rattle.end_server.specs.Serving.{side};
ghost use Rattle.ots_sessions.specs.Replies.{IsWritable};

use crate::answers::answer_to_word;
use crate::asked::{Asked, asked_of};
use crate::cells::{get, put};
use crate::ticking::tick_end;
use end_room::{Ends, SharedEnd};
use ior_refs::ObjectKey;
use ots_calls::{Answer, Called, Given, SystemException};
use ots_outside::{Clock, Disk, Link};
use ots_sessions::{Servant, ServeFault, answer_without_step, cells_key};
use resource_end::Word;
use std::alloc::{AllocError, Global};
use std::sync::Wait;

/// What serves one session of an end, or its ticks.
#[derive(Drop)]
pub struct EndServant<R, E, L, C> {
    rt: R,
    alloc: Global,
    /// The end.
    pub ends: E,
    /// The link for its words.
    pub link: L,
    /// Its clock.
    pub clock: C,
}

impl<R: Wait, E: Ends, L: Link, C: Clock> EndServant<R, E, L, C> {
    /// Serves this end.
    pub fn new(rt: R, alloc: Global, ends: E, link: L, clock: C) -> EndServant<R, E, L, C>
        ensures ends { result.ends ≡ ends }
        ensures link { result.link ≡ link }
        ensures clock { result.clock ≡ clock }
    {
        EndServant {
            rt,
            alloc,
            ends,
            link,
            clock,
        }
    }

    /// Whether a key is that of the cells.
    fn is_cells(&self, key: &ObjectKey) -> bool
        ensures own { result ≡ true → key.now ≡ refs.cells_key (E.place self.now.ends).service }
        ensures foreign { result ≡ false → key.now ≢ refs.cells_key (E.place self.now.ends).service }
    {
        *key == cells_key(self.ends.service())
    }

    /// The answer of a put.
    fn answer_put(&mut self, called: &Called, cell: u64, value: u64) -> Answer
        ensures answer { AnswersAsked E.does (E.place self.old.ends) (called.now).key (called.now).context
            (asks.Put cell value)
            (side self.old.ends (moment (L.faults self.old.link) (L.exchanged self.old.link))) result
            (side self.new.ends (moment (L.faults self.new.link) (L.exchanged self.new.link))) }
        ensures stays { E.place self.new.ends ≡ E.place self.old.ends }
        ensures later { L.faults self.old.link ≤ L.faults self.new.link }
        ensures short { IsWritable result }
    {
        if !self.is_cells(&called.key) {
            return answer_without_step(SystemException::ObjectNotExist);
        }
        let Some(context) = &called.context else {
            return answer_without_step(SystemException::BadParam);
        };
        put(
            self.alloc,
            &mut self.ends,
            &mut self.link,
            context,
            cell,
            value,
        )
    }

    /// The answer of a get.
    fn answer_get(&mut self, called: &Called, cell: u64) -> Answer
        ensures answer { AnswersAsked E.does (E.place self.old.ends) (called.now).key (called.now).context
            (asks.Get cell)
            (side self.old.ends (moment (L.faults self.old.link) (L.exchanged self.old.link))) result
            (side self.new.ends (moment (L.faults self.new.link) (L.exchanged self.new.link))) }
        ensures stays { E.place self.new.ends ≡ E.place self.old.ends }
        ensures later { L.faults self.old.link ≤ L.faults self.new.link }
        ensures short { IsWritable result }
    {
        if !self.is_cells(&called.key) {
            return answer_without_step(SystemException::ObjectNotExist);
        }
        get(&mut self.ends, called.context.as_ref(), cell)
    }

    /// The answer of a word to a resource.
    fn answer_word(&mut self, key: &ObjectKey, word: Word) -> Answer
        ensures answer { IsTold E.does word key.now
            (side self.old.ends (moment (L.faults self.old.link) (L.exchanged self.old.link))) result
            (side self.new.ends (moment (L.faults self.new.link) (L.exchanged self.new.link))) }
        ensures stays { E.place self.new.ends ≡ E.place self.old.ends }
        ensures later { L.faults self.old.link ≤ L.faults self.new.link }
        ensures short { IsWritable result }
    {
        answer_to_word(self.ends.tell(word, key))
    }

    /// The answer of a word on the end of a subtransaction, which changes nothing here.
    fn answer_subtransaction(&mut self, key: &ObjectKey) -> Answer
        ensures answer { HearsOfSubtransaction E.does key.now
            (side self.old.ends (moment (L.faults self.old.link) (L.exchanged self.old.link))) result
            (side self.new.ends (moment (L.faults self.new.link) (L.exchanged self.new.link))) }
        ensures stays { E.place self.new.ends ≡ E.place self.old.ends }
        ensures later { L.faults self.old.link ≤ L.faults self.new.link }
        ensures short { IsWritable result }
    {
        if self.ends.has(key) {
            Answer::Plain(Given::Nothing)
        } else {
            answer_without_step(SystemException::ObjectNotExist)
        }
    }
}

impl<R: Wait, E: Ends, L: Link, C: Clock> Servant for EndServant<R, E, L, C> {
    ghost use Rattle.std.specs.Prelude.{◌≡◌};
    ghost use Rattle.outward_calls.specs.Moment.{moment};
    ghost use Rattle.end_server.specs.Answers.{AnswersCall, IsThere};
    ghost use Rattle.end_server.specs.Serving.{side};
    ghost use Rattle.end_server.specs.Ticking.{TicksEnd};

    ghost faults = { λ s. L.faults s.link };

    ghost finds = { λ before key there after. IsThere E.does (E.place before.ends) key there
        (side before.ends (moment (L.faults before.link) (L.exchanged before.link)))
        (side after.ends (moment (L.faults after.link) (L.exchanged after.link)))
        × (E.place after.ends ≡ E.place before.ends) };

    ghost answers = { λ before called answer after. AnswersCall E.does (E.place before.ends) called
        (side before.ends (moment (L.faults before.link) (L.exchanged before.link))) answer
        (side after.ends (moment (L.faults after.link) (L.exchanged after.link)))
        × (E.place after.ends ≡ E.place before.ends) };

    ghost ticks = { λ before said after. TicksEnd E.does (E.place before.ends)
        (side before.ends (moment (L.faults before.link) (L.exchanged before.link))) said
        (side after.ends (moment (L.faults after.link) (L.exchanged after.link)))
        × (E.place after.ends ≡ E.place before.ends) };

    fn is_there(&mut self, key: &ObjectKey) -> bool {
        *key == cells_key(self.ends.service()) || self.ends.has(key)
    }

    fn answer(&mut self, called: &Called) -> Result<Answer, ServeFault> {
        match asked_of(&called.call) {
            Asked::Put(cell, value) => Ok(self.answer_put(called, cell, value)),
            Asked::Get(cell) => Ok(self.answer_get(called, cell)),
            Asked::Word(word) => Ok(self.answer_word(&called.key, word)),
            Asked::Subtransaction => Ok(self.answer_subtransaction(&called.key)),
            Asked::Other => Ok(answer_without_step(SystemException::ObjectNotExist)),
        }
    }

    fn tick(&mut self) -> Result<(), ServeFault> {
        tick_end(&self.rt, self.alloc, &mut self.ends, &mut self.link)
    }

    fn pause(&mut self) {
        self.clock.pause();
    }
}

/// Servants of an end: as many as there are links and clocks for.
#[tactic(auto, using(crate::proofs::Counts::least, crate::proofs::Counts::one_more))]
pub fn servants_of<R: Copy + Wait, D: Disk + Drop, L: Drop, C: Drop>(
    rt: &R,
    alloc: Global,
    shared: &SharedEnd<R, D>,
    links: Vec<L>,
    clocks: Vec<C>,
) -> Result<Vec<EndServant<R, SharedEnd<R, D>, L, C>>, AllocError>
    ensures count { IfOk result (λ servants. length servants.items ≡ min (length links.items) (length clocks.items)) }
    ensures place { IfOk result
        (λ servants. All (λ servant. place_of servant.ends ≡ place_of shared.now) servants.items) }
{
    let mut links = links;
    let mut clocks = clocks;
    let mut servants = Vec::with_capacity(alloc, links.len())?;
    for number in 0..links.len() {
        let Some(clock) = clocks.pop() else {
            return Ok(servants);
        };
        let Some(link) = links.pop() else {
            return Ok(servants);
        };
        let ends = shared.share()?;
        servants.push(EndServant {
            rt: *rt,
            alloc,
            ends,
            link,
            clock,
        })?;
    }
    Ok(servants)
}
