// What a step brings, in memory that was taken before it.
ghost use Rattle.std.specs.Prelude.{◌≡◌, ◌==◌, ◌<◌, ◌≤◌, ◌+◌, ◌∷◌, ◌++◌, [], length, map, Some, IfOk, vec_len, vec_capacity};
ghost use Rattle.std.specs.Option.{option_copied, option_to_list};
ghost use Rattle.family_rules.specs.Calls as calls;
ghost use Rattle.family_rules.specs.Calls.{said_of};
ghost use Rattle.family_rules.specs.Changes.{IsReplied, finished_of, nothing_yet, word_to};
ghost use Rattle.coordinator.specs.Moves.{answer_to, fixed_now};
ghost use Rattle.coordinator.specs.Step as steps;
ghost use Rattle.family_rules.specs.declared.draft.Told.{Told as ToldAnswer};
ghost use Rattle.std.specs.List.{find};

use crate::call::{Reply, Task};
use crate::parts::Parts;
use crate::spare::{Spare, empty_queue, taken};
use coordinator::{Answers, Effect, Effects, Finished, Said};
use ots_model::CallNumber;
use ots_model::tree::{Outcome, Outward, Word};
use resource_votes::Registration;
use std::alloc::AllocError;
use std::collections::VecDeque;
use std::marker::Model;

/// The answer to the call of that entry.
#[derive(Clone, Copy)]
pub(crate) struct Told {
    pub(crate) position: u32,
    pub(crate) reply: Reply,
}

/// What a step brings. Contracts see the word that goes out, the answers, the effects and the tasks that were gathered, and
/// for how many more memory is taken.
#[derive(Drop)]
pub struct Draft {
    pub(crate) parts: Box<Parts>,
    pub(crate) tasks: VecDeque<Task>,
}

impl Told {
    /// As it is told.
    fn finished(self) -> Finished
        ensures { result ≡ finished_of self }
    {
        Finished {
            position: self.position,
            said: self.reply.said(),
        }
    }
}

/// What a step brought: the word that goes out, the answers to earlier calls, once for the caller and once for the history,
/// and what happened; and the memory that it has left.
#[derive(Drop)]
pub struct Brought {
    pub word: Option<Outward>,
    pub told: Answers,
    pub kept: Answers,
    pub effects: Effects,
    pub spare: Spare,
}

impl Model for Draft {
    ghost use Rattle.family_rules.specs.Changes.{DraftParts};

    ghost Value = { DraftParts };

    ghost use Rattle.family_rules.specs.DraftInside.{shown, IsSound};

    ghost view = { shown };

    ghost invariant = { IsSound };
}

impl Draft {
    /// Memory for so many answers and effects, and for so many tasks, some of it left by an earlier step.
    pub(crate) fn new(spare: Spare, room: usize, tasks: usize) -> Result<Draft, AllocError>
        ensures nothing { IfOk result (λ d. d.changes ≡ (nothing_yet 0 0).changes) }
        ensures room { IfOk result (λ d. room ≤ d.room) }
        ensures tasks { IfOk result (λ d. tasks ≤ d.tasks_room) }
    {
        let Spare {
            mut parts,
            tasks: mut queue,
        } = spare;
        parts.make_room(room)?;
        empty_queue(&mut queue, tasks)?;
        Ok(Draft {
            parts,
            tasks: queue,
        })
    }

    /// What the call of the entry at this place is said at once: its answer, where it has ended, else this.
    #[tactic(auto, using(crate::proofs::Handed::said_by))]
    pub fn said_now(&self, position: u32, otherwise: Said) -> Said
        ensures said { result ≡ steps.said_now position self.now.changes.finished otherwise }
        ensures replied { IsReplied otherwise result }
    {
        match told_at(&self.parts.finished, position) {
            Some(told) => told.reply.said(),
            None => otherwise,
        }
    }

    /// What the step brought, where its entry stands at this place.
    pub fn brought(self, position: u32) -> Brought
        ensures word { option_to_list result.word ≡ self.changes.words }
        ensures told { result.told ≡ steps.said_later position self.changes.finished }
        ensures kept { result.kept ≡ steps.said_later position self.changes.finished }
        ensures effects { result.effects ≡ self.changes.effects }
    {
        let Draft { mut parts, tasks } = self;
        let gathered = &mut *parts;
        put_later(&gathered.finished, position, &mut gathered.told);
        put_later(&gathered.finished, position, &mut gathered.kept);
        Brought {
            word: gathered.word.take(),
            told: Answers::from_vec(taken(&mut gathered.told)),
            kept: Answers::from_vec(taken(&mut gathered.kept)),
            effects: Effects::from_vec(taken(&mut gathered.effects)),
            spare: Spare { parts, tasks },
        }
    }

    /// Whether tasks were gathered.
    pub fn has_tasks(&self) -> bool
        ensures { result ≡ calls.has_tasks self.now.changes.tasks }
    {
        !self.tasks.is_empty()
    }

    /// Something happened.
    pub fn show(&mut self, effect: Effect)
        requires room { 0 < self.old.room }
        ensures shown { self.new.changes
            ≡ record self.old.changes { effects = self.old.changes.effects ++ effect ∷ [] } }
        ensures room { self.old.room ≤ self.new.room + 1 }
        ensures tasks_room { self.new.tasks_room ≡ self.old.tasks_room }
    {
        self.parts.effects.push_reserved(effect);
    }

    /// Something happened, if it did.
    pub fn show_vote(&mut self, effect: Option<Effect>)
        requires room { 0 < self.old.room }
        ensures shown { self.new.changes
            ≡ record self.old.changes { effects = self.old.changes.effects ++ option_to_list effect } }
        ensures room { self.old.room ≤ self.new.room + 1 }
        ensures tasks_room { self.new.tasks_room ≡ self.old.tasks_room }
    {
        if let Some(effect) = effect {
            self.show(effect);
        }
    }

    /// Something happened, and a call that waits for its answer is given it.
    pub fn show_answered(&mut self, effect: Effect, caller: Option<u32>, reply: Reply)
        requires room { 0 < self.old.room }
        ensures shown { self.new.changes ≡ record self.old.changes {
          finished = self.old.changes.finished ++ answer_to caller (said_of reply);
          effects = self.old.changes.effects ++ effect ∷ [];
        } }
        ensures room { self.old.room ≤ self.new.room + 1 }
        ensures tasks_room { self.new.tasks_room ≡ self.old.tasks_room }
    {
        self.parts.effects.push_reserved(effect);
        if let Some(position) = caller {
            self.parts.finished.push_reserved(Told { position, reply });
        }
    }

    /// An outcome is told that wasn't fixed before.
    pub fn show_fixed(&mut self, before: Option<Outcome>, after: Option<Outcome>)
        requires room { 0 < self.old.room }
        ensures shown { self.new.changes
            ≡ record self.old.changes { effects = self.old.changes.effects ++ fixed_now before after } }
        ensures room { self.old.room ≤ self.new.room + 1 }
        ensures tasks_room { self.new.tasks_room ≡ self.old.tasks_room }
    {
        if let (None, Some(fixed)) = (before, after) {
            self.show(Effect::Decided(fixed));
        }
    }

    /// A call that waits for its answer is given it.
    pub fn answer(&mut self, caller: Option<u32>, reply: Reply)
        requires room { 0 < self.old.room }
        ensures answered { self.new.changes
            ≡ record self.old.changes { finished = self.old.changes.finished ++ answer_to caller (said_of reply) } }
        ensures room { self.old.room ≤ self.new.room + 1 }
        ensures tasks_room { self.new.tasks_room ≡ self.old.tasks_room }
    {
        if let Some(position) = caller {
            self.parts.finished.push_reserved(Told { position, reply });
        }
    }

    /// A word to a registration or a synchronization goes out.
    pub fn post(&mut self, number: CallNumber, word: Word, to: &Registration)
        requires quiet { self.old.changes.words ≡ [] }
        ensures sent { self.new.changes
            ≡ record self.old.changes { words = word_to number word to.now ∷ [] } }
        ensures room { self.new.room ≡ self.old.room }
        ensures tasks_room { self.new.tasks_room ≡ self.old.tasks_room }
    {
        let blank = self.parts.blank.take().unwrap();
        self.parts.word = Some(Outward {
            number,
            registration: to.index,
            to: blank.filled(&to.to),
            word,
            receipt: None,
        });
    }

    /// A word goes out.
    pub fn send(&mut self, word: Outward)
        requires quiet { self.old.changes.words ≡ [] }
        ensures sent { self.new.changes ≡ record self.old.changes { words = word ∷ [] } }
        ensures room { self.new.room ≡ self.old.room }
        ensures tasks_room { self.new.tasks_room ≡ self.old.tasks_room }
    {
        self.parts.word = Some(word);
    }
}

/// The answer to the call of the entry at this place, where it has ended.
fn told_at(finished: &[Told], position: u32) -> Option<&Told>
    ensures { option_copied result
        ≡ find (λ (t : ToldAnswer). t.position == position) finished.now }
{
    finished.iter().find(|t| t.position == position)
}

/// Puts the answers of other calls behind these.
fn put_later(finished: &[Told], position: u32, into: &mut Vec<Finished>)
    requires room { vec_len into.old + length finished.now ≤ vec_capacity into.old }
    ensures { into.new.items
        ≡ into.old.items ++ steps.said_later position (map finished_of finished.now) }
{
    for told in finished {
        if told.position != position {
            into.push_reserved(told.finished());
        }
    }
}
