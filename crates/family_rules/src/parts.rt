// What a step gathers besides its tasks, in a block that the next step may use again.
ghost use Rattle.std.specs.Prelude.{◌≡◌, ◌≤◌, [], None, IsSome, OnOk, vec_capacity};

use crate::draft::Told;
use crate::spare::empty;
use coordinator::{Effect, Finished};
use ots_model::tree::Outward;
use std::alloc::{AllocError, Global};
use two_phase::Blank;

/// The word that goes out, the answers and the effects, and memory for them.
#[derive(Drop)]
pub(crate) struct Parts {
    pub word: Option<Outward>,
    pub blank: Option<Blank>,
    pub finished: Vec<Told>,
    pub effects: Vec<Effect>,
    /// Where the answers are put for the caller, once the step is over.
    pub told: Vec<Finished>,
    /// Where they are put for the history.
    pub kept: Vec<Finished>,
}

impl Parts {
    /// Nothing, and no memory for more.
    pub(crate) fn new(alloc: Global) -> Parts {
        Parts {
            word: None,
            blank: None,
            finished: Vec::new(alloc),
            effects: Vec::new(alloc),
            told: Vec::new(alloc),
            kept: Vec::new(alloc),
        }
    }

    /// Nothing, and memory for so many answers and effects and for the reference of a word.
    pub(crate) fn make_room(&mut self, room: usize) -> Result<(), AllocError>
        ensures word { OnOk result (self.new.word ≡ None) }
        ensures blank { OnOk result (IsSome self.new.blank) }
        ensures finished { OnOk result (self.new.finished.items ≡ []) }
        ensures finished_room { OnOk result (room ≤ vec_capacity self.new.finished) }
        ensures effects { OnOk result (self.new.effects.items ≡ []) }
        ensures effects_room { OnOk result (room ≤ vec_capacity self.new.effects) }
        ensures told { OnOk result (self.new.told.items ≡ []) }
        ensures told_room { OnOk result (room ≤ vec_capacity self.new.told) }
        ensures kept { OnOk result (self.new.kept.items ≡ []) }
        ensures kept_room { OnOk result (room ≤ vec_capacity self.new.kept) }
    {
        self.word = None;
        if self.blank.is_none() {
            self.blank = Some(Blank::new(*self.told.allocator())?);
        }
        empty(&mut self.finished, room)?;
        empty(&mut self.effects, room)?;
        empty(&mut self.told, room)?;
        empty(&mut self.kept, room)
    }
}
