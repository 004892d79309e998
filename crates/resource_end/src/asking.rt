// The asks of the resources that wait for an outcome.
ghost use Rattle.std.specs.Prelude.{◌≡◌, ◌++◌, ◌∷◌, [], OnOk, OnErr};
ghost use Rattle.resource_end.specs.Asking.{HasFrontOf};
ghost use Rattle.resource_end.specs.Inside as inside;

use crate::contents::Contents;
use crate::kept::{Id, Kept, Resources};
use ots_model::CallNumber;
use ots_model::tree::{Outward, Word};
use recovery_coord::Outbox;
use std::alloc::{AllocError, Global};

impl Kept {
    /// Puts its ask behind the other words, where it waits for an outcome.
    fn ask(&self, alloc: Global, id: Id, out: &mut Outbox) -> Result<(), AllocError>
        ensures ok { OnOk result (out.new
            ≡ record out.old { words = out.old.words ++ inside.asks_of (inside.resource_at id self.now ∷ []) }) }
        ensures err { OnErr result (out.new ≡ out.old) }
    {
        if !self.state.is_prepared() {
            return Ok(());
        }
        out.push(Outward {
            number: CallNumber {
                life: id.0,
                slot: 0,
                generation: id.1,
                serial: 0,
            },
            registration: 0,
            to: ok!(self.recovery.copy(alloc)),
            word: Word::ReplayCompletion,
            receipt: None,
        })
    }
}

impl Resources {
    /// Puts the ask of each that waits for an outcome behind the other words. Where memory is wanting a front of them is there.
    /// Those that are over aren't looked at.
    fn asks(&self, out: &mut Outbox) -> Result<(), AllocError>
        ensures ok { OnOk result (out.new.words ≡ out.old.words ++ inside.asks_of self.now) }
        ensures front { HasFrontOf out.old.words (inside.asks_of self.now) out.new.words }
        ensures room { out.new.room ≡ out.old.room }
    {
        for id in &self.unfinished {
            ok!(self.ask(*id, out));
        }
        Ok(())
    }

    /// Puts the ask of this one behind the other words, where it waits for an outcome.
    fn ask(&self, id: Id, out: &mut Outbox) -> Result<(), AllocError>
        ensures ok { OnOk result (out.new
            ≡ record out.old { words = out.old.words ++ inside.asks_by (inside.numbered id self.now) }) }
        ensures err { OnErr result (out.new ≡ out.old) }
    {
        match self.numbered(id) {
            Some(kept) => kept.ask(self.alloc, id, out),
            None => Ok(()),
        }
    }
}

impl Contents {
    /// Puts the ask of each resource that waits for an outcome behind the other words. Where memory is wanting a front of them
    /// is there.
    pub(crate) fn asks(&self, out: &mut Outbox) -> Result<(), AllocError>
        ensures ok { OnOk result (out.new.words ≡ out.old.words ++ inside.asks_of self.now.resources) }
        ensures front { HasFrontOf out.old.words (inside.asks_of self.now.resources) out.new.words }
        ensures room { out.new.room ≡ out.old.room }
    {
        self.resources.asks(out)
    }
}
