// Words that wait to go out, by slot.
ghost use Rattle.std.specs.Prelude.{◌≡◌, ◌∷◌, MatchOption};

use ots_model::tree::Outward;
use recovery_coord::Outbox;
use std::mem;

/// Words that wait to go out: the next one, and the others.
#[derive(Drop)]
pub(crate) struct Waiting {
    pub(crate) next: Option<Outward>,
    pub(crate) others: Outbox,
}

impl Waiting {
    ghost use Rattle.nodes_seats.specs.Waiting.{BeginsOther, IsPrimed, is_of, waiting_words};

    /// All words of an outbox wait.
    pub(crate) fn of(words: Outbox) -> Waiting
        ensures words { waiting_words result ≡ words.words }
        ensures primed { IsPrimed result }
    {
        let mut others = words;
        let next = others.take();
        Waiting { next, others }
    }

    /// Takes the next word, where it is of a family in this slot.
    pub(crate) fn take_of(&mut self, slot: u32) -> Option<Outward>
        requires primed { IsPrimed self.old }
        ensures taken { MatchOption result (BeginsOther slot (waiting_words self.new))
            (λ o. o.number.slot ≡ slot) }
        ensures words { MatchOption result (waiting_words self.old ≡ waiting_words self.new)
            (λ o. waiting_words self.old ≡ o ∷ waiting_words self.new) }
        ensures primed { IsPrimed self.new }
    {
        if self.is_of(slot) {
            let next = self.others.take();
            mem::replace(&mut self.next, next)
        } else {
            None
        }
    }

    /// Whether the next word is of a family in this slot.
    fn is_of(&self, slot: u32) -> bool
        ensures { result ≡ is_of slot self.now.next }
    {
        match &self.next {
            Some(outward) => outward.number.slot == slot,
            None => false,
        }
    }
}
