// What the registrations of a record wait for, taken together: it tells whether they are worth a look.
ghost use Rattle.std.specs.Prelude.{◌≡◌, ◌&&◌, not, false};
ghost use Rattle.recovery_coord.specs.Waiting as waits;

use crate::held::{Due, Party};

/// Whether a registration of a record waits for commit, and whether one waits for forget.
#[derive(Clone, Copy)]
pub(crate) struct Waiting {
    pub commit: bool,
    pub forget: bool,
}

impl Waiting {
    /// That of no registrations.
    pub(crate) fn none() -> Waiting
        ensures { result ≡ record { commit = false; forget = false } }
    {
        Waiting {
            commit: false,
            forget: false,
        }
    }

    /// The same with one more registration, which waits for this.
    pub(crate) fn with(self, due: Due) -> Waiting
        ensures { result ≡ waits.waiting_with due self }
    {
        Waiting {
            commit: self.commit || matches!(due, Due::Commit),
            forget: self.forget || matches!(due, Due::Forget),
        }
    }

    /// Whether each registration waits for nothing.
    pub(crate) fn is_over(self) -> bool
        ensures { result ≡ (not self.commit && not self.forget) }
    {
        !self.commit && !self.forget
    }

    /// Whether a registration has a word to tell, of a decision or of a prepared record.
    pub(crate) fn has_words(self, decided: bool) -> bool
        ensures { result ≡ waits.have_words decided self }
    {
        self.commit || (decided && self.forget)
    }
}

/// What these registrations wait for.
pub(crate) fn waiting_of(parties: &[Party]) -> Waiting
    ensures { result ≡ waits.waiting_of parties.now }
{
    let mut waiting = Waiting::none();
    for party in parties {
        waiting = waiting.with(party.due);
    }
    waiting
}
