ghost use Rattle.std.specs.Prelude.{◌≡◌, ◌<◌, [], ◌∷◌, ◌++◌, length};
ghost use Rattle.two_phase.specs.Limits.{disposition_limit};

use ots_model::Disposition;
use std::marker::Model;

/// How many there are at most: each participant's answers to its first word and to the one that tells the outcome.
const DISPOSITION_LIMIT: usize = 128;

/// What became of the updates of several participants, in list order. It has all its room in itself, so it takes no memory.
/// Contracts see a list.
#[derive(Drop)]
pub struct Dispositions {
    members: [Disposition; DISPOSITION_LIMIT],
    count: usize,
}

impl Model for Dispositions {
    ghost use Rattle.std.specs.Prelude.{◌≤◌, List, take};
    ghost use Rattle.ots_model.specs.declared.completion.Disposition.{Disposition as Became};
    ghost use Rattle.two_phase.specs.Limits.{disposition_limit};

    ghost Value = { List Became };

    ghost view = { λ d. take d.count d.members };

    ghost invariant = { λ d. d.count ≤ disposition_limit };
}

impl Dispositions {
    /// None.
    pub(crate) fn new() -> Dispositions
        ensures { result ≡ [] }
    {
        Dispositions {
            members: [Disposition::Unknown; DISPOSITION_LIMIT],
            count: 0,
        }
    }

    /// One more, behind the others.
    pub(crate) fn push(&mut self, disposition: Disposition)
        requires { length self.old < disposition_limit }
        ensures { self.new ≡ self.old ++ disposition ∷ [] }
    {
        self.members[self.count] = disposition;
        self.count += 1;
    }

    /// The dispositions, for the joins of `heuristic_join`.
    pub fn as_slice(&self) -> &[Disposition]
        ensures { result.now ≡ self.now }
    {
        &self.members[..self.count]
    }
}
