//! The fixed words of lines.

ghost use Rattle.std.specs.Prelude.{◌≡◌};
ghost use Rattle.ots_model.specs.Words as words;

use crate::completion::{Ground, Vote, Word};
use crate::line::{Decision, ResourceState};

impl Vote {
    /// Its name in module CosTransactions.
    pub fn text(self) -> &'static [u8]
        ensures { result.now ≡ words.vote_word self }
    {
        match self {
            Vote::VoteCommit => b"VoteCommit",
            Vote::VoteRollback => b"VoteRollback",
            Vote::VoteReadOnly => b"VoteReadOnly",
        }
    }
}

impl Word {
    /// Its name in interface Resource.
    pub(crate) fn text(self) -> &'static [u8]
        ensures { result.now ≡ words.told_word self }
    {
        match self {
            Word::Prepare => b"prepare",
            Word::Commit => b"commit",
            Word::CommitOnePhase => b"commit_one_phase",
            Word::Rollback => b"rollback",
        }
    }
}

impl ResourceState {
    /// Its word in a line.
    pub(crate) fn text(self) -> &'static [u8]
        ensures { result.now ≡ words.state_word self }
    {
        match self {
            ResourceState::Prepared => b"prepared",
            ResourceState::Applied => b"applied",
            ResourceState::Undone => b"undone",
            ResourceState::Forgotten => b"forgotten",
        }
    }
}

impl Decision {
    /// Its word in a line.
    pub(crate) fn text(self) -> &'static [u8]
        ensures { result.now ≡ words.decision_word self }
    {
        match self {
            Decision::Commit => b"commit",
            Decision::Rollback => b"rollback",
        }
    }
}

impl Ground {
    /// Its word in a line.
    pub(crate) fn text(self) -> &'static [u8]
        ensures { result.now ≡ words.ground_word self }
    {
        match self {
            Ground::Record => b"record",
            Ground::OnePhase => b"phase",
            Ground::Nobody => b"none",
        }
    }
}

/// How a subtransaction ended.
pub(crate) fn ending_text(committed: bool) -> &'static [u8]
    ensures { result.now ≡ words.ending_word committed }
{
    if committed {
        b"committed"
    } else {
        b"rolledback"
    }
}
