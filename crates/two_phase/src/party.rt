// One participant, and what it has answered.
ghost use Rattle.std.specs.Prelude.{◌≡◌};
ghost use Rattle.std.specs.Option.{option_map};
ghost use Rattle.two_phase.specs.Course as course;
ghost use Rattle.two_phase.specs.Parties as parties;

use ots_model::tree::{Outcome, Reason};
use ots_model::{Decision, Disposition, Ground, PhaseHeard, PhaseReason, RefBytes, Vote};

/// A participant of a completion: its registration, where its words go, and what it has answered to the first one, to
/// the one that tells the outcome, and to forget.
#[derive(Drop)]
pub(crate) struct Party {
    pub index: u32,
    pub to: RefBytes,
    pub ballot: Option<PhaseHeard>,
    pub told: Option<PhaseHeard>,
    pub forgot: Option<PhaseHeard>,
}

/// The words that a participant is sent: one that asks it, one that tells the outcome, and forget.
#[derive(Clone, Copy)]
pub(crate) enum Stage {
    Asking,
    Telling,
    Forgetting,
}

/// A word to the participant at this place.
#[derive(Clone, Copy)]
pub(crate) struct Errand {
    pub stage: Stage,
    pub place: usize,
}

/// Whether an answer to prepare lets the asking go on.
fn consents(heard: PhaseHeard) -> bool
    ensures { result ≡ parties.consents heard }
{
    matches!(
        heard,
        PhaseHeard::Voted(Vote::VoteCommit | Vote::VoteReadOnly)
    )
}

impl Party {
    /// Whether it has answered its first word by a vote that lets the asking go on.
    pub fn has_consented(&self) -> bool
        ensures { result ≡ parties.has_consented self.now }
    {
        self.ballot.is_some_and(|h| consents(h))
    }

    /// Whether it has answered its first word by anything else.
    pub fn has_refused(&self) -> bool
        ensures { result ≡ parties.has_refused self.now }
    {
        self.ballot.is_some_and(|h| !consents(h))
    }

    /// Whether it has voted commit.
    pub fn has_voted_commit(&self) -> bool
        ensures { result ≡ parties.has_voted_commit self.now }
    {
        matches!(self.ballot, Some(PhaseHeard::Voted(Vote::VoteCommit)))
    }

    /// Whether it hasn't answered its first word.
    pub fn is_unasked(&self) -> bool
        ensures { result ≡ parties.is_unasked self.now }
    {
        self.ballot.is_none()
    }

    /// Whether this outcome is told to it, where `alone` says that it was to decide alone.
    pub fn is_told(&self, alone: bool, fixed: Outcome) -> bool
        ensures { result ≡ parties.is_told alone fixed self.now }
    {
        match fixed {
            Outcome::Commit(_) => self.has_voted_commit(),
            Outcome::Rollback(_) => hears_rollback(alone, self.ballot),
            Outcome::Unknown => false,
        }
    }

    /// Whether it is still to be told this outcome.
    pub fn is_untold(&self, alone: bool, fixed: Outcome) -> bool
        ensures { result ≡ parties.is_untold alone fixed self.now }
    {
        self.told.is_none() && self.is_told(alone, fixed)
    }

    /// Whether it was told the outcome and has not completed.
    pub fn is_incomplete(&self) -> bool
        ensures { result ≡ parties.is_incomplete self.now }
    {
        self.told.is_some_and(|h| !completes(h))
    }

    /// Whether it has completed.
    fn has_completed(&self) -> bool
        ensures { result ≡ parties.has_completed self.now }
    {
        self.told.is_some_and(|h| completes(h))
    }

    /// Whether it has completed, if it was to be told this outcome.
    pub fn is_through(&self, alone: bool, fixed: Outcome) -> bool
        ensures { result ≡ parties.is_through alone fixed self.now }
    {
        !self.is_told(alone, fixed) || self.has_completed()
    }

    /// Whether it is owed a word of this stage after a commit.
    pub fn is_owed(&self, stage: Stage) -> bool
        ensures { result ≡ parties.is_owed stage self.now }
    {
        match stage {
            Stage::Asking => false,
            Stage::Telling => self.has_voted_commit() && !self.has_completed(),
            Stage::Forgetting => self.has_raised() && !self.forgot.is_some_and(|h| lets_go(h)),
        }
    }

    /// What its answer to the word that tells this decision says of its updates.
    pub fn disposition(&self, told: Decision) -> Option<Disposition>
        ensures { result ≡ option_map (parties.disposition_by told) (self.now).told }
    {
        let heard = self.told?;
        Some(disposition_by(told, heard))
    }

    /// Whether it is still to be told to forget a heuristic outcome.
    pub fn is_unforgotten(&self) -> bool
        ensures { result ≡ parties.is_unforgotten self.now }
    {
        self.forgot.is_none() && self.has_raised()
    }

    /// What it answers to the word of this stage.
    pub fn hear(&mut self, stage: Stage, heard: PhaseHeard)
        ensures { self.new ≡ course.heard_at stage heard self.old }
    {
        match stage {
            Stage::Asking => self.ballot = Some(heard),
            Stage::Telling => self.told = Some(heard),
            Stage::Forgetting => self.forgot = Some(heard),
        }
    }

    /// Whether it has raised a heuristic exception.
    fn has_raised(&self) -> bool
        ensures { result ≡ parties.has_raised self.now }
    {
        self.ballot.is_some_and(|h| is_heuristic(h)) || self.told.is_some_and(|h| is_heuristic(h))
    }
}

/// Whether a rollback is told to a participant with this answer to its first word.
fn hears_rollback(alone: bool, ballot: Option<PhaseHeard>) -> bool
    ensures { result ≡ parties.hears_rollback alone ballot }
{
    match ballot {
        None => true,
        Some(PhaseHeard::Voted(Vote::VoteRollback | Vote::VoteReadOnly)) => false,
        Some(_) => !alone,
    }
}

/// Whether an answer to the word that tells the outcome completes a participant.
fn completes(heard: PhaseHeard) -> bool
    ensures { result ≡ parties.completes heard }
{
    matches!(
        heard,
        PhaseHeard::Done | PhaseHeard::NoObject | PhaseHeard::Heuristic(_)
    )
}

/// Whether an answer is a heuristic exception.
fn is_heuristic(heard: PhaseHeard) -> bool
    ensures { result ≡ parties.is_heuristic heard }
{
    matches!(heard, PhaseHeard::Heuristic(_))
}

/// Whether an answer to forget lets go of a heuristic outcome.
fn lets_go(heard: PhaseHeard) -> bool
    ensures { result ≡ parties.lets_go heard }
{
    matches!(heard, PhaseHeard::Done | PhaseHeard::NoObject)
}

/// What the answer to its first word tells of a participant's updates.
pub(crate) fn disposition_of_ballot(ballot: Option<PhaseHeard>) -> Option<Disposition>
    ensures { result ≡ parties.disposition_of_ballot ballot }
{
    match ballot {
        Some(PhaseHeard::Heuristic(disposition)) => Some(disposition),
        _ => None,
    }
}

/// What the answer to the word that tells this decision says of a participant's updates.
fn disposition_by(told: Decision, heard: PhaseHeard) -> Disposition
    ensures { result ≡ parties.disposition_by told heard }
{
    match heard {
        PhaseHeard::Done | PhaseHeard::NoObject => followed(told),
        PhaseHeard::Heuristic(disposition) => disposition,
        _ => Disposition::Unknown,
    }
}

/// What becomes of updates that follow a decision.
fn followed(told: Decision) -> Disposition
    ensures { result ≡ parties.followed told }
{
    match told {
        Decision::Commit => Disposition::Committed,
        Decision::Rollback => Disposition::RolledBack,
    }
}

/// Why an answer to prepare rolls the transaction back.
pub(crate) fn cause_of(registration: u32, heard: PhaseHeard) -> Reason
    ensures { result ≡ parties.reason_of registration heard }
{
    match heard {
        PhaseHeard::Voted(_) => Reason::Phase(PhaseReason::Vote(registration)),
        PhaseHeard::Lost => Reason::Phase(PhaseReason::PrepareLost(registration)),
        PhaseHeard::Starved => Reason::Phase(PhaseReason::PrepareStarved(registration)),
        _ => Reason::Phase(PhaseReason::PrepareFault(registration)),
    }
}

/// What the answer to commit_one_phase says of the outcome.
pub(crate) fn by_answer(registration: u32, heard: PhaseHeard) -> Outcome
    ensures { result ≡ parties.by_answer registration heard }
{
    match heard {
        PhaseHeard::Done => Outcome::Commit(Ground::OnePhase),
        PhaseHeard::RolledBack => Outcome::Rollback(Reason::Phase(PhaseReason::Vote(registration))),
        _ => Outcome::Unknown,
    }
}
