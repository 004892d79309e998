ghost use Rattle.std.specs.Prelude.{◌≡◌};
ghost use Rattle.resource_end.specs.States.{end_of, holds, is_prepared, is_unfinished, learnt, made, state_of, stores};
ghost use Rattle.resource_end.specs.Calls.{choice, is_fresh, is_open};
ghost use Rattle.resource_end.specs.Table.{on_commit, on_commit_one_phase, on_forget, on_prepare, on_rollback, row};

use crate::fault::EndFault;
use decision_journal::CellsEnd;
use ots_model::tree::Heard;
use ots_model::{Decision, Disposition, PhaseHeard, Status, Vote};

/// How a resource stands.
#[derive(Clone, Copy)]
pub enum State {
    /// It was made, and nothing was put.
    Fresh,
    /// Something was put.
    Working,
    /// It is to vote rollback.
    Refused,
    /// It has voted commit, and waits for the outcome.
    Prepared,
    /// Its puts are stored.
    Applied,
    /// Its puts are dropped.
    Undone,
    /// It decided by itself to commit, and its puts are stored.
    ChoseCommit,
    /// It decided by itself to roll back, and its puts are dropped.
    ChoseRollback,
    /// It was forgotten, or never known.
    Forgotten,
}

impl State {
    /// Whether it isn't over for it.
    pub fn is_unfinished(self) -> bool
        ensures { result ≡ is_unfinished self }
    {
        matches!(
            self,
            State::Fresh | State::Working | State::Refused | State::Prepared
        )
    }

    /// Whether its puts are its own still, so that it holds their cells.
    pub fn holds(self) -> bool
        ensures { result ≡ holds self }
    {
        matches!(self, State::Working | State::Prepared)
    }

    /// Whether nothing was put.
    pub(crate) fn is_fresh(self) -> bool
        ensures { result ≡ is_fresh self }
    {
        matches!(self, State::Fresh)
    }

    /// Whether it waits for an outcome.
    pub(crate) fn is_prepared(self) -> bool
        ensures { result ≡ is_prepared self }
    {
        matches!(self, State::Prepared)
    }

    /// Whether it can put.
    pub(crate) fn is_open(self) -> bool
        ensures { result ≡ is_open self }
    {
        matches!(self, State::Fresh | State::Working)
    }

    /// What a choice of its own makes of it.
    pub(crate) fn of_choice(d: Decision) -> State
        ensures { result ≡ choice d }
    {
        match d {
            Decision::Commit => State::ChoseCommit,
            Decision::Rollback => State::ChoseRollback,
        }
    }

    /// Whether a change into another state stores its puts.
    pub fn stores(self, next: State) -> bool
        ensures { result ≡ stores self next }
    {
        self.holds() && matches!(next, State::Applied | State::ChoseCommit)
    }

    /// How a record says that one which had prepared changed into this state. No record says that of a state which comes
    /// before.
    pub fn end(self) -> Option<CellsEnd>
        ensures { result ≡ end_of self }
    {
        match self {
            State::Fresh | State::Working | State::Refused | State::Prepared => None,
            State::Applied => Some(CellsEnd::Applied),
            State::Undone => Some(CellsEnd::Undone),
            State::ChoseCommit => Some(CellsEnd::ChoseCommit),
            State::ChoseRollback => Some(CellsEnd::ChoseRollback),
            State::Forgotten => Some(CellsEnd::Forgotten),
        }
    }

    /// The state that a record of an outcome tells.
    pub fn of_end(end: CellsEnd) -> State
        ensures { result ≡ state_of end }
    {
        match end {
            CellsEnd::Applied => State::Applied,
            CellsEnd::Undone => State::Undone,
            CellsEnd::ChoseCommit => State::ChoseCommit,
            CellsEnd::ChoseRollback => State::ChoseRollback,
            CellsEnd::Forgotten => State::Forgotten,
        }
    }

    /// What it becomes by the answer to its ask, where it becomes anything.
    pub fn learns(self, heard: &Heard) -> Option<State>
        ensures { result ≡ learnt self heard.now }
    {
        match (self, heard) {
            (State::Prepared, Heard::Told(Status::Committing | Status::Committed)) => Some(
                State::Applied,
            ),
            (
                State::Prepared,
                Heard::Told(Status::RollingBack | Status::RolledBack)
                | Heard::Phase(PhaseHeard::NoObject),
            ) => Some(State::Undone),
            _ => None,
        }
    }

    /// The status by which a change into this state is shown, where a word or an answer may lead there.
    pub fn shown(self) -> Option<Status>
        ensures { result ≡ made self }
    {
        match self {
            State::Prepared => Some(Status::Prepared),
            State::Applied => Some(Status::Committed),
            State::Undone => Some(Status::RolledBack),
            State::Forgotten => Some(Status::NoTransaction),
            _ => None,
        }
    }

    /// What it answers to a word, and what it becomes.
    pub fn row(self, word: Word) -> Row
        ensures { result ≡ row word self }
    {
        match word {
            Word::Prepare => self.on_prepare(),
            Word::Commit => self.on_commit(),
            Word::Rollback => self.on_rollback(),
            Word::CommitOnePhase => self.on_commit_one_phase(),
            Word::Forget => self.on_forget(),
        }
    }

    fn on_prepare(self) -> Row
        ensures { result ≡ on_prepare self }
    {
        match self {
            State::Fresh => Row::becomes(PhaseHeard::Voted(Vote::VoteReadOnly), State::Forgotten),
            State::Working => Row::becomes(PhaseHeard::Voted(Vote::VoteCommit), State::Prepared),
            State::Refused => Row::becomes(PhaseHeard::Voted(Vote::VoteRollback), State::Undone),
            State::Undone => Row::stays(PhaseHeard::Voted(Vote::VoteRollback)),
            State::Forgotten => Row::nobody(),
            _ => Row::stays(PhaseHeard::Voted(Vote::VoteCommit)),
        }
    }

    fn on_commit(self) -> Row
        ensures { result ≡ on_commit self }
    {
        match self {
            State::Prepared | State::ChoseCommit => Row::becomes(PhaseHeard::Done, State::Applied),
            State::Applied => Row::stays(PhaseHeard::Done),
            State::ChoseRollback => Row::stays(PhaseHeard::Heuristic(Disposition::RolledBack)),
            State::Forgotten => Row::nobody(),
            _ => Row::stays(PhaseHeard::NotPrepared),
        }
    }

    fn on_rollback(self) -> Row
        ensures { result ≡ on_rollback self }
    {
        match self {
            State::Applied | State::Undone => Row::stays(PhaseHeard::Done),
            State::ChoseCommit => Row::stays(PhaseHeard::Heuristic(Disposition::Committed)),
            State::Forgotten => Row::nobody(),
            _ => Row::becomes(PhaseHeard::Done, State::Undone),
        }
    }

    fn on_commit_one_phase(self) -> Row
        ensures { result ≡ on_commit_one_phase self }
    {
        match self {
            State::Fresh => Row::becomes(PhaseHeard::Done, State::Forgotten),
            State::Working | State::Prepared | State::ChoseCommit => Row::becomes(
                PhaseHeard::Done,
                State::Applied,
            ),
            State::Refused => Row::becomes(PhaseHeard::RolledBack, State::Undone),
            State::Applied => Row::stays(PhaseHeard::Done),
            State::Undone => Row::stays(PhaseHeard::RolledBack),
            State::ChoseRollback => Row::stays(PhaseHeard::Heuristic(Disposition::Unknown)),
            State::Forgotten => Row::nobody(),
        }
    }

    fn on_forget(self) -> Row
        ensures { result ≡ on_forget self }
    {
        match self {
            State::ChoseCommit | State::ChoseRollback => Row::becomes(
                PhaseHeard::Done,
                State::Forgotten,
            ),
            State::Forgotten => Row::nobody(),
            _ => Row::stays(PhaseHeard::Done),
        }
    }
}

/// What a resource is told.
#[derive(Clone, Copy)]
pub enum Word {
    /// `prepare`: vote.
    Prepare,
    /// `commit`: make the puts last.
    Commit,
    /// `rollback`: drop the puts.
    Rollback,
    /// `commit_one_phase`: decide alone.
    CommitOnePhase,
    /// `forget`: the choice is known, and need not be kept.
    Forget,
}

/// What a resource answers to a word, and what it becomes, where it changes.
#[derive(Drop)]
pub struct Row {
    /// The answer.
    pub said: Result<Heard, EndFault>,
    /// How it stands then, where it stands otherwise than before.
    pub next: Option<State>,
}

impl Row {
    ghost use Rattle.resource_end.specs.Table.{becomes, nobody, stays};

    fn stays(heard: PhaseHeard) -> Row
        ensures { result ≡ stays heard }
    {
        Row {
            said: Ok(Heard::Phase(heard)),
            next: None,
        }
    }

    fn becomes(heard: PhaseHeard, next: State) -> Row
        ensures { result ≡ becomes heard next }
    {
        Row {
            said: Ok(Heard::Phase(heard)),
            next: Some(next),
        }
    }

    fn nobody() -> Row
        ensures { result ≡ nobody }
    {
        Row {
            said: Err(EndFault::ObjectNotExist),
            next: None,
        }
    }
}
