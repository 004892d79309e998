ghost use Rattle.std.specs.Prelude.{◌≡◌};
ghost use Rattle.coordinator.specs.Phases.{status_by, top_column};
ghost use Rattle.coordinator.specs.Table.{replay_by};

use crate::said::Said;
use ots_model::Status;
use ots_model::tree::Outcome;

/// How far a top-level transaction has come.
#[derive(Clone, Copy, Debug, PartialEq, Eq)]
pub enum Phase {
    /// A subordinate that its superior has not taken yet.
    Joining,
    /// It is going on.
    Active,
    /// It can only be rolled back.
    Marked,
    /// It is to commit: live subtransactions are rolled back, and synchronizations are called.
    Finishing,
    /// Its participants are asked for their votes.
    Preparing,
    /// Its only participant decides alone.
    OnePhase,
    /// Nobody knows whether its record stands.
    Doubt,
    /// A subordinate that waits for its superior's outcome.
    Prepared,
    /// It commits.
    Committing,
    /// It rolls back.
    RollingBack,
    /// It has ended so.
    Ended(Outcome),
}

impl Phase {
    /// The status that is shown. `marked` says whether the transaction is marked.
    pub fn status(self, marked: bool) -> Status
        ensures { result ≡ status_by self marked }
    {
        match self {
            Phase::Joining | Phase::Active | Phase::Finishing if marked => Status::MarkedRollback,
            Phase::Joining | Phase::Active | Phase::Finishing => Status::Active,
            Phase::Marked => Status::MarkedRollback,
            Phase::Preparing => Status::Preparing,
            Phase::OnePhase | Phase::Doubt | Phase::Ended(Outcome::Unknown) => Status::Unknown,
            Phase::Prepared => Status::Prepared,
            Phase::Committing => Status::Committing,
            Phase::RollingBack => Status::RollingBack,
            Phase::Ended(Outcome::Commit(_)) => Status::Committed,
            Phase::Ended(Outcome::Rollback(_)) => Status::RolledBack,
        }
    }

    /// How a top-level transaction stands for a client's calls.
    pub fn column(self) -> Column
        ensures { result ≡ top_column self }
    {
        match self {
            Phase::Active => Column::Active,
            Phase::Marked => Column::Marked,
            Phase::Finishing => Column::Finishing,
            Phase::RollingBack | Phase::Ended(Outcome::Rollback(_)) => Column::RolledBack,
            _ => Column::Past,
        }
    }

    /// What an ask of a participant is answered, where this is the status. `voted` says whether that participant has voted
    /// commit.
    pub fn replayed(self, voted: bool, status: Status) -> Said
        ensures { result ≡ replay_by self voted status }
    {
        match self {
            Phase::Joining | Phase::Active | Phase::Marked | Phase::Finishing | Phase::OnePhase =>
                Said::NotPrepared,
            Phase::Preparing if !voted => Said::NotPrepared,
            _ => Said::State(status),
        }
    }
}

/// How a transaction stands for a client's calls.
#[derive(Clone, Copy, Debug, PartialEq, Eq)]
pub enum Column {
    /// It is going on.
    Active,
    /// It can only be rolled back.
    Marked,
    /// It is to commit, and nobody was asked.
    Finishing,
    /// It is rolling back, or was rolled back.
    RolledBack,
    /// It has gone farther in any other way.
    Past,
}

impl Column {
    ghost use Rattle.coordinator.specs.Phases.{is_open};

    /// Whether it is for the tree to say what may be registered with the transaction.
    pub fn is_open(self) -> bool
        ensures { result ≡ is_open self }
    {
        matches!(self, Column::Active | Column::Marked | Column::Finishing)
    }
}
