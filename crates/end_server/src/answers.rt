// What calls on an end are answered.
ghost use Rattle.std.specs.Prelude.{◌≡◌};
ghost use Rattle.end_server.specs.Answers as answers;
ghost use Rattle.ots_sessions.specs.Replies.{IsWritable};

use ots_calls::{Answer, Completed, Given, SystemException, UserException};
use ots_model::tree::Heard;
use ots_model::{Disposition, PhaseHeard};
use ots_sessions::answer_without_step;
use resource_end::EndFault;

/// The answer of a word that a resource was told.
pub(crate) fn answer_to_word(said: Result<Heard, EndFault>) -> Answer
    ensures answer { result ≡ answers.answer_to_word said }
    ensures short { IsWritable result }
{
    match said {
        Ok(heard) => answer_heard(heard.of_participant()),
        Err(fault) => refused_by(Completed::Maybe, fault),
    }
}

/// The answer by which its caller hears this.
fn answer_heard(heard: PhaseHeard) -> Answer
    ensures answer { result ≡ answers.answer_heard heard }
    ensures short { IsWritable result }
{
    match heard {
        PhaseHeard::Done => Answer::Plain(Given::Nothing),
        PhaseHeard::Voted(vote) => Answer::Plain(Given::Ballot(vote)),
        PhaseHeard::Heuristic(disposition) => Answer::User(heuristic(disposition)),
        PhaseHeard::NotPrepared => Answer::User(UserException::NotPrepared),
        PhaseHeard::RolledBack => answer_without_step(SystemException::TransactionRolledBack),
        PhaseHeard::NoObject => answer_without_step(SystemException::ObjectNotExist),
        PhaseHeard::Other | PhaseHeard::Lost | PhaseHeard::Starved => answer_without_step(
            SystemException::Unknown,
        ),
    }
}

/// The heuristic exception that tells what became of the updates.
fn heuristic(disposition: Disposition) -> UserException
    ensures { result ≡ answers.heuristic disposition }
{
    match disposition {
        Disposition::Committed => UserException::HeuristicCommit,
        Disposition::RolledBack => UserException::HeuristicRollback,
        Disposition::Mixed => UserException::HeuristicMixed,
        Disposition::Unknown => UserException::HeuristicHazard,
    }
}

/// The answer of a call that the end refuses, by whether a step of it may have been made so far.
pub(crate) fn refused_by(so_far: Completed, fault: EndFault) -> Answer
    ensures answer { result ≡ answers.refused_by so_far fault }
    ensures short { IsWritable result }
{
    match fault {
        EndFault::Transient(_) => answer_without_step(SystemException::Transient),
        EndFault::Inactive => answer_without_step(SystemException::InvalidTransaction),
        EndFault::ObjectNotExist => answer_without_step(SystemException::ObjectNotExist),
        EndFault::NoResources => answer_without_step(SystemException::NoResources),
        EndFault::PersistStore | EndFault::Start(_) => Answer::system(
            SystemException::PersistStore,
            Completed::Maybe,
        ),
        EndFault::Memory => Answer::system(SystemException::NoMemory, so_far),
    }
}

/// The answer of a put whose resource wasn't registered, by what was heard of that.
pub(crate) fn unregistered(heard: &Heard) -> Answer
    ensures answer { result ≡ answers.unregistered heard.now }
    ensures short { IsWritable result }
{
    answer_without_step(match heard {
        Heard::Phase(PhaseHeard::Lost) => SystemException::CommFailure,
        Heard::Phase(PhaseHeard::Starved) => SystemException::NoMemory,
        _ => SystemException::TransactionRolledBack,
    })
}
