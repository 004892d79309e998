ghost use Rattle.std.specs.Prelude.{◌≡◌, ◌≢◌, ◌⊎◌, ◌^◌, ◌<◌, IfOk, IsErr, length};
ghost use Rattle.ots_calls.specs.Answering.{WantsMemory};
ghost use Rattle.ots_calls.specs.Call.{operation_of};
ghost use Rattle.ots_calls.specs.Heard.{GivesReference, IsAnswered, heard_in, heard_in_reply, heard_of_given, heard_of_system, heard_of_user};
ghost use Rattle.ots_calls.specs.declared.answer.Answer.TheVariants as answers;

use crate::answer::{Answer, Given};
use crate::answering::read_answer;
use crate::call::Call;
use crate::exception::UserException;
use crate::fault::CallFault;
use crate::system::SystemException;
use giop_frames::Reply;
use ots_model::tree::Heard;
use ots_model::{Disposition, PhaseHeard};
use std::alloc::{AllocError, Global};

/// What the caller of an outward call hears in its answer.
pub fn heard(alloc: Global, a: &Answer) -> Result<Heard, AllocError>
    ensures heard { IfOk result (λ heard. heard ≡ heard_in a.now) }
    ensures answered { IfOk result IsAnswered }
    ensures memory { IsErr result → GivesReference a.now }
{
    match a {
        Answer::Plain(given) => heard_of_given(alloc, given),
        Answer::User(exception) => Ok(heard_of_user(*exception)),
        Answer::System(exception, _, _) => Ok(heard_of_system(*exception)),
    }
}

/// What the caller of an outward call hears in the reply to it. A reply that is no answer is heard as Other, and want of
/// memory as Starved. Where no reply came the caller has to say Lost itself.
#[tactic(auto, using(crate::proofs::Replies::reference_held))]
pub fn heard_in_reply(alloc: Global, c: &Call, r: &Reply) -> Heard
    requires { length r.now.body < 2 ^ 31 }
    ensures heard { (result ≡ Heard.Phase PhaseHeard.Starved) ⊎ (result ≡ heard_in_reply c.now r.now) }
    ensures memory { result ≡ Heard.Phase PhaseHeard.Starved → WantsMemory (operation_of c.now) r.now.status }
    ensures came { result ≢ Heard.Phase PhaseHeard.Lost }
{
    match read_answer(alloc, c, r) {
        Ok(answer) => {
            let heard = heard_or_starved(alloc, &answer);
            drop(answer);
            heard
        }
        Err(CallFault::Memory) => Heard::Phase(PhaseHeard::Starved),
        Err(_) => Heard::Phase(PhaseHeard::Other),
    }
}

/// What the caller hears in its answer, and want of memory as Starved.
#[tactic(auto, using(crate::proofs::Replies::not_starved, crate::proofs::Replies::not_lost))]
fn heard_or_starved(alloc: Global, a: &Answer) -> Heard
    ensures heard { (result ≡ Heard.Phase PhaseHeard.Starved) ⊎ (result ≡ heard_in a.now) }
    ensures memory { result ≡ Heard.Phase PhaseHeard.Starved → GivesReference a.now }
    ensures came { result ≢ Heard.Phase PhaseHeard.Lost }
{
    match heard(alloc, a) {
        Ok(heard) => heard,
        Err(_) => Heard::Phase(PhaseHeard::Starved),
    }
}

/// What is heard where this was given.
fn heard_of_given(alloc: Global, given: &Given) -> Result<Heard, AllocError>
    ensures heard { IfOk result (λ heard. heard ≡ heard_of_given given.now) }
    ensures answered { IfOk result IsAnswered }
    ensures memory { IsErr result → GivesReference (answers.Plain given.now) }
{
    match given {
        Given::Nothing => Ok(Heard::Phase(PhaseHeard::Done)),
        Given::Ballot(vote) => Ok(Heard::Phase(PhaseHeard::Voted(*vote))),
        Given::State(status) => Ok(Heard::Told(*status)),
        Given::Reference(reference) => Ok(Heard::Enlisted(reference.to_bytes(alloc)?)),
        Given::Flag(_)
        | Given::Number(_)
        | Given::Word(_)
        | Given::Transaction(_)
        | Given::Found(_) => Ok(Heard::Phase(PhaseHeard::Other)),
    }
}

/// What is heard in a user exception.
fn heard_of_user(exception: UserException) -> Heard
    ensures heard { result ≡ heard_of_user exception }
    ensures answered { IsAnswered result }
{
    match exception {
        UserException::HeuristicRollback => Heard::Phase(PhaseHeard::Heuristic(
            Disposition::RolledBack,
        )),
        UserException::HeuristicCommit => Heard::Phase(PhaseHeard::Heuristic(
            Disposition::Committed,
        )),
        UserException::HeuristicMixed => Heard::Phase(PhaseHeard::Heuristic(Disposition::Mixed)),
        UserException::HeuristicHazard => Heard::Phase(PhaseHeard::Heuristic(Disposition::Unknown)),
        UserException::NotPrepared => Heard::Phase(PhaseHeard::NotPrepared),
        UserException::Inactive
        | UserException::NotSubtransaction
        | UserException::SubtransactionsUnavailable
        | UserException::SynchronizationUnavailable
        | UserException::Unavailable => Heard::Phase(PhaseHeard::Other),
    }
}

/// What is heard in a system exception.
fn heard_of_system(exception: SystemException) -> Heard
    ensures heard { result ≡ heard_of_system exception }
    ensures answered { IsAnswered result }
{
    match exception {
        SystemException::TransactionRolledBack => Heard::Phase(PhaseHeard::RolledBack),
        SystemException::ObjectNotExist => Heard::Phase(PhaseHeard::NoObject),
        _ => Heard::Phase(PhaseHeard::Other),
    }
}
