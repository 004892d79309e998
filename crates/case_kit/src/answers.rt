//! What the words of a case are answered: `ok`, `votes_commit`, `votes_rollback`, `votes_read_only`, `mixed` (HeuristicMixed),
//! `inactive` (Inactive), `not_prepared` (NotPrepared), `nobody` (OBJECT_NOT_EXIST), `undone` (TRANSACTION_ROLLEDBACK), `enlists`
//! (the reference to the recovery coordinator `V 9 0 0 0 1` at port 7 of host v), another reference (`IOR:..`), a status
//! (`committed` and its like), `silence` (no octets), or `garbled` (twelve octets that are no message).
ghost use Rattle.std.specs.Prelude.{◌<◌, ◌^◌, IfOk, IfSome};
ghost use Rattle.ots_calls.specs.Answer.{IsOwn};
ghost use Rattle.ots_calls.specs.AnswerWriting.{given_length};

use crate::requests::reference;
use crate::text::known;
use giop_frames::{Message, encode};
use ots_calls::{
    Answer, Bare, Call, Completed, Given, SystemException, UserException, write_answer,
};
use ots_model::{Status, Vote};
use std::alloc::Global;
use std::io;

/// Octets that are no message: where they spell `GIOX`, a reply has `GIOP`.
const GARBLED: &[u8] = b"GIOX\x01\x02\x00\x01\x00\x00\x00\x00";

/// The octets of this answer to the word with this request_id. There are none of what isn't an answer.
pub fn answer_octets(alloc: Global, id: u32, name: &str) -> io::Result<Vec<u8>> {
    if name == "silence" {
        return Ok(Vec::new(alloc));
    }
    if name == "garbled" {
        return Ok(GARBLED.to_vec(alloc)?);
    }
    let answer = answer_named(alloc, name)?;
    known(written(alloc, id, &answer))
}

/// The octets of the reply to a word with this answer.
fn written(alloc: Global, id: u32, answer: &Answer) -> Option<Vec<u8>>
    requires own { IsOwn answer.now }
    requires short { given_length answer.now < 2 ^ 31 }
{
    let reply = write_answer(alloc, id, &Call::Bare(asked_by(answer)), answer).ok()?;
    let mut octets = Vec::new(alloc);
    encode(alloc, &Message::Reply(reply), &mut octets).ok()?;
    Some(octets)
}

/// An operation that may be answered so.
fn asked_by(answer: &Answer) -> Bare {
    match answer {
        Answer::Plain(Given::Ballot(_)) => Bare::Prepare,
        Answer::Plain(Given::Reference(_)) => Bare::GetCoordinator,
        Answer::Plain(Given::State(_)) => Bare::GetStatus,
        Answer::User(UserException::Inactive) => Bare::RollbackOnly,
        _ => Bare::Commit,
    }
}

/// The answer of this name.
fn answer_named(alloc: Global, name: &str) -> io::Result<Answer>
    ensures own { IfOk result IsOwn }
    ensures short { IfOk result (λ answer. given_length answer < 2 ^ 31) }
{
    if name == "enlists" || name.starts_with("IOR:") {
        let word = if name == "enlists" { "v" } else { name };
        return Ok(Answer::Plain(Given::Reference(reference(alloc, b'V', word)?)));
    }
    if let Some(status) = status_named(name) {
        return Ok(Answer::Plain(Given::State(status)));
    }
    known(plain_answer(name))
}

/// The answer of this name, where it gives neither a reference nor a status.
fn plain_answer(name: &str) -> Option<Answer>
    ensures own { IfSome result IsOwn }
    ensures short { IfSome result (λ answer. given_length answer < 2 ^ 31) }
{
    Some(match name {
        "ok" => Answer::Plain(Given::Nothing),
        "votes_commit" => Answer::Plain(Given::Ballot(Vote::VoteCommit)),
        "votes_rollback" => Answer::Plain(Given::Ballot(Vote::VoteRollback)),
        "votes_read_only" => Answer::Plain(Given::Ballot(Vote::VoteReadOnly)),
        "mixed" => Answer::User(UserException::HeuristicMixed),
        "inactive" => Answer::User(UserException::Inactive),
        "not_prepared" => Answer::User(UserException::NotPrepared),
        "nobody" => Answer::system(SystemException::ObjectNotExist, Completed::No),
        "undone" => Answer::system(SystemException::TransactionRolledBack, Completed::No),
        _ => return None,
    })
}

/// The status of this name.
fn status_named(name: &str) -> Option<Status> {
    Some(match name {
        "active" => Status::Active,
        "marked_rollback" => Status::MarkedRollback,
        "prepared" => Status::Prepared,
        "committed" => Status::Committed,
        "rolled_back" => Status::RolledBack,
        "unknown" => Status::Unknown,
        "no_transaction" => Status::NoTransaction,
        "preparing" => Status::Preparing,
        "committing" => Status::Committing,
        "rolling_back" => Status::RollingBack,
        _ => return None,
    })
}
