//! The calls to a transaction, by the names of the operations. With these there are words behind them:
//!
//! - `commit`, `commit reports`.
//! - `register_resource NAME`, `register_resource NAME aware`, `register_subtran_aware NAME`, and
//!   `register_synchronization NAME`: a name is a letter, and that is its reference.
//! - `is_same_transaction OTHER`, and so on: OTHER is `none`, or the service, the slot, the number and the branch of a
//!   transaction of life 1.
//! - `replay_completion N NAME`, of that registration. `superior WORD`. `clock`: the clock of the family alone goes on.
//!   `reread`, `opened`: what no caller brings.

use crate::text::{front, letter, number, numbers};
use coordinator::Act;
use ior_refs::ObjectKey;
use ots_model::tree::{Heard, Word};
use ots_model::{Disposition, PhaseHeard, PhaseWord, RefBytes, Status, Vote};
use std::alloc::Global;
use std::io;
use std::io::ErrorKind;

/// The call with this name, and these words behind it.
pub fn act_of(alloc: Global, name: &str, rest: &str) -> io::Result<Act> {
    match name {
        "commit" => Ok(Act::Commit(!rest.is_empty())),
        "register_resource" => register(alloc, rest),
        "register_subtran_aware" => Ok(Act::RegisterSubtranAware(reference(alloc, rest)?)),
        "register_synchronization" => Ok(Act::RegisterSynchronization(reference(alloc, rest)?)),
        "replay_completion" => replay(alloc, rest),
        "superior" => Ok(Act::Superior(word_of(rest))),
        _ if rest.is_empty() => act_alone(name),
        _ => relation_to(name, coordinator_of(alloc, rest)?),
    }
}

fn register(alloc: Global, rest: &str) -> io::Result<Act> {
    let (name, aware) = front(rest);
    Ok(Act::RegisterResource(reference(alloc, name)?, !aware.is_empty()))
}

fn replay(alloc: Global, rest: &str) -> io::Result<Act> {
    let (index, name) = front(rest);
    Ok(Act::Replay(number(index)?, reference(alloc, name)?))
}

/// A reference of this letter alone.
fn reference(alloc: Global, name: &str) -> io::Result<RefBytes> {
    Ok(RefBytes::from_vec(vec![in alloc; letter(name)?]?))
}

/// The key of another coordinator.
fn coordinator_of(alloc: Global, words: &str) -> io::Result<Option<ObjectKey>> {
    if words == "none" {
        return Ok(None);
    }
    let numbers = numbers(alloc, words)?;
    match numbers.as_slice() {
        [service, slot, generation, index] => Ok(Some(ObjectKey {
            kind: b'K',
            service: u64::from(*service),
            life: 1,
            slot: *slot,
            generation: u64::from(*generation),
            index: *index,
        })),
        _ => Err(ErrorKind::InvalidInput.into()),
    }
}

/// A relation to another coordinator.
fn relation_to(name: &str, other: Option<ObjectKey>) -> io::Result<Act> {
    match name {
        "is_same_transaction" => Ok(Act::IsSameTransaction(other)),
        "is_related_transaction" => Ok(Act::IsRelatedTransaction(other)),
        "is_ancestor_transaction" => Ok(Act::IsAncestorTransaction(other)),
        "is_descendant_transaction" => Ok(Act::IsDescendantTransaction(other)),
        _ => Err(ErrorKind::InvalidInput.into()),
    }
}

/// A call without words behind it.
fn act_alone(name: &str) -> io::Result<Act> {
    match name {
        "get_terminator" => Ok(Act::GetTerminator),
        "get_coordinator" => Ok(Act::GetCoordinator),
        "rollback" => Ok(Act::Rollback),
        "rollback_only" => Ok(Act::RollbackOnly),
        "create_subtransaction" => Ok(Act::CreateSubtransaction),
        "get_txcontext" => Ok(Act::GetTxcontext),
        "clock" => Ok(Act::Tick),
        "reread" => Ok(Act::Reread(true)),
        "opened" => Ok(Act::Opened(None)),
        _ => question(name),
    }
}

/// A question.
fn question(name: &str) -> io::Result<Act> {
    match name {
        "get_status" => Ok(Act::GetStatus),
        "get_parent_status" => Ok(Act::GetParentStatus),
        "get_top_level_status" => Ok(Act::GetTopLevelStatus),
        "is_top_level_transaction" => Ok(Act::IsTopLevelTransaction),
        "hash_transaction" => Ok(Act::HashTransaction),
        "hash_top_level_tran" => Ok(Act::HashTopLevelTran),
        "get_transaction_name" => Ok(Act::GetTransactionName),
        _ => Err(ErrorKind::InvalidInput.into()),
    }
}

/// A word of a superior.
fn word_of(name: &str) -> Word {
    match name {
        "prepare" => Word::Phase(PhaseWord::Prepare),
        "commit" => Word::Phase(PhaseWord::Commit),
        "commit_one_phase" => Word::Phase(PhaseWord::CommitOnePhase),
        "rollback" => Word::Phase(PhaseWord::Rollback),
        _ => Word::Forget,
    }
}

/// What is heard of a word: `ok`, `votes_commit`, `votes_rollback`, `votes_read_only`, a heuristic exception
/// `committed`, `rolled_back`, `mixed`, `hazard`, or `undone` (TRANSACTION_ROLLEDBACK), `not_prepared`, `nobody`
/// (OBJECT_NOT_EXIST), `told` (a status), `enlisted` (a reference), `lost`, `starved`, or any other answer.
pub fn heard_of(alloc: Global, name: &str) -> Heard {
    match name {
        "ok" => Heard::Phase(PhaseHeard::Done),
        "undone" => Heard::Phase(PhaseHeard::RolledBack),
        "not_prepared" => Heard::Phase(PhaseHeard::NotPrepared),
        "nobody" => Heard::Phase(PhaseHeard::NoObject),
        "told" => Heard::Told(Status::Active),
        "enlisted" => Heard::Enlisted(RefBytes::from_vec(Vec::new(alloc))),
        "lost" => Heard::Phase(PhaseHeard::Lost),
        "starved" => Heard::Phase(PhaseHeard::Starved),
        _ => vote_or_exception(name),
    }
}

fn vote_or_exception(name: &str) -> Heard {
    match name {
        "votes_commit" => Heard::Phase(PhaseHeard::Voted(Vote::VoteCommit)),
        "votes_rollback" => Heard::Phase(PhaseHeard::Voted(Vote::VoteRollback)),
        "votes_read_only" => Heard::Phase(PhaseHeard::Voted(Vote::VoteReadOnly)),
        "committed" => Heard::Phase(PhaseHeard::Heuristic(Disposition::Committed)),
        "rolled_back" => Heard::Phase(PhaseHeard::Heuristic(Disposition::RolledBack)),
        "mixed" => Heard::Phase(PhaseHeard::Heuristic(Disposition::Mixed)),
        "hazard" => Heard::Phase(PhaseHeard::Heuristic(Disposition::Unknown)),
        _ => Heard::Phase(PhaseHeard::Other),
    }
}
