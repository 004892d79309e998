//! Tells answers, words and records.

use crate::node_calls::{MemNode, has_object, held, life, standing};
use coordinator::{Effect, Finished, NodeFault, Said, StepAnswer};
use decision_journal::Standing;
use ior_refs::ObjectKey;
use ots_context::{Context, Identity};
use ots_model::tree::{Outward, Parent, Word};
use ots_model::{CallNumber, RetryKey};
use recovery_coord::Held;
use service_node::{Happening, Happenings};
use std::io;
use std::io::Write;

/// Tells the key of a family that was made.
pub fn tell_made(made: &Result<ObjectKey, NodeFault>, told: &mut Vec<u8>) -> io::Result<()> {
    match made {
        Ok(key) => write!(
            told,
            " life {} slot {} number {}",
            key.life, key.slot, key.generation
        ),
        Err(fault) => tell_fault(fault, told),
    }
}

fn tell_fault(fault: &NodeFault, told: &mut Vec<u8>) -> io::Result<()> {
    write!(told, " {fault:?}")
}

/// Tells the answer to a call: what it is answered, which earlier calls are answered, and what happened.
pub fn tell_answered(answer: &Result<StepAnswer, NodeFault>, told: &mut Vec<u8>) -> io::Result<()> {
    match answer {
        Ok(answer) => tell_answer(answer, told),
        Err(fault) => tell_fault(fault, told),
    }
}

/// Tells what a tick did.
pub fn tell_ticked(answer: &Result<Happenings, NodeFault>, told: &mut Vec<u8>) -> io::Result<()> {
    match answer {
        Ok(happened) => tell_tick(happened, told),
        Err(fault) => tell_fault(fault, told),
    }
}

fn tell_answer(answer: &StepAnswer, told: &mut Vec<u8>) -> io::Result<()> {
    write!(told, " ")?;
    tell_said(&answer.said, told)?;
    if answer.said.is_later() {
        write!(told, " {}", answer.position)?;
    }
    tell_what_happened(answer.finished.items(), answer.effects.items(), told)
}

/// Tells which calls were answered, and what happened.
fn tell_what_happened(
    finished: &[Finished],
    effects: &[Effect],
    told: &mut Vec<u8>,
) -> io::Result<()> {
    for answer in finished {
        tell_finished(answer, told)?;
    }
    tell_effects(effects, told)
}

/// Tells what happened.
fn tell_effects(effects: &[Effect], told: &mut Vec<u8>) -> io::Result<()> {
    for effect in effects {
        write!(told, ", {effect:?}")?;
    }
    Ok(())
}

fn tell_finished(answer: &Finished, told: &mut Vec<u8>) -> io::Result<()> {
    write!(told, ", to {}: ", answer.position)?;
    tell_said(&answer.said, told)
}

/// Tells what a tick did to families.
fn tell_tick(happened: &Happenings, told: &mut Vec<u8>) -> io::Result<()> {
    write!(told, " ticked")?;
    for happening in happened.items() {
        tell_happening(happening, told)?;
    }
    Ok(())
}

fn tell_happening(happening: &Happening, told: &mut Vec<u8>) -> io::Result<()> {
    write!(told, ", in slot {}", happening.key.slot)?;
    tell_what_happened(happening.finished.items(), happening.effects.items(), told)
}

/// Tells a word, the registration that it goes to, its reference, its number, and the place of the record behind it.
pub fn tell_word(outward: &Outward, told: &mut Vec<u8>) -> io::Result<()> {
    write!(told, " -> ")?;
    tell_name(&outward.word, told)?;
    write!(told, " {} ", outward.registration)?;
    told.write_all(outward.to.bytes())?;
    tell_number(&outward.number, told)?;
    match outward.receipt {
        Some(receipt) => write!(told, " by {}", receipt.place),
        None => Ok(()),
    }
}

fn tell_number(number: &CallNumber, told: &mut Vec<u8>) -> io::Result<()> {
    if number.slot == u32::MAX {
        write!(told, " again {}", number.generation)?;
    }
    write!(told, " #{}", number.serial)
}

/// Tells the name of a word.
fn tell_name(word: &Word, told: &mut Vec<u8>) -> io::Result<()> {
    match word {
        Word::AfterCompletion(status) => write!(told, "after_completion {status:?}"),
        Word::CommitSub(Parent::Branch(parent)) => write!(told, "commit_subtransaction {parent}"),
        Word::Phase(word) => write!(told, "{word:?}"),
        word => write!(told, "{}", word_name(word)),
    }
}

/// The name of a word beside the two phases that has nothing behind it.
fn word_name(word: &Word) -> &'static str {
    match word {
        Word::Forget => "forget",
        Word::BeforeCompletion => "before_completion",
        Word::RollbackSub => "rollback_subtransaction",
        _ => "another word",
    }
}

/// Tells how far the transaction has come whose family is called, and whether it is finished.
pub fn tell_phase(node: &MemNode, key: &ObjectKey, told: &mut Vec<u8>) -> io::Result<()> {
    match node.family(key) {
        Some(family) if family.finished() => write!(told, " | {:?}, finished", family.phase()),
        Some(family) => write!(told, " | {:?}", family.phase()),
        None => Ok(()),
    }
}

/// Tells what the call with this key was answered, by the family that is called, and which entry of its history answers it.
pub fn tell_kept(
    node: &MemNode,
    key: &ObjectKey,
    call: &RetryKey,
    told: &mut Vec<u8>,
) -> io::Result<()> {
    write!(told, " ")?;
    match kept(node, key, call) {
        Some((said, place)) => {
            tell_said(said, told)?;
            write!(told, ", in entry {place}")
        }
        None => write!(told, "no such call"),
    }
}

fn kept<'a>(node: &'a MemNode, key: &ObjectKey, call: &RetryKey) -> Option<(&'a Said, usize)> {
    let family = node.family(key)?;
    Some((family.kept(call)?, family.answered_at(call)?))
}

/// Tells whether there is the object that a key names.
pub fn tell_object(node: &MemNode, key: &ObjectKey, told: &mut Vec<u8>) -> io::Result<()> {
    let there = has_object(node, key);
    write!(told, "{}", if there { " there" } else { " not there" })
}

/// Tells the seconds that a context tells, the last octet of the otid, which is the transaction's branch, and the same octets of
/// its parents.
pub fn tell_context(context: &Result<Context, NodeFault>, told: &mut Vec<u8>) -> io::Result<()> {
    let context = match context {
        Ok(context) => context,
        Err(fault) => return tell_fault(fault, told),
    };
    write!(told, " {} seconds, branch", context.timeout)?;
    tell_branch(&context.current, told)?;
    for parent in context.parents.items() {
        tell_branch(parent, told)?;
    }
    Ok(())
}

fn tell_branch(identity: &Identity, told: &mut Vec<u8>) -> io::Result<()> {
    match identity.otid.tid() {
        [.., last] => write!(told, " {last}"),
        [] => Ok(()),
    }
}

/// Tells the life, the records that are told again, with what each registration waits for, and those that stand.
pub fn tell_records(node: &MemNode, told: &mut Vec<u8>) -> io::Result<()> {
    write!(told, " life {}", life(node))?;
    for held in held(node) {
        tell_held(held, told)?;
    }
    tell_standing(standing(node), told)
}

fn tell_held(held: &Held, told: &mut Vec<u8>) -> io::Result<()> {
    write!(told, ", held {}", held.place)?;
    for party in held.parties.items() {
        write!(told, " {} {:?}", party.index, party.due)?;
    }
    Ok(())
}

fn tell_standing(standing: &[Standing], told: &mut Vec<u8>) -> io::Result<()> {
    for standing in standing {
        write!(told, ", {} stands", standing.place)?;
    }
    Ok(())
}

/// Tells what a call is said.
fn tell_said(said: &Said, told: &mut Vec<u8>) -> io::Result<()> {
    match said {
        Said::Flag(yes) => write!(told, "{yes}"),
        Said::State(status) => write!(told, "{status:?}"),
        Said::Number(number) => write!(told, "{number}"),
        Said::Name(name) => told.write_all(name.bytes()),
        Said::Made(number) => write!(told, "made {number}"),
        Said::Voted(vote) => write!(told, "{vote:?}"),
        said => write!(told, "{}", name_of(said)),
    }
}

/// The name of an answer without a value.
fn name_of(said: &Said) -> &'static str {
    match said {
        Said::Plain => "ok",
        Said::Later => "later",
        Said::TransactionRolledBack => "TRANSACTION_ROLLEDBACK",
        Said::HeuristicMixed => "HeuristicMixed",
        Said::HeuristicHazard => "HeuristicHazard",
        Said::HeuristicCommit => "HeuristicCommit",
        Said::CommFailure => "COMM_FAILURE",
        Said::PersistStore => "PERSIST_STORE",
        Said::InvalidTransaction => "INVALID_TRANSACTION",
        Said::Inactive => "Inactive",
        Said::NotPrepared => "NotPrepared",
        Said::Transient => "TRANSIENT",
        Said::NotSubtransaction => "NotSubtransaction",
        Said::SynchronizationUnavailable => "SynchronizationUnavailable",
        Said::SubtransactionsUnavailable => "SubtransactionsUnavailable",
        Said::NoResources => "NO_RESOURCES",
        Said::ObjectNotExist => "OBJECT_NOT_EXIST",
        Said::NoImplement => "NO_IMPLEMENT",
        _ => "another answer",
    }
}
