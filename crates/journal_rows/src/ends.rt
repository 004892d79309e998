//! The calls of a resource end. A resource is named by the life that made it and its number in it. The letter of its key
//! is R where no other follows the number, as in `1 2-A`. Each line is one of these:
//!
//! - `fresh`: a resource is made; `fresh N`: so many, and the last answer is told. `fresh A`, `fresh Y`: an object with a
//!   key of this letter. `asks`: who asks, and whom. `cell C`: what is stored in a cell. `puts L N COUNT`: a resource puts
//!   so many cells, and the last answer is told.
//! - `put L N C V`, `get L N C`, `bind L N R`, `unmake L N`, `refuse L N`, `choose L N DECISION`, `learn L N STATUS`.
//! - `prepare L N`, `commit L N`, `rollback L N`, `one_phase L N`, `forget L N`: a word, what it is answered, and what
//!   that is shown as.

use crate::end_calls::{
    MemEnd, asks, bind, choose, commit, commit_alone, forget, fresh, get, learn, prepare, put,
    refuse, roll_back, service, unmake,
};
use crate::records::{low_octet, number};
use ior_refs::ObjectKey;
use ots_model::tree::Heard;
use ots_model::{Decision, Disposition, PhaseHeard, RefBytes, Status};
use recovery_coord::Outbox;
use resource_end::EndFault;
use std::alloc::Global;
use std::io;
use std::io::{ErrorKind, Write};

/// Makes the call of a line, and tells its answer.
pub fn call(alloc: Global, end: &mut MemEnd, line: &str, told: &mut Vec<u8>) -> io::Result<()> {
    let words: Vec<&str> = line.split_whitespace().collect(alloc)?;
    match words.as_slice() {
        ["fresh"] => tell_fresh(end, b'R', 1, told),
        ["fresh", "A"] => tell_fresh(end, b'A', 1, told),
        ["fresh", "Y"] => tell_fresh(end, b'Y', 1, told),
        ["fresh", count] => tell_fresh(end, b'R', number(count)?, told),
        ["asks"] => tell_asks(alloc, end, told),
        ["cell", cell] => write!(told, "{:?}", end.stored(u64::from(number(cell)?))),
        [word, life, of, rest @ ..] => {
            let key = key_of(end, life, of)?;
            call_on(alloc, end, &key, word, rest, told)
        }
        _ => Err(ErrorKind::InvalidInput.into()),
    }
}

/// The key of the object with this life and number.
fn key_of(end: &MemEnd, life: &str, of: &str) -> io::Result<ObjectKey> {
    let (of, letter) = of.split_once('-').unwrap_or((of, "R"));
    Ok(ObjectKey {
        kind: letter.as_bytes().first().copied().unwrap_or(b'R'),
        service: service(end),
        life: number(life)?,
        slot: 0,
        generation: u64::from(number(of)?),
        index: 0,
    })
}

fn tell_asks(alloc: Global, end: &MemEnd, told: &mut Vec<u8>) -> io::Result<()> {
    let mut out = Outbox::new(alloc);
    match asks(end, &mut out) {
        Ok(()) => tell_out(&mut out, told),
        Err(fault) => tell_fault(fault, told),
    }
}

/// Tells the first eight asks.
fn tell_out(out: &mut Outbox, told: &mut Vec<u8>) -> io::Result<()> {
    for _ in 0..8 {
        if let Some(ask) = out.take() {
            let number = ask.number;
            write!(
                told,
                "{} {} {:?} ",
                number.life,
                number.generation,
                ask.to.bytes()
            )?;
        }
    }
    Ok(())
}

/// Makes so many objects with keys of this letter, and tells the last answer.
fn tell_fresh(end: &mut MemEnd, letter: u8, count: u32, told: &mut Vec<u8>) -> io::Result<()> {
    match fresh_many(end, letter, count) {
        Ok(key) => write!(told, "{} {}", key.life, key.generation),
        Err(fault) => tell_fault(fault, told),
    }
}

fn fresh_many(end: &mut MemEnd, letter: u8, count: u32) -> Result<ObjectKey, EndFault> {
    let mut answer = Err(EndFault::NoResources);
    for _ in 0..count {
        answer = fresh(end, letter);
    }
    answer
}

/// A resource puts so many cells. The result is the last answer.
fn put_many(end: &mut MemEnd, key: &ObjectKey, count: u32) -> Result<(), EndFault> {
    let mut answer = Ok(());
    for cell in 0..count {
        answer = put(end, key, u64::from(cell), 1);
    }
    answer
}

/// Makes a call on a resource.
fn call_on(
    alloc: Global,
    end: &mut MemEnd,
    key: &ObjectKey,
    word: &str,
    rest: &[&str],
    told: &mut Vec<u8>,
) -> io::Result<()> {
    match rest {
        [] => call_plain(end, key, word, told),
        [first] => call_with(alloc, end, key, word, first, told),
        [cell, value, ..] => {
            let answer = put(
                end,
                key,
                u64::from(number(cell)?),
                u64::from(number(value)?),
            );
            tell_answer(answer, told)
        }
    }
}

fn call_plain(end: &mut MemEnd, key: &ObjectKey, word: &str, told: &mut Vec<u8>) -> io::Result<()> {
    match word {
        "unmake" => {
            unmake(end, key);
            tell_text("ok", told)
        }
        "refuse" => tell_answer(refuse(end, key), told),
        _ => tell_word(end, key, word, told),
    }
}

fn call_with(
    alloc: Global,
    end: &mut MemEnd,
    key: &ObjectKey,
    word: &str,
    with: &str,
    told: &mut Vec<u8>,
) -> io::Result<()> {
    match word {
        "puts" => tell_answer(put_many(end, key, number(with)?), told),
        "get" => tell_got(get(end, key, u64::from(number(with)?)), told),
        "bind" => tell_answer(bind(end, key, recovery_of(alloc, with)?), told),
        "choose" => tell_answer(choose(end, key, decision_of(with)), told),
        _ => tell_answer(learn(end, key, &heard_of(with)), told),
    }
}

/// A reference of one octet.
fn recovery_of(alloc: Global, octet: &str) -> io::Result<RefBytes> {
    let octet = low_octet(number(octet)?);
    Ok(RefBytes::from_vec(vec![in alloc; octet]?))
}

fn tell_got(answer: Result<Option<u64>, EndFault>, told: &mut Vec<u8>) -> io::Result<()> {
    match answer {
        Ok(value) => write!(told, "{value:?}"),
        Err(fault) => tell_fault(fault, told),
    }
}

fn tell_answer(answer: Result<(), EndFault>, told: &mut Vec<u8>) -> io::Result<()> {
    match answer {
        Ok(()) => tell_text("ok", told),
        Err(fault) => tell_fault(fault, told),
    }
}

/// Tells a resource a word.
fn tell_word(end: &mut MemEnd, key: &ObjectKey, word: &str, told: &mut Vec<u8>) -> io::Result<()> {
    match answer_to(end, key, word) {
        Ok(Heard::Phase(heard)) => tell_heard(heard, told)?,
        Ok(_) => tell_text("ok", told)?,
        Err(fault) => tell_fault(fault, told)?,
    }
    match end.changed() {
        Some(shown) => write!(told, ", {shown:?}"),
        None => Ok(()),
    }
}

fn answer_to(end: &mut MemEnd, key: &ObjectKey, word: &str) -> Result<Heard, EndFault> {
    match word {
        "prepare" => prepare(end, key),
        "commit" => commit(end, key),
        "rollback" => roll_back(end, key),
        "one_phase" => commit_alone(end, key),
        _ => forget(end, key),
    }
}

fn tell_heard(heard: PhaseHeard, told: &mut Vec<u8>) -> io::Result<()> {
    match heard {
        PhaseHeard::Voted(vote) => write!(told, "{vote:?}"),
        PhaseHeard::Heuristic(Disposition::Committed) => tell_text("heuristic commit", told),
        PhaseHeard::Heuristic(Disposition::RolledBack) => tell_text("heuristic rollback", told),
        PhaseHeard::Heuristic(_) => tell_text("heuristic hazard", told),
        PhaseHeard::RolledBack => tell_text("rolled back", told),
        PhaseHeard::NotPrepared => tell_text("not prepared", told),
        _ => tell_text("ok", told),
    }
}

/// The decision of a word.
fn decision_of(word: &str) -> Decision {
    match word {
        "commit" => Decision::Commit,
        _ => Decision::Rollback,
    }
}

/// The answer that a recovery coordinator gives by this word.
fn heard_of(word: &str) -> Heard {
    match word {
        "committed" => Heard::Told(Status::Committed),
        "preparing" => Heard::Told(Status::Preparing),
        "nobody" => Heard::Phase(PhaseHeard::NoObject),
        _ => Heard::Phase(PhaseHeard::Lost),
    }
}

/// Tells why a call was refused.
pub fn tell_fault(fault: EndFault, told: &mut Vec<u8>) -> io::Result<()> {
    match fault {
        EndFault::Transient(of) => write!(told, "held by {of}"),
        EndFault::Start(fault) => write!(told, "{fault:?}"),
        EndFault::Inactive => tell_text("inactive", told),
        EndFault::ObjectNotExist => tell_text("unknown", told),
        EndFault::PersistStore => tell_text("the disk failed", told),
        EndFault::NoResources => tell_text("no room", told),
        _ => tell_text("memory", told),
    }
}

/// Tells these words.
pub fn tell_text(text: &str, told: &mut Vec<u8>) -> io::Result<()> {
    told.write_all(text.as_bytes())
}
