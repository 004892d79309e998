//! Links for the words of cases, and what holds a word until a second session is over.

use crate::tell::tell_word;
use crate::told_door::Sent;
use ots_model::{Endpoint, Octets};
use ots_outside::{Link, LinkRefusal, MemLink};
use std::alloc::{AllocError, Global};
use std::sync::atomic::{AtomicU64, Ordering};
use std::sync::{Arc, Wait};
use std::thread;

/// How often a flag is looked at.
const TURNS: u32 = 1_000_000;

/// Two flags: a word of the first session is out, and the second session is over.
#[derive(Drop)]
pub struct Gate {
    out: AtomicU64,
    over: AtomicU64,
}

impl Gate {
    /// Neither is so.
    pub fn new() -> Gate {
        Gate {
            out: AtomicU64::new(0),
            over: AtomicU64::new(0),
        }
    }

    /// Waits until a word is out, and says whether one is.
    pub fn wait_for_word(&self) -> bool {
        is_up(&self.out)
    }

    /// The second session is over.
    pub fn end(&self) {
        self.over.store(1, Ordering::SeqCst);
    }
}

/// Waits until a flag is up, for a while, and says whether it is.
fn is_up(flag: &AtomicU64) -> bool {
    for _ in 0..TURNS {
        if flag.load(Ordering::SeqCst) == 1 {
            return true;
        }
        thread::yield_now();
    }
    false
}

/// What the words of a session are answered.
#[derive(Drop)]
pub struct Replies {
    answers: Vec<Octets>,
    lost: Vec<u64>,
    starving: Vec<u64>,
}

impl Replies {
    /// Nothing is said of any word.
    pub fn new(alloc: Global) -> Replies {
        Replies {
            answers: Vec::new(alloc),
            lost: Vec::new(alloc),
            starving: Vec::new(alloc),
        }
    }

    /// The next word is answered these octets.
    pub fn answer(&mut self, octets: Vec<u8>) -> Result<(), AllocError> {
        self.answers.push(Octets::from_vec(octets))?;
        Ok(())
    }

    /// The call of the next word fails.
    pub fn lose(&mut self, alloc: Global) -> Result<(), AllocError> {
        self.lost.push(self.answers.len() as u64)?;
        self.answer(Vec::new(alloc))
    }

    /// The call of the next word wants memory.
    pub fn starve(&mut self) -> Result<(), AllocError> {
        let words = self.answers.len().saturating_add(self.starving.len());
        self.starving.push(words as u64)?;
        Ok(())
    }
}

/// How the words of a link go out.
#[derive(Drop)]
pub enum Way {
    /// As they come.
    Plain,
    /// The first one is held until this is open, or for a while.
    Held(Arc<Gate, Global>),
    /// Each is told there once it is answered, behind these words.
    Told(Sent, &'static str),
}

/// A link in memory. The calls of some words want memory; these are no exchanges.
#[derive(Drop)]
pub struct HeldLink<R> {
    rt: R,
    alloc: Global,
    /// What the other words are answered by.
    pub link: MemLink,
    way: Way,
    starving: Vec<u64>,
    words: u64,
    /// Whether a word was held in vain.
    pub gave_up: bool,
}

impl<R: Wait> HeldLink<R> {
    /// No word has gone over it.
    pub fn new(rt: R, alloc: Global, replies: Replies, way: Way) -> HeldLink<R> {
        HeldLink {
            rt,
            alloc,
            link: MemLink::new(alloc, replies.answers, replies.lost),
            way,
            starving: replies.starving,
            words: 0,
            gave_up: false,
        }
    }

    /// Holds a word, where it is the one to be held, and says whether that was in vain.
    fn is_held_in_vain(&self, word: u64) -> bool {
        match (&self.way, word) {
            (Way::Held(gate), 0) => hold(gate),
            _ => false,
        }
    }

    /// Tells the last exchange, where that is wanted.
    fn tell(&self) {
        if let (Way::Told(words, front), Some(last)) = (&self.way, self.link.exchanges().last()) {
            let _ = tell_word(self.alloc, &mut words.lock(&self.rt), front, last);
        }
    }
}

/// A word is out, and waits until the second session is over. It says whether that was in vain.
fn hold(gate: &Gate) -> bool {
    gate.out.store(1, Ordering::SeqCst);
    !is_up(&gate.over)
}

impl<R: Wait> Link for HeldLink<R> {
    ghost use Rattle.std.specs.Prelude.{Some};

    ghost faults = { λ held. held.link.faults };

    ghost exchanged = { λ held. Some held.link.exchanges };

    fn invoke(
        &mut self,
        to: &Endpoint,
        request: &[u8],
        reply: &mut Vec<u8>,
    ) -> Result<(), LinkRefusal> {
        let word = self.words;
        self.words = word.saturating_add(1);
        self.gave_up = self.is_held_in_vain(word) || self.gave_up;
        if self.starving.contains(&word) {
            return Err(LinkRefusal::Memory);
        }
        let answered = self.link.invoke(to, request, reply);
        self.tell();
        answered
    }
}
