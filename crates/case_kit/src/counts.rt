//! What is counted in a crowd, and a clock that is counted where it is let go.

use ots_outside::{Clock, MemClock};
use std::alloc::Global;
use std::io;
use std::io::{ErrorKind, Write};
use std::sync::atomic::{AtomicU64, Ordering};
use std::sync::{Arc, Wait};
use std::thread::Parker;
use std::time::Duration;

/// How many milliseconds a thread rests at once.
const REST: u64 = 10;

/// How often a thread rests until something is in vain.
const LONG: u32 = 1000;

/// How often a session rests before its input ends.
const SHORT: u32 = 30;

/// What is counted in a crowd.
#[derive(Drop)]
pub struct Counts {
    /// The connections that were read from.
    begun: AtomicU64,
    /// Those whose input has ended.
    over: AtomicU64,
    /// The sessions beside which no other was begun in time.
    alone: AtomicU64,
    /// The most connections that were open when the door was asked.
    most: AtomicU64,
    /// The servants that were let go.
    let_go: AtomicU64,
    /// The pauses between ticks.
    paused: AtomicU64,
    /// What never comes.
    never: AtomicU64,
}

/// Counts that are shared.
pub type Shared = Arc<Counts, Global>;

impl Counts {
    /// Nothing was counted.
    pub fn new(alloc: Global) -> io::Result<Shared> {
        let counts = Counts {
            begun: AtomicU64::new(0),
            over: AtomicU64::new(0),
            alone: AtomicU64::new(0),
            most: AtomicU64::new(0),
            let_go: AtomicU64::new(0),
            paused: AtomicU64::new(0),
            never: AtomicU64::new(0),
        };
        match Arc::new(alloc, counts) {
            Ok(counts) => Ok(counts),
            Err(_) => Err(ErrorKind::OutOfMemory.into()),
        }
    }

    /// The door is asked that has given so many connections. Before it goes on, each of them has to be begun.
    pub fn ask<R: Wait>(&self, rt: &R, given: u64) {
        let open = given.saturating_sub(self.over.load(Ordering::SeqCst));
        if open > self.most.load(Ordering::SeqCst) {
            self.most.store(open, Ordering::SeqCst);
        }
        let _ = comes(rt, &self.begun, given, LONG);
    }

    /// A connection is read from.
    pub fn begin(&self) {
        self.begun.fetch_add(1, Ordering::SeqCst);
    }

    /// The input of a connection is at its end. Before it says so, another session has to be begun, and then it rests.
    pub fn end<R: Wait>(&self, rt: &R) {
        if !comes(rt, &self.begun, 2, LONG) {
            self.alone.fetch_add(1, Ordering::SeqCst);
        }
        let _ = comes(rt, &self.never, 1, SHORT);
        self.over.fetch_add(1, Ordering::SeqCst);
    }

    /// Tells what was counted, once so many servants were let go, or once that is in vain.
    pub fn tell<R: Wait>(&self, rt: &R, servants: u32, told: &mut Vec<u8>) -> io::Result<()> {
        let servants = u64::from(servants);
        let are_gone = comes(rt, &self.let_go, servants, LONG);
        let most = self.most.load(Ordering::SeqCst);
        if self.alone.load(Ordering::SeqCst) > 0 {
            writeln!(told, "a session was alone")?;
        }
        if most < servants {
            writeln!(told, "no more open than workers when the door was asked")?;
        } else {
            writeln!(told, "{most} open when the door was asked")?;
        }
        writeln!(told, "all workers were let go: {are_gone}")?;
        let have_paused = self.paused.load(Ordering::SeqCst) > 0;
        writeln!(told, "the ticks have paused: {have_paused}")
    }
}

/// Waits until a count has come to a number, and says whether it has, where it rests so often at most.
fn comes<R: Wait>(rt: &R, count: &AtomicU64, number: u64, rests: u32) -> bool {
    let parker = Parker::new();
    for _ in 0..rests {
        if count.load(Ordering::SeqCst) >= number {
            return true;
        }
        parker.park_timeout(rt, Duration::from_millis(REST));
    }
    false
}

/// Another hold on what is shared.
pub fn held<T>(shared: &Arc<T, Global>) -> io::Result<Arc<T, Global>> {
    match Arc::try_clone(shared) {
        Ok(held) => Ok(held),
        Err(_) => Err(ErrorKind::OutOfMemory.into()),
    }
}

/// What is counted where it is let go.
struct Hold {
    counts: Shared,
}

impl Drop for Hold {
    fn drop(self) {
        let Hold { counts } = self;
        counts.let_go.fetch_add(1, Ordering::SeqCst);
    }
}

/// A clock in memory. In a crowd its pauses take a while, and it is counted where it is let go.
#[derive(Drop)]
pub struct CaseClock<R> {
    rt: R,
    clock: MemClock,
    hold: Option<Hold>,
}

impl<R: Wait> CaseClock<R> {
    /// A clock at this moment.
    pub fn new(rt: R, moment: u64) -> CaseClock<R> {
        CaseClock {
            rt,
            clock: MemClock::new(moment),
            hold: None,
        }
    }

    /// A clock at 0, of a crowd of which this is counted.
    pub fn counted(rt: R, counts: Shared) -> CaseClock<R> {
        CaseClock {
            rt,
            clock: MemClock::new(0),
            hold: Some(Hold { counts }),
        }
    }
}

impl<R: Wait> Clock for CaseClock<R> {
    ghost moment = { λ own. own.clock };

    fn now(&mut self) -> u64 {
        self.clock.now()
    }

    fn pause(&mut self) {
        if let Some(hold) = &self.hold {
            hold.counts.paused.fetch_add(1, Ordering::SeqCst);
            let _ = comes(&self.rt, &hold.counts.never, 1, 1);
        }
        self.clock.pause();
    }
}
