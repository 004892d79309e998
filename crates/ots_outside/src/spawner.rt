ghost use Rattle.std.specs.Prelude.{◌≡◌, ◌≤◌};
ghost use Rattle.ots_outside.specs.Spawning.{CountsStart, refused, started};
ghost use Rattle.ots_outside.specs.Source.{HasRisen};

use crate::source::Failed;
use std::sync::Wait;
use std::thread;
use std::thread::Threads;

/// Work that goes on turn by turn.
pub trait Job: Drop {
    /// Does one piece of the work, and says whether there is more.
    fn turn(&mut self) -> bool;
}

/// What starts jobs: each on a thread of its own, or at once, by turns in the caller's. Contracts see how many it has started,
/// and how many it couldn't start.
#[derive(Drop)]
pub struct Spawner<R> {
    way: Way<R>,
    started: u64,
    refused: u64,
}

/// How jobs are turned.
#[derive(Drop)]
enum Way<R> {
    /// Each on a thread of its own, until its work is over.
    OnThreads(R),
    /// Each as it is started, so often at most; the starts that are listed by their numbers, from 0, are refused.
    AtOnce(u64, Vec<u64>),
}

impl<R: Threads + Wait + Copy + Send + Drop + 'static> Spawner<R> {
    /// A spawner that turns each job on a thread of its own until its work is over.
    pub fn on_threads(rt: R) -> Spawner<R>
        ensures started { started result ≡ 0 }
        ensures refused { refused result ≡ 0 }
    {
        Spawner {
            way: Way::OnThreads(rt),
            started: 0,
            refused: 0,
        }
    }

    /// A spawner that turns each job as it is started, so often at most. The starts whose numbers, from 0, are `failing` are
    /// refused.
    pub fn at_once(turns: u64, failing: Vec<u64>) -> Spawner<R>
        ensures started { started result ≡ 0 }
        ensures refused { refused result ≡ 0 }
    {
        Spawner {
            way: Way::AtOnce(turns, failing),
            started: 0,
            refused: 0,
        }
    }

    /// Starts a job. One that can't be started is dropped, which counts as a refusal.
    pub fn start<J: Job + Send + 'static>(&mut self, job: J) -> bool
        ensures counted { CountsStart result (started self.old) (started self.new)
            (refused self.old) (refused self.new) }
        ensures later { refused self.old ≤ refused self.new }
    {
        let is_started = match &self.way {
            Way::OnThreads(rt) => start_thread(rt, job),
            Way::AtOnce(turns, failing) => {
                turn_at_once(*turns, failing, self.started, self.refused, job)
            }
        };
        if is_started {
            self.started = self.started.saturating_add(1);
        } else {
            Failed::counted(&mut self.refused);
        }
        is_started
    }
}

/// Starts a thread that turns a job until its work is over.
fn start_thread<R: Threads + Wait + Copy + Send + Drop + 'static, J: Job + Send + 'static>(
    rt: &R,
    job: J,
) -> bool {
    let own = *rt;
    thread::spawn(rt, move || turn_on(&own, job)).is_ok()
}

/// Turns a job until its work is over.
fn turn_on<R: Wait, J: Job>(rt: &R, mut job: J) {
    for _ in rt.forever() {
        if !job.turn() {
            return;
        }
    }
}

/// Turns a job until its work is over, so often at most, unless its start is to be refused.
fn turn_at_once<J: Job>(
    turns: u64,
    failing: &[u64],
    started: u64,
    refused: u64,
    mut job: J,
) -> bool {
    if failing.contains(&started.saturating_add(refused)) {
        return false;
    }
    for _ in 0..turns {
        if !job.turn() {
            break;
        }
    }
    true
}
