ghost use Rattle.std.specs.Prelude.{◌≡◌, ◌≤◌, true, length};
ghost use Rattle.ots_outside.specs.Source.{HasRisen};
ghost use Rattle.ots_outside.specs.Spawning.{refused, started};
ghost use Rattle.ots_sessions.specs.Sessions.{HasJobs};

use crate::halves::{Incoming, Outgoing};
use crate::servant::Servant;
use crate::session::serve_session;
use ots_outside::{Door, Job, Sink, Source, Spawner};
use std::alloc::Global;
use std::sync::atomic::{AtomicU64, Ordering};
use std::sync::{Arc, Condvar, Mutex, Wait};
use std::thread::Threads;

/// How a service ends.
#[derive(Clone, Copy, Debug, PartialEq, Eq)]
pub enum ServeEnd {
    /// The door has ended.
    Ended,
    /// The door has failed.
    DoorFault,
    /// Memory ran out.
    Memory,
}

/// What the jobs of a service share: the servants that are free.
#[derive(Drop)]
struct Hall<S> {
    pool: Mutex<Vec<S>>,
    freed: Condvar,
    /// The servant that is kept for ticks, but while it ticks.
    ticker: Mutex<Option<S>>,
    /// 1 once the door has ended.
    ended: AtomicU64,
}

impl<S: Servant + Drop> Hall<S> {
    /// Waits until a servant is free.
    fn wait_for_servant<R: Wait>(&self, rt: &R) {
        drop(
            self.freed
                .wait_while(rt, self.pool.lock(rt), |pool| pool.is_empty()),
        );
    }

    /// Takes a servant, once one is free.
    fn take_servant<R: Wait>(&self, rt: &R) -> S {
        for _ in rt.forever() {
            let mut pool = self
                .freed
                .wait_while(rt, self.pool.lock(rt), |pool| pool.is_empty());
            if let Some(servant) = pool.pop() {
                return servant;
            }
        }
        unreachable!()
    }

    /// Gives a servant back. There is room for it, since it was taken from there.
    fn give_back<R: Wait>(&self, rt: &R, servant: S) {
        let _ = self.pool.lock(rt).push(servant);
        self.freed.notify_all();
    }

    /// Ticks, by the servant that is kept for that, where it isn't at it.
    fn tick<R: Wait>(&self, rt: &R) {
        let Some(mut servant) = self.ticker.lock(rt).take() else {
            return;
        };
        // Where memory was wanting, the next tick goes on.
        let _ = servant.tick();
        *self.ticker.lock(rt) = Some(servant);
    }

    /// Ticks, where no job does.
    fn tick_unless<R: Wait>(&self, rt: &R, is_job: bool) {
        if !is_job {
            self.tick(rt);
        }
    }

    /// Lets some time go by, by the servant that is kept for ticks.
    fn pause<R: Wait>(&self, rt: &R) {
        let Some(mut servant) = self.ticker.lock(rt).take() else {
            return;
        };
        servant.pause();
        *self.ticker.lock(rt) = Some(servant);
    }
}

/// The job that ticks.
#[derive(Drop)]
struct Ticks<R, S> {
    rt: R,
    hall: Arc<Hall<S>, Global>,
}

impl<R: Wait + Send + Drop + 'static, S: Servant + Send + Drop + 'static> Job for Ticks<R, S> {
    fn turn(&mut self) -> bool {
        self.hall.tick(&self.rt);
        self.hall.pause(&self.rt);
        self.hall.ended.load(Ordering::SeqCst) == 0
    }
}

/// The job that serves a connection.
#[derive(Drop)]
struct Session<R, S, O> {
    rt: R,
    alloc: Global,
    hall: Arc<Hall<S>, Global>,
    conn: Mutex<O>,
}

impl<
    R: Wait + Send + Drop + 'static,
    S: Servant + Send + Drop + 'static,
    O: Source + Sink + Send + Drop + 'static,
> Job for Session<R, S, O> {
    fn turn(&mut self) -> bool {
        let mut servant = self.hall.take_servant(&self.rt);
        let mut incoming = Incoming::new(&self.rt, &self.conn);
        let mut outgoing = Outgoing::new(&self.rt, &self.conn);
        let _end = serve_session(
            &self.rt,
            self.alloc,
            &mut servant,
            &mut incoming,
            &mut outgoing,
        );
        self.hall.give_back(&self.rt, servant);
        false
    }
}

/// Serves the connections of a door by these servants, until the door ends. The last servant is kept for ticks.
pub fn serve_sessions<
    R: Wait + Threads + Copy + Send + Drop + 'static,
    S: Servant + Send + Drop + 'static,
    O: Door,
>(rt: &R, alloc: Global, servants: Vec<S>, door: &mut O, spawner: &mut Spawner<R>) -> ServeEnd
    requires two { 2 ≤ length servants.items }
    ensures ended { result ≡ ServeEnd.Ended → O.ended door.new ≡ true }
    ensures cause { result ≡ ServeEnd.DoorFault → HasRisen (O.faults door.old) (O.faults door.new) }
    ensures jobs { result ≡ ServeEnd.Ended → HasJobs (O.given door.old) (O.given door.new)
        (started spawner.old) (started spawner.new) (refused spawner.old) (refused spawner.new) }
{
    let mut pool = servants;
    let ticker = pool.pop();
    let hall = Hall {
        pool: Mutex::new(pool),
        freed: Condvar::new(),
        ticker: Mutex::new(ticker),
        ended: AtomicU64::new(0),
    };
    let Ok(hall) = Arc::new(alloc, hall) else {
        return ServeEnd::Memory;
    };
    let end = serve_door(rt, alloc, &hall, door, spawner);
    hall.ended.store(1, Ordering::SeqCst);
    end
}

/// Starts the ticks, and then a session for each connection.
#[tactic(auto, using(crate::proofs::Jobs::first_job, crate::proofs::Jobs::next_job))]
fn serve_door<
    R: Wait + Threads + Copy + Send + Drop + 'static,
    S: Servant + Send + Drop + 'static,
    O: Door,
>(
    rt: &R,
    alloc: Global,
    hall: &Arc<Hall<S>, Global>,
    door: &mut O,
    spawner: &mut Spawner<R>,
) -> ServeEnd
    ensures ended { result ≡ ServeEnd.Ended → O.ended door.new ≡ true }
    ensures cause { result ≡ ServeEnd.DoorFault → HasRisen (O.faults door.old) (O.faults door.new) }
    ensures jobs { result ≡ ServeEnd.Ended → HasJobs (O.given door.old) (O.given door.new)
        (started spawner.old) (started spawner.new) (refused spawner.old) (refused spawner.new) }
{
    let Ok(mine) = Arc::try_clone(hall) else {
        return ServeEnd::Memory;
    };
    let ticks = spawner.start(Ticks {
        rt: *rt,
        hall: mine,
    });
    for _ in rt.forever() {
        hall.wait_for_servant(rt);
        hall.tick_unless(rt, ticks);
        let conn = match door.next() {
            Ok(Some(conn)) => conn,
            Ok(None) => return ServeEnd::Ended,
            Err(_) => return ServeEnd::DoorFault,
        };
        let Ok(mine) = Arc::try_clone(hall) else {
            return ServeEnd::Memory;
        };
        spawner.start(Session {
            rt: *rt,
            alloc,
            hall: mine,
            conn: Mutex::new(conn),
        });
    }
    unreachable!()
}
