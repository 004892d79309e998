ghost use Rattle.std.specs.Prelude.{◌≡◌};
ghost use Rattle.ots_outside.specs.Net.{clock_moment};

use crate::clock::Clock;
use std::time::{Duration, SystemTime};
use std::{thread, time};

/// How long a pause is.
const PAUSE_MILLISECONDS: u64 = 1000;

/// The system's clock, in seconds since 1970. Where that goes back or can't be read, it stands at the greatest moment that
/// it has read.
#[derive(Drop)]
pub struct SystemClock<R> {
    rt: R,
    moment: u64,
}

impl<R: time::Clock> SystemClock<R> {
    /// The clock of this system, which has read nothing.
    pub fn new(rt: R) -> SystemClock<R>
        ensures { clock_moment result ≡ 0 }
    {
        SystemClock { rt, moment: 0 }
    }
}

impl<R: time::Clock> Clock for SystemClock<R> {
    ghost moment = { λ clock. clock.moment };

    fn now(&mut self) -> u64 {
        self.moment = self.moment.max(read_seconds(&self.rt).unwrap_or(0));
        self.moment
    }

    fn pause(&mut self) {
        thread::sleep(&self.rt, Duration::from_millis(PAUSE_MILLISECONDS));
    }
}

/// The seconds since 1970, where the system tells them.
fn read_seconds<R: time::Clock>(rt: &R) -> Option<u64> {
    let now = SystemTime::now(rt).ok()?;
    let since = now.duration_since(SystemTime::UNIX_EPOCH).ok()?;
    Some(since.as_secs())
}
