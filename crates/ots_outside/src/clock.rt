ghost use Rattle.std.specs.Prelude.{◌≡◌, ℕ, ◌≤◌};
ghost use Rattle.ots_outside.specs.Source.{raised};

use std::marker::Model;

/// What tells the time, in whole seconds from a start of its own. It never goes back.
pub trait Clock {
    /// The moment that it has told last.
    ghost moment: { Self → ℕ };

    /// The moment that it is.
    fn now(&mut self) -> u64
        ensures told { result ≡ moment self.new }
        ensures later { moment self.old ≤ moment self.new };

    /// Comes back about a second later.
    fn pause(&mut self)
        ensures later { moment self.old ≤ moment self.new };
}

/// A clock in memory, which goes on by its pauses alone. Contracts see it as its moment.
#[derive(Drop)]
pub struct MemClock {
    moment: u64,
}

impl Model for MemClock {
    ghost use Rattle.std.specs.Prelude.{ℕ};

    ghost Value = { ℕ };

    ghost view = { λ clock. clock.moment };
}

impl MemClock {
    /// A clock at this moment.
    pub fn new(moment: u64) -> MemClock
        ensures { result ≡ moment }
    {
        MemClock { moment }
    }
}

impl Clock for MemClock {
    ghost moment = { λ clock. clock };

    fn now(&mut self) -> u64
        // What each clock promises.
        ensures told { result ≡ self.new }
        ensures later { self.old ≤ self.new }

        // It stands still.
        ensures still { self.new ≡ self.old }
    {
        self.moment
    }

    fn pause(&mut self)
        // What each clock promises.
        ensures later { self.old ≤ self.new }

        // It is a second later, but at its end.
        ensures next { self.new ≡ raised self.old }
    {
        self.moment = self.moment.saturating_add(1);
    }
}
