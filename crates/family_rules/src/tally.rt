// What is counted over the seats of a family, so that none is looked at for it.
ghost use Rattle.std.specs.Prelude.{◌≡◌, ◌+◌, ◌-◌, ◌<◌, ◌≤◌, ◌^◌, max, true, if◌then◌else◌};

/// What is counted over the seats.
#[derive(Clone, Copy)]
pub(crate) struct Tally {
    /// No seat keeps more tasks than this.
    pub most: usize,
    /// So many seats have a call.
    pub calls: usize,
}

impl Tally {
    /// A seat has a call from now on, and had one before or not.
    pub(crate) fn with_call(self, had: bool) -> Tally
        requires few { self.calls < 2 ^ 63 }
        ensures { result ≡ record self { calls = if had then self.calls else self.calls + 1 } }
    {
        if had {
            return self;
        }
        Tally {
            calls: self.calls + 1,
            ..self
        }
    }

    /// A seat has no call from now on, and had one before or not.
    pub(crate) fn without_call(self, had: bool) -> Tally
        requires some { had ≡ true → 0 < self.calls }
        ensures { result ≡ record self { calls = if had then self.calls - 1 else self.calls } }
    {
        if !had {
            return self;
        }
        Tally {
            calls: self.calls - 1,
            ..self
        }
    }

    /// A seat keeps so many tasks.
    pub(crate) fn with_tasks(self, tasks: usize) -> Tally
        ensures { result ≡ record self { most = max self.most tasks } }
    {
        Tally {
            most: self.most.max(tasks),
            ..self
        }
    }
}
