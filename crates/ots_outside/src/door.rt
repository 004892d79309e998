ghost use Rattle.std.specs.Prelude.{◌≡◌, ℕ, ◌≤◌, ◌↔◌, Bool, Contains, IsErr, IsOk, OnErr, OnOk};
ghost use Rattle.ots_outside.specs.Doors.{CountsGiven, Ends, TakesFirst};
ghost use Rattle.ots_outside.specs.Source.{CountsFault, HasRisen, raised};

use crate::memory::{MemSink, MemSource};
use crate::sink::Sink;
use crate::source::{Failed, Source};
use std::collections::VecDeque;
use std::marker::Model;

/// Where connections come from.
pub trait Door {
    /// A connection: what a client sends is read from it, and what it is sent is written to it.
    type Conn: Source + Sink + Send + Drop + 'static;

    /// How often the door has failed.
    ghost faults: { Self → ℕ };

    /// How many connections it has given.
    ghost given: { Self → ℕ };

    /// Whether it has ended.
    ghost ended: { Self → Bool };

    /// Begins to take connections. A door that couldn't be made fails here.
    fn open(&mut self) -> Result<(), Failed>
        ensures given { given self.new ≡ given self.old }
        ensures ended { ended self.new ≡ ended self.old }
        ensures calm { OnOk result (faults self.new ≡ faults self.old) }
        ensures cause { OnErr result (HasRisen (faults self.old) (faults self.new)) }
        ensures later { faults self.old ≤ faults self.new };

    /// The next connection, or nothing where no more will come.
    fn next(&mut self) -> Result<Option<Self::Conn>, Failed>
        ensures given { CountsGiven result (given self.old) (given self.new) }
        ensures ended { Ends result (ended self.old) (ended self.new) }
        ensures calm { OnOk result (faults self.new ≡ faults self.old) }
        ensures cause { OnErr result (HasRisen (faults self.old) (faults self.new)) }
        ensures later { faults self.old ≤ faults self.new };
}

/// A connection in memory.
#[derive(Drop)]
pub struct MemConn {
    /// What the client sends.
    pub source: MemSource,
    /// What it is sent.
    pub sink: MemSink,
}

impl Source for MemConn {
    ghost use Rattle.std.specs.Prelude.{Some};

    ghost faults = { λ conn. conn.source.faults };

    ghost remaining = { λ conn. Some conn.source.left };

    fn read(&mut self, into: &mut [u8]) -> Result<usize, Failed> {
        self.source.read(into)
    }
}

impl Sink for MemConn {
    ghost use Rattle.std.specs.Prelude.{Some};

    ghost faults = { λ conn. conn.sink.faults };

    ghost taken = { λ conn. Some conn.sink.octets };

    fn write(&mut self, bytes: &[u8]) -> Result<(), Failed> {
        self.sink.write(bytes)
    }
}

/// A door in memory, of which chosen calls fail. It ends behind its last connection. Contracts see it as a `DoorState`.
#[derive(Drop)]
pub struct MemDoor {
    waiting: VecDeque<MemConn>,
    failing: Vec<u64>,
    calls: u64,
    faults: u64,
    given: u64,
    ended: bool,
}

impl Model for MemDoor {
    ghost use Rattle.ots_outside.specs.Doors.{DoorState};

    ghost Value = { DoorState };

    ghost view = { λ door. record {
      waiting = door.waiting.items;
      failing = door.failing.items;
      calls = door.calls;
      faults = door.faults;
      given = door.given;
      ended = door.ended;
    } };
}

impl MemDoor {
    ghost use Rattle.std.specs.Prelude.{false};

    /// A door at which these connections wait. The calls of `next` whose numbers, from 0, are `failing` fail.
    pub fn new(waiting: VecDeque<MemConn>, failing: Vec<u64>) -> MemDoor
        ensures { result ≡ record {
          waiting = waiting.items;
          failing = failing.items;
          calls = 0;
          faults = 0;
          given = 0;
          ended = false;
        } }
    {
        MemDoor {
            waiting,
            failing,
            calls: 0,
            faults: 0,
            given: 0,
            ended: false,
        }
    }

    /// The connection that waits first comes in; where none waits, the door has ended.
    fn let_in(&mut self) -> Option<MemConn>
        ensures { TakesFirst self.old result self.new }
    {
        let conn = self.waiting.pop_front();
        match conn {
            Some(_) => self.given = self.given.saturating_add(1),
            None => self.ended = true,
        }
        conn
    }
}

impl Door for MemDoor {
    ghost use Rattle.std.specs.Prelude.{IfOk};

    type Conn = MemConn;

    ghost faults = { λ door. door.faults };

    ghost given = { λ door. door.given };

    ghost ended = { λ door. door.ended };

    fn open(&mut self) -> Result<(), Failed>
        // What each door promises, and it never fails here.
        ensures given { self.new.given ≡ self.old.given }
        ensures ended { self.new.ended ≡ self.old.ended }
        ensures later { self.old.faults ≤ self.new.faults }
        ensures sure { IsOk result }
        ensures same { self.new ≡ self.old }
    {
        Ok(())
    }

    fn next(&mut self) -> Result<Option<MemConn>, Failed>
        // What each door promises.
        ensures given { CountsGiven result self.old.given self.new.given }
        ensures ended { Ends result self.old.ended self.new.ended }
        ensures calm { OnOk result (self.new.faults ≡ self.old.faults) }
        ensures cause { OnErr result (HasRisen self.old.faults self.new.faults) }
        ensures later { self.old.faults ≤ self.new.faults }

        // A call fails exactly where it is listed, and else gives the connection that waits first.
        ensures listed { IsErr result ↔ Contains self.old.failing self.old.calls }
        ensures first { IfOk result
            (λ conn. TakesFirst (record self.old { calls = raised self.old.calls }) conn self.new) }
        ensures waiting { OnErr result (self.new.waiting ≡ self.old.waiting) }
        ensures failing { self.new.failing ≡ self.old.failing }
        ensures calls { self.new.calls ≡ raised self.old.calls }
        ensures faults { CountsFault result self.old.faults self.new.faults }
    {
        let call = self.calls;
        self.calls = call.saturating_add(1);
        if self.failing.contains(&call) {
            return Err(Failed::counted(&mut self.faults));
        }
        Ok(self.let_in())
    }
}
