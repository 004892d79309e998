// A connection as two: what is read from it, and what is written to it.
ghost use Rattle.std.specs.Prelude.{None};
ghost use Rattle.ots_outside.specs.Source.{HasRisen, raised};

use ots_outside::{Failed, Sink, Source};
use std::sync::{Mutex, Wait};

/// What a connection is read through. It tells nothing of what is left.
#[derive(Drop)]
pub(crate) struct Incoming<'a, R, O> {
    rt: &'a R,
    conn: &'a Mutex<O>,
    faults: u64,
}

/// What a connection is written through. It tells nothing of what it has taken.
#[derive(Drop)]
pub(crate) struct Outgoing<'a, R, O> {
    rt: &'a R,
    conn: &'a Mutex<O>,
    faults: u64,
}

impl<'a, R: Wait, O> Incoming<'a, R, O> {
    /// It has not failed yet.
    pub(crate) fn new(rt: &'a R, conn: &'a Mutex<O>) -> Incoming<'a, R, O> {
        Incoming {
            rt,
            conn,
            faults: 0,
        }
    }
}

impl<'a, R: Wait, O> Outgoing<'a, R, O> {
    /// It has not failed yet.
    pub(crate) fn new(rt: &'a R, conn: &'a Mutex<O>) -> Outgoing<'a, R, O> {
        Outgoing {
            rt,
            conn,
            faults: 0,
        }
    }
}

impl<R: Wait, O: Source> Source for Incoming<'_, R, O> {
    ghost faults = { λ half. half.faults };

    ghost remaining = { λ _. None };

    fn read(&mut self, into: &mut [u8]) -> Result<usize, Failed> {
        match self.conn.lock(self.rt).read(into) {
            Ok(count) => Ok(count),
            Err(failed) => {
                self.faults = self.faults.saturating_add(1);
                Err(failed)
            }
        }
    }
}

impl<R: Wait, O: Sink> Sink for Outgoing<'_, R, O> {
    ghost faults = { λ half. half.faults };

    ghost taken = { λ _. None };

    fn write(&mut self, bytes: &[u8]) -> Result<(), Failed> {
        match self.conn.lock(self.rt).write(bytes) {
            Ok(()) => Ok(()),
            Err(failed) => {
                self.faults = self.faults.saturating_add(1);
                Err(failed)
            }
        }
    }
}
