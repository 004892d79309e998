ghost use Rattle.std.specs.Prelude.{◌≡◌, ◌<◌, ◌≤◌, ◌↔◌, [], length, min, IsSome, IsErr, IfOk, OnOk, OnErr, Contains};
ghost use Rattle.ots_outside.specs.Memory.{TakesCut, capacity, cut_at, next_cut};
ghost use Rattle.ots_outside.specs.Sink.{Takes, TakesPart};
ghost use Rattle.ots_outside.specs.Source.{CountsFault, CountsWithin, Gives, HasRisen, raised};

use crate::sink::Sink;
use crate::source::{Failed, Source};
use std::alloc::{AllocError, Global};
use std::marker::Model;

/// A source in memory, of which chosen calls fail. Contracts see it as a `SourceState`.
#[derive(Drop)]
pub struct MemSource {
    contents: Vec<u8>,
    position: usize,
    failing: Vec<u64>,
    calls: u64,
    faults: u64,
}

impl Model for MemSource {
    ghost use Rattle.std.specs.Prelude.{◌≤◌, drop, length};
    ghost use Rattle.ots_outside.specs.Memory.{SourceState};

    ghost Value = { SourceState };

    ghost view = { λ source. record {
      left = drop source.position source.contents.items;
      failing = source.failing.items;
      calls = source.calls;
      faults = source.faults;
    } };

    ghost invariant = { λ source. source.position ≤ length source.contents.items };
}

impl MemSource {
    ghost use Rattle.std.specs.Prelude.{Some};

    /// A source of these octets. The calls of `read` whose numbers, from 0, are `failing` fail.
    pub fn new(contents: Vec<u8>, failing: Vec<u64>) -> MemSource
        ensures left { result.left ≡ contents.items }
        ensures failing { result.failing ≡ failing.items }
        ensures calls { result.calls ≡ 0 }
        ensures faults { result.faults ≡ 0 }
    {
        MemSource {
            contents,
            position: 0,
            failing,
            calls: 0,
            faults: 0,
        }
    }

    /// How many calls have failed.
    pub fn faults(&self) -> u64
        ensures { result ≡ self.now.faults }
    {
        self.faults
    }

    /// Gives all that fits into the piece, and says how much.
    fn give(&mut self, into: &mut [u8]) -> usize
        ensures gives { Gives self.old.left (length into.old) result into.new (Some self.new.left) }
        ensures most { result ≡ min (length into.old) (length self.old.left) }
        ensures rest { self.new ≡ record self.old { left = self.new.left } }
    {
        let left = &self.contents[self.position..];
        let count = left.len().min(into.len());
        into[..count].copy_from_slice(&left[..count]);
        self.position += count;
        count
    }
}

impl Source for MemSource {
    ghost use Rattle.std.specs.Prelude.{Some};

    ghost faults = { λ source. source.faults };

    ghost remaining = { λ source. Some source.left };

    fn read(&mut self, into: &mut [u8]) -> Result<usize, Failed>
        // What each source promises.
        ensures count { CountsWithin result into.old }
        ensures octets { IfOk result (λ n. Gives self.old.left (length into.old) n into.new (Some self.new.left)) }
        ensures untouched { OnErr result (self.new.left ≡ self.old.left) }
        ensures calm { OnOk result (self.new.faults ≡ self.old.faults) }
        ensures cause { OnErr result (HasRisen self.old.faults self.new.faults) }
        ensures later { self.old.faults ≤ self.new.faults }

        // A call fails exactly where it is listed, and else gives all that fits.
        ensures listed { IsErr result ↔ Contains self.old.failing self.old.calls }
        ensures most { IfOk result (λ n. n ≡ min (length into.old) (length self.old.left)) }
        ensures failing { self.new.failing ≡ self.old.failing }
        ensures calls { self.new.calls ≡ raised self.old.calls }
        ensures faults { CountsFault result self.old.faults self.new.faults }
    {
        let call = self.calls;
        self.calls = call.saturating_add(1);
        if self.failing.contains(&call) {
            return Err(Failed::counted(&mut self.faults));
        }
        Ok(self.give(into))
    }
}

/// A call of `MemSink::write` that is to fail. Of several for one call the first counts.
#[derive(Clone, Copy, Debug, PartialEq, Eq)]
pub struct Failure {
    /// The number of the call, from 0.
    pub call: u64,
    /// How many octets of the call's piece still go out.
    pub taken: usize,
}

/// A sink in memory, of which chosen calls fail. Want of memory is a failure too, which takes nothing.
/// Contracts see it as a `SinkState`.
#[derive(Drop)]
pub struct MemSink {
    octets: Vec<u8>,
    failing: Vec<Failure>,
    calls: u64,
    faults: u64,
}

impl Model for MemSink {
    ghost use Rattle.std.specs.Prelude.{◌-◌, vec_capacity, vec_len};
    ghost use Rattle.ots_outside.specs.Memory.{SinkState};

    ghost Value = { SinkState };

    ghost view = { λ sink. record {
      octets = sink.octets.items;
      room = vec_capacity sink.octets - vec_len sink.octets;
      failing = sink.failing.items;
      calls = sink.calls;
      faults = sink.faults;
    } };
}

impl MemSink {
    /// An empty sink, of which these calls fail.
    pub fn new(alloc: Global, failing: Vec<Failure>) -> MemSink
        ensures octets { result.octets ≡ [] }
        ensures room { result.room ≡ 0 }
        ensures failing { result.failing ≡ failing.items }
        ensures calls { result.calls ≡ 0 }
        ensures faults { result.faults ≡ 0 }
    {
        MemSink {
            octets: Vec::new(alloc),
            failing,
            calls: 0,
            faults: 0,
        }
    }

    /// Makes room for so many octets more, which are then taken without memory.
    pub fn reserve(&mut self, additional: usize) -> Result<(), AllocError>
        ensures ok { OnOk result (additional ≤ self.new.room) }
        ensures err { OnErr result (self.new ≡ self.old) }
        ensures full { OnErr result (self.old.room < additional) }
        ensures grows { self.old.room ≤ self.new.room }
        ensures rest { self.new ≡ record self.old { room = self.new.room } }
    {
        self.octets.reserve(additional)
    }

    /// The octets that it has taken.
    pub fn octets(&self) -> &[u8]
        ensures { result.now ≡ self.now.octets }
    {
        self.octets.as_slice()
    }

    /// How many calls have failed.
    pub fn faults(&self) -> u64
        ensures { result ≡ self.now.faults }
    {
        self.faults
    }
}

impl Sink for MemSink {
    ghost use Rattle.std.specs.Prelude.{Some};

    ghost faults = { λ sink. sink.faults };

    ghost taken = { λ sink. Some sink.octets };

    fn write(&mut self, bytes: &[u8]) -> Result<(), Failed>
        // What each sink promises.
        ensures whole { OnOk result (Takes (Some self.old.octets) bytes.now (Some self.new.octets)) }
        ensures part { OnErr result (TakesPart (Some self.old.octets) bytes.now (Some self.new.octets)) }
        ensures calm { OnOk result (self.new.faults ≡ self.old.faults) }
        ensures cause { OnErr result (HasRisen self.old.faults self.new.faults) }
        ensures later { self.old.faults ≤ self.new.faults }

        // Exactly the listed calls fail, but for want of room.
        ensures listed { IsSome (next_cut self.old) → IsErr result }
        ensures cut { OnErr result (TakesCut (next_cut self.old) self.old bytes.now self.new.octets) }
        ensures capacity { capacity self.old ≤ capacity self.new }
        ensures failing { self.new.failing ≡ self.old.failing }
        ensures calls { self.new.calls ≡ raised self.old.calls }
        ensures faults { CountsFault result self.old.faults self.new.faults }
    {
        let cut = planned_cut(&self.failing, self.calls);
        self.calls = self.calls.saturating_add(1);
        let count = cut.unwrap_or(bytes.len()).min(bytes.len());
        let written = self.octets.extend_from_slice(&bytes[..count]);
        if cut.is_none() && written.is_ok() {
            return Ok(());
        }
        Err(Failed::counted(&mut self.faults))
    }
}

/// How many octets still go out at this call, where it is to fail.
fn planned_cut(failing: &[Failure], call: u64) -> Option<usize>
    ensures { result ≡ cut_at failing.now call }
{
    failing
        .iter()
        .find(|failure| failure.call == call)
        .map(|failure| failure.taken)
}
