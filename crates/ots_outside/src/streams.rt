ghost use Rattle.std.specs.Prelude.{◌≡◌, ◌≤◌, OnErr, OnOk};
ghost use Rattle.std.specs.Io.KnownBytes.{ReadConsumes};
ghost use Rattle.ots_outside.specs.Source.{CountsFault, CountsWithin, HasRisen};
ghost use Rattle.ots_outside.specs.Sink.{Takes, TakesPart};

use crate::sink::Sink;
use crate::source::{Failed, Source};
use std::io;
use std::io::{ErrorKind, Read, Write};

/// A source over a reader of `std::io`. Each failure that it answers counts as one fault.
#[derive(Drop)]
pub struct StdSource<R> {
    reader: R,
    faults: u64,
}

impl<R: Read> StdSource<R> {
    ghost use Rattle.ots_outside.specs.Streams.{source_faults, source_reader};

    /// A source over this reader, without faults.
    pub fn new(reader: R) -> StdSource<R>
        ensures reader { source_reader result ≡ reader }
        ensures faults { source_faults result ≡ 0 }
    {
        StdSource { reader, faults: 0 }
    }

    /// How many reads have failed.
    pub fn faults(&self) -> u64
        ensures { result ≡ source_faults self.now }
    {
        self.faults
    }
}

impl<R: Read> Source for StdSource<R> {
    ghost use Rattle.std.specs.Prelude.{None};
    ghost use Rattle.ots_outside.specs.Streams.{source_faults, source_reader};

    ghost faults = { source_faults };

    ghost remaining = { λ _. None };

    fn read(&mut self, into: &mut [u8]) -> Result<usize, Failed>
        // What each source promises.
        ensures count { CountsWithin result into.old }
        ensures calm { OnOk result (source_faults self.new ≡ source_faults self.old) }
        ensures cause { OnErr result (HasRisen (source_faults self.old) (source_faults self.new)) }
        ensures later { source_faults self.old ≤ source_faults self.new }

        // What the reader gives, where it tells what is left.
        ensures octets { ReadConsumes (R.remaining (source_reader self.old)) (R.remaining (source_reader self.new))
            result into.new }

        // A failure counts as one fault, and an Ok as none.
        ensures faults { CountsFault result (source_faults self.old) (source_faults self.new) }
    {
        match self.reader.read(into) {
            Ok(count) => Ok(count),
            Err(_) => Err(Failed::counted(&mut self.faults)),
        }
    }
}

/// A sink over a writer of `std::io`. Each failure that it answers counts as one fault.
#[derive(Drop)]
pub struct StdSink<W> {
    writer: W,
    faults: u64,
}

impl<W: Write> StdSink<W> {
    ghost use Rattle.ots_outside.specs.Streams.{sink_faults, sink_writer};

    /// A sink over this writer, without faults.
    pub fn new(writer: W) -> StdSink<W>
        ensures writer { sink_writer result ≡ writer }
        ensures faults { sink_faults result ≡ 0 }
    {
        StdSink { writer, faults: 0 }
    }

    /// How many writes have failed.
    pub fn faults(&self) -> u64
        ensures { result ≡ sink_faults self.now }
    {
        self.faults
    }
}

impl<W: Write> Sink for StdSink<W> {
    ghost use Rattle.ots_outside.specs.Streams.{sink_faults, sink_writer};

    ghost faults = { sink_faults };

    ghost taken = { λ sink. W.contents (sink_writer sink) };

    fn write(&mut self, bytes: &[u8]) -> Result<(), Failed>
        // What each sink promises.
        ensures whole { OnOk result
            (Takes (W.contents (sink_writer self.old)) bytes.now (W.contents (sink_writer self.new))) }
        ensures part { OnErr result
            (TakesPart (W.contents (sink_writer self.old)) bytes.now (W.contents (sink_writer self.new))) }
        ensures calm { OnOk result (sink_faults self.new ≡ sink_faults self.old) }
        ensures cause { OnErr result (HasRisen (sink_faults self.old) (sink_faults self.new)) }
        ensures later { sink_faults self.old ≤ sink_faults self.new }

        // A failure counts as one fault, and an Ok as none.
        ensures faults { CountsFault result (sink_faults self.old) (sink_faults self.new) }
    {
        match write_whole(&mut self.writer, bytes) {
            Ok(()) => Ok(()),
            Err(_) => Err(Failed::counted(&mut self.faults)),
        }
    }
}

/// Writes and flushes the octets. Unlike `write_all` it says what went out before an error.
fn write_whole<W: Write>(writer: &mut W, bytes: &[u8]) -> io::Result<()>
    ensures whole { OnOk result (Takes (W.contents writer.old) bytes.now (W.contents writer.new)) }
    ensures part { OnErr result (TakesPart (W.contents writer.old) bytes.now (W.contents writer.new)) }
{
    let mut rest = bytes;
    while !rest.is_empty() {
        match writer.write(rest) {
            Ok(0) => return Err(ErrorKind::WriteZero.into()),
            Ok(count) => rest = &rest[count..],
            Err(error) => return Err(error),
        }
    }
    writer.flush()
}
