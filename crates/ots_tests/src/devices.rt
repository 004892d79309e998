//! Tests of devices in memory, of which calls need memory, and over streams of `std::io`.

use ots_outside::{Disk, DiskRefusal, Failed, MemSink, Sink, Source, StdSink, StdSource, SureDisk};
use std::io;
use std::io::{ErrorKind, Read, Write};
use std::test::Fail;

/// Writes at the front of a disk, and syncs.
fn keep<D: Disk>(disk: &mut D, octets: &[u8]) -> Result<(), DiskRefusal> {
    disk.write_at(0, octets)?;
    disk.sync()
}

#[test]
fn memory_is_taken_where_there_is_some(rt: HostRuntime) -> Result<(), Fail> {
    MemSink::new(rt.alloc(), Vec::new(rt.alloc())).reserve(4)?;
    let mut disk = SureDisk::new(rt.alloc(), Vec::new(rt.alloc()))?;
    assert!(rt; keep(&mut disk, b"abcd") == Ok(()));
    Ok(())
}

/// A stream over another, of which chosen calls are interrupted, and which takes at most two octets a write.
#[derive(Drop)]
struct Faulty<'a, S> {
    stream: S,
    failing: &'a [u8],
    calls: u8,
}

impl<S> Faulty<'_, S> {
    /// Counts a call of any kind, which fails where its number, from 0, is chosen.
    fn begin(&mut self) -> io::Result<()> {
        let call = self.calls;
        self.calls = call.saturating_add(1);
        if self.failing.contains(&call) {
            return Err(ErrorKind::Interrupted.into());
        }
        Ok(())
    }
}

impl<S: Read> Read for Faulty<'_, S> {
    fn read(&mut self, into: &mut [u8]) -> io::Result<usize> {
        self.begin()?;
        self.stream.read(into)
    }
}

impl<S: Write> Write for Faulty<'_, S> {
    fn write(&mut self, bytes: &[u8]) -> io::Result<usize> {
        self.begin()?;
        self.stream.write(&bytes[..bytes.len().min(2)])
    }

    fn flush(&mut self) -> io::Result<()> {
        self.begin()?;
        self.stream.flush()
    }
}

/// What a read of two octets answers, and the piece that it fills.
fn read_two<S: Source>(source: &mut S) -> (Result<usize, Failed>, [u8; 2]) {
    let mut piece = [0; 2];
    (source.read(&mut piece), piece)
}

fn write_to<S: Sink>(sink: &mut S, bytes: &[u8]) -> Result<(), Failed> {
    sink.write(bytes)
}

#[test]
fn a_reader_gives_fails_and_ends(rt: HostRuntime) {
    let mut source = StdSource::new(Faulty {
        stream: b"abc".as_slice(),
        failing: &[1],
        calls: 0,
    });
    assert!(rt; read_two(&mut source) == (Ok(2), *b"ab"));
    assert!(rt; read_two(&mut source) == (Err(Failed), [0, 0]));
    assert!(rt; read_two(&mut source) == (Ok(1), *b"c\0"));
    assert!(rt; read_two(&mut source) == (Ok(0), [0, 0]));
}

#[test]
fn a_writer_takes_all_or_fails(rt: HostRuntime) {
    let mut room = [0; 12];
    // The second write of the second piece fails, and the flush of the fourth. For the last there is no room.
    let mut sink = StdSink::new(Faulty {
        stream: room.as_mut_slice(),
        failing: &[4, 9],
        calls: 0,
    });
    let written = [
        write_to(&mut sink, b"one "),
        write_to(&mut sink, b"two "),
        write_to(&mut sink, b"end"),
        write_to(&mut sink, b"."),
        write_to(&mut sink, b"over"),
    ];
    assert!(rt; written == [Ok(()), Err(Failed), Ok(()), Err(Failed), Err(Failed)]);
    assert!(rt; room == *b"one twend.ov");
}
