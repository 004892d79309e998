ghost use Rattle.std.specs.Prelude.{IfOk, IsTrue};
ghost use Rattle.ots_program.specs.Serve.{HasTwo};
ghost use Rattle.ots_program.specs.Words.{IsService, IsShow, Serving};

use crate::pieces::Pieces;
use crate::service::PortDoor;
use crate::{input, lines, service, statuses};
use ots_outside::{Failure, MemClock, MemDisk, MemDoor, MemLink, MemSink, MemSource, Spawner};
use ots_program::{Devices, Word, run, run_plain};
use std::alloc::Global;
use std::io;
use std::io::{ErrorKind, Write};
use std::sync::Wait;
use std::thread::Threads;

/// The devices of a case, all of them in memory.
type MemDevices<R> = Devices<Pieces, MemSink, MemDisk, PortDoor<R>, MemLink, MemClock, R>;

/// How many octets are shown of a line at most.
const MOST: usize = 4000;

/// What a case is of.
#[derive(Clone, Copy)]
enum Subject {
    Command,
    Lines,
    Statuses,
}

impl Subject {
    fn of(words: &str) -> Subject {
        match words.trim() {
            "lines" => Subject::Lines,
            "statuses" => Subject::Statuses,
            _ => Subject::Command,
        }
    }
}

/// How a case is run.
#[derive(Drop)]
pub struct Case {
    subject: Subject,
    words: Vec<Word>,
    /// How many octets a read gives at most.
    most: usize,
    failing_reads: Vec<u64>,
    failing_writes: Vec<Failure>,
    /// What the disk of a service holds.
    disk: Vec<u8>,
    failing_disk: Vec<u64>,
    failing_door: Vec<u64>,
    /// What the connections send that wait at the door.
    conns: Vec<Vec<u8>>,
    /// The port of a service is in use.
    in_use: bool,
    hex: bool,
    /// How many octets the input lacks at its end.
    cut: usize,
    /// It is run on each front of its input.
    pub fronts: bool,
    /// How many lines are shown at most.
    last: usize,
    plain: bool,
}

impl Case {
    /// The case with this first line.
    pub fn of(alloc: Global, head: &str) -> io::Result<Case> {
        let mut parts = head.split('|');
        let mut words = Vec::new(alloc);
        let first = parts.next().unwrap_or("");
        for word in first.split_whitespace() {
            words.push(Word::new(word.as_bytes().to_vec(alloc)?))?;
        }
        let mut case = Case {
            subject: Subject::of(first),
            words,
            most: usize::MAX,
            failing_reads: Vec::new(alloc),
            failing_writes: Vec::new(alloc),
            disk: Vec::new(alloc),
            failing_disk: Vec::new(alloc),
            failing_door: Vec::new(alloc),
            conns: Vec::new(alloc),
            in_use: false,
            hex: false,
            cut: 0,
            fronts: false,
            last: usize::MAX,
            plain: false,
        };
        for part in parts {
            let part: Vec<&str> = part.split_whitespace().collect(alloc)?;
            case.take_part(alloc, part.as_slice())?;
        }
        Ok(case)
    }

    fn take_part(&mut self, alloc: Global, part: &[&str]) -> io::Result<()> {
        match part {
            ["pieces", most] => self.most = number(most)?,
            ["fail", "read", call] => self.failing_reads.push(number(call)? as u64)?,
            ["fail", "write", call, "taken", taken] => self.failing_writes.push(Failure {
                call: number(call)? as u64,
                taken: number(taken)?,
            })?,
            ["disk", octets] => self.disk = input::octets(alloc, octets)?,
            ["fail", "disk", call] => self.failing_disk.push(number(call)? as u64)?,
            ["conn", octets] => self.conns.push(input::octets(alloc, octets)?)?,
            ["in", "use"] => self.in_use = true,
            ["fail", "door", call] => self.failing_door.push(number(call)? as u64)?,
            ["hex"] => self.hex = true,
            ["cut", count] => self.cut = number(count)?,
            ["fronts"] => self.fronts = true,
            ["last", count] => self.last = number(count)?,
            ["plain"] => self.plain = true,
            ["#", ..] => {}
            _ => return Err(ErrorKind::InvalidInput.into()),
        }
        Ok(())
    }

    /// The input that these lines make.
    pub fn input(&self, alloc: Global, lines: &[&str]) -> io::Result<Vec<u8>> {
        let text = input::text(alloc, lines)?;
        let mut input = if self.hex {
            input::octets(alloc, text.as_str())?
        } else {
            text.into_bytes()
        };
        input.truncate(input.len().saturating_sub(self.cut));
        Ok(input)
    }

    /// Tries the case with this input, and tells what came.
    pub fn told<R: Wait + Threads + Copy + Send + Sync + Drop + 'static>(
        &self,
        rt: &R,
        alloc: Global,
        input: &[u8],
    ) -> io::Result<Vec<u8>> {
        let mut told = Vec::new(alloc);
        match self.subject {
            Subject::Command => return self.run(rt, alloc, input),
            Subject::Lines => lines::tell_lines(alloc, &mut told, input)?,
            Subject::Statuses => statuses::tell(alloc, &mut told)?,
        }
        Ok(told)
    }

    /// Runs the command on this input, and tells what came.
    fn run<R: Wait + Threads + Copy + Send + Sync + Drop + 'static>(
        &self,
        rt: &R,
        alloc: Global,
        input: &[u8],
    ) -> io::Result<Vec<u8>> {
        let mut devices = self.devices(rt, alloc, input)?;
        let sent = devices.door.sent()?;
        let words = self.words.as_slice();
        let status = if self.plain && is_plain(words) {
            run_plain(alloc, words, &mut devices.source, &mut devices.sink)
        } else {
            run(rt, alloc, words, &mut devices)
        };
        let mut told = self.shown(alloc, devices.sink.octets())?;
        let octets = sent.lock(rt).to_vec(alloc)?;
        if !octets.is_empty() {
            writeln!(told, "sent {}", hex::encode(alloc, octets.as_slice())?)?;
        }
        let number = status.number();
        let reads = devices.source.source.faults();
        let writes = devices.sink.faults();
        write!(
            told,
            "-- {number} {status:?}, faults {reads} {writes}\n{status}"
        )?;
        Ok(told)
    }

    /// The devices, with this input.
    fn devices<R: Wait + Threads + Copy + Send + Sync + Drop + 'static>(
        &self,
        rt: &R,
        alloc: Global,
        input: &[u8],
    ) -> io::Result<MemDevices<R>>
        ensures { IfOk result HasTwo }
    {
        let source = MemSource::new(input.to_vec(alloc)?, self.failing_reads.clone()?);
        let disk = MemDisk::new(alloc, self.disk.clone()?, self.failing_disk.clone()?)?;
        let conns = service::conns(alloc, self.conns.as_slice())?;
        let door = MemDoor::new(conns, self.failing_door.clone()?);
        Ok(Devices {
            source: Pieces {
                source,
                most: self.most,
            },
            sink: MemSink::new(alloc, self.failing_writes.clone()?),
            disk: Some(disk),
            door: PortDoor::new(*rt, alloc, door, self.in_use)?,
            links: service::links(alloc)?,
            clocks: service::clocks(alloc)?,
            spawner: Spawner::at_once(1, Vec::new(alloc)),
        })
    }

    /// The last lines of what was written.
    fn shown(&self, alloc: Global, text: &[u8]) -> io::Result<Vec<u8>> {
        let lines = text.split_inclusive(|octet| *octet == b'\n');
        let lines: Vec<&[u8]> = lines.collect(alloc)?;
        let count = lines.len();
        let mut shown = Vec::new(alloc);
        if self.last < count {
            writeln!(shown, ".. {} octets in {count} lines", text.len())?;
        }
        for line in &lines.as_slice()[count - count.min(self.last)..] {
            show_line(&mut shown, line)?;
        }
        if text.last().is_some_and(|octet| *octet != b'\n') {
            shown.extend_from_slice(b"\\\n")?;
        }
        Ok(shown)
    }
}

/// Shows a line. Of a long one its front is shown, and how many octets it has with its line feed.
fn show_line(shown: &mut Vec<u8>, line: &[u8]) -> io::Result<()> {
    shown.extend_from_slice(&line[..line.len().min(MOST)])?;
    if line.len() > MOST {
        writeln!(shown, " .. {} octets", line.len())?;
    }
    Ok(())
}

/// Whether these words ask for no show and for no service.
fn is_plain(words: &[Word]) -> bool
    ensures show { IsTrue result → ¬ (IsShow words.now) }
    ensures serve { IsTrue result → (service : Serving) → ¬ (IsService words.now service) }
{
    match words {
        [] => true,
        [word] => word.bytes() != b"show".as_slice(),
        [word, ..] => {
            word.bytes() != b"serve".as_slice() && word.bytes() != b"resource".as_slice()
        }
    }
}

/// The number that a word is.
pub fn number(word: &str) -> io::Result<usize> {
    word.parse().map_err(|_| ErrorKind::InvalidInput.into())
}
