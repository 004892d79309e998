use crate::crashes::tell_crashes;
use crate::life::Life;
use crate::node_calls::{MemNode, crash, disk_of, load, rebuilt};
use crate::tell::tell_records;
use crate::text::{number, octets_of, pieces};
use ots_outside::MemDisk;
use std::alloc::Global;
use std::io;
use std::io::Write;
use std::ops::Range;

/// How many calls of a disk are looked at.
pub const CALLS: u64 = 64;

/// What a disk holds, which of its calls fail, and what is done in each life of its node.
#[derive(Drop)]
pub struct Case<'a> {
    /// What cases are played by.
    pub rt: &'a HostRuntime,
    octets: Vec<u8>,
    area: u64,
    failing: Vec<u64>,
    lives: Vec<Vec<&'a str>>,
}

impl<'a> Case<'a> {
    /// The case that these lines make.
    pub fn of(rt: &'a HostRuntime, text: &'a str) -> io::Result<Case<'a>> {
        let mut case = Case {
            rt,
            octets: Vec::new(rt.alloc()),
            area: 4096,
            failing: Vec::new(rt.alloc()),
            lives: Vec::new(rt.alloc()),
        };
        let lives = pieces(rt.alloc(), text, "\ncrash\n")?;
        for life in lives.as_slice() {
            case.add_life(life)?;
        }
        Ok(case)
    }

    /// Adds a life of these lines, but those that say what the disk holds and which of its calls fail.
    fn add_life(&mut self, life: &'a str) -> io::Result<()> {
        let mut told = Vec::new(self.rt.alloc());
        let lines = pieces(self.rt.alloc(), life, "\n")?;
        for line in lines.as_slice() {
            self.add_line(line, &mut told)?;
        }
        self.lives.push(told)?;
        Ok(())
    }

    fn add_line(&mut self, line: &'a str, lines: &mut Vec<&'a str>) -> io::Result<()> {
        match line.split_once(' ') {
            Some(("octets", octets)) => self.octets = octets_of(self.rt.alloc(), octets)?,
            Some(("area", area)) => self.area = u64::from(number(area)?),
            Some(("fail", calls)) => self.failing = calls_of(self.rt.alloc(), calls)?,
            _ if line.is_empty() => {}
            _ => lines.push(line)?,
        }
        Ok(())
    }

    /// Plays the case, and tells what came.
    pub fn tell(&self, head: &str, told: &mut Vec<u8>) -> io::Result<()> {
        let (kind, _) = head.split_once(':').unwrap_or((head, ""));
        match kind {
            "table" => self.tell_table(told),
            "crashes" => tell_crashes(self, told),
            _ => self.tell_calls(told),
        }
    }

    fn tell_calls(&self, told: &mut Vec<u8>) -> io::Result<()> {
        let failing = self.failing.clone()?;
        let disk = disk_of(self.rt.alloc(), self.octets.as_slice(), failing)?;
        self.tell_lives(disk, self.lives.as_slice(), "\n", told)?;
        writeln!(told)
    }

    /// Plays these lives, one after the other. Each but the first has a disk that reads as the last was left, and doesn't
    /// fail.
    fn tell_lives(
        &self,
        disk: MemDisk,
        lives: &[Vec<&str>],
        between: &str,
        told: &mut Vec<u8>,
    ) -> io::Result<()> {
        let mut disk = disk;
        let mut gap = "";
        for life in lives {
            write!(told, "{gap}")?;
            let left = self.live(disk, life.as_slice(), between, told)?;
            disk = disk_of(self.rt.alloc(), left.octets(), Vec::new(self.rt.alloc()))?;
            gap = between;
        }
        Ok(())
    }

    /// Loads the node that a disk holds, and plays its life, or tells why that is refused. Gives the disk back.
    fn live(
        &self,
        disk: MemDisk,
        lines: &[&str],
        between: &str,
        told: &mut Vec<u8>,
    ) -> io::Result<MemDisk> {
        match load(self.rt.alloc(), disk, self.area) {
            Ok(node) => live_on(self.rt, node, lines, between, told),
            Err(back) => {
                write!(told, "{:?}", back.fault)?;
                Ok(back.value)
            }
        }
    }

    /// Plays each event behind each phase, and tells what came.
    fn tell_table(&self, told: &mut Vec<u8>) -> io::Result<()> {
        let lines = self.first_life();
        for line in lines {
            if let Some(("phase", phase)) = line.split_once(' ') {
                self.tell_phase(phase, lines, told)?;
            }
        }
        Ok(())
    }

    /// The lines of the first life.
    fn first_life(&self) -> &[&'a str] {
        match self.lives.as_slice() {
            [life, ..] => life.as_slice(),
            [] => &[],
        }
    }

    /// Plays a phase, and then each event behind it, and tells what came.
    fn tell_phase(&self, phase: &str, lines: &[&str], told: &mut Vec<u8>) -> io::Result<()> {
        let (first, setting) = phase.split_once(' ').unwrap_or((phase, ""));
        let from = first.parse().ok().unwrap_or(CALLS);
        self.tell_last(from, &[setting], told)?;
        for line in lines {
            if let Some(("event", event)) = line.split_once(' ') {
                self.tell_last(from, &[setting, event], told)?;
            }
        }
        Ok(())
    }

    /// Plays a life in which the disk fails from this call on, and tells what came of its last line.
    fn tell_last(&self, from: u64, lines: &[&str], told: &mut Vec<u8>) -> io::Result<()> {
        let mut all = Vec::new(self.rt.alloc());
        self.live(self.disk_from(from)?, lines, "\n", &mut all)?;
        let last = all.as_slice().rsplit(|octet| *octet == b'\n').next();
        told.write_all(last.unwrap_or(&[]))?;
        writeln!(told)
    }

    /// The disk of the case, whose calls fail from this one on.
    fn disk_from(&self, call: u64) -> io::Result<MemDisk> {
        let failing: Range<u64> = call..call.saturating_add(CALLS);
        let failing = failing.collect(self.rt.alloc())?;
        disk_of(self.rt.alloc(), self.octets.as_slice(), failing)
    }

    /// The disk that the first life leaves where each of its calls fails from this one on.
    pub fn stopped(&self, call: u64) -> io::Result<MemDisk> {
        let disk = self.disk_from(call)?;
        self.live(disk, self.first_life(), "", &mut Vec::new(self.rt.alloc()))
    }

    /// Plays the lives behind the first from these octets on, and tells what comes in one line.
    pub fn tell_next(&self, octets: &[u8], told: &mut Vec<u8>) -> io::Result<()> {
        let disk = disk_of(self.rt.alloc(), octets, Vec::new(self.rt.alloc()))?;
        match self.lives.as_slice() {
            [_, lives @ ..] => self.tell_lives(disk, lives, ". ", told),
            [] => Ok(()),
        }
    }
}

/// Plays the life of a node that was loaded, where the line `apart` takes it apart and puts it together again. Gives the
/// disk back. Nothing but a crash ends a node, also where playing fails.
fn live_on(
    rt: &HostRuntime,
    node: MemNode,
    lines: &[&str],
    between: &str,
    told: &mut Vec<u8>,
) -> io::Result<MemDisk> {
    let mut node = node;
    let mut life = Life::new(rt);
    let mut played = tell_records(&node, &mut life.told);
    for line in lines {
        if played.is_err() {
            break;
        }
        played = if *line == "apart" {
            node = rebuilt(rt.alloc(), node);
            write!(life.told, "{between}apart:")
        } else {
            life.play(&mut node, between, line)
        };
    }
    let disk = crash(node);
    played?;
    told.write_all(life.told.as_slice())?;
    Ok(disk)
}

/// The numbers of calls that are to fail.
fn calls_of(alloc: Global, words: &str) -> io::Result<Vec<u64>> {
    let mut calls = Vec::new(alloc);
    let words = pieces(alloc, words, " ")?;
    for word in words.as_slice() {
        calls.push(u64::from(number(word)?))?;
    }
    Ok(calls)
}
