use crate::calls::{call, tell_records, tell_standing};
use crate::crashes::tell_crashes;
use crate::end_calls::{LoadedEnd, load_end};
use crate::end_runs::{tell_end, tell_stops, tell_words};
use crate::journals::{Loaded, MemJournal, disk_of, into_disk, load, standing};
use crate::records::{add_octets, low_octet, number};
use ots_outside::MemDisk;
use std::alloc::Global;
use std::io;
use std::io::Write;

/// How many calls of a disk are looked at.
pub const CALLS: u64 = 64;

/// What a disk holds, and what is done with it.
#[derive(Drop)]
pub struct Case<'a> {
    /// What the disk holds at first.
    pub octets: Vec<u8>,
    area: u64,
    service: u64,
    /// What is done.
    pub calls: Vec<&'a str>,
    /// What is then asked of an end that a crash has left.
    pub looks: Vec<&'a str>,
}

impl<'a> Case<'a> {
    /// The case that these lines make.
    pub fn of(alloc: Global, lines: &[&'a str]) -> io::Result<Case<'a>> {
        let mut case = Case::empty(alloc);
        for line in lines {
            case.add(alloc, line)?;
        }
        Ok(case)
    }

    fn empty(alloc: Global) -> Case<'a> {
        Case {
            octets: Vec::new(alloc),
            area: 400,
            service: 1,
            calls: Vec::new(alloc),
            looks: Vec::new(alloc),
        }
    }

    fn add(&mut self, alloc: Global, line: &'a str) -> io::Result<()> {
        match line.split_once(' ') {
            Some(("octets", octets)) => add_octets(alloc, &mut self.octets, octets)?,
            Some(("fill", count)) => self.fill(number(count)?)?,
            Some(("area", area)) => self.area = u64::from(number(area)?),
            Some(("service", service)) => self.service = u64::from(number(service)?),
            Some(("then", look)) => self.looks.push(look)?,
            _ => self.calls.push(line)?,
        }
        Ok(())
    }

    fn fill(&mut self, count: u32) -> io::Result<()> {
        let length = self.octets.len().saturating_add(count as usize);
        self.octets.resize(length, 1)?;
        Ok(())
    }

    /// Tries the case, and tells what came.
    pub fn tell(&self, alloc: Global, head: &str, told: &mut Vec<u8>) -> io::Result<()> {
        let (kind, _) = head.split_once(':').unwrap_or((head, ""));
        match kind {
            "garbage" => self.tell_garbage(alloc, told),
            "fails" => self.tell_fails(alloc, told),
            "crashes" => tell_crashes(alloc, self, told),
            "end" => tell_end(alloc, self, told),
            "words" => tell_words(alloc, self, told),
            "stops" => tell_stops(alloc, self, told),
            _ => {
                self.tell_run(alloc, Vec::new(alloc), "\n", told)?;
                Ok(())
            }
        }
    }

    /// Runs the case once for each call of its disk, which fails.
    fn tell_fails(&self, alloc: Global, told: &mut Vec<u8>) -> io::Result<()> {
        for call in 0..CALLS {
            write!(told, "{call}: ")?;
            if !self.tell_run(alloc, vec![in alloc; call]?, ", ", told)? {
                break;
            }
        }
        Ok(())
    }

    /// Loads the journal that a disk of these octets holds, of which these calls fail.
    pub fn load(&self, alloc: Global, octets: &[u8], failing: Vec<u64>) -> io::Result<Loaded> {
        let disk = disk_of(alloc, octets, failing)?;
        Ok(load(alloc, disk, self.area, self.service))
    }

    /// Loads the resource end that a disk of these octets holds, of which these calls fail.
    pub fn load_end(
        &self,
        alloc: Global,
        octets: &[u8],
        failing: Vec<u64>,
    ) -> io::Result<LoadedEnd> {
        let disk = disk_of(alloc, octets, failing)?;
        Ok(load_end(alloc, disk, self.area, self.service))
    }

    /// Runs the case on a disk of which these calls fail, and tells each answer. Gives the disk back.
    fn run(
        &self,
        alloc: Global,
        failing: Vec<u64>,
        between: &str,
        told: &mut Vec<u8>,
    ) -> io::Result<MemDisk> {
        match self.load(alloc, self.octets.as_slice(), failing)? {
            Ok(mut journal) => {
                self.make_calls(alloc, &mut journal, between, told)?;
                Ok(into_disk(journal))
            }
            Err(back) => {
                write!(told, "{:?}", back.fault)?;
                Ok(back.value)
            }
        }
    }

    fn make_calls(
        &self,
        alloc: Global,
        journal: &mut MemJournal,
        between: &str,
        told: &mut Vec<u8>,
    ) -> io::Result<()> {
        tell_standing(journal, told)?;
        for line in self.calls.as_slice() {
            write!(told, "{between}{line}: ")?;
            call(alloc, journal, line, told)?;
        }
        Ok(())
    }

    /// Runs the case, and tells what a load of what the disk reads then finds, and whether a call has failed.
    fn tell_run(
        &self,
        alloc: Global,
        failing: Vec<u64>,
        between: &str,
        told: &mut Vec<u8>,
    ) -> io::Result<bool> {
        let disk = self.run(alloc, failing, between, told)?;
        write!(told, "{between}then ")?;
        self.tell_load(alloc, disk.octets(), None, told)?;
        writeln!(told)?;
        Ok(disk.faults() > 0)
    }

    /// Runs the case up to this call of the disk. From there on each call fails.
    pub fn stopped(&self, alloc: Global, call: u64) -> io::Result<MemDisk> {
        self.run(alloc, calls_from(alloc, call)?, "", &mut Vec::new(alloc))
    }

    /// Tells what a load of the octets finds, once one of them is another and the rest is cut off.
    fn tell_garbage(&self, alloc: Global, told: &mut Vec<u8>) -> io::Result<()> {
        for line in self.calls.as_slice() {
            self.tell_changed(alloc, line, told)?;
        }
        Ok(())
    }

    fn tell_changed(&self, alloc: Global, line: &str, told: &mut Vec<u8>) -> io::Result<()> {
        write!(told, "{line}: ")?;
        let octets = changed(alloc, line, self.octets.as_slice())?;
        self.tell_load(alloc, octets.as_slice(), None, told)?;
        writeln!(told)
    }

    /// Tells what a load of these octets finds, or the records that stand behind so many. The result is how many stand.
    pub fn tell_load(
        &self,
        alloc: Global,
        octets: &[u8],
        known: Option<usize>,
        told: &mut Vec<u8>,
    ) -> io::Result<usize> {
        match self.load(alloc, octets, Vec::new(alloc))? {
            Ok(journal) => tell_journal(&journal, known, told),
            Err(back) => {
                let gap = if known.is_some() { "; " } else { "" };
                write!(told, "{gap}{:?}", back.fault)?;
                Ok(0)
            }
        }
    }
}

fn tell_journal(
    journal: &MemJournal,
    known: Option<usize>,
    told: &mut Vec<u8>,
) -> io::Result<usize> {
    match known {
        Some(known) => tell_records(journal, known, told)?,
        None => tell_standing(journal, told)?,
    }
    Ok(standing(journal).len())
}

/// The octets, of which one is another, and the rest is cut off, as a line `PLACE OCTET LENGTH` says.
fn changed(alloc: Global, line: &str, octets: &[u8]) -> io::Result<Vec<u8>> {
    let (place, rest) = line.split_once(' ').unwrap_or((line, ""));
    let (other, length) = rest.split_once(' ').unwrap_or((rest, ""));
    let length = number(length)? as usize;
    let mut octets = octets.get(..length).unwrap_or(octets).to_vec(alloc)?;
    set_octet(octets.as_mut_slice(), number(place)?, number(other)?);
    Ok(octets)
}

fn set_octet(octets: &mut [u8], place: u32, other: u32) {
    if let Some(octet) = octets.get_mut(place as usize) {
        *octet = low_octet(other);
    }
}

/// The calls of a disk from this one on.
pub fn calls_from(alloc: Global, call: u64) -> io::Result<Vec<u64>> {
    Ok((call..call.saturating_add(CALLS)).collect(alloc)?)
}
