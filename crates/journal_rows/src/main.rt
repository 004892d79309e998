//! Runs the cases on standard input, each on a journal or a resource end over a disk in memory, and tells what comes of it.
//!
//! A case begins with a line `== KIND: ..`. The lines behind it say what the disk holds at first, and what is done:
//!
//! - `octets HEX ..`: these octets too. `fill N`: so many more that are 1.
//! - `area N`, `service N`: what it is loaded with.
//! - Each other line is a call, as `calls` says, or `ends`.
//!
//! There are these kinds:
//!
//! - `calls`: the journal is loaded, and the calls are made. At last the disk is loaded anew.
//! - `garbage`: each call is `PLACE OCTET LENGTH`. The journal is loaded from octets of which one is another, and no more
//!   than so many are left.
//! - `fails`: the case is run once for each call of its disk, which fails.
//! - `crashes`: of each call of the disk it is told what a crash in it leaves. In front of it come the places that were
//!   written. Each image has the front of what was written, and behind it what stood there, or octets that are 1. Its
//!   records are told by how many octets they and the header have, and by the life that the next load begins.
//! - `end`: a resource end is loaded over the disk, and the calls are those that `ends` says. `crash` loads it again, and
//!   so does `fail N`, after which the call N of its disk fails. Behind each answer come the records that the call wrote, or
//!   why the journal that its disk then reads is refused.
//! - `words`: behind the calls the resource 1 of life 1 is told a word, each time another; and behind each word, each word
//!   again. Of these the answers and the records are told as for `end`. At last it is told what the cell 5 holds.
//! - `stops`: the calls are made once for each call of the disk, from which on each fails. Below the answers stand those of
//!   the lines `then CALL`, made on an end that is loaded from an image that a crash in that call of the disk can leave, as
//!   for `crashes`; in front of them stands how many images come to them. Where it all is the same for several calls of the
//!   disk, it is told once.
//!
//! No more than the first 64 calls of a disk are looked at.
#![tactic(auto)]

use case::Case;
use std::alloc::Global;
use std::io;
use std::io::Write;

mod calls;
mod case;
mod crashes;
mod end_calls;
mod end_runs;
mod ends;
mod journals;
mod records;

fn main(rt: HostRuntime) -> io::Result<()> {
    let text = io::read_to_string(rt.alloc(), rt.stdin())?;
    let mut out = rt.stdout();
    for case in text.as_str().split("\n== ").skip(1) {
        let told = told(rt.alloc(), case)?;
        out.write_all(told.as_slice())?;
    }
    Ok(())
}

/// The head of a case, and what comes of it.
fn told(alloc: Global, case: &str) -> io::Result<Vec<u8>> {
    let mut told = Vec::new(alloc);
    let lines: Vec<&str> = case.lines().collect(alloc)?;
    tell_lines(alloc, lines.as_slice(), &mut told)?;
    Ok(told)
}

fn tell_lines(alloc: Global, lines: &[&str], told: &mut Vec<u8>) -> io::Result<()> {
    match lines {
        [head, lines @ ..] => tell_case(alloc, head, lines, told),
        [] => Ok(()),
    }
}

fn tell_case(alloc: Global, head: &str, lines: &[&str], told: &mut Vec<u8>) -> io::Result<()> {
    writeln!(told, "== {head}")?;
    let case = Case::of(alloc, lines)?;
    case.tell(alloc, head, told)
}
