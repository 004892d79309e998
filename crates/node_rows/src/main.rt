//! Runs the cases on standard input, each on a node over a disk in memory, and tells what comes of it.
//!
//! A case begins with a line `== KIND: ..`. The lines behind it are of these kinds:
//!
//! - `octets HEX`: what the disk holds at first. `area N`: the area of its journal.
//! - `fail N ..`: these calls of the disk fail.
//! - `crash`: the node crashes, and the lines behind it are of its next life. Its disk fails no more.
//! - `apart`: the node is taken apart, and put together again.
//! - Each other line has commands, as `life` says, with `; ` between them.
//!
//! There are these kinds of case:
//!
//! - `calls`: the lives are played, and each answer is told.
//! - `table`: each line `event ..` is played behind each line `phase N ..`, each time on a new node. Where N is a
//!   number, the disk's calls fail from this one on.
//! - `crashes`: of each call of the disk in the first life it is told which places were written, and what the next
//!   lives make of each image that a crash in it leaves. An image has the front of what was written, and behind it what
//!   stood there, or octets that are 1.
#![tactic(auto)]

use case::Case;
use std::io;
use std::io::Write;
use text::pieces;

mod acts;
mod case;
mod client;
mod crashes;
mod life;
mod node_calls;
mod tell;
mod text;

fn main(rt: HostRuntime) -> io::Result<()> {
    let text = io::read_to_string(rt.alloc(), rt.stdin())?;
    let cases = pieces(rt.alloc(), text.as_str(), "\n== ")?;
    match cases.as_slice() {
        [_, cases @ ..] => tell_cases(&rt, cases),
        [] => Ok(()),
    }
}

fn tell_cases(rt: &HostRuntime, cases: &[&str]) -> io::Result<()> {
    for case in cases {
        tell_case(rt, case)?;
    }
    Ok(())
}

/// Tells the head of a case, and what comes of it.
fn tell_case(rt: &HostRuntime, case: &str) -> io::Result<()> {
    let mut told = Vec::new(rt.alloc());
    let (head, lines) = case.split_once('\n').unwrap_or((case, ""));
    writeln!(told, "== {head}")?;
    Case::of(rt, lines)?.tell(head, &mut told)?;
    rt.stdout().write_all(told.as_slice())?;
    Ok(())
}
