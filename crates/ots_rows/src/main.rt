//! Runs the cases on standard input, each with devices in memory, and tells what came of it. A service has a door, a link and a
//! clock for its sessions and for its ticks, and turns a job once, as it is started.
//!
//! A case begins with a line `== WORDS | PART | PART ..`. The words are the command line, or one of these, which is no
//! command:
//!
//! - `lines`: the input is lines of a script. What each of them means is told, and of a long one how much.
//! - `statuses`: there is no input. Each status is told: its number, what it is, and its line on standard error.
//!
//! Each part is one of these:
//!
//! - `pieces N`: a read gives at most N octets.
//! - `fail read N`, `fail write N taken K`: that call fails, counted from 0. Of what it was to write K octets go out.
//! - `disk HEX`: the disk of a service holds these octets; without it, none.
//! - `conn HEX`: a connection waits at the door of a service that sends these octets; without it, nobody does.
//! - `fail disk N`, `fail door N`: that call of the disk or the door fails. `in use`: the door can't be opened.
//! - `hex`: the input is in hexadecimal digits. Each word of them is whole octets.
//! - `cut N`: the input is without its last N octets.
//! - `fronts`: the case is run on each front of its input, from none of the octets to all. What comes is told where it
//!   isn't what came of the front before.
//! - `last N`: only the last N lines that were written are shown. Where there were more, it is told how many.
//! - `plain`: `run_plain` takes the place of `run`, but for a show and a service.
//! - `# ..`: a remark.
//!
//! The lines up to the next case are the input, each with a line feed. A line `= N M LINE` stands for N times M lines:
//! in LINE `&` counts from 1 to N, and for each of these `%` from 1 to M. What stands before the first case is a remark.
//!
//! What is told of a command: its first line; what the sink has taken, with a `\` where its last line has no line feed,
//! and of a line of more than 4,000 octets its front and how many they are; a line with the status, its number and how
//! often the source and the sink have failed; and the line of the status on standard error.
#![tactic(auto)]

use case::Case;
use std::io;
use std::io::Write;

mod case;
mod input;
mod lines;
mod pieces;
mod service;
mod statuses;

fn main(rt: HostRuntime) -> io::Result<()> {
    let mut out = rt.stdout();
    let text = io::read_to_string(rt.alloc(), rt.stdin())?;
    let text = text.as_str();
    let cases = text.strip_suffix('\n').unwrap_or(text).split("\n== ");
    for case in cases.skip(1) {
        let lines: Vec<&str> = case.split('\n').collect(rt.alloc())?;
        let Some((head, lines)) = lines.as_slice().split_first() else {
            continue;
        };
        writeln!(out, "== {head}")?;
        let case = Case::of(rt.alloc(), head)?;
        let input = case.input(rt.alloc(), lines)?;
        let first = if case.fronts { 0 } else { input.len() };
        let mut before = Vec::new(rt.alloc());
        for count in first..=input.len() {
            let told = case.told(&rt, rt.alloc(), &input[..count])?;
            if told == before {
                continue;
            }
            if case.fronts {
                writeln!(out, "-- the first {count} octets")?;
            }
            out.write_all(told.as_slice())?;
            before = told;
        }
    }
    Ok(())
}
