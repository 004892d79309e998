//! Runs the cases on standard input, each on a server of cells over devices in memory, and tells what its sessions answer. The lines
//! of cases, and what is told, are those of `case_kit`. Requests are for the cells at first.
#![tactic(auto)]

use cells::tell_case;
use std::io;
use std::io::Write;

mod cells;

fn main(rt: HostRuntime) -> io::Result<()> {
    let text = io::read_to_string(rt.alloc(), rt.stdin())?;
    let mut out = rt.stdout();
    for case in text.as_str().split("\n== ").skip(1) {
        let mut told = Vec::new(rt.alloc());
        tell_case(&rt, rt.alloc(), case, &mut told)?;
        out.write_all(told.as_slice())?;
    }
    Ok(())
}
