//! What is told of the lines of a script.

use ots_world::parse_line;
use std::alloc::Global;
use std::io;
use std::io::Write;

/// How many octets are told of an event at most.
const MOST: usize = 280;

/// Tells what each line of a text means.
pub fn tell_lines(alloc: Global, told: &mut Vec<u8>, text: &[u8]) -> io::Result<()> {
    let text = text.strip_suffix(b"\n").unwrap_or(text);
    for line in text.split(|octet| *octet == b'\n') {
        tell_line(alloc, told, line)?;
    }
    Ok(())
}

/// Tells what a line means. Of a long event its front is told, and how many octets it has.
fn tell_line(alloc: Global, told: &mut Vec<u8>, line: &[u8]) -> io::Result<()> {
    let event = match parse_line(alloc, line) {
        Ok(Some(event)) => event,
        Ok(None) => return writeln!(told, "nothing"),
        Err(fault) => return writeln!(told, "{fault:?}"),
    };
    let shown = format!(in alloc; "{event:?}")?;
    let shown = shown.as_bytes();
    if shown.len() <= MOST {
        told.write_all(shown)?;
        return writeln!(told);
    }
    told.write_all(front(shown))?;
    writeln!(told, " .. {} octets", shown.len())
}

/// The first octets, as many as are told.
fn front(shown: &[u8]) -> &[u8] {
    &shown[..shown.len().min(MOST)]
}
