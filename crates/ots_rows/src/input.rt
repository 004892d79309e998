use crate::case::number;
use std::alloc::Global;
use std::io;
use std::io::{ErrorKind, Write};

/// The text that these lines make.
pub fn text(alloc: Global, lines: &[&str]) -> io::Result<String> {
    let mut text = String::new(alloc);
    for line in lines {
        match line.strip_prefix("= ") {
            Some(line) => repeat(alloc, &mut text, line)?,
            None => writeln!(text, "{line}")?,
        }
    }
    Ok(text)
}

/// Appends the lines for which `N M LINE` stands.
fn repeat(alloc: Global, text: &mut String, line: &str) -> io::Result<()> {
    let (outer, line) = line.split_once(' ').ok_or(ErrorKind::InvalidInput)?;
    let (inner, line) = line.split_once(' ').ok_or(ErrorKind::InvalidInput)?;
    let parts: Vec<&str> = line
        .split_inclusive(|letter| letter == '&' || letter == '%')
        .collect(alloc)?;
    for first in 1..=number(outer)? {
        for second in 1..=number(inner)? {
            for part in parts.as_slice() {
                match (part.strip_suffix('&'), part.strip_suffix('%')) {
                    (Some(front), _) => write!(text, "{front}{first}")?,
                    (_, Some(front)) => write!(text, "{front}{second}")?,
                    _ => text.push_str(part)?,
                }
            }
            text.push('\n')?;
        }
    }
    Ok(())
}

/// The octets of hexadecimal words.
pub fn octets(alloc: Global, text: &str) -> io::Result<Vec<u8>> {
    let mut octets = Vec::new(alloc);
    for word in text.split_whitespace() {
        let word = hex::decode(alloc, word).map_err(|_| ErrorKind::InvalidInput)?;
        octets.extend_from_slice(&word)?;
    }
    Ok(octets)
}
