use crate::told::Told;
use crate::{answers, calls, messages, values};
use std::alloc::Global;

/// A case, without its input.
#[derive(Clone, Copy)]
pub struct Case<'a> {
    /// What the input is.
    subject: &'a str,
    hex: bool,
    /// How many times a call is read, and written, beside the first.
    reads: usize,
    writes: usize,
}

impl Case<'_> {
    /// The case with this first line.
    pub fn of(head: &str) -> Option<Case> {
        let (subject, parts) = head.split_once('|').unwrap_or((head, ""));
        let mut case = Case {
            subject: subject.trim(),
            hex: false,
            reads: 0,
            writes: 0,
        };
        for part in parts.split('|') {
            case.take_part(part.trim())?;
        }
        Some(case)
    }

    fn take_part(&mut self, part: &str) -> Option<()> {
        match part.split_once(' ').unwrap_or((part, "")) {
            ("hex", _) => self.hex = true,
            ("reads", count) => self.reads = number(count)?,
            ("writes", count) => self.writes = number(count)?,
            ("#" | "", _) => {}
            _ => return None,
        }
        Some(())
    }

    /// Tells what these lines say.
    pub fn tell(self, alloc: Global, told: &mut Told, lines: &str) {
        if self.hex {
            match octets(alloc, lines) {
                Some(input) => self.tell_input(alloc, told, &input),
                None => told.text(b"\n", b"no octets"),
            }
        } else {
            self.tell_input(alloc, told, lines.as_bytes());
        }
    }

    fn tell_input(self, alloc: Global, told: &mut Told, input: &[u8]) {
        match self.subject {
            "ior" => values::tell_stringified(alloc, told, input),
            "context" => values::tell_octets(alloc, told, input),
            "request" => calls::tell_within(alloc, told, input),
            "message" => messages::tell(alloc, told, input),
            "call" => {
                calls::tell(alloc, told, input);
                calls::repeat(alloc, input, self.reads, self.writes);
            }
            "answer" => answers::tell(alloc, told, input),
            _ => told.text(b"\n", b"no subject"),
        }
    }
}

/// The octets of lines of hexadecimal words.
fn octets(alloc: Global, lines: &str) -> Option<Vec<u8>> {
    let mut octets = Vec::new(alloc);
    for line in lines.split('\n') {
        let (count, words) = counted(line)?;
        let line = line_octets(alloc, words)?;
        octets
            .extend_from_slice(line.repeat(alloc, count).ok()?.as_slice())
            .ok()?;
    }
    Some(octets)
}

fn line_octets(alloc: Global, words: &str) -> Option<Vec<u8>> {
    let digits = words.replace(alloc, " ", "").ok()?;
    hex::decode(alloc, digits.as_str()).ok()
}

/// How often the words of a line stand, and the words.
fn counted(line: &str) -> Option<(usize, &str)> {
    let Some(line) = line.strip_prefix("= ") else {
        return Some((1, line));
    };
    let (outer, line) = line.split_once(' ')?;
    let (inner, words) = line.split_once(' ')?;
    Some((number(outer)?.saturating_mul(number(inner)?), words))
}

/// The number that a word is.
fn number(word: &str) -> Option<usize> {
    word.parse().ok()
}
