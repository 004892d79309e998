//! Words, numbers and octets of cases.
ghost use Rattle.std.specs.Prelude.{◌≡◌, IfOk, Some};

use std::alloc::Global;
use std::io;
use std::io::ErrorKind;

/// The value that is there.
pub fn known<T>(found: Option<T>) -> io::Result<T>
    ensures { IfOk result (λ value. found ≡ Some value) }
{
    Ok(found.ok_or(ErrorKind::InvalidInput)?)
}

/// The first word of a text, and what stands behind it.
pub fn front(text: &str) -> (&str, &str) {
    text.split_once(' ').unwrap_or((text, ""))
}

/// The number that a word is.
pub fn number(word: &str) -> io::Result<u32> {
    known(word.parse().ok())
}

/// The numbers that words are.
pub fn numbers(alloc: Global, words: &str) -> io::Result<Vec<u32>> {
    let mut numbers = Vec::new(alloc);
    for word in words.split(' ') {
        numbers.push(number(word)?)?;
    }
    Ok(numbers)
}

/// The octets of hexadecimal digits, with spaces between them.
pub fn octets_of(alloc: Global, digits: &str) -> io::Result<Vec<u8>> {
    let digits = digits.replace(alloc, " ", "")?;
    known(hex::decode(alloc, digits.as_str()).ok())
}
