//! Words, numbers and octets of cases.

use std::alloc::Global;
use std::io;
use std::io::ErrorKind;

/// The pieces of a text that this stands between.
pub fn pieces<'a>(alloc: Global, text: &'a str, between: &str) -> io::Result<Vec<&'a str>> {
    Ok(text.split(between).collect(alloc)?)
}

/// The first word of a text, and what stands behind it.
pub fn front(text: &str) -> (&str, &str) {
    text.split_once(' ').unwrap_or((text, ""))
}

/// The letter that a word is.
pub fn letter(word: &str) -> io::Result<u8> {
    match word.as_bytes() {
        [letter] => Ok(*letter),
        _ => Err(ErrorKind::InvalidInput.into()),
    }
}

/// The number that a word is.
pub fn number(word: &str) -> io::Result<u32> {
    Ok(word.parse().ok().ok_or(ErrorKind::InvalidInput)?)
}

/// The numbers that words are.
pub fn numbers(alloc: Global, words: &str) -> io::Result<Vec<u32>> {
    let mut numbers = Vec::new(alloc);
    let words = pieces(alloc, words, " ")?;
    for word in words.as_slice() {
        numbers.push(number(word)?)?;
    }
    Ok(numbers)
}

/// The octets of hexadecimal digits.
pub fn octets_of(alloc: Global, digits: &str) -> io::Result<Vec<u8>> {
    match hex::decode(alloc, digits) {
        Ok(octets) => Ok(octets),
        Err(_) => Err(ErrorKind::InvalidInput.into()),
    }
}
