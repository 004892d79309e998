ghost use Rattle.std.specs.Prelude.{◌≡◌, ◌++◌, length, take, OnOk, OnErr};
ghost use Rattle.ots_model.specs.Piece.{word_of, spaced, line_of};
ghost use Rattle.ots_model.specs.Pieces.{IsWritten, gap, part_of, parts_of};
ghost use Rattle.ots_model.specs.Rows.{Puts};

use crate::name::Name;
use crate::row::Row;
use std::alloc::AllocError;

/// A word of a line.
#[derive(Clone, Copy)]
pub enum Piece<'a> {
    /// These octets.
    Text(&'a [u8]),
    /// The octets of a name.
    Named(Name),
    /// A number, in decimal digits.
    Number(u64),
}

impl Piece<'_> {
    /// Puts the word at the end.
    fn put(&self, lines: &mut Vec<u8>, row: &mut Row) -> Result<(), AllocError>
        ensures ok { OnOk result
            (Puts lines.old.items row.old (word_of (part_of self.now)) lines.new.items row.new) }
        ensures err { OnErr result (take (length lines.old.items) lines.new.items ≡ lines.old.items) }
    {
        match self {
            Piece::Text(text) => row.put(lines, text),
            Piece::Named(name) => row.put_name(lines, name),
            Piece::Number(number) => row.put_number(lines, *number),
        }
    }
}

/// Writes a line of these words, parted by single spaces, at the end: all of it or, where memory runs out, nothing.
pub fn write_line(lines: &mut Vec<u8>, words: &[Piece<'_>]) -> Result<(), AllocError>
    ensures { IsWritten result (parts_of words.now) lines.old.items lines.new.items }
{
    let start = lines.len();
    let written = write_words(lines, words);
    if written.is_err() {
        lines.truncate(start);
    }
    written
}

/// Writes the words of a line, and a line feed. Want of memory leaves what stood there in front.
#[tactic(auto, using(crate::proofs::RowLemmas::line_written, crate::proofs::RowLemmas::front_trans))]
fn write_words(lines: &mut Vec<u8>, words: &[Piece<'_>]) -> Result<(), AllocError>
    ensures ok { OnOk result (lines.new.items ≡ lines.old.items ++ line_of (parts_of words.now)) }
    ensures err { OnErr result (take (length lines.old.items) lines.new.items ≡ lines.old.items) }
{
    let mut row = Row::new();
    put_words(lines, &mut row, words)?;
    row.push(lines, b'\n')?;
    row.flush(lines)?;
    Ok(())
}

/// Puts words, parted by single spaces, at the end.
#[tactic(auto, using(crate::proofs::RowLemmas::front_trans))]
fn put_words(lines: &mut Vec<u8>, row: &mut Row, words: &[Piece<'_>]) -> Result<(), AllocError>
    ensures ok { OnOk result (Puts lines.old.items row.old (spaced (parts_of words.now)) lines.new.items row.new) }
    ensures err { OnErr result (take (length lines.old.items) lines.new.items ≡ lines.old.items) }
{
    for (index, word) in words.iter().enumerate() {
        part(lines, row, index > 0)?;
        word.put(lines, row)?;
    }
    Ok(())
}

/// Puts a space in front of a word that isn't the first.
fn part(lines: &mut Vec<u8>, row: &mut Row, parted: bool) -> Result<(), AllocError>
    ensures ok { OnOk result (Puts lines.old.items row.old (gap parted) lines.new.items row.new) }
    ensures err { OnErr result (take (length lines.old.items) lines.new.items ≡ lines.old.items) }
{
    if parted {
        return row.push(lines, b' ');
    }
    Ok(())
}
