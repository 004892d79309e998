// Octets that are put together before they are written.
ghost use Rattle.std.specs.Prelude.{◌≡◌, ◌+◌, ◌<◌, ◌≤◌, ◌++◌, [], ◌∷◌, take, length, OnOk, OnErr};
ghost use Rattle.std.specs.Fmt.{decimal};
ghost use Rattle.ots_model.specs.Limits.{name_limit, row_limit};
ghost use Rattle.ots_model.specs.Rows.{Puts, digit_of, last_two, last_three};

use crate::name::{NAME_LIMIT, Name};
use std::alloc::AllocError;
use std::marker::Model;

/// How many octets a row has at most.
const ROW_LIMIT: usize = 96;

/// The last octets of a text, which are not written yet. Contracts see them as a list.
#[derive(Drop)]
pub(crate) struct Row {
    octets: [u8; ROW_LIMIT],
    length: usize,
}

impl Model for Row {
    ghost use Rattle.std.specs.Prelude.{List, ℕ};

    ghost Value = { List ℕ };

    ghost use Rattle.ots_model.specs.RowInside.{shown, IsWithin};

    ghost view = { shown };

    ghost invariant = { IsWithin };
}

impl Row {
    /// None.
    pub(crate) fn new() -> Row
        ensures none { result ≡ [] }
    {
        Row {
            octets: [0; ROW_LIMIT],
            length: 0,
        }
    }

    /// Puts an octet behind the others.
    pub(crate) fn push(&mut self, lines: &mut Vec<u8>, octet: u8) -> Result<(), AllocError>
        ensures ok { OnOk result (Puts lines.old.items self.old (octet ∷ []) lines.new.items self.new) }
        ensures err { OnErr result (take (length lines.old.items) lines.new.items ≡ lines.old.items) }
    {
        if self.length == ROW_LIMIT {
            self.flush(lines)?;
        }
        self.add(octet);
        Ok(())
    }

    /// Puts octets behind the others.
    pub(crate) fn put(&mut self, lines: &mut Vec<u8>, octets: &[u8]) -> Result<(), AllocError>
        ensures ok { OnOk result (Puts lines.old.items self.old octets.now lines.new.items self.new) }
        ensures err { OnErr result (take (length lines.old.items) lines.new.items ≡ lines.old.items) }
    {
        if octets.len() > ROW_LIMIT - self.length {
            return self.pass(lines, octets);
        }
        self.add_all(octets);
        Ok(())
    }

    /// Puts a name behind the others.
    pub(crate) fn put_name(&mut self, lines: &mut Vec<u8>, name: &Name) -> Result<(), AllocError>
        ensures ok { OnOk result (Puts lines.old.items self.old name.now lines.new.items self.new) }
        ensures err { OnErr result (take (length lines.old.items) lines.new.items ≡ lines.old.items) }
    {
        self.make_room(lines, NAME_LIMIT)?;
        self.add_name(name);
        Ok(())
    }

    /// Puts the decimal digits of a number behind the others.
    #[tactic(auto, using(crate::proofs::RowLemmas::more_digits))]
    pub(crate) fn put_number(&mut self, lines: &mut Vec<u8>, number: u64) -> Result<(), AllocError>
        ensures ok { OnOk result (Puts lines.old.items self.old (decimal number) lines.new.items self.new) }
        ensures err { OnErr result (take (length lines.old.items) lines.new.items ≡ lines.old.items) }
    {
        if number < 1000 {
            self.make_room(lines, 3)?;
            self.add_digits(number);
            return Ok(());
        }
        self.put_number(lines, number / 1000)?;
        self.make_room(lines, 3)?;
        self.add_last_three(number);
        Ok(())
    }

    /// Makes room for so many octets, where it is less.
    fn make_room(&mut self, lines: &mut Vec<u8>, count: usize) -> Result<(), AllocError>
        requires within { count ≤ row_limit }
        ensures ok { OnOk result (Puts lines.old.items self.old [] lines.new.items self.new) }
        ensures room { OnOk result (length self.new + count ≤ row_limit) }
        ensures err { OnErr result (take (length lines.old.items) lines.new.items ≡ lines.old.items) }
    {
        if count > ROW_LIMIT - self.length {
            return self.flush(lines);
        }
        Ok(())
    }

    /// Writes them all.
    pub(crate) fn flush(&mut self, lines: &mut Vec<u8>) -> Result<(), AllocError>
        ensures ok { OnOk result (lines.new.items ≡ lines.old.items ++ self.old) }
        ensures none { OnOk result (self.new ≡ []) }
        ensures err { OnErr result (lines.new.items ≡ lines.old.items) }
    {
        lines.extend_from_slice(&self.octets[..self.length])?;
        self.length = 0;
        Ok(())
    }

    /// Writes them all, and octets behind them.
    fn pass(&mut self, lines: &mut Vec<u8>, octets: &[u8]) -> Result<(), AllocError>
        ensures ok { OnOk result (Puts lines.old.items self.old octets.now lines.new.items self.new) }
        ensures err { OnErr result (take (length lines.old.items) lines.new.items ≡ lines.old.items) }
    {
        self.flush(lines)?;
        lines.extend_from_slice(octets)
    }

    /// Adds an octet, for which there is room.
    fn add(&mut self, octet: u8)
        requires room { length self.old < row_limit }
        ensures { self.new ≡ self.old ++ octet ∷ [] }
    {
        self.octets[self.length] = octet;
        self.length += 1;
    }

    /// Adds octets, for which there is room.
    fn add_all(&mut self, octets: &[u8])
        requires room { length self.old + length octets.now ≤ row_limit }
        ensures { self.new ≡ self.old ++ octets.now }
    {
        let end = self.length + octets.len();
        self.octets[self.length..end].copy_from_slice(octets);
        self.length = end;
    }

    /// Keeps so many of the octets.
    fn keep(&mut self, count: usize)
        requires some { count ≤ length self.old }
        ensures { self.new ≡ take count self.old }
    {
        self.length = count;
    }

    /// Adds a name, where there is room for the longest.
    #[tactic(auto, using(crate::proofs::RowLemmas::name_kept))]
    fn add_name(&mut self, name: &Name)
        requires room { length self.old + name_limit ≤ row_limit }
        ensures { self.new ≡ self.old ++ name.now }
    {
        let end = self.length + name.octets().len();
        self.add_all(name.padded());
        self.keep(end);
    }

    /// Adds the decimal digits of a number below 1,000.
    #[tactic(auto, using(crate::proofs::RowLemmas::one_digit, crate::proofs::RowLemmas::two_digits, crate::proofs::RowLemmas::three_digits))]
    fn add_digits(&mut self, number: u64)
        requires few { number < 1000 }
        requires room { length self.old + 3 ≤ row_limit }
        ensures { self.new ≡ self.old ++ decimal number }
    {
        if number < 10 {
            return self.add(digit(number));
        }
        if number < 100 {
            return self.add_last_two(number);
        }
        self.add_last_three(number);
    }

    /// Adds the last two decimal digits of a number.
    fn add_last_two(&mut self, number: u64)
        requires room { length self.old + 2 ≤ row_limit }
        ensures { self.new ≡ self.old ++ last_two number }
    {
        self.add(digit(number / 10));
        self.add(digit(number));
    }

    /// Adds the last three.
    fn add_last_three(&mut self, number: u64)
        requires room { length self.old + 3 ≤ row_limit }
        ensures { self.new ≡ self.old ++ last_three number }
    {
        self.add(digit(number / 100));
        self.add_last_two(number);
    }
}

/// The last decimal digit of a number.
fn digit(number: u64) -> u8
    ensures { result ≡ digit_of number }
{
    b'0' + (number % 10) as u8
}
