// Lists of the numbers from 1 on, linked: a list is handed to another one in one piece.
ghost use Rattle.std.specs.Prelude.{◌≡◌, ◌≢◌, ℕ, ◌+◌, ◌<◌, ◌≤◌, ◌∷◌, ◌++◌, [], ◌^◌, ◌↔◌, IsTrue, length, replicate, slice_set, IfOk, OnOk};
ghost use Rattle.std.specs.Iterator.{YieldsFirst, item_count};
ghost use Rattle.resource_votes.specs.Limits.{list_count};
ghost use Rattle.resource_votes.specs.Lists.{AreNumbers, added_to, handed_lists, list_at};
ghost use Rattle.resource_votes.specs.LinksInside.{ends_at, emptied, joined_at, joined_ends, joined_next};

use std::alloc::{AllocError, Global};
use std::marker::Model;

/// How many lists there are.
const LIST_COUNT: usize = 1024;

/// The first and the last number of a list; both are 0 where it has none.
#[derive(Clone, Copy)]
pub(crate) struct Ends {
    pub first: u32,
    pub last: u32,
}

const NO_ENDS: Ends = Ends { first: 0, last: 0 };

/// Lists of numbers. Contracts see how many numbers there are, the numbers of each list, and for how many more memory is
/// taken.
#[derive(Drop)]
pub(crate) struct Links {
    next: Vec<u32>,
    ends: Vec<Ends>,
}

impl Model for Links {
    ghost use Rattle.resource_votes.specs.LinksInside.{NumberLists};

    ghost Value = { NumberLists };

    ghost use Rattle.resource_votes.specs.LinksInside.{shown_lists, IsSound};

    ghost view = { shown_lists };

    ghost invariant = { IsSound };
}

impl Links {
    /// No numbers.
    pub fn new(alloc: Global) -> Result<Links, AllocError>
        ensures empty { IfOk result (λ links. links.lists ≡ replicate list_count []) }
        ensures none { IfOk result (λ links. links.count ≡ 0) }
    {
        Ok(Links {
            next: Vec::new(alloc),
            ends: vec![in alloc; NO_ENDS; LIST_COUNT]?,
        })
    }

    /// Takes memory for one more number.
    pub fn reserve(&mut self) -> Result<(), AllocError>
        ensures ok { OnOk result (0 < self.new.room) }
        ensures same { self.new ≡ record self.old { room = self.new.room } }
        ensures room { self.old.room ≤ self.new.room }
    {
        self.next.reserve(1)
    }

    /// The numbers of a list, in order.
    pub fn numbers(&self, list: u32) -> Numbers<'_>
        requires there { list < list_count }
        ensures numbers { result ≡ list_at self.now.lists list }
        ensures within { AreNumbers self.now.count result }
        ensures few { length result ≤ self.now.count }
    {
        let first = self.ends[list as usize].first;
        Numbers {
            next: self.next.as_slice(),
            at: first,
        }
    }

    /// Whether there is memory for no further number.
    pub fn is_packed(&self) -> bool
        ensures { IsTrue result ↔ (self.now.room ≡ 0) }
    {
        self.next.len() == self.next.capacity()
    }

    /// One more number, which is in no list. It needs no memory.
    pub fn skip(&mut self)
        requires room { 0 < self.old.room }
        requires few { self.old.count < 2 ^ 31 }
        ensures same { self.new.lists ≡ self.old.lists }
        ensures count { self.new.count ≡ self.old.count + 1 }
    {
        self.next.push_reserved(0);
    }

    /// One more number, at the end of a list. It needs no memory.
    pub fn push(&mut self, list: u32)
        requires there { list < list_count }
        requires room { 0 < self.old.room }
        requires few { self.old.count < 2 ^ 31 }
        ensures lists { self.new.lists ≡ added_to self.old.lists list (self.old.count + 1) }
        ensures count { self.new.count ≡ self.old.count + 1 }
    {
        self.next.push_reserved(0);
        let number = self.next.len() as u32;
        let back = Ends {
            first: number,
            last: number,
        };
        append(&mut self.next, &mut self.ends, list, back);
    }

    /// Hands a list to another one, at its end, and empties it. It needs no memory.
    pub fn splice(&mut self, from: u32, to: u32)
        requires there { (from < list_count) × (to < list_count) }
        requires differ { from ≢ to }
        ensures lists { self.new.lists ≡ handed_lists self.old.lists from to }
        ensures count { self.new.count ≡ self.old.count }
        ensures room { self.new.room ≡ self.old.room }
    {
        hand_over(&mut self.next, &mut self.ends, from, to);
    }
}

/// The numbers of a list from one on; 0 is none. Contracts see those that are left.
#[derive(Drop)]
pub(crate) struct Numbers<'a> {
    next: &'a [u32],
    at: u32,
}

impl<'a> Model for Numbers<'a> {
    ghost use Rattle.std.specs.Prelude.{List, ℕ, length};
    ghost use Rattle.resource_votes.specs.ChainsInside.{walk, IsChain};

    ghost Value = { List ℕ };

    ghost view = { λ n. walk (length n.next.now) n.next.now n.at };

    ghost invariant = { λ n. IsChain n.next.now n.at (walk (length n.next.now) n.next.now n.at) };
}

impl<'a> Iterator for Numbers<'a> {
    type Item = u32;

    ghost next_gives = { YieldsFirst (λ s. s) };

    ghost remaining = { item_count (λ s. s) };

    fn next(&mut self) -> Option<u32> {
        let place = self.at.checked_sub(1)?;
        let number = self.at;
        self.at = self.next[place as usize];
        Some(number)
    }
}

/// Empties a list, and joins what it had to another one.
fn hand_over(next: &mut [u32], ends: &mut [Ends], from: u32, to: u32)
    requires there { (from < length ends.old) × (to < length ends.old) }
    requires last { (ends_at (emptied ends.old from) to).last ≤ length next.old }
    ensures next { next.new
        ≡ joined_next next.old (ends_at (emptied ends.old from) to) (ends_at ends.old from) }
    ensures ends { ends.new ≡ joined_at (emptied ends.old from) to (ends_at ends.old from) }
{
    let back = take(ends, from);
    append(next, ends, to, back);
}

/// Empties a list, and answers its ends.
fn take(ends: &mut [Ends], list: u32) -> Ends
    requires there { list < length ends.old }
    ensures result { result ≡ ends_at ends.old list }
    ensures empty { ends.new ≡ emptied ends.old list }
{
    let taken = ends[list as usize];
    ends[list as usize] = NO_ENDS;
    taken
}

/// Joins a further list to one of these, at its end.
fn append(next: &mut [u32], ends: &mut [Ends], list: u32, back: Ends)
    requires there { list < length ends.old }
    requires last { (ends_at ends.old list).last ≤ length next.old }
    ensures next { next.new ≡ joined_next next.old (ends_at ends.old list) back }
    ensures ends { ends.new ≡ joined_at ends.old list back }
{
    let front = ends[list as usize];
    ends[list as usize] = join(next, front, back);
}

/// Joins two lists.
fn join(next: &mut [u32], front: Ends, back: Ends) -> Ends
    requires there { front.last ≤ length next.old }
    ensures ends { result ≡ joined_ends front back }
    ensures next { next.new ≡ joined_next next.old front back }
{
    if front.last == 0 {
        return back;
    }
    if back.first == 0 {
        return front;
    }
    next[front.last as usize - 1] = back.first;
    Ends {
        first: front.first,
        last: back.last,
    }
}
