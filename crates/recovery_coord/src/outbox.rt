ghost use Rattle.std.specs.Prelude.{◌≡◌, ◌+◌, ◌-◌, ◌<◌, ◌≤◌, [], ◌∷◌, ◌++◌, take, drop, length, max, OnOk, OnErr};
ghost use Rattle.std.specs.List.{slice_get};
ghost use Rattle.std.specs.Option.{option_to_list};
ghost use Rattle.std.specs.VecDeque.{deque_len, deque_capacity};
ghost use Rattle.recovery_coord.specs.OutboxInside.{needed};

use ots_model::tree::Outward;
use std::alloc::{AllocError, Global};
use std::collections::VecDeque;
use std::marker::Model;

/// Words that wait to go out, first in, first out. Contracts see them as a list, and for how many more room is kept.
#[derive(Drop)]
pub struct Outbox {
    /// The first word, where it was put while there was none. It wants no memory.
    first: Option<Outward>,
    /// The words behind it.
    words: VecDeque<Outward>,
    reserved: u32,
}

impl Model for Outbox {
    ghost use Rattle.std.specs.Prelude.{◌+◌, ◌≤◌, ◌++◌};
    ghost use Rattle.std.specs.Option.{option_to_list};
    ghost use Rattle.std.specs.VecDeque.{deque_len, deque_capacity};
    ghost use Rattle.recovery_coord.specs.Outbox.{OutboxParts};
    ghost use Rattle.recovery_coord.specs.OutboxInside.{needed};

    ghost Value = { OutboxParts };

    ghost view = { λ o. record { words = option_to_list o.first ++ o.words.items; room = o.reserved } };

    ghost invariant = { λ o.
        deque_len o.words + needed o.first o.words.items + o.reserved ≤ deque_capacity o.words + 1 };
}

impl Outbox {
    /// No words, and no room. It needs no memory.
    pub fn new(alloc: Global) -> Outbox
        ensures { result ≡ record { words = []; room = 0 } }
    {
        Outbox {
            first: None,
            words: VecDeque::new(alloc),
            reserved: 0,
        }
    }

    /// Keeps room for so many words, where it is less.
    pub fn reserve(&mut self, words: u32) -> Result<(), AllocError>
        ensures ok { OnOk result (self.new ≡ record self.old { room = max self.old.room words }) }
        ensures err { OnErr result (self.new ≡ self.old) }
    {
        if words <= self.reserved {
            return Ok(());
        }
        let more = needed(&self.first, &self.words) + words as usize - 1;
        self.words.reserve(more)?;
        self.reserved = words;
        Ok(())
    }

    /// Puts a word behind the others, into room that is kept, and uses that.
    pub fn put(&mut self, w: Outward)
        requires room { 0 < self.old.room }
        ensures { self.new ≡ record { words = self.old.words ++ w ∷ []; room = self.old.room - 1 } }
    {
        add(w, &mut self.first, &mut self.words);
        self.reserved -= 1;
    }

    /// Puts a word behind the others, and leaves the room that is kept. It takes memory where the queue has none left.
    pub fn push(&mut self, w: Outward) -> Result<(), AllocError>
        ensures ok { OnOk result (self.new ≡ record self.old { words = self.old.words ++ w ∷ [] }) }
        ensures err { OnErr result (self.new ≡ self.old) }
    {
        let more = needed(&self.first, &self.words) + self.reserved as usize;
        self.words.reserve(more)?;
        add(w, &mut self.first, &mut self.words);
        Ok(())
    }

    /// Takes the first word.
    pub fn take(&mut self) -> Option<Outward>
        ensures first { result ≡ slice_get self.old.words 0 }
        ensures rest { self.new ≡ record self.old { words = drop 1 self.old.words } }
    {
        match self.first.take() {
            Some(w) => Some(w),
            None => self.words.pop_front(),
        }
    }

    /// How many words there are.
    pub(crate) fn len(&self) -> usize
        ensures { result ≡ length self.now.words }
    {
        match &self.first {
            Some(_) => self.words.len() + 1,
            None => self.words.len(),
        }
    }

    /// Lets all words go but so many of the first.
    pub(crate) fn keep(&mut self, count: usize)
        ensures { self.new ≡ record self.old { words = take count self.old.words } }
    {
        if count == 0 {
            self.first = None;
            self.words.clear();
        } else if self.first.is_some() {
            self.words.truncate(count - 1);
        } else {
            self.words.truncate(count);
        }
    }
}

/// For how many cells of the queue one more word wants room.
fn needed(first: &Option<Outward>, words: &VecDeque<Outward>) -> usize
    ensures { result ≡ needed first.now words.now.items }
{
    if first.is_none() && words.is_empty() {
        0
    } else {
        1
    }
}

/// Puts a word behind the others, where it has room.
fn add(w: Outward, first: &mut Option<Outward>, words: &mut VecDeque<Outward>)
    requires room { deque_len words.old + needed first.old words.old.items ≤ deque_capacity words.old }
    ensures words { option_to_list first.new ++ words.new.items
        ≡ (option_to_list first.old ++ words.old.items) ++ w ∷ [] }
    ensures used { deque_len words.new ≡ deque_len words.old + needed first.old words.old.items }
    ensures capacity { deque_capacity words.new ≡ deque_capacity words.old }
    ensures some { needed first.new words.new.items ≡ 1 }
{
    if first.is_none() && words.is_empty() {
        *first = Some(w);
    } else {
        words.push_back_reserved(w);
    }
}
