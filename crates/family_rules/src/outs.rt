// The words that are out, which are found by their serial numbers.
ghost use Rattle.std.specs.Prelude.{◌≡◌, ◌+◌, ◌<◌, ◌≤◌, ℕ, true, false, [], length, slice_get, slice_index_or, Some, None, OnOk, IfOk};
ghost use Rattle.family_rules.specs.Outs as words;
ghost use Rattle.family_rules.specs.declared.outs.Posted.{Posted as Word};

use std::alloc::{AllocError, Global};
use std::marker::Model;

/// A word that is out, and the branch whose call waits for its answer.
#[derive(Clone, Copy)]
pub(crate) struct Posted {
    pub serial: u32,
    pub branch: u32,
}

/// The words that are out, in the order of their serial numbers, and those with one number in the order of their
/// branches. Contracts see them, and for how many memory is taken together.
#[derive(Drop)]
pub(crate) struct Outs {
    words: Vec<Posted>,
}

impl Model for Outs {
    ghost use Rattle.family_rules.specs.Outs.{OutsParts};

    ghost Value = { OutsParts };

    ghost use Rattle.family_rules.specs.OutsInside.{shown, IsSound};

    ghost view = { shown };

    ghost invariant = { IsSound };
}

impl Posted {
    /// Whether it comes before that one.
    fn is_before(self, other: Posted) -> bool
        ensures { result ≡ words.comes_before self other }
    {
        self.serial < other.serial || self.serial == other.serial && self.branch < other.branch
    }
}

impl Outs {
    /// No word is out. There is memory for one.
    pub(crate) fn new(alloc: Global) -> Result<Outs, AllocError>
        ensures none { IfOk result (λ outs. outs.words ≡ []) }
        ensures room { IfOk result (λ outs. 0 < outs.capacity) }
    {
        Ok(Outs {
            words: Vec::with_capacity(alloc, 1)?,
        })
    }

    /// Takes memory for so many together.
    pub(crate) fn reserve(&mut self, count: usize) -> Result<(), AllocError>
        ensures same { self.new.words ≡ self.old.words }
        ensures room { OnOk result (count ≤ self.new.capacity) }
        ensures kept { self.old.capacity ≤ self.new.capacity }
    {
        self.words.reserve(count.saturating_sub(self.words.len()))
    }

    /// The first branch whose call has the word with this number out.
    pub(crate) fn first_of(&self, serial: u32) -> Option<u32>
        ensures { words.IsFirstOf serial self.now.words result }
    {
        let at = place_of(&self.words, Posted { serial, branch: 0 });
        branch_at(&self.words, at, serial)
    }

    /// The call of a branch had this word out, or none, and now it has that one, in memory that was taken before.
    pub(crate) fn change(&mut self, branch: u32, before: Option<u32>, after: Option<u32>)
        requires there { (serial : ℕ) → before ≡ Some serial
            → 0 < words.times serial branch self.old.words }
        requires room { length self.old.words < self.old.capacity + words.some_of before }
        ensures times { (serial b : ℕ)
            → words.times serial b self.new.words + words.one_of serial b branch before
            ≡ words.times serial b self.old.words + words.one_of serial b branch after }
        ensures count { length self.new.words + words.some_of before
            ≡ length self.old.words + words.some_of after }
        ensures capacity { self.old.capacity ≤ self.new.capacity }
    {
        self.forget(branch, before);
        self.note(branch, after);
    }

    /// The word of a branch's call that was out, where one was, is out no more.
    fn forget(&mut self, branch: u32, out: Option<u32>)
        requires there { (s : ℕ) → out ≡ Some s → 0 < words.times s branch self.old.words }
        ensures times { (s b : ℕ) → words.times s b self.new.words + words.one_of s b branch out
            ≡ words.times s b self.old.words }
        ensures count { length self.new.words + words.some_of out ≡ length self.old.words }
        ensures capacity { self.new.capacity ≡ self.old.capacity }
    {
        if let Some(serial) = out {
            self.remove(Posted { serial, branch });
        }
    }

    /// The word of a branch's call goes out, where one does, in memory that was taken before.
    fn note(&mut self, branch: u32, out: Option<u32>)
        requires room { length self.old.words < self.old.capacity }
        ensures times { (s b : ℕ) → words.times s b self.new.words
            ≡ words.times s b self.old.words + words.one_of s b branch out }
        ensures count { length self.new.words ≡ length self.old.words + words.some_of out }
        ensures capacity { self.old.capacity ≤ self.new.capacity }
    {
        if let Some(serial) = out {
            self.insert(Posted { serial, branch });
        }
    }

    /// A word is out no more.
    fn remove(&mut self, posted: Posted)
        requires there { 0 < words.times posted.serial posted.branch self.old.words }
        ensures times { (s b : ℕ) → words.times s b self.new.words + words.one_at s b posted
            ≡ words.times s b self.old.words }
        ensures count { length self.new.words + 1 ≡ length self.old.words }
        ensures capacity { self.new.capacity ≡ self.old.capacity }
    {
        let at = place_of(&self.words, posted);
        let _ = self.words.remove(at);
    }

    /// A word goes out, in memory that was taken before.
    fn insert(&mut self, posted: Posted)
        requires room { length self.old.words < self.old.capacity }
        ensures times { (s b : ℕ) → words.times s b self.new.words
            ≡ words.times s b self.old.words + words.one_at s b posted }
        ensures count { length self.new.words ≡ length self.old.words + 1 }
        ensures capacity { self.old.capacity ≤ self.new.capacity }
    {
        let at = place_of(&self.words, posted);
        let _ = self.words.insert(at, posted);
    }
}

/// The place of the first of these words that doesn't come before this one.
fn place_of(list: &[Posted], posted: Posted) -> usize
    requires order { words.StandInOrder list.now }
    ensures bound { result ≤ length list.now }
    ensures below { (k : ℕ) (d : Word) → k < result
        → words.comes_before (slice_index_or list.now k d) posted ≡ true }
    ensures above { (k : ℕ) (d : Word) → result ≤ k → k < length list.now
        → words.comes_before (slice_index_or list.now k d) posted ≡ false }
{
    list.partition_point(|word| word.is_before(posted))
}

/// The branch of the word at this place, where it has this number.
fn branch_at(list: &[Posted], at: usize, serial: u32) -> Option<u32>
    ensures { result ≡ words.branch_in serial (slice_get list.now at) }
{
    match list.get(at) {
        Some(found) if found.serial == serial => Some(found.branch),
        _ => None,
    }
}
