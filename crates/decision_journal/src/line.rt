ghost use Rattle.std.specs.Prelude.{◌≡◌, ◌+◌, ◌≤◌, ◌<◌, ◌++◌, ◌∷◌, ◌^◌, [], length, slice_set, OnOk};
ghost use Rattle.std.specs.List.{filter, remove};
ghost use Rattle.decision_journal.specs.Index.{is_left};

use crate::journal::Standing;
use crate::record::JournalRecord;
use std::alloc::{AllocError, Global};
use std::marker::Model;

/// What stands, in order, behind those at the front that are gone. So the first can go without a move of the others. Contracts
/// see what stands, for how many more there is room, and how many are gone.
#[derive(Drop)]
pub(crate) struct Line {
    items: Vec<Standing>,
    /// So many at the front are gone. Each has a Done in its stead, which keeps no memory.
    gone: usize,
}

impl Model for Line {
    ghost use Rattle.std.specs.Prelude.{◌+◌, ◌-◌, ◌≤◌, drop, vec_capacity, vec_len};
    ghost use Rattle.decision_journal.specs.Index.{Lined};

    ghost Value = { Lined };

    ghost view = { λ line. record {
      standing = drop line.gone line.items.items;
      spare = vec_capacity line.items + line.gone - vec_len line.items;
      gone = line.gone;
    } };

    ghost invariant = { λ line. line.gone ≤ vec_len line.items };
}

impl Line {
    pub(crate) fn new(alloc: Global) -> Line
        ensures { result.standing ≡ [] }
    {
        Line {
            items: Vec::new(alloc),
            gone: 0,
        }
    }

    pub(crate) fn as_slice(&self) -> &[Standing]
        ensures { result.now ≡ self.now.standing }
    {
        &self.items[self.gone..]
    }

    /// Takes memory for so many more.
    pub(crate) fn reserve(&mut self, more: usize) -> Result<(), AllocError>
        ensures same { self.new.standing ≡ self.old.standing }
        ensures gone { self.new.gone ≡ self.old.gone }
        ensures ok { OnOk result (more ≤ self.new.spare) }
        ensures spare { self.old.spare ≤ self.new.spare }
    {
        self.items.reserve(more.saturating_sub(self.gone))
    }

    /// Puts one behind the others. Where no room is left but at the front, they move there first.
    pub(crate) fn push(&mut self, item: Standing)
        requires { 0 < self.old.spare }
        ensures standing { self.new.standing ≡ self.old.standing ++ item ∷ [] }
        ensures spare { self.old.spare ≡ self.new.spare + 1 }
        ensures stays { self.old.gone < self.old.spare → self.new.gone ≡ self.old.gone }
        ensures fits { length self.new.standing < 2 ^ 64 }
    {
        if self.items.len() == self.items.capacity() {
            self.items.drain(..self.gone);
            self.gone = 0;
        }
        self.items.push_reserved(item);
    }

    /// Puts one in the stead of another.
    pub(crate) fn set(&mut self, index: usize, item: Standing)
        requires { index < length self.old.standing }
        ensures { self.new ≡ record self.old { standing = slice_set self.old.standing index item } }
    {
        self.items[self.gone + index] = item;
    }

    /// Takes one away. Those before it or those behind it move up, whichever are fewer.
    pub(crate) fn remove(&mut self, index: usize)
        requires { index < length self.old.standing }
        ensures standing { self.new.standing ≡ remove self.old.standing index }
        ensures spare { self.new.spare ≡ self.old.spare + 1 }
        ensures front { index + index < length self.old.standing → self.new.gone ≡ self.old.gone + 1 }
        ensures back { length self.old.standing ≤ index + index → self.new.gone ≡ self.old.gone }
    {
        let at = self.gone + index;
        if self.items.len() - at <= index {
            self.items.remove(at);
            return;
        }
        self.items.slice_mut(self.gone..at + 1).rotate_right(1);
        self.items[self.gone] = Standing {
            place: 0,
            item: JournalRecord::Done(0),
        };
        self.gone += 1;
    }

    /// Leaves what stands for itself, and gives back all other room.
    pub(crate) fn settle(&mut self)
        ensures { self.new.standing ≡ filter is_left self.old.standing }
    {
        self.items.drain(..self.gone);
        self.gone = 0;
        self.items.retain(|standing| is_kept(standing));
        self.items.shrink_to_fit();
    }
}

/// Whether it stands for itself, and not in the stead of what is done.
fn is_kept(standing: &Standing) -> bool
    ensures { result ≡ is_left standing.now }
{
    !matches!(standing.item, JournalRecord::Done(..))
}
