ghost use Rattle.std.specs.Prelude.{◌≡◌, ◌++◌, ◌<◌, ◌≤◌, false, find, length, map, Some, OnOk, OnErr};
ghost use Rattle.std.specs.List.{insert, remove};
ghost use Rattle.std.specs.Option.{option_map};
ghost use Rattle.recovery_coord.specs.Held as holding;
ghost use Rattle.recovery_coord.specs.Hearing as hearing;
ghost use Rattle.recovery_coord.specs.Order.{RiseFrom};
ghost use Rattle.recovery_coord.specs.Telling as telling;
ghost use Rattle.recovery_coord.specs.Trees.{IsPartedWhere, Joins};

use crate::held::{Held, nobody};
use crate::outbox::Outbox;
use crate::records::{hear, search};
use crate::telling::tell_all;
use crate::trees::{Tree, tree_of};
use ots_model::CallNumber;
use ots_model::tree::Heard;
use std::alloc::{AllocError, Global};
use std::marker::Model;

/// The records that are held, in order, behind those at the front that are gone. So the first can go without a move of the
/// others. Contracts see what is held.
#[derive(Drop)]
pub(crate) struct Row {
    items: Vec<Held>,
    /// So many at the front are gone. Each has a record in its stead that keeps no memory.
    gone: usize,
}

impl Model for Row {
    ghost use Rattle.std.specs.Prelude.{◌≤◌, List, drop, vec_len};
    ghost use Rattle.recovery_coord.specs.declared.held.Held.{Held};

    ghost Value = { List Held };

    ghost view = { λ row. drop row.gone row.items.items };

    ghost invariant = { λ row. row.gone ≤ vec_len row.items };
}

impl Row {
    /// These records.
    pub(crate) fn of(items: Vec<Held>) -> Row
        ensures { result ≡ items.items }
    {
        Row { items, gone: 0 }
    }

    pub(crate) fn as_slice(&self) -> &[Held]
        ensures { result.now ≡ self.now }
    {
        &self.items[self.gone..]
    }

    /// Tells each complete record again from the beginning, and puts the words of all behind those of an outbox.
    pub(crate) fn tell_all(
        &mut self,
        alloc: Global,
        life: u32,
        out: &mut Outbox,
    ) -> Result<(), AllocError>
        ensures records { self.new ≡ map telling.retold self.old }
        ensures ok { OnOk result (out.new.words ≡ out.old.words ++ telling.words life self.new) }
        ensures more { telling.IsMore out.old.words out.new.words }
        ensures room { out.new.room ≡ out.old.room }
    {
        tell_all(alloc, life, self.items.slice_mut(self.gone..), out)
    }

    /// The record at the place that the number of the call names hears an answer. The result is that place, where the record
    /// is complete now and wasn't.
    pub(crate) fn hear(&mut self, n: &CallNumber, h: &Heard) -> Option<u32>
        requires order { RiseFrom 0 self.old }
        ensures after { self.new ≡ map (hearing.record_after n.now h.now) self.old }
        ensures complete { result ≡ option_map (λ r. r.place) (find (hearing.completes n.now h.now) self.old) }
        ensures order { RiseFrom 0 self.new }
    {
        hear(self.items.slice_mut(self.gone..), n, h)
    }

    /// Puts a record into its turn, where none is held at its place.
    pub(crate) fn take_in(&mut self, held: Held) -> Result<(), AllocError>
        requires order { RiseFrom 0 self.old }
        requires free { holding.is_held held.place self.old ≡ false }
        ensures ok { OnOk result (self.new ≡ holding.taken (Some held) self.old) }
        ensures err { OnErr result (self.new ≡ self.old) }
        ensures order { RiseFrom 0 self.new }
        ensures joined { OnOk result (Joins held self.old self.new) }
    {
        match search(self.as_slice(), u64::from(held.place)) {
            Ok(_) => Ok(()),
            Err(index) => {
                self.insert(index, held)?;
                Ok(())
            }
        }
    }

    /// Lets the record at this place go, where one is held, and tells its tree.
    pub(crate) fn let_go(&mut self, alloc: Global, place: u32) -> Option<Tree>
        requires order { RiseFrom 0 self.old }
        ensures without { self.new ≡ holding.without place self.old }
        ensures order { RiseFrom 0 self.new }
        ensures parted { IsPartedWhere result self.old self.new }
    {
        match search(self.as_slice(), u64::from(place)) {
            Ok(index) => {
                let tree = tree_of(&self.as_slice()[index]);
                self.remove(alloc, index);
                Some(tree)
            }
            Err(_) => None,
        }
    }

    /// Puts one before the one at this index. Where as many are gone as are held, these move to the front first.
    fn insert(&mut self, index: usize, held: Held) -> Result<(), AllocError>
        requires { index ≤ length self.old }
        ensures ok { OnOk result (self.new ≡ insert self.old index held) }
        ensures err { OnErr result (self.new ≡ self.old) }
    {
        self.close_up();
        self.items.insert(self.gone + index, held)?;
        Ok(())
    }

    /// Moves those that are held to the front, where as many are gone.
    fn close_up(&mut self)
        ensures { self.new ≡ self.old }
    {
        if self.items.len() - self.gone <= self.gone {
            self.items.drain(..self.gone);
            self.gone = 0;
        }
    }

    /// Takes one away. Those before it or those behind it move up, whichever are fewer.
    fn remove(&mut self, alloc: Global, index: usize)
        requires { index < length self.old }
        ensures { self.new ≡ remove self.old index }
    {
        let at = self.gone + index;
        if self.items.len() - at <= index {
            self.items.remove(at);
            return;
        }
        self.items.slice_mut(self.gone..at + 1).rotate_right(1);
        self.items[self.gone] = nobody(alloc);
        self.gone += 1;
    }
}
