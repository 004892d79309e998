//! The trees of the records that are held: the first record of one is found without looking at the others.
ghost use Rattle.std.specs.Prelude.{◌≡◌, ◌<◌, Some, IsSome, OnOk, IfOk};
ghost use Rattle.recovery_coord.specs.Order.{RiseFrom};
ghost use Rattle.recovery_coord.specs.Trees as trees;
ghost use Rattle.recovery_coord.specs.Trees.{IsIndex, IsKept, IsPut};

use crate::held::Held;
use ior_refs::ObjectKey;
use std::alloc::{AllocError, Global};
use std::collections::HashMap;
use std::marker::Model;

/// A tree, as a map finds it.
#[derive(Clone, Copy, PartialEq, Eq, Hash)]
pub(crate) struct Tree {
    pub life: u32,
    pub slot: u32,
    pub generation: u64,
}

/// The place of the first record of a tree, and whether the tree has no other.
#[derive(Clone, Copy)]
pub(crate) struct First {
    pub place: u32,
    pub alone: bool,
}

/// For each tree its first record. Contracts see the trees with their first records, and for how many more there is room.
#[derive(Drop)]
pub(crate) struct Trees {
    firsts: HashMap<Tree, First>,
}

impl Model for Trees {
    ghost use Rattle.recovery_coord.specs.Trees.{TreesParts};
    ghost use Rattle.std.specs.HashMap.{spare};

    ghost Value = { TreesParts };

    ghost view = { λ t. record { firsts = t.firsts.entries; room = spare t.firsts } };
}

impl Trees {
    /// Of these records, which stand in the order of their places.
    pub(crate) fn of(alloc: Global, records: &[Held]) -> Result<Trees, AllocError>
        requires order { RiseFrom 0 records.now }
        ensures { IfOk result (λ t. IsIndex t.firsts records.now) }
    {
        let mut trees = Trees {
            firsts: HashMap::new(alloc),
        };
        for held in records {
            trees.reserve()?;
            trees.join(tree_of(held), held.place);
        }
        Ok(trees)
    }

    /// Takes memory for one more tree.
    pub(crate) fn reserve(&mut self) -> Result<(), AllocError>
        ensures same { IsKept self.old.firsts self.new.firsts }
        ensures room { OnOk result (0 < self.new.room) }
    {
        self.firsts.reserve(1)
    }

    /// The first record of a tree.
    pub(crate) fn first(&self, tree: Tree) -> Option<First>
        ensures { result ≡ trees.first_in self.now.firsts tree }
    {
        self.firsts.get(&tree).copied()
    }

    /// One more record of this tree is at this place. It takes no memory.
    pub(crate) fn join(&mut self, tree: Tree, place: u32)
        requires room { 0 < self.old.room }
        ensures put { IsPut tree (Some (trees.joined place (trees.first_in self.old.firsts tree)))
            self.old.firsts self.new.firsts }
    {
        let first = joined(place, self.first(tree));
        let _ = self.firsts.insert(tree, first);
    }

    /// A record of this tree is gone, and these are left. It takes no memory.
    pub(crate) fn part(&mut self, tree: Tree, records: &[Held])
        requires order { RiseFrom 0 records.now }
        ensures put { IsPut tree (trees.parted (trees.first_in self.old.firsts tree) (trees.first_of tree records.now))
            self.old.firsts self.new.firsts }
    {
        let left = left_of(self.first(tree), records, tree);
        self.put(tree, left);
    }

    /// A tree that is there, or none of whose records is left, has this first record from now on. It takes no memory.
    fn put(&mut self, tree: Tree, first: Option<First>)
        requires there { IsSome first → IsSome (trees.first_in self.old.firsts tree) }
        ensures put { IsPut tree first self.old.firsts self.new.firsts }
    {
        match first {
            Some(first) => {
                let _ = self.firsts.insert(tree, first);
            }
            None => {
                let _ = self.firsts.remove(&tree);
            }
        }
    }
}

/// The tree of a record.
pub(crate) fn tree_of(held: &Held) -> Tree
    ensures { result ≡ trees.tree_of held.now }
{
    Tree {
        life: held.life,
        slot: held.slot,
        generation: held.generation,
    }
}

/// The tree that a key names.
pub(crate) fn tree_named(key: &ObjectKey) -> Tree
    ensures { result ≡ trees.tree_named key.now }
{
    Tree {
        life: key.life,
        slot: key.slot,
        generation: key.generation,
    }
}

/// What is first of a tree with one more record, at this place.
fn joined(place: u32, first: Option<First>) -> First
    ensures { result ≡ trees.joined place first }
{
    match first {
        None => First { place, alone: true },
        Some(first) => First {
            place: place.min(first.place),
            alone: false,
        },
    }
}

/// What is first of a tree, one of whose records is gone, and these are left. They are looked at only where it had another.
fn left_of(first: Option<First>, records: &[Held], tree: Tree) -> Option<First>
    requires order { RiseFrom 0 records.now }
    ensures { result ≡ trees.parted first (trees.first_of tree records.now) }
{
    let first = first?;
    if first.alone {
        return None;
    }
    first_of(records, tree)
}

/// The first of these records that is of this tree.
fn first_of(records: &[Held], tree: Tree) -> Option<First>
    requires order { RiseFrom 0 records.now }
    ensures { result ≡ trees.first_of tree records.now }
{
    let mut first = None;
    for held in records {
        first = with_next(first, held, tree);
    }
    first
}

/// The same with the record behind them.
fn with_next(first: Option<First>, held: &Held, tree: Tree) -> Option<First>
    ensures { result ≡ trees.joins tree held.now first }
{
    if tree_of(held) == tree {
        return Some(joined(held.place, first));
    }
    first
}
