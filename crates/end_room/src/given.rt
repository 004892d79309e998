// The resources that were given to transactions, by their tids.
ghost use Rattle.std.specs.Prelude.{◌≡◌, ◌≢◌, ℕ, List, [], None, OnErr, OnOk};
ghost use Rattle.end_room.specs.Inside.{IsBoundIn};
ghost use Rattle.end_room.specs.Own.{IsNamed, named};

use crate::ends::Enlisted;
use std::alloc::{AllocError, Global};
use std::collections::BTreeMap;
use std::marker::Model;

/// The resources of transactions. Contracts see them as a list with the tid of each.
#[derive(Drop)]
pub(crate) struct Given {
    map: BTreeMap<Vec<u8>, Enlisted>,
}

impl Model for Given {
    ghost use Rattle.end_room.specs.Inside.{names_in};
    ghost use Rattle.end_room.specs.Own.{Names};

    ghost Value = { Names };

    ghost view = { λ given. names_in given.map };
}

impl Given {
    /// None.
    pub(crate) fn new(alloc: Global) -> Given
        ensures { result ≡ [] }
    {
        Given {
            map: BTreeMap::new(alloc),
        }
    }

    /// The resource of a transaction.
    pub(crate) fn get(&self, tid: &[u8]) -> Option<Enlisted>
        ensures { result ≡ named tid.now self.now }
    {
        self.map.get(tid).copied()
    }

    /// A transaction has this resource from now on.
    pub(crate) fn insert(&mut self, tid: Vec<u8>, enlisted: Enlisted) -> Result<(), AllocError>
        ensures named { OnOk result (IsNamed tid.items enlisted self.old self.new) }
        ensures unnamed { OnErr result (self.new ≡ self.old) }
    {
        self.map.insert(tid, enlisted)?;
        Ok(())
    }

    /// A transaction has no resource any more.
    pub(crate) fn remove(&mut self, tid: &[u8])
        ensures own { named tid.now self.new ≡ None }
        ensures others { (other : List ℕ) → other ≢ tid.now → named other self.new ≡ named other self.old }
    {
        self.map.remove(tid);
    }

    /// A transaction's resource is registered.
    pub(crate) fn bind(&mut self, tid: &[u8])
        ensures bound { IsBoundIn (named tid.now self.old) tid.now self.old self.new }
    {
        let Some(enlisted) = self.map.get_mut(tid) else {
            return;
        };
        enlisted.bound = true;
    }
}
