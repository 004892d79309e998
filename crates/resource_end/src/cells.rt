ghost use Rattle.std.specs.Prelude.{◌≡◌, ℕ, [], IfOk, OnOk, OnErr, IsSome, is_some, Some, None};
ghost use Rattle.std.specs.List.{AllByRecursion};
ghost use Rattle.std.specs.Option.{unwrap_or};
ghost use Rattle.resource_end.specs.Cells.{value_at, with_put, with_puts};
ghost use Rattle.resource_end.specs.Inside as inside;

use crate::kept::Id;
use decision_journal::Put;
use std::alloc::{AllocError, Global};
use std::collections::BTreeMap;
use std::marker::Model;

/// What is known of a cell: what is stored in it, and which resource put it last.
#[derive(Clone, Copy)]
pub(crate) struct Cell {
    pub(crate) stored: Option<u64>,
    pub(crate) holder: Option<Id>,
}

/// The cells that were ever put, by their numbers. A cell has its place here before anything is stored in it, so that storing
/// needs no memory.
#[derive(Drop)]
pub(crate) struct Cells {
    map: BTreeMap<u64, Cell>,
}

impl Model for Cells {
    ghost use Rattle.std.specs.Prelude.{List, ℕ};
    ghost use Rattle.std.specs.BTreeMap.{IsOrdered};
    ghost use Rattle.std.specs.Ordering.{nat_cmp};
    ghost use Rattle.resource_end.specs.declared.cells.Cell.{Cell};

    ghost Value = { List (ℕ × Cell) };

    ghost view = { λ c. c.map.entries };

    ghost invariant = { λ c. IsOrdered nat_cmp c.map };
}

impl Cells {
    /// No cells.
    pub(crate) fn new(alloc: Global) -> Cells
        ensures { result ≡ [] }
    {
        Cells {
            map: BTreeMap::new(alloc),
        }
    }

    /// What is stored in a cell.
    pub(crate) fn stored(&self, cell: u64) -> Option<u64>
        ensures { result ≡ value_at cell (inside.stored_cells self.now) }
    {
        match self.map.get(&cell) {
            Some(known) => known.stored,
            None => None,
        }
    }

    /// Which resource put a cell last.
    pub(crate) fn holder(&self, cell: u64) -> Option<Id>
        ensures { result ≡ unwrap_or (inside.holder_in cell self.now) None }
    {
        match self.map.get(&cell) {
            Some(known) => known.holder,
            None => None,
        }
    }

    /// This resource puts a cell. The result is which one put it last before.
    pub(crate) fn hold(&mut self, cell: u64, id: Id) -> Result<Option<Id>, AllocError>
        ensures before { IfOk result (λ before. before ≡ unwrap_or (inside.holder_in cell self.old) None) }
        ensures held { OnOk result (inside.holder_in cell self.new ≡ Some (Some id)) }
        ensures others { OnOk result (inside.OthersStay cell self.old self.new) }
        ensures stored { inside.stored_cells self.new ≡ inside.stored_cells self.old }
        ensures err { OnErr result (self.new ≡ self.old) }
    {
        if let Some(known) = self.map.get_mut(&cell) {
            let before = known.holder;
            known.holder = Some(id);
            return Ok(before);
        }
        let known = Cell {
            stored: None,
            holder: Some(id),
        };
        match self.map.insert(cell, known) {
            Ok(_) => {}
            Err(_) => return Err(AllocError),
        }
        Ok(None)
    }

    /// Stores what is put, into cells that are known. It needs no memory.
    pub(crate) fn store_all(&mut self, puts: &[Put])
        requires known { AllByRecursion (λ p. IsSome (inside.holder_in p.cell self.old)) puts.now }
        ensures stored { inside.stored_cells self.new ≡ with_puts puts.now (inside.stored_cells self.old) }
        ensures kept { inside.HoldersStay self.old self.new }
    {
        let mut left = puts.len();
        while left > 0 {
            left -= 1;
            self.store(puts[left]);
        }
    }

    fn store(&mut self, put: Put)
        requires known { IsSome (inside.holder_in put.cell self.old) }
        ensures stored { inside.stored_cells self.new ≡ with_put put (inside.stored_cells self.old) }
        ensures kept { inside.HoldersStay self.old self.new }
    {
        if let Some(known) = self.map.get_mut(&put.cell) {
            known.stored = Some(put.value);
        }
    }

    /// Stores what a record says that was put. It needs memory for cells that aren't known.
    pub(crate) fn load_all(&mut self, puts: &[Put]) -> Result<(), AllocError>
        ensures stored { OnOk result
            (inside.stored_cells self.new ≡ with_puts puts.now (inside.stored_cells self.old)) }
    {
        let mut left = puts.len();
        while left > 0 {
            left -= 1;
            ok!(self.load(puts[left]));
        }
        Ok(())
    }

    fn load(&mut self, put: Put) -> Result<(), AllocError>
        ensures stored { OnOk result (inside.stored_cells self.new ≡ with_put put (inside.stored_cells self.old)) }
    {
        let known = Cell {
            stored: Some(put.value),
            holder: None,
        };
        match self.map.insert(put.cell, known) {
            Ok(_) => {}
            Err(_) => return Err(AllocError),
        }
        Ok(())
    }
}
