ghost use Rattle.std.specs.Prelude.{◌≡◌, ℕ, ◌||◌, [], OnOk, OnErr};
ghost use Rattle.std.specs.List.{list_any};
ghost use Rattle.nodes_parts.specs.Cell.{is_cell};

use std::alloc::{AllocError, Global};
use std::collections::HashSet;
use std::marker::Model;

/// Some cells. Contracts see them as a list.
#[derive(Drop)]
struct Named {
    cells: HashSet<u64>,
}

impl Model for Named {
    ghost use Rattle.std.specs.Prelude.{List, ℕ};

    ghost Value = { List ℕ };

    ghost view = { λ c. c.cells.keys };
}

impl Named {
    /// None.
    fn new(alloc: Global) -> Named
        ensures empty { result ≡ [] }
    {
        Named {
            cells: HashSet::new(alloc),
        }
    }

    /// Whether this cell is one.
    fn has(&self, cell: u64) -> bool
        ensures has { result ≡ list_any (is_cell cell) self.now }
    {
        self.cells.contains(&cell)
    }

    /// This cell is one from now on.
    fn add(&mut self, cell: u64) -> Result<(), AllocError>
        ensures ok { OnOk result ((c : ℕ) → list_any (is_cell c) self.new
            ≡ (is_cell c cell || list_any (is_cell c) self.old)) }
        ensures err { OnErr result (self.new ≡ self.old) }
    {
        self.cells.insert(cell)?;
        Ok(())
    }
}

/// The cells of an end that resources name, in a block of their own, so that what holds an end stays small. The block is
/// made with the first of them.
#[derive(Drop)]
pub struct Cells {
    alloc: Global,
    named: Option<Box<Named>>,
}

impl Model for Cells {
    ghost use Rattle.std.specs.Prelude.{List, ℕ, [], Some, None};

    ghost Value = { List ℕ };

    ghost view = { λ c. elim c.named [ Some named ↦ named.value | None ↦ [] ] };
}

impl Cells {
    /// No cell is named.
    pub fn new(alloc: Global) -> Cells
        ensures empty { result ≡ [] }
    {
        Cells { alloc, named: None }
    }

    /// Whether this cell is named.
    pub fn has(&self, cell: u64) -> bool
        ensures has { result ≡ list_any (is_cell cell) self.now }
    {
        match &self.named {
            Some(named) => named.has(cell),
            None => false,
        }
    }

    /// This cell is named.
    pub fn add(&mut self, cell: u64) -> Result<(), AllocError>
        ensures ok { OnOk result ((c : ℕ) → list_any (is_cell c) self.new
            ≡ (is_cell c cell || list_any (is_cell c) self.old)) }
        ensures err { OnErr result (self.new ≡ self.old) }
    {
        match &mut self.named {
            Some(named) => named.add(cell),
            None => {
                let mut named = Box::new(self.alloc, Named::new(self.alloc))?;
                named.add(cell)?;
                self.named = Some(named);
                Ok(())
            }
        }
    }
}
