// Puts by rising cell.
ghost use Rattle.std.specs.Prelude.{◌≡◌, IsTrue, IfOk, OnOk, OnErr, [], length};
ghost use Rattle.decision_journal.specs.Layout.{is_rising};
ghost use Rattle.resource_end.specs.Cells.{value_at, with_put};
ghost use Rattle.resource_end.specs.Inside.{IsGap};

use decision_journal::Put;
use std::alloc::{AllocError, Global};
use std::marker::Model;

/// Puts by rising cell, so that one is found by halving. Contracts see them as a list.
#[derive(Drop)]
pub(crate) struct RisingPuts {
    items: Vec<Put>,
}

impl Model for RisingPuts {
    ghost use Rattle.std.specs.Prelude.{List, IsTrue};
    ghost use Rattle.decision_journal.specs.declared.record.Put.{Put};
    ghost use Rattle.decision_journal.specs.Layout.{is_rising};

    ghost Value = { List Put };

    ghost view = { λ puts. puts.items.items };

    ghost invariant = { λ puts. IsTrue (is_rising puts.items.items) };
}

impl RisingPuts {
    /// No puts.
    pub(crate) fn new(alloc: Global) -> RisingPuts
        ensures { result ≡ [] }
    {
        RisingPuts {
            items: Vec::new(alloc),
        }
    }

    /// A copy of these puts.
    pub(crate) fn of(alloc: Global, puts: &[Put]) -> Result<RisingPuts, AllocError>
        requires { IsTrue (is_rising puts.now) }
        ensures { IfOk result (λ copy. copy ≡ puts.now) }
    {
        Ok(RisingPuts {
            items: ok!(copy_puts(alloc, puts)),
        })
    }

    /// The puts.
    pub(crate) fn as_slice(&self) -> &[Put]
        ensures { result.now ≡ self.now }
    {
        self.items.as_slice()
    }

    /// The puts, for themselves.
    pub(crate) fn into_vec(self) -> Vec<Put>
        ensures { result.items ≡ self }
    {
        self.items
    }

    /// How many they are.
    pub(crate) fn len(&self) -> usize
        ensures { result ≡ length self.now }
    {
        self.items.len()
    }

    /// What they say of a cell.
    pub(crate) fn value_at(&self, cell: u64) -> Option<u64>
        ensures { result ≡ value_at cell self.now }
    {
        value_in(self.items.as_slice(), cell)
    }

    /// Sets a cell. Want of memory leaves the puts as they were.
    pub(crate) fn set(&mut self, put: Put) -> Result<(), AllocError>
        ensures ok { OnOk result (self.new ≡ with_put put self.old) }
        ensures err { OnErr result (self.new ≡ self.old) }
    {
        set_put(&mut self.items, put)
    }
}

/// What rising puts say of a cell.
fn value_in(puts: &[Put], cell: u64) -> Option<u64>
    requires { IsTrue (is_rising puts.now) }
    ensures { result ≡ value_at cell puts.now }
{
    let index = gap(puts, cell);
    if index >= puts.len() {
        return None;
    }
    let put = &puts[index];
    if put.cell != cell {
        return None;
    }
    Some(put.value)
}

/// Sets a cell of rising puts. Want of memory leaves the puts as they were.
fn set_put(puts: &mut Vec<Put>, put: Put) -> Result<(), AllocError>
    requires { IsTrue (is_rising puts.old.items) }
    ensures ok { OnOk result (puts.new.items ≡ with_put put puts.old.items) }
    ensures err { OnErr result (puts.new.items ≡ puts.old.items) }
{
    let index = gap(puts.as_slice(), put.cell);
    if index < puts.len() && puts[index].cell == put.cell {
        puts[index] = put;
        return Ok(());
    }
    puts.insert(index, put)?;
    Ok(())
}

/// The index of the first of rising puts whose cell isn't below this one, or else of the end.
fn gap(puts: &[Put], cell: u64) -> usize
    requires { IsTrue (is_rising puts.now) }
    ensures { IsGap cell result puts.now }
{
    puts.partition_point(|put| put.cell < cell)
}

/// A copy of these puts.
pub(crate) fn copy_puts(alloc: Global, puts: &[Put]) -> Result<Vec<Put>, AllocError>
    ensures { IfOk result (λ copy. copy.items ≡ puts.now) }
{
    let mut copy = Vec::with_capacity(alloc, puts.len())?;
    copy.extend_from_slice(puts)?;
    Ok(copy)
}
