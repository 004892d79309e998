ghost use Rattle.std.specs.Prelude.{◌≡◌, ℕ, ◌<◌, ◌≤◌, ◌==◌, ◌&&◌, ◌↔◌, length, Some, None, IsTrue, IsOk, IsErr, IfOk, OnOk, OnErr, IfSome, IfNone, IsErrOf};
ghost use Rattle.std.specs.List.{slice_get};
ghost use Rattle.txn_tree.specs.Limits.{transaction_limit};
ghost use Rattle.txn_tree.specs.Rows.{IsTree};
ghost use Rattle.txn_tree.specs.Rows as ancestry;
ghost use Rattle.txn_tree.specs.Calls as calls;

use crate::links::{Links, last_under, link, relink, unlink, unlinked};
use crate::row::{Row, State, TreeFault, parent_of};
use ots_model::Status;
use std::alloc::{AllocError, Global};
use std::marker::Model;

/// How deep a transaction lies at most, where the top has depth 1 (our profile).
pub const DEPTH_LIMIT: u32 = 16;

/// How many transactions a tree has at most (our profile).
pub const TRANSACTION_LIMIT: usize = 1024;

/// The branch of the top-level transaction.
const TOP: u32 = 0;

/// For how many transactions a tree takes memory at first.
const FIRST_ROOM: usize = 4;

/// A top-level transaction with its subtransactions. A branch names one of them; they count up from 0, the top, in the
/// order of their making. Contracts see the parent and the state of each, and for how many more memory is taken.
#[derive(Drop)]
pub struct Tree {
    rows: Vec<Row>,
    depths: Vec<u32>,
    links: Vec<Links>,
}

impl Model for Tree {
    ghost use Rattle.txn_tree.specs.Calls.{TreeParts};

    ghost Value = { TreeParts };

    ghost use Rattle.txn_tree.specs.TreeInside.{parts, IsSound};

    ghost view = { parts };

    ghost invariant = { IsSound };
}

impl Tree {
    /// A top-level transaction alone, which is active.
    pub fn new(alloc: Global) -> Result<Tree, AllocError>
        ensures top { IfOk result (λ tree. tree.rows ≡ calls.top_alone) }
    {
        let mut rows = Vec::with_capacity(alloc, FIRST_ROOM)?;
        let mut depths = Vec::with_capacity(alloc, FIRST_ROOM)?;
        let mut links = Vec::with_capacity(alloc, FIRST_ROOM)?;
        rows.push_reserved(Row {
            parent: None,
            state: State::Active,
        });
        depths.push_reserved(1);
        links.push_reserved(unlinked());
        Ok(Tree {
            rows,
            depths,
            links,
        })
    }

    /// How many transactions there are, the top included: branches are below that.
    pub fn count(&self) -> u32
        ensures count { result ≡ length self.now.rows }
        ensures tree { IsTree self.now.rows }
        ensures few { result ≤ transaction_limit }
    {
        self.rows.len() as u32
    }

    /// Takes memory for one more transaction, where there is none yet: for as many more as there are.
    pub fn reserve(&mut self) -> Result<(), AllocError>
        ensures ok { OnOk result (0 < self.new.room) }
        ensures there { 0 < self.old.room → IsOk result }
        ensures same { self.new.rows ≡ self.old.rows }
        ensures room { self.old.room ≤ self.new.room }
    {
        if self.is_packed() {
            let more = self.rows.len();
            self.rows.reserve_exact(more)?;
            self.depths.reserve_exact(more)?;
            self.links.reserve_exact(more)?;
        }
        Ok(())
    }

    /// Makes a subtransaction of this branch. What is asked of the branch is looked at before memory is wanted.
    pub fn create_sub(&mut self, parent: u32) -> Result<u32, TreeFault>
        requires there { parent < length self.old.rows }
        ensures ok { OnOk result (self.new.rows ≡ calls.created self.old.rows parent) }
        ensures branch { IfOk result (λ branch. branch ≡ length self.old.rows) }
        ensures allowed { IsOk result → calls.creating self.old.rows parent ≡ None }
        ensures refused { IfSome (calls.creating self.old.rows parent) (λ fault. IsErrOf result fault) }
        ensures memory { IfNone (calls.creating self.old.rows parent) (IsErr result →
            IsErrOf result TreeFault.Memory × (self.old.room ≡ 0)) }
        ensures err { OnErr result (self.new.rows ≡ self.old.rows) }
        ensures room { OnErr result (self.old.room ≤ self.new.room) }
    {
        self.creating(parent)?;
        self.make_room()?;
        Ok(self.add(parent))
    }

    /// Refuses where no subtransaction of this branch may be made.
    fn creating(&self, parent: u32) -> Result<(), TreeFault>
        requires there { parent < length self.now.rows }
        ensures { result ≡ calls.answer (calls.creating self.now.rows parent) }
    {
        match self.rows[parent as usize].state {
            State::Active => {}
            State::Marked => return Err(TreeFault::MarkedAlready),
            State::Committed | State::RolledBack => return Err(TreeFault::Inactive),
        }
        if self.depths[parent as usize] >= DEPTH_LIMIT || self.rows.len() >= TRANSACTION_LIMIT {
            return Err(TreeFault::SubtransactionsUnavailable);
        }
        Ok(())
    }

    /// Takes memory for one more transaction, where there is none.
    fn make_room(&mut self) -> Result<(), TreeFault>
        ensures ok { OnOk result (0 < self.new.room) }
        ensures err { OnErr result (self.old.room ≡ 0) }
        ensures memory { IsErr result → IsErrOf result TreeFault.Memory }
        ensures same { self.new.rows ≡ self.old.rows }
        ensures room { self.old.room ≤ self.new.room }
    {
        self.reserve().map_err(|_| TreeFault::Memory)
    }

    /// Whether there is memory for no further transaction.
    fn is_packed(&self) -> bool
        ensures { IsTrue result ↔ (self.now.room ≡ 0) }
    {
        self.rows.len() == self.rows.capacity()
            || self.depths.len() == self.depths.capacity()
            || self.links.len() == self.links.capacity()
    }

    /// Makes a subtransaction of this branch. It needs no memory.
    fn add(&mut self, parent: u32) -> u32
        requires there { parent < length self.old.rows }
        requires room { 0 < self.old.room }
        requires allowed { calls.creating self.old.rows parent ≡ None }
        ensures rows { self.new.rows ≡ calls.created self.old.rows parent }
        ensures branch { result ≡ length self.old.rows }
    {
        let branch = self.rows.len() as u32;
        let depth = self.depths[parent as usize] + 1;
        self.depths.push_reserved(depth);
        self.links.push_reserved(unlinked());
        self.rows.push_reserved(Row {
            parent: Some(parent),
            state: State::Active,
        });
        link(&self.rows, &self.depths, &mut self.links, branch);
        branch
    }

    /// Ends this branch. Only one that isn't marked commits, and only into a parent that has not ended. Live branches below
    /// it stay as they are: `live_under` names them, and the caller rolls these back first.
    pub fn end_sub(&mut self, branch: u32, committed: bool) -> Result<(), TreeFault>
        requires there { branch < length self.old.rows }
        ensures ok { OnOk result
            (self.new ≡ record self.old { rows = calls.ended self.old.rows branch committed }) }
        ensures err { OnErr result (self.new ≡ self.old) }
        ensures result { result ≡ calls.answer (calls.ending self.old.rows branch committed) }
    {
        let row = self.rows[branch as usize];
        if !row.state.is_live()
            || (committed && self.is_parent_ended(parent_of(&self.rows, branch)))
        {
            return Err(TreeFault::Inactive);
        }
        if committed && matches!(row.state, State::Marked) {
            return Err(TreeFault::MarkedAlready);
        }
        self.set_state(branch, ended(committed));
        Ok(())
    }

    /// Marks this branch: it can only be rolled back from now on. One that is marked stays so.
    pub fn mark(&mut self, branch: u32) -> Result<(), TreeFault>
        requires there { branch < length self.old.rows }
        ensures ok { OnOk result (self.new ≡ record self.old { rows = calls.marked self.old.rows branch }) }
        ensures err { OnErr result (self.new ≡ self.old) }
        ensures result { result ≡ calls.answer (calls.marking self.old.rows branch) }
    {
        if !self.rows[branch as usize].state.is_live() {
            return Err(TreeFault::Inactive);
        }
        self.set_state(branch, State::Marked);
        Ok(())
    }

    /// Ends this branch, which has not ended.
    pub fn close(&mut self, branch: u32, committed: bool)
        requires there { branch < length self.old.rows }
        requires live { IsTrue (ancestry.is_live_branch self.old.rows branch) }
        ensures { self.new ≡ record self.old { rows = calls.ended self.old.rows branch committed } }
    {
        self.set_state(branch, ended(committed));
    }

    /// The status of this branch (`get_status`).
    pub fn status(&self, branch: u32) -> Status
        requires there { branch < length self.now.rows }
        ensures shown { Some result ≡ calls.status self.now.rows branch }
        ensures named { branch < transaction_limit }
    {
        self.rows[branch as usize].state.status()
    }

    /// The branch of which this one is a subtransaction. The top has none.
    pub fn parent(&self, branch: u32) -> Option<u32>
        requires there { branch < length self.now.rows }
        ensures parent { result ≡ ancestry.parent self.now.rows branch }
        ensures earlier { IfSome result (λ parent. parent < branch) }
    {
        parent_of(&self.rows, branch)
    }

    /// The status of this branch, where there is one.
    pub fn status_at(&self, branch: u32) -> Option<Status>
        ensures { result ≡ calls.status self.now.rows branch }
    {
        match self.row_at(branch) {
            Some(row) => Some(row.state.status()),
            None => None,
        }
    }

    /// Whether there is this branch, and it has not ended.
    pub fn is_live_at(&self, branch: u32) -> bool
        ensures { result ≡ ancestry.is_live_branch self.now.rows branch }
    {
        match self.row_at(branch) {
            Some(row) => row.state.is_live(),
            None => false,
        }
    }

    /// Whether there is this branch, and it is marked.
    pub fn is_marked_at(&self, branch: u32) -> bool
        ensures { result ≡ calls.is_marked (ancestry.state self.now.rows branch) }
    {
        match self.row_at(branch) {
            Some(row) => matches!(row.state, State::Marked),
            None => false,
        }
    }

    /// The branch of which this one is a subtransaction, where there is this one and it is no top.
    pub fn parent_at(&self, branch: u32) -> Option<u32>
        ensures { result ≡ ancestry.parent self.now.rows branch }
    {
        match self.row_at(branch) {
            Some(row) => row.parent,
            None => None,
        }
    }

    /// The row of this branch, where there is one.
    fn row_at(&self, branch: u32) -> Option<Row>
        ensures { result ≡ slice_get self.now.rows branch }
    {
        self.rows.get(branch as usize).copied()
    }

    /// The status of this branch's parent (`get_parent_status`); that of the top is its own.
    pub fn parent_status(&self, branch: u32) -> Status
        requires there { branch < length self.now.rows }
        ensures { Some result ≡ calls.parent_status self.now.rows branch }
    {
        self.status(parent_of(&self.rows, branch).unwrap_or(branch))
    }

    /// The status of the top-level ancestor of this branch (`get_top_level_status`).
    pub fn top_status(&self, branch: u32) -> Status
        requires there { branch < length self.now.rows }
        ensures { Some result ≡ calls.top_status self.now.rows branch }
    {
        let _ = branch;
        self.status(TOP)
    }

    /// Whether the first branch is an ancestor of the second (`is_ancestor_transaction`). Each is its own.
    pub fn is_ancestor(&self, a: u32, b: u32) -> bool
        requires there { (a < length self.now.rows) × (b < length self.now.rows) }
        ensures { result ≡ ancestry.is_ancestor self.now.rows a b }
    {
        is_above(&self.rows, a, b)
    }

    /// Whether some branch is an ancestor of both (`is_related_transaction`). In one tree the top is.
    pub fn is_related(&self, a: u32, b: u32) -> bool
        requires there { (a < length self.now.rows) × (b < length self.now.rows) }
        ensures { result ≡ ancestry.are_related self.now.rows a b }
    {
        have_top(&self.rows, a, b)
    }

    /// Whether both are the same branch (`is_same_transaction`).
    pub fn is_same(&self, a: u32, b: u32) -> bool
        requires there { (a < length self.now.rows) × (b < length self.now.rows) }
        ensures { result ≡ (a == b) }
    {
        a == b
    }

    /// Of the live transactions below this branch the deepest; of equals the one made last. It is the next one to be
    /// rolled back where this branch ends. It is found in one step for each depth.
    pub fn live_under(&self, branch: u32) -> Option<u32>
        requires there { branch < length self.now.rows }
        ensures { result ≡ calls.live_under self.now.rows branch }
    {
        last_under(&self.links, branch)
    }

    /// Whether the parent has ended, where there is one.
    fn is_parent_ended(&self, parent: Option<u32>) -> bool
        requires there { IfSome parent (λ p. p < length self.now.rows) }
        ensures { result ≡ calls.has_ended self.now.rows parent }
    {
        match parent {
            Some(parent) => !self.rows[parent as usize].state.is_live(),
            None => false,
        }
    }

    /// From now on this branch stands so. One that ends costs its depth, and the ended ones that it uncovers; the whole tree is
    /// gone over only where one that has ended is marked.
    fn set_state(&mut self, branch: u32, state: State)
        requires there { branch < length self.old.rows }
        ensures { self.new ≡ record self.old { rows = calls.with_state self.old.rows branch state } }
    {
        let was_live = self.rows[branch as usize].state.is_live();
        let parent = parent_of(&self.rows, branch);
        self.rows[branch as usize] = Row { parent, state };
        if !state.is_live() {
            unlink(&self.rows, &self.depths, &mut self.links, branch);
        } else if !was_live {
            relink(&self.rows, &self.depths, &mut self.links);
        }
    }
}

/// How a transaction stands that has ended so.
fn ended(committed: bool) -> State
    ensures { result ≡ calls.end_state committed }
{
    if committed {
        State::Committed
    } else {
        State::RolledBack
    }
}

/// Whether the first branch is the second or lies above it.
fn is_above(rows: &[Row], a: u32, b: u32) -> bool
    requires tree { IsTree rows.now }
    requires there { b < length rows.now }
    ensures { result ≡ ancestry.is_ancestor rows.now a b }
{
    let mut at = b;
    while at != a {
        match parent_of(rows, at) {
            Some(parent) => at = parent,
            None => return false,
        }
    }
    true
}

/// Whether the top is an ancestor of both.
fn have_top(rows: &[Row], a: u32, b: u32) -> bool
    requires tree { IsTree rows.now }
    requires there { (a < length rows.now) × (b < length rows.now) }
    ensures { result ≡ ancestry.are_related rows.now a b }
{
    is_above(rows, TOP, a) && is_above(rows, TOP, b)
}
