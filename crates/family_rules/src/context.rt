// What the context of a transaction tells: when its time is over, its parent and its otid.
ghost use Rattle.std.specs.Prelude.{◌≡◌, ◌<◌, ◌∷◌, length, IfOk, IfSome};
ghost use Rattle.coordinator.specs.Contexts as contexts;
ghost use Rattle.coordinator.specs.Names as names;
ghost use Rattle.txn_tree.specs.Rows as rows;

use crate::state::State;
use otid_names::{Otid, OtidFault};
use std::alloc::{AllocError, Global};

impl State {
    /// The moment at which its time is over, where it has one.
    pub fn deadline(&self) -> Option<u64>
        ensures { result ≡ (self.now.family).deadline }
    {
        self.deadline
    }

    /// The branch of which this one is a subtransaction. The top has none.
    #[tactic(auto, using(txn_tree::proofs::Lineages::ancestors_step))]
    pub fn parent_of(&self, branch: u32) -> Option<u32>
        requires there { branch < length (self.now.family).rows }
        ensures parent { result ≡ rows.parent (self.now.family).rows branch }
        ensures earlier { IfSome result (λ parent. parent < branch) }
        ensures ancestors { rows.ancestors (self.now.family).rows branch
            ≡ branch ∷ contexts.parents (self.now.family).rows branch }
    {
        let count = self.tree.count();
        prove!(branch < count);
        self.tree.parent(branch)
    }

    /// The otid of a transaction.
    #[tactic(auto, unfolding(coordinator::specs::Names::otid_of))]
    pub fn otid_of(&self, alloc: Global, branch: u32) -> Result<Otid, AllocError>
        ensures { IfOk result (λ otid. otid ≡ names.otid_of self.now.family branch) }
    {
        match self.given_otid(branch) {
            Some(otid) => copied(alloc, otid),
            None => Otid::own(alloc, &self.numbers_of(branch)),
        }
    }
}

/// A copy of an otid.
fn copied(alloc: Global, otid: &Otid) -> Result<Otid, AllocError>
    ensures { IfOk result (λ copy. copy ≡ otid.now) }
{
    match Otid::new(alloc, otid.format(), otid.bqual(), otid.tid()) {
        Ok(copy) => Ok(copy),
        Err(OtidFault::Memory) => Err(AllocError),
        Err(OtidFault::BadLength) => unreachable!(),
    }
}
