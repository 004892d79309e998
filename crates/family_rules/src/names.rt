// The names, the hashes and the relations of a family's transactions.
ghost use Rattle.std.specs.Prelude.{◌≡◌, ◌<◌, ◌≤◌, length, IfOk};
ghost use Rattle.std.specs.Option.{option_copied};
ghost use Rattle.coordinator.specs.Names as names;

use crate::state::{State, TOP};
use coordinator::Said;
use ior_refs::ObjectKey;
use otid_names::{Otid, OwnNumbers, hash_of, name_of, own_hash};
use ots_model::Octets;
use std::alloc::{AllocError, Global};

/// The letter of a coordinator's key.
const COORDINATOR: u8 = b'K';

impl State {
    /// The numbers of a transaction's own otid.
    pub(crate) fn numbers_of(&self, branch: u32) -> OwnNumbers
        ensures { result ≡ names.numbers_of self.now.family branch }
    {
        OwnNumbers {
            service: self.key.service,
            life: self.key.life,
            generation: self.key.generation,
            branch,
        }
    }

    /// The otid that a superior gave a transaction, where it did.
    pub(crate) fn given_otid(&self, branch: u32) -> Option<&Otid>
        ensures { option_copied result ≡ names.given_otid self.now.family branch }
    {
        if branch != TOP {
            return None;
        }
        match &self.superior {
            Some(superior) => Some(&superior.otid),
            None => None,
        }
    }

    /// The hash of a transaction.
    #[tactic(auto, unfolding(coordinator::specs::Names::hash_of, coordinator::specs::Names::otid_of))]
    pub fn hash_of(&self, branch: u32) -> u32
        ensures { result ≡ names.hash_of self.now.family branch }
    {
        match self.given_otid(branch) {
            Some(otid) => hash_of(otid),
            None => own_hash(&self.numbers_of(branch)),
        }
    }

    /// Whether a key is that of a coordinator of this family.
    pub(crate) fn is_of_family(&self, key: &ObjectKey) -> bool
        ensures { result ≡ names.is_of_family self.now.family key.now }
    {
        key.kind == COORDINATOR
            && key.service == self.key.service
            && key.life == self.key.life
            && key.slot == self.key.slot
            && key.generation == self.key.generation
            && self.has_branch(key.index)
    }

    /// The name of a transaction.
    #[tactic(auto, unfolding(coordinator::specs::Names::name_of, coordinator::specs::Names::otid_of))]
    pub fn name_of(&self, alloc: Global, branch: u32) -> Result<Octets, AllocError>
        ensures { IfOk result (λ octets. octets ≡ names.name_of self.now.family branch) }
    {
        match self.given_otid(branch) {
            Some(otid) => name_of(alloc, otid),
            None => {
                let otid = Otid::own(alloc, &self.numbers_of(branch))?;
                name_of(alloc, &otid)
            }
        }
    }

    /// Whether the other coordinator is that of this transaction. Nothing is said of another service's.
    pub fn is_same(&self, branch: u32, other: Option<ObjectKey>) -> Said
        ensures { result ≡ names.is_same self.now.family branch other }
    {
        match other {
            Some(key) if key.service == self.key.service => Said::Flag(
                self.is_of_family(&key) && branch == key.index,
            ),
            _ => Said::NoImplement,
        }
    }

    /// Whether it is that of a transaction of this family, to which all are related.
    #[tactic(auto, using(crate::proofs::Kin::known_branch))]
    pub fn is_related(&self, branch: u32, other: Option<ObjectKey>) -> Said
        requires there { branch < length (self.now.family).rows }
        ensures { result ≡ names.is_related self.now.family branch other }
    {
        match other {
            Some(key) if key.service == self.key.service => Said::Flag(
                self.is_of_family(&key) && self.tree.is_related(branch, key.index),
            ),
            _ => Said::NoImplement,
        }
    }

    /// Whether this transaction is an ancestor of that one.
    #[tactic(auto, using(crate::proofs::Kin::known_branch))]
    pub fn is_ancestor(&self, branch: u32, other: Option<ObjectKey>) -> Said
        requires there { branch < length (self.now.family).rows }
        ensures { result ≡ names.is_ancestor_of self.now.family branch other }
    {
        match other {
            Some(key) if key.service == self.key.service => Said::Flag(
                self.is_of_family(&key) && self.tree.is_ancestor(branch, key.index),
            ),
            _ => Said::NoImplement,
        }
    }

    /// Whether it is a descendant of that one.
    #[tactic(auto, using(crate::proofs::Kin::known_branch))]
    pub fn is_descendant(&self, branch: u32, other: Option<ObjectKey>) -> Said
        requires there { branch < length (self.now.family).rows }
        ensures { result ≡ names.is_descendant_of self.now.family branch other }
    {
        match other {
            Some(key) if key.service == self.key.service => Said::Flag(
                self.is_of_family(&key) && self.tree.is_ancestor(key.index, branch),
            ),
            _ => Said::NoImplement,
        }
    }
}
