ghost use Rattle.std.specs.Prelude.{◌≡◌, [], Some, if◌then◌else◌, OnOk, OnErr};
ghost use Rattle.std.specs.Option.{option_or};
ghost use Rattle.ior_refs.specs.declared.key.ObjectKey.{ObjectKey as Key};
ghost use Rattle.nodes_world.specs.Objects.{same_transaction};
ghost use Rattle.nodes_parts.specs.Index.{digest_of_number, name_in, number_of};
ghost use Rattle.std.proofs.Common.{rules};
ghost use Rattle.std.specs.Cmp.Rules.{hashing};

use ior_refs::ObjectKey;
use ots_model::Name;
use std::alloc::{AllocError, Global};
use std::collections::HashMap;
use std::hash::{Hash, Hasher};
use std::marker::Model;

/// How far the numbers of branches, of services and of lives lie apart in the digest of a transaction.
const INDEX_WEIGHT: u64 = 1 << 24;

const SERVICE_WEIGHT: u64 = 1 << 34;

const LIFE_WEIGHT: u64 = 1 << 41;

/// A transaction, by the numbers in its key. It is hashed by one number that few transactions share.
#[derive(Clone, Copy, PartialEq, Eq)]
pub struct TransactionNumber {
    service: u64,
    life: u32,
    slot: u32,
    generation: u64,
    index: u32,
}

impl TransactionNumber {
    /// A number that few transactions share.
    fn digest(&self) -> u64
        ensures { result ≡ digest_of_number self.now }
    {
        let index = u64::from(self.index).wrapping_mul(INDEX_WEIGHT);
        let service = self.service.wrapping_mul(SERVICE_WEIGHT);
        let life = u64::from(self.life).wrapping_mul(LIFE_WEIGHT);
        self.generation
            .wrapping_add(index)
            .wrapping_add(service)
            .wrapping_add(life)
    }
}

impl Hash for TransactionNumber {
    ghost use Rattle.std.specs.Hash as fed;

    ghost hash_input = { λ n. fed.u64 (digest_of_number n) };

    ghost respects_eq = { Prim.search (hashing, rules) };

    fn hash<H: Hasher>(&self, state: &mut H) {
        state.write_u64(self.digest());
    }
}

/// The names of transactions, by their keys. Contracts see the entries.
#[derive(Drop)]
pub struct Transactions {
    names: HashMap<TransactionNumber, Name>,
}

impl Model for Transactions {
    ghost use Rattle.std.specs.Prelude.{List, ℕ};
    ghost use Rattle.nodes_parts.specs.declared.transactions.TransactionNumber.{TransactionNumber};

    ghost Value = { List (TransactionNumber × List ℕ) };

    ghost view = { λ t. t.names.entries };
}

impl Transactions {
    /// No transaction has a name.
    pub fn new(alloc: Global) -> Transactions
        ensures none { result ≡ [] }
    {
        Transactions {
            names: HashMap::new(alloc),
        }
    }

    /// The name of the transaction with a key.
    pub fn name(&self, key: &ObjectKey) -> Option<Name>
        ensures name { result ≡ name_in self.now key.now }
    {
        self.names.get(&number_of(key)).copied()
    }

    /// The transaction with a key, where it has no name yet, has this one from now on.
    pub fn add(&mut self, key: &ObjectKey, name: &Name) -> Result<(), AllocError>
        ensures ok { OnOk result ((k : Key) → name_in self.new k
            ≡ (if same_transaction key.now k then option_or (name_in self.old k) (Some name.now) else name_in self.old k)) }
        ensures err { OnErr result (self.new ≡ self.old) }
    {
        if self.name(key).is_none() {
            self.names.insert(number_of(key), *name)?;
        }
        Ok(())
    }
}

/// The numbers in a key.
fn number_of(key: &ObjectKey) -> TransactionNumber
    ensures { result ≡ number_of key.now }
{
    TransactionNumber {
        service: key.service,
        life: key.life,
        slot: key.slot,
        generation: key.generation,
        index: key.index,
    }
}
