use cdr_values::Order;
use ior_refs::ObjectRef;
use otid_names::Otid;
use ots_model::Octets;
use std::marker::Model;

/// The identity of a transaction (TransIdentity of module CosTransactions).
#[derive(Drop)]
pub struct Identity {
    /// The reference to its coordinator.
    pub coord: ObjectRef,
    /// The reference to its terminator, or nil.
    pub term: ObjectRef,
    /// Its otid.
    pub otid: Otid,
}

/// What a request says of the transaction that it belongs to (PropagationContext of module CosTransactions).
#[derive(Drop)]
pub struct Context {
    /// The seconds until the transaction is rolled back, or 0.
    pub timeout: u32,
    /// The transaction itself.
    pub current: Identity,
    /// Its parents, from the immediate one up to the top-level transaction.
    pub parents: Identities,
    /// The any at its end.
    pub tail: AnyTail,
}

/// The any at the end of a context (implementation_specific_data). It isn't read.
#[derive(Drop)]
pub enum AnyTail {
    /// It has no value.
    Null,
    /// Anything else: the octets as they stand.
    Kept {
        /// The byte order in which it is to be read.
        order: Order,
        /// Its offset modulo 8.
        modulo: u8,
        /// The octets, of any number.
        octets: Octets,
    },
}

/// The identities of several transactions, in order. Contracts see them as a list.
#[derive(Drop)]
pub struct Identities {
    items: Vec<Identity>,
}

impl Model for Identities {
    ghost use Rattle.std.specs.Prelude.{List};
    ghost use Rattle.ots_context.specs.declared.context.Identity.{Identity};

    ghost Value = { List Identity };

    ghost view = { λ identities. identities.items.items };
}

impl Identities {
    ghost use Rattle.std.specs.Prelude.{◌≡◌};

    /// The identities of a vector. It needs no memory.
    pub fn from_vec(items: Vec<Identity>) -> Identities
        ensures same { result ≡ items.items }
    {
        Identities { items }
    }

    /// The identities.
    pub fn items(&self) -> &[Identity]
        ensures same { result.now ≡ self.now }
    {
        self.items.as_slice()
    }

    /// The identities as a vector. It needs no memory.
    pub fn into_vec(self) -> Vec<Identity>
        ensures same { result.items ≡ self }
    {
        self.items
    }
}
