// What the names of a script name, and how what has a name is found by its key or its reference.
ghost use Rattle.std.specs.Prelude.{◌≡◌, None, is_none, OnOk, OnErr};
ghost use Rattle.std.specs.Option.{option_map};
ghost use Rattle.nodes_world.specs.World as world;
ghost use Rattle.nodes_world.specs.declared.thing.Thing.TheVariants as things;
ghost use Rattle.nodes_parts.specs.Naming.{HasNoNames, IsNamedToo, IsReferredToo, name_of_key};
ghost use Rattle.nodes_parts.specs.Referring.{named, referred_in};

use crate::references::{NamedKey, References};
use crate::transactions::Transactions;
use indexmap::IndexMap;
use ior_refs::ObjectKey;
use nodes_world::Thing;
use ots_model::Name;
use std::alloc::{AllocError, Global};
use std::marker::Model;

/// What the names of a script name, in the order of their making.
#[derive(Drop)]
pub struct Directory {
    things: IndexMap<Name, Thing>,
    transactions: Transactions,
    references: References,
}

impl Model for Directory {
    ghost use Rattle.nodes_parts.specs.Naming.{Names, IsFound};

    ghost Value = { Names };

    ghost view = { λ d. record { things = d.things.entries; referred = d.references } };

    ghost invariant = { λ d. IsFound d.things.entries d.transactions };
}

impl Directory {
    /// Nothing has a name.
    pub fn new(alloc: Global) -> Directory
        ensures none { HasNoNames result }
    {
        Directory {
            things: IndexMap::new(alloc),
            transactions: Transactions::new(alloc),
            references: References::new(alloc),
        }
    }

    /// What a name names.
    pub fn thing(&self, name: &Name) -> Option<Thing>
        ensures thing { result ≡ world.thing_in self.now.things name.now }
    {
        self.things.get(name).copied()
    }

    /// Whether a name names nothing.
    pub fn is_free(&self, name: &Name) -> bool
        ensures free { result ≡ is_none (world.thing_in self.now.things name.now) }
    {
        self.thing(name).is_none()
    }

    /// The name of the transaction with a key.
    pub fn transaction(&self, key: &ObjectKey) -> Option<Name>
        ensures name { result ≡ name_of_key self.now.things key.now }
    {
        self.transactions.name(key)
    }

    /// The resource to which a reference leads.
    pub fn referred(&self, to: &[u8]) -> Option<NamedKey>
        ensures referred { option_map named result ≡ referred_in self.now.referred to.now }
    {
        self.references.referred(to)
    }

    /// The node or end at a place has this name from now on.
    pub fn name_seat(&mut self, name: &Name, place: u32) -> Result<(), AllocError>
        requires free { world.thing_in self.old.things name.now ≡ None }
        ensures things { OnOk result (IsNamedToo self.old self.new name.now (things.Seat place)) }
        ensures referred { self.new.referred ≡ self.old.referred }
        ensures err { OnErr result (self.new ≡ self.old) }
    {
        self.things.insert(*name, Thing::Seat(place))?;
        Ok(())
    }

    /// The transaction with a key has this name from now on.
    pub fn name_transaction(&mut self, name: &Name, key: &ObjectKey) -> Result<(), AllocError>
        requires free { world.thing_in self.old.things name.now ≡ None }
        ensures things { OnOk result (IsNamedToo self.old self.new name.now (things.Transaction key.now)) }
        ensures referred { self.new.referred ≡ self.old.referred }
        ensures err { OnErr result (self.new ≡ self.old) }
    {
        self.things.reserve(1)?;
        self.transactions.add(key, name)?;
        self.things.insert(*name, Thing::Transaction(*key))?;
        Ok(())
    }

    /// The resource with a key has this name from now on, and to it leads this reference, where it led nowhere.
    pub fn name_resource(
        &mut self,
        name: &Name,
        key: &ObjectKey,
        reference: Vec<u8>,
    ) -> Result<(), AllocError>
        requires free { world.thing_in self.old.things name.now ≡ None }
        ensures things { OnOk result (IsNamedToo self.old self.new name.now (things.Resource key.now)) }
        ensures referred { OnOk result (IsReferredToo self.old self.new reference.items name.now key.now) }
        ensures err { OnErr result (self.new ≡ self.old) }
    {
        self.things.reserve(1)?;
        let (name, key) = (*name, *key);
        self.references.add(reference, NamedKey { name, key })?;
        self.things.insert(name, Thing::Resource(key))?;
        Ok(())
    }
}
