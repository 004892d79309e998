// The state of a world, and what is read of it.
ghost use Rattle.std.specs.Prelude.{◌≡◌, slice_get};
ghost use Rattle.std.specs.Option.{option_copied, option_map};
ghost use Rattle.coordinator.specs.Family.{FamilyParts as TheFamily};
ghost use Rattle.nodes_parts.specs.Kept.{flat};
ghost use Rattle.nodes_world.specs.World as world;

use crate::seats::Seat;
use family_step::Family;
use ior_refs::ObjectKey;
use nodes_lives::LiveNode;
use nodes_parts::{Directory, End, Messages, Resource, place_of};
use std::alloc::Global;

/// The nodes and ends of a script in the order of their making, the messages between them, and what its names name.
#[derive(Drop)]
pub struct State {
    pub alloc: Global,
    pub seats: Vec<Seat>,
    pub messages: Messages,
    pub names: Directory,
}

impl State {
    ghost use Rattle.nodes_state.specs.Shown.{HasNames, shown};
    ghost use Rattle.nodes_state.specs.Seated.{node_of};

    /// Nothing was made.
    pub fn new(alloc: Global) -> State
        ensures empty { shown result ≡ world.empty }
        ensures names { HasNames result }
    {
        State {
            alloc,
            seats: Vec::new(alloc),
            messages: Messages::new(alloc),
            names: Directory::new(alloc),
        }
    }

    /// The node that is up at a place.
    pub fn node(&self, place: usize) -> Option<&LiveNode>
        ensures { option_map node_of (option_copied result) ≡ world.node_at (shown self.now) place }
    {
        self.seats.get(place)?.node()
    }

    /// The end that is up at a place.
    pub fn end(&self, place: usize) -> Option<&End>
        ensures { option_copied result ≡ world.end_at (shown self.now) place }
    {
        self.seats.get(place)?.end()
    }

    /// The life of the node or end that is up at a place.
    pub fn life(&self, place: usize) -> Option<u32>
        ensures { result ≡ world.life_at (shown self.now) place }
    {
        self.seats.get(place)?.life()
    }

    /// Where the clock of the seat at a place stands.
    pub fn clock(&self, place: usize) -> Option<u64>
        ensures { result ≡ option_map (λ (s : world.Seat). s.clock) (slice_get (shown self.now).seats place) }
    {
        Some(self.seats.get(place)?.clock)
    }

    /// The family of a key, where its node is up and its slot holds it.
    pub fn family(&self, key: &ObjectKey) -> Option<&Family>
        ensures { option_map (λ (p : TheFamily). p.family) (option_copied result)
            ≡ world.family_at (shown self.now) key.now }
    {
        self.node(place_of(key))?.family(key)
    }

    /// The resource of a key, where its end is up.
    pub fn resource(&self, key: &ObjectKey) -> Option<&Resource>
        ensures { option_map flat (option_copied result) ≡ world.resource_at (shown self.now) key.now }
    {
        self.end(place_of(key))?.resource(key.generation)
    }
}
