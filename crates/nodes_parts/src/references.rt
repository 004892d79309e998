ghost use Rattle.std.specs.Prelude.{◌≡◌, ◌==◌, ℕ, [], drop, map, Some, None, if◌then◌else◌, OnOk, OnErr};
ghost use Rattle.std.specs.Map.{lookup};
ghost use Rattle.std.specs.Option.{option_map, option_or};
ghost use Rattle.nodes_parts.specs.Referring.{LeadsTo, digest_of, entry_of, led_at, named, numbers_in, referred_in};

use crate::objects::NUMBER_PLACE;
use crate::places::{Numbers, Places};
use crate::shared::SharedReference;
use byteorder::{BigEndian, ByteOrder};
use ior_refs::ObjectKey;
use ots_model::Name;
use std::alloc::{AllocError, Global};
use std::collections::HashMap;
use std::marker::Model;

/// Where the low half of the number of an object's service stands in its reference, counted from the end.
const SERVICE_PLACE: usize = 28;

/// A key, and the name of what has it.
#[derive(Clone, Copy)]
pub struct NamedKey {
    pub name: Name,
    pub key: ObjectKey,
}

/// The resources that have names, by their references: in the order of their making, for each digest of references the place
/// of the first one that has it, and the places that their numbers lead to. Contracts see the entries.
#[derive(Drop)]
pub struct References {
    alloc: Global,
    entries: Vec<(SharedReference, NamedKey)>,
    firsts: HashMap<u64, usize>,
    places: Places,
}

impl Model for References {
    ghost use Rattle.std.specs.Prelude.{List, ℕ, map};
    ghost use Rattle.nodes_world.specs.World.{NamedKey};
    ghost use Rattle.nodes_parts.specs.Referring.{Finds, entry_of};

    ghost Value = { List (List ℕ × NamedKey) };

    ghost view = { λ r. map entry_of r.entries.items };

    ghost invariant = { λ r. Finds r.firsts.entries r.entries.items };
}

impl References {
    /// No reference leads anywhere.
    pub fn new(alloc: Global) -> References
        ensures none { result ≡ [] }
    {
        References {
            alloc,
            entries: Vec::new(alloc),
            firsts: HashMap::new(alloc),
            places: Places::new(alloc),
        }
    }

    /// The resource to which a reference leads.
    pub fn referred(&self, to: &[u8]) -> Option<NamedKey>
        ensures referred { option_map named result ≡ referred_in self.now to.now }
    {
        if let Some(numbers) = numbers_in(to)
            && let Some(place) = self.places.get(numbers)
            && let Some(resource) = led_at(&self.entries, place, to)
        {
            return Some(resource);
        }
        let place = *self.firsts.get(&digest_of(to))?;
        led_from(&self.entries, place, to)
    }

    /// A reference that led nowhere leads to this resource from now on. One that leads somewhere goes on to lead there.
    pub fn add(&mut self, reference: Vec<u8>, to: NamedKey) -> Result<(), AllocError>
        ensures ok { OnOk result (LeadsTo reference.items (named to) self.old self.new) }
        ensures err { OnErr result (self.new ≡ self.old) }
    {
        if self.referred(&reference).is_some() {
            return Ok(());
        }
        let digest = digest_of(&reference);
        let numbers = numbers_in(&reference);
        let shared = SharedReference::like(self.alloc, &reference, self.neighbour(numbers))?;
        self.entries.reserve(1)?;
        index(&mut self.places, numbers, self.entries.len())?;
        note(&mut self.firsts, digest, self.entries.len())?;
        self.entries.push_reserved((shared, to));
        Ok(())
    }

    /// A reference that may be like one with these numbers: that with the highest number of the same service, or the last one.
    fn neighbour(&self, numbers: Option<Numbers>) -> Option<&SharedReference> {
        let place = numbers.and_then(|numbers| self.places.last(numbers.service));
        let entry = place.and_then(|place| self.entries.get(place));
        Some(&entry.or(self.entries.last())?.0)
    }
}

/// The resource to which the reference at a place leads, where it is this one.
fn led_at(entries: &[(SharedReference, NamedKey)], place: usize, to: &[u8]) -> Option<NamedKey>
    ensures { option_map named result ≡ led_at entries.now place to.now }
{
    let (reference, resource) = entries.get(place)?;
    reference.is(to).then_some(*resource)
}

/// A reference with these numbers, where it has some, stands at this place from now on.
fn index(places: &mut Places, numbers: Option<Numbers>, place: usize) -> Result<(), AllocError> {
    match numbers {
        Some(numbers) => places.insert(numbers, place),
        None => Ok(()),
    }
}

/// The numbers in a reference, where it is long enough for them.
fn numbers_in(reference: &[u8]) -> Option<Numbers>
    ensures { result ≡ numbers_in reference.now }
{
    if reference.len() < SERVICE_PLACE {
        return None;
    }
    let service = BigEndian::read_u32(&reference[reference.len() - SERVICE_PLACE..]);
    let object = BigEndian::read_u64(&reference[reference.len() - NUMBER_PLACE..]);
    Some(Numbers { service, object })
}

/// The digest of a reference, which the references of few objects share.
fn digest_of(reference: &[u8]) -> u64
    ensures { result ≡ digest_of reference.now }
{
    match numbers_in(reference) {
        Some(numbers) => numbers
            .object
            .wrapping_add(u64::from(numbers.service) << 32),
        None => 0,
    }
}

/// Of the references from a place on, the resource to which the first one leads that is this one.
fn led_from(entries: &[(SharedReference, NamedKey)], place: usize, to: &[u8]) -> Option<NamedKey>
    ensures { option_map named result ≡ referred_in (map entry_of (drop place entries.now)) to.now }
{
    for at in place..entries.len() {
        let entry = &entries[at];
        if entry.0.is(to) {
            return Some(entry.1);
        }
    }
    None
}

/// Where no reference has such a digest yet, the first one stands at this place.
fn note(firsts: &mut HashMap<u64, usize>, digest: u64, place: usize) -> Result<(), AllocError>
    ensures ok { OnOk result ((d : ℕ) → lookup (λ k. d == k) firsts.new.entries
        ≡ option_or (lookup (λ k. d == k) firsts.old.entries) (if digest == d then Some place else None)) }
    ensures err { OnErr result (firsts.new.entries ≡ firsts.old.entries) }
{
    if firsts.get(&digest).is_none() {
        firsts.insert(digest, place)?;
    }
    Ok(())
}
