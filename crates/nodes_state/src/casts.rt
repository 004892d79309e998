// Whom the effects of a family speak of.
ghost use Rattle.std.specs.Prelude.{◌≡◌, IfOk, map};
ghost use Rattle.std.specs.Option.{option_map};
ghost use Rattle.coordinator.specs.Family.{Family as FamilyState};
ghost use Rattle.nodes_world.specs.Happenings as happenings;
ghost use Rattle.nodes_world.specs.Nodes as nodes;
ghost use Rattle.nodes_world.specs.World as world;
ghost use Rattle.nodes_state.specs.Telling.{AreNamesOf, kept_name, name_in};

use family_step::Family;
use ior_refs::ObjectKey;
use nodes_parts::{COORDINATOR_KIND, Directory, branch_of};
use ots_model::{Name, RefBytes};
use recovery_coord::Held;
use std::alloc::{AllocError, Global};

/// The key of a family, and who is registered with it.
#[derive(Clone, Copy)]
pub struct Cast<'a> {
    pub key: ObjectKey,
    parties: Parties<'a>,
}

/// Who is registered with a family.
#[derive(Clone, Copy)]
enum Parties<'a> {
    /// Nobody: the family is gone.
    Gone,
    /// Those of the family itself.
    Own(&'a Family),
    /// Those whose names were kept.
    Kept(&'a Roster),
}

/// The key of a family, and the names of those who are registered with it, as they are kept for when it is gone.
#[derive(Drop)]
pub struct Roster {
    key: ObjectKey,
    registered: Vec<Option<Name>>,
    synchronized: Vec<Option<Name>>,
}

/// The key of the family of a record.
pub fn key_of_record(service: u64, held: &Held) -> ObjectKey
    ensures { result ≡ nodes.key_of_record service held.now }
{
    ObjectKey {
        kind: COORDINATOR_KIND,
        service,
        life: held.life,
        slot: held.slot,
        generation: held.generation,
        index: 0,
    }
}

impl Roster {
    ghost use Rattle.nodes_state.specs.Casting.{IsRosterOf};

    /// That of a family.
    pub fn of(alloc: Global, family: &Family, names: &Directory) -> Result<Roster, AllocError>
        ensures { IfOk result
            (λ roster. (w : world.World) → AreNamesOf names.now w → IsRosterOf roster (family.now).family w) }
    {
        family.in_order();
        Ok(Roster {
            key: *family.key(),
            registered: names_registered(alloc, family, names)?,
            synchronized: names_synchronized(alloc, family, names)?,
        })
    }
}

impl<'a> Cast<'a> {
    ghost use Rattle.nodes_state.specs.Casting.{IsRosterOf, StandsFor};

    /// That of a family.
    pub fn of(family: &'a Family) -> Cast<'a>
        ensures { (w : world.World) → StandsFor result (happenings.cast_of (family.now).family) w }
    {
        family.in_order();
        Cast {
            key: *family.key(),
            parties: Parties::Own(family),
        }
    }

    /// That of a family which is gone.
    pub fn of_key(key: ObjectKey) -> Cast<'a>
        ensures { (w : world.World) → StandsFor result (happenings.cast_of_key key) w }
    {
        Cast {
            key,
            parties: Parties::Gone,
        }
    }

    /// That of a family whose names were kept.
    pub fn of_roster(roster: &'a Roster) -> Cast<'a>
        ensures { (w : world.World) (f : FamilyState) → IsRosterOf roster.now f w
            → StandsFor result (happenings.cast_of f) w }
    {
        Cast {
            key: roster.key,
            parties: Parties::Kept(roster),
        }
    }

    /// The name of a branch.
    pub fn branch(&self, names: &Directory, branch: u32) -> Option<Name>
        ensures { (w : world.World) (c : happenings.Cast) → AreNamesOf names.now w → StandsFor self.now c w
            → result ≡ happenings.branch_name w c branch }
    {
        names.transaction(&branch_of(&self.key, branch))
    }

    /// The name of the resource that is registered with a number.
    pub fn registered(&self, names: &Directory, number: u32) -> Option<Name>
        ensures { (w : world.World) (c : happenings.Cast) → AreNamesOf names.now w → StandsFor self.now c w
            → result ≡ happenings.registered w c number }
    {
        match self.parties {
            Parties::Gone => None,
            Parties::Own(family) => name_of(names, &family.registration(number)?.to),
            Parties::Kept(roster) => name_at(roster.registered.as_slice(), number),
        }
    }

    /// The name of the synchronization that is registered with a number.
    pub fn synchronized(&self, names: &Directory, number: u32) -> Option<Name>
        ensures { (w : world.World) (c : happenings.Cast) → AreNamesOf names.now w → StandsFor self.now c w
            → result ≡ happenings.synchronized w c number }
    {
        match self.parties {
            Parties::Gone => None,
            Parties::Own(family) => name_of(names, &family.synchronization(number)?.to),
            Parties::Kept(roster) => name_at(roster.synchronized.as_slice(), number),
        }
    }
}

/// The names of the resources that are registered with a family, in order.
fn names_registered(
    alloc: Global,
    family: &Family,
    names: &Directory,
) -> Result<Vec<Option<Name>>, AllocError>
    ensures { IfOk result (λ found. (w : world.World) → AreNamesOf names.now w
        → found.items ≡ map (name_in w) (family.now).family.ballots.registrations) }
{
    let mut found = Vec::new(alloc);
    for place in 0..u32::MAX {
        match family.registration(place + 1) {
            Some(registration) => found.push(name_of(names, &registration.to))?,
            None => return Ok(found),
        }
    }
    Err(AllocError)
}

/// The names of the synchronizations that are registered with a family, in order.
fn names_synchronized(
    alloc: Global,
    family: &Family,
    names: &Directory,
) -> Result<Vec<Option<Name>>, AllocError>
    ensures { IfOk result (λ found. (w : world.World) → AreNamesOf names.now w
        → found.items ≡ map (name_in w) (family.now).family.ballots.synchronizations) }
{
    let mut found = Vec::new(alloc);
    for place in 0..u32::MAX {
        match family.synchronization(place + 1) {
            Some(synchronization) => found.push(name_of(names, &synchronization.to))?,
            None => return Ok(found),
        }
    }
    Err(AllocError)
}

/// The name that is kept for a number.
fn name_at(names: &[Option<Name>], number: u32) -> Option<Name>
    ensures { result ≡ kept_name names.now number }
{
    if number == 0 {
        return None;
    }
    *names.get(number as usize - 1)?
}

/// The name of the object to which a reference leads.
fn name_of(names: &Directory, to: &RefBytes) -> Option<Name>
    ensures { (w : world.World) → AreNamesOf names.now w
        → result ≡ option_map (λ (r : world.NamedKey). r.name) (world.referred w to.now) }
{
    Some(names.referred(to.bytes())?.name)
}
