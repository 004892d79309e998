//! Tests of a reference to an object of this service, and of the names and hashes of transactions.

use ior_refs::{ObjectKey, ObjectRef, make_ref};
use otid_names::{Otid, OwnNumbers, name_of, own_hash};
use ots_model::{Endpoint, Octets};
use std::alloc::Global;
use std::test::Fail;

/// The canonical octets of the reference to the first resource of the service 2, at e1 and port 1.
const RESOURCE: &str =
    "0000002949444c3a6f6d672e6f72672f436f735472616e73616374696f6e732f5265736f757263653a312e300000000000000001000000000000003800010200000000036531000000010000000000204f5453520000000000000002000000010000000000000000000000010000000000000000";

fn resource(alloc: Global) -> Result<ObjectRef, Fail> {
    let host = Octets::new(alloc, b"e1")?;
    let key = ObjectKey {
        kind: b'R',
        service: 2,
        life: 1,
        slot: 0,
        generation: 1,
        index: 0,
    };
    let type_id = b"IDL:omg.org/CosTransactions/Resource:1.0";
    Ok(make_ref(alloc, type_id, &Endpoint { host, port: 1 }, &key)?)
}

/// A reference that is read from the octets of this one.
fn read_again(alloc: Global, reference: &ObjectRef) -> Result<ObjectRef, Fail> {
    let octets = reference.to_bytes(alloc)?;
    Ok(ObjectRef::from_bytes(alloc, &octets)?)
}

#[test]
fn our_own_reference_has_its_octets(rt: HostRuntime) -> Result<(), Fail> {
    let made = resource(rt.alloc())?;
    let digits = hex::encode(rt.alloc(), made.bytes())?;
    assert!(rt; digits.as_str() == RESOURCE);
    assert!(rt; read_again(rt.alloc(), &made)?.bytes() == made.bytes());
    Ok(())
}

fn numbers(generation: u64) -> OwnNumbers {
    OwnNumbers {
        service: 1,
        life: 1,
        generation,
        branch: 0,
    }
}

fn own_name(alloc: Global) -> Result<Octets, Fail> {
    let own = Otid::own(alloc, &numbers(1))?;
    Ok(name_of(alloc, &own)?)
}

fn foreign_name(alloc: Global) -> Result<Octets, Fail> {
    let foreign = Otid::new(alloc, -3, 1, b"\x0a\xff")?;
    Ok(name_of(alloc, &foreign)?)
}

#[test]
fn otids_have_their_names_and_hashes(rt: HostRuntime) -> Result<(), Fail> {
    assert!(rt; own_hash(&numbers(1)) == 1_060_830_211);
    assert!(rt; own_name(rt.alloc())?.bytes() == b"1.1.1.0".as_slice());
    assert!(rt; foreign_name(rt.alloc())?.bytes() == b"-3.0aff".as_slice());
    Ok(())
}

/// Chance would put 391 of them into a slot, and with four deviations of 20 between 312 and 470.
#[test]
fn hashes_spread_as_evenly_as_chance(rt: HostRuntime) {
    let mut counts = [0u32; 256];
    for generation in 1..=100_000 {
        let slot = (own_hash(&numbers(generation)) % 256) as usize;
        counts[slot] = counts[slot].wrapping_add(1);
    }
    for count in counts {
        assert!(rt; count >= 312 && count <= 470);
    }
}
