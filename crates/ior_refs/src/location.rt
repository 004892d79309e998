ghost use Rattle.std.specs.Prelude.{◌≡◌, ◌^◌, ◌<◌, length, IfErr, IfOk, None, Err};
ghost use Rattle.ior_refs.specs.Fault.{Finds, Gives};
ghost use Rattle.ior_refs.specs.Iiop.{components_at, first_iiop, has_components, iiop_at, iiop_in, iiop_in_octets, iiop_said};

use crate::fault::IorFault;
use crate::profile::Iiop;
use crate::reference::ObjectRef;
use crate::tagged::skip_all_tagged;
use cdr_values::Reader;
use ots_model::Octets;
use std::alloc::Global;

/// What the first IIOP profile of a reference says. Its components are judged and passed over, and it has nothing
/// behind them. Offsets count from the first octet of the profile.
pub fn iiop(alloc: Global, o: &ObjectRef) -> Result<Iiop, IorFault>
    ensures exact { Finds (λ i. i) result (iiop_in o.now) }
    ensures none { first_iiop o.now ≡ None → result ≡ Err IorFault.NoIiop }
{
    match o.first_iiop() {
        Some(octets) => iiop_of(alloc, octets),
        None => Err(IorFault::NoIiop),
    }
}

#[tactic(auto, unfolding(crate::specs::Iiop::iiop_in_octets))]
fn iiop_of(alloc: Global, octets: &[u8]) -> Result<Iiop, IorFault>
    requires { length octets.now < 2 ^ 31 }
    ensures { Finds (λ i. i) result (iiop_in_octets octets.now) }
{
    let mut reader = Reader::encapsulation(octets)?;
    let iiop = read_iiop(alloc, &mut reader)?;
    if !reader.rest().is_empty() {
        return Err(IorFault::Rest(reader.place()));
    }
    Ok(iiop)
}

#[tactic(auto, unfolding(crate::specs::Iiop::iiop_at))]
fn read_iiop(alloc: Global, reader: &mut Reader) -> Result<Iiop, IorFault>
    ensures { Gives (λ i. i) result reader.new (iiop_at reader.old) }
{
    let major = reader.octet()?;
    let minor = reader.octet()?;
    let host = reader.string()?;
    let port = reader.ushort()?;
    let key = reader.octets()?;
    skip_components(reader, has_components(major, minor))?;
    copied(alloc, (major, minor), host, port, key)
}

/// What a profile of this version says, with copies of its host and its key.
fn copied(
    alloc: Global,
    version: (u8, u8),
    host: &[u8],
    port: u16,
    key: &[u8],
) -> Result<Iiop, IorFault>
    ensures found { IfOk result (λ i. i ≡ iiop_said version host.now port key.now) }
    ensures memory { IfErr result (λ fault. fault ≡ IorFault.Memory) }
{
    let (major, minor) = version;
    let host = Octets::new(alloc, host)?;
    let key = Octets::new(alloc, key)?;
    Ok(Iiop {
        major,
        minor,
        host,
        port,
        key,
    })
}

/// Whether a profile of this version has components: from 1.1 on.
fn has_components(major: u8, minor: u8) -> bool
    ensures { result ≡ has_components major minor }
{
    major > 1 || (major == 1 && minor >= 1)
}

#[tactic(auto, unfolding(crate::specs::Iiop::components_at))]
fn skip_components(reader: &mut Reader, has_components: bool) -> Result<(), IorFault>
    ensures { Gives (λ nothing. nothing) result reader.new (components_at has_components reader.old) }
{
    if has_components {
        skip_all_tagged(reader)?;
    }
    Ok(())
}
