ghost use Rattle.std.specs.Prelude.{◌≡◌, ◌≢◌, ◌+◌, ◌<◌, ◌≤◌, ℕ, List, [], ◌∷◌, ◌++◌, length, take, drop, Option, None, IfErr, IfOk, IfSome, OnErr, OnOk, Ok, Err};
ghost use Rattle.giop_frames.specs.Limits.{size_limit};
ghost use Rattle.giop_frames.specs.Header.{header_at, header_of, version_at};
ghost use Rattle.giop_frames.specs.HeaderWalk.{IsFront, IsRefusal, IsSound, Judges, taken};

use crate::fault::FrameFault;
use crate::header::{HEADER_LENGTH, Header, MAGIC, front, read_behind, read_header, version_at};
use crate::layout::Version;

/// The major version of each version of GIOP.
const MAJOR: u8 = 1;

/// A walk over the octets of a header, as they come. It is given each octet once, judges it, and keeps it where it may
/// stand there.
#[derive(Clone, Copy)]
pub struct HeaderWalk {
    /// How many octets it has taken.
    pub(crate) count: usize,
    /// The octets that it has taken, in front.
    pub(crate) octets: [u8; 12],
    /// The version whose octets stand behind the magic, once one has come.
    pub(crate) version: Option<Version>,
    /// What the header says, once it is whole.
    pub(crate) header: Option<Header>,
}

impl HeaderWalk {
    /// A walk in front of a header.
    pub fn new() -> HeaderWalk
        ensures sound { (versions : List Version) → IsSound versions result }
        ensures nothing { result.count ≡ 0 }
    {
        HeaderWalk {
            count: 0,
            octets: [0; 12],
            version: None,
            header: None,
        }
    }

    /// How many octets it has taken.
    pub fn count(&self) -> usize
        ensures { result ≡ self.now.count }
    {
        self.count
    }

    /// Goes on over the octets that follow those which it has taken: the header, or its first fault. It takes no octet
    /// that is refused, and none behind the header.
    pub fn go_on(&mut self, versions: &[Version], octets: &[u8]) -> Result<Header, FrameFault>
        requires { IsSound versions.now self.old }
        ensures sound { IsSound versions.now self.new }
        ensures header { result ≡ header_at versions.now (taken self.old ++ octets.now) }
        ensures taken { taken self.new ≡ take self.new.count (taken self.old ++ octets.now) }
        ensures within { self.new.count ≤ self.old.count + length octets.now }
        ensures all { IfErr result (λ fault. fault ≡ FrameFault.Short
            → self.new.count ≡ self.old.count + length octets.now) }
        ensures whole { OnOk result (self.new.count ≡ 12) }
        ensures small { IfOk result (λ header. header.size ≤ size_limit) }
        ensures memory { IfErr result (λ fault. fault ≢ FrameFault.Memory) }
    {
        if let Some(header) = self.header {
            return Ok(header);
        }
        if self.count == 0 && octets.len() >= HEADER_LENGTH {
            return self.take_whole(versions, octets);
        }
        for octet in octets {
            if let Some(header) = self.take(versions, *octet)? {
                return Ok(header);
            }
        }
        Err(FrameFault::Short)
    }

    /// Takes the header that stands whole in front of the octets, where none was taken: the header, or its first fault.
    fn take_whole(&mut self, versions: &[Version], octets: &[u8]) -> Result<Header, FrameFault>
        requires sound { IsSound versions.now self.old }
        requires nothing { self.old.count ≡ 0 }
        requires whole { 12 ≤ length octets.now }
        ensures sound { IsSound versions.now self.new }
        ensures header { result ≡ header_at versions.now octets.now }
        ensures taken { taken self.new ≡ take self.new.count octets.now }
        ensures whole { OnOk result (self.new.count ≡ 12) }
        ensures none { OnErr result (self.new.count ≡ 0) }
        ensures small { IfOk result (λ header. header.size ≤ size_limit) }
        ensures refused { IfErr result IsRefusal }
    {
        let header = read_header(versions, octets)?;
        self.octets.copy_from_slice(front(octets, HEADER_LENGTH));
        self.count = HEADER_LENGTH;
        self.version = Some(header.version);
        self.header = Some(header);
        Ok(header)
    }

    /// Takes one more octet, where it may stand there: the header, where it is whole then.
    fn take(&mut self, versions: &[Version], octet: u8) -> Result<Option<Header>, FrameFault>
        requires sound { IsSound versions.now self.old }
        requires partial { self.old.header ≡ None }
        ensures sound { IsSound versions.now self.new }
        ensures header { IfOk result (λ header. self.new.header ≡ header) }
        ensures taken { OnOk result (taken self.new ≡ taken self.old ++ octet ∷ []) }
        ensures refused { IfErr result (λ fault.
            (header_at versions.now (taken self.old ++ octet ∷ []) ≡ Err fault) × IsRefusal fault) }
        ensures err { OnErr result (self.new ≡ self.old) }
    {
        let version = judge(versions, self.version, self.count, octet)?;
        let mut octets = self.octets;
        octets[self.count] = octet;
        let count = self.count + 1;
        let header = whole(version, count, &octets)?;
        *self = HeaderWalk {
            count,
            octets,
            version,
            header,
        };
        Ok(header)
    }
}

/// Whether an octet may stand behind so many of a header's front, of this version: the version that the front then has.
fn judge(
    versions: &[Version],
    version: Option<Version>,
    count: usize,
    octet: u8,
) -> Result<Option<Version>, FrameFault>
    requires { count < 12 }
    ensures { (front : List ℕ) → length front ≡ count → IsFront versions.now front version
        → Judges versions.now (front ++ octet ∷ []) result }
{
    if count < 4 {
        if octet != MAGIC[count] {
            return Err(FrameFault::BadMagic);
        }
        return Ok(version);
    }
    if count < 6 {
        return match version_behind(versions, count, octet) {
            None => Err(FrameFault::BadVersion),
            Some(found) => Ok(Some(found)),
        };
    }
    if count == 7 && octet > 7 {
        return Err(FrameFault::BadType);
    }
    Ok(version)
}

/// The version that an octet tells, as the major one or behind it.
fn version_behind(versions: &[Version], count: usize, octet: u8) -> Option<Version>
    requires { (4 ≤ count) × (count < 6) }
    ensures { (front : List ℕ) (version : Option Version) → length front ≡ count → IsFront versions.now front version
        → result ≡ version_at versions.now (take 2 (drop 4 (front ++ octet ∷ []))) }
{
    if count == 4 {
        version_at(versions, &[octet])
    } else {
        version_at(versions, &[MAJOR, octet])
    }
}

/// What a header of this version says, once its octets are as many as one has.
fn whole(
    version: Option<Version>,
    count: usize,
    octets: &[u8],
) -> Result<Option<Header>, FrameFault>
    requires { (length octets.now ≡ 12) × (count ≤ 12) }
    ensures found { IfOk result (λ found. IfSome found (λ header.
        (count ≡ 12) × (header_of version octets.now ≡ Ok header))) }
    ensures partial { IfOk result (λ found. found ≡ None → count < 12) }
    ensures refused { IfErr result (λ fault.
        (count ≡ 12) × (header_of version octets.now ≡ Err fault) × (fault ≢ FrameFault.Memory)) }
{
    if count < HEADER_LENGTH {
        return Ok(None);
    }
    let Some(version) = version else {
        return Err(FrameFault::BadVersion);
    };
    Ok(Some(read_behind(version, octets)?))
}
