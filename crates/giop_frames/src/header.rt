ghost use Rattle.std.specs.Prelude.{◌≡◌, ◌≢◌, ◌||◌, ◌≤◌, length, nat_eq, take, drop, IfErr, IfOk, Some};
ghost use Rattle.std.specs.List.{starts_with};
ghost use Rattle.cdr_values.specs.Value.{number_in};
ghost use Rattle.giop_frames.specs.Limits.{size_limit};
ghost use Rattle.giop_frames.specs.Header.{kind_at, type_octet, order_of_flags, more_of_flags, is_fragment, header_at, header_of, magic, version_at, version_octets};

use crate::fault::{FrameFault, SIZE_LIMIT};
use crate::layout::Version;
use byteorder::{BigEndian, ByteOrder, LittleEndian};
use cdr_values::Order;

/// How many octets a header has.
pub const HEADER_LENGTH: usize = 12;

pub const MAGIC: [u8; 4] = *b"GIOP";

/// The types of messages (GIOP 1.2, message_type).
#[derive(Clone, Copy)]
pub enum Kind {
    Request,
    Reply,
    CancelRequest,
    LocateRequest,
    LocateReply,
    CloseConnection,
    MessageError,
    Fragment,
}

impl Kind {
    /// The type that the octet stands for.
    fn from_octet(octet: u8) -> Kind
        requires { octet ≤ 7 }
        ensures { result ≡ kind_at octet }
    {
        match octet {
            0 => Kind::Request,
            1 => Kind::Reply,
            2 => Kind::CancelRequest,
            3 => Kind::LocateRequest,
            4 => Kind::LocateReply,
            5 => Kind::CloseConnection,
            6 => Kind::MessageError,
            _ => Kind::Fragment,
        }
    }

    /// The octet that stands for the type.
    pub fn octet(self) -> u8
        ensures { result ≡ type_octet self }
    {
        match self {
            Kind::Request => 0,
            Kind::Reply => 1,
            Kind::CancelRequest => 2,
            Kind::LocateRequest => 3,
            Kind::LocateReply => 4,
            Kind::CloseConnection => 5,
            Kind::MessageError => 6,
            Kind::Fragment => 7,
        }
    }
}

/// What the header of a part says.
#[derive(Clone, Copy)]
pub struct Header {
    /// The version of its message.
    pub version: Version,
    /// The byte order of the part's numbers.
    pub order: Order,
    /// Whether more fragments follow.
    pub more: bool,
    pub kind: Kind,
    /// How many octets stand behind the header.
    pub size: u32,
}

impl Header {
    /// Whether a message has other parts beside this one.
    pub fn is_fragmented(&self) -> bool
        ensures { result ≡ (self.now.more || is_fragment self.now.kind) }
    {
        self.more || self.is_fragment()
    }

    /// Whether the part goes on with a message.
    pub fn is_fragment(&self) -> bool
        ensures { result ≡ is_fragment self.now.kind }
    {
        matches!(self.kind, Kind::Fragment)
    }
}

/// The header in front of a part of one of these versions, or its first fault, as its octets come.
#[tactic(auto, unfolding(crate::specs::Header::header_at))]
pub fn read_header(versions: &[Version], octets: &[u8]) -> Result<Header, FrameFault>
    ensures header { result ≡ header_at versions.now octets.now }
    ensures small { IfOk result (λ header. header.size ≤ size_limit) }
    ensures memory { IfErr result (λ fault. fault ≢ FrameFault.Memory) }
{
    if !is_magic_begun(octets) {
        return Err(FrameFault::BadMagic);
    }
    match version_at(versions, front(behind(octets, 4), 2)) {
        Some(version) => read_behind(version, octets),
        None if octets.len() > 4 => Err(FrameFault::BadVersion),
        None => Err(FrameFault::Short),
    }
}

/// Whether the magic begins with these octets, or they with it.
fn is_magic_begun(octets: &[u8]) -> bool
    ensures { result ≡ starts_with nat_eq magic (take 4 octets.now) }
{
    // Where all four octets have come, each of them is compared in place.
    let [first, second, third, fourth, ..] = octets else {
        return MAGIC.starts_with(octets);
    };
    *first == MAGIC[0] && *second == MAGIC[1] && *third == MAGIC[2] && *fourth == MAGIC[3]
}

/// The header of this version behind its magic and version.
pub fn read_behind(version: Version, octets: &[u8]) -> Result<Header, FrameFault>
    ensures header { result ≡ header_of (Some version) octets.now }
    ensures small { IfOk result (λ header. header.size ≤ size_limit) }
    ensures memory { IfErr result (λ fault. fault ≢ FrameFault.Memory) }
{
    if octets.len() > 7 && octets[7] > 7 {
        return Err(FrameFault::BadType);
    }
    if octets.len() < HEADER_LENGTH {
        return Err(FrameFault::Short);
    }
    let order = order_of_flags(octets[6]);
    let size = size_in(order, &octets[8..12]);
    if size as usize > SIZE_LIMIT {
        return Err(FrameFault::TooLarge(size));
    }
    Ok(Header {
        version,
        order,
        more: more_of_flags(version, octets[6]),
        kind: Kind::from_octet(octets[7]),
        size,
    })
}

/// The version whose octets these are, of those that are admitted; where octets are wanting, the first that they begin.
pub fn version_at(versions: &[Version], octets: &[u8]) -> Option<Version>
    ensures { result ≡ version_at versions.now octets.now }
{
    for version in versions {
        if is_begun(*version, octets) {
            return Some(*version);
        }
    }
    None
}

/// Whether the octets of the version begin with these.
fn is_begun(version: Version, octets: &[u8]) -> bool
    ensures { result ≡ starts_with nat_eq (version_octets version) octets.now }
{
    version_octets(version).starts_with(octets)
}

/// The octets of the version: the major one, and the minor one.
pub fn version_octets(version: Version) -> [u8; 2]
    ensures { result ≡ version_octets version }
{
    match version {
        Version::V1_2 => [1, 2],
    }
}

/// The first n octets, or all of them where there are fewer.
pub fn front(octets: &[u8], n: usize) -> &[u8]
    ensures { result.now ≡ take n octets.now }
{
    if octets.len() < n {
        octets
    } else {
        &octets[..n]
    }
}

/// The octets behind the first n.
pub fn behind(octets: &[u8], n: usize) -> &[u8]
    ensures { result.now ≡ drop n octets.now }
{
    if octets.len() < n { &[] } else { &octets[n..] }
}

fn more_of_flags(version: Version, flags: u8) -> bool
    ensures { result ≡ more_of_flags version flags }
{
    match version {
        Version::V1_2 => flags / 2 % 2 == 1,
    }
}

fn order_of_flags(flags: u8) -> Order
    ensures { result ≡ order_of_flags flags }
{
    if flags % 2 == 1 {
        Order::Little
    } else {
        Order::Big
    }
}

fn size_in(order: Order, octets: &[u8]) -> u32
    requires { 4 ≤ length octets.now }
    ensures { result ≡ number_in order 4 octets.now }
{
    match order {
        Order::Big => BigEndian::read_u32(octets),
        Order::Little => LittleEndian::read_u32(octets),
    }
}
