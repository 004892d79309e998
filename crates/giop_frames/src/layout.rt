ghost use Rattle.std.specs.Prelude.{◌≡◌, ◌<◌, ◌≤◌};
ghost use Rattle.giop_frames.specs.Header.{profile_versions};
ghost use Rattle.giop_frames.specs.Layout.{body_alignment, layout, tail_gap};

use crate::header::Kind;
use cdr_values::gap_before;

/// A version of GIOP whose messages are known.
#[derive(Clone, Copy)]
pub enum Version {
    /// GIOP 1.2.
    V1_2,
}

static PROFILE_VERSIONS: [Version; 1] = [Version::V1_2];

/// The versions that are admitted where a call is given none (our profile).
pub fn profile_versions() -> &'static [Version]
    ensures { result.now ≡ profile_versions }
{
    &PROFILE_VERSIONS
}

/// A field in front of a message's body, as the tables of layouts list it.
#[derive(Clone, Copy)]
pub enum Field {
    /// The request_id.
    Id,
    /// The response_flags.
    Flags,
    /// An octet that is passed over.
    Reserved,
    /// The reply_status, or the locate_status.
    Status,
    /// The target.
    Target,
    /// The operation's name.
    Operation,
    /// The service contexts.
    Contexts,
}

static REQUEST: [Field; 8] = [
    Field::Id,
    Field::Flags,
    Field::Reserved,
    Field::Reserved,
    Field::Reserved,
    Field::Target,
    Field::Operation,
    Field::Contexts,
];

static REPLY: [Field; 3] = [Field::Id, Field::Status, Field::Contexts];

static CANCEL: [Field; 1] = [Field::Id];

static LOCATE: [Field; 2] = [Field::Id, Field::Target];

static LOCATED: [Field; 2] = [Field::Id, Field::Status];

/// The number in front of a target that is an object key.
pub const KEY_ADDR: u16 = 0;

/// The number in front of a target that is a profile.
pub const PROFILE_ADDR: u16 = 1;

/// The number in front of a target that is an index and a reference.
pub const REFERENCE_ADDR: u16 = 2;

/// The fields of a message of this kind, in order.
pub fn layout(version: Version, kind: Kind) -> &'static [Field]
    ensures { result.now ≡ layout version kind }
{
    match (version, kind) {
        (Version::V1_2, Kind::Request) => &REQUEST,
        (Version::V1_2, Kind::Reply) => &REPLY,
        (Version::V1_2, Kind::CancelRequest) => &CANCEL,
        (Version::V1_2, Kind::LocateRequest) => &LOCATE,
        (Version::V1_2, Kind::LocateReply) => &LOCATED,
        (Version::V1_2, Kind::CloseConnection | Kind::MessageError | Kind::Fragment) => &[],
    }
}

/// The padding in front of what a message keeps behind its fields, which end at this place.
pub fn tail_gap(version: Version, kind: Kind, place: usize) -> usize
    ensures same { result ≡ tail_gap version kind place }
    ensures within { result < 8 }
{
    match kind {
        Kind::Request | Kind::Reply => gap_before(body_alignment(version), place),
        _ => 0,
    }
}

/// The body of a Request and of a Reply stands at a multiple of this.
fn body_alignment(version: Version) -> usize
    ensures same { result ≡ body_alignment version }
    ensures within { (0 < result) × (result ≤ 8) }
{
    match version {
        Version::V1_2 => 8,
    }
}
