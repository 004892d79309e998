ghost use Rattle.std.specs.Prelude.{◌≡◌, ◌≤◌, ◌^◌, ◌<◌, length, take, IfErr, IfOk};
ghost use Rattle.giop_frames.specs.Header.{profile_versions};
ghost use Rattle.giop_frames.specs.Message.{IsMessage};
ghost use Rattle.giop_frames.specs.Decode.{Decodes, FindsKept, FindsWhatStands, IsRefusedForGood, TellsFault};

use crate::content::read_message;
use crate::fault::FrameFault;
use crate::header::{HEADER_LENGTH, read_header};
use crate::laws::fields_are_read_exactly;
use crate::layout::{Version, profile_versions};
use crate::message::Message;
use std::alloc::Global;

/// A message, and how many octets spell it.
#[derive(Drop)]
pub struct Decoded {
    /// The message.
    pub message: Message,
    /// How many octets it has, with its header.
    pub used: u32,
}

/// The message of version 1.2 in front of the octets, of one part, whatever follows it. A part with the "more fragments"
/// bit and a Fragment are BadFragment.
pub fn decode(alloc: Global, bytes: &[u8]) -> Result<Decoded, FrameFault>
    requires { length bytes.now < 2 ^ 31 }
    ensures within { IfOk result (λ d. d.used ≤ length bytes.now) }
    ensures found { IfOk result (λ d. IsMessage profile_versions d.message (take d.used bytes.now)) }
    ensures only { FindsWhatStands profile_versions bytes.now result }
    ensures exact { Decodes profile_versions bytes.now result }
    ensures told { TellsFault profile_versions bytes.now result }
    ensures memory { IfErr result (λ fault. fault ≡ FrameFault.Memory → FindsKept profile_versions bytes.now) }
    ensures stays { IfErr result (IsRefusedForGood profile_versions bytes.now) }
{
    decode_as(alloc, profile_versions(), bytes)
}

/// The message of one of these versions in front of the octets, as `decode` reads one of version 1.2.
pub fn decode_as(alloc: Global, versions: &[Version], bytes: &[u8]) -> Result<Decoded, FrameFault>
    requires { length bytes.now < 2 ^ 31 }
    ensures within { IfOk result (λ d. d.used ≤ length bytes.now) }
    ensures found { IfOk result (λ d. IsMessage versions.now d.message (take d.used bytes.now)) }
    ensures only { FindsWhatStands versions.now bytes.now result }
    ensures exact { Decodes versions.now bytes.now result }
    ensures told { TellsFault versions.now bytes.now result }
    ensures memory { IfErr result (λ fault. fault ≡ FrameFault.Memory → FindsKept versions.now bytes.now) }
    ensures stays { IfErr result (IsRefusedForGood versions.now bytes.now) }
{
    fields_are_read_exactly();
    decode_front(alloc, versions, bytes)
}

#[tactic(auto, unfolding(crate::specs::Decode::decoded))]
fn decode_front(alloc: Global, versions: &[Version], bytes: &[u8]) -> Result<Decoded, FrameFault>
    requires { length bytes.now < 2 ^ 31 }
    ensures exact { Decodes versions.now bytes.now result }
    ensures told { TellsFault versions.now bytes.now result }
    ensures memory { IfErr result (λ fault. fault ≡ FrameFault.Memory → FindsKept versions.now bytes.now) }
{
    let header = read_header(versions, bytes)?;
    if header.is_fragmented() {
        return Err(FrameFault::BadFragment);
    }
    let used = HEADER_LENGTH + header.size as usize;
    if bytes.len() < used {
        return Err(FrameFault::Short);
    }
    let content = &bytes[HEADER_LENGTH..used];
    let found = read_message(alloc, header, content)?;
    Ok(Decoded {
        message: found.message,
        used: used as u32,
    })
}
