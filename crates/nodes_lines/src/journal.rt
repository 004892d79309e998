// The line of a journal, which may be long: its digits are written a chunk at a time.
ghost use Rattle.std.specs.Prelude.{◌≡◌, ◌≤◌, ◌++◌, [], ◌∷◌, length, take, OnOk, OnErr};
ghost use Rattle.hex.specs.Hex.{encode_lower};
ghost use Rattle.nodes_world.specs.Told as told;
ghost use Rattle.nodes_lines.specs.Telling.{IsTold};

use ots_model::Name;
use std::alloc::AllocError;

/// How many octets have their digits written at once.
const CHUNK: usize = 256;

/// How many octets the line has at most beside their digits: those of the words in front, of the octet behind them and
/// of the line feed.
const BESIDE: usize = 24;

/// The octets of a journal, and one behind them.
pub fn tell_journal(
    lines: &mut Vec<u8>,
    server: Name,
    octets: &[u8],
    gate: u8,
) -> Result<(), AllocError>
    ensures { IsTold result (told.Journal server (octets.now ++ gate ∷ [])) lines.old.items lines.new.items }
{
    let start = lines.len();
    let told = write_journal(lines, server, octets, gate);
    if told.is_err() {
        lines.truncate(start);
    }
    told
}

/// Writes the line. Want of memory leaves what stood there in front.
fn write_journal(
    lines: &mut Vec<u8>,
    server: Name,
    octets: &[u8],
    gate: u8,
) -> Result<(), AllocError>
    ensures ok { OnOk result
        (lines.new.items ≡ lines.old.items ++ told.spelled (told.Journal server (octets.now ++ gate ∷ []))) }
    ensures err { OnErr result (take (length lines.old.items) lines.new.items ≡ lines.old.items) }
{
    lines.reserve(octets.len().saturating_mul(2).saturating_add(BESIDE))?;
    lines.extend_from_slice(b"journal ")?;
    lines.extend_from_slice(server.octets())?;
    lines.push(b' ')?;
    write_digits(lines, octets)?;
    write_chunk(lines, &[gate])?;
    lines.push(b'\n')?;
    Ok(())
}

/// Writes octets in hexadecimal digits. Want of memory leaves what stood there in front.
fn write_digits(lines: &mut Vec<u8>, octets: &[u8]) -> Result<(), AllocError>
    ensures ok { OnOk result (lines.new.items ≡ lines.old.items ++ encode_lower octets.now) }
    ensures err { OnErr result (take (length lines.old.items) lines.new.items ≡ lines.old.items) }
{
    for chunk in octets.chunks(CHUNK) {
        write_chunk(lines, chunk)?;
    }
    Ok(())
}

/// Writes a few octets in hexadecimal digits.
fn write_chunk(lines: &mut Vec<u8>, octets: &[u8]) -> Result<(), AllocError>
    requires few { length octets.now ≤ 256 }
    ensures ok { OnOk result (lines.new.items ≡ lines.old.items ++ encode_lower octets.now) }
    ensures err { OnErr result (lines.new.items ≡ lines.old.items) }
{
    let mut room = [0; 2 * CHUNK];
    let digits = &mut room[..2 * octets.len()];
    let Ok(()) = hex::encode_to_slice(octets, digits) else {
        unreachable!();
    };
    lines.extend_from_slice(digits)
}
