// Where the journal on a disk ends.
ghost use Rattle.std.specs.Prelude.{◌≡◌, ◌<◌, ◌^◌, drop, length, IfSome};
ghost use Rattle.nodes_parts.specs.Gated.{IsEndGate, IsLastGate, gate_behind, record_end};

use byteorder::{BigEndian, ByteOrder};

/// The place of the first gate.
const FIRST_GATE: usize = 16;

/// How many octets stand between a gate and a record's payload.
const LENGTH_OCTETS: usize = 4;

/// An open gate.
const OPEN: u8 = 1;

/// The gate of the last record, and the one at the end.
#[derive(Clone, Copy)]
pub struct Gates {
    pub last: usize,
    pub end: usize,
}

/// The gate that comes behind the record of an open gate.
pub fn next_gate(octets: &[u8], gate: usize) -> Option<usize>
    ensures next { result ≡ gate_behind gate (drop gate octets.now) }
    ensures within { IfSome result (λ next. (gate < length octets.now) × (gate < next)) }
{
    match octets.get(gate..)? {
        [OPEN, behind @ ..] => record_end(behind, gate + 1),
        _ => None,
    }
}

/// The place behind a record whose length stands first in these octets, which begin at a place.
fn record_end(octets: &[u8], place: usize) -> Option<usize>
    requires { place < 2 ^ 63 }
    ensures end { result ≡ record_end place octets.now }
{
    if octets.len() < LENGTH_OCTETS {
        return None;
    }
    Some(place + LENGTH_OCTETS + BigEndian::read_u32(octets) as usize)
}

/// The last gates of the journal in these octets.
pub fn last_gates(octets: &[u8]) -> Gates
    ensures end { IsEndGate octets.now result.end }
    ensures last { IsLastGate octets.now result.last }
{
    let mut gates = Gates {
        last: FIRST_GATE,
        end: FIRST_GATE,
    };
    while let Some(next) = next_gate(octets, gates.end) {
        gates = Gates {
            last: gates.end,
            end: next,
        };
    }
    gates
}
