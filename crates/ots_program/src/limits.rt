/// How many lines a script has at most.
pub const LINES_LIMIT: u64 = 100_000;

/// How many octets a script has at most, line feeds included.
pub const OCTETS_LIMIT: u64 = 16_777_216;

/// How many octets a journal has at most.
pub const AREA_LIMIT: u64 = 67_108_864;
