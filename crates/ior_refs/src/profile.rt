use ots_model::Octets;

/// What an IIOP profile says (ProfileBody of IIOP), without its components.
#[derive(Drop)]
pub struct Iiop {
    /// The major version.
    pub major: u8,
    /// The minor version.
    pub minor: u8,
    /// The name or the address of the machine.
    pub host: Octets,
    /// The TCP port.
    pub port: u16,
    /// The object key.
    pub key: Octets,
}
