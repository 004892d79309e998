/// The order in which the octets of a number stand.
#[derive(Clone, Copy, Debug, PartialEq, Eq)]
pub enum Order {
    /// The highest octet first.
    Big,
    /// The lowest octet first.
    Little,
}
