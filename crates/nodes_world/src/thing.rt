use ior_refs::ObjectKey;

/// What a name of a script names.
#[derive(Clone, Copy)]
pub enum Thing {
    /// The node or the end at that place in the order of making.
    Seat(u32),
    /// The transaction whose coordinator has that key.
    Transaction(ObjectKey),
    /// The resource of an end that has that key.
    Resource(ObjectKey),
}
