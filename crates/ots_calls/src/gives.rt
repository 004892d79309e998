/// What an operation gives where it raises no exception.
#[derive(Clone, Copy, PartialEq, Eq)]
pub enum Gives {
    /// Nothing.
    Nothing,
    /// A boolean.
    Flag,
    /// An unsigned long.
    Number,
    /// A reference.
    Reference,
    /// A Status.
    State,
    /// A Vote.
    Ballot,
    /// A string.
    Word,
    /// A PropagationContext.
    Transaction,
    /// Whether there is a value, and the value.
    Found,
}
