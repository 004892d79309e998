/// What was moved into a call that was refused, and why it was refused.
#[derive(Drop)]
pub struct Back<T, F> {
    /// What was moved.
    pub value: T,
    /// Why the call was refused.
    pub fault: F,
}
