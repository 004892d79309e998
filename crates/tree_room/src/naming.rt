use std::marker::Brand;

/// Which room it is: of which service, in which life. Nothing is known of what lies behind a lock but what its type says, so a
/// room and its node are of a type that names both. Each call that opens a room picks the name (`Brand`).
pub trait Naming {
    ghost use Rattle.std.specs.Prelude.{ℕ};

    /// The number of the service.
    ghost service: { ℕ };

    /// The life that it is in.
    ghost life: { ℕ };
}

impl Naming for Brand {
    ghost service = { 0 };

    ghost life = { 0 };
}
