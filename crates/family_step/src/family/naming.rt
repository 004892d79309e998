// Whether a family has the object that a key names.
ghost use Rattle.std.specs.Prelude.{◌≡◌};
ghost use Rattle.coordinator.specs.Objects as objects;

use super::Family;
use crate::table::has_terminator;
use family_rules::TOP;

impl Family {
    /// Whether there is the object of it that keys of this kind name by this number: a control, a coordinator or a
    /// terminator by its branch, a recovery coordinator by its registration, and the resource of a subordinate by 0.
    pub fn names(&self, kind: u8, index: u32) -> bool
        ensures { result ≡ objects.has_object self.now.family kind index }
    {
        match kind {
            b'C' | b'K' => self.state.has_branch(index),
            b'T' => has_terminator(&self.state, index),
            b'V' => self.state.has_registration(index),
            b'U' => index == TOP && !self.state.is_root(),
            _ => false,
        }
    }
}
