ghost use Rattle.std.specs.Prelude.{◌≡◌, ℕ, ◌≤◌, List, Option, OnOk, OnErr};
ghost use Rattle.ots_outside.specs.Source.{CountsWithin, GivesTo, HasRisen, raised};

/// A call to the outside failed.
#[derive(Clone, Copy, Debug, PartialEq, Eq)]
pub struct Failed;

impl Failed {
    /// A failure, which raises this count of faults. The count stands still at its end.
    pub(crate) fn counted(faults: &mut u64) -> Failed
        ensures value { faults.new ≡ raised faults.old }
        ensures risen { HasRisen faults.old faults.new }
        ensures later { faults.old ≤ faults.new }
    {
        *faults = faults.saturating_add(1);
        Failed
    }
}

/// Where octets come from.
pub trait Source {
    /// How often the source has failed.
    ghost faults: { Self → ℕ };

    /// The octets that are left, where the source tells them.
    ghost remaining: { Self → Option (List ℕ) };

    /// Reads some octets into the front of the piece, and says how many. 0 is the end, where the piece isn't empty.
    fn read(&mut self, into: &mut [u8]) -> Result<usize, Failed>
        ensures count { CountsWithin result into.old }
        ensures octets { GivesTo result into.old into.new (remaining self.old) (remaining self.new) }
        ensures untouched { OnErr result (remaining self.new ≡ remaining self.old) }
        ensures calm { OnOk result (faults self.new ≡ faults self.old) }
        ensures cause { OnErr result (HasRisen (faults self.old) (faults self.new)) }
        ensures later { faults self.old ≤ faults self.new };
}
