ghost use Rattle.std.specs.Prelude.{◌≡◌, ℕ, ◌≤◌, List, Option, length, IfOk, OnOk, OnErr};
ghost use Rattle.ots_outside.specs.Source.{HasRisen};
ghost use Rattle.ots_outside.specs.Sink.{Takes, TakesPart};

use crate::source::Failed;

/// Where octets go.
pub trait Sink {
    /// How often the sink has failed.
    ghost faults: { Self → ℕ };

    /// The octets that it has taken so far, where the sink tells them.
    ghost taken: { Self → Option (List ℕ) };

    /// Writes the octets. Where it fails, some of them went out, from the front.
    fn write(&mut self, bytes: &[u8]) -> Result<(), Failed>
        ensures whole { OnOk result (Takes (taken self.old) bytes.now (taken self.new)) }
        ensures part { OnErr result (TakesPart (taken self.old) bytes.now (taken self.new)) }
        ensures calm { OnOk result (faults self.new ≡ faults self.old) }
        ensures cause { OnErr result (HasRisen (faults self.old) (faults self.new)) }
        ensures later { faults self.old ≤ faults self.new };
}
