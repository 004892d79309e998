ghost use Rattle.std.specs.Prelude.{◌≡◌, ◌≤◌, ℕ, Bool, false, IfOk, Result as Said};
ghost use Rattle.ior_refs.specs.declared.key.ObjectKey.{ObjectKey as Key};
ghost use Rattle.ots_calls.specs.declared.answer.Answer.{Answer as Answered};
ghost use Rattle.ots_calls.specs.declared.call.Called.{Called as Asked};
ghost use Rattle.ots_sessions.specs.Replies.{IsWritable, is_common};
ghost use Rattle.ots_sessions.specs.declared.fault.ServeFault.{ServeFault as Fault};

use crate::fault::ServeFault;
use ior_refs::ObjectKey;
use ots_calls::{Answer, Called};

/// What answers the calls of requests: the objects of a service, or of a resource's end.
pub trait Servant {
    /// How often its way to other places has failed.
    ghost faults: { Self → ℕ };

    /// What is known of it before and after it told whether there is the object of a key.
    ghost finds: { Self → Key → Bool → Self → Type 0 };

    /// What is known of it before and after a call that it answered so.
    ghost answers: { Self → Asked → Answered → Self → Type 0 };

    /// What is known of it before and after its clock went on, and of what it said then.
    ghost ticks: { Self → Said (Unit {0}) Fault → Self → Type 0 };

    /// Whether there is the object of a key.
    fn is_there(&mut self, key: &ObjectKey) -> bool
        ensures there { finds self.old key.now result self.new }
        ensures later { faults self.old ≤ faults self.new };

    /// The answer of a call on one of its objects. It is no call that every object has: `_is_a` and `_non_existent` are
    /// answered by `is_there`.
    fn answer(&mut self, called: &Called) -> Result<Answer, ServeFault>
        requires own { is_common (called.now).call ≡ false }
        ensures answer { IfOk result (λ answer. answers self.old called.now answer self.new) }
        ensures later { faults self.old ≤ faults self.new }
        ensures short { IfOk result IsWritable };

    /// Its clock goes on, and the words go out that are to be told then. Memory is the answer where it was wanting on the way;
    /// the next tick goes on with what is left.
    fn tick(&mut self) -> Result<(), ServeFault>
        ensures ticked { ticks self.old result self.new }
        ensures later { faults self.old ≤ faults self.new };

    /// Waits until the next tick.
    fn pause(&mut self);
}
