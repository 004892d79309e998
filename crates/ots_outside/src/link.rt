ghost use Rattle.std.specs.Prelude.{◌≡◌, ℕ, ◌≤◌, ◌++◌, List, Option, IfSome, IsErrOf, OnErr, OnOk, drop, length};
ghost use Rattle.ots_outside.specs.declared.link.LinkRefusal.TheVariants.{Failed, Memory};
ghost use Rattle.ots_outside.specs.Links.{Exchanges, LeavesCount};
ghost use Rattle.ots_outside.specs.declared.link.Exchange.{Exchange as Exchanged};
ghost use Rattle.ots_outside.specs.Source.{HasRisen};

use ots_model::{Endpoint, Octets};
use std::alloc::{AllocError, AllocFailed};

/// Why a link refuses a call.
#[derive(Clone, Copy, Debug, PartialEq, Eq)]
pub enum LinkRefusal {
    /// The call failed: nobody knows whether the other side has got it.
    Failed,
    /// Memory ran out; here too the call may have gone out.
    Memory,
}

impl From<AllocError> for LinkRefusal {
    ghost from_gives = { λ _ refusal. refusal ≡ Memory };

    fn from(_: AllocError) -> Self {
        LinkRefusal::Memory
    }
}

impl<T: Drop> From<AllocFailed<T>> for LinkRefusal {
    ghost from_gives = { λ _ refusal. refusal ≡ Memory };

    fn from(_: AllocFailed<T>) -> Self {
        LinkRefusal::Memory
    }
}

/// What came of an exchange.
#[derive(Drop)]
pub enum Outcome {
    /// These octets were answered.
    Replied(Octets),
    /// The call was refused.
    Refused(LinkRefusal),
}

/// One exchange of a link.
#[derive(Drop)]
pub struct Exchange {
    /// Where it went.
    pub to: Endpoint,
    /// The octets that were sent.
    pub request: Octets,
    /// What came of it.
    pub outcome: Outcome,
}

/// A way to other places.
pub trait Link {
    /// How often the link has failed.
    ghost faults: { Self → ℕ };

    /// The exchanges so far, the last one last, where the link tells them.
    ghost exchanged: { Self → Option (List Exchanged) };

    /// Sends the octets of a request to a place, and puts the octets that are answered behind `reply`.
    fn invoke(
        &mut self,
        to: &Endpoint,
        request: &[u8],
        reply: &mut Vec<u8>,
    ) -> Result<(), LinkRefusal>
        ensures exchange { IfSome (exchanged self.old) (λ done. Exchanges done to.now request.now result
            (drop (length reply.old.items) reply.new.items) (exchanged self.new)) }
        ensures front { OnOk result (reply.new.items
            ≡ reply.old.items ++ drop (length reply.old.items) reply.new.items) }
        ensures unsaid { OnErr result (reply.new.items ≡ reply.old.items) }
        ensures cause { IsErrOf result Failed → HasRisen (faults self.old) (faults self.new) }
        ensures calm { LeavesCount result (faults self.old) (faults self.new) }
        ensures later { faults self.old ≤ faults self.new };
}
