// Who is registered with a family.
ghost use Rattle.std.specs.Prelude.{◌≡◌, ◌<◌};
ghost use Rattle.std.specs.Option.{option_copied};
ghost use Rattle.resource_votes.specs.Ballots as ballots;
ghost use Rattle.resource_votes.specs.Limits.{list_count};
ghost use Rattle.family_rules.specs.Order.{AreInOrder};

use crate::state::State;
use resource_votes::{Registration, Walk};

impl State {
    /// Each registration has the number of its place, counted from 1, and so has each synchronization.
    pub fn in_order(&self)
        ensures registrations { AreInOrder (self.now.family).ballots.registrations }
        ensures synchronizations { AreInOrder (self.now.family).ballots.synchronizations }
    {
        let _ = &self.votes;
    }

    /// The registration with this number.
    pub fn registration(&self, number: u32) -> Option<&Registration>
        ensures { option_copied result ≡ ballots.numbered (self.now.family).ballots.registrations number }
    {
        self.votes.registration(number)
    }

    /// The synchronization with this number.
    pub fn synchronization(&self, number: u32) -> Option<&Registration>
        ensures { option_copied result ≡ ballots.numbered (self.now.family).ballots.synchronizations number }
    {
        self.votes.sync(number)
    }

    /// Whom a transaction asks, in the order in which it asks them.
    pub fn participants(&self, branch: u32) -> Walk<'_>
        requires there { branch < list_count }
        ensures { result ≡ ballots.participants branch (self.now.family).ballots }
    {
        self.votes.participants(branch)
    }
}
