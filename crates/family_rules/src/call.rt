// Calls under way, as they are kept.
ghost use Rattle.std.specs.Prelude.{◌≡◌};
ghost use Rattle.family_rules.specs.Calls.{said_of};
ghost use Rattle.family_rules.specs.Outs.{out_of};

use coordinator::{Ending, Leg, Said};
use std::collections::VecDeque;

/// That is still to be told to the registration with this number.
#[derive(Clone, Copy)]
pub(crate) struct Task {
    pub ending: Ending,
    pub registration: u32,
}

/// What a call that ends is answered.
#[derive(Clone, Copy)]
pub enum Reply {
    Plain,
    RolledBack,
    Mixed,
    Hazard,
    CommFailure,
    PersistStore,
    NoMemory,
}

impl Reply {
    /// As it is said.
    pub fn said(self) -> Said
        ensures { result ≡ said_of self }
    {
        match self {
            Reply::Plain => Said::Plain,
            Reply::RolledBack => Said::TransactionRolledBack,
            Reply::Mixed => Said::HeuristicMixed,
            Reply::Hazard => Said::HeuristicHazard,
            Reply::CommFailure => Said::CommFailure,
            Reply::PersistStore => Said::PersistStore,
            Reply::NoMemory => Said::NoMemory,
        }
    }
}

/// What a call is for.
#[derive(Clone, Copy)]
pub enum Aim {
    /// To commit its transaction, where reports may be asked for.
    Commits(bool),
    /// To roll it back, and then to say so.
    RollsBack(Reply),
}

/// A call under way, which ends its transaction.
#[derive(Clone, Copy)]
pub(crate) struct Call {
    /// The place in the history of the entry that waits for its answer; a tick waits for none.
    pub caller: Option<u32>,
    pub aim: Aim,
    pub leg: Leg,
    /// Whether it has still to tell what its seat has left.
    pub owes: bool,
    /// The serial number of its word that is out.
    pub out: Option<u32>,
}

/// The place of a transaction's call.
#[derive(Drop)]
pub(crate) struct Seat {
    pub call: Option<Call>,
    /// What is to be told before the call goes on, where it owes that.
    pub left: VecDeque<Task>,
}

impl Seat {
    /// The serial number of the word whose answer its call awaits.
    pub(crate) fn awaited(&self) -> Option<u32>
        ensures { result ≡ out_of self.now.call }
    {
        self.call?.out
    }
}
