use crate::octets::Octets;

/// How a transaction stands (`Status` of module CosTransactions).
#[derive(Clone, Copy, Debug, PartialEq, Eq)]
pub enum Status {
    /// StatusActive: it is going on.
    Active,
    /// StatusMarkedRollback: it can only be rolled back.
    MarkedRollback,
    /// StatusPrepared: it waits for the outcome of its superior.
    Prepared,
    /// StatusCommitted.
    Committed,
    /// StatusRolledBack.
    RolledBack,
    /// StatusUnknown: nobody can tell at present.
    Unknown,
    /// StatusNoTransaction: there is none.
    NoTransaction,
    /// StatusPreparing: its participants are asked for their votes.
    Preparing,
    /// StatusCommitting: its participants are told to commit.
    Committing,
    /// StatusRollingBack: its participants are told to roll back.
    RollingBack,
}

/// What the dispositions of several participants make together, beside what was decided.
#[derive(Clone, Copy, Debug, PartialEq, Eq)]
pub enum Join {
    /// Each did as was decided, as far as anything is known.
    Nothing,
    /// All did the other thing than they were told.
    Opposite,
    /// Some updates were committed and others rolled back (HeuristicMixed).
    Mixed,
    /// What became of some updates isn't known, and all known ones agree (HeuristicHazard).
    Hazard,
}

/// What names a call of a client, so that a repeat of it is known (our profile).
#[derive(Clone, Copy, Debug, PartialEq, Eq)]
pub struct RetryKey {
    /// The client.
    pub client: u64,
    /// The call, among those of its client.
    pub number: u64,
}

/// Where a server listens (ProfileBody of IIOP).
#[derive(Drop)]
pub struct Endpoint {
    /// The name or the address of its machine, as octets of text.
    pub host: Octets,
    /// Its TCP port.
    pub port: u16,
}
