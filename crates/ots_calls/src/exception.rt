ghost use Rattle.std.specs.Prelude.{◌≡◌};
ghost use Rattle.std.specs.Str.{bytes_eq};
ghost use Rattle.ots_calls.specs.Exception.{user_id, user_named};

/// A user exception of module CosTransactions.
#[derive(Clone, Copy, Debug)]
pub enum UserException {
    /// HeuristicRollback: the updates were rolled back.
    HeuristicRollback,
    /// HeuristicCommit: the updates were committed.
    HeuristicCommit,
    /// HeuristicMixed: some updates were committed and others rolled back.
    HeuristicMixed,
    /// HeuristicHazard: what became of some updates isn't known.
    HeuristicHazard,
    /// Inactive: the transaction has gone too far.
    Inactive,
    /// NotPrepared: the resource isn't prepared.
    NotPrepared,
    /// NotSubtransaction: the transaction is a top-level one.
    NotSubtransaction,
    /// SubtransactionsUnavailable: the transaction can have no further subtransaction.
    SubtransactionsUnavailable,
    /// SynchronizationUnavailable: the transaction has no synchronizations.
    SynchronizationUnavailable,
    /// Unavailable: what was asked for isn't given.
    Unavailable,
}

/// The user exceptions.
const USER_EXCEPTIONS: [UserException; 10] = [
    UserException::HeuristicRollback,
    UserException::HeuristicCommit,
    UserException::HeuristicMixed,
    UserException::HeuristicHazard,
    UserException::Inactive,
    UserException::NotPrepared,
    UserException::NotSubtransaction,
    UserException::SubtransactionsUnavailable,
    UserException::SynchronizationUnavailable,
    UserException::Unavailable,
];

impl UserException {
    /// The user exception of this repository id.
    #[tactic(auto, unfolding(crate::specs::Exception::user_named))]
    pub fn named(id: &[u8]) -> Option<UserException>
        ensures { result ≡ user_named id.now }
    {
        for one in &USER_EXCEPTIONS {
            if has_id(*one, id) {
                return Some(*one);
            }
        }
        None
    }

    /// Its repository id.
    pub fn id(self) -> &'static [u8]
        ensures { result.now ≡ user_id self }
    {
        match self {
            UserException::HeuristicRollback =>
                b"IDL:omg.org/CosTransactions/HeuristicRollback:1.0",
            UserException::HeuristicCommit => b"IDL:omg.org/CosTransactions/HeuristicCommit:1.0",
            UserException::HeuristicMixed => b"IDL:omg.org/CosTransactions/HeuristicMixed:1.0",
            UserException::HeuristicHazard => b"IDL:omg.org/CosTransactions/HeuristicHazard:1.0",
            UserException::Inactive => b"IDL:omg.org/CosTransactions/Inactive:1.0",
            UserException::NotPrepared => b"IDL:omg.org/CosTransactions/NotPrepared:1.0",
            UserException::NotSubtransaction =>
                b"IDL:omg.org/CosTransactions/NotSubtransaction:1.0",
            UserException::SubtransactionsUnavailable =>
                b"IDL:omg.org/CosTransactions/SubtransactionsUnavailable:1.0",
            UserException::SynchronizationUnavailable =>
                b"IDL:omg.org/CosTransactions/SynchronizationUnavailable:1.0",
            UserException::Unavailable => b"IDL:omg.org/CosTransactions/Unavailable:1.0",
        }
    }
}

/// Whether the exception has this repository id.
pub(crate) fn has_id(one: UserException, id: &[u8]) -> bool
    ensures { result ≡ bytes_eq id.now (user_id one) }
{
    id == one.id()
}
