// How far the calls have come that end transactions of a family.
use otid_names::Otid;
use ots_model::RefBytes;

/// Of a subordinate, the transaction that it belongs to.
#[derive(Drop)]
pub struct Superior {
    /// Its superior's coordinator.
    pub coordinator: RefBytes,
    /// Its otid.
    pub otid: Otid,
}

/// How far the top-level transaction has come.
#[derive(Clone, Copy)]
pub enum Stage {
    /// No call has begun to end it.
    Going,
    /// Its commit has begun, and nobody was asked.
    Finishing,
    /// Its completion is under way.
    Completing,
    /// It has ended.
    Over,
}

/// How far a call has come. The last three are those of the top-level transaction alone.
#[derive(Clone, Copy)]
pub enum Leg {
    /// Live subtransactions below its transaction are rolled back.
    Below,
    /// The resources of its own subtransaction are told.
    Own,
    /// So many synchronizations were sent `before_completion`.
    Before(u32),
    /// Its completion asks and tells the participants.
    Deciding,
    /// So many synchronizations were sent `after_completion`.
    After(u32),
}

/// What the end of a subtransaction has for a resource.
#[derive(Clone, Copy)]
pub enum Ending {
    /// One that is told of its end learns of the rollback.
    TellsRollback,
    /// It learns of the commit into this parent.
    TellsCommit(u32),
    /// One of its list is rolled back.
    RollsBackUpdates,
}
