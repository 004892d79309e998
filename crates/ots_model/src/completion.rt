//! The types of the two phases of a completion: what participants are told and answer, the calls that carry it, how the
//! transaction ends, and whether its decision record stands.

/// What a participant is told (the operations of interface Resource).
#[derive(Clone, Copy, Debug, PartialEq, Eq)]
pub enum Word {
    /// `prepare`: vote.
    Prepare,
    /// `commit`: make the updates last.
    Commit,
    /// `commit_one_phase`: decide alone, as the only participant.
    CommitOnePhase,
    /// `rollback`: undo the updates.
    Rollback,
}

/// A resource's answer to prepare (`Vote` of module CosTransactions).
#[derive(Clone, Copy, Debug, PartialEq, Eq)]
pub enum Vote {
    /// It is prepared, and will do as it is told.
    VoteCommit,
    /// It has rolled back.
    VoteRollback,
    /// It has changed nothing, and needs no further word.
    VoteReadOnly,
}

/// What became of the updates of a participant.
#[derive(Clone, Copy)]
pub enum Disposition {
    /// They were committed.
    Committed,
    /// They were rolled back.
    RolledBack,
    /// Some were committed and others rolled back.
    Mixed,
    /// That is not known.
    Unknown,
}

/// What may be heard of each outward call, whatever it says.
#[derive(Clone, Copy)]
pub enum Heard {
    /// It was answered plainly.
    Done,
    /// A vote.
    Voted(Vote),
    /// A heuristic exception.
    Heuristic(Disposition),
    /// TRANSACTION_ROLLEDBACK.
    RolledBack,
    /// NotPrepared.
    NotPrepared,
    /// OBJECT_NOT_EXIST.
    NoObject,
    /// Any other answer.
    Other,
    /// The call failed, and nothing is known of it.
    Lost,
    /// Memory was wanted in writing the request, in the call or in reading the reply.
    Starved,
}

/// The number of an outward call, which names it among all calls of a node.
#[derive(Clone, Copy, Debug, PartialEq, Eq)]
pub struct CallNumber {
    /// The life of the node that makes it.
    pub life: u32,
    /// The slot of the tree that makes it.
    pub slot: u32,
    /// The generation of that tree.
    pub generation: u64,
    /// The place among the tree's calls, from 1.
    pub serial: u32,
}

/// Which decision record a commit word rests on.
#[derive(Clone, Copy)]
pub struct Receipt {
    /// The record's place in the journal.
    pub place: u32,
    /// The registration that the record names.
    pub registration: u32,
}

/// Why the votes or the journal roll a transaction back. `G` is what names a registration: its index, counted from 1,
/// or its name.
#[derive(Clone, Copy, Debug, PartialEq, Eq)]
pub enum Reason<G = u32> {
    /// That registration voted rollback.
    Vote(G),
    /// That registration's prepare was lost.
    PrepareLost(G),
    /// That registration's prepare wanted memory.
    PrepareStarved(G),
    /// That registration answered its prepare with no vote.
    PrepareFault(G),
    /// The journal, of which so much is used, has no room for a record of such a need.
    JournalFull(u64, u64),
}

/// What a commit rests on.
#[derive(Clone, Copy, Debug, PartialEq, Eq)]
pub enum Ground {
    /// A decision record that stands, and names each registration that voted commit.
    Record,
    /// The plain answer of the only participant to `commit_one_phase`.
    OnePhase,
    /// No participant waits for the outcome: each has voted read-only, or there is none.
    Nobody,
}

/// How a transaction ends. `R` is what tells why it is rolled back.
#[derive(Clone, Copy, Debug, PartialEq, Eq)]
pub enum Outcome<R> {
    /// It commits.
    Commit(Ground),
    /// It rolls back.
    Rollback(R),
    /// That can't be known: a resource that was to decide alone didn't tell.
    Unknown,
}

/// What a journal answers to the append of a decision record.
#[derive(Clone, Copy)]
pub enum Stood {
    /// The record stands at that place.
    Stands(u32),
    /// There is no room: so much is used, and so much is needed.
    Full(u64, u64),
    /// It may stand or not.
    Unsure(Doubted),
}

/// Why nobody knows whether a record stands.
#[derive(Clone, Copy)]
pub enum Doubted {
    /// The disk failed: its count of faults before and after.
    Counted(u64, u64),
    /// The octets at that place stand for no journal.
    Damaged(u32),
    /// The disk wanted memory.
    Starved,
}
