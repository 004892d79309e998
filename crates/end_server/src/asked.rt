// What a call asks of an end.
ghost use Rattle.std.specs.Prelude.{◌≡◌};
ghost use Rattle.end_server.specs.Serving as serving;

use ots_calls::{Bare, Call, Handing};
use resource_end::Word;

/// What a call asks of an end.
#[derive(Clone, Copy)]
pub(crate) enum Asked {
    /// To put this value into the cell of this number.
    Put(u64, u64),
    /// What is in the cell of this number.
    Get(u64),
    /// To tell a resource this word.
    Word(Word),
    /// To tell a resource how its subtransaction ended.
    Subtransaction,
    /// What nobody can do here.
    Other,
}

/// What a call asks.
pub(crate) fn asked_of(call: &Call) -> Asked
    ensures { result ≡ serving.asked_of call.now }
{
    match call {
        Call::Put(cell, value) => Asked::Put(*cell, *value),
        Call::Get(cell) => Asked::Get(*cell),
        Call::Bare(bare) => asked_by(*bare),
        Call::Handing(Handing::CommitSubtransaction, _) => Asked::Subtransaction,
        _ => Asked::Other,
    }
}

/// What an operation asks that takes nothing.
fn asked_by(bare: Bare) -> Asked
    ensures { result ≡ serving.asked_by bare }
{
    match bare {
        Bare::Prepare => Asked::Word(Word::Prepare),
        Bare::Commit => Asked::Word(Word::Commit),
        Bare::Rollback => Asked::Word(Word::Rollback),
        Bare::CommitOnePhase => Asked::Word(Word::CommitOnePhase),
        Bare::Forget => Asked::Word(Word::Forget),
        Bare::RollbackSubtransaction => Asked::Subtransaction,
        _ => Asked::Other,
    }
}
