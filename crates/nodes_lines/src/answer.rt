ghost use Rattle.std.specs.Prelude.{◌≡◌, true};
ghost use Rattle.nodes_world.specs.Told.{answer_part, flag_word, status_word};
ghost use Rattle.ots_model.specs.Piece.{Fixed};
ghost use Rattle.ots_model.specs.Pieces.{part_of};
ghost use Rattle.nodes_lines.specs.Words.{has_word};

use coordinator::Said;
use ots_model::{Piece, Status};

/// The word of a line that shows an answer: what is given, or the exception by its bare name.
pub fn answer_piece(answer: &Said) -> Piece<'_>
    ensures { part_of result ≡ answer_part answer.now }
{
    match answer {
        Said::Number(number) => Piece::Number(u64::from(*number)),
        Said::Name(name) => Piece::Text(name.bytes()),
        other => Piece::Text(answer_word(other)),
    }
}

/// What it shows of one that is no number and no name.
fn answer_word(answer: &Said) -> &'static [u8]
    requires { has_word answer.now ≡ true }
    ensures { Fixed result.now ≡ answer_part answer.now }
{
    match answer {
        Said::Flag(yes) => flag_word(*yes),
        Said::State(status) => status_word(*status),
        Said::Voted(vote) => vote.text(),
        Said::Later => b"later",
        Said::TransactionRolledBack => b"TRANSACTION_ROLLEDBACK",
        Said::HeuristicMixed => b"HeuristicMixed",
        Said::HeuristicHazard => b"HeuristicHazard",
        Said::HeuristicRollback => b"HeuristicRollback",
        Said::HeuristicCommit => b"HeuristicCommit",
        Said::CommFailure => b"COMM_FAILURE",
        Said::PersistStore => b"PERSIST_STORE",
        Said::NoMemory => b"NO_MEMORY",
        Said::InvalidTransaction => b"INVALID_TRANSACTION",
        Said::Inactive => b"Inactive",
        Said::NotPrepared => b"NotPrepared",
        Said::Transient => b"TRANSIENT",
        Said::Unavailable => b"Unavailable",
        Said::NotSubtransaction => b"NotSubtransaction",
        Said::SynchronizationUnavailable => b"SynchronizationUnavailable",
        Said::SubtransactionsUnavailable => b"SubtransactionsUnavailable",
        Said::NoResources => b"NO_RESOURCES",
        Said::ObjectNotExist => b"OBJECT_NOT_EXIST",
        Said::NoImplement => b"NO_IMPLEMENT",
        _ => b"ok",
    }
}

fn flag_word(flag: bool) -> &'static [u8]
    ensures { result.now ≡ flag_word flag }
{
    if flag { b"true" } else { b"false" }
}

/// A status, by its name in module CosTransactions without the word Status.
fn status_word(status: Status) -> &'static [u8]
    ensures { result.now ≡ status_word status }
{
    match status {
        Status::Active => b"Active",
        Status::MarkedRollback => b"MarkedRollback",
        Status::Prepared => b"Prepared",
        Status::Committed => b"Committed",
        Status::RolledBack => b"RolledBack",
        Status::Unknown => b"Unknown",
        Status::NoTransaction => b"NoTransaction",
        Status::Preparing => b"Preparing",
        Status::Committing => b"Committing",
        Status::RollingBack => b"RollingBack",
    }
}
