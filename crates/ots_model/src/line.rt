ghost use Rattle.std.specs.Prelude.{◌≡◌, ◌++◌, OnOk, OnErr};
ghost use Rattle.ots_model.specs.LineLaws.{DifferentLinesDiffer, TextReadsBack};
ghost use Rattle.ots_model.specs.Line.{spelling};

use crate::completion::{Outcome, Reason, Vote, Word};
use crate::name::Name;
use crate::piece::Piece::{Named, Number, Text};
use crate::piece::write_line;
use crate::words::ending_text;
use std::alloc::AllocError;

/// What became of a resource.
#[derive(Clone, Copy)]
pub enum ResourceState {
    /// It keeps its updates and waits for the outcome.
    Prepared,
    /// Its updates are stored.
    Applied,
    /// Its updates are dropped.
    Undone,
    /// It is known no more.
    Forgotten,
}

/// What the service decides of a transaction, or a resource learns.
#[derive(Clone, Copy, Debug, PartialEq, Eq)]
pub enum Decision {
    /// To commit.
    Commit,
    /// To roll back.
    Rollback,
}

/// One thing that happened, which is told by one line of output.
#[derive(Clone, Copy)]
pub enum Line {
    /// A node or an end runs, in that life.
    Up {
        server: Name,
        life: u32,
    },
    /// A top-level transaction was made at a node.
    Top {
        transaction: Name,
        node: Name,
    },
    /// A subtransaction of the parent was made.
    Sub {
        transaction: Name,
        parent: Name,
    },
    /// A transaction was imported at a node, as a subordinate of its superior.
    Imp {
        subordinate: Name,
        superior: Name,
        node: Name,
    },
    /// A resource of an end was registered with a transaction.
    Reg {
        resource: Name,
        transaction: Name,
        end: Name,
    },
    /// A request goes out to a registration.
    Send {
        message: u32,
        word: Word,
        registration: Name,
    },
    /// A message was delivered.
    Recv {
        message: u32,
    },
    /// A registration's vote was counted.
    Voted {
        registration: Name,
        vote: Vote,
    },
    /// The outcome of a transaction is fixed.
    Decide {
        transaction: Name,
        outcome: Outcome<Reason<Name>>,
    },
    /// A subtransaction ended, committed or rolled back.
    SubDone {
        transaction: Name,
        committed: bool,
    },
    /// A resource is in a new state.
    State {
        resource: Name,
        state: ResourceState,
    },
    /// A registration learnt the outcome by asking.
    Learn {
        registration: Name,
        decision: Decision,
    },
    /// All participants have completed, and that is recorded.
    Done {
        transaction: Name,
    },
}

/// Writes the line whose words stand beside a value in a table; behind the table, what writes the other values.
macro_rules! write_row {
    ($lines:ident, $value:expr, $($row:pat => [$($word:expr),+],)+ $(; $other:pat => $write:expr)?) => {
        match $value {
            $($row => write_line($lines, &[$($word),+]),)+
            $($other => $write,)?
        }
    };
}

impl Line {
    /// Writes the line at the end. Want of memory leaves what stood there.
    #[tactic(auto, unfolding(crate::specs::Line::spelling, crate::specs::Line::parts))]
    pub fn write(&self, lines: &mut Vec<u8>) -> Result<(), AllocError>
        ensures ok { OnOk result (lines.new.items ≡ lines.old.items ++ spelling self.now) }
        ensures err { OnErr result (lines.new.items ≡ lines.old.items) }
    {
        write_row! { lines, *self,
            Line::Up { server, life } => [Text(b"up"), Named(server), Number(u64::from(life))],
            Line::Top { transaction, node } => [Text(b"top"), Named(transaction), Named(node)],
            Line::Sub { transaction, parent } => [Text(b"sub"), Named(transaction), Named(parent)],
            Line::Imp { subordinate, superior, node } => [Text(b"imp"), Named(subordinate), Named(superior), Named(node)],
            Line::Reg { resource, transaction, end } => [Text(b"reg"), Named(resource), Named(transaction), Named(end)],
            Line::Send { message, word, registration } => [Text(b"send"), Number(u64::from(message)), Text(word.text()), Named(registration)],
            Line::Recv { message } => [Text(b"recv"), Number(u64::from(message))],
            Line::Voted { registration, vote } => [Text(b"vote"), Named(registration), Text(vote.text())],
            Line::SubDone { transaction, committed } => [Text(b"subdone"), Named(transaction), Text(ending_text(committed))],
            Line::State { resource, state } => [Text(b"state"), Named(resource), Text(state.text())],
            Line::Learn { registration, decision } => [Text(b"learn"), Named(registration), Text(decision.text())],
            Line::Done { transaction } => [Text(b"done"), Named(transaction)],
            ; Line::Decide { transaction, outcome } => write_decide(lines, transaction, outcome)
        }
    }
}

/// Writes the line that tells the outcome of a transaction. Want of memory leaves what stood there.
#[tactic(auto, unfolding(crate::specs::Line::spelling, crate::specs::Line::parts))]
fn write_decide(
    lines: &mut Vec<u8>,
    transaction: Name,
    outcome: Outcome<Reason<Name>>,
) -> Result<(), AllocError>
    ensures ok { OnOk result (lines.new.items ≡ lines.old.items ++ spelling (Line.Decide transaction outcome)) }
    ensures err { OnErr result (lines.new.items ≡ lines.old.items) }
{
    let (decide, name, rollback) = (Text(b"decide"), Named(transaction), Text(b"rollback"));
    write_row! { lines, outcome,
        Outcome::Commit(basis) => [decide, name, Text(b"commit"), Text(basis.text())],
        Outcome::Rollback(Reason::Vote(g)) => [decide, name, rollback, Text(b"Vote"), Named(g)],
        Outcome::Rollback(Reason::PrepareLost(g)) => [decide, name, rollback, Text(b"PrepareLost"), Named(g)],
        Outcome::Rollback(Reason::PrepareStarved(g)) => [decide, name, rollback, Text(b"PrepareStarved"), Named(g)],
        Outcome::Rollback(Reason::PrepareFault(g)) => [decide, name, rollback, Text(b"PrepareFault"), Named(g)],
        Outcome::Rollback(Reason::JournalFull(used, need)) => [decide, name, rollback, Text(b"JournalFull"), Number(used), Number(need)],
        Outcome::Unknown => [decide, name, Text(b"unknown")],
    }
}

/// Two lines that are spelled alike are one line, if their names are names and their numbers are below 2^64.
/// The function does nothing: its contract is the law.
#[tactic(auto, using(crate::proofs::TextReads::different_lines))]
pub fn different_lines_differ()
    ensures { DifferentLinesDiffer }
{}

/// A text tells which lines it was made of, and which octets stand behind the last of them, if those hold no line
/// feed: two texts that are equal were made of the same lines in the same order, with the same octets behind them.
/// The function does nothing: its contract is the law.
#[tactic(auto, using(crate::proofs::TextReads::text_reads))]
pub fn text_reads_back()
    ensures { TextReadsBack }
{}
