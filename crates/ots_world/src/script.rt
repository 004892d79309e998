ghost use Rattle.ots_world.specs.Script.{reading, Reads, Gives, WantsMemory, event_of, words};

use events::{event_of_one, event_of_three, event_of_two, stop};
use ots_model::{Decision, Name, Octets};
use std::alloc::Global;
use words::first_word;

mod events;
mod words;

/// How many octets a line has at most, its line feed not counted.
pub const LINE_LIMIT: usize = 65_536;

/// How many messages one line delivers at most.
pub const FLOW_LIMIT: u32 = 1_000_000;

/// How many octets the image of a crash has at most.
pub const IMAGE_LIMIT: usize = 30_000;

/// Whose status is asked.
#[derive(Clone, Copy, Debug, PartialEq, Eq)]
pub enum Whose {
    /// The transaction's own.
    Own,
    /// Its parent's.
    Parent,
    /// That of its top-level ancestor.
    Top,
}

/// How two transactions are related (interface Coordinator).
#[derive(Clone, Copy, Debug, PartialEq, Eq)]
pub enum Relation {
    /// They are the same.
    Same,
    /// The first is an ancestor of the second.
    Ancestor,
    /// The first is a descendant of the second.
    Descendant,
    /// They have a common ancestor.
    Related,
}

/// What stands, after a crash, of what was written and not synced.
#[derive(Debug, Drop)]
pub enum Image {
    /// What stood before.
    Old,
    /// What was written.
    New,
    /// These octets.
    Octets(Octets),
}

/// What one line of a script says. A world refuses those that it doesn't accept yet.
#[derive(Debug, Drop)]
pub enum ScriptEvent {
    /// `node N`: a node is made.
    Node(Name),
    /// `end E`: an end is made, which has resources.
    End(Name),
    /// `begin N T S`: a top-level transaction, to be timed out after so many seconds, or never.
    Begin {
        node: Name,
        transaction: Name,
        seconds: u32,
    },
    /// `sub P T`: a subtransaction of the parent.
    Sub {
        parent: Name,
        transaction: Name,
    },
    /// `register T E G`: a resource of the end is registered with the transaction.
    Register {
        transaction: Name,
        end: Name,
        resource: Name,
    },
    /// `aware T E G`: a resource that is told of the subtransaction's end alone.
    Aware {
        transaction: Name,
        end: Name,
        resource: Name,
    },
    /// `double T E G`: a resource that is told of that end too.
    Double {
        transaction: Name,
        end: Name,
        resource: Name,
    },
    /// `sync T E Y`: a synchronization.
    Sync {
        transaction: Name,
        end: Name,
        synchronization: Name,
    },
    /// `put G C V`: a value is put into a cell.
    Put {
        resource: Name,
        cell: u64,
        value: u64,
    },
    /// `get G C`: a cell is read.
    Get {
        resource: Name,
        cell: u64,
    },
    /// `refuse G`: the resource is to vote rollback.
    Refuse(Name),
    /// `choose G D`: a prepared resource takes a heuristic decision.
    Choose {
        resource: Name,
        decision: Decision,
    },
    /// `balk X`: the object answers INTERNAL from now on.
    Balk(Name),
    /// `commit T R`: commit, with or without reports of heuristic outcomes.
    Commit {
        transaction: Name,
        reports: bool,
    },
    /// `rollback T`: roll back.
    Rollback(Name),
    /// `mark T`: the transaction can only be rolled back from now on.
    Mark(Name),
    /// `status T W`: a status is asked.
    Status {
        transaction: Name,
        whose: Whose,
    },
    /// `rel W T U`: a relation is asked, of the first to the second.
    Relate {
        relation: Relation,
        transaction: Name,
        other: Name,
    },
    /// `name T`: the transaction's name is asked.
    NameOf(Name),
    /// `hash T`: the transaction's hash is asked.
    Hash(Name),
    /// `import N T U`: the node takes part in the transaction, by a subordinate.
    Import {
        node: Name,
        transaction: Name,
        subordinate: Name,
    },
    /// `flow K`: up to so many messages are delivered, in the order of their numbers.
    Flow(u32),
    /// `deliver M`: that message is delivered, again or not.
    Deliver(u64),
    /// `lose M`: that message is passed over from now on.
    Lose(u64),
    /// `giveup M`: the sender of that request waits no longer.
    GiveUp(u64),
    /// `tick X S`: so many seconds go by at a node or an end.
    Tick {
        server: Name,
        seconds: u64,
    },
    /// `crash X`: it goes down.
    Crash(Name),
    /// `restart X`: it comes up again.
    Restart(Name),
    /// `stop X K I`: it crashes inside its K-th disk write from now.
    Stop {
        server: Name,
        write: u64,
        image: Image,
    },
    /// `fail X K`: its K-th disk call from now fails.
    Fail {
        server: Name,
        call: u64,
    },
}

/// Why a line is no event.
#[derive(Clone, Copy, Debug, PartialEq, Eq)]
pub enum ScriptFault {
    /// It is outside the grammar.
    BadLine,
    /// Memory ran out.
    Memory,
}

/// What a line says, without its line feed: an event, or nothing where it is empty or a comment.
#[tactic(auto, unfolding(crate::specs::Script::reading))]
pub fn parse_line(alloc: Global, bytes: &[u8]) -> Result<Option<ScriptEvent>, ScriptFault>
    ensures exact { Reads result (reading bytes.now) }
{
    if bytes.len() > LINE_LIMIT {
        return Err(ScriptFault::BadLine);
    }
    match bytes {
        [] | [b'#', ..] => Ok(None),
        _ => Ok(Some(event_of(alloc, bytes)?)),
    }
}

#[tactic(auto, using(crate::proofs::ScriptLemmas::five_words))]
fn event_of(alloc: Global, line: &[u8]) -> Result<ScriptEvent, ScriptFault>
    ensures { Gives WantsMemory result (event_of (words line.now)) }
{
    let (word, Some(rest)) = first_word(line) else {
        return Err(ScriptFault::BadLine);
    };
    let (first, rest) = first_word(rest);
    let Some(rest) = rest else {
        return event_of_one(word, first).ok_or(ScriptFault::BadLine);
    };
    let (second, rest) = first_word(rest);
    let Some(rest) = rest else {
        return event_of_two(word, first, second).ok_or(ScriptFault::BadLine);
    };
    let (third, rest) = first_word(rest);
    if rest.is_some() {
        return Err(ScriptFault::BadLine);
    }
    if word == b"stop".as_slice() {
        stop(alloc, first, second, third)
    } else {
        event_of_three(word, first, second, third).ok_or(ScriptFault::BadLine)
    }
}
