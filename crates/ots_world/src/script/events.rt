ghost use Rattle.std.specs.Prelude.{◌≡◌, false, codes};
ghost use Rattle.std.specs.Str.{bytes_eq};
ghost use Rattle.ots_world.specs.Script.{Gives, WantsMemory, event_of_names, event_of_one, event_of_server, event_of_three, event_of_two, stop};

use crate::script::words::{
    decision, flag, image, name, number, positive, quantity, relation, seconds, whose,
};
use crate::script::{ScriptEvent, ScriptFault};
use std::alloc::Global;

// The event of a line with one word behind the first. Lines that let messages flow are most of a long script.
#[tactic(auto, unfolding(crate::specs::Script::event_of_one))]
pub(super) fn event_of_one(word: &[u8], first: &[u8]) -> Option<ScriptEvent>
    ensures { result ≡ event_of_one word.now first.now }
{
    match word {
        b"flow" => quantity(first).map(ScriptEvent::Flow),
        _ => other_event_of_one(word, first),
    }
}

// The same of a line whose first word isn't `flow`.
#[tactic(auto, unfolding(crate::specs::Script::event_of_one))]
fn other_event_of_one(word: &[u8], first: &[u8]) -> Option<ScriptEvent>
    requires other { bytes_eq word.now (codes "flow") ≡ false }
    ensures { result ≡ event_of_one word.now first.now }
{
    if word == b"node".as_slice() {
        name(first).map(ScriptEvent::Node)
    } else if word == b"end".as_slice() {
        name(first).map(ScriptEvent::End)
    } else if word == b"refuse".as_slice() {
        name(first).map(ScriptEvent::Refuse)
    } else if word == b"balk".as_slice() {
        name(first).map(ScriptEvent::Balk)
    } else if word == b"rollback".as_slice() {
        name(first).map(ScriptEvent::Rollback)
    } else if word == b"mark".as_slice() {
        name(first).map(ScriptEvent::Mark)
    } else if word == b"name".as_slice() {
        name(first).map(ScriptEvent::NameOf)
    } else if word == b"hash".as_slice() {
        name(first).map(ScriptEvent::Hash)
    } else if word == b"crash".as_slice() {
        name(first).map(ScriptEvent::Crash)
    } else if word == b"restart".as_slice() {
        name(first).map(ScriptEvent::Restart)
    } else if word == b"deliver".as_slice() {
        number(first).map(ScriptEvent::Deliver)
    } else if word == b"lose".as_slice() {
        number(first).map(ScriptEvent::Lose)
    } else if word == b"giveup".as_slice() {
        number(first).map(ScriptEvent::GiveUp)
    } else {
        None
    }
}

// The event of a line with two words behind the first.
#[tactic(auto, unfolding(crate::specs::Script::event_of_two))]
pub(super) fn event_of_two(word: &[u8], first: &[u8], second: &[u8]) -> Option<ScriptEvent>
    ensures { result ≡ event_of_two word.now first.now second.now }
{
    if word == b"sub".as_slice() {
        Some(ScriptEvent::Sub {
            parent: name(first)?,
            transaction: name(second)?,
        })
    } else if word == b"get".as_slice() {
        Some(ScriptEvent::Get {
            resource: name(first)?,
            cell: number(second)?,
        })
    } else if word == b"choose".as_slice() {
        Some(ScriptEvent::Choose {
            resource: name(first)?,
            decision: decision(second)?,
        })
    } else if word == b"commit".as_slice() {
        Some(ScriptEvent::Commit {
            transaction: name(first)?,
            reports: flag(second)?,
        })
    } else if word == b"status".as_slice() {
        Some(ScriptEvent::Status {
            transaction: name(first)?,
            whose: whose(second)?,
        })
    } else {
        event_of_server(word, first, second)
    }
}

// The event of a line with a server and a number behind the first word.
#[tactic(auto, unfolding(crate::specs::Script::event_of_server))]
fn event_of_server(word: &[u8], first: &[u8], second: &[u8]) -> Option<ScriptEvent>
    ensures { result ≡ event_of_server word.now first.now second.now }
{
    if word == b"tick".as_slice() {
        Some(ScriptEvent::Tick {
            server: name(first)?,
            seconds: number(second)?,
        })
    } else if word == b"fail".as_slice() {
        Some(ScriptEvent::Fail {
            server: name(first)?,
            call: positive(second)?,
        })
    } else {
        None
    }
}

// The event of a line with three words behind the first, which is not `stop`.
#[tactic(auto, unfolding(crate::specs::Script::event_of_three))]
pub(super) fn event_of_three(
    word: &[u8],
    first: &[u8],
    second: &[u8],
    third: &[u8],
) -> Option<ScriptEvent>
    ensures { result ≡ event_of_three word.now first.now second.now third.now }
{
    if word == b"begin".as_slice() {
        Some(ScriptEvent::Begin {
            node: name(first)?,
            transaction: name(second)?,
            seconds: seconds(third)?,
        })
    } else if word == b"put".as_slice() {
        Some(ScriptEvent::Put {
            resource: name(first)?,
            cell: number(second)?,
            value: number(third)?,
        })
    } else if word == b"rel".as_slice() {
        Some(ScriptEvent::Relate {
            relation: relation(first)?,
            transaction: name(second)?,
            other: name(third)?,
        })
    } else {
        event_of_names(word, first, second, third)
    }
}

// The event of a line with three names behind the first word.
#[tactic(auto, unfolding(crate::specs::Script::event_of_names))]
fn event_of_names(word: &[u8], first: &[u8], second: &[u8], third: &[u8]) -> Option<ScriptEvent>
    ensures { result ≡ event_of_names word.now first.now second.now third.now }
{
    if word == b"register".as_slice() {
        Some(ScriptEvent::Register {
            transaction: name(first)?,
            end: name(second)?,
            resource: name(third)?,
        })
    } else if word == b"aware".as_slice() {
        Some(ScriptEvent::Aware {
            transaction: name(first)?,
            end: name(second)?,
            resource: name(third)?,
        })
    } else if word == b"double".as_slice() {
        Some(ScriptEvent::Double {
            transaction: name(first)?,
            end: name(second)?,
            resource: name(third)?,
        })
    } else if word == b"sync".as_slice() {
        Some(ScriptEvent::Sync {
            transaction: name(first)?,
            end: name(second)?,
            synchronization: name(third)?,
        })
    } else if word == b"import".as_slice() {
        Some(ScriptEvent::Import {
            node: name(first)?,
            transaction: name(second)?,
            subordinate: name(third)?,
        })
    } else {
        None
    }
}

// The event of the words behind `stop`.
#[tactic(auto, unfolding(crate::specs::Script::stop))]
pub(super) fn stop(
    alloc: Global,
    first: &[u8],
    second: &[u8],
    third: &[u8],
) -> Result<ScriptEvent, ScriptFault>
    ensures { Gives WantsMemory result (stop first.now second.now third.now) }
{
    let server = name(first).ok_or(ScriptFault::BadLine)?;
    let write = positive(second).ok_or(ScriptFault::BadLine)?;
    Ok(ScriptEvent::Stop {
        server,
        write,
        image: image(alloc, third)?,
    })
}
