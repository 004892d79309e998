ghost use Rattle.nodes_world.specs.Told as told;
ghost use Rattle.nodes_lines.specs.Telling.{IsTold};

use crate::answer::answer_piece;
use crate::words::{phase_word, state_word};
use coordinator::Said;
use ots_model::Piece::{Named, Number, Text};
use ots_model::tree::Word;
use ots_model::{Line, Name, PhaseWord, ResourceState, Vote, write_line};
use std::alloc::AllocError;

/// Tells a line of `ots_model`, one that agreement may speak of. The commonest ones are written by functions of their own, which
/// is quicker.
#[tactic(auto, unfolding(nodes_world::specs::Told::spelled, nodes_world::specs::Told::words_of, ots_model::specs::Line::spelling))]
pub fn tell_known(lines: &mut Vec<u8>, line: Line) -> Result<(), AllocError>
    ensures { IsTold result (told.Known line) lines.old.items lines.new.items }
{
    match line {
        Line::Send {
            message,
            word,
            registration,
        } => tell_phase(lines, message, word, registration),
        Line::Recv { message } => tell_received(lines, message),
        Line::Voted { registration, vote } => tell_voted(lines, registration, vote),
        Line::State { resource, state } => tell_state(lines, resource, state),
        other => other.write(lines),
    }
}

/// A word of the two phases goes out.
#[tactic(auto, unfolding(nodes_world::specs::Told::spelled, nodes_world::specs::Told::words_of, ots_model::specs::Line::parts))]
fn tell_phase(
    lines: &mut Vec<u8>,
    message: u32,
    word: PhaseWord,
    registration: Name,
) -> Result<(), AllocError>
    ensures { IsTold result (told.Known (Line.Send message word registration)) lines.old.items lines.new.items }
{
    let number = Number(u64::from(message));
    write_line(
        lines,
        &[
            Text(b"send"),
            number,
            Text(phase_word(word)),
            Named(registration),
        ],
    )
}

/// A message was delivered.
#[tactic(auto, unfolding(nodes_world::specs::Told::spelled, nodes_world::specs::Told::words_of, ots_model::specs::Line::parts))]
fn tell_received(lines: &mut Vec<u8>, message: u32) -> Result<(), AllocError>
    ensures { IsTold result (told.Known (Line.Recv message)) lines.old.items lines.new.items }
{
    write_line(lines, &[Text(b"recv"), Number(u64::from(message))])
}

/// A registration's vote was counted.
#[tactic(auto, unfolding(nodes_world::specs::Told::spelled, nodes_world::specs::Told::words_of, ots_model::specs::Line::parts))]
fn tell_voted(lines: &mut Vec<u8>, registration: Name, vote: Vote) -> Result<(), AllocError>
    ensures { IsTold result (told.Known (Line.Voted registration vote)) lines.old.items lines.new.items }
{
    write_line(
        lines,
        &[Text(b"vote"), Named(registration), Text(vote.text())],
    )
}

/// A resource is in a new state.
#[tactic(auto, unfolding(nodes_world::specs::Told::spelled, nodes_world::specs::Told::words_of, ots_model::specs::Line::parts))]
fn tell_state(lines: &mut Vec<u8>, resource: Name, state: ResourceState) -> Result<(), AllocError>
    ensures { IsTold result (told.Known (Line.State resource state)) lines.old.items lines.new.items }
{
    write_line(
        lines,
        &[Text(b"state"), Named(resource), Text(state_word(state))],
    )
}

/// A node or an end goes down.
#[tactic(auto, unfolding(nodes_world::specs::Told::spelled, nodes_world::specs::Told::words_of))]
pub fn tell_down(lines: &mut Vec<u8>, server: Name) -> Result<(), AllocError>
    ensures { IsTold result (told.Down server) lines.old.items lines.new.items }
{
    write_line(lines, &[Text(b"down"), Named(server)])
}

/// A resource was registered that is told of the end of a subtransaction alone.
#[tactic(auto, unfolding(nodes_world::specs::Told::spelled, nodes_world::specs::Told::words_of))]
pub fn tell_aware(
    lines: &mut Vec<u8>,
    resource: Name,
    transaction: Name,
    end: Name,
) -> Result<(), AllocError>
    ensures { IsTold result (told.Aware resource transaction end) lines.old.items lines.new.items }
{
    write_line(
        lines,
        &[
            Text(b"awr"),
            Named(resource),
            Named(transaction),
            Named(end),
        ],
    )
}

/// A client calls an operation of a transaction, in this message.
#[tactic(auto, unfolding(nodes_world::specs::Told::spelled, nodes_world::specs::Told::words_of))]
pub fn tell_called(
    lines: &mut Vec<u8>,
    message: u32,
    operation: &[u8],
    transaction: Name,
) -> Result<(), AllocError>
    ensures { IsTold result (told.Called message operation.now transaction) lines.old.items lines.new.items }
{
    let number = Number(u64::from(message));
    write_line(
        lines,
        &[Text(b"call"), number, Text(operation), Named(transaction)],
    )
}

/// A client's call is answered.
#[tactic(auto, unfolding(nodes_world::specs::Told::spelled, nodes_world::specs::Told::words_of))]
pub fn tell_answered(lines: &mut Vec<u8>, message: u64, answer: &Said) -> Result<(), AllocError>
    ensures { IsTold result (told.Answered message answer.now) lines.old.items lines.new.items }
{
    write_line(
        lines,
        &[Text(b"ans"), Number(message), answer_piece(answer)],
    )
}

/// A word goes out to a registration.
pub fn tell_sent(
    lines: &mut Vec<u8>,
    message: u32,
    word: Word,
    registration: Name,
) -> Result<(), AllocError>
    ensures { IsTold result (told.sent message word registration) lines.old.items lines.new.items }
{
    match word {
        Word::Phase(word) => tell_known(
            lines,
            Line::Send {
                message,
                word,
                registration,
            },
        ),
        Word::Forget => tell_other(lines, message, b"forget", registration),
        Word::BeforeCompletion => tell_other(lines, message, b"before_completion", registration),
        Word::AfterCompletion(_) => tell_other(lines, message, b"after_completion", registration),
        Word::CommitSub(_) => tell_other(lines, message, b"commit_subtransaction", registration),
        Word::RollbackSub => tell_other(lines, message, b"rollback_subtransaction", registration),
        Word::ReplayCompletion => tell_other(lines, message, b"replay_completion", registration),
        Word::RegisterResource => tell_other(lines, message, b"register_resource", registration),
    }
}

/// Another word goes out.
#[tactic(auto, unfolding(nodes_world::specs::Told::spelled, nodes_world::specs::Told::words_of))]
fn tell_other(
    lines: &mut Vec<u8>,
    message: u32,
    operation: &[u8],
    registration: Name,
) -> Result<(), AllocError>
    ensures { IsTold result (told.Sent message operation.now registration) lines.old.items lines.new.items }
{
    let number = Number(u64::from(message));
    write_line(
        lines,
        &[Text(b"send"), number, Text(operation), Named(registration)],
    )
}

/// The reply to a request goes out.
#[tactic(auto, unfolding(nodes_world::specs::Told::spelled, nodes_world::specs::Told::words_of))]
pub fn tell_back(
    lines: &mut Vec<u8>,
    message: u32,
    request: u32,
    answer: &Said,
) -> Result<(), AllocError>
    ensures { IsTold result (told.Back message request answer.now) lines.old.items lines.new.items }
{
    let (number, of) = (Number(u64::from(message)), Number(u64::from(request)));
    write_line(lines, &[Text(b"back"), number, of, answer_piece(answer)])
}

/// A message has come to a receiver that is down.
#[tactic(auto, unfolding(nodes_world::specs::Told::spelled, nodes_world::specs::Told::words_of))]
pub fn tell_dropped(lines: &mut Vec<u8>, message: u32) -> Result<(), AllocError>
    ensures { IsTold result (told.Dropped message) lines.old.items lines.new.items }
{
    write_line(lines, &[Text(b"drop"), Number(u64::from(message))])
}

/// A transaction is rolled back, for such a reason.
#[tactic(auto, unfolding(nodes_world::specs::Told::spelled, nodes_world::specs::Told::words_of))]
pub fn tell_rolled_back(
    lines: &mut Vec<u8>,
    transaction: Name,
    reason: &[u8],
) -> Result<(), AllocError>
    ensures { IsTold result (told.RolledBack transaction reason.now) lines.old.items lines.new.items }
{
    write_line(
        lines,
        &[
            Text(b"decide"),
            Named(transaction),
            Text(b"rollback"),
            Text(reason),
        ],
    )
}

/// The same for a reason that speaks of a synchronization.
#[tactic(auto, unfolding(nodes_world::specs::Told::spelled, nodes_world::specs::Told::words_of))]
pub fn tell_rolled_back_by(
    lines: &mut Vec<u8>,
    transaction: Name,
    reason: &[u8],
    synchronization: Name,
) -> Result<(), AllocError>
    ensures { IsTold result (told.RolledBackBy transaction reason.now synchronization) lines.old.items lines.new.items }
{
    write_line(
        lines,
        &[
            Text(b"decide"),
            Named(transaction),
            Text(b"rollback"),
            Text(reason),
            Named(synchronization),
        ],
    )
}

/// A transaction can only be rolled back.
#[tactic(auto, unfolding(nodes_world::specs::Told::spelled, nodes_world::specs::Told::words_of))]
pub fn tell_marked(lines: &mut Vec<u8>, transaction: Name) -> Result<(), AllocError>
    ensures { IsTold result (told.Marked transaction) lines.old.items lines.new.items }
{
    write_line(lines, &[Text(b"marked"), Named(transaction)])
}

/// Nobody knows whether the decision record of a transaction stands.
#[tactic(auto, unfolding(nodes_world::specs::Told::spelled, nodes_world::specs::Told::words_of))]
pub fn tell_doubted(lines: &mut Vec<u8>, transaction: Name) -> Result<(), AllocError>
    ensures { IsTold result (told.Doubted transaction) lines.old.items lines.new.items }
{
    write_line(lines, &[Text(b"doubt"), Named(transaction)])
}

/// A line of a script with this first word is refused by a node or an end.
#[tactic(auto, unfolding(nodes_world::specs::Told::spelled, nodes_world::specs::Told::words_of))]
pub fn tell_refused<'a>(
    lines: &mut Vec<u8>,
    word: &'a [u8],
    answer: &'a Said,
) -> Result<(), AllocError>
    ensures { IsTold result (told.Refused word.now answer.now) lines.old.items lines.new.items }
{
    write_line(lines, &[Text(b"no"), Text(word), answer_piece(answer)])
}
