// The lines that tell what happened to a family.
ghost use Rattle.std.specs.Prelude.{◌≡◌, [], ◌∷◌};
ghost use Rattle.std.specs.Option.{option_map, option_to_list};
ghost use Rattle.nodes_world.specs.Happenings as happenings;
ghost use Rattle.nodes_world.specs.Told as told;
ghost use Rattle.nodes_world.specs.World.{World};
ghost use Rattle.nodes_state.specs.Casting.{StandsFor};
ghost use Rattle.nodes_state.specs.Telling.{AreNamesOf, TellsOne, TellsSome};

use crate::casts::Cast;
use coordinator::{Effect, Entry, Finished};
use nodes_lines::{
    tell_answered, tell_doubted, tell_known, tell_marked, tell_rolled_back, tell_rolled_back_by,
};
use nodes_parts::Directory;
use ots_model::tree::Reason;
use ots_model::{Line, Name, Outcome, PhaseReason};
use std::alloc::AllocError;

/// Tells what happened, in order.
pub fn tell_effects(
    lines: &mut Vec<u8>,
    names: &Directory,
    cast: Cast<'_>,
    effects: &[Effect],
) -> Result<(), AllocError>
    ensures { (w : World) (c : happenings.Cast) → AreNamesOf names.now w → StandsFor cast.entry c w
        → TellsSome (happenings.all_effect_lines w c effects.now)
        lines.old.items lines.new.items result }
{
    for effect in effects {
        tell_effect(lines, names, cast, *effect)?;
    }
    Ok(())
}

/// Tells one thing that happened.
fn tell_effect(
    lines: &mut Vec<u8>,
    names: &Directory,
    cast: Cast<'_>,
    effect: Effect,
) -> Result<(), AllocError>
    ensures { (w : World) (c : happenings.Cast) → AreNamesOf names.now w → StandsFor cast.entry c w
        → TellsOne (happenings.effect_lines w c effect) lines.old.items lines.new.items result }
{
    match effect {
        Effect::Voted(number, vote) => match cast.registered(names, number) {
            Some(registration) => tell_known(lines, Line::Voted { registration, vote }),
            None => Ok(()),
        },
        Effect::Decided(outcome) => match cast.branch(names, 0) {
            Some(name) => tell_outcome(lines, names, cast, outcome, name),
            None => Ok(()),
        },
        Effect::SubtransactionEnded(branch, committed) => {
            tell_ended(lines, cast.branch(names, branch), committed)
        }
        Effect::Marked(branch) => match cast.branch(names, branch) {
            Some(name) => tell_marked(lines, name),
            None => Ok(()),
        },
        Effect::Doubted => match cast.branch(names, 0) {
            Some(name) => tell_doubted(lines, name),
            None => Ok(()),
        },
        Effect::Done => match cast.branch(names, 0) {
            Some(transaction) => tell_known(lines, Line::Done { transaction }),
            None => Ok(()),
        },
    }
}

/// A subtransaction has ended.
fn tell_ended(lines: &mut Vec<u8>, name: Option<Name>, committed: bool) -> Result<(), AllocError>
    ensures { TellsOne (happenings.naming (λ n. told.Known (Line.SubDone n committed)) name)
        lines.old.items lines.new.items result }
{
    match name {
        Some(transaction) => tell_known(
            lines,
            Line::SubDone {
                transaction,
                committed,
            },
        ),
        None => Ok(()),
    }
}

/// The outcome of a transaction is fixed.
fn tell_outcome(
    lines: &mut Vec<u8>,
    names: &Directory,
    cast: Cast<'_>,
    outcome: Outcome<Reason>,
    transaction: Name,
) -> Result<(), AllocError>
    ensures { (w : World) (c : happenings.Cast) → AreNamesOf names.now w → StandsFor cast.entry c w
        → TellsOne (happenings.outcome_lines w c outcome transaction)
        lines.old.items lines.new.items result }
{
    match outcome {
        Outcome::Commit(ground) => tell_decided(lines, transaction, Outcome::Commit(ground)),
        Outcome::Rollback(reason) => tell_rollback(lines, names, cast, transaction, reason),
        Outcome::Unknown => tell_decided(lines, transaction, Outcome::Unknown),
    }
}

fn tell_decided(
    lines: &mut Vec<u8>,
    transaction: Name,
    outcome: Outcome<PhaseReason<Name>>,
) -> Result<(), AllocError>
    ensures { TellsOne (told.Known (Line.Decide transaction outcome) ∷ []) lines.old.items lines.new.items result }
{
    tell_known(
        lines,
        Line::Decide {
            transaction,
            outcome,
        },
    )
}

/// A transaction is rolled back for a reason.
fn tell_rollback(
    lines: &mut Vec<u8>,
    names: &Directory,
    cast: Cast<'_>,
    transaction: Name,
    reason: Reason,
) -> Result<(), AllocError>
    ensures { (w : World) (c : happenings.Cast) → AreNamesOf names.now w → StandsFor cast.entry c w
        → TellsOne (happenings.rollback_lines w c transaction reason)
        lines.old.items lines.new.items result }
{
    match reason {
        Reason::Asked => tell_rolled_back(lines, transaction, b"Asked"),
        Reason::Marked => tell_rolled_back(lines, transaction, b"Marked"),
        Reason::Timeout => tell_rolled_back(lines, transaction, b"Timeout"),
        Reason::NotStored => tell_rolled_back(lines, transaction, b"NotStored"),
        Reason::Superior => tell_rolled_back(lines, transaction, b"Superior"),
        Reason::NotEnlisted => tell_rolled_back(lines, transaction, b"NotEnlisted"),
        Reason::SyncLost(number) => tell_by(
            lines,
            transaction,
            b"SyncLost",
            cast.synchronized(names, number),
        ),
        Reason::SyncStarved(number) => tell_by(
            lines,
            transaction,
            b"SyncStarved",
            cast.synchronized(names, number),
        ),
        Reason::Phase(reason) => tell_phase_reason(lines, names, cast, transaction, reason),
    }
}

/// A transaction is rolled back by the votes or by the journal.
fn tell_phase_reason(
    lines: &mut Vec<u8>,
    names: &Directory,
    cast: Cast<'_>,
    transaction: Name,
    reason: PhaseReason,
) -> Result<(), AllocError>
    ensures { (w : World) (c : happenings.Cast) → AreNamesOf names.now w → StandsFor cast.entry c w
        → TellsOne (happenings.rollback_lines w c transaction (Reason.Phase reason))
        lines.old.items lines.new.items result }
{
    match reason {
        PhaseReason::Vote(number) => {
            tell_reason(lines, transaction, by_vote(cast.registered(names, number)))
        }
        PhaseReason::PrepareLost(number) => {
            tell_reason(lines, transaction, by_loss(cast.registered(names, number)))
        }
        PhaseReason::PrepareStarved(number) => {
            tell_reason(lines, transaction, by_want(cast.registered(names, number)))
        }
        PhaseReason::PrepareFault(number) => {
            tell_reason(lines, transaction, by_fault(cast.registered(names, number)))
        }
        PhaseReason::JournalFull(used, need) => tell_decided(
            lines,
            transaction,
            Outcome::Rollback(PhaseReason::JournalFull(used, need)),
        ),
    }
}

/// The vote of a registration as a reason, where that has a name.
fn by_vote(registration: Option<Name>) -> Option<PhaseReason<Name>>
    ensures { result ≡ option_map (λ name. PhaseReason.Vote name) registration }
{
    Some(PhaseReason::Vote(registration?))
}

/// The same of the loss of its prepare.
fn by_loss(registration: Option<Name>) -> Option<PhaseReason<Name>>
    ensures { result ≡ option_map (λ name. PhaseReason.PrepareLost name) registration }
{
    Some(PhaseReason::PrepareLost(registration?))
}

/// The same of want of memory at its prepare.
fn by_want(registration: Option<Name>) -> Option<PhaseReason<Name>>
    ensures { result ≡ option_map (λ name. PhaseReason.PrepareStarved name) registration }
{
    Some(PhaseReason::PrepareStarved(registration?))
}

/// The same of a prepare that is answered otherwise.
fn by_fault(registration: Option<Name>) -> Option<PhaseReason<Name>>
    ensures { result ≡ option_map (λ name. PhaseReason.PrepareFault name) registration }
{
    Some(PhaseReason::PrepareFault(registration?))
}

/// The same for a reason of the votes, where it names what has a name.
fn tell_reason(
    lines: &mut Vec<u8>,
    transaction: Name,
    reason: Option<PhaseReason<Name>>,
) -> Result<(), AllocError>
    ensures { TellsOne
        (option_to_list (option_map (λ r. told.Known (Line.Decide transaction (Outcome.Rollback r))) reason))
        lines.old.items lines.new.items result }
{
    match reason {
        Some(reason) => tell_decided(lines, transaction, Outcome::Rollback(reason)),
        None => Ok(()),
    }
}

/// The same, where a synchronization is the reason.
fn tell_by(
    lines: &mut Vec<u8>,
    transaction: Name,
    reason: &[u8],
    synchronization: Option<Name>,
) -> Result<(), AllocError>
    ensures { TellsOne (happenings.naming (told.RolledBackBy transaction reason.now) synchronization)
        lines.old.items lines.new.items result }
{
    match synchronization {
        Some(name) => tell_rolled_back_by(lines, transaction, reason, name),
        None => Ok(()),
    }
}

/// Tells the answers to earlier calls, in order.
pub fn tell_finished(
    lines: &mut Vec<u8>,
    entries: &[Entry],
    finished: &[Finished],
) -> Result<(), AllocError>
    ensures { TellsSome (happenings.all_finished_lines entries.now finished.now)
        lines.old.items lines.new.items result }
{
    for answer in finished {
        if let Some(message) = call_number(entries, answer.position) {
            tell_answered(lines, message, &answer.said)?;
        }
    }
    Ok(())
}

/// The number of the message in which the call of an entry came.
fn call_number(entries: &[Entry], position: u32) -> Option<u64>
    ensures { result ≡ happenings.call_number entries.now position }
{
    Some(entries.get(position as usize)?.event.key?.number)
}
