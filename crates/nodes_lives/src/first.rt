// What had happened in a call before its record was written.
ghost use Rattle.std.specs.Prelude.{◌≡◌, ◌<◌, ◌≤◌, length, position, IfOk, IfSome};
ghost use Rattle.nodes_lives.specs.First as first;

use coordinator::{Effect, Effects, NodeFault, StepAnswer};
use std::alloc::{AllocError, Global};

/// Whether the decision record is done.
fn is_done(effect: Effect) -> bool
    ensures { result ≡ first.is_done effect }
{
    matches!(effect, Effect::Done)
}

/// Whether the outcome was fixed.
fn is_decided(effect: Effect) -> bool
    ensures { result ≡ first.is_decided effect }
{
    matches!(effect, Effect::Decided(_))
}

/// The place of the Done.
fn done_at(effects: &[Effect]) -> Option<usize>
    ensures place { result ≡ position first.is_done effects.now }
    ensures within { IfSome result (λ place. place < length effects.now) }
{
    effects.iter().position(|effect| is_done(*effect))
}

/// The place of the outcome.
fn outcome_at(effects: &[Effect]) -> Option<usize>
    ensures place { result ≡ position first.is_decided effects.now }
    ensures within { IfSome result (λ place. place < length effects.now) }
{
    effects.iter().position(|effect| is_decided(*effect))
}

/// The place of the Done, or else that of the outcome.
fn recorded_at(effects: &[Effect]) -> usize
    ensures place { result ≡ first.recorded_at effects.now }
    ensures within { result ≤ length effects.now }
{
    if let Some(place) = done_at(effects) {
        return place;
    }
    match outcome_at(effects) {
        Some(place) => place,
        None => effects.len(),
    }
}

/// What had happened before the record was written that a call writes, by what the call was answered behind that.
pub(crate) fn told_before(
    alloc: Global,
    answer: &Result<StepAnswer, NodeFault>,
) -> Result<Effects, AllocError>
    ensures { IfOk result (λ effects. effects ≡ first.told_before answer.now) }
{
    match answer {
        Ok(answer) => {
            let effects = answer.effects.items();
            let first = effects[..recorded_at(effects)].to_vec(alloc)?;
            Ok(Effects::from_vec(first))
        }
        Err(_) => Ok(Effects::from_vec(Vec::new(alloc))),
    }
}
