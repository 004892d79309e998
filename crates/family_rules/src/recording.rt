// The decision record of a family.
ghost use Rattle.std.specs.Prelude.{◌≡◌, ◌≤◌, ℕ, filter, map, IfOk};
ghost use Rattle.coordinator.specs.Hearing.{commit_key};
ghost use Rattle.std.specs.List.{AllByRecursion};
ghost use Rattle.decision_journal.specs.Layout.{Fits, FitsRegistration, FitsRegistrations};
ghost use Rattle.resource_votes.specs.Ballots as ballots;
ghost use Rattle.resource_votes.specs.History.{times};
ghost use Rattle.two_phase.specs.Stages as stages;
ghost use Rattle.family_rules.specs.Recording.{decides, recorded};

use crate::state::{State, TOP};
use decision_journal::{JournalRecord, Registration, Registrations};
use ior_refs::ObjectKey;
use ots_model::{RefBytes, RetryKey};
use resource_votes::{Registration as Registered, Walk};
use std::alloc::{AllocError, Global};

impl State {
    /// Whether the word that is out is the last that asks: each other participant has answered its own.
    #[tactic(auto, using(crate::proofs::Unroomed::unroomed_last_asked))]
    pub fn is_last_asked(&self) -> bool
        ensures { result ≡ stages.is_last_asked (self.now.family).completion }
    {
        self.completion.is_last_asked()
    }

    /// A copy of each registration that takes part in the top-level transaction, in the order in which they are asked.
    pub fn copy_participants(&self, alloc: Global) -> Result<Vec<Registration>, AllocError>
        ensures all { IfOk result (λ copies.
            copies.items ≡ map recorded (ballots.participants 0 (self.now.family).ballots)) }
        ensures once { IfOk result (λ copies.
            (i : ℕ) → times i (map (λ r. r.index) copies.items) ≤ 1) }
        ensures fits { IfOk result (λ copies. FitsRegistrations copies.items) }
    {
        copy_all(alloc, self.votes.participants(TOP))
    }

    /// Keeps those of these registrations that take part and have voted commit.
    pub fn keep_named(&self, registrations: &mut Vec<Registration>)
        ensures { registrations.new.items
            ≡ filter (λ r. stages.is_named (self.now.family).completion r.index) registrations.old.items }
    {
        registrations.retain(|r| self.is_named(r.index));
    }

    /// The decision record that names these registrations. It needs no memory.
    #[tactic(auto, using(crate::proofs::Unroomed::unroomed_asked))]
    pub fn decision(&self, named: Vec<Registration>) -> JournalRecord
        requires fits { FitsRegistrations named.items }
        ensures record { result ≡ decides self.now.family named.items }
        ensures fits { Fits result }
    {
        decision_of(self.key, self.commit_key(), self.completion.asked(), named)
    }

    /// The key by which the commit was called.
    fn commit_key(&self) -> Option<RetryKey>
        ensures { result ≡ commit_key self.now.family }
    {
        let position = self.call_of(TOP)?.caller?;
        let entry = self.entries.get(position as usize)?;
        entry.event.key
    }
}

/// Copies of these registrations.
fn copy_all(alloc: Global, walk: Walk<'_>) -> Result<Vec<Registration>, AllocError>
    ensures copies { IfOk result (λ copies. copies.items ≡ map recorded walk.entry) }
    ensures fits { IfOk result (λ copies. AllByRecursion FitsRegistration copies.items) }
{
    let mut copies = Vec::new(alloc);
    for registration in walk {
        copies.push(copy(alloc, registration)?)?;
    }
    Ok(copies)
}

/// A copy of a registration.
fn copy(alloc: Global, registration: &Registered) -> Result<Registration, AllocError>
    ensures copy { IfOk result (λ r. r ≡ recorded registration.now) }
    ensures fits { IfOk result (λ r. FitsRegistration r) }
{
    Ok(recorded_as(registration.index, registration.to.copy(alloc)?))
}

/// A registration with this number and reference, as a record names it.
fn recorded_as(index: u32, reference: RefBytes) -> Registration
    ensures same { result ≡ record { index = index; reference = reference } }
    ensures fits { FitsRegistration result }
{
    let _ = reference.bytes();
    Registration { index, reference }
}

/// The decision record of the family with this key, whose commit was called so.
fn decision_of(
    key: ObjectKey,
    called: Option<RetryKey>,
    asked: bool,
    named: Vec<Registration>,
) -> JournalRecord
    requires fits { FitsRegistrations named.items }
    ensures record { result
        ≡ JournalRecord.Decision key.life key.slot key.generation called asked named.items }
    ensures fits { Fits result }
{
    JournalRecord::Decision(
        key.life,
        key.slot,
        key.generation,
        called,
        asked,
        Registrations::from_vec(named),
    )
}
