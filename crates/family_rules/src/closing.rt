// How the top-level transaction ends, once no subtransaction is live.
ghost use Rattle.std.specs.Prelude.{◌≡◌, ◌<◌, ◌≤◌, ◌+◌, ℕ, length, false, true, Some, None, IsSome};
ghost use Rattle.resource_votes.specs.Limits.{synchronization_limit};
ghost use Rattle.two_phase.specs.Stages as stages;
ghost use Rattle.family_rules.specs.Calls.{aim_of, plain_call, said_of};
ghost use Rattle.coordinator.specs.Closing as closing;
ghost use Rattle.family_rules.specs.Going.{CanGo, Does};
ghost use Rattle.coordinator.specs.Phases as phases;
ghost use Rattle.std.specs.Option.{option_copied};

use crate::call::{Aim, Call, Reply};
use crate::draft::Draft;
use crate::state::{State, TOP};
use coordinator::{Leg, Stage};
use ots_model::tree::{Outcome, Reason, Word};
use ots_model::{Join, Status};
use resource_votes::Registration;
use two_phase::a_tree_word_waits_for_its_answer;

impl State {
    /// A mark counts wherever the commit goes on. Else the next synchronization is called; then the completion begins.
    #[tactic(auto, unfolding(coordinator::specs::Closing::before))]
    pub(crate) fn go_before(&mut self, called: u32, call: Call, out: &mut Draft)
        requires plain { call.owes ≡ false }
        requires can { CanGo 2 self.old.family out.old }
        ensures does { Does self.old.family out.old (closing.before called (plain_call call)) self.new.family out.new }
        ensures kept { self.old.history_room ≤ self.new.history_room }
    {
        if self.is_marked(TOP) {
            self.begin_rollback(asked_of(call.aim), Reason::Marked, out);
            self.decide(call, out);
        } else {
            self.call_next(called, call, out);
        }
    }

    /// The next synchronization is called; then the completion begins.
    #[tactic(auto, unfolding(coordinator::specs::Moves::sends))]
    fn call_next(&mut self, called: u32, call: Call, out: &mut Draft)
        requires plain { call.owes ≡ false }
        requires can { CanGo 2 self.old.family out.old }
        ensures does { Does self.old.family out.old
            (λ f. closing.calls_next (closing.next_synchronization f called) called (plain_call call) f)
            self.new.family out.new }
        ensures kept { self.old.history_room ≤ self.new.history_room }
    {
        let number = self.next_number();
        if let Some(to) = self.next_sync(called) {
            out.post(number, Word::BeforeCompletion, to);
            let leg = Leg::Before(called + 1);
            self.await_answer(TOP, Call { leg, ..call });
        } else {
            self.begin_asking(asked_of(call.aim), out);
            self.decide(call, out);
        }
    }

    /// Its completion begins, once, by asking.
    #[tactic(auto, unfolding(coordinator::specs::Closing::begins, coordinator::specs::Moves::completes_as))]
    pub(crate) fn begin_asking(&mut self, asked: bool, out: &mut Draft)
        requires room { 0 < out.old.room }
        ensures moved { Does self.old.family out.old (λ f. closing.begins (closing.asking asked f) f)
            self.new.family out.new }
        ensures can { (n : ℕ) → CanGo (n + 1) self.old.family out.old → CanGo n self.new.family out.new }
        ensures kept { self.old.history_room ≤ self.new.history_room }
    {
        self.stage = Stage::Completing;
        if self.completion.number().is_some() {
            return;
        }
        let first = self.number_of(1);
        let is_root = self.superior.is_none();
        self.completion
            .start(&self.votes, TOP, asked, first, is_root);
        out.show_fixed(None, self.completion.outcome());
    }

    /// Its completion begins, once, with a rollback.
    #[tactic(auto, unfolding(coordinator::specs::Closing::begins, coordinator::specs::Moves::completes_as))]
    pub fn begin_rollback(&mut self, asked: bool, reason: Reason, out: &mut Draft)
        requires room { 0 < out.old.room }
        ensures moved { Does self.old.family out.old (λ f. closing.begins (closing.rolling_back asked reason f) f)
            self.new.family out.new }
        ensures can { (n : ℕ) → CanGo (n + 1) self.old.family out.old → CanGo n self.new.family out.new }
        ensures kept { self.old.history_room ≤ self.new.history_room }
    {
        self.stage = Stage::Completing;
        if self.completion.number().is_some() {
            return;
        }
        let first = self.number_of(1);
        let is_root = self.superior.is_none();
        self.completion
            .start_rollback(&self.votes, TOP, asked, first, is_root, reason);
        out.show_fixed(None, self.completion.outcome());
    }

    /// The next word of the completion goes out.
    #[tactic(auto, using(crate::proofs::Unroomed::unroomed_next_word, crate::proofs::Unroomed::unroomed_next, crate::proofs::Rested::rests_as_it_was), unfolding(coordinator::specs::Closing::decides))]
    pub(crate) fn decide(&mut self, call: Call, out: &mut Draft)
        requires plain { call.owes ≡ false }
        requires can { CanGo 1 self.old.family out.old }
        ensures does { Does self.old.family out.old (closing.decides (plain_call call)) self.new.family out.new }
        ensures kept { self.old.history_room ≤ self.new.history_room }
    {
        let call = Call {
            leg: Leg::Deciding,
            ..call
        };
        a_tree_word_waits_for_its_answer();
        match self.completion.next() {
            Some(word) => self.send(call, word, out),
            None => self.rest(call, out),
        }
    }

    /// The completion has no word to send: it is over, or nobody knows whether the record stands.
    #[tactic(auto, using(crate::proofs::Unroomed::unroomed_outcome))]
    fn rest(&mut self, call: Call, out: &mut Draft)
        requires plain { call.owes ≡ false }
        requires can { CanGo 1 self.old.family out.old }
        ensures does { Does self.old.family out.old
            (λ f. closing.rests (plain_call call) (stages.outcome f.completion) f) self.new.family out.new }
        ensures kept { self.old.history_room ≤ self.new.history_room }
    {
        match self.completion.outcome() {
            Some(fixed) => self.go_after(0, call, fixed, out),
            None => self.set_call(TOP, call),
        }
    }

    /// The next synchronization is told the outcome; then the transaction has ended.
    #[tactic(auto, unfolding(coordinator::specs::Closing::afterwards, coordinator::specs::Moves::sends))]
    pub(crate) fn go_after(&mut self, called: u32, call: Call, fixed: Outcome, out: &mut Draft)
        requires plain { call.owes ≡ false }
        requires can { CanGo 1 self.old.family out.old }
        ensures does { Does self.old.family out.old (closing.afterwards called (plain_call call) fixed)
            self.new.family out.new }
        ensures kept { self.old.history_room ≤ self.new.history_room }
    {
        let number = self.next_number();
        if let Some(to) = self.next_told(fixed, called) {
            out.post(number, Word::AfterCompletion(end_status(fixed)), to);
            let leg = Leg::After(called + 1);
            self.await_answer(TOP, Call { leg, ..call });
        } else {
            self.finish(call, fixed, out);
        }
    }

    /// The synchronization behind so many, where they are told this outcome.
    #[tactic(auto, using(crate::proofs::Unroomed::unroomed_was_doubtful))]
    fn next_told(&self, fixed: Outcome, called: u32) -> Option<&Registration>
        ensures next { option_copied result ≡ closing.next_told self.now.family fixed called }
        ensures few { IsSome result → called < synchronization_limit }
    {
        if self.completion.was_doubtful() || matches!(fixed, Outcome::Unknown) {
            return None;
        }
        self.next_sync(called)
    }

    /// The top-level transaction has ended, and its caller is answered.
    #[tactic(auto, unfolding(coordinator::specs::Closing::finishes))]
    fn finish(&mut self, call: Call, fixed: Outcome, out: &mut Draft)
        requires can { CanGo 1 self.old.family out.old }
        ensures does { Does self.old.family out.old (closing.finishes (plain_call call) fixed)
            self.new.family out.new }
        ensures kept { self.old.history_room ≤ self.new.history_room }
    {
        self.stage = Stage::Over;
        let reply = self.end_reply(call.aim, fixed);
        self.end_call(TOP, call, reply, out);
    }

    /// What the call is answered that ended it.
    fn end_reply(&self, aim: Aim, fixed: Outcome) -> Reply
        ensures { said_of result ≡ closing.end_answer (aim_of aim) (self.now.family).completion fixed }
    {
        match aim {
            Aim::Commits(_) => self.commit_reply(fixed),
            Aim::RollsBack(reply) => reply,
        }
    }

    /// What a commit is answered.
    #[tactic(auto, using(crate::proofs::Unroomed::unroomed_asked, crate::proofs::Unroomed::unroomed_root_join), unfolding(coordinator::specs::Closing::commit_answer))]
    fn commit_reply(&self, fixed: Outcome) -> Reply
        ensures { said_of result ≡ closing.commit_answer (self.now.family).completion fixed }
    {
        if self.completion.asked() {
            match self.completion.root_join() {
                Join::Mixed => return Reply::Mixed,
                Join::Hazard => return Reply::Hazard,
                Join::Nothing | Join::Opposite => {}
            }
        }
        plain_reply(fixed)
    }
}

/// What a commit is answered by its outcome alone.
fn plain_reply(fixed: Outcome) -> Reply
    ensures { said_of result ≡ closing.plain_answer fixed }
{
    match fixed {
        Outcome::Commit(_) => Reply::Plain,
        Outcome::Rollback(_) => Reply::RolledBack,
        Outcome::Unknown => Reply::CommFailure,
    }
}

/// Whether reports were asked for.
pub(crate) fn asked_of(aim: Aim) -> bool
    ensures { result ≡ closing.asked_of (aim_of aim) }
{
    match aim {
        Aim::Commits(asked) => asked,
        Aim::RollsBack(_) => false,
    }
}

/// How a transaction stands that has ended so.
fn end_status(fixed: Outcome) -> Status
    ensures { result ≡ phases.end_status fixed }
{
    match fixed {
        Outcome::Commit(_) => Status::Committed,
        Outcome::Rollback(_) => Status::RolledBack,
        Outcome::Unknown => Status::Unknown,
    }
}
