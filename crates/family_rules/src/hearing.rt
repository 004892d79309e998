// What the answer to a word does, and the journal's answer to what is asked of it then.
ghost use Rattle.std.specs.Prelude.{◌≡◌, ◌<◌, ◌≤◌, ◌+◌, ℕ, length, false, Some, None};
ghost use Rattle.std.specs.Option.{option_to_list};
ghost use Rattle.ots_model.specs.Heard.{of_participant};
ghost use Rattle.family_rules.specs.Calls as calls;
ghost use Rattle.family_rules.specs.Calls.{Sees, aim_of, plain_call, said_of};
ghost use Rattle.coordinator.specs.Family as families;
ghost use Rattle.coordinator.specs.Family.{Call as FamilyCall};
ghost use Rattle.family_rules.specs.Going.{CanGo, Does};
ghost use Rattle.coordinator.specs.Hearing as hearing;
ghost use Rattle.coordinator.specs.Step as steps;
ghost use Rattle.two_phase.specs.Stages as stages;

use crate::call::{Aim, Call, Reply};
use crate::closing::asked_of;
use crate::draft::Draft;
use crate::state::{State, TOP};
use coordinator::{Column, Effect, Leg};
use ots_model::tree::{Heard, Reason};
use ots_model::{CallNumber, Doubted, PhaseHeard, Stood};

impl State {
    /// The answer to the word of a call that is out: it is out no more.
    pub fn hear(&mut self, branch: u32, number: &CallNumber, heard: &Heard, out: &mut Draft)
        requires can { CanGo 2 self.old.family out.old }
        ensures moved { Does self.old.family out.old (λ f.
            steps.hears_call (families.call_at f branch) branch number.now heard.now f)
            self.new.family out.new }
        ensures can { (n : ℕ) → CanGo (n + 2) self.old.family out.old → CanGo n self.new.family out.new }
        ensures count { length (self.new.family).rows ≡ length (self.old.family).rows }
        ensures kept { self.old.history_room ≤ self.new.history_room }
    {
        match self.call_of(branch) {
            Some(call) => self.hear_at(branch, call, number, heard, out),
            None => {}
        }
    }

    /// The same of a call that there is.
    fn hear_at(
        &mut self,
        branch: u32,
        call: Call,
        number: &CallNumber,
        heard: &Heard,
        out: &mut Draft,
    )
        requires there { branch < length (self.old.family).rows }
        requires call { Sees (Some call) (families.call_at self.old.family branch) }
        requires can { CanGo 2 self.old.family out.old }
        ensures moved { Does self.old.family out.old (λ f.
            steps.hears_call (families.call_at f branch) branch number.now heard.now f)
            self.new.family out.new }
        ensures can { (n : ℕ) → CanGo (n + 2) self.old.family out.old → CanGo n self.new.family out.new }
        ensures kept { self.old.history_room ≤ self.new.history_room }
    {
        self.change_call(branch, call.caller, None);
        match call.leg {
            Leg::Below => {}
            Leg::Own => self.hear_own(branch, call.aim, heard, out),
            Leg::Before(called) => self.hear_before(branch, called, call.aim, heard, out),
            Leg::Deciding => self.hear_participant(number, heard, out),
            Leg::After(_) => {}
        }
    }

    /// A synchronization was called: where it didn't answer plainly, the commit is given up.
    fn hear_before(&mut self, branch: u32, called: u32, aim: Aim, heard: &Heard, out: &mut Draft)
        requires there { branch < length (self.old.family).rows }
        requires can { CanGo 1 self.old.family out.old }
        ensures moved { (c : FamilyCall) → families.call_at self.old.family branch ≡ Some c → c.aim ≡ aim_of aim
            → Does self.old.family out.old (hearing.told_before branch called c heard.now)
            self.new.family out.new }
        ensures can { (n : ℕ) → CanGo (n + 1) self.old.family out.old → CanGo n self.new.family out.new }
        ensures kept { self.old.history_room ≤ self.new.history_room }
    {
        if is_plain(heard) {
            return;
        }
        self.begin_deciding(branch);
        self.begin_rollback(asked_of(aim), reason_of(called, heard), out);
    }

    /// A resource was told of the end of a subtransaction.
    fn hear_own(&mut self, branch: u32, aim: Aim, heard: &Heard, out: &mut Draft)
        requires can { CanGo 1 self.old.family out.old }
        ensures moved { Does self.old.family out.old (hearing.told_end (aim_of aim) branch heard.now)
            self.new.family out.new }
        ensures can { (n : ℕ) → CanGo (n + 1) self.old.family out.old → CanGo n self.new.family out.new }
        ensures kept { self.old.history_room ≤ self.new.history_room }
    {
        match aim {
            Aim::Commits(_) => self.hear_commit(branch, heard, out),
            Aim::RollsBack(_) => {}
        }
    }

    /// One was told of its commit: where it didn't answer plainly, the parent is marked.
    #[tactic(auto, unfolding(coordinator::specs::Hearing::told_commit))]
    fn hear_commit(&mut self, branch: u32, heard: &Heard, out: &mut Draft)
        requires can { CanGo 1 self.old.family out.old }
        ensures moved { Does self.old.family out.old (hearing.told_commit branch heard.now)
            self.new.family out.new }
        ensures can { (n : ℕ) → CanGo (n + 1) self.old.family out.old → CanGo n self.new.family out.new }
        ensures kept { self.old.history_room ≤ self.new.history_room }
    {
        if is_plain(heard) || self.has_parent_ended(branch) {
            return;
        }
        match self.tree.parent_at(branch) {
            Some(above) => self.mark(above, out),
            None => {}
        }
    }

    /// A transaction is marked, where it may be.
    #[tactic(auto, unfolding(coordinator::specs::Hearing::marks))]
    pub fn mark(&mut self, branch: u32, out: &mut Draft)
        requires can { CanGo 1 self.old.family out.old }
        ensures moved { Does self.old.family out.old (hearing.marks branch) self.new.family out.new }
        ensures can { (n : ℕ) → CanGo (n + 1) self.old.family out.old → CanGo n self.new.family out.new }
        ensures kept { self.old.history_room ≤ self.new.history_room }
    {
        if self.is_markable(branch) {
            out.show(Effect::Marked(branch));
            self.tree.mark(branch).unwrap();
        }
    }

    /// Whether it may be marked.
    #[tactic(auto, unfolding(coordinator::specs::Hearing::is_markable))]
    fn is_markable(&self, branch: u32) -> bool
        ensures { result ≡ hearing.is_markable self.now.family branch }
    {
        match self.column(branch) {
            Column::Active => true,
            Column::Finishing => !self.is_marked(branch),
            _ => false,
        }
    }

    /// A participant was asked or told.
    #[tactic(auto, using(crate::proofs::Unroomed::unroomed_answer, crate::proofs::Unroomed::unroomed_outcome, crate::proofs::Unroomed::unroomed_voter, crate::proofs::Kept::places_answered), unfolding(coordinator::specs::Hearing::told_participant, coordinator::specs::Moves::completes_as))]
    fn hear_participant(&mut self, number: &CallNumber, heard: &Heard, out: &mut Draft)
        requires can { CanGo 2 self.old.family out.old }
        ensures moved { Does self.old.family out.old (hearing.told_participant number.now heard.now)
            self.new.family out.new }
        ensures can { (n : ℕ) → CanGo (n + 2) self.old.family out.old → CanGo n self.new.family out.new }
        ensures kept { self.old.history_room ≤ self.new.history_room }
    {
        let before = self.completion.outcome();
        out.show_vote(vote_effect(heard, self.completion.voter()));
        match self.completion.number() {
            Some(known) => self.completion.answer(&known, heard),
            None => {}
        }
        out.show_fixed(before, self.completion.outcome());
        let _ = number;
    }

    /// What the journal answered, where it was asked.
    #[tactic(auto, unfolding(coordinator::specs::Hearing::settles))]
    pub fn settle(&mut self, stood: Option<Stood>, out: &mut Draft)
        requires can { CanGo 3 self.old.family out.old }
        ensures moved { Does self.old.family out.old (hearing.settles stood) self.new.family out.new }
        ensures can { (n : ℕ) → CanGo (n + 3) self.old.family out.old → CanGo n self.new.family out.new }
        ensures count { length (self.new.family).rows ≡ length (self.old.family).rows }
        ensures kept { self.old.history_room ≤ self.new.history_room }
    {
        match stood {
            Some(stood) => self.be_answered(stood, out),
            None => {}
        }
    }

    /// What it answered to what it was asked.
    #[tactic(auto, unfolding(coordinator::specs::Hearing::settles))]
    fn be_answered(&mut self, stood: Stood, out: &mut Draft)
        requires can { CanGo 3 self.old.family out.old }
        ensures moved { Does self.old.family out.old (hearing.settles (Some stood))
            self.new.family out.new }
        ensures can { (n : ℕ) → CanGo (n + 3) self.old.family out.old → CanGo n self.new.family out.new }
        ensures kept { self.old.history_room ≤ self.new.history_room }
    {
        if self.wants_decision() {
            self.be_decided(stood, out);
        } else if self.wants_done() {
            self.be_closed(stood, out);
        }
    }

    /// Whether a decision is wanted.
    #[tactic(auto, using(crate::proofs::Unroomed::unroomed_wants_decision))]
    pub fn wants_decision(&self) -> bool
        ensures { result ≡ stages.wants_decision (self.now.family).completion }
    {
        self.completion.wants_decision()
    }

    /// The journal was asked for the decision.
    #[tactic(auto, using(crate::proofs::Unroomed::unroomed_decided, crate::proofs::Unroomed::unroomed_outcome, crate::proofs::Kept::places_decided), unfolding(coordinator::specs::Hearing::decided, coordinator::specs::Moves::completes_as))]
    fn be_decided(&mut self, stood: Stood, out: &mut Draft)
        requires can { CanGo 3 self.old.family out.old }
        ensures moved { Does self.old.family out.old (hearing.decided stood) self.new.family out.new }
        ensures can { (n : ℕ) → CanGo (n + 3) self.old.family out.old → CanGo n self.new.family out.new }
        ensures kept { self.old.history_room ≤ self.new.history_room }
    {
        let before = self.completion.outcome();
        self.completion.decided(stood);
        out.show_fixed(before, self.completion.outcome());
        match stood {
            Stood::Unsure(why) => self.doubt(why, out),
            _ => {}
        }
    }

    /// Nobody knows whether the decision record stands.
    fn doubt(&mut self, why: Doubted, out: &mut Draft)
        requires can { CanGo 2 self.old.family out.old }
        ensures moved { Does self.old.family out.old (hearing.doubts_by (Stood.Unsure why))
            self.new.family out.new }
        ensures can { (n : ℕ) → CanGo (n + 2) self.old.family out.old → CanGo n self.new.family out.new }
        ensures kept { self.old.history_room ≤ self.new.history_room }
    {
        out.show(Effect::Doubted);
        self.answer_doubt(why, out);
    }

    /// The caller of the commit is answered that nobody knows, and then waits no more.
    #[tactic(auto, unfolding(coordinator::specs::Hearing::answers_doubt))]
    fn answer_doubt(&mut self, why: Doubted, out: &mut Draft)
        requires can { CanGo 1 self.old.family out.old }
        ensures moved { Does self.old.family out.old
            (λ f. hearing.answers_doubt why (families.call_at f 0) f) self.new.family out.new }
        ensures can { (n : ℕ) → CanGo (n + 1) self.old.family out.old → CanGo n self.new.family out.new }
        ensures kept { self.old.history_room ≤ self.new.history_room }
    {
        match self.call_of(TOP) {
            Some(call) => {
                self.change_call(TOP, None, call.out);
                out.answer(call.caller, doubt_reply(why));
            }
            None => {}
        }
    }

    /// The journal was asked for the Done.
    #[tactic(auto, unfolding(coordinator::specs::Hearing::closes))]
    fn be_closed(&mut self, stood: Stood, out: &mut Draft)
        requires can { CanGo 1 self.old.family out.old }
        ensures moved { Does self.old.family out.old (hearing.closes stood) self.new.family out.new }
        ensures can { (n : ℕ) → CanGo (n + 1) self.old.family out.old → CanGo n self.new.family out.new }
        ensures kept { self.old.history_room ≤ self.new.history_room }
    {
        match stood {
            Stood::Stands(_) => out.show(Effect::Done),
            _ => {}
        }
        self.closed = Some(stood);
    }

    /// Whether the decision record is to be named done. A completion that is settled has no word to send.
    #[tactic(auto, using(crate::proofs::Unroomed::unroomed_record_place, crate::proofs::Unroomed::unroomed_next_word, crate::proofs::Unroomed::unroomed_is_settled), unfolding(coordinator::specs::Hearing::wants_done))]
    pub fn wants_done(&self) -> bool
        ensures { result ≡ hearing.wants_done self.now.family }
    {
        self.closed.is_none()
            && self.completion.record_place().is_some()
            && self.completion.is_settled()
    }

    /// The journal was read again.
    #[tactic(auto, using(crate::proofs::Unroomed::unroomed_reread, crate::proofs::Unroomed::unroomed_outcome, crate::proofs::Kept::places_reread), unfolding(coordinator::specs::Step::rereads, coordinator::specs::Moves::completes_as))]
    pub fn reread(&mut self, stood: Option<Stood>, out: &mut Draft)
        requires can { CanGo (length (self.old.family).rows + 4) self.old.family out.old }
        ensures does { Does self.old.family out.old (steps.rereads stood) self.new.family out.new }
        ensures kept { self.old.history_room ≤ self.new.history_room }
    {
        let before = self.completion.outcome();
        self.completion.reread(found_at(stood));
        out.show_fixed(before, self.completion.outcome());
        self.go_on(TOP, out);
    }
}

/// Where the journal has the record.
fn found_at(stood: Option<Stood>) -> Option<u32>
    ensures { result ≡ steps.found_at stood }
{
    match stood {
        Some(Stood::Stands(place)) => Some(place),
        _ => None,
    }
}

/// Whether an answer is plain.
fn is_plain(heard: &Heard) -> bool
    ensures { result ≡ hearing.is_plain heard.now }
{
    matches!(heard, Heard::Phase(PhaseHeard::Done))
}

/// Why a synchronization that didn't answer plainly rolls the transaction back.
fn reason_of(called: u32, heard: &Heard) -> Reason
    ensures { result ≡ hearing.reason_of called heard.now }
{
    match heard {
        Heard::Phase(PhaseHeard::Starved) => Reason::SyncStarved(called),
        _ => Reason::SyncLost(called),
    }
}

/// What a commit is answered where nobody knows whether the record stands.
fn doubt_reply(why: Doubted) -> Reply
    ensures { said_of result ≡ hearing.doubt_answer why }
{
    match why {
        Doubted::Starved => Reply::NoMemory,
        Doubted::Counted(_, _) | Doubted::Damaged(_) => Reply::PersistStore,
    }
}

/// The vote that is counted, where the registration was asked.
fn vote_effect(heard: &Heard, voter: Option<u32>) -> Option<Effect>
    ensures { option_to_list result ≡ hearing.vote_effects (of_participant heard.now) voter }
{
    let voter = voter?;
    match heard {
        Heard::Phase(PhaseHeard::Voted(vote)) => Some(Effect::Voted(voter, *vote)),
        _ => None,
    }
}
