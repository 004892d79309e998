// The completion of a tree of transactions, under way.
ghost use Rattle.std.specs.Prelude.{◌≡◌, ◌+◌, ◌^◌, ◌<◌, ◌≤◌, ◌++◌, min, length, None, Some, IsOk, OnOk, OnErr, vec_len, vec_capacity};
ghost use Rattle.std.specs.Option.{option_map};
ghost use Rattle.std.specs.List.{slice_get};
ghost use Rattle.ots_model.specs.Limits.{reference_limit};
ghost use Rattle.two_phase.specs.Limits.{registration_limit};
ghost use Rattle.two_phase.specs.Stages.{longest};
ghost use Rattle.two_phase.specs.Course as course;
ghost use Rattle.two_phase.specs.Reports as reports;
ghost use Rattle.two_phase.specs.declared.party.Stage.TheVariants as stages;
ghost use Rattle.two_phase.specs.CourseInside.{IsOpen, ConsentedBefore};
ghost use Rattle.two_phase.specs.CourseInside as places;

use crate::dispositions::Dispositions;
use crate::parties::{
    add_owed_numbers, all_have_consented, all_through, by_one, first_refuser, gathered, hear,
    make_room, next_asked, next_forgetting, next_told, others_have_answered, some_owed,
};
use crate::party::{Errand, Party, Stage, cause_of};
use crate::room::Buffer;
use crate::stock::{Stock, enter};
use heuristic_join::{join_root, join_sub};
use ots_model::tree::{Outcome, Outward, Reason, Word};
use ots_model::{
    CallNumber, Decision, Ground, Join, PhaseHeard, PhaseReason, PhaseWord, Receipt, Stood,
};
use resource_votes::Walk;
use std::alloc::AllocError;
use std::marker::Model;

/// What was told and heard of a completion, with empty buffers for the references of the words to come.
#[derive(Drop)]
pub(crate) struct Course {
    pub parties: Vec<Party>,
    /// The first so many have consented, and aren't looked at again.
    pub consented: usize,
    /// The first so many have answered the word that tells the outcome, and aren't looked at again.
    pub told: usize,
    pub asked: bool,
    pub one_phase: bool,
    pub number: CallNumber,
    pub out: Option<Errand>,
    pub overtaken: Option<Reason>,
    pub stood: Option<Stood>,
    pub reread: Option<Option<u32>>,
    pub blanks: Vec<Buffer>,
}

impl Model for Course {
    ghost use Rattle.two_phase.specs.Course.{Course as Told};

    ghost Value = { Told };

    ghost use Rattle.two_phase.specs.CourseInside.{shown, IsSound};

    ghost view = { shown };

    ghost invariant = { IsSound };
}

impl Course {
    /// Begins, with participants that have answered nothing; where there is a reason, by rolling back. It needs no
    /// memory.
    pub fn begin(
        stock: Stock,
        walk: Walk<'_>,
        asked: bool,
        first: CallNumber,
        one_phase: bool,
        overtaken: Option<Reason>,
    ) -> Course
        requires room { length walk ≤ stock.places }
        requires fits { min (longest walk) reference_limit ≤ stock.octets }
        requires few { length walk ≤ registration_limit }
        requires serial { first.serial < 2 ^ 31 }
        ensures { result
            ≡ record (course.begun walk.entry asked first one_phase) { overtaken = overtaken } }
    {
        let Stock {
            size: _,
            octets: _,
            mut parties,
            mut blanks,
        } = stock;
        enter(walk, &mut blanks, &mut parties);
        Course {
            parties,
            consented: 0,
            told: 0,
            asked,
            one_phase,
            number: first,
            out: None,
            overtaken,
            stood: None,
            reread: None,
            blanks,
        }
    }

    /// The word that goes out next.
    #[tactic(auto, unfolding(crate::specs::Course::next_word))]
    pub fn next(&mut self) -> Option<Outward>
        ensures word { result ≡ course.next_word self.old }
        ensures after { self.new ≡ course.after_next self.old }
    {
        if self.out.is_some() {
            return None;
        }
        let fixed = self.outcome();
        let errand = self.errand(fixed)?;
        let word = self.word_of(errand.stage, fixed);
        Some(self.send(errand, word))
    }

    /// Sends a word to a participant.
    fn send(&mut self, errand: Errand, word: Word) -> Outward
        requires idle { (self.old).out ≡ None }
        requires unheard { IsOpen (self.old).parties (Some errand) }
        requires behind { ConsentedBefore errand.stage errand.place (self.old).parties }
        ensures word { Some result
            ≡ option_map (course.outward self.old word) (slice_get (self.old).parties errand.place) }
        ensures after { self.new ≡ record self.old { out = Some errand } }
    {
        let place = self.record_place();
        let blank = self.blanks.pop().unwrap();
        let party = &self.parties[errand.place];
        let outward = Outward {
            number: self.number,
            registration: party.index,
            to: blank.filled(&party.to),
            word,
            receipt: receipt_of(word, place, party.index),
        };
        self.out = Some(errand);
        self.consented = passed(errand, self.consented);
        outward
    }

    /// What was heard of the word with this number.
    pub fn answer(&mut self, number: CallNumber, heard: PhaseHeard)
        ensures { self.new ≡ course.after_answer number heard self.old }
    {
        let Some(errand) = self.out else {
            return;
        };
        if number == self.number {
            let next = following(self.number);
            hear(&mut self.parties, errand, heard);
            self.told = told_past(errand, self.told);
            self.number = next;
            self.out = None;
        }
    }

    /// Whether each participant has consented, one waits for the outcome, and the journal was not asked yet.
    pub fn wants_decision(&self) -> bool
        ensures { result ≡ course.wants_decision self.now }
    {
        !self.decides_alone()
            && self.overtaken.is_none()
            && self.stood.is_none()
            && self.all_consent()
            && self.some_commit()
    }

    /// What the journal answered to the decision record.
    pub fn decided(&mut self, stood: Stood)
        ensures { self.new ≡ course.after_decided stood self.old }
    {
        if self.wants_decision() {
            self.stood = Some(stood);
        }
    }

    /// Whether the journal was unsure, and was not read again.
    pub fn is_doubtful(&self) -> bool
        ensures { result ≡ course.is_doubtful self.now }
    {
        matches!(self.stood, Some(Stood::Unsure(_))) && self.reread.is_none()
    }

    /// Where the record stands in the journal that was read again, if it does.
    pub fn reread(&mut self, found: Option<u32>)
        ensures { self.new ≡ course.after_reread found self.old }
    {
        if self.is_doubtful() {
            self.reread = Some(found);
        }
    }

    /// Rolls back for a reason from outside.
    pub fn roll_back(&mut self, reason: Reason)
        ensures { self.new ≡ course.after_rollback reason self.old }
    {
        if !is_outside(reason) || !self.may_roll_back() {
            return;
        }
        let number = self.overtaken_number();
        self.number = number;
        self.out = None;
        self.overtaken = Some(reason);
    }

    /// The number of the next word, where one that is out is heard no more.
    fn overtaken_number(&self) -> CallNumber
        ensures { result ≡ course.overtaken_number self.now }
    {
        if self.out.is_some() {
            following(self.number)
        } else {
            self.number
        }
    }

    /// Whether the outcome isn't fixed, the journal was not asked, and nobody was told to decide alone.
    fn may_roll_back(&self) -> bool
        ensures { result ≡ course.may_roll_back self.now }
    {
        self.outcome().is_none()
            && self.stood.is_none()
            && !(self.decides_alone() && self.out.is_some())
    }

    /// How the transaction ends, as soon as that is fixed.
    #[tactic(auto, unfolding(crate::specs::Course::outcome))]
    pub fn outcome(&self) -> Option<Outcome>
        ensures { result ≡ course.outcome self.now }
    {
        if let Some(reason) = self.overtaken {
            return Some(Outcome::Rollback(reason));
        }
        if self.decides_alone() {
            by_one(&self.parties)
        } else {
            self.by_votes()
        }
    }

    /// The outcome by the votes, and by the record.
    fn by_votes(&self) -> Option<Outcome>
        ensures { result ≡ course.by_votes self.now }
    {
        if let Some(party) = first_refuser(self.consented, &self.parties) {
            return by_refusal(party);
        }
        if !self.all_consent() {
            None
        } else if self.some_commit() {
            by_record(self.stood, self.reread)
        } else {
            Some(Outcome::Commit(Ground::Nobody))
        }
    }

    /// Whether the decision record names this registration.
    pub fn is_named(&self, registration: u32) -> bool
        ensures { result ≡ course.is_named self.now registration }
    {
        self.parties
            .iter()
            .any(|p| p.index == registration && p.has_voted_commit())
    }

    /// What was heard of the updates so far.
    pub fn dispositions(&self) -> Dispositions
        ensures { result ≡ reports.dispositions self.now }
    {
        gathered(decision_by(self.outcome()), &self.parties)
    }

    /// What a root and its participants did together.
    pub fn root_join(&self) -> Join
        ensures { result ≡ reports.root_join self.now }
    {
        let heard = self.dispositions();
        match self.outcome() {
            None => Join::Nothing,
            Some(Outcome::Unknown) => Join::Hazard,
            Some(Outcome::Commit(_)) => join_root(Decision::Commit, heard.as_slice()),
            Some(Outcome::Rollback(_)) => join_root(Decision::Rollback, heard.as_slice()),
        }
    }

    /// What the participants of a subordinate did together, which was told the outcome.
    pub fn sub_join(&self) -> Join
        ensures { result ≡ reports.sub_join self.now }
    {
        let heard = self.dispositions();
        match self.outcome() {
            None => Join::Nothing,
            Some(Outcome::Unknown) => Join::Hazard,
            Some(Outcome::Commit(_)) => join_sub(Decision::Commit, heard.as_slice()),
            Some(Outcome::Rollback(_)) => join_sub(Decision::Rollback, heard.as_slice()),
        }
    }

    /// Whether all that were to be told the outcome have completed.
    pub fn all_completed(&self) -> bool
        ensures { result ≡ reports.all_completed self.now }
    {
        match self.outcome() {
            Some(fixed) => all_through(self.decides_alone(), fixed, &self.parties),
            None => false,
        }
    }

    /// Whether all have completed, and nobody keeps a heuristic outcome.
    pub fn is_settled(&self) -> bool
        ensures { result ≡ reports.is_settled self.now }
    {
        self.all_completed() && !some_owed(Stage::Forgetting, &self.parties)
    }

    /// Appends the numbers of those that are owed a word of this stage.
    pub fn add_owed(&self, stage: Stage, into: &mut Vec<u32>) -> Result<(), AllocError>
        ensures ok { OnOk result (into.new.items ≡ into.old.items ++ reports.owed_by stage self.now) }
        ensures err { OnErr result (into.new.items ≡ into.old.items) }
        ensures reserved { vec_len into.old + registration_limit ≤ vec_capacity into.old → IsOk result }
        ensures capacity { vec_capacity into.old ≤ vec_capacity into.new }
    {
        if !self.may_owe(stage) {
            return Ok(());
        }
        let made = make_room(self.parties.len(), into);
        if made.is_ok() {
            add_owed_numbers(stage, &self.parties, into);
        }
        made
    }

    /// Whether a word of this stage may be owed.
    fn may_owe(&self, stage: Stage) -> bool
        ensures { result ≡ reports.may_owe stage self.now }
    {
        match stage {
            Stage::Forgetting => is_commit(self.outcome()) || self.waits_for_superior(),
            Stage::Asking | Stage::Telling => is_commit(self.outcome()),
        }
    }

    /// Whether there is a single participant, which is to decide alone.
    pub fn decides_alone(&self) -> bool
        ensures { result ≡ course.decides_alone self.now }
    {
        self.one_phase && self.parties.len() == 1
    }

    /// Whether each participant has consented.
    #[tactic(auto, unfolding(crate::specs::Course::all_consent))]
    fn all_consent(&self) -> bool
        ensures { result ≡ course.all_consent self.now }
    {
        all_have_consented(self.consented, &self.parties)
    }

    /// Whether one has voted commit.
    #[tactic(auto, unfolding(crate::specs::Course::some_commit))]
    fn some_commit(&self) -> bool
        ensures { result ≡ course.some_commit self.now }
    {
        self.parties.iter().any(|p| p.has_voted_commit())
    }

    /// Who is sent a word next, where this is the outcome.
    #[tactic(auto, unfolding(crate::specs::Course::errand))]
    fn errand(&self, fixed: Option<Outcome>) -> Option<Errand>
        requires { fixed ≡ course.outcome self.now }
        ensures { result ≡ course.errand self.now }
    {
        match fixed {
            Some(fixed) => self.telling(fixed),
            None => self.asking(),
        }
    }

    /// The next one that is asked.
    fn asking(&self) -> Option<Errand>
        ensures { result ≡ course.asking self.now }
    {
        errand_at(Stage::Asking, next_asked(self.consented, &self.parties))
    }

    /// The next one that is told this outcome, and then to forget.
    fn telling(&self, fixed: Outcome) -> Option<Errand>
        ensures { result ≡ course.telling self.now fixed }
    {
        match next_told(self.told, self.decides_alone(), fixed, &self.parties) {
            Some(place) => Some(errand_to(Stage::Telling, place)),
            None => self.forgetting(fixed),
        }
    }

    /// The next one that is told to forget.
    fn forgetting(&self, fixed: Outcome) -> Option<Errand>
        ensures { result ≡ course.forgetting self.now fixed }
    {
        if self.may_forget(fixed) {
            errand_at(Stage::Forgetting, next_forgetting(&self.parties))
        } else {
            None
        }
    }

    /// Whether forget goes out once the outcome was told.
    fn may_forget(&self, fixed: Outcome) -> bool
        ensures { result ≡ course.may_forget self.now fixed }
    {
        match fixed {
            Outcome::Commit(_) => !self.waits_for_superior() && !self.some_incomplete(),
            _ => !self.waits_for_superior(),
        }
    }

    /// Whether one was told the outcome and has not completed.
    #[tactic(auto, unfolding(crate::specs::Course::some_incomplete))]
    fn some_incomplete(&self) -> bool
        ensures { result ≡ course.some_incomplete self.now }
    {
        self.parties.iter().any(|p| p.is_incomplete())
    }

    /// Whether a superior has the record, and tells forget itself.
    #[tactic(auto, unfolding(crate::specs::Course::waits_for_superior))]
    fn waits_for_superior(&self) -> bool
        ensures { result ≡ course.waits_for_superior self.now }
    {
        !self.one_phase && (self.record_place().is_some() || self.is_overtaken_prepared())
    }

    /// Whether all had consented when it was rolled back from outside.
    fn is_overtaken_prepared(&self) -> bool
        ensures { result ≡ course.is_overtaken_prepared self.now }
    {
        self.overtaken.is_some() && self.all_consent() && self.some_commit()
    }

    /// The word of a stage, where this is the outcome.
    fn word_of(&self, stage: Stage, fixed: Option<Outcome>) -> Word
        requires { fixed ≡ course.outcome self.now }
        ensures { result ≡ course.word_of self.now stage }
    {
        match stage {
            Stage::Asking => first_word(self.decides_alone()),
            Stage::Telling => outcome_word(fixed),
            Stage::Forgetting => Word::Forget,
        }
    }

    /// The registration whose vote the word that is out asks for.
    pub fn voter(&self) -> Option<u32>
        ensures { result ≡ course.voter self.now }
    {
        match self.out {
            Some(errand) => self.voter_of(errand),
            None => None,
        }
    }

    /// The registration whose vote this word asks for.
    fn voter_of(&self, errand: Errand) -> Option<u32>
        ensures { result ≡ course.voter_at self.now errand }
    {
        match errand.stage {
            Stage::Asking => self.voter_at(errand.place),
            Stage::Telling | Stage::Forgetting => None,
        }
    }

    /// The registration at this place, where each is asked for its vote.
    fn voter_at(&self, place: usize) -> Option<u32>
        ensures { result ≡ course.voter_at self.now (record { stage = stages.Asking; place = place }) }
    {
        if self.decides_alone() {
            return None;
        }
        match self.parties.get(place) {
            Some(party) => Some(party.index),
            None => None,
        }
    }

    /// Whether the word that is out is the last that asks: each other participant has answered its own.
    pub fn is_last_asked(&self) -> bool
        ensures { result ≡ course.is_last_asked self.now }
    {
        match self.out {
            Some(errand) => self.asks_last(errand),
            None => false,
        }
    }

    /// Whether this word, which is out, is the last that asks.
    #[tactic(auto, using(crate::proofs::Deciding::in_front, crate::proofs::Deciding::not_behind))]
    fn asks_last(&self, errand: Errand) -> bool
        requires there { errand.place < length (self.now).parties }
        requires out { (self.now).out ≡ Some errand }
        ensures { result ≡ course.asks_last (self.now).parties errand }
    {
        match errand.stage {
            Stage::Asking => others_have_answered(errand.place, &self.parties),
            Stage::Telling | Stage::Forgetting => false,
        }
    }

    /// Whether nobody knew at some time whether the record stands.
    pub fn was_doubtful(&self) -> bool
        ensures { result ≡ course.is_unsure (self.now).stood }
    {
        matches!(self.stood, Some(Stood::Unsure(_)))
    }

    /// The place at which the record stands.
    pub fn record_place(&self) -> Option<u32>
        ensures { result ≡ course.record_place (self.now).stood (self.now).reread }
    {
        match (self.stood, self.reread) {
            (Some(Stood::Stands(place)), _) => Some(place),
            (Some(Stood::Unsure(_)), Some(found)) => found,
            _ => None,
        }
    }
}

/// A word of this stage to the participant at this place.
fn errand_to(stage: Stage, place: usize) -> Errand
    ensures { result ≡ record { stage = stage; place = place } }
{
    Errand { stage, place }
}

/// The same, where there is such a participant.
fn errand_at(stage: Stage, place: Option<usize>) -> Option<Errand>
    ensures { result ≡ course.errand_at stage place }
{
    match place {
        Some(place) => Some(errand_to(stage, place)),
        None => None,
    }
}

/// How many in front have consented, once this word goes out.
fn passed(errand: Errand, consented: usize) -> usize
    ensures { result ≡ places.passed errand.stage errand.place consented }
{
    match errand.stage {
        Stage::Asking => errand.place,
        Stage::Telling | Stage::Forgetting => consented,
    }
}

/// How many in front were told the outcome, once this word was answered.
fn told_past(errand: Errand, told: usize) -> usize
    requires { errand.place + 1 < 2 ^ 64 }
    ensures { result ≡ places.told_past errand.stage errand.place told }
{
    if matches!(errand.stage, Stage::Telling) && errand.place == told {
        told + 1
    } else {
        told
    }
}

/// Whether a reason comes from outside.
pub(crate) fn is_outside(reason: Reason) -> bool
    ensures { result ≡ course.is_outside reason }
{
    matches!(
        reason,
        Reason::Asked
            | Reason::Marked
            | Reason::Timeout
            | Reason::SyncLost(_)
            | Reason::SyncStarved(_)
            | Reason::Superior
            | Reason::NotEnlisted
    )
}

/// What is decided by an outcome.
fn decision_by(outcome: Option<Outcome>) -> Decision
    ensures { result ≡ reports.decision_by outcome }
{
    match outcome {
        Some(Outcome::Commit(_)) => Decision::Commit,
        _ => Decision::Rollback,
    }
}

/// Whether an outcome is commit.
fn is_commit(outcome: Option<Outcome>) -> bool
    ensures { result ≡ reports.is_commit outcome }
{
    matches!(outcome, Some(Outcome::Commit(_)))
}

/// The outcome by an answer that is no consent.
fn by_refusal(party: &Party) -> Option<Outcome>
    ensures { result ≡ course.by_refusal party.now }
{
    let heard = party.ballot?;
    Some(Outcome::Rollback(cause_of(party.index, heard)))
}

/// The outcome by the record.
fn by_record(stood: Option<Stood>, reread: Option<Option<u32>>) -> Option<Outcome>
    ensures { result ≡ course.by_record stood reread }
{
    match stood? {
        Stood::Stands(_) => Some(Outcome::Commit(Ground::Record)),
        Stood::Full(used, need) => Some(Outcome::Rollback(Reason::Phase(PhaseReason::JournalFull(
            used, need,
        )))),
        Stood::Unsure(_) => by_reread(reread),
    }
}

/// The outcome by what a reread found.
fn by_reread(reread: Option<Option<u32>>) -> Option<Outcome>
    ensures { result ≡ course.by_reread reread }
{
    match reread? {
        Some(_) => Some(Outcome::Commit(Ground::Record)),
        None => Some(Outcome::Rollback(Reason::NotStored)),
    }
}

/// What each participant is sent first.
fn first_word(alone: bool) -> Word
    ensures { result ≡ course.first_word alone }
{
    if alone {
        Word::Phase(PhaseWord::CommitOnePhase)
    } else {
        Word::Phase(PhaseWord::Prepare)
    }
}

/// The word that tells an outcome.
fn outcome_word(fixed: Option<Outcome>) -> Word
    ensures { result ≡ course.outcome_word fixed }
{
    match fixed {
        Some(Outcome::Commit(_)) => Word::Phase(PhaseWord::Commit),
        _ => Word::Phase(PhaseWord::Rollback),
    }
}

/// The record that a commit word rests on.
fn receipt_of(word: Word, place: Option<u32>, registration: u32) -> Option<Receipt>
    ensures { result ≡ course.receipt_of word place registration }
{
    match (word, place) {
        (Word::Phase(PhaseWord::Commit), Some(place)) => Some(Receipt {
            place,
            registration,
        }),
        _ => None,
    }
}

/// The next number.
fn following(number: CallNumber) -> CallNumber
    requires { number.serial + 1 < 2 ^ 32 }
    ensures { result ≡ course.following number }
{
    CallNumber {
        serial: number.serial + 1,
        ..number
    }
}
