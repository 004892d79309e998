ghost use Rattle.std.specs.Prelude.{◌≡◌, ◌≢◌, ℕ, ◌^◌, ◌<◌, ◌≤◌, ◌++◌, ◌+◌, None, IsTrue, IsOk, IfOk, OnOk, OnErr, vec_len, vec_capacity};
ghost use Rattle.std.specs.Option.{SomeIff};
ghost use Rattle.ots_model.specs.Heard.{of_participant};
ghost use Rattle.ots_model.specs.declared.completion.Heard.TheVariants.{Lost};
ghost use Rattle.resource_votes.specs.Limits.{list_count};
ghost use Rattle.resource_votes.specs.Ballots.{participants};
ghost use Rattle.two_phase.specs.Course as course;
ghost use Rattle.two_phase.specs.Stages as stages;
ghost use Rattle.ots_model.specs.Limits.{reference_limit, registration_limit};
ghost use Rattle.two_phase.specs.Stages.{Waiting, Going, HasRoom, HasRoomFor, IsGoing, no_room};

use crate::course::{Course, is_outside};
use crate::dispositions::Dispositions;
use crate::party::Stage;
use crate::stock::Stock;
use heuristic_join::report;
use ots_model::tree::{Heard, Outcome, Outward, Reason};
use ots_model::{CallNumber, Join, PhaseHeard, REFERENCE_LIMIT, Stood};
use resource_votes::Votes;
use std::alloc::{AllocError, Global};
use std::marker::Model;

/// The completion of a tree of transactions: whom the top-level transaction asks and tells, and how it ends. Contracts see
/// it as what it was told and has heard.
#[derive(Drop)]
pub struct Completion {
    state: Standing,
}

/// Whether it has started.
#[derive(Drop)]
enum Standing {
    Waiting(Stock),
    Going(Course),
}

impl Model for Completion {
    ghost use Rattle.two_phase.specs.Stages.{Standing as Stands};

    ghost Value = { Stands };

    ghost use Rattle.two_phase.specs.StandingInside.{shown};

    ghost view = { shown };
}

impl Completion {
    /// A completion that hasn't started, and has no room.
    pub fn idle(alloc: Global) -> Completion
        ensures idle { result ≡ Waiting no_room }
    {
        Completion {
            state: Standing::Waiting(Stock::new(alloc)),
        }
    }

    /// Takes room for so many participants and for all words to them, where it hasn't started. Want of memory leaves it
    /// as it was.
    pub fn reserve(&mut self, participants: u32) -> Result<(), AllocError>
        ensures ok { OnOk result
            (self.new ≡ stages.after_reserve participants reference_limit self.old) }
        ensures err { OnErr result (self.new ≡ self.old) }
        ensures there { HasRoomFor self.old participants reference_limit → IsOk result }
        ensures under_way { IsGoing self.old → IsOk result }
    {
        self.reserve_within(participants, REFERENCE_LIMIT)
    }

    /// The same, where their references have at most so many octets: less memory then serves for the words to them.
    pub fn reserve_within(&mut self, participants: u32, octets: usize) -> Result<(), AllocError>
        ensures ok { OnOk result (self.new ≡ stages.after_reserve participants octets self.old) }
        ensures err { OnErr result (self.new ≡ self.old) }
        ensures there { HasRoomFor self.old participants octets → IsOk result }
        ensures under_way { IsGoing self.old → IsOk result }
    {
        match &mut self.state {
            Standing::Waiting(stock) => stock.reserve(participants, octets),
            Standing::Going(_) => Ok(()),
        }
    }

    /// Begins. It needs no memory. `first` is the number of the first word. Where `one_phase` is false this is the
    /// completion of a subordinate: a single participant is sent prepare as well, and forget waits for the superior's
    /// where a record stands.
    pub fn start(
        &mut self,
        votes: &Votes,
        top: u32,
        asked: bool,
        first: CallNumber,
        one_phase: bool,
    )
        requires there { top < list_count }
        requires room { HasRoom self.old (participants top votes.now.ballots) }
        requires serial { first.serial < 2 ^ 31 }
        ensures started { self.new
            ≡ stages.started (participants top votes.now.ballots) asked first one_phase }
    {
        self.begin_with(votes, top, asked, first, one_phase, None);
    }

    /// Begins with a rollback for a reason from outside, as that of a transaction that was never asked to commit: nobody is
    /// asked, and each participant is told. It needs no memory. With any other reason it begins as `start` has it.
    pub fn start_rollback(
        &mut self,
        votes: &Votes,
        top: u32,
        asked: bool,
        first: CallNumber,
        one_phase: bool,
        reason: Reason,
    )
        requires there { top < list_count }
        requires room { HasRoom self.old (participants top votes.now.ballots) }
        requires serial { first.serial < 2 ^ 31 }
        ensures started { self.new
            ≡ stages.started_rollback (participants top votes.now.ballots) asked first one_phase reason }
    {
        let reason = is_outside(reason).then_some(reason);
        self.begin_with(votes, top, asked, first, one_phase, reason);
    }

    /// Begins; where there is a reason, by rolling back. It needs no memory.
    fn begin_with(
        &mut self,
        votes: &Votes,
        top: u32,
        asked: bool,
        first: CallNumber,
        one_phase: bool,
        overtaken: Option<Reason>,
    )
        requires there { top < list_count }
        requires room { HasRoom self.old (participants top votes.now.ballots) }
        requires serial { first.serial < 2 ^ 31 }
        ensures { self.new ≡ Going
            (record (course.begun (participants top votes.now.ballots) asked first one_phase)
            { overtaken = overtaken }) }
    {
        if let Standing::Waiting(stock) = &mut self.state {
            let stock = stock.take();
            let walk = votes.participants(top);
            self.state = Standing::Going(Course::begin(
                stock, walk, asked, first, one_phase, overtaken,
            ));
        }
    }

    /// A completion that begins with the participants of this transaction: `idle`, `reserve` and `start` in one.
    pub fn begin(
        alloc: Global,
        votes: &Votes,
        top: u32,
        asked: bool,
        first: CallNumber,
        one_phase: bool,
    ) -> Result<Completion, AllocError>
        requires there { top < list_count }
        requires serial { first.serial < 2 ^ 31 }
        ensures started { IfOk result (λ c. c
            ≡ stages.started (participants top votes.now.ballots) asked first one_phase) }
    {
        let mut completion = Completion::idle(alloc);
        completion.reserve(votes.participants(top).count() as u32)?;
        completion.start(votes, top, asked, first, one_phase);
        Ok(completion)
    }

    /// The word that goes out next. There is none before it starts, while one is out, while a decision is wanted or nobody
    /// knows whether it stands, while forget waits for those that have not completed or for the superior, and at the end.
    pub fn next(&mut self) -> Option<Outward>
        ensures word { result ≡ stages.next_word self.old }
        ensures after { self.new ≡ stages.after_next self.old }
    {
        match &mut self.state {
            Standing::Waiting(_) => None,
            Standing::Going(course) => course.next(),
        }
    }

    /// What was heard of the word with this number. A number that isn't out changes nothing.
    pub fn answer(&mut self, number: &CallNumber, heard: &Heard)
        ensures after { self.new ≡ stages.after_answer number.now (of_participant heard.now) self.old }
    {
        if let Standing::Going(course) = &mut self.state {
            course.answer(*number, heard.of_participant());
        }
    }

    /// The word with this number is lost. A number that isn't out changes nothing.
    pub fn lost(&mut self, number: &CallNumber)
        ensures after { self.new ≡ stages.after_answer number.now Lost self.old }
    {
        if let Standing::Going(course) = &mut self.state {
            course.answer(*number, PhaseHeard::Lost);
        }
    }

    /// Whether the journal is to be asked for the decision record: each participant has consented, one waits for the outcome,
    /// none decides alone, it wasn't rolled back from outside, and the journal was not asked yet.
    pub fn wants_decision(&self) -> bool
        ensures wanted { result ≡ stages.wants_decision self.now }
    {
        match &self.state {
            Standing::Waiting(_) => false,
            Standing::Going(course) => course.wants_decision(),
        }
    }

    /// What the journal answered to the decision record. Where no decision is wanted, this changes nothing. A subordinate
    /// decides by its superior's word: that its own record stands is told once the superior has committed, and that it is
    /// in doubt only where a reread has found none.
    pub fn decided(&mut self, stood: Stood)
        ensures after { self.new ≡ stages.after_decided stood self.old }
    {
        if let Standing::Going(course) = &mut self.state {
            course.decided(stood);
        }
    }

    /// Whether nobody knows whether the decision record stands: the journal was unsure, and was not read again.
    pub fn is_doubtful(&self) -> bool
        ensures doubtful { result ≡ stages.is_doubtful self.now }
    {
        match &self.state {
            Standing::Waiting(_) => false,
            Standing::Going(course) => course.is_doubtful(),
        }
    }

    /// Where a reread of the journal found the decision record, if it did. Where the record isn't in doubt, this changes
    /// nothing.
    pub fn reread(&mut self, found: Option<u32>)
        ensures after { self.new ≡ stages.after_reread found self.old }
    {
        if let Standing::Going(course) = &mut self.state {
            course.reread(found);
        }
    }

    /// Rolls back for a reason from outside, as the client's rollback, a mark, or the superior's word. The word that is out
    /// is heard no more. Where the outcome is fixed, as it is from the start where nobody takes part, the journal was asked,
    /// the only participant was told to decide, or the reason is none from outside, this changes nothing.
    pub fn roll_back(&mut self, reason: Reason)
        ensures after { self.new ≡ stages.after_rollback reason self.old }
    {
        if let Standing::Going(course) = &mut self.state {
            course.roll_back(reason);
        }
    }

    /// Whether there is a single participant, which is to decide alone.
    pub fn decides_alone(&self) -> bool
        ensures alone { result ≡ stages.decides_alone self.now }
    {
        match &self.state {
            Standing::Waiting(_) => false,
            Standing::Going(course) => course.decides_alone(),
        }
    }

    /// The number of the word that is out, or else of the next one, where it has started.
    pub fn number(&self) -> Option<CallNumber>
        ensures number { result ≡ stages.number self.now }
    {
        match &self.state {
            Standing::Waiting(_) => None,
            Standing::Going(course) => Some(course.number),
        }
    }

    /// The registration whose vote the word that is out asks for.
    pub fn voter(&self) -> Option<u32>
        ensures voter { result ≡ stages.voter self.now }
    {
        match &self.state {
            Standing::Waiting(_) => None,
            Standing::Going(course) => course.voter(),
        }
    }

    /// Whether the word that is out is the last that asks for a first answer: each other participant has given its own.
    pub fn is_last_asked(&self) -> bool
        ensures last { result ≡ stages.is_last_asked self.now }
    {
        match &self.state {
            Standing::Waiting(_) => false,
            Standing::Going(course) => course.is_last_asked(),
        }
    }

    /// Whether nobody knew at some time whether the decision record stands.
    pub fn was_doubtful(&self) -> bool
        ensures doubtful { result ≡ stages.was_doubtful self.now }
    {
        match &self.state {
            Standing::Waiting(_) => false,
            Standing::Going(course) => course.was_doubtful(),
        }
    }

    /// The place at which the decision record stands.
    pub fn record_place(&self) -> Option<u32>
        ensures place { result ≡ stages.record_place self.now }
    {
        match &self.state {
            Standing::Waiting(_) => None,
            Standing::Going(course) => course.record_place(),
        }
    }

    /// Whether the decision record names this registration: it takes part, and has voted commit.
    pub fn is_named(&self, registration: u32) -> bool
        ensures named { result ≡ stages.is_named self.now registration }
    {
        match &self.state {
            Standing::Waiting(_) => false,
            Standing::Going(course) => course.is_named(registration),
        }
    }

    /// How the transaction ends, as soon as that is fixed.
    pub fn outcome(&self) -> Option<Outcome>
        ensures outcome { result ≡ stages.outcome self.now }
    {
        match &self.state {
            Standing::Waiting(_) => None,
            Standing::Going(course) => course.outcome(),
        }
    }

    /// Whether the client asked for reports of heuristic outcomes (`report_heuristics` of `commit`).
    pub fn asked(&self) -> bool
        ensures asked { result ≡ stages.asked self.now }
    {
        match &self.state {
            Standing::Waiting(_) => false,
            Standing::Going(course) => course.asked,
        }
    }

    /// What was heard of the participants' updates so far, in list order: a heuristic exception of the first word, and each
    /// answer to the word that tells the outcome.
    pub fn dispositions(&self) -> Dispositions
        ensures dispositions { result ≡ stages.dispositions self.now }
    {
        match &self.state {
            Standing::Waiting(_) => Dispositions::new(),
            Standing::Going(course) => course.dispositions(),
        }
    }

    /// What a root and its participants did together, by what was heard so far. Where the only participant was to decide
    /// and didn't tell, that is a hazard.
    pub fn root_join(&self) -> Join
        ensures join { result ≡ stages.root_join self.now }
    {
        match &self.state {
            Standing::Waiting(_) => Join::Nothing,
            Standing::Going(course) => course.root_join(),
        }
    }

    /// What the participants of a subordinate did together, by what was heard so far.
    pub fn sub_join(&self) -> Join
        ensures join { result ≡ stages.sub_join self.now }
    {
        match &self.state {
            Standing::Waiting(_) => Join::Nothing,
            Standing::Going(course) => course.sub_join(),
        }
    }

    /// The heuristic exception by which a root answers its client, where it asked for reports and there is one to make.
    pub fn report(&self) -> Option<Join>
        ensures reported { SomeIff result
            (IsTrue (stages.asked self.now) × (stages.root_join self.now ≢ Join.Nothing))
            (stages.root_join self.now) }
    {
        report(self.root_join(), self.asked())
    }

    /// Whether the outcome is fixed, and each that was to be told it has completed: it answered plainly, by
    /// OBJECT_NOT_EXIST, or by a heuristic exception.
    pub fn all_completed(&self) -> bool
        ensures completed { result ≡ stages.all_completed self.now }
    {
        match &self.state {
            Standing::Waiting(_) => false,
            Standing::Going(course) => course.all_completed(),
        }
    }

    /// Whether all have completed, and each that raised a heuristic exception has answered forget plainly or by
    /// OBJECT_NOT_EXIST: the decision record may be named done. A forget that waits for the superior's is sent by the
    /// caller and isn't heard of here, so where one does this stays false. Where all is settled there is no word to send.
    #[tactic(auto, using(crate::proofs::SettledSilent::settled_is_silent))]
    pub fn is_settled(&self) -> bool
        ensures settled { result ≡ stages.is_settled self.now }
        ensures silent { IsTrue result → stages.next_word self.now ≡ None }
    {
        match &self.state {
            Standing::Waiting(_) => false,
            Standing::Going(course) => course.is_settled(),
        }
    }

    /// Appends the registrations that are still to be told to commit, in list order: each that has voted commit and hasn't
    /// completed. There are none where the outcome isn't commit.
    pub fn pending_commits(&self, into: &mut Vec<u32>) -> Result<(), AllocError>
        ensures ok { OnOk result (into.new.items ≡ into.old.items ++ stages.pending_commits self.now) }
        ensures err { OnErr result (into.new.items ≡ into.old.items) }
        ensures reserved { vec_len into.old + registration_limit ≤ vec_capacity into.old → IsOk result }
        ensures capacity { vec_capacity into.old ≤ vec_capacity into.new }
    {
        match &self.state {
            Standing::Waiting(_) => Ok(()),
            Standing::Going(course) => course.add_owed(Stage::Telling, into),
        }
    }

    /// Appends the registrations that are still to be told to forget, in list order: each that has raised a heuristic
    /// exception and hasn't answered forget plainly or by OBJECT_NOT_EXIST. Where the outcome isn't commit there are only
    /// those whose forget waits for the superior's.
    pub fn pending_forgets(&self, into: &mut Vec<u32>) -> Result<(), AllocError>
        ensures ok { OnOk result (into.new.items ≡ into.old.items ++ stages.pending_forgets self.now) }
        ensures err { OnErr result (into.new.items ≡ into.old.items) }
        ensures reserved { vec_len into.old + registration_limit ≤ vec_capacity into.old → IsOk result }
        ensures capacity { vec_capacity into.old ≤ vec_capacity into.new }
    {
        match &self.state {
            Standing::Waiting(_) => Ok(()),
            Standing::Going(course) => course.add_owed(Stage::Forgetting, into),
        }
    }
}
