// What each rule is made of: calls begin, wait, send and end.
ghost use Rattle.std.specs.Prelude.{◌≡◌, ◌<◌, ◌≤◌, ◌+◌, [], length, Some, None, IsSome, false};
ghost use Rattle.resource_votes.specs.Limits.{synchronization_limit};
ghost use Rattle.std.specs.Option.{option_copied};
ghost use Rattle.family_rules.specs.Calls.{plain_call, said_of};
ghost use Rattle.coordinator.specs.Closing.{next_synchronization, notice_of};
ghost use Rattle.coordinator.specs.Family as families;
ghost use Rattle.family_rules.specs.Going.{Does};
ghost use Rattle.coordinator.specs.Moves as moves;

use crate::call::{Call, Reply};
use crate::draft::Draft;
use crate::state::{State, TOP};
use ots_model::CallNumber;
use ots_model::tree::Outward;
use resource_votes::Registration;

impl State {
    /// The number of a word of this family.
    pub(crate) fn number_of(&self, serial: u32) -> CallNumber
        ensures { result ≡ families.number_of self.now.family serial }
    {
        CallNumber {
            life: self.key.life,
            slot: self.key.slot,
            generation: self.key.generation,
            serial,
        }
    }

    /// The number of its next word.
    pub(crate) fn next_number(&self) -> CallNumber
        requires { (self.now.family).serial ≤ length (self.now.family).entries }
        ensures { result ≡ families.number_of self.now.family ((self.now.family).serial + 1) }
    {
        self.number_of(self.serial + 1)
    }

    /// The synchronization behind so many.
    #[tactic(auto, using(std::proofs::lemmas::Option::slice_get_past, std::proofs::lemmas::Option::slice_get_within))]
    pub(crate) fn next_sync(&self, called: u32) -> Option<&Registration>
        ensures next { option_copied result ≡ next_synchronization self.now.family called }
        ensures few { IsSome result → called < synchronization_limit }
    {
        self.votes.sync(called.checked_add(1)?)
    }

    /// A call waits.
    #[tactic(auto, using(crate::proofs::Seated::set_plain, crate::proofs::Kept::tasks_set, crate::proofs::Kept::tasks_at, crate::proofs::Tallied::tallied_called, crate::proofs::Tallied::few_open))]
    pub(crate) fn set_call(&mut self, branch: u32, call: Call)
        requires there { branch < length (self.old.family).rows }
        requires plain { call.owes ≡ false }
        ensures does { self.new.family ≡ families.with_call branch (plain_call call) self.old.family }
        ensures kept { self.old.history_room ≤ self.new.history_room }
    {
        let seat = &mut self.seats[branch as usize];
        let had = seat.call.is_some();
        self.outs.change(branch, seat.awaited(), call.out);
        seat.call = Some(call);
        self.tally = self.tally.with_call(had);
    }

    /// No call ends this transaction any more.
    #[tactic(auto, using(crate::proofs::Seated::set_none, crate::proofs::Kept::tasks_set, crate::proofs::Kept::tasks_at, crate::proofs::Tallied::tallied_cleared, crate::proofs::Tallied::some_open))]
    pub(crate) fn clear_call(&mut self, branch: u32)
        requires there { branch < length (self.old.family).rows }
        ensures does { self.new.family ≡ families.without_call branch self.old.family }
        ensures kept { self.old.history_room ≤ self.new.history_room }
    {
        let seat = &mut self.seats[branch as usize];
        let had = seat.call.is_some();
        self.outs.change(branch, seat.awaited(), None);
        seat.call = None;
        self.tally = self.tally.without_call(had);
    }

    /// The next word is out, and a call waits for its answer.
    pub(crate) fn await_answer(&mut self, branch: u32, call: Call)
        requires there { branch < length (self.old.family).rows }
        requires plain { call.owes ≡ false }
        requires serial { (self.old.family).serial ≤ length (self.old.family).entries }
        ensures does { self.new.family ≡ families.with_call branch
            (record (plain_call call) { out = Some ((self.old.family).serial + 1) })
            (record self.old.family { serial = (self.old.family).serial + 1 }) }
        ensures kept { self.old.history_room ≤ self.new.history_room }
    {
        self.serial += 1;
        let out = Some(self.serial);
        self.set_call(branch, Call { out, ..call });
    }

    /// A word of the completion goes out, and its call waits for the answer.
    #[tactic(auto, unfolding(coordinator::specs::Moves::sends))]
    pub(crate) fn send(&mut self, call: Call, word: Outward, out: &mut Draft)
        requires some { 0 < length (self.old.family).rows }
        requires plain { call.owes ≡ false }
        requires serial { (self.old.family).serial ≤ length (self.old.family).entries }
        requires quiet { out.old.changes.words ≡ [] }
        ensures does { Does self.old.family out.old (moves.sends 0 (plain_call call) (notice_of word) word.receipt)
            self.new.family out.new }
        ensures kept { self.old.history_room ≤ self.new.history_room }
    {
        let number = self.next_number();
        out.send(Outward { number, ..word });
        self.await_answer(TOP, call);
    }

    /// A call is over, and is answered.
    #[tactic(auto, unfolding(coordinator::specs::Moves::ends_call))]
    pub(crate) fn end_call(&mut self, branch: u32, call: Call, reply: Reply, out: &mut Draft)
        requires there { branch < length (self.old.family).rows }
        requires room { 0 < out.old.room }
        ensures does { Does self.old.family out.old (moves.ends_call branch (plain_call call) (said_of reply))
            self.new.family out.new }
        ensures kept { self.old.history_room ≤ self.new.history_room }
    {
        self.clear_call(branch);
        out.answer(call.caller, reply);
    }
}
