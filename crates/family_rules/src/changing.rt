// What a family shows of what it keeps, and what a client's call and a step change of it.
ghost use Rattle.std.specs.Prelude.{◌≡◌, ℕ, ◌<◌, ◌≤◌, ◌+◌, ◌∷◌, ◌++◌, [], length, is_none, false, IsTrue};
ghost use Rattle.txn_tree.specs.Calls.{creating, ended};
ghost use Rattle.txn_tree.specs.Limits.{transaction_limit};
ghost use Rattle.resource_votes.specs.Ballots as ballots;
ghost use Rattle.coordinator.specs.Family.{call_at};
ghost use Rattle.coordinator.specs.Limits.{history_limit};
ghost use Rattle.coordinator.specs.Phases as phases;
ghost use Rattle.coordinator.specs.Running.{left_by};
ghost use Rattle.coordinator.specs.Step as steps;
ghost use Rattle.coordinator.specs.Table as table;
ghost use Rattle.two_phase.specs.Stages as stages;
ghost use Rattle.family_rules.specs.Asking.{Creates, Registers};

use crate::call::Seat;
use crate::state::State;
use coordinator::{Entry, Stage};
use ior_refs::ObjectKey;
use ots_model::RefBytes;
use resource_votes::VoteFault;
use std::alloc::Global;
use std::collections::VecDeque;
use txn_tree::TreeFault;

impl State {
    /// The key with which it was made.
    pub fn key(&self) -> &ObjectKey
        ensures { result.now ≡ (self.now.family).key }
    {
        &self.key
    }

    /// Where its memory comes from.
    pub fn allocator(&self) -> Global {
        *self.entries.allocator()
    }

    /// What has happened, in order.
    pub fn entries(&self) -> &[Entry]
        ensures { result.now ≡ (self.now.family).entries }
    {
        self.entries.as_slice()
    }

    /// How much has happened.
    pub fn entry_count(&self) -> u32
        ensures count { result ≡ length (self.now.family).entries }
        ensures few { result ≤ history_limit }
    {
        self.entries.len() as u32
    }

    /// How many transactions there are.
    pub fn branch_count(&self) -> u32
        ensures count { result ≡ length (self.now.family).rows }
        ensures some { 0 < result }
        ensures few { result ≤ transaction_limit }
    {
        self.tree.count()
    }

    /// Whether it is a root, which has no superior.
    pub fn is_root(&self) -> bool
        ensures { result ≡ is_none (self.now.family).superior }
    {
        self.superior.is_none()
    }

    /// How far the top-level transaction has come.
    pub fn stage(&self) -> Stage
        ensures { result ≡ (self.now.family).stage }
    {
        self.stage
    }

    /// Whether its time is over.
    pub fn is_over(&self, now: u64) -> bool
        ensures { result ≡ steps.is_over (self.now.family).deadline now }
    {
        match self.deadline {
            Some(deadline) => deadline <= now,
            None => false,
        }
    }

    /// Whether there is this registration.
    pub fn has_registration(&self, registration: u32) -> bool
        ensures { result ≡ table.has_registration self.now.family registration }
    {
        registration > 0 && registration <= self.votes.count()
    }

    /// Whether a registration takes part and has voted commit.
    #[tactic(auto, using(crate::proofs::Unroomed::unroomed_is_named))]
    pub fn is_named(&self, registration: u32) -> bool
        ensures { result ≡ stages.is_named (self.now.family).completion registration }
    {
        self.completion.is_named(registration)
    }

    /// The moment is known at which its time is over.
    pub fn set_deadline(&mut self, deadline: Option<u64>)
        ensures family { self.new.family ≡ record self.old.family { deadline = deadline } }
        ensures kept { self.old.history_room ≤ self.new.history_room }
    {
        self.deadline = deadline;
    }

    /// The commit of the top-level transaction has begun.
    pub fn begin_finishing(&mut self)
        ensures family { self.new.family ≡ record self.old.family { stage = Stage.Finishing } }
        ensures kept { self.old.history_room ≤ self.new.history_room }
    {
        self.stage = Stage::Finishing;
    }

    /// A subtransaction that was open has ended, rolled back.
    pub fn close_sub(&mut self, branch: u32)
        requires there { branch < length (self.old.family).rows }
        requires below { 0 < branch }
        requires opened { IsTrue (phases.is_open (phases.column self.old.family branch)) }
        ensures family { self.new.family
            ≡ record self.old.family { rows = ended (self.old.family).rows branch false } }
        ensures kept { self.old.history_room ≤ self.new.history_room }
    {
        self.tree.close(branch, false);
    }

    /// Registers a resource that takes part, in memory that was taken before.
    pub fn register(&mut self, branch: u32, to: RefBytes, aware: bool) -> Result<u32, VoteFault>
        requires there { branch < length (self.old.family).rows }
        requires room { 0 < self.old.room }
        requires fits { length to ≤ self.old.reach }
        ensures registered { Registers
            (ballots.registering (self.old.family).rows branch (self.old.family).ballots)
            (length (self.old.family).ballots.registrations + 1)
            (ballots.registered branch to aware (self.old.family).ballots)
            self.old.family self.new.family result }
        ensures kept { self.old.history_room ≤ self.new.history_room }
    {
        self.votes.register(&self.tree, branch, to, aware)
    }

    /// Registers a resource that is told of the end of a subtransaction, in memory that was taken before.
    pub fn register_aware(&mut self, branch: u32, to: RefBytes) -> Result<u32, VoteFault>
        requires there { branch < length (self.old.family).rows }
        requires room { 0 < self.old.room }
        requires fits { length to ≤ self.old.reach }
        ensures registered { Registers
            (ballots.registering_aware (self.old.family).rows branch (self.old.family).ballots)
            (length (self.old.family).ballots.registrations + 1)
            (ballots.registered_aware branch to (self.old.family).ballots)
            self.old.family self.new.family result }
        ensures kept { self.old.history_room ≤ self.new.history_room }
    {
        self.votes.register_aware(&self.tree, branch, to)
    }

    /// Registers a synchronization, in memory that was taken before.
    pub fn register_sync(&mut self, branch: u32, to: RefBytes) -> Result<u32, VoteFault>
        requires there { branch < length (self.old.family).rows }
        requires room { 0 < self.old.room }
        ensures registered { Registers
            (ballots.registering_sync (self.old.family).rows branch (self.old.family).ballots)
            (length (self.old.family).ballots.synchronizations + 1)
            (ballots.registered_sync branch to (self.old.family).ballots)
            self.old.family self.new.family result }
        ensures kept { self.old.history_room ≤ self.new.history_room }
    {
        self.votes.register_sync(&self.tree, branch, to)
    }

    /// Makes a subtransaction, in memory that was taken before.
    pub fn create_sub(&mut self, branch: u32) -> Result<u32, TreeFault>
        requires there { branch < length (self.old.family).rows }
        requires room { 0 < self.old.room }
        ensures made { Creates (creating (self.old.family).rows branch) branch
            self.old.family self.new.family result }
        ensures kept { self.old.history_room ≤ self.new.history_room }
    {
        let made = self.tree.create_sub(branch);
        if made.is_ok() {
            let alloc = *self.seats.allocator();
            self.seats.push_reserved(Seat {
                call: None,
                left: VecDeque::new(alloc),
            });
        }
        made
    }

    /// The history gets an entry, in memory that was taken before.
    pub fn enter(&mut self, entry: Entry)
        requires few { length (self.old.family).entries < history_limit }
        requires room { 0 < self.old.history_room }
        ensures family { self.new.family
            ≡ record self.old.family { entries = (self.old.family).entries ++ entry ∷ [] } }
        ensures serial { (self.new.family).serial ≤ length (self.new.family).entries }
    {
        self.entries.push_reserved(entry);
    }

    /// No call of its has more left to tell of a rollback below it.
    pub fn most_left(&self) -> usize
        ensures { (b : ℕ) → length (left_by (call_at self.now.family b)) ≤ result }
    {
        self.tally.most
    }
}
