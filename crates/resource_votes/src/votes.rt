ghost use Rattle.std.specs.Prelude.{◌≡◌, ◌≢◌, ℕ, ◌+◌, ◌<◌, ◌≤◌, ◌↔◌, length, Some, None, IsTrue, IsOk, IsErr, IfOk, OnOk, OnErr, IfSome, IfNone, IsErrOf, find};
ghost use Rattle.std.specs.Option.{option_copied};
ghost use Rattle.resource_votes.specs.Limits.{list_count, registration_limit, synchronization_limit};
ghost use Rattle.resource_votes.specs.Ballots as ballots;
ghost use Rattle.resource_votes.specs.Numbers.{AreFew, AreOnce, ArePlaces};
ghost use Rattle.resource_votes.specs.VotesInside.{AreNumbered};

use crate::links::Links;
use crate::registration::{Registration, VoteFault};
use crate::walk::Walk;
use ots_model::{RefBytes, Status, Vote};
use std::alloc::{AllocError, Global};
use std::marker::Model;
use txn_tree::Tree;

/// How many registrations a tree has at most, of both kinds together (our profile).
pub const REGISTRATION_LIMIT: usize = 64;

/// How many synchronizations a tree has at most (our profile).
pub const SYNCHRONIZATION_LIMIT: usize = 64;

/// The branch of the top-level transaction.
const TOP: u32 = 0;

/// The registrations with the transactions of a tree. Contracts see the registrations, their votes, the synchronizations,
/// the list of each branch, and for how many more registrations memory is taken.
#[derive(Drop)]
pub struct Votes {
    registrations: Vec<Registration>,
    votes: Vec<Option<Vote>>,
    synchronizations: Vec<Registration>,
    links: Links,
}

impl Model for Votes {
    ghost use Rattle.resource_votes.specs.Ballots.{VotesParts};

    ghost Value = { VotesParts };

    ghost use Rattle.resource_votes.specs.VotesInside.{shown, IsSound};

    ghost view = { shown };

    ghost invariant = { IsSound };
}

impl Votes {
    /// Nothing is registered.
    #[tactic(auto, using(crate::proofs::Once::none_once, crate::proofs::Once::none_few))]
    pub fn new(alloc: Global) -> Result<Votes, AllocError>
        ensures none { IfOk result (λ votes. votes.ballots ≡ ballots.no_ballots) }
    {
        Ok(Votes {
            registrations: Vec::new(alloc),
            votes: Vec::new(alloc),
            synchronizations: Vec::new(alloc),
            links: Links::new(alloc)?,
        })
    }

    /// How many registrations there are, of both kinds together; they have the numbers from 1 up to it, in the order of their
    /// calls, and each number stands in one list at most, once. Synchronizations have numbers of their own in the same way.
    #[tactic(auto, using(crate::proofs::Numbered::placed))]
    pub fn count(&self) -> u32
        ensures count { result ≡ length self.now.ballots.registrations }
        ensures few { result ≤ registration_limit }
        ensures places { ArePlaces self.now.ballots.registrations }
        ensures synchronizations { ArePlaces self.now.ballots.synchronizations }
        ensures once { AreOnce self.now.ballots.lists (length self.now.ballots.registrations) }
        ensures few_numbers { AreFew self.now.ballots.lists (length self.now.ballots.registrations) }
    {
        self.registrations.len() as u32
    }

    /// Takes memory for one more registration of any kind, where there is none yet.
    pub fn reserve(&mut self) -> Result<(), AllocError>
        ensures ok { OnOk result (0 < self.new.room) }
        ensures there { 0 < self.old.room → IsOk result }
        ensures same { self.new.ballots ≡ self.old.ballots }
        ensures room { self.old.room ≤ self.new.room }
    {
        if self.is_packed() {
            self.registrations.reserve(1)?;
            self.votes.reserve(1)?;
            self.synchronizations.reserve(1)?;
            self.links.reserve()?;
        }
        Ok(())
    }

    /// Registers a resource that takes part in this transaction (`register_resource`). `aware` tells whether it is also told
    /// of the end of the subtransaction. What is asked of the transaction is looked at before memory is wanted.
    pub fn register(
        &mut self,
        tree: &Tree,
        branch: u32,
        to: RefBytes,
        aware: bool,
    ) -> Result<u32, VoteFault>
        requires there { branch < length tree.now.rows }
        ensures ok { OnOk result (self.new.ballots ≡ ballots.registered branch to aware self.old.ballots) }
        ensures index { IfOk result (λ index. index ≡ length self.old.ballots.registrations + 1) }
        ensures answer { ballots.AnswersTo (ballots.registering tree.now.rows branch self.old.ballots)
            self.old.room result }
        ensures err { OnErr result (self.new.ballots ≡ self.old.ballots) }
        ensures room { OnErr result (self.old.room ≤ self.new.room) }
    {
        self.registering(tree, branch)?;
        self.make_room()?;
        Ok(self.add(branch, to, aware))
    }

    /// Registers a resource that is told of the end of this subtransaction, and takes no part (`register_subtran_aware`).
    pub fn register_aware(
        &mut self,
        tree: &Tree,
        branch: u32,
        to: RefBytes,
    ) -> Result<u32, VoteFault>
        requires there { branch < length tree.now.rows }
        ensures ok { OnOk result (self.new.ballots ≡ ballots.registered_aware branch to self.old.ballots) }
        ensures index { IfOk result (λ index. index ≡ length self.old.ballots.registrations + 1) }
        ensures answer { ballots.AnswersTo (ballots.registering_aware tree.now.rows branch self.old.ballots)
            self.old.room result }
        ensures err { OnErr result (self.new.ballots ≡ self.old.ballots) }
        ensures room { OnErr result (self.old.room ≤ self.new.room) }
    {
        if branch == TOP {
            return Err(VoteFault::NotSubtransaction);
        }
        self.registering(tree, branch)?;
        self.make_room()?;
        Ok(self.add_aware(branch, to))
    }

    /// Registers a synchronization with this top-level transaction (`register_synchronization`).
    pub fn register_sync(
        &mut self,
        tree: &Tree,
        branch: u32,
        to: RefBytes,
    ) -> Result<u32, VoteFault>
        requires there { branch < length tree.now.rows }
        ensures ok { OnOk result (self.new.ballots ≡ ballots.registered_sync branch to self.old.ballots) }
        ensures index { IfOk result (λ index. index ≡ length self.old.ballots.synchronizations + 1) }
        ensures answer { ballots.AnswersTo (ballots.registering_sync tree.now.rows branch self.old.ballots)
            self.old.room result }
        ensures err { OnErr result (self.new.ballots ≡ self.old.ballots) }
        ensures room { OnErr result (self.old.room ≤ self.new.room) }
    {
        self.registering_sync(tree, branch)?;
        self.make_room()?;
        Ok(self.add_sync(branch, to))
    }

    /// Hands the list of a subtransaction that was committed to its parent, at the end, in one piece. It needs no memory.
    #[tactic(auto, using(crate::proofs::Once::handed_once, crate::proofs::Once::handed_few))]
    pub fn adopt(&mut self, child: u32, parent: u32)
        requires there { (child < list_count) × (parent < list_count) }
        requires differ { child ≢ parent }
        ensures { self.new ≡ record self.old { ballots = ballots.adopted child parent self.old.ballots } }
    {
        self.links.splice(child, parent);
    }

    /// Whom this transaction asks, in the order in which it asks them. Of the top these are all who take part in the tree.
    pub fn participants(&self, top: u32) -> Walk<'_>
        requires there { top < list_count }
        ensures participants { result ≡ ballots.participants top self.now.ballots }
        ensures few { length result ≤ registration_limit }
    {
        Walk {
            registrations: self.registrations.as_slice(),
            numbers: self.links.numbers(top),
        }
    }

    /// What this registration voted.
    pub fn vote(&mut self, registration: u32, v: Vote)
        requires there { (0 < registration) × (registration ≤ length self.old.ballots.registrations) }
        ensures { self.new ≡ record self.old { ballots = ballots.voted registration v self.old.ballots } }
    {
        self.votes[registration as usize - 1] = Some(v);
    }

    /// What this registration has voted.
    pub fn vote_of(&self, registration: u32) -> Option<Vote>
        ensures { result ≡ ballots.vote_of registration self.now.ballots }
    {
        if registration == 0 {
            return None;
        }
        self.votes.get(registration as usize - 1).copied().flatten()
    }

    /// The registration of least number above this one that is told of the end of this subtransaction, and was registered
    /// with it.
    pub fn aware(&self, branch: u32, after: u32) -> Option<&Registration>
        ensures { option_copied result ≡ ballots.aware branch after self.now.ballots }
    {
        aware_behind(&self.registrations, branch, after)
    }

    /// The registration with this number.
    pub fn registration(&self, index: u32) -> Option<&Registration>
        ensures { option_copied result ≡ ballots.numbered self.now.ballots.registrations index }
    {
        numbered(&self.registrations, index)
    }

    /// The synchronization with this number.
    pub fn sync(&self, index: u32) -> Option<&Registration>
        ensures { option_copied result ≡ ballots.numbered self.now.ballots.synchronizations index }
    {
        numbered(&self.synchronizations, index)
    }

    /// Refuses a registration with this transaction.
    fn registering(&self, tree: &Tree, branch: u32) -> Result<(), VoteFault>
        requires there { branch < length tree.now.rows }
        ensures result { result ≡ ballots.answer (ballots.registering tree.now.rows branch self.now.ballots) }
        ensures named { branch < list_count }
    {
        check_status(tree.status(branch))?;
        check_count(REGISTRATION_LIMIT, self.registrations.len())
    }

    /// Refuses a synchronization with this transaction.
    fn registering_sync(&self, tree: &Tree, branch: u32) -> Result<(), VoteFault>
        requires there { branch < length tree.now.rows }
        ensures { result ≡ ballots.answer (ballots.registering_sync tree.now.rows branch self.now.ballots) }
    {
        if branch != TOP {
            return Err(VoteFault::SynchronizationUnavailable);
        }
        check_status(tree.status(branch))?;
        check_count(SYNCHRONIZATION_LIMIT, self.synchronizations.len())
    }

    /// Takes memory for one more registration, where there is none.
    fn make_room(&mut self) -> Result<(), VoteFault>
        ensures ok { OnOk result (0 < self.new.room) }
        ensures err { OnErr result (self.old.room ≡ 0) }
        ensures memory { IsErr result → IsErrOf result VoteFault.Memory }
        ensures same { self.new.ballots ≡ self.old.ballots }
        ensures room { self.old.room ≤ self.new.room }
    {
        self.reserve().map_err(|_| VoteFault::Memory)
    }

    /// Whether there is memory for no further registration of some kind.
    fn is_packed(&self) -> bool
        ensures { IsTrue result ↔ (self.now.room ≡ 0) }
    {
        self.registrations.len() == self.registrations.capacity()
            || self.votes.len() == self.votes.capacity()
            || self.synchronizations.len() == self.synchronizations.capacity()
            || self.links.is_packed()
    }

    /// Adds a resource that takes part. It needs no memory.
    #[tactic(auto, using(crate::proofs::Numbered::numbered_more, crate::proofs::Once::added_once, crate::proofs::Once::added_few))]
    fn add(&mut self, branch: u32, to: RefBytes, aware: bool) -> u32
        requires room { 0 < self.old.room }
        requires there { branch < list_count }
        requires few { length self.old.ballots.registrations < registration_limit }
        ensures ballots { self.new.ballots ≡ ballots.registered branch to aware self.old.ballots }
        ensures index { result ≡ length self.old.ballots.registrations + 1 }
    {
        let index = self.registrations.len() as u32 + 1;
        self.registrations.push_reserved(Registration {
            index,
            branch,
            to,
            aware,
        });
        self.votes.push_reserved(None);
        self.links.push(branch);
        index
    }

    /// Adds a resource that takes no part. It needs no memory.
    #[tactic(auto, using(crate::proofs::Numbered::numbered_more, crate::proofs::Once::more_once))]
    fn add_aware(&mut self, branch: u32, to: RefBytes) -> u32
        requires room { 0 < self.old.room }
        requires few { length self.old.ballots.registrations < registration_limit }
        ensures ballots { self.new.ballots ≡ ballots.registered_aware branch to self.old.ballots }
        ensures index { result ≡ length self.old.ballots.registrations + 1 }
    {
        let index = self.registrations.len() as u32 + 1;
        self.registrations.push_reserved(Registration {
            index,
            branch,
            to,
            aware: true,
        });
        self.votes.push_reserved(None);
        self.links.skip();
        index
    }

    /// Adds a synchronization. It needs no memory.
    #[tactic(auto, using(crate::proofs::Numbered::numbered_more))]
    fn add_sync(&mut self, branch: u32, to: RefBytes) -> u32
        requires room { 0 < self.old.room }
        requires few { length self.old.ballots.synchronizations < synchronization_limit }
        ensures ballots { self.new.ballots ≡ ballots.registered_sync branch to self.old.ballots }
        ensures index { result ≡ length self.old.ballots.synchronizations + 1 }
    {
        let index = self.synchronizations.len() as u32 + 1;
        self.synchronizations.push_reserved(Registration {
            index,
            branch,
            to,
            aware: false,
        });
        index
    }
}

/// The first of these above this number that is told of the end of this subtransaction. The look begins behind its place.
fn aware_behind(list: &[Registration], branch: u32, after: u32) -> Option<&Registration>
    requires numbered { AreNumbered 1 list.now }
    ensures { option_copied result ≡ find (ballots.is_aware_after branch after) list.now }
{
    let passed = list.len().min(after as usize);
    first_aware(&list[passed..], branch, after)
}

/// The first of these above this number that is told of the end of this subtransaction.
fn first_aware(list: &[Registration], branch: u32, after: u32) -> Option<&Registration>
    ensures { option_copied result ≡ find (ballots.is_aware_after branch after) list.now }
{
    list.iter()
        .find(|r| r.aware && r.branch == branch && after < r.index)
}

/// The one of these with this number.
fn numbered(list: &[Registration], index: u32) -> Option<&Registration>
    ensures { option_copied result ≡ ballots.numbered list.now index }
{
    if index == 0 {
        return None;
    }
    list.get(index as usize - 1)
}

/// Refuses a registration with a transaction that stands so.
fn check_status(status: Status) -> Result<(), VoteFault>
    ensures { result ≡ ballots.answer (ballots.by_status (Some status)) }
{
    match status {
        Status::Active => Ok(()),
        Status::MarkedRollback => Err(VoteFault::MarkedAlready),
        _ => Err(VoteFault::Inactive),
    }
}

/// Refuses one more than there may be.
fn check_count(limit: usize, count: usize) -> Result<(), VoteFault>
    ensures { result ≡ ballots.answer (ballots.by_count limit count) }
{
    if count >= limit {
        return Err(VoteFault::NoResources);
    }
    Ok(())
}
