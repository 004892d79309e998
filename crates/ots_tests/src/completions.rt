//! Tests of completions: of those whose allocations fail, and of what no node tells of today, as one that has a superior.
ghost use Rattle.std.specs.Prelude.{◌<◌, length};

use ots_model::tree::{Heard, Outcome, Outward, Reason, Word};
use ots_model::{
    CallNumber, Disposition, Doubted, Ground, Join, PhaseHeard, PhaseReason, PhaseWord,
    REFERENCE_LIMIT, RefBytes, Stood, Vote,
};
use resource_votes::Votes;
use std::alloc::Global;
use std::process::Abort;
use std::test::Fail;
use two_phase::Completion;
use txn_tree::Tree;

const FIRST: CallNumber = CallNumber {
    life: 1,
    slot: 0,
    generation: 7,
    serial: 1,
};

/// Two resources that are registered with a top-level transaction, where there is memory for them.
fn two_registered(alloc: Global) -> Option<Votes> {
    let tree = Tree::new(alloc).ok()?;
    let mut votes = Votes::new(alloc).ok()?;
    register(alloc, &tree, &mut votes)?;
    register(alloc, &tree, &mut votes)?;
    Some(votes)
}

fn register(alloc: Global, tree: &Tree, votes: &mut Votes) -> Option<()>
    requires { 0 < length tree.now.rows }
{
    let to = RefBytes::new(alloc, b"a participant").ok()?;
    votes.register(tree, 0, to, false).ok()?;
    Some(())
}

/// The completion of the top-level transaction, which has begun, where there is memory for it.
fn begun(alloc: Global) -> Option<Completion> {
    let votes = two_registered(alloc)?;
    Completion::begin(alloc, &votes, 0, true, FIRST, false).ok()
}

/// The next word is answered so, and a record stands.
fn answer_next(completion: &mut Completion, heard: &Heard) -> Result<(), Fail> {
    let outward = completion.next().ok_or("no word")?;
    completion.answer(&outward.number, heard);
    completion.decided(Stood::Stands(4));
    Ok(())
}

fn check(rt: &impl Abort, completion: &mut Completion) -> Result<(), Fail> {
    answer_next(
        completion,
        &Heard::Phase(PhaseHeard::Voted(Vote::VoteCommit)),
    )?;
    answer_next(
        completion,
        &Heard::Phase(PhaseHeard::Voted(Vote::VoteCommit)),
    )?;
    answer_next(completion, &Heard::Phase(PhaseHeard::Done))?;
    answer_next(completion, &Heard::Phase(PhaseHeard::NoObject))?;
    check_committed(rt, completion);
    Ok(())
}

fn check_committed(rt: &impl Abort, completion: &Completion) {
    assert!(rt; completion.outcome() == Some(Outcome::Commit(Ground::Record)));
    assert!(rt; completion.is_settled() && completion.report().is_none());
}

/// Where the N-th allocation is made to fail, this shows that nothing behind `reserve` asks for memory.
#[test]
fn what_comes_behind_reserve_needs_no_memory(rt: HostRuntime) -> Result<(), Fail> {
    match begun(rt.alloc()) {
        Some(mut completion) => check(&rt, &mut completion),
        None => Ok(()),
    }
}

/// A reference of so many octets, where it may have as many and there is memory for it.
fn reference(alloc: Global, count: usize) -> Option<RefBytes> {
    let octets = vec![in alloc; 7; count].ok()?;
    if octets.len() > REFERENCE_LIMIT {
        return None;
    }
    Some(RefBytes::from_vec(octets))
}

/// The registrations with a top-level transaction of two references, the first as long as may be.
fn long_and_empty(alloc: Global) -> Option<Votes> {
    let tree = Tree::new(alloc).ok()?;
    let mut votes = Votes::new(alloc).ok()?;
    let long = reference(alloc, REFERENCE_LIMIT)?;
    votes.register(&tree, 0, long, false).ok()?;
    let empty = reference(alloc, 0)?;
    votes.register(&tree, 0, empty, false).ok()?;
    Some(votes)
}

/// The completion of these below a superior, behind their votes for commit.
fn prepared(alloc: Global) -> Result<Completion, Fail> {
    let votes = long_and_empty(alloc).ok_or("no registrations")?;
    let begun = Completion::begin(alloc, &votes, 0, false, FIRST, false);
    let mut completion = begun.ok().ok_or("no completion")?;
    hear(&mut completion, PhaseHeard::Voted(Vote::VoteCommit))?;
    hear(&mut completion, PhaseHeard::Voted(Vote::VoteCommit))?;
    Ok(completion)
}

/// The next word is answered so.
fn hear(completion: &mut Completion, heard: PhaseHeard) -> Result<(), Fail> {
    let outward = completion.next().ok_or("no word")?;
    completion.answer(&outward.number, &Heard::Phase(heard));
    Ok(())
}

/// A superior rolls back what was prepared, and tells forget itself.
#[test]
fn a_superior_rolls_back(rt: HostRuntime) -> Result<(), Fail> {
    let mut completion = prepared(rt.alloc())?;
    assert!(rt; completion.next().is_none() && completion.outcome().is_none());
    completion.roll_back(Reason::Superior);
    hear(&mut completion, PhaseHeard::Done)?;
    hear(
        &mut completion,
        PhaseHeard::Heuristic(Disposition::Committed),
    )?;
    assert!(rt; completion.outcome() == Some(Outcome::Rollback(Reason::Superior)));
    assert!(rt; completion.next().is_none() && !completion.is_settled());
    check_pending(&rt, rt.alloc(), &completion)
}

fn check_pending(rt: &impl Abort, alloc: Global, completion: &Completion) -> Result<(), Fail> {
    let mut pending = Vec::new(alloc);
    completion.pending_commits(&mut pending)?;
    assert!(rt; pending.is_empty());
    completion.pending_forgets(&mut pending)?;
    assert!(rt; pending.as_slice() == [2].as_slice());
    Ok(())
}

/// A superior that doesn't take the registration rolls back, and no later reason takes its place.
#[test]
fn a_superior_takes_no_registration(rt: HostRuntime) -> Result<(), Fail> {
    let mut completion = prepared(rt.alloc())?;
    completion.roll_back(Reason::NotEnlisted);
    completion.roll_back(Reason::SyncLost(1));
    assert!(rt; completion.outcome() == Some(Outcome::Rollback(Reason::NotEnlisted)));
    Ok(())
}

/// A doubt ends once, by a reread that finds the record. The first word then names it, and goes to the whole reference.
#[test]
fn a_doubt_ends_by_its_record(rt: HostRuntime) -> Result<(), Fail> {
    let mut completion = prepared(rt.alloc())?;
    completion.decided(Stood::Unsure(Doubted::Starved));
    completion.roll_back(Reason::Asked);
    assert!(rt; completion.is_doubtful() && completion.next().is_none());
    completion.reread(Some(9));
    completion.reread(None);
    let word = completion.next().ok_or("no word")?;
    check_commit(&rt, &word);
    Ok(())
}

fn check_commit(rt: &impl Abort, word: &Outward) {
    assert!(rt; matches!(word.word, Word::Phase(PhaseWord::Commit)));
    assert!(rt; word.number.serial == 3 && word.registration == 1);
    assert!(rt; word.to.bytes().len() == REFERENCE_LIMIT);
    assert!(rt;
        word.receipt
            .is_some_and(|receipt| receipt.place == 9 && receipt.registration == 1)
    );
}

/// A doubt ends once, by a reread that doesn't find the record.
#[test]
fn a_doubt_ends_without_a_record(rt: HostRuntime) -> Result<(), Fail> {
    let mut completion = prepared(rt.alloc())?;
    completion.decided(Stood::Unsure(Doubted::Starved));
    completion.reread(None);
    completion.reread(Some(9));
    assert!(rt; completion.outcome() == Some(Outcome::Rollback(Reason::NotStored)));
    Ok(())
}

/// A vote is read as it was given last.
#[test]
fn a_vote_is_the_last_one(rt: HostRuntime) -> Result<(), Fail> {
    let mut votes = long_and_empty(rt.alloc()).ok_or("no registrations")?;
    if votes.count() == 2 {
        votes.vote(2, Vote::VoteCommit);
        votes.vote(2, Vote::VoteReadOnly);
    }
    assert!(rt; votes.vote_of(2) == Some(Vote::VoteReadOnly));
    Ok(())
}

/// A word that is lost before the outcome rolls back.
#[test]
fn a_lost_prepare_rolls_back(rt: HostRuntime) -> Result<(), Fail> {
    let mut completion = begun(rt.alloc()).ok_or("no completion")?;
    let outward = completion.next().ok_or("no word")?;
    completion.lost(&outward.number);
    let lost = Reason::Phase(PhaseReason::PrepareLost(1));
    assert!(rt; completion.outcome() == Some(Outcome::Rollback(lost)));
    assert!(rt; !completion.all_completed() && completion.dispositions().as_slice().is_empty());
    Ok(())
}

/// What a subordinate's participants did together, where one of them did the other thing.
#[test]
fn a_subordinate_has_done_both(rt: HostRuntime) -> Result<(), Fail> {
    let mut completion = prepared(rt.alloc())?;
    completion.roll_back(Reason::Superior);
    hear(&mut completion, PhaseHeard::Done)?;
    hear(
        &mut completion,
        PhaseHeard::Heuristic(Disposition::Committed),
    )?;
    assert!(rt; completion.all_completed() && completion.sub_join() == Join::Mixed);
    assert!(rt; completion.dispositions().as_slice().len() == 2);
    Ok(())
}
