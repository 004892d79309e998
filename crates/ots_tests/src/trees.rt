//! Tests of trees and their registrations, of calls that no node makes.

use heuristic_join::join_sub;
use ots_model::{Decision, Disposition, Join, RefBytes, Status};
use resource_votes::Votes;
use std::process::Abort;
use std::test::Fail;
use txn_tree::{Tree, TreeFault};

/// A subtransaction ends once. Its parent goes on.
#[test]
fn a_subtransaction_ends_once(rt: HostRuntime) -> Result<(), Fail> {
    let mut tree = Tree::new(rt.alloc())?;
    assert!(rt; tree.create_sub(0).is_ok() && tree.create_sub(0).is_ok());
    if tree.count() == 3 {
        assert!(rt; tree.end_sub(1, true).is_ok());
        assert!(rt; tree.end_sub(1, false) == Err(TreeFault::Inactive));
        assert!(rt; tree.status(1) == Status::Committed && tree.parent_status(1) == Status::Active);
        check_others(&rt, &tree);
    }
    Ok(())
}

/// The parent of a branch below a subtransaction is that subtransaction.
#[test]
fn a_nested_branch_has_its_own_parent(rt: HostRuntime) -> Result<(), Fail> {
    let mut tree = Tree::new(rt.alloc())?;
    assert!(rt; tree.create_sub(0).is_ok() && tree.count() == 2);
    if tree.count() == 2 {
        assert!(rt; tree.create_sub(1).is_ok() && tree.count() == 3);
    }
    if tree.count() == 3 {
        assert!(rt; tree.parent(1) == Some(0) && tree.parent(2) == Some(1));
    }
    Ok(())
}

fn check_others(rt: &impl Abort, tree: &Tree) {
    if tree.count() == 3 {
        assert!(rt; tree.top_status(2) == Status::Active && tree.is_same(2, 2));
        assert!(rt; !tree.is_same(1, 2) && tree.is_related(1, 2));
        assert!(rt; tree.parent(2) == Some(0) && tree.parent(0).is_none());
    }
}

/// One that is marked isn't committed, and none is into a parent that has ended.
#[test]
fn a_marked_one_is_only_rolled_back(rt: HostRuntime) -> Result<(), Fail> {
    let mut tree = Tree::new(rt.alloc())?;
    assert!(rt; tree.create_sub(0).is_ok() && tree.count() == 2);
    if tree.count() == 2 {
        assert!(rt; tree.mark(1).is_ok());
        assert!(rt; tree.end_sub(1, true) == Err(TreeFault::MarkedAlready));
        assert!(rt; tree.end_sub(1, false).is_ok());
        assert!(rt; tree.parent_status(1) == Status::Active);
    }
    Ok(())
}

/// The resources that learn of the end of their subtransaction are told one after another.
#[test]
fn aware_ones_come_in_turn(rt: HostRuntime) -> Result<(), Fail> {
    let mut tree = Tree::new(rt.alloc())?;
    let mut votes = Votes::new(rt.alloc())?;
    assert!(rt; tree.create_sub(0).is_ok());
    if tree.count() == 2 {
        let first = RefBytes::new(rt.alloc(), b"a")?;
        let second = RefBytes::new(rt.alloc(), b"b")?;
        assert!(rt; votes.register_aware(&tree, 1, first).is_ok());
        assert!(rt; votes.register(&tree, 1, second, true).is_ok());
    }
    assert!(rt; votes.aware(1, 0).is_some_and(|one| one.index == 1));
    assert!(rt; votes.aware(1, 1).is_some_and(|one| one.index == 2));
    assert!(rt; votes.aware(1, 2).is_none() && votes.aware(0, 0).is_none());
    Ok(())
}

/// A subordinate whose only participant did the other thing than it was told has done the opposite.
#[test]
fn one_that_rolled_back_is_the_opposite_of_a_commit(rt: HostRuntime) -> Result<(), Fail> {
    assert!(rt; join_sub(Decision::Commit, &[Disposition::RolledBack]) == Join::Opposite);
    assert!(rt; join_sub(Decision::Commit, &[Disposition::Unknown]) == Join::Hazard);
    Ok(())
}
