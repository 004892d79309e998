// Laws of the definitions: these functions do nothing, and their contracts are the laws.
ghost use Rattle.txn_tree.specs.Laws.{AllAreRelated, AncestryFollowsParents, CallsKeepParents, CommitFollowsParents, DepthFollowsParents, EachStateIsTree, NextIsFirst, ParentsComeFirst, TopIsTree, TreesStayTrees};

/// A transaction is an ancestor of another exactly where it is that one, or an ancestor of its parent.
pub fn ancestry_follows_parents()
    ensures { AncestryFollowsParents }
{}

/// A transaction lies one deeper than its parent, and the top has depth 1.
pub fn depth_follows_parents()
    ensures { DepthFollowsParents }
{}

/// The top is an ancestor of each transaction of its tree, so all of them are related.
pub fn all_are_related()
    ensures { AllAreRelated }
{}

/// A transaction is committed up to another exactly where it is that one, or it was committed and its parent is committed
/// up to it.
pub fn commit_follows_parents()
    ensures { CommitFollowsParents }
{}

/// The rows of a tree are those of a tree after each call.
pub fn trees_stay_trees()
    ensures { TreesStayTrees }
{}

/// Each call leaves every transaction in its place, with the parent that it had: it adds one, last, with the parent that was
/// named, or it changes how one stands.
pub fn calls_keep_parents()
    ensures { CallsKeepParents }
{}

/// In a tree a parent is made before its child. The top alone is a tree, and a tree is one however its transactions stand.
pub fn parents_come_first()
    ensures first { ParentsComeFirst }
    ensures top { TopIsTree }
    ensures stands { EachStateIsTree }
{}

/// The next transaction to be rolled back is the deepest of those that are live below; of equals the one made last.
pub fn next_is_first()
    ensures { NextIsFirst }
{}
