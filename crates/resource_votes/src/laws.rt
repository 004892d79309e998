// A law of the definitions: the contract is the law, and the body calls the laws of trees that it follows from.
ghost use Rattle.resource_votes.specs.History.{ParticipantsAreCommittedUp};

use txn_tree::{commit_follows_parents, trees_stay_trees};

/// The participants of a top-level transaction are exactly the resources that were registered with it, or with a
/// subtransaction that was committed up to it; each is there once.
pub fn participants_are_committed_up()
    ensures { ParticipantsAreCommittedUp }
{
    commit_follows_parents();
    trees_stay_trees();
}
