// Laws of the definitions: these functions do nothing, and their contracts are the laws.
ghost use Rattle.family_laws.specs.HeldDues.{HeldDuesEndByAnswers, HeldDuesEndWithFamilies};
ghost use Rattle.family_laws.specs.HeldRecords.{HeldRecordsStood};
ghost use Rattle.family_laws.specs.LawsBelow.{Laws};
ghost use Rattle.family_laws.specs.LawsOfJournal.{FamiliesAppendOwn, FamiliesCloseLast};
ghost use Rattle.family_laws.specs.LawsOfSteps.{FamiliesEndInTurn, FamiliesStaySound, FamiliesWordsRest};
ghost use Rattle.family_laws.specs.LawsOfTelling.{FamiliesHearOutcomesAnswered, FamiliesNumberWords, FamiliesTellEnds, FamiliesTellOutcomes, FamiliesTellVotes};
ghost use Rattle.family_laws.specs.OwnDecisions.{NodesKeepDecisions};
ghost use Rattle.family_laws.specs.Reasons.{FamiliesHaveCauses};
ghost use Rattle.family_laws.specs.SoundNode.{NodesStaySound};

use coordinator::nodes_keep_numbers;
use two_phase::{
    a_settled_one_is_through, a_tree_outcome_stays, tree_outcomes_have_causes,
    tree_words_go_rightly, votes_decide,
};
use txn_tree::{
    all_are_related, ancestry_follows_parents, calls_keep_parents, commit_follows_parents,
    next_is_first, parents_come_first, trees_stay_trees,
};

/// The laws of trees and of their completions that the laws here follow from.
fn laws_below()
    ensures { Laws }
{
    parents_come_first();
    calls_keep_parents();
    trees_stay_trees();
    all_are_related();
    ancestry_follows_parents();
    commit_follows_parents();
    next_is_first();
    tree_words_go_rightly();
    votes_decide();
    a_settled_one_is_through();
}

/// A new family is sound, and so is each one that a step leaves of a sound one: its lists have what was committed up to their
/// branches, its completion goes by the list of the top, and its calls under way are as far as its stage.
pub fn families_stay_sound()
    ensures { FamiliesStaySound }
{
    laws_below();
}

/// Each subtransaction that ends in a step of a sound family was live, and where it is committed its parent has not ended. Each
/// transaction that a step marks was live and not marked.
pub fn families_end_in_turn()
    ensures { FamiliesEndInTurn }
{
    laws_below();
}

/// In each step of a sound family prepare and commit_one_phase go to participants while the outcome is open, commit to
/// participants that voted commit once it is commit by a record, and rollback to registrations that are rolled back or cut off,
/// and are in the list of some branch.
pub fn families_words_rest()
    ensures { FamiliesWordsRest }
{
    laws_below();
}

/// The rows that a step leaves follow from the ends and marks that it tells; or it tells nothing, and a subtransaction was made.
pub fn families_tell_ends()
    ensures { FamiliesTellEnds }
{}

/// The words of a step have the next numbers of the family, one after another; it counts them, and the key stays.
pub fn families_number_words()
    ensures { FamiliesNumberWords }
{}

/// An outcome is told exactly where a step fixes it, where the completion is one that can be reached.
pub fn families_tell_outcomes()
    ensures { FamiliesTellOutcomes }
{
    a_tree_outcome_stays();
}

/// A vote is told where the answer to the word that asked for it is heard, and counts from then on. Where no participant
/// decides alone, only a vote that is told comes to count.
pub fn families_tell_votes()
    ensures { FamiliesTellVotes }
{}

/// An answer to the word that tells the outcome counts for a participant only if that one gave it: the word was out to it, and the
/// call at the decision waited for the answer.
pub fn families_hear_outcomes_answered()
    ensures { FamiliesHearOutcomesAnswered }
{}

/// Where the outcome of a sound family is fixed, there stands behind it what it names: behind a commit the record and each
/// consent, or the answer of the only participant; behind a rollback the answer, what the record came to, or that it came
/// from outside; and an event of the reason's kind stands in the history. A new family has in its history what this rests on,
/// and a step leaves it there.
pub fn families_have_causes()
    ensures { FamiliesHaveCauses }
{
    tree_outcomes_have_causes();
}

/// A decision is appended only in the step of an answer, of the family that has heard it, once each participant has consented. Where
/// the record stands, the family that the step leaves is decided by that place. Where the completion is one that can be reached, its
/// outcome was open, and then is commit by a record.
pub fn families_append_own()
    ensures { FamiliesAppendOwn }
{
    laws_below();
    a_tree_outcome_stays();
}

/// A Done is wanted at the place of a sound family's own record, once each participant that voted commit has completed; and it
/// is told exactly where it was wanted and stands.
pub fn families_close_last()
    ensures { FamiliesCloseLast }
{
    laws_below();
}

/// A node that was loaded is sound, and so is each one in which a family is made, a call comes, or time passes: its families are
/// sound and in their slots, and each decision that stands is told again or has its family.
pub fn nodes_stay_sound()
    ensures { NodesStaySound }
{
    laws_below();
    a_tree_outcome_stays();
    nodes_keep_numbers();
}

/// In a node that was loaded, and in each one in which a family is made, a call comes, or time passes, a family that is decided is so by
/// a record of its own. Until it asks for its Done, or is finished, this stands, and the node doesn't tell it again; and what the node
/// tells again stands. All these records are before an edge, behind which others are appended. A family that asks for its Done asks for
/// that of its own record.
pub fn nodes_keep_decisions()
    ensures { NodesKeepDecisions }
{
    laws_below();
    a_tree_outcome_stays();
    nodes_stay_sound();
}

/// In a call to a node what a registration of a held record waits for ends by its answer alone: a plain one, or OBJECT_NOT_EXIST,
/// under the number of its word.
pub fn held_dues_end_by_answers()
    ensures { HeldDuesEndByAnswers }
{}

/// Each record that a node holds after a load, a new family or a tick stands in its journal, or was held before; a call holds
/// nothing new. It is held to all whom the record names, in their order.
pub fn held_records_stood()
    ensures { HeldRecordsStood }
{}

/// Where a new family or a tick takes over the decision of a finished family, a registration waits for nothing only if that
/// family was through with it: where it is committed, each participant of that number that voted commit has completed.
pub fn held_dues_end_with_families()
    ensures { HeldDuesEndWithFamilies }
{}
