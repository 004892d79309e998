// Laws of the definitions: these functions do nothing, and their contracts are the laws.
ghost use Rattle.node_laws.specs.Commits.{CommitsRest};
ghost use Rattle.node_laws.specs.Dones.{DonesAreFinal};
ghost use Rattle.node_laws.specs.Lives.{LivesRiseOverCrashes};
ghost use Rattle.node_laws.specs.Numbers.{NumbersAreOnce};
ghost use Rattle.node_laws.specs.Rollbacks.{RollbacksAreUndecided};
ghost use Rattle.node_laws.specs.Rules.{NodesKeepRules};
ghost use Rattle.node_laws.specs.Voters.{DecisionsNameVoters};

use coordinator::{families_step_rightly, family_outcomes_stay, lives_rise, nodes_keep_numbers};
use decision_journal::{appends_are_safe, journals_grow, octets_stand_for_one_list};
use family_laws::{
    families_append_own, families_close_last, families_number_words, families_stay_sound,
    families_words_rest, nodes_keep_decisions,
};
use two_phase::{
    a_settled_one_is_through, a_tree_outcome_stays, a_tree_word_waits_for_its_answer,
    tree_outcomes_have_causes, tree_words_go_rightly,
};

/// A node that is loaded from what a crash of another one leaves is in a greater life: between two calls, at any moment of an
/// append, and where a journal is read again.
pub fn lives_rise_over_crashes()
    ensures { LivesRiseOverCrashes }
{
    appends_are_safe();
    octets_stand_for_one_list();
    journals_grow();
    lives_rise();
}

/// All words that a node hands out in one life have numbers of their own, but that a word which is told again has the number that
/// it had; those of two lives differ.
pub fn numbers_are_once()
    ensures { NumbersAreOnce }
{
    families_number_words();
    nodes_keep_numbers();
}

/// A node that was loaded keeps its rules, and so does each one in which a family is made, a call comes, or time passes.
pub fn nodes_keep_rules()
    ensures { NodesKeepRules }
{
    nodes_keep_decisions();
    nodes_keep_numbers();
    families_append_own();
    families_close_last();
    families_number_words();
    families_step_rightly();
    family_outcomes_stay();
    a_tree_outcome_stays();
    a_tree_word_waits_for_its_answer();
    tree_outcomes_have_causes();
    a_settled_one_is_through();
}

/// At such a node each commit word that a family hands out rests on a decision of that family, which stands, is the word's receipt,
/// and names the registration and the reference that the word goes to. Each word that is told again belongs to a decision that
/// stands, which names the registration and the reference that it goes to; its number is the one that is kept for both, and a
/// commit word has that record as its receipt.
pub fn commits_rest()
    ensures { CommitsRest }
{
    nodes_keep_rules();
    families_number_words();
    families_stay_sound();
    families_step_rightly();
    tree_words_go_rightly();
}

/// At such a node the decision that a call asks the journal for is the draft of the family that the call came to. Where it stands,
/// it names exactly the registrations that have voted commit, by their numbers and their references; and so does each record by
/// which a family is decided, as long as both are there. Whatever the node does then, and wherever it crashes, nothing else comes to
/// stand at its place, and nobody else is told again for it.
pub fn decisions_name_voters()
    ensures { DecisionsNameVoters }
{
    nodes_keep_rules();
    commits_rest();
    families_append_own();
    families_number_words();
    families_stay_sound();
}

/// At such a node no decision stands of a family that is rolled back, and none is ever asked for. A rollback word rests on that, or it
/// goes to a registration that is cut off.
pub fn rollbacks_are_undecided()
    ensures { RollbacksAreUndecided }
{
    nodes_keep_rules();
    nodes_keep_numbers();
    families_append_own();
    families_number_words();
    families_words_rest();
    family_outcomes_stay();
}

/// A record whose Done stands, because a call has asked for it at such a node, is over for good: none stands at its place, none is
/// held, and no tick tells a word of it again.
pub fn dones_are_final()
    ensures { DonesAreFinal }
{
    nodes_keep_rules();
    nodes_keep_decisions();
}
