// Laws of the definitions: these functions do nothing, and their contracts are the laws.
ghost use Rattle.nodes_world.specs.Agreement.{Agreement, ReachedDonesAreComplete, ReachedIsKnown, ReachedOutcomesLast, ReadNamesAreNames};
ghost use Rattle.nodes_world.specs.AgreementSteps.{DeedsGo, ReachedCallsAreDelivered, StepsStayKnown};
ghost use Rattle.nodes_world.specs.Asking.{HearingsMayAsk};
ghost use Rattle.nodes_world.specs.Changes.{DeedsAreChanges};
ghost use Rattle.nodes_world.specs.CompletionLaws.{CompletionLaws};
ghost use Rattle.nodes_world.specs.Laws.{AppendsGoThrough, AppendsStrike, AskedJournalsKeep, AskedJournalsStop, RecordsAreRead, StoppedAppendsAreSafe, WhatIsLeftIsAnImage};
ghost use Rattle.nodes_world.specs.OverForGood.{AnsweredCommitsAreStored, ClosedFamiliesAreStored, CommitsAreStored, DonesAreStored, ResourcesStay, ToldParticipantsAreStored};
ghost use Rattle.nodes_world.specs.StandingDecisions.{RestartsTellAgain, StandingIsTold, ToldIsRecorded};
ghost use Rattle.nodes_world.specs.ToldAgain.{HeldWaitOrAnswered, ReachedTellAgain};

use coordinator::{families_step_rightly, family_outcomes_stay, histories_grow_by_entries};
use decision_journal::{appends_are_safe, bodies_are_read, journals_grow, loads_are_safe};
use family_laws::{
    families_close_last, families_end_in_turn, families_hear_outcomes_answered,
    families_number_words, families_stay_sound, families_tell_outcomes, families_tell_votes,
    families_words_rest, held_records_stood, nodes_keep_decisions,
};
use ior_refs::same_octets_same_key;
use ots_model::allowed_lines_are_safe;
use ots_outside::writes_read_images;
use recovery_coord::completes_once;
use two_phase::{
    a_tree_word_waits_for_its_answer, an_answer_changes_one, tree_outcomes_have_causes,
};

/// The laws of completions of trees on which laws here rest.
fn laws_of_completions()
    ensures { CompletionLaws }
{
    tree_outcomes_have_causes();
    a_tree_word_waits_for_its_answer();
    an_answer_changes_one();
}

/// The strokes of an append leave the disk that a journal's append leaves. A crash inside each of its writes leaves what stood before
/// that write, or that write too, by the image that is asked for; one inside a later write comes two writes nearer.
pub fn appends_strike_disks()
    ensures { AppendsStrike }
{}

/// What a stop inside a write leaves is an image that a crash may leave at that moment.
pub fn what_is_left_is_an_image()
    ensures { WhatIsLeftIsAnImage }
{}

/// Where octets stand for records, these are the records that are read in them.
pub fn records_are_read()
    ensures { RecordsAreRead }
{
    bodies_are_read();
}

/// An append that goes through is that of the journal. A stop inside it leaves the records of before, or these and the new one.
pub fn stopped_appends_are_safe()
    ensures through { AppendsGoThrough }
    ensures stopped { StoppedAppendsAreSafe }
{
    appends_are_safe();
    writes_read_images();
    what_is_left_is_an_image();
}

/// A journal that is asked for a decision, or for the Done of one that stands, has its records afterwards, or these and the one that
/// was asked for, as its answer says; so does what a crash inside it leaves.
pub fn asked_journals_stay_in_order()
    ensures keep { AskedJournalsKeep }
    ensures stop { AskedJournalsStop }
{
    appends_are_safe();
    journals_grow();
    records_are_read();
    stopped_appends_are_safe();
}

/// Whatever a line does in a world is made of few kinds of change: a seat, a message or a name becomes another.
pub fn deeds_are_changes()
    ensures { DeedsAreChanges }
{}

/// Whatever a line does that passes no limit is made of few kinds of step, with the lines that tell it: a node or an end is made, a
/// node goes down or is loaded, a call or an answer comes to it, its time passes, a resource is touched or told a word. That is so
/// where no client's call waits to be delivered, as in each world that a script reaches.
pub fn deeds_are_steps()
    ensures steps { DeedsGo }
    ensures delivered { ReachedCallsAreDelivered }
{}

/// Whatever a line does, a resource that has stored its updates stays so, and one that has dropped them; and where it is over for a
/// resource, that stays.
pub fn resources_stay_over()
    ensures { ResourcesStay }
{}

/// Where a line that the grammar of scripts reads gives a name, it is one. So what is said of each world that a script
/// reaches is said of every script that is read.
pub fn names_that_are_read_are_names()
    ensures { ReadNamesAreNames }
{}

/// In each world that a script reaches, what a node asks of its journal when it hears an answer may be asked: a decision
/// of the life in which the node is, which can be written as a record, or the Done of a decision that stands. It never
/// asks to read the disk again.
pub fn hearings_may_ask()
    ensures { HearingsMayAsk }
{
    journals_grow();
    records_are_read();
    asked_journals_stay_in_order();
    completes_once();
    nodes_keep_decisions();
    held_records_stood();
    laws_of_completions();
    steps_stay_known();
}

/// What is known of a world stays known by each step of which deeds are made.
pub fn steps_stay_known()
    ensures { StepsStayKnown }
{
    allowed_lines_are_safe();
    journals_grow();
    loads_are_safe();
    records_are_read();
    asked_journals_stay_in_order();
    completes_once();
    nodes_keep_decisions();
    held_records_stood();
    families_stay_sound();
    families_end_in_turn();
    families_words_rest();
    families_number_words();
    families_tell_outcomes();
    families_tell_votes();
    family_outcomes_stay();
    histories_grow_by_entries();
    laws_of_completions();
    same_octets_same_key();
}

/// The lines of every script are safe: those that are told on the way to each world that it reaches.
pub fn reached_lines_are_safe()
    ensures { Agreement }
{
    allowed_lines_are_safe();
    steps_stay_known();
}

/// Where a node is up, a line tells each decision that stands in its journal; a restart tells each one again that stands on the disk;
/// and no decision is told but one whose record the disk of its node holds.
pub fn decisions_outlive_crashes()
    ensures told { StandingIsTold }
    ensures again { RestartsTellAgain }
    ensures recorded { ToldIsRecorded }
{
    journals_grow();
    steps_stay_known();
}

/// Whatever a line that passes no limit does in a world that a script reaches, a family that is decided stays so, and so does one
/// that is closed: rolled back, or undecided when a later life began.
pub fn outcomes_last()
    ensures { ReachedOutcomesLast }
{
    journals_grow();
    loads_are_safe();
    records_are_read();
    asked_journals_stay_in_order();
    completes_once();
    nodes_keep_decisions();
    held_records_stood();
    laws_of_completions();
    steps_stay_known();
}

/// What is known together of a world holds of each one that a script reaches: no family is both decided and closed, numbers and keys
/// name one thing each, records rest on votes, and the other parts.
pub fn reached_worlds_are_known()
    ensures { ReachedIsKnown }
{
    steps_stay_known();
}

/// In each world that a script reaches, a resource that obeys commit has stored its updates then; so has each one that has answered
/// commit, and each participant that counts as told of a family that is committed by a record. Where a family that hears an answer
/// asks for the Done of its own decision, so has each resource that this names.
pub fn commits_are_stored()
    ensures obeyed { CommitsAreStored }
    ensures answered { AnsweredCommitsAreStored }
    ensures told { ToldParticipantsAreStored }
    ensures closed { ClosedFamiliesAreStored }
{
    steps_stay_known();
    families_step_rightly();
    families_hear_outcomes_answered();
    families_number_words();
    families_close_last();
    laws_of_completions();
}

/// In each world that a script reaches, where a Done names the decision of a family, it is over for each resource that
/// this decision names: each has stored its updates. Each registration of a record that a node holds waits for its commit
/// word, or has answered one.
pub fn dones_are_complete()
    ensures complete { ReachedDonesAreComplete }
    ensures stored { DonesAreStored }
    ensures held { HeldWaitOrAnswered }
{
    journals_grow();
    loads_are_safe();
    records_are_read();
    asked_journals_stay_in_order();
    completes_once();
    nodes_keep_decisions();
    held_records_stood();
    families_step_rightly();
    families_hear_outcomes_answered();
    families_number_words();
    families_close_last();
    laws_of_completions();
    steps_stay_known();
}

/// In each world that a script reaches a restart brings its node up, and leaves each decision that stands on the disk owed
/// to all whom it names, and told by a line. Each tick of a node tells commit to all to whom such a decision is owed, but
/// to those that have answered.
pub fn decisions_are_told_again()
    ensures { ReachedTellAgain }
{
    journals_grow();
    steps_stay_known();
    decisions_outlive_crashes();
    dones_are_complete();
}
