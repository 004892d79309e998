// Laws of the definitions: these functions do nothing, and their contracts are the laws. A body calls the laws of registrations
// that its own law follows from.
ghost use Rattle.two_phase.specs.LawsOfAnswers.{AnswersChangeOne, NextIsOpen, VotesDecide, WordsWaitForAnswers};
ghost use Rattle.two_phase.specs.LawsOfCourses.{TreeWordsGoRightly};
ghost use Rattle.two_phase.specs.LawsOfDeciding.{LastAnswerDecides};
ghost use Rattle.two_phase.specs.LawsOfOutcomes.{OutcomesHaveCauses};
ghost use Rattle.two_phase.specs.LawsOfParticipants.{NoParticipantHearsTwice, ParticipantsHaveNumbers};
ghost use Rattle.two_phase.specs.LawsOfSettling.{SettledIsNothingPending, SettledIsSilent, SettledIsThrough};
ghost use Rattle.two_phase.specs.LawsOfSilence.{NoWordIsLeftOut};
ghost use Rattle.two_phase.specs.LawsOfReached.{NoCommitAfterRollback, NoRollbackAfterCommit, NoWordTwice, TreeOutcomeStays};

use resource_votes::participants_are_committed_up;

/// Each word of the completion of a tree goes to a participant, with the next number. A participant is asked while the
/// outcome is open; commit goes out by record and consent alone, rollback by the outcome, forget to one that has raised a
/// heuristic exception; and nothing else goes out.
pub fn tree_words_go_rightly()
    ensures { TreeWordsGoRightly }
{}

/// No word of the completion of a tree is left out. Where none goes out, one is out, the journal is to be asked, nobody knows
/// whether the record stands, or all have answered the outcome; and forget then waits, or all have answered that too.
pub fn no_tree_word_is_left_out()
    ensures { NoWordIsLeftOut }
{}

/// A completion of a tree is settled exactly where its outcome is fixed, each participant that is told it has completed, and
/// each that raised a heuristic exception has let it go. After a commit that is exactly where nobody is still to be told commit
/// or forget. A settled one has no word to send.
pub fn a_settled_one_is_through()
    ensures through { SettledIsThrough }
    ensures pending { SettledIsNothingPending }
    ensures silent { SettledIsSilent }
{}

/// The next word of a completion of a tree goes to a participant that hasn't answered it. The word that is out goes to one that
/// hasn't answered it, and one that asks is out only while the outcome is open.
pub fn a_tree_word_waits_for_its_answer()
    ensures next { NextIsOpen }
    ensures out { WordsWaitForAnswers }
{}

/// In a completion of a tree an answer changes the participant whose it is, and no other one.
pub fn an_answer_changes_one()
    ensures { AnswersChangeOne }
{}

/// Where nothing came from outside, and no participant decides alone, the outcome of a completion of a tree is that of the votes
/// and the record.
pub fn votes_decide()
    ensures { VotesDecide }
{}

/// A decision begins to be wanted in a completion of a tree only while the word that is out is the last that asks.
pub fn the_last_answer_decides()
    ensures { LastAnswerDecides }
{}

/// In a completion of a tree an outcome that is fixed stays, whatever goes out, is answered, is recorded, or comes from
/// outside.
pub fn a_tree_outcome_stays()
    ensures { TreeOutcomeStays }
{}

/// In a completion of a tree no rollback goes out once a commit word has gone out, and no commit word once a rollback has:
/// participants are told one way.
pub fn a_tree_goes_one_way()
    ensures commits { NoRollbackAfterCommit }
    ensures rolls_back { NoCommitAfterRollback }
{}

/// In a completion of a tree whose participants have numbers of their own, no word goes out to one of them twice.
pub fn a_tree_word_goes_out_once()
    ensures { NoWordTwice }
{}

/// In the completion of a top-level transaction each participant has a number of its own, whatever calls came before it, and
/// no word goes out to one of them twice.
pub fn a_participant_hears_once()
    ensures numbers { ParticipantsHaveNumbers }
    ensures once { NoParticipantHearsTwice }
{
    participants_are_committed_up();
}

/// In a completion of a tree there stands behind each outcome what it names: the record and each consent, the answer of the
/// only participant, or votes that are all read-only; and behind each reason of a rollback the answer, what the record
/// came to, or that it came from outside.
pub fn tree_outcomes_have_causes()
    ensures { OutcomesHaveCauses }
{}
