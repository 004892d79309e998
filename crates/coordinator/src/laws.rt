// Laws of the definitions: these functions do nothing, and their contracts are the laws.
ghost use Rattle.coordinator.specs.AnswersByPhase.{AnswersByPhase};
ghost use Rattle.coordinator.specs.Laws.{FamiliesStepRightly, FamilyOutcomesStay, HistoriesGrowByEntries, RepeatsChangeNothing, StaleAnswersChangeNothing};
ghost use Rattle.coordinator.specs.NodeLaws.{KeysAreNew, LivesRise, NodesKeepNumbers};
ghost use Rattle.coordinator.specs.NodePlays.{NodesPlay};
ghost use Rattle.coordinator.specs.Objects.{RecordsHaveWhatTheyAnswer};
ghost use Rattle.coordinator.specs.Plays.{FamiliesPlay};

use two_phase::a_tree_outcome_stays;

/// In short runs of a family each step shows what it must: what is said, which words go out, which calls are answered, and
/// what happened.
pub fn families_play()
    ensures { FamiliesPlay }
{}

/// In each phase of a family without a superior, eight calls are answered as they must be.
pub fn answers_follow_phases()
    ensures { AnswersByPhase }
{}

/// In each step of a family the completion begins once, or goes on as a completion does; and each word that goes out is the
/// completion's next one, or else a word to a subtransaction's or a synchronization's object, or a rollback, which names no
/// record.
pub fn families_step_rightly()
    ensures { FamiliesStepRightly }
{}

/// An answer that nobody waits for changes nothing: no entry is made, nothing is said to anybody, and nothing goes out.
pub fn stale_answers_change_nothing()
    ensures { StaleAnswersChangeNothing }
{}

/// An outcome of a family that is fixed stays, where its completion is one that can be reached.
pub fn family_outcomes_stay()
    ensures { FamilyOutcomesStay }
{
    a_tree_outcome_stays();
}

/// A step makes one entry of the history, with what it says and whom it answers, or it leaves the family as it was.
pub fn histories_grow_by_entries()
    ensures { HistoriesGrowByEntries }
{}

/// A call that comes again under its key changes nothing. It is answered as before, or told to try again while it has no
/// answer.
pub fn repeats_change_nothing()
    ensures { RepeatsChangeNothing }
{}

/// In short runs of a node, over crashes and loads, each call shows what it must.
pub fn nodes_play()
    ensures { NodesPlay }
{}

/// In one life of a node no call changes the life, and the number of families never falls.
pub fn nodes_keep_numbers()
    ensures { NodesKeepNumbers }
{}

/// A family that is made has a greater number than each one that was made before it in the same life. So no two have the same
/// key.
pub fn keys_are_new()
    ensures { KeysAreNew }
{}

/// A load begins the life behind the last one that its records tell. So no life is used twice.
pub fn lives_rise()
    ensures { LivesRise }
{}

/// A record has the objects on which it answers calls, and no other.
pub fn records_have_what_they_answer()
    ensures { RecordsHaveWhatTheyAnswer }
{}
