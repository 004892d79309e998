// A law of the definitions: this function does nothing, and its contract is the law.
ghost use Rattle.nodes_plays.specs.Plays.{Plays, PlaysTo};
ghost use Rattle.nodes_plays.specs.Scripts.{commit_script, crash_script, nested_script, rollback_script, short_script};
ghost use Rattle.nodes_plays.specs.Told.{commit_lines, crash_lines, nested_lines, rollback_lines, short_journals, short_lines};

use nodes_steps::lines_keep_agreement;

/// Agreement speaks of something: the scripts of `examples/` come to worlds that are reached, and tell these lines on
/// their way. Two resources vote commit, the decision is recorded, and both are told commit; or one votes rollback, and
/// the other is told so; or the node crashes inside the write of its decision, and tells it again in its next life; or
/// a resource takes part whose subtransaction is committed, and one whose subtransaction is rolled back doesn't. So does
/// a short one without resources, with its journal: a call that comes again after a crash finds no object.
pub fn agreement_is_met()
    ensures commit { Plays commit_script commit_lines }
    ensures rollback { Plays rollback_script rollback_lines }
    ensures crash { Plays crash_script crash_lines }
    ensures nested { Plays nested_script nested_lines }
    ensures short { PlaysTo short_script short_lines short_journals }
{
    lines_keep_agreement();
}
