ghost use Rattle.ots_program.specs.Answers.{ReplaysAreSafe};
ghost use Rattle.ots_program.specs.Laws.{WorldsAgree};
ghost use Rattle.ots_program.specs.ReadBack.{ReplaysAreTold, WhatIsReadIsSafe};

use nodes_steps::lines_keep_agreement;
use nodes_told::{reached_lines_are_told, told_lines_are_read};
use nodes_world::{
    decisions_are_told_again, decisions_outlive_crashes, dones_are_complete,
    names_that_are_read_are_names, reached_worlds_are_known,
};

/// A law: all lines that a replay tells are safe, whatever the script.
pub fn replays_are_safe()
    ensures { ReplaysAreSafe }
{
    worlds_agree();
}

/// A law: each line that a replay tells can be read, so whichever lines are read in its text, or in a front of that,
/// are safe.
pub fn what_is_read_is_safe()
    ensures told { ReplaysAreTold }
    ensures safe { WhatIsReadIsSafe }
{
    worlds_agree();
}

/// The laws of worlds that a script reaches.
pub fn worlds_agree()
    ensures { WorldsAgree }
{
    lines_keep_agreement();
    reached_worlds_are_known();
    decisions_outlive_crashes();
    dones_are_complete();
    decisions_are_told_again();
    names_that_are_read_are_names();
    reached_lines_are_told();
    told_lines_are_read();
}
