// A law of the definitions: this function does nothing, and its contract is the law.
ghost use Rattle.nodes_steps.specs.Steps.{LinesKeepAgreement};

use nodes_world::{deeds_are_changes, outcomes_last, reached_lines_are_safe};

/// A line of a script that moves a world on comes to what its deed comes to; one that passes a limit tells nothing, or
/// what its deed tells. From a world that a script can reach and go on from, a line that moves it on leads to another
/// one, where what has a name keeps it, and what is decided or closed is so still. Whatever a line tells, all lines are
/// safe with it, and so they are with the journals that end a script.
pub fn lines_keep_agreement()
    ensures { LinesKeepAgreement }
{
    reached_lines_are_safe();
    outcomes_last();
    deeds_are_changes();
}
