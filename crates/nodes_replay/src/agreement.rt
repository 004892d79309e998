// The laws of the definitions that a script's world keeps.
ghost use Rattle.nodes_world.specs.Agreement.{GivesName, ReachedDonesAreComplete, ReachedIsKnown};
ghost use Rattle.nodes_world.specs.OverForGood.{AnsweredCommitsAreStored, ResourcesStay};
ghost use Rattle.nodes_world.specs.StandingDecisions.{RestartsTellAgain, StandingIsTold};
ghost use Rattle.nodes_steps.specs.Steps.{LinesKeepAgreement};

use nodes_steps::lines_keep_agreement;
use nodes_world::{
    commits_are_stored, decisions_outlive_crashes, dones_are_complete, reached_worlds_are_known,
    resources_stay_over,
};
use ots_world::ScriptEvent;

/// The laws of worlds that a script reaches.
pub(crate) fn laws_hold()
    ensures lines { LinesKeepAgreement }
    ensures known { ReachedIsKnown }
    ensures stays { ResourcesStay }
    ensures stored { AnsweredCommitsAreStored }
    ensures told { StandingIsTold }
    ensures again { RestartsTellAgain }
    ensures complete { ReachedDonesAreComplete }
{
    lines_keep_agreement();
    reached_worlds_are_known();
    resources_stay_over();
    commits_are_stored();
    decisions_outlive_crashes();
    dones_are_complete();
}

/// A name that a line gives is one.
pub(crate) fn gives_name(event: &ScriptEvent)
    ensures { GivesName event.now }
{
    match event {
        ScriptEvent::Node(name)
        | ScriptEvent::End(name)
        | ScriptEvent::Begin {
            transaction: name,
            ..
        }
        | ScriptEvent::Sub {
            transaction: name,
            ..
        }
        | ScriptEvent::Register { resource: name, .. }
        | ScriptEvent::Aware { resource: name, .. }
        | ScriptEvent::Double { resource: name, .. } => {
            let _octets = name.octets();
        }
        _ => {}
    }
}
