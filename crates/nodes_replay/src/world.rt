// The world of a script.
ghost use Rattle.std.specs.Prelude.{◌≡◌, List, None, Ok, OnOk};
ghost use Rattle.std.specs.Option.{option_copied, option_map};
ghost use Rattle.ots_model.specs.Name.{IsName};
ghost use Rattle.nodes_world.specs.Told.{Told};
ghost use Rattle.nodes_world.specs.World.{empty as nothing_made};
ghost use Rattle.nodes_replay.specs.Agreement.{CommitsAreKept, DecisionsAreTold, EndsSafely, GoesOnLasting, GoesOnSafely, HasTold, ResourcesStayOver, RestartTellsAgain, StandsComplete, StandsKnown};
ghost use Rattle.nodes_replay.specs.Going.{GoesOn};
ghost use Rattle.nodes_replay.specs.Lent.{lent, lent_as};
ghost use Rattle.nodes_replay.specs.Stands.{HasFinished, HasStepped};
ghost use Rattle.nodes_replay.specs.WorldInside.{lasting_fault};

use crate::agreement::{gives_name, laws_hold};
use crate::deeds::carry_line;
use crate::lending::lent_node;
use nodes_endings::tell_journals;
use nodes_seats::empty;
use nodes_state::State;
use ots_model::Name;
use ots_outside::MemDisk;
use ots_world::{ScriptEvent, WorldFault};
use service_node::Node;
use std::alloc::Global;
use std::marker::Model;

/// What is answered for good from a line on: all that it is refused for, but names.
fn lasting_fault(stepped: Result<(), WorldFault>) -> Option<WorldFault>
    ensures { result ≡ lasting_fault stepped }
{
    match stepped {
        Ok(()) | Err(WorldFault::Names) => None,
        Err(fault) => Some(fault),
    }
}

/// The world of a script. Contracts see it as a world of the definitions, or as the refusal that it answers for good.
#[derive(Drop)]
pub struct World {
    state: State,
    fault: Option<WorldFault>,
}

impl Model for World {
    ghost use Rattle.nodes_replay.specs.Standing.{Standing};
    ghost use Rattle.nodes_replay.specs.WorldInside.{seen, Keeps};

    ghost Value = { Standing };

    ghost view = { seen };

    ghost invariant = { Keeps };
}

impl World {
    /// A world in which nothing was made.
    pub fn new(alloc: Global) -> World
        ensures empty { result ≡ Ok nothing_made }
    {
        World {
            state: empty(alloc),
            fault: None,
        }
    }

    /// Carries out one line of a script, and tells what happened at the end of `lines`. After a refusal for names the
    /// world is unchanged; any other refusal it answers for good.
    pub fn step(&mut self, event: &ScriptEvent, lines: &mut Vec<u8>) -> Result<(), WorldFault>
        // The world after the line, and the lines that tell it, are the definition's; or the line is refused.
        ensures stepped { HasStepped self.old event.now self.new lines.old.items lines.new.items result }

        // The lines so far are safe, and stay so, whatever the answer.
        ensures agreement { (told : List Told) → HasTold self.old told
            → GoesOnSafely self.old event.now told self.new lines.old.items lines.new.items }

        // No family is both decided and closed, and numbers and keys name one thing.
        ensures known { (told : List Told) → HasTold self.new told → StandsKnown self.new told }

        // What is decided or closed before the line is so after it.
        ensures lasts { (told : List Told) → HasTold self.old told
            → OnOk result (GoesOnLasting self.old event.now told self.new lines.old.items lines.new.items) }

        // So it is with updates that a resource has stored or dropped; and it has stored them where it has answered
        // commit.
        ensures stays { OnOk result (ResourcesStayOver self.old self.new) }
        ensures stored { (told : List Told) → HasTold self.new told → CommitsAreKept self.new }

        // Each decision that stands was told, and a restart tells again each one that stands on the disk.
        ensures recorded { (told : List Told) → HasTold self.new told → DecisionsAreTold self.new told }
        ensures again { (told : List Told) → HasTold self.old told
            → OnOk result (RestartTellsAgain self.old event.now self.new lines.old.items lines.new.items) }

        // A Done names a decision that is over for all whom it names.
        ensures complete { (told : List Told) → HasTold self.new told → StandsComplete self.new }
    {
        laws_hold();
        gives_name(event);
        self.goes_on();
        self.carry_out(event, lines)
    }

    /// What `step` does, the laws apart.
    fn carry_out(&mut self, event: &ScriptEvent, lines: &mut Vec<u8>) -> Result<(), WorldFault>
        ensures stepped { HasStepped self.old event.now self.new lines.old.items lines.new.items result }
    {
        if let Some(fault) = self.fault {
            return Err(fault);
        }
        let stepped = carry_line(&mut self.state, event, lines);
        self.fault = lasting_fault(stepped);
        stepped
    }

    /// While it stands, it has no more messages than there may be.
    fn goes_on(&self)
        ensures { GoesOn self.now }
    {
        let _within_the_limit = self.state.messages.next_number();
    }

    /// The end of a script: the journal of each node is told. It answers the refusal that the world answers for good. This is
    /// `tell_end`, and lets go of the world.
    pub fn finish(self, lines: &mut Vec<u8>) -> Result<(), WorldFault>
        ensures finished { HasFinished self lines.old.items lines.new.items result }

        // The lines so far are safe, and stay so.
        ensures agreement { (told : List Told) → HasTold self told
            → EndsSafely self told lines.old.items lines.new.items result }
    {
        self.tell_end(lines)
    }

    /// Tells what `finish` tells, and leaves the world to its caller.
    pub fn tell_end(&self, lines: &mut Vec<u8>) -> Result<(), WorldFault>
        ensures finished { HasFinished self.now lines.old.items lines.new.items result }

        // The lines so far are safe, and stay so.
        ensures agreement { (told : List Told) → HasTold self.now told
            → EndsSafely self.now told lines.old.items lines.new.items result }
    {
        laws_hold();
        self.tell_journals(lines)
    }

    /// What `tell_end` does, the laws apart.
    fn tell_journals(&self, lines: &mut Vec<u8>) -> Result<(), WorldFault>
        ensures finished { HasFinished self.now lines.old.items lines.new.items result }
    {
        match self.fault {
            Some(fault) => Err(fault),
            None => Ok(tell_journals(&self.state, lines)?),
        }
    }

    /// The node of that name, where it is up and the world doesn't answer a refusal for good.
    pub fn node(&self, name: &[u8]) -> Option<&Node<MemDisk>>
        ensures node { IsName name.now → option_map lent_as (option_copied result) ≡ lent self.now name.now }
        ensures none { ¬ (IsName name.now) → result ≡ None }
    {
        if self.fault.is_some() {
            return None;
        }
        lent_node(&self.state, &Name::new(name)?)
    }
}
