// A call to a node, in which a stop may strike.
ghost use Rattle.std.specs.Prelude.{◌≡◌, false, IfOk, IfErr, Some};
ghost use Rattle.std.specs.Option.{option_map};
ghost use Rattle.ots_world.specs.declared.fault.WorldFault.TheVariants.{Memory};
ghost use Rattle.service_node.specs.Given.{node_makes};
ghost use Rattle.nodes_lives.specs.Calling.{HasCalled, stop_of};
ghost use Rattle.nodes_lives.specs.Shown.{Runs, living};
ghost use Rattle.nodes_lives.specs.Striking.{left_in};
ghost use Rattle.nodes_parts.specs.Striking.{HasGone};

use crate::first::told_before;
use crate::live::LiveNode;
use crate::running::{Running, Through, apply};
use coordinator::{Effects, Event, NodeFault, StepAnswer};
use family_laws::families_close_last;
use ior_refs::ObjectKey;
use nodes_parts::{Appended, Gates, Stop};
use nodes_world::stopped_appends_are_safe;
use ots_world::WorldFault;
use recovery_coord::{Outbox, completes_once};
use std::alloc::{AllocError, Global};

/// How many writes an append makes.
const APPEND_WRITES: u64 = 2;

/// A call that went through: the node behind it, the stop that is still to come, and what the call is answered or why it is
/// refused.
#[derive(Drop)]
pub struct Answered {
    pub node: LiveNode,
    pub stop: Option<Stop>,
    pub answer: Result<StepAnswer, NodeFault>,
}

/// A crash inside a write in a call: the octets that it has left of the disk, and what had happened before, in order.
#[derive(Drop)]
pub struct Stopped {
    pub image: Vec<u8>,
    pub heard: Effects,
}

/// What has come of a call.
#[derive(Drop)]
pub enum Called {
    /// It went through.
    Answered(Answered),
    /// The node has crashed inside a write.
    Stopped(Stopped),
}

impl LiveNode {
    /// A call or an answer comes to the object with this key, and a stop may be to come. The event is none that a node
    /// tells its families itself. The words that go out are put behind those that wait; where the node crashes, no word waits.
    /// Where memory runs out, the node is gone.
    pub fn call(
        self,
        key: &ObjectKey,
        event: &Event,
        stop: Option<Stop>,
        words: &mut Outbox,
    ) -> Result<Called, WorldFault>
        requires given { node_makes (event.now).act ≡ false }
        ensures called { IfOk result (λ c. HasCalled key.now event.entry.now self (option_map stop_of stop) c
            words.old.words words.new.words) }
        ensures fault { IfErr result (λ fault. fault ≡ Memory) }
    {
        match stop {
            Some(stop) => call_before(self.running, key, event, stop, words),
            None => Ok(went_on(apply(self.running, key, event, words)?, None)),
        }
    }
}

/// A call that went through.
fn went_on(through: Through, stop: Option<Stop>) -> Called
    requires runs { Runs through.running }
    ensures { result ≡ Called.Answered (record {
      node = living through.running;
      stop = stop;
      answer = through.answer;
    }) }
{
    Called::Answered(Answered {
        node: LiveNode {
            running: through.running,
        },
        stop,
        answer: through.answer,
    })
}

/// A call before a stop: where a record is appended in it, the stop comes nearer, or strikes.
fn call_before(
    running: Running,
    key: &ObjectKey,
    event: &Event,
    mut stop: Stop,
    words: &mut Outbox,
) -> Result<Called, WorldFault>
    requires runs { Runs running }
    requires given { node_makes (event.now).act ≡ false }
    ensures called { IfOk result (λ c. HasCalled key.now event.entry.now (living running) (Some (stop_of stop)) c
        words.old.words words.new.words) }
    ensures fault { IfErr result (λ fault. fault ≡ Memory) }
{
    stopped_appends_are_safe();
    families_close_last();
    completes_once();
    let last = running.end;
    let through = apply(running, key, event, words)?;
    let end = through.running.end;
    if end == last {
        return Ok(went_on(through, Some(stop)));
    }
    if stop.write > APPEND_WRITES {
        stop.write -= APPEND_WRITES;
        return Ok(went_on(through, Some(stop)));
    }
    let appended = Appended {
        reads: through.running.octets(),
        loaded: through.running.loaded.as_slice(),
        gates: Gates { last, end },
    };
    let alloc = through.running.alloc;
    let image = strike(alloc, appended, &stop)?;
    let heard = told_before(alloc, &through.answer)?;
    *words = Outbox::new(alloc);
    Ok(Called::Stopped(Stopped { image, heard }))
}

/// What a stop inside an append leaves of the disk.
fn strike(alloc: Global, appended: Appended<'_>, stop: &Stop) -> Result<Vec<u8>, AllocError>
    requires gone { HasGone appended }
    ensures { IfOk result (λ octets. octets.items ≡ left_in appended.entry stop.now) }
{
    if stop.write < APPEND_WRITES {
        appended.left_in_first(alloc, &stop.image)
    } else {
        appended.left_in_second(alloc, &stop.image)
    }
}
