// What a node answers by its records alone.
ghost use Rattle.std.specs.Prelude.{◌≡◌, ◌≤◌};
ghost use Rattle.std.specs.Option.{option_copied};
ghost use Rattle.coordinator.specs.NodeCalls as calls;
ghost use Rattle.coordinator.specs.NodeRecords as records;
ghost use Rattle.recovery_coord.specs.Held.{is_held};
ghost use Rattle.service_node.specs.Crashes.{IsCrashSafe};
ghost use Rattle.service_node.specs.Journaling.{IsAnsweredOrStarved, completed_by, records_take};

use crate::hearing::conclude;
use crate::node::Node;
use crate::says::record_says;
use coordinator::{Answers, Effect, Effects, Event, NodeFault, Said, StepAnswer};
use ior_refs::ObjectKey;
use ots_model::CallNumber;
use ots_model::tree::Heard;
use ots_outside::Disk;
use recovery_coord::Held;
use std::alloc::Global;

impl<D: Disk> Node<D> {
    /// Answers a call by the records alone, as one whose family is gone. An answer to a word that was told again goes
    /// by its number, whatever the key is; where it completes a record, its Done is asked of the journal. It is
    /// ObjectNotExist where no record that is held has the key, or stands at the place in the number. Memory is taken
    /// before anything happens.
    pub fn answer_recovered(
        &mut self,
        key: &ObjectKey,
        event: &Event,
    ) -> Result<StepAnswer, NodeFault>
        ensures answered { IsAnsweredOrStarved D.wants_memory D.told D.faults self.old self.new result
            (records_take (calls.retold_answer (event.entry.now).act) self.old.node)
            (completed_by (calls.retold_answer (event.entry.now).act) self.old.node)
            (calls.answers_recovered key.now event.entry.now) }
        ensures crash { IsCrashSafe D.told self.old self.new }
        ensures later { D.faults self.old.journal.disk ≤ D.faults self.new.journal.disk }
    {
        self.kept();
        let said = self.answer(key, event);
        self.kept();
        said
    }

    /// Answers a call by the records alone.
    fn answer(&mut self, key: &ObjectKey, event: &Event) -> Result<StepAnswer, NodeFault>
        ensures answered { IsAnsweredOrStarved D.wants_memory D.told D.faults self.old self.new result
            (records_take (calls.retold_answer (event.entry.now).act) self.old.node)
            (completed_by (calls.retold_answer (event.entry.now).act) self.old.node)
            (calls.answers_recovered key.now event.entry.now) }
        ensures later { D.faults self.old.journal.disk ≤ D.faults self.new.journal.disk }
    {
        match event.act.retold_answer() {
            Some((number, heard)) => self.hear_record(number, heard),
            None => self.say(key, event),
        }
    }

    /// What the record of a family that is gone answers.
    fn say(&self, key: &ObjectKey, event: &Event) -> Result<StepAnswer, NodeFault>
        ensures { result ≡ (calls.by_record key.now event.entry.now self.now.node).answer }
    {
        let held = match self.record_for(key) {
            Some(held) => held,
            None => return Err(NodeFault::ObjectNotExist),
        };
        match record_says(key, event, held) {
            Some(said) => Ok(alone(self.alloc, said, Vec::new(self.alloc))),
            None => Err(NodeFault::ObjectNotExist),
        }
    }

    /// The record of the family that a key names.
    fn record_for(&self, key: &ObjectKey) -> Option<&Held>
        ensures { option_copied result ≡ records.record_of key.now self.now.node }
    {
        self.recovered.record_of(key)
    }

    /// An answer to a word that was told again.
    fn hear_record(&mut self, number: &CallNumber, heard: &Heard) -> Result<StepAnswer, NodeFault>
        ensures answered { IsAnsweredOrStarved D.wants_memory D.told D.faults self.old self.new result
            (is_held (number.now).generation (self.old.node).recovered)
            (completed_by (Some (record { number = number.now; heard = heard.now })) self.old.node)
            (calls.hears_record number.now heard.now) }
        ensures later { D.faults self.old.journal.disk ≤ D.faults self.new.journal.disk }
    {
        if !self.recovered.holds(number.generation) {
            return Err(NodeFault::ObjectNotExist);
        }
        let mut happened = Vec::with_capacity(self.alloc, 1)?;
        let complete = self.recovered.heard(number, heard);
        conclude(
            &mut self.journal,
            &mut self.recovered,
            complete,
            &mut happened,
        );
        Ok(alone(self.alloc, Said::Plain, happened))
    }
}

/// An answer without a family: nothing waits for it there.
fn alone(alloc: Global, said: Said, happened: Vec<Effect>) -> StepAnswer
    ensures { result ≡ calls.alone said happened.items }
{
    StepAnswer {
        position: 0,
        said,
        finished: Answers::from_vec(Vec::new(alloc)),
        effects: Effects::from_vec(happened),
    }
}
