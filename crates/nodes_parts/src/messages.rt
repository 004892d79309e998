// The messages of a world.
ghost use Rattle.std.specs.Prelude.{◌≡◌, ◌+◌, ◌<◌, ◌≤◌, ◌∷◌, ◌++◌, [], not, ◌||◌, length, position, slice_set, slice_get, nat_lt, true, false, Some, None, if◌then◌else◌, IfOk, IfErr, IfSome, OnOk, OnErr};
ghost use Rattle.std.specs.Option.{option_copied};
ghost use Rattle.nodes_world.specs.Limits.{message_limit};
ghost use Rattle.nodes_world.specs.declared.message.Content.TheVariants as contents;
ghost use Rattle.nodes_parts.specs.Sending.{CannotSend, CountsPassed, as_sent, called_by, called_in, is_waiting, marked_answered, marked_delivered};

use coordinator::{Act, Event, copy_event};
use ior_refs::ObjectKey;
use nodes_world::{Content, KeptAct, Message};
use ots_world::{MESSAGE_LIMIT, WorldFault};
use std::alloc::{AllocError, Global};
use std::marker::Model;

/// The messages that were sent, in order.
#[derive(Drop)]
pub struct Messages {
    items: Vec<Message>,
    /// Each message before this place was delivered, or is passed over.
    passed: usize,
}

impl Model for Messages {
    ghost use Rattle.std.specs.Prelude.{List};
    ghost use Rattle.nodes_world.specs.declared.message.Message.{Message};
    ghost use Rattle.nodes_parts.specs.Sending.{ArePassed};

    ghost Value = { List Message };

    ghost view = { λ m. m.items.items };

    ghost invariant = { λ m. ArePassed m.items.items m.passed };
}

impl Messages {
    /// None was sent.
    pub fn new(alloc: Global) -> Messages
        ensures none { result ≡ [] }
    {
        Messages {
            items: Vec::new(alloc),
            passed: 0,
        }
    }

    /// The number of the next message.
    pub fn next_number(&self) -> u32
        ensures number { result ≡ length self.now + 1 }
        ensures within { length self.now ≤ message_limit }
    {
        self.items.len() as u32 + 1
    }

    /// The message at a place.
    pub fn at(&self, place: usize) -> Option<&Message>
        ensures { option_copied result ≡ slice_get self.now place }
    {
        self.items.get(place)
    }

    /// A message goes out. Its number is the answer.
    pub fn send(&mut self, content: Content, delivered: bool) -> Result<u32, WorldFault>
        ensures number { IfOk result (λ number. number ≡ length self.new) }
        ensures sent { OnOk result (self.new ≡ self.old ++ as_sent content delivered ∷ []) }
        ensures refused { IfErr result (λ fault. CannotSend self.old fault) }
        ensures err { OnErr result (self.new ≡ self.old) }
    {
        if self.items.len() >= MESSAGE_LIMIT {
            return Err(WorldFault::Limit(MESSAGE_LIMIT as u64));
        }
        self.items.push(Message {
            content,
            delivered,
            lost: false,
            answered: false,
        })?;
        Ok(self.items.len() as u32)
    }

    /// A client's call goes out to the object of a key, and is delivered at once. Its number is the answer.
    pub fn send_call(&mut self, alloc: Global, to: ObjectKey, act: Act) -> Result<u32, WorldFault>
        ensures number { IfOk result (λ number. number ≡ length self.new) }
        ensures sent { OnOk result (self.new ≡ self.old ++ as_sent (contents.Call to act) true ∷ []) }
        ensures refused { IfErr result (λ fault. CannotSend self.old fault) }
        ensures err { OnErr result (self.new ≡ self.old) }
    {
        let act = KeptAct::new(alloc, act)?;
        self.send(Content::Call { to, act }, true)
    }

    /// The place of the lowest message that was never delivered, and isn't passed over.
    pub fn lowest(&mut self) -> Option<usize>
        ensures lowest { result ≡ position is_waiting self.old }
        ensures same { self.new ≡ self.old }
        ensures within { IfSome result (λ place. place < message_limit) }
    {
        self.passed += count_passed(&self.items[self.passed..]);
        place_within(self.passed, self.items.len())
    }

    /// The client's call in the message at a place: the key of its object, and a copy of what it calls.
    pub fn call(
        &mut self,
        alloc: Global,
        place: usize,
    ) -> Result<Option<(ObjectKey, Act)>, AllocError>
        ensures call { IfOk result (λ call. call ≡ called_in self.old place) }
        ensures same { self.new ≡ self.old }
    {
        match self.items.get_mut(place) {
            Some(message) => call_in(alloc, &mut message.content),
            None => Ok(None),
        }
    }

    /// The message at a place is delivered.
    pub fn deliver(&mut self, place: usize)
        requires there { place < length self.old }
        ensures { self.new ≡ marked_delivered place self.old }
    {
        self.items[place].delivered = true;
    }

    /// The sender of the message at a place has heard what became of it.
    pub fn answer(&mut self, place: usize)
        requires there { place < length self.old }
        ensures { self.new ≡ marked_answered place self.old }
    {
        self.items[place].answered = true;
    }
}

/// A place, where it is one of so many.
fn place_within(place: usize, count: usize) -> Option<usize>
    ensures { result ≡ (if nat_lt place count then Some place else None) }
{
    if place < count { Some(place) } else { None }
}

/// The client's call that a message is, where it is one: the key of its object, and a copy of what it calls.
fn call_in(alloc: Global, content: &mut Content) -> Result<Option<(ObjectKey, Act)>, AllocError>
    ensures call { IfOk result (λ call. call ≡ called_by content.old) }
    ensures same { content.new ≡ content.old }
{
    match content {
        Content::Call { to, act } => {
            let act = copy_act(alloc, act)?;
            Ok(Some((*to, act)))
        }
        _ => Ok(None),
    }
}

/// A copy of what a client calls.
fn copy_act(alloc: Global, act: &mut KeptAct) -> Result<Act, AllocError>
    ensures copy { IfOk result (λ copy. copy ≡ act.old) }
    ensures same { act.new ≡ act.old }
{
    let event = Event {
        key: None,
        branch: 0,
        now: 0,
        act: act.replace(Act::Tick),
    };
    let copy = copy_event(alloc, &event);
    act.replace(event.act);
    Ok(copy?.act)
}

/// How many of these, from the front, were delivered or are passed over.
fn count_passed(items: &[Message]) -> usize
    ensures { CountsPassed result items.now }
{
    items
        .iter()
        .position(|message| !(message.delivered || message.lost))
        .unwrap_or(items.len())
}
