ghost use Rattle.std.specs.Prelude.{◌≡◌, ◌⊎◌, false, true, if◌then◌else◌, None, Ok, IfErr, IfOk, IfSome, IsErr, OnErr, OnOk, replicate};
ghost use Rattle.coordinator.specs.Contexts.{context_named};
ghost use Rattle.coordinator.specs.History.{is_later};
ghost use Rattle.coordinator.specs.Node as nodes;
ghost use Rattle.ots_context.specs.declared.context.AnyTail.TheVariants.{Null};
ghost use Rattle.ots_outside.specs.Source.{raised};
ghost use Rattle.service_node.specs.Given.{node_makes};
ghost use Rattle.tree_room.specs.Room.{CanBeTold, IsNamed};
ghost use Rattle.tree_room.specs.Answers as answers;
ghost use Rattle.tree_room.specs.Answers.{HasTicked, HasTickedSome, IsAnswered, IsCreated, IsRefused, IsStarved, IsThereBy, IsUncreated};

use crate::fault::RoomFault;
use crate::locked::LockedNode;
use crate::naming::Naming;
use crate::ticket::Ticket;
use coordinator::{Act, Answers, Effects, Event, Said, StepAnswer};
use ior_refs::ObjectKey;
use ots_context::Context;
use ots_model::{Endpoint, Status};
use ots_outside::{Back, Disk};
use recovery_coord::Outbox;
use service_node::Node;
use std::alloc::{AllocError, Global};
use std::marker::Model;
use std::sync::{Mutex, Wait};

/// The transactions of a service in one life. Callers in several threads share it: one after another has the node for one
/// step. Nobody has it while a word is out. Contracts see the room as a `RoomState`.
#[derive(Drop)]
pub struct Room<N: Naming, D: Disk> {
    alloc: Global,
    at: Endpoint,
    service: u64,
    life: u32,
    node: Mutex<LockedNode<N, D>>,
}

impl<N: Naming, D: Disk> Model for Room<N, D> {
    ghost use Rattle.tree_room.specs.Room.{IsNamedRoom, RoomState};

    ghost Value = { RoomState };

    ghost view = { λ room. record { at = room.at; service = room.service; life = room.life } };

    ghost invariant = { λ room. IsNamedRoom N.service N.life (record {
      at = room.at;
      service = room.service;
      life = room.life;
    }) };
}

/// One caller of a room. Each thread that calls has its own. Contracts see it as the number of its calls.
#[derive(Drop)]
pub struct Pass {
    calls: u64,
}

impl Model for Pass {
    ghost use Rattle.std.specs.Prelude.{ℕ};

    ghost Value = { ℕ };

    ghost view = { λ pass. pass.calls };
}

/// A room, and those who may call it.
#[derive(Drop)]
pub struct Opened<N: Naming, D: Disk> {
    /// The room.
    pub room: Room<N, D>,
    /// Its callers.
    pub passes: Vec<Pass>,
}

impl Pass {
    /// How many calls it has made. The count stands still at its end.
    pub fn calls(&self) -> u64
        ensures { result ≡ self.now }
    {
        self.calls
    }

    /// One more call is made.
    fn count(&mut self)
        ensures { self.new ≡ raised self.old }
    {
        self.calls = self.calls.saturating_add(1);
    }
}

impl<N: Naming, D: Disk> Room<N, D> {
    /// The room of this node, whose service stands at this place, with so many callers. Where memory is wanting, the node
    /// comes back.
    pub fn new(
        alloc: Global,
        node: Node<D>,
        at: Endpoint,
        passes: u32,
    ) -> Result<Opened<N, D>, Back<Node<D>, AllocError>>
        requires host { CanBeTold at }
        requires named { IsNamed N.service N.life node }
        ensures room { IfOk result (λ opened. opened.room ≡ record {
          at = at;
          service = (node.journal).service;
          life = nodes.life node.node;
        }) }
        ensures passes { IfOk result (λ opened. opened.passes.items ≡ replicate passes 0) }
        ensures back { IfErr result (λ back. back.value ≡ node) }
    {
        node.hangs_together();
        match new_passes(alloc, passes) {
            Ok(passes) => Ok(Opened {
                room: Room {
                    alloc,
                    at,
                    service: node.journal().service(),
                    life: node.life(),
                    node: Mutex::new(LockedNode::new(node)),
                },
                passes,
            }),
            Err(fault) => {
                drop(at);
                Err(Back { value: node, fault })
            }
        }
    }

    /// Where its service stands.
    pub fn at(&self) -> &Endpoint
        ensures { result.now ≡ self.now.at }
    {
        &self.at
    }

    /// The number of its service.
    pub fn service(&self) -> u64
        ensures { result ≡ self.now.service }
    {
        self.service
    }

    /// The life of its service.
    pub fn life(&self) -> u32
        ensures { result ≡ self.now.life }
    {
        self.life
    }

    /// Makes a transaction (`create` of TransactionFactory), whose time is over after so many seconds, or never where none
    /// are given.
    pub fn create<R: Wait>(
        &self,
        rt: &R,
        pass: &mut Pass,
        now: u64,
        timeout: u32,
    ) -> Result<Ticket, RoomFault>
        ensures made { IfOk result (λ ticket. IsCreated D self.now.service self.now.life now timeout (Ok ticket.key)) }
        ensures opened { IfOk result (λ ticket. (ticket.answer ≡ answers.opened) × (ticket.context ≡ None)) }
        ensures refused { IfErr result (λ fault. IsUncreated D self.now.service self.now.life now timeout fault) }
        ensures counted { pass.new ≡ raised pass.old }
    {
        pass.count();
        let key = make(&mut self.node.lock(rt), now, timeout)?;
        Ok(Ticket {
            key,
            answer: made(self.alloc),
            context: None,
        })
    }

    /// A call on the object with this key, as a step of its transaction, or as what a record answers. Its words are put
    /// behind the others of the outbox.
    pub fn apply<R: Wait>(
        &self,
        rt: &R,
        pass: &mut Pass,
        key: &ObjectKey,
        event: &Event,
        out: &mut Outbox,
    ) -> Result<Ticket, RoomFault>
        requires given { node_makes (event.now).act ≡ false }
        ensures answered { IfOk result (λ ticket. IsAnswered D.wants_memory D.told D.faults self.now.at
            self.now.service self.now.life key.now event.entry.now ticket.answer ticket.context out.old.words out.new.words) }
        ensures refused { IfErr result (λ fault. IsRefused D.wants_memory D.told D.faults self.now.service
            self.now.life key.now event.entry.now fault out.old.words out.new.words
            ⊎ IsStarved event.entry.now fault out.old.words out.new.words) }
        ensures key { IfOk result (λ ticket. ticket.key ≡ key.now) }
        ensures tail { IfOk result (λ ticket. IfSome ticket.context (λ c. c.tail ≡ Null)) }
        ensures later { IfOk result (λ ticket. is_later (ticket.answer).said ≡ true → ticket.context ≡ None) }
        ensures counted { pass.new ≡ raised pass.old }
    {
        pass.count();
        call(&mut self.node.lock(rt), &self.at, key, event, out)
    }

    /// The clock of the service goes on: the time of some transactions is over, and what stands in the journal and isn't
    /// complete is told again. The words are put behind the others of the outbox.
    pub fn tick<R: Wait>(
        &self,
        rt: &R,
        pass: &mut Pass,
        now: u64,
        out: &mut Outbox,
    ) -> Result<(), RoomFault>
        ensures ticked { OnOk result (HasTicked D self.now.service self.now.life now out.old.words out.new.words) }
        ensures some { OnErr result (HasTickedSome D self.now.service self.now.life now out.old.words out.new.words) }
        ensures memory { IfErr result (λ fault. fault ≡ RoomFault.Memory) }
        ensures counted { pass.new ≡ raised pass.old }
    {
        pass.count();
        go_on(&mut self.node.lock(rt), now, out)
    }

    /// Whether there is the object that a key names: one of a transaction that is there, or of a record that stands.
    pub fn holds<R: Wait>(&self, rt: &R, pass: &mut Pass, key: &ObjectKey) -> bool
        ensures there { IsThereBy D self.now.service self.now.life key.now result }
        ensures counted { pass.new ≡ raised pass.old }
    {
        pass.count();
        has_object(&self.node.lock(rt), key)
    }
}

/// So many passes.
fn new_passes(alloc: Global, count: u32) -> Result<Vec<Pass>, AllocError>
    ensures { IfOk result (λ passes. passes.items ≡ replicate count 0) }
{
    let mut passes = Vec::new(alloc);
    for number in 0..count {
        passes.push(Pass { calls: 0 })?;
    }
    Ok(passes)
}

/// A node makes a family.
fn make<N: Naming, D: Disk>(
    node: &mut LockedNode<N, D>,
    now: u64,
    timeout: u32,
) -> Result<ObjectKey, RoomFault>
    ensures made { IfOk result (λ key. IsCreated D N.service N.life now timeout (Ok key)) }
    ensures refused { IfErr result (λ fault. IsUncreated D N.service N.life now timeout fault) }
{
    match node.create(now, timeout) {
        Ok(key) => Ok(key),
        Err(fault) => Err(RoomFault::from(fault)),
    }
}

/// A node, whose service stands at this place, answers a call.
fn call<N: Naming, D: Disk>(
    node: &mut LockedNode<N, D>,
    at: &Endpoint,
    key: &ObjectKey,
    event: &Event,
    out: &mut Outbox,
) -> Result<Ticket, RoomFault>
    requires host { CanBeTold at.now }
    requires given { node_makes (event.now).act ≡ false }
    ensures answered { IfOk result (λ ticket. IsAnswered D.wants_memory D.told D.faults at.now N.service N.life
        key.now event.entry.now ticket.answer ticket.context out.old.words out.new.words) }
    ensures refused { IfErr result (λ fault. IsRefused D.wants_memory D.told D.faults N.service N.life key.now
        event.entry.now fault out.old.words out.new.words
        ⊎ IsStarved event.entry.now fault out.old.words out.new.words) }
    ensures key { IfOk result (λ ticket. ticket.key ≡ key.now) }
    ensures tail { IfOk result (λ ticket. IfSome ticket.context (λ c. c.tail ≡ Null)) }
    ensures later { IfOk result (λ ticket. is_later (ticket.answer).said ≡ true → ticket.context ≡ None) }
{
    let found = context_for(node.node(), key, event, at)?;
    match node.apply(key, event, out) {
        Ok(answer) => {
            let context = given_plainly(&answer.said, found);
            Ok(Ticket {
                key: *key,
                answer,
                context,
            })
        }
        Err(fault) => Err(RoomFault::from(fault)),
    }
}

/// A context, where the call that asked for it was done.
fn given_plainly(said: &Said, found: Option<Context>) -> Option<Context>
    ensures given { result ≡ (if answers.is_plain said.now then found else None) }
    ensures later { is_later said.now ≡ true → result ≡ None }
    ensures tail { IfSome found (λ c. c.tail ≡ Null) → IfSome result (λ c. c.tail ≡ Null) }
{
    match said {
        Said::Plain => found,
        _ => {
            drop(found);
            None
        }
    }
}

/// Whether a node has the object that a key names.
fn has_object<N: Naming, D: Disk>(node: &LockedNode<N, D>, key: &ObjectKey) -> bool
    ensures { IsThereBy D N.service N.life key.now result }
{
    node.node().has_object(key)
}

/// The clock of a node goes on.
fn go_on<N: Naming, D: Disk>(
    node: &mut LockedNode<N, D>,
    now: u64,
    out: &mut Outbox,
) -> Result<(), RoomFault>
    ensures ticked { OnOk result (HasTicked D N.service N.life now out.old.words out.new.words) }
    ensures some { OnErr result (HasTickedSome D N.service N.life now out.old.words out.new.words) }
    ensures memory { IfErr result (λ fault. fault ≡ RoomFault.Memory) }
{
    match node.tick(now, out) {
        Ok(_happened) => Ok(()),
        Err(fault) => Err(RoomFault::from(fault)),
    }
}

/// What is said where a transaction was made.
fn made(alloc: Global) -> StepAnswer
    ensures { result ≡ answers.opened }
{
    StepAnswer {
        position: 0,
        said: Said::State(Status::Active),
        finished: Answers::from_vec(Vec::new(alloc)),
        effects: Effects::from_vec(Vec::new(alloc)),
    }
}

/// What a request says that belongs to the transaction which an event asks for that. None is there where a record answers.
fn context_for<D: Disk>(
    node: &Node<D>,
    key: &ObjectKey,
    event: &Event,
    at: &Endpoint,
) -> Result<Option<Context>, RoomFault>
    requires host { CanBeTold at.now }
    ensures found { IfOk result (λ found. found ≡ (if answers.asks_context (event.entry.now).act
        then context_named at.now (event.entry.now).now key.now node.now.node else None)) }
    ensures tail { IfOk result (λ found. IfSome found (λ c. c.tail ≡ Null)) }
    ensures memory { IfErr result (λ fault. fault ≡ RoomFault.Memory) }
    ensures asked { IsErr result → answers.asks_context (event.entry.now).act ≡ true }
{
    if !matches!(event.act, Act::GetTxcontext) {
        return Ok(None);
    }
    match node.context(key, event.now, at) {
        Ok(context) => Ok(Some(context)),
        Err(fault) => match RoomFault::from(fault) {
            RoomFault::Memory => Err(RoomFault::Memory),
            _ => Ok(None),
        },
    }
}
