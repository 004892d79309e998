ghost use Rattle.std.specs.Prelude.{◌≡◌, IfOk};

use coordinator::{Act, Said};
use ior_refs::ObjectKey;
use ots_model::tree::Outward;
use std::alloc::{AllocError, Global};
use std::marker::Model;
use std::mem;

/// What a client calls, in a block of its own: few messages are calls, and none takes the room of one. Contracts see what
/// is called.
#[derive(Drop)]
pub struct KeptAct {
    inside: Box<Act>,
}

impl Model for KeptAct {
    ghost use Rattle.coordinator.specs.declared.event.Act.{Act};

    ghost Value = { Act };

    ghost view = { λ a. a.inside.value };
}

impl KeptAct {
    /// It is kept in a block of its own.
    pub fn new(alloc: Global, act: Act) -> Result<KeptAct, AllocError>
        ensures kept { IfOk result (λ kept. kept ≡ act) }
    {
        let inside = Box::new(alloc, act)?;
        Ok(KeptAct { inside })
    }

    /// Another one takes its place.
    pub fn replace(&mut self, act: Act) -> Act
        ensures was { result ≡ self.old }
        ensures is { self.new ≡ act }
    {
        mem::replace(&mut *self.inside, act)
    }
}

/// What a message says.
#[derive(Drop)]
pub enum Content {
    /// A client calls the object of a node that has that key.
    Call { to: ObjectKey, act: KeptAct },
    /// The seat at that place sends a word, which says in which life, and under which number.
    Request { from: u32, outward: Outward },
    /// The answer to the request of that number.
    Reply { request: u32, said: Said },
}

/// A message that was sent. The messages of a world are numbered from 1 in the order of sending.
#[derive(Drop)]
pub struct Message {
    /// What it says.
    pub content: Content,
    /// Whether it came to its receiver, which may have been down.
    pub delivered: bool,
    /// Whether it is passed over.
    pub lost: bool,
    /// Whether its sender has heard what became of it. Until then the sender waits, as long as it is in the same life.
    pub answered: bool,
}
