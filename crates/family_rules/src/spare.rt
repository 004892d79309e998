// Memory that a step leaves for the next one.
ghost use Rattle.std.specs.Prelude.{◌≡◌, ◌≤◌, [], OnOk, vec_capacity};
ghost use Rattle.std.specs.VecDeque.{deque_capacity};

use crate::call::Task;
use crate::parts::Parts;
use std::alloc::{AllocError, Global};
use std::collections::VecDeque;
use std::mem;

/// What a step has left of the memory that was taken for it.
#[derive(Drop)]
pub struct Spare {
    pub(crate) parts: Box<Parts>,
    pub(crate) tasks: VecDeque<Task>,
}

impl Spare {
    /// A block, and no more memory.
    pub(crate) fn new(alloc: Global) -> Result<Spare, AllocError> {
        Ok(Spare {
            parts: Box::new(alloc, Parts::new(alloc))?,
            tasks: VecDeque::new(alloc),
        })
    }
}

/// Empties a vector, which has room for so many then.
pub(crate) fn empty<X: Drop>(items: &mut Vec<X>, room: usize) -> Result<(), AllocError>
    ensures empty { OnOk result (items.new.items ≡ []) }
    ensures room { OnOk result (room ≤ vec_capacity items.new) }
{
    items.clear();
    items.reserve(room)
}

/// Empties a queue, which has room for so many then.
pub(crate) fn empty_queue<X: Drop>(items: &mut VecDeque<X>, room: usize) -> Result<(), AllocError>
    ensures empty { OnOk result (items.new.items ≡ []) }
    ensures room { OnOk result (room ≤ deque_capacity items.new) }
{
    items.clear();
    items.reserve(room)
}

/// Takes the items out. Where there are none, their memory stays.
pub(crate) fn taken<X>(items: &mut Vec<X>) -> Vec<X>
    ensures { result.items ≡ items.old.items }
{
    let none = Vec::new(*items.allocator());
    if items.is_empty() {
        none
    } else {
        mem::replace(items, none)
    }
}
