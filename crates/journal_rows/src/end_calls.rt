//! The calls of a resource end, each without what its contract says: nothing here needs it.

use crate::journals::AREA_LIMIT;
use ior_refs::ObjectKey;
use ots_model::tree::Heard;
use ots_model::{Decision, RefBytes};
use ots_outside::{Back, MemDisk};
use recovery_coord::Outbox;
use resource_end::{EndFault, ResourceEnd};
use std::alloc::Global;

/// A resource end over a disk in memory.
pub type MemEnd = ResourceEnd<MemDisk>;

/// What comes of a load of a resource end.
pub type LoadedEnd = Result<MemEnd, Back<MemDisk, EndFault>>;

/// Makes the call `ResourceEnd::load`, with an area within the limit.
pub fn load_end(alloc: Global, disk: MemDisk, area: u64, service: u64) -> LoadedEnd {
    ResourceEnd::load(alloc, disk, area.min(AREA_LIMIT), service)
}

/// Makes the call `into_disk`.
pub fn end_disk(end: MemEnd) -> MemDisk {
    end.into_disk()
}

/// Makes the call `service`.
pub fn service(end: &MemEnd) -> u64 {
    end.service()
}

/// Makes the call `asks`.
pub fn asks(end: &MemEnd, out: &mut Outbox) -> Result<(), EndFault> {
    end.asks(out)
}

/// Makes the call `fresh`.
pub fn fresh(end: &mut MemEnd, letter: u8) -> Result<ObjectKey, EndFault> {
    end.fresh(letter)
}

/// Makes the call `put`.
pub fn put(end: &mut MemEnd, key: &ObjectKey, cell: u64, value: u64) -> Result<(), EndFault> {
    end.put(key, cell, value)
}

/// Makes the call `get`.
pub fn get(end: &MemEnd, key: &ObjectKey, cell: u64) -> Result<Option<u64>, EndFault> {
    end.get(key, cell)
}

/// Makes the call `bind`.
pub fn bind(end: &mut MemEnd, key: &ObjectKey, recovery: RefBytes) -> Result<(), EndFault> {
    end.bind(key, recovery)
}

/// Makes the call `unmake`.
pub fn unmake(end: &mut MemEnd, key: &ObjectKey) {
    end.unmake(key);
}

/// Makes the call `refuse`.
pub fn refuse(end: &mut MemEnd, key: &ObjectKey) -> Result<(), EndFault> {
    end.refuse(key)
}

/// Makes the call `choose_heuristic`.
pub fn choose(end: &mut MemEnd, key: &ObjectKey, decision: Decision) -> Result<(), EndFault> {
    end.choose_heuristic(key, decision)
}

/// Makes the call `learn`.
pub fn learn(end: &mut MemEnd, key: &ObjectKey, heard: &Heard) -> Result<(), EndFault> {
    end.learn(key, heard)
}

/// Makes the call `prepare`.
pub fn prepare(end: &mut MemEnd, key: &ObjectKey) -> Result<Heard, EndFault> {
    end.prepare(key)
}

/// Makes the call `commit`.
pub fn commit(end: &mut MemEnd, key: &ObjectKey) -> Result<Heard, EndFault> {
    end.commit(key)
}

/// Makes the call `rollback`.
pub fn roll_back(end: &mut MemEnd, key: &ObjectKey) -> Result<Heard, EndFault> {
    end.rollback(key)
}

/// Makes the call `commit_one_phase`.
pub fn commit_alone(end: &mut MemEnd, key: &ObjectKey) -> Result<Heard, EndFault> {
    end.commit_one_phase(key)
}

/// Makes the call `forget`.
pub fn forget(end: &mut MemEnd, key: &ObjectKey) -> Result<Heard, EndFault> {
    end.forget(key)
}
