ghost use Rattle.std.specs.Prelude.{◌≡◌, IfOk};
ghost use Rattle.end_room.specs.Own.{DoesSome};
ghost use Rattle.end_room.specs.Sharing.{place_of};

use crate::ends::{Ends, Entered};
use crate::own_end::OwnEnd;
use ior_refs::ObjectKey;
use ots_model::tree::Heard;
use ots_model::{Endpoint, Octets, RefBytes};
use ots_outside::Disk;
use recovery_coord::Outbox;
use resource_end::{EndFault, Word};
use std::alloc::{AllocError, Global};
use std::sync::{Arc, Mutex, Wait};

/// An end behind its lock, and what is read without it.
#[derive(Drop)]
struct Shared<D: Disk> {
    at: Endpoint,
    service: u64,
    end: Mutex<OwnEnd<D>>,
}

/// An end that many sessions share. One after another has it for one call; nobody has it while a word is out.
#[derive(Drop)]
pub struct SharedEnd<R, D: Disk> {
    rt: R,
    shared: Arc<Shared<D>, Global>,
}

impl<R: Wait + Copy, D: Disk + Drop> SharedEnd<R, D> {
    /// This end, to be shared.
    pub fn new(rt: R, alloc: Global, end: OwnEnd<D>) -> Result<SharedEnd<R, D>, AllocError>
        ensures place { IfOk result (λ shared. place_of shared ≡ end.place) }
    {
        let at = Endpoint {
            host: Octets::new(alloc, end.at().host.bytes())?,
            port: end.at().port,
        };
        let service = end.service();
        let shared = Shared {
            at,
            service,
            end: Mutex::new(end),
        };
        Ok(SharedEnd {
            rt,
            shared: Arc::new(alloc, shared)?,
        })
    }

    /// The same end, for one more who shares it.
    pub fn share(&self) -> Result<SharedEnd<R, D>, AllocError>
        ensures place { IfOk result (λ shared. place_of shared ≡ place_of self.now) }
    {
        Ok(SharedEnd {
            rt: self.rt,
            shared: Arc::try_clone(&self.shared)?,
        })
    }
}

impl<R: Wait, D: Disk + Drop> Ends for SharedEnd<R, D> {
    ghost use Rattle.end_room.specs.Own.{DoesSome};
    ghost use Rattle.end_room.specs.Sharing.{place_of};

    ghost does = { λ _ deed _. DoesSome D.wants_memory D.told D.faults deed };

    ghost place = { place_of };

    fn at(&self) -> &Endpoint {
        &self.shared.at
    }

    fn service(&self) -> u64 {
        self.shared.service
    }

    fn enter(&mut self, tid: &[u8]) -> Result<Entered, EndFault> {
        self.shared.end.lock(&self.rt).enter(tid)
    }

    fn bind(&mut self, tid: &[u8], key: &ObjectKey, recovery: RefBytes) -> Result<(), EndFault> {
        self.shared.end.lock(&self.rt).bind(tid, key, recovery)
    }

    fn unmake(&mut self, key: &ObjectKey) {
        self.shared.end.lock(&self.rt).unmake(key);
    }

    fn put(&mut self, key: &ObjectKey, cell: u64, value: u64) -> Result<(), EndFault> {
        self.shared.end.lock(&self.rt).put(key, cell, value)
    }

    fn read(&mut self, tid: Option<&[u8]>, cell: u64) -> Option<u64> {
        self.shared.end.lock(&self.rt).read(tid, cell)
    }

    fn has(&mut self, key: &ObjectKey) -> bool {
        self.shared.end.lock(&self.rt).has(key)
    }

    fn tell(&mut self, word: Word, key: &ObjectKey) -> Result<Heard, EndFault> {
        self.shared.end.lock(&self.rt).tell(word, key)
    }

    fn asks(&mut self, out: &mut Outbox) -> Result<(), EndFault> {
        self.shared.end.lock(&self.rt).asks(out)
    }

    fn learn(&mut self, key: &ObjectKey, heard: &Heard) -> Result<(), EndFault> {
        self.shared.end.lock(&self.rt).learn(key, heard)
    }
}
