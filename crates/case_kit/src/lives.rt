//! The lives of a service over one disk.

use crate::house::Host;
use crate::kept_disk::{KeptDisk, Room, Shelf, Stored};
use crate::life::Life;
use ior_refs::ObjectKey;
use ots_outside::SureDisk;
use std::alloc::Global;
use std::io;
use std::io::ErrorKind;
use std::sync::{Arc, Mutex};

/// What the lives of a case have in common: a disk, and the object that requests are for at first, with the words for it.
#[derive(Drop)]
pub struct Lives<'a> {
    alloc: Global,
    shelf: Shelf,
    first: ObjectKey,
    named: &'a str,
}

impl<'a> Lives<'a> {
    /// Lives over a disk that is empty.
    pub fn new(alloc: Global, first: ObjectKey, named: &'a str) -> io::Result<Lives<'a>> {
        let disk = SureDisk::new(alloc, Vec::new(alloc))?;
        let stored = Stored {
            disk,
            room: Room::Enough,
        };
        match Arc::new(alloc, Mutex::new(stored)) {
            Ok(shelf) => Ok(Lives {
                alloc,
                shelf,
                first,
                named,
            }),
            Err(_) => Err(ErrorKind::OutOfMemory.into()),
        }
    }

    /// A life that has these lines.
    pub fn life(&self, lines: &'a str) -> io::Result<Life<'a>> {
        match Arc::try_clone(&self.shelf) {
            Ok(shelf) => Ok(Life::new(self.alloc, shelf, lines, (self.first, self.named))),
            Err(_) => Err(ErrorKind::OutOfMemory.into()),
        }
    }

    /// The disk, for the service of a life.
    pub fn disk<R: Host>(&self, rt: &R) -> io::Result<KeptDisk<R>> {
        match Arc::try_clone(&self.shelf) {
            Ok(shelf) => Ok(KeptDisk::new(*rt, shelf)),
            Err(_) => Err(ErrorKind::OutOfMemory.into()),
        }
    }
}
