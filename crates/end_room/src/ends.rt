ghost use Rattle.std.specs.Prelude.{◌≡◌};
ghost use Rattle.std.specs.Option.{option_copied};
ghost use Rattle.end_room.specs.Deeds as deeds;
ghost use Rattle.end_room.specs.Deeds.{Deed};
ghost use Rattle.end_room.specs.Place.{EndPlace};

use ior_refs::ObjectKey;
use ots_model::tree::Heard;
use ots_model::{Endpoint, RefBytes};
use recovery_coord::Outbox;
use resource_end::{EndFault, Word};

/// The resource that a transaction has at an end.
#[derive(Clone, Copy)]
pub struct Enlisted {
    /// Its key.
    pub key: ObjectKey,
    /// Whether the transaction's coordinator has it registered.
    pub bound: bool,
}

/// What a transaction finds that wants to put something.
#[derive(Clone, Copy)]
pub enum Entered {
    /// It had no resource. This one was made for it, and is to be registered.
    New(ObjectKey),
    /// Its resource is just being registered.
    Registering,
    /// Its resource is registered.
    Known(ObjectKey),
}

/// A resource end whose resources are found by their transactions. A transaction is known by the tid of its otid, and has one
/// resource there while that is unfinished; a subtransaction has a resource of its own.
pub trait Ends {
    /// That a call has done this.
    ghost does: { Self → Deed → Self → Type 0 };

    /// Where it stands.
    ghost place: { Self → EndPlace };

    /// Where its objects are called.
    fn at(&self) -> &Endpoint
        ensures at { result.now ≡ (place self.now).at };

    /// The number of its service.
    fn service(&self) -> u64
        ensures service { result ≡ (place self.now).service };

    /// A transaction wants to put something. It finds its resource, or one is made for it.
    fn enter(&mut self, tid: &[u8]) -> Result<Entered, EndFault>
        ensures does { does self.old (deeds.Enters tid.now result) self.new }
        ensures stays { place self.new ≡ place self.old };

    /// The resource of this key is registered, and has this recovery coordinator; where it is the transaction's, that finds it
    /// so. One that was told the end of its transaction meanwhile is the transaction's no more. It is refused where there is no
    /// such resource (`ObjectNotExist`).
    fn bind(&mut self, tid: &[u8], key: &ObjectKey, recovery: RefBytes) -> Result<(), EndFault>
        ensures does { does self.old (deeds.Binds tid.now key.now recovery result) self.new }
        ensures stays { place self.new ≡ place self.old };

    /// A resource that has put nothing is forgotten, as its registration has failed.
    fn unmake(&mut self, key: &ObjectKey)
        ensures does { does self.old (deeds.Unmakes key.now) self.new }
        ensures stays { place self.new ≡ place self.old };

    /// A resource puts a value into a cell (`ResourceEnd::put`).
    fn put(&mut self, key: &ObjectKey, cell: u64, value: u64) -> Result<(), EndFault>
        ensures does { does self.old (deeds.Puts key.now cell value result) self.new }
        ensures stays { place self.new ≡ place self.old };

    /// What a transaction sees of a cell: what its unfinished resource has put there, or else what is stored. With no
    /// transaction, what is stored.
    fn read(&mut self, tid: Option<&[u8]>, cell: u64) -> Option<u64>
        ensures does { does self.old (deeds.Reads (option_copied tid.entry) cell result) self.new }
        ensures stays { place self.new ≡ place self.old };

    /// Whether there is the resource of a key.
    fn has(&mut self, key: &ObjectKey) -> bool
        ensures does { does self.old (deeds.Has key.now result) self.new }
        ensures stays { place self.new ≡ place self.old };

    /// A resource is told a word.
    fn tell(&mut self, word: Word, key: &ObjectKey) -> Result<Heard, EndFault>
        ensures does { does self.old (deeds.Tells word key.now result) self.new }
        ensures stays { place self.new ≡ place self.old };

    /// Puts the ask of each resource that waits for an outcome behind the other words (`ResourceEnd::asks`).
    fn asks(&mut self, out: &mut Outbox) -> Result<(), EndFault>
        ensures does { does self.old (deeds.Asks out.old.words out.new.words result) self.new }
        ensures stays { place self.new ≡ place self.old };

    /// A resource hears the answer to its ask (`ResourceEnd::learn`).
    fn learn(&mut self, key: &ObjectKey, heard: &Heard) -> Result<(), EndFault>
        ensures does { does self.old (deeds.Learns key.now heard.now result) self.new }
        ensures stays { place self.new ≡ place self.old };
}
