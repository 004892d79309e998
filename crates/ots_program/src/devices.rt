ghost use Rattle.std.specs.Prelude.{◌≡◌};

use ots_outside::Spawner;
use std::alloc::Global;
use std::marker::Model;
use std::mem;

/// A word of the command line, as octets. Contracts see it as the list of them.
#[derive(Debug, Drop)]
pub struct Word {
    octets: Vec<u8>,
}

impl Model for Word {
    ghost use Rattle.std.specs.Prelude.{List, ℕ};

    ghost Value = { List ℕ };

    ghost view = { λ w. w.octets.items };
}

impl Word {
    /// A word of these octets.
    pub fn new(octets: Vec<u8>) -> Word
        ensures { result ≡ octets.items }
    {
        Word { octets }
    }

    /// The octets of the word.
    pub fn bytes(&self) -> &[u8]
        ensures { result.now ≡ self.now }
    {
        self.octets.as_slice()
    }
}

/// What the program reads from and writes to, and what a service needs beside that.
#[derive(Drop)]
pub struct Devices<S, K, D, O, L, C, R> {
    /// Where the input comes from.
    pub source: S,
    /// Where the output goes.
    pub sink: K,
    /// Where a journal is kept, until a service takes it.
    pub disk: Option<D>,
    /// Where a service's connections come in.
    pub door: O,
    /// Over which the words of a service go out, one link for each session at once and one for ticks, until it takes them.
    pub links: Vec<L>,
    /// The clocks of a service, as many as the links, until it takes them.
    pub clocks: Vec<C>,
    /// What starts the sessions of a service.
    pub spawner: Spawner<R>,
}

impl<S, K, D, O, L: Drop, C: Drop, R> Devices<S, K, D, O, L, C, R> {
    /// Takes the links and the clocks. None are left.
    pub(crate) fn take_workers(&mut self, alloc: Global) -> (Vec<L>, Vec<C>)
        ensures links { (result.0).items ≡ (self.old.links).items }
        ensures clocks { (result.1).items ≡ (self.old.clocks).items }
        ensures others { self.new ≡ record self.old { links = self.new.links; clocks = self.new.clocks } }
    {
        let links = mem::replace(&mut self.links, Vec::new(alloc));
        let clocks = mem::replace(&mut self.clocks, Vec::new(alloc));
        (links, clocks)
    }
}
