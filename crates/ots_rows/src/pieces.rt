ghost use Rattle.std.specs.Prelude.{None};

use ots_outside::{Failed, MemSource, Source};

/// A source that gives at most so many octets at a time. It tells nothing of what it has left.
#[derive(Drop)]
pub struct Pieces {
    pub source: MemSource,
    pub most: usize,
}

impl Source for Pieces {
    ghost faults = { λ pieces. pieces.source.faults };

    ghost remaining = { λ _. None };

    fn read(&mut self, into: &mut [u8]) -> Result<usize, Failed> {
        let most = into.len().min(self.most);
        self.source.read(&mut into[..most])
    }
}
