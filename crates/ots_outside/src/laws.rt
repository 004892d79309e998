// Laws of the definitions: these functions do nothing, and their contracts are the laws.
ghost use Rattle.ots_outside.specs.Laws.{WritesReadImages};

/// A disk that reads one of its images reads one of them after a write that leaves no gap.
pub fn writes_read_images()
    ensures { WritesReadImages }
{}
