ghost use Rattle.std.specs.Prelude.{◌≡◌, ℕ, List, take};
ghost use Rattle.giop_frames.specs.Layout.{blank};
ghost use Rattle.giop_frames.specs.Walk.{told_by};

use crate::fault::CONTEXT_LIMIT;

/// Octets of a content: how many stand in front of them, and how many there are.
#[derive(Clone, Copy)]
pub struct Span {
    pub start: usize,
    pub length: usize,
}

/// A target, as it was found.
#[derive(Clone, Copy)]
pub enum FoundTarget {
    Key(Span),
    Profile,
    Reference,
}

/// A service context, as it was found.
#[derive(Clone, Copy)]
pub struct FoundContext {
    pub id: u32,
    pub bytes: Span,
}

/// What was found of a message's fields. A field that wasn't found is as in a message without it.
#[derive(Clone, Copy)]
pub struct Found {
    pub id: u32,
    pub flags: u8,
    pub status: u32,
    pub target: FoundTarget,
    pub operation: Span,
    /// The first `count` of these.
    pub contexts: [FoundContext; CONTEXT_LIMIT as usize],
    pub count: usize,
}

impl Found {
    /// Nothing was found.
    pub fn nothing() -> Found
        ensures { (content : List ℕ) → told_by content result ≡ blank }
    {
        let none = Span {
            start: 0,
            length: 0,
        };
        Found {
            id: 0,
            flags: 0,
            status: 0,
            target: FoundTarget::Reference,
            operation: none,
            contexts: [FoundContext { id: 0, bytes: none }; CONTEXT_LIMIT as usize],
            count: 0,
        }
    }

    /// Forgets what was found. Of the service contexts none is left, though their room isn't written anew.
    pub fn forget(&mut self)
        ensures { (content : List ℕ) → told_by content self.new ≡ blank }
    {
        self.id = 0;
        self.flags = 0;
        self.status = 0;
        self.target = FoundTarget::Reference;
        self.operation = Span {
            start: 0,
            length: 0,
        };
        self.count = 0;
    }

    /// The service contexts that were found.
    pub fn contexts(&self) -> &[FoundContext]
        ensures { result.now ≡ take self.now.count self.now.contexts }
    {
        if self.count < self.contexts.len() {
            &self.contexts[..self.count]
        } else {
            &self.contexts
        }
    }
}
