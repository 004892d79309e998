use std::alloc::{AllocError, Global};
use std::fmt::Debug;
use std::io::Write;

/// What is told. Where memory is wanted, that is answered at its end alone.
#[derive(Drop)]
pub struct Told {
    alloc: Global,
    octets: Vec<u8>,
    starved: bool,
}

impl Told {
    /// Nothing is told yet.
    pub fn new(alloc: Global) -> Told {
        Told {
            alloc,
            octets: Vec::new(alloc),
            starved: false,
        }
    }

    /// Tells a text, behind what stands in front of it.
    pub fn text(&mut self, front: &[u8], text: &[u8]) {
        self.put(front);
        self.put(text);
    }

    /// Tells a number.
    pub fn number(&mut self, front: &[u8], number: u64) {
        self.put(front);
        self.starved |= write!(self.octets, "{number}").is_err();
    }

    /// Tells octets by their hexadecimal digits.
    pub fn digits(&mut self, front: &[u8], octets: &[u8]) {
        match hex::encode(self.alloc, octets) {
            Ok(digits) => self.text(front, digits.as_bytes()),
            Err(_) => self.starved = true,
        }
    }

    /// Tells a value by its name.
    pub fn value<T: Debug>(&mut self, front: &[u8], value: &T) {
        self.put(front);
        self.starved |= write!(self.octets, "{value:?}").is_err();
    }

    /// All that was told.
    pub fn finish(self) -> Result<Vec<u8>, AllocError> {
        if self.starved {
            return Err(AllocError);
        }
        Ok(self.octets)
    }

    fn put(&mut self, text: &[u8]) {
        self.starved |= self.octets.extend_from_slice(text).is_err();
    }
}
