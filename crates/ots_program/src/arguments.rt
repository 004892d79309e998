ghost use Rattle.std.specs.Prelude.{◌≡◌, drop, map, string_bytes, IfErr, IfOk};
ghost use Rattle.std.specs.Vec.Iter.{into_iter_items};
ghost use Rattle.ots_program.specs.Arguments.{AreBehindName, AreUnread};

use crate::devices::Word;
use crate::status::Status;
use std::alloc::{AllocError, Global};
use std::env::Args;
use std::io;
use std::io::ErrorKind;

/// The words of a command line, whose first one, the program's name, is left out. The error is how the program ends
/// where they can't be read.
pub fn words_of(alloc: Global, arguments: io::Result<Args>) -> Result<Vec<Word>, Status>
    ensures words { IfOk result (λ words. AreBehindName arguments words.items) }
    ensures unread { IfErr result (λ status. AreUnread arguments status) }
{
    match arguments {
        Ok(arguments) => Ok(behind_name(alloc, arguments)?),
        Err(error) if error.kind() == ErrorKind::OutOfMemory => Err(Status::Memory),
        Err(_) => Err(Status::Usage),
    }
}

/// The words behind the first one.
fn behind_name(alloc: Global, arguments: Args) -> Result<Vec<Word>, AllocError>
    ensures { IfOk result (λ words. words.items ≡ map string_bytes (drop 1 (into_iter_items arguments))) }
{
    arguments
        .skip(1)
        .map(|word| Word::new(word.into_bytes()))
        .collect(alloc)
}
