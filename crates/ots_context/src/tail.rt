ghost use Rattle.std.specs.Prelude.{◌≡◌, ◌^◌, ◌<◌, ◌≤◌, IfOk, length};
ghost use Rattle.cdr_values.specs.Limits.{output_limit};
ghost use Rattle.ots_context.specs.Tail.{can_stand, reads_null, tail_at};
ghost use Rattle.ots_context.specs.Writing.{kept_length};

use crate::context::AnyTail;
use cdr_values::{Order, Reader};
use ots_model::Octets;
use std::alloc::{AllocError, Global};

/// The tail of a context: what the reader has left.
#[tactic(auto, unfolding(crate::specs::Tail::tail_at))]
pub fn read_tail(alloc: Global, reader: &mut Reader) -> Result<AnyTail, AllocError>
    ensures { IfOk result (λ tail. tail ≡ tail_at reader.old) }
{
    let order = reader.order();
    let modulo = (reader.place() % 8) as u8;
    let rest = reader.rest();
    if reads_null(reader) {
        return Ok(AnyTail::Null);
    }
    let octets = Octets::new(alloc, rest)?;
    Ok(AnyTail::Kept {
        order,
        modulo,
        octets,
    })
}

/// Whether what is left is the any without a value: the unsigned long 0 and nothing else.
#[tactic(auto, unfolding(crate::specs::Tail::reads_null))]
fn reads_null(reader: &mut Reader) -> bool
    ensures { result ≡ reads_null reader.old }
{
    match reader.ulong() {
        Ok(kind) => kind == 0 && reader.rest().is_empty(),
        Err(_) => false,
    }
}

/// Whether a tail can be written at this offset, in big endian order.
pub fn can_stand(place: u32, tail: &AnyTail) -> bool
    requires place { place < 2 ^ 31 }
    requires few { kept_length tail.now < 2 ^ 31 }
    ensures { result ≡ can_stand place tail.now }
{
    match tail {
        AnyTail::Null => true,
        AnyTail::Kept {
            order,
            modulo,
            octets,
        } => {
            let mut reader = Reader::new(octets.bytes(), Order::Big, place);
            *order == Order::Big && u32::from(*modulo) == place % 8 && !reads_null(&mut reader)
        }
    }
}
