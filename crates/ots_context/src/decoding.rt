ghost use Rattle.std.specs.Prelude.{◌≡◌, ◌↔◌, ◌^◌, ◌<◌, All, IfOk, IfSome, MatchResult, None, Ok, length};
ghost use Rattle.std.specs.Option.{option_copied};
ghost use Rattle.cdr_values.specs.Sequence.{each_at};
ghost use Rattle.ots_context.specs.Context.{IsContext};
ghost use Rattle.ots_context.specs.declared.context.Context.{Context};
ghost use Rattle.ots_context.specs.Fault.{Finds, Gives};
ghost use Rattle.ots_context.specs.Reading.{context_at, context_behind, context_in, identity_at, parents_at};
ghost use Rattle.ots_context.specs.Finding.{context_in_first, first_context};

use crate::context::{Context, Identities, Identity};
use crate::encoding::PARENT_LIMIT;
use crate::fault::ContextFault;
use crate::identity::read_identity;
use crate::laws::contexts_are_read_exactly;
use crate::tail::read_tail;
use cdr_values::{Reader, elements_are_read_in_a_loop};
use giop_frames::{Request, ServiceContext};
use std::alloc::Global;

/// The context_id of the Transaction Service (TransactionService of IOP).
const TRANSACTION_SERVICE: u32 = 0;

/// The context that these octets are, as a service context of a request has them. Both byte orders are read, and padding
/// may be any octets.
#[tactic(auto, unfolding(crate::specs::Reading::context_in))]
pub fn decode_context(alloc: Global, b: &[u8]) -> Result<Context, ContextFault>
    requires { length b.now < 2 ^ 31 }
    ensures found { IfOk result (λ c. IsContext c b.now) }
    ensures only { (c : Context) → IsContext c b.now
        → MatchResult result (λ found. found ≡ c) (λ fault. fault ≡ ContextFault.Memory) }
    ensures exact { Finds (λ c. c) result (context_in b.now) }
{
    contexts_are_read_exactly();
    let mut reader = Reader::encapsulation(b)?;
    read_context(alloc, &mut reader)
}

/// The context of a request, or None exactly where it has none, which takes no memory.
pub fn find_context(alloc: Global, r: &Request) -> Result<Option<Context>, ContextFault>
    requires { All (λ context. length context.bytes < 2 ^ 31) r.now.contexts }
    ensures exact { Finds (λ c. c) result (context_in_first (first_context r.now.contexts)) }
    ensures none { (result ≡ Ok None) ↔ (first_context r.now.contexts ≡ None) }
{
    match first_context(r.contexts.items()) {
        None => Ok(None),
        Some(octets) => Ok(Some(decode_context(alloc, octets)?)),
    }
}

/// The octets of the first service context of the Transaction Service.
fn first_context(contexts: &[ServiceContext]) -> Option<&[u8]>
    requires { All (λ context. length context.bytes < 2 ^ 31) contexts.now }
    ensures first { option_copied result ≡ first_context contexts.now }
    ensures short { IfSome result (λ octets. length octets.now < 2 ^ 31) }
{
    let context = contexts
        .iter()
        .find(|context| context.id == TRANSACTION_SERVICE)?;
    Some(context.bytes.bytes())
}

/// Reads a context as a parameter has it: it is all that the reader has left. Where the reader stands then is not told.
#[tactic(auto, unfolding(crate::specs::Reading::context_at))]
pub fn read_context(alloc: Global, reader: &mut Reader) -> Result<Context, ContextFault>
    ensures { Finds (λ c. c) result (context_at reader.old) }
{
    let timeout = reader.ulong()?;
    let current = read_identity(alloc, reader)?;
    read_behind(alloc, reader, timeout, current)
}

/// Reads what stands behind the current identity.
#[tactic(auto, unfolding(crate::specs::Reading::context_behind))]
fn read_behind(
    alloc: Global,
    reader: &mut Reader,
    timeout: u32,
    current: Identity,
) -> Result<Context, ContextFault>
    ensures { Finds (λ c. c) result (context_behind timeout current reader.old) }
{
    let parents = read_parents(alloc, reader)?;
    let tail = read_tail(alloc, reader)?;
    Ok(Context {
        timeout,
        current,
        parents,
        tail,
    })
}

#[tactic(auto, unfolding(crate::specs::Reading::parents_at, cdr_values::specs::Sequence::sequence_at))]
fn read_parents(alloc: Global, reader: &mut Reader) -> Result<Identities, ContextFault>
    ensures { Gives (λ parents. parents) result reader.new (parents_at reader.old) }
{
    let place = reader.place();
    let count = reader.ulong()?;
    if count > PARENT_LIMIT as u32 {
        return Err(ContextFault::TooMany(place));
    }
    read_each(alloc, reader, count)
}

fn read_each(alloc: Global, reader: &mut Reader, count: u32) -> Result<Identities, ContextFault>
    ensures { Gives (λ parents. parents) result reader.new (each_at identity_at count reader.old) }
{
    elements_are_read_in_a_loop::<Identity, ContextFault>();
    let mut parents = Vec::new(alloc);
    for _ in 0..count {
        parents.push(read_identity(alloc, reader)?)?;
    }
    Ok(Identities::from_vec(parents))
}
