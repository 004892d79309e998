ghost use Rattle.std.specs.Prelude.{◌≡◌, ◌+◌, ◌*◌, ◌^◌, ◌<◌, ◌≤◌, ◌++◌, [], ◌∷◌, IfOk, OnOk, None, Err, Ok, false, length};
ghost use Rattle.cdr_values.specs.Limits.{output_limit};
ghost use Rattle.cdr_values.specs.declared.order.Order.TheVariants.{Big};
ghost use Rattle.giop_frames.specs.Encode.{octets_in};
ghost use Rattle.giop_frames.specs.declared.message.Message.TheVariants as messages;
ghost use Rattle.ior_refs.specs.Key.{AreNumbers, is_kind};
ghost use Rattle.ots_context.specs.Context.{IsContext};
ghost use Rattle.ots_context.specs.Finding.{first_context};
ghost use Rattle.ots_context.specs.Writing.{kept_length};
ghost use Rattle.ots_calls.specs.Fault.{Finds};
ghost use Rattle.ots_calls.specs.Request.{AreBoth, IsCall, called_with};
ghost use Rattle.ots_calls.specs.Retry.{IsRetry, first_retry};
ghost use Rattle.ots_calls.specs.Writing.{LacksObject, LacksOperation, OnlySizeRefuses, carried_length, contexts_of, handed_length, request_of, request_with, retry_octets, size_of_contexts, with_retry, with_transaction};
ghost use Rattle.ots_calls.specs.WritingInside.{IsAllowed, refusal, written_request};

use crate::body::body_of;
use crate::call::Called;
use crate::fault::CallFault;
use crate::laws::requests_are_read_exactly;
use crate::request::RETRY_CONTEXT;
use cdr_values::{Order, Writer, encapsulations_are_read_again};
use giop_frames::{Contexts, Request, ServiceContext, Target};
use ior_refs::{ObjectKey, key_octets};
use ots_context::{Context, encode_context};
use ots_model::{Octets, RetryKey};
use std::alloc::Global;

/// The letters of the kinds of keys.
const KINDS: &[u8; 10] = b"FCTKVRUYAD";

/// The context_id of the Transaction Service (TransactionService of IOP).
const TRANSACTION_SERVICE: u32 = 0;

/// The request of a call, with this request_id. It is big endian, and a reply is wanted.
#[tactic(auto, using(crate::proofs::Refusals::refused, crate::proofs::Refusals::allowed), unfolding(crate::specs::Writing::request_of))]
pub fn write_call(alloc: Global, id: u32, c: &Called) -> Result<Request, CallFault>
    requires call { handed_length c.now.call < 2 ^ 31 }
    requires context { carried_length c.now.context < 2 ^ 31 }
    ensures exact { Finds (λ request. request) result (request_of id c.now) }
    ensures call { IfOk result (λ request. IsCall c.now request) }
    ensures again { IfOk result (λ request. called_with c.now.key request ≡ Ok c.now) }
    ensures big { IfOk result (λ request. request.order ≡ Big) }
    ensures short { IfOk result (λ request. octets_in (messages.Request request) < 2 ^ 31) }
    ensures framed { IfOk result (λ request. OnlySizeRefuses (messages.Request request)) }
    ensures kind { is_kind c.now.key.kind ≡ false → result ≡ Err CallFault.BadKey }
    ensures served { LacksOperation c.now → result ≡ Err CallFault.BadOperation }
    ensures object { LacksObject c.now → result ≡ Err CallFault.BadParam }
{
    requests_are_read_exactly();
    match refusal_of(c) {
        Some(fault) => Err(fault),
        None => request_of(alloc, id, c),
    }
}

/// Why no request is written, whatever its body and its contexts.
fn refusal_of(c: &Called) -> Option<CallFault>
    ensures { result ≡ refusal c.now }
{
    if !KINDS.contains(&c.key.kind) {
        Some(CallFault::BadKey)
    } else if !c.call.operation().serves(c.key.kind) {
        Some(CallFault::BadOperation)
    } else if c.call.lacks_object() {
        Some(CallFault::BadParam)
    } else {
        None
    }
}

/// The request of a call that is allowed.
#[tactic(auto, using(crate::proofs::Sizes::key_length, crate::proofs::Words::word_short))]
fn request_of(alloc: Global, id: u32, c: &Called) -> Result<Request, CallFault>
    requires call { handed_length c.now.call < 2 ^ 31 }
    requires context { carried_length c.now.context < 2 ^ 31 }
    requires allowed { IsAllowed c.now }
    ensures exact { Finds (λ request. request) result (written_request id c.now) }
    ensures call { IfOk result (λ request. IsCall c.now request) }
    ensures big { IfOk result (λ request. request.order ≡ Big) }
    ensures short { IfOk result (λ request. octets_in (messages.Request request) < 2 ^ 31) }
    ensures framed { IfOk result (λ request. OnlySizeRefuses (messages.Request request)) }
{
    let contexts = contexts_of(alloc, c)?;
    let body = body_of(alloc, &c.call)?;
    addressed(alloc, id, c, contexts, body)
}

/// The request of a call with these contexts and this body.
fn addressed(
    alloc: Global,
    id: u32,
    c: &Called,
    contexts: Contexts,
    body: Octets,
) -> Result<Request, CallFault>
    ensures request { Finds (λ request. request) result (Ok (request_with id c.now contexts body)) }
    ensures numbers { AreNumbers c.now.key }
{
    numbers_fit(&c.key);
    Ok(Request {
        id,
        flags: 3,
        target: Target::Key(Octets::new(alloc, &key_octets(&c.key))?),
        operation: Octets::new(alloc, c.call.operation().row().word)?,
        contexts,
        order: Order::Big,
        body,
    })
}

/// The numbers of a key fit their octets, by their types.
fn numbers_fit(key: &ObjectKey)
    ensures { AreNumbers key.now }
{
    let _kind = key.kind;
    let _service = key.service;
    let _life = key.life;
    let _slot = key.slot;
    let _generation = key.generation;
    let _index = key.index;
}

/// The service contexts of a call.
#[tactic(auto, unfolding(crate::specs::Writing::contexts_of))]
fn contexts_of(alloc: Global, c: &Called) -> Result<Contexts, CallFault>
    requires { carried_length c.now.context < 2 ^ 31 }
    ensures exact { Finds (λ contexts. contexts) result (contexts_of c.now) }
    ensures transaction { IfOk result (λ contexts. AreBoth IsContext c.now.context (first_context contexts)) }
    ensures retry { IfOk result (λ contexts. AreBoth IsRetry c.now.retry (first_retry contexts)) }
    ensures few { IfOk result (λ contexts. length contexts ≤ 2) }
    ensures short { IfOk result (λ contexts. size_of_contexts contexts ≤ 2 + 2 * output_limit) }
{
    let mut contexts = Vec::new(alloc);
    push_transaction(alloc, &c.context, &mut contexts)?;
    push_retry(alloc, c.retry, &mut contexts)?;
    Ok(Contexts::from_vec(contexts))
}

/// Adds the service context of a transaction, where there is one.
#[tactic(auto, using(crate::proofs::Sizes::size_more))]
fn push_transaction(
    alloc: Global,
    context: &Option<Context>,
    contexts: &mut Vec<ServiceContext>,
) -> Result<(), CallFault>
    requires length { carried_length context.now < 2 ^ 31 }
    requires none { contexts.old.items ≡ [] }
    ensures exact { Finds (λ nothing. contexts.new.items) result (with_transaction context.now contexts.old.items) }
    ensures transaction { OnOk result (AreBoth IsContext context.now (first_context contexts.new.items)) }
    ensures retry { OnOk result (first_retry contexts.new.items ≡ None) }
    ensures few { OnOk result (length contexts.new.items ≤ 1) }
    ensures short { OnOk result (size_of_contexts contexts.new.items ≤ 1 + output_limit) }
{
    if let Some(context) = context {
        let bytes = encode_context(alloc, context)?;
        contexts.push(ServiceContext {
            id: TRANSACTION_SERVICE,
            bytes,
        })?;
    }
    Ok(())
}

/// Adds the service context of a retry key, where there is one.
#[tactic(auto, using(crate::proofs::Sizes::size_more))]
fn push_retry(
    alloc: Global,
    key: Option<RetryKey>,
    contexts: &mut Vec<ServiceContext>,
) -> Result<(), CallFault>
    requires none { first_retry contexts.old.items ≡ None }
    ensures exact { Finds (λ nothing. contexts.new.items) result (Ok (with_retry key contexts.old.items)) }
    ensures transaction { OnOk result (first_context contexts.new.items ≡ first_context contexts.old.items) }
    ensures retry { OnOk result (AreBoth IsRetry key (first_retry contexts.new.items)) }
    ensures few { OnOk result (length contexts.new.items ≤ length contexts.old.items + 1) }
    ensures short { OnOk result
        (size_of_contexts contexts.new.items ≤ size_of_contexts contexts.old.items + (1 + output_limit)) }
{
    if let Some(key) = key {
        let bytes = retry_octets(alloc, key.client, key.number)?;
        contexts.push(ServiceContext {
            id: RETRY_CONTEXT,
            bytes,
        })?;
    }
    Ok(())
}

/// The octets of the retry key of these numbers, an encapsulation.
#[tactic(auto, unfolding(crate::specs::Writing::retry_octets))]
fn retry_octets(alloc: Global, client: u64, number: u64) -> Result<Octets, CallFault>
    ensures exact { Finds (λ octets. octets) result (Ok (retry_octets (record { client = client; number = number }))) }
    ensures retry { IfOk result (λ octets. IsRetry (record { client = client; number = number }) octets) }
    ensures short { IfOk result (λ octets. length octets ≤ output_limit) }
{
    encapsulations_are_read_again();
    let mut writer = Writer::encapsulation(alloc, Order::Big)?;
    writer.ulonglong(client)?;
    writer.ulonglong(number)?;
    Ok(writer.finish())
}
