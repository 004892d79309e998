ghost use Rattle.std.specs.Prelude.{◌≡◌, ◌≢◌, ◌⊎◌, ◌^◌, ◌<◌, All, IfErr, IfOk, Err, Ok, length};
ghost use Rattle.cdr_values.specs.Again.{standing};
ghost use Rattle.ots_calls.specs.Fault.{Finds};
ghost use Rattle.ots_calls.specs.Reading.{IsHeld, call_at};
ghost use Rattle.ots_calls.specs.Request.{IsFor, Refuses, WantsMemory, WantsMemoryFor, called_with};
ghost use Rattle.ots_calls.specs.RequestInside.{HoldsArguments, RefusesTarget, WantsMemoryAs, called_as, called_within, said_by};
ghost use Rattle.ots_calls.specs.Retry.{first_retry, retry_in, retry_in_first};

use crate::call::{Call, Called};
use crate::fault::CallFault;
use crate::operation::Operation;
use crate::reading::read_arguments;
use cdr_values::Reader;
use giop_frames::{Request, ServiceContext, Target};
use ior_refs::{ObjectKey, key_of};
use ots_context::{Context, find_context};
use ots_model::RetryKey;
use std::alloc::Global;

/// The context_id of a retry key (our profile): the letters OTR and a zero.
pub(crate) const RETRY_CONTEXT: u32 = 0x4F54_5200;

/// A call and its retry key, where it has one.
#[derive(Drop)]
pub(crate) struct Said {
    call: Call,
    retry: Option<RetryKey>,
}

/// The call that a request is.
pub fn read_call(alloc: Global, r: &Request) -> Result<Called, CallFault>
    requires body { length r.now.body < 2 ^ 31 }
    requires contexts { All (λ context. length context.bytes < 2 ^ 31) r.now.contexts }
    ensures key { IfOk result (λ c. IsFor c.key r.now.target) }
    ensures exact { IfOk result (λ c. called_with c.key r.now ≡ Ok c) }
    ensures refused { IfErr result (λ fault. (fault ≡ CallFault.Memory) ⊎ Refuses fault r.now) }
    ensures memory { result ≡ Err CallFault.Memory → WantsMemory r.now }
{
    match target_key(&r.target) {
        Ok(key) => read_for(alloc, key, r),
        Err(fault) => Err(fault),
    }
}

/// The key of ours that a target is.
fn target_key(target: &Target) -> Result<ObjectKey, CallFault>
    ensures key { IfOk result (λ key. IsFor key target.now) }
    ensures refused { IfErr result (λ fault. RefusesTarget fault target.now) }
{
    let Target::Key(octets) = target else {
        return Err(CallFault::BadTarget);
    };
    match key_of(octets.bytes()) {
        Some(key) => Ok(key),
        None => Err(CallFault::BadKey),
    }
}

/// The call that a request for this key is.
#[tactic(auto, unfolding(crate::specs::Request::called_with))]
fn read_for(alloc: Global, key: ObjectKey, r: &Request) -> Result<Called, CallFault>
    requires body { length r.now.body < 2 ^ 31 }
    requires contexts { All (λ context. length context.bytes < 2 ^ 31) r.now.contexts }
    ensures key { IfOk result (λ c. c.key ≡ key) }
    ensures exact { Finds (λ c. c) result (called_with key r.now) }
    ensures memory { result ≡ Err CallFault.Memory → WantsMemoryFor key r.now }
{
    match Operation::named(key.kind, r.operation.bytes()) {
        Some(operation) => read_named(alloc, key, operation, r),
        None => Err(CallFault::BadOperation),
    }
}

/// The call of this operation that a request is.
fn read_named(
    alloc: Global,
    key: ObjectKey,
    operation: Operation,
    r: &Request,
) -> Result<Called, CallFault>
    requires body { length r.now.body < 2 ^ 31 }
    requires contexts { All (λ context. length context.bytes < 2 ^ 31) r.now.contexts }
    ensures key { IfOk result (λ c. c.key ≡ key) }
    ensures exact { Finds (λ c. c) result (called_as key operation r.now) }
    ensures memory { result ≡ Err CallFault.Memory → WantsMemoryAs operation r.now }
{
    let context = find_context(alloc, r)?;
    read_within(alloc, key, operation, context, r)
}

/// The call of this operation that a request is, which belongs to a transaction with this context, or to none.
fn read_within(
    alloc: Global,
    key: ObjectKey,
    operation: Operation,
    context: Option<Context>,
    r: &Request,
) -> Result<Called, CallFault>
    requires body { length r.now.body < 2 ^ 31 }
    requires contexts { All (λ context. length context.bytes < 2 ^ 31) r.now.contexts }
    ensures key { IfOk result (λ c. c.key ≡ key) }
    ensures exact { Finds (λ c. c) result (called_within key operation context r.now) }
    ensures memory { result ≡ Err CallFault.Memory → HoldsArguments operation r.now }
{
    match read_said(alloc, operation, r) {
        Ok(said) => Ok(Called {
            key,
            call: said.call,
            retry: said.retry,
            context,
        }),
        Err(fault) => Err(fault),
    }
}

/// What a request for this operation says beside its transaction.
fn read_said(alloc: Global, operation: Operation, r: &Request) -> Result<Said, CallFault>
    requires body { length r.now.body < 2 ^ 31 }
    requires contexts { All (λ context. length context.bytes < 2 ^ 31) r.now.contexts }
    ensures exact { Finds (λ said. said) result (said_by operation r.now) }
    ensures memory { result ≡ Err CallFault.Memory → HoldsArguments operation r.now }
{
    let retry = find_retry(r.contexts.items())?;
    let call = read_body(alloc, operation, r)?;
    Ok(Said { call, retry })
}

/// The call of this operation in the body of a request.
fn read_body(alloc: Global, operation: Operation, r: &Request) -> Result<Call, CallFault>
    requires { length r.now.body < 2 ^ 31 }
    ensures exact { Finds (λ call. call) result (call_at operation (standing r.now.order 0 r.now.body)) }
    ensures memory { result ≡ Err CallFault.Memory → IsHeld operation }
{
    let mut reader = Reader::new(r.body.bytes(), r.order, 0);
    read_arguments(alloc, operation, &mut reader)
}

/// The retry key of a request with these service contexts, or None where it has none.
fn find_retry(contexts: &[ServiceContext]) -> Result<Option<RetryKey>, CallFault>
    requires { All (λ context. length context.bytes < 2 ^ 31) contexts.now }
    ensures exact { Finds (λ key. key) result (retry_in_first (first_retry contexts.now)) }
    ensures memory { result ≢ Err CallFault.Memory }
{
    for context in contexts {
        if context.id == RETRY_CONTEXT {
            return Ok(Some(read_retry(context.bytes.bytes())?));
        }
    }
    Ok(None)
}

/// The retry key in an encapsulation.
#[tactic(auto, using(crate::proofs::Frugal::ulonglong_frugal, crate::proofs::Frugal::opened_frugal), unfolding(crate::specs::Retry::retry_in))]
fn read_retry(octets: &[u8]) -> Result<RetryKey, CallFault>
    requires { length octets.now < 2 ^ 31 }
    ensures exact { Finds (λ key. key) result (retry_in octets.now) }
    ensures memory { result ≢ Err CallFault.Memory }
{
    let mut reader = Reader::encapsulation(octets)?;
    let client = reader.ulonglong()?;
    let number = reader.ulonglong()?;
    if !reader.rest().is_empty() {
        return Err(CallFault::Marshal(reader.place()));
    }
    Ok(RetryKey { client, number })
}
