//! What is told of calls.
ghost use Rattle.std.specs.Prelude.{◌^◌, ◌<◌, IfOk, IfSome, IsTrue};
ghost use Rattle.giop_frames.specs.Encode.{octets_in};
ghost use Rattle.wire_rows.specs.Short.{IsShortRequest};
ghost use Rattle.ots_calls.specs.Writing.{carried_length, handed_length};

use crate::messages::{front, tell_encoded};
use crate::told::Told;
use crate::values::{MOST, is_short, tell_context, tell_fields, tell_reference};
use giop_frames::{Message, Request};
use ior_refs::ObjectKey;
use ots_calls::{Call, CallFault, Called, read_call, write_call};
use ots_context::{Context, ContextFault, find_context};
use std::alloc::Global;

/// Tells the transaction context of the Request that these octets are.
pub fn tell_within(alloc: Global, told: &mut Told, octets: &[u8]) {
    match request_in(alloc, octets) {
        Some((request, _)) => tell_found(alloc, told, find_context(alloc, &request)),
        None => told.text(b"\n", b"no request"),
    }
}

fn tell_found(alloc: Global, told: &mut Told, found: Result<Option<Context>, ContextFault>) {
    match found {
        Ok(Some(context)) => tell_context(alloc, told, &context),
        Ok(None) => told.text(b"\n", b"none"),
        Err(fault) => told.value(b"\n", &fault),
    }
}

/// Tells the call that a Request is, and how it is written.
pub fn tell(alloc: Global, told: &mut Told, octets: &[u8]) {
    let Some((request, _)) = request_in(alloc, octets) else {
        return told.text(b"\n", b"no request");
    };
    match read_call(alloc, &request) {
        Ok(called) => {
            tell_called(alloc, told, &called);
            tell_written(alloc, told, request.id, &called);
        }
        Err(fault) => told.value(b"\n", &fault),
    }
}

/// Reads and writes the call so many times.
pub fn repeat(alloc: Global, octets: &[u8], reads: usize, writes: usize) {
    for _ in 0..reads {
        let _called = call_in(alloc, octets);
    }
    if let Some((called, _)) = call_in(alloc, octets) {
        for _ in 0..writes {
            tell_written(alloc, &mut Told::new(alloc), 1, &called);
        }
    }
}

/// The call that these octets begin with, and what stands behind it.
pub fn call_in(alloc: Global, octets: &[u8]) -> Option<(Called, &[u8])> {
    let (request, behind) = request_in(alloc, octets)?;
    match read_call(alloc, &request) {
        Ok(called) => Some((called, behind)),
        Err(_) => None,
    }
}

/// The Request that these octets begin with, and what stands behind it.
fn request_in(alloc: Global, octets: &[u8]) -> Option<(Request, &[u8])>
    ensures { IfSome result (λ found. IsShortRequest found.0) }
{
    let (message, behind) = front(alloc, octets)?;
    match message {
        Message::Request(request) => Some((request, behind)),
        _ => None,
    }
}

fn tell_called(alloc: Global, told: &mut Told, called: &Called) {
    tell_key(told, &called.key);
    tell_parameters(alloc, told, &called.call);
    if let Some(retry) = &called.retry {
        told.number(b"\nretry ", retry.client);
        told.number(b" ", retry.number);
    }
    if let Some(context) = &called.context {
        told.text(b"\n", b"within");
        tell_fields(alloc, told, context);
    }
}

fn tell_key(told: &mut Told, key: &ObjectKey) {
    told.text(b"\nto ", &[key.kind]);
    told.number(b" ", key.service);
    told.number(b" ", u64::from(key.life));
    told.number(b" ", u64::from(key.slot));
    told.number(b" ", key.generation);
    told.number(b" ", u64::from(key.index));
}

/// Tells the operation of a call, and what it hands over.
fn tell_parameters(alloc: Global, told: &mut Told, call: &Call) {
    tell_operation(told, b"\ncall ", call);
    match call {
        Call::Bare(_) => {}
        Call::Handing(_, reference) => tell_reference(alloc, told, b"\nwith", reference),
        Call::Create(time_out) => told.number(b" ", u64::from(*time_out)),
        Call::Recreate(context) => tell_fields(alloc, told, context),
        Call::CommitTransaction(report_heuristics) => told.value(b" ", report_heuristics),
        Call::AfterCompletion(status) => told.value(b" ", status),
        Call::Put(cell, value) => {
            told.number(b" ", *cell);
            told.number(b" ", *value);
        }
        Call::Get(cell) => told.number(b" ", *cell),
        Call::IsA(id) => told.text(b" ", id.bytes()),
    }
}

/// Tells the name of a call's operation.
pub fn tell_operation(told: &mut Told, what: &[u8], call: &Call) {
    told.text(what, call.operation().row().word);
}

/// Tells how a call is written, with this request_id.
fn tell_written(alloc: Global, told: &mut Told, id: u32, called: &Called) {
    match written(alloc, id, called) {
        Some(Ok(request)) => tell_encoded(alloc, told, &Message::Request(request)),
        Some(Err(fault)) => told.value(b"\nnot written: ", &fault),
        None => told.text(b"\n", b"too long"),
    }
}

/// The request of a call, unless that is too long to be written.
fn written(alloc: Global, id: u32, called: &Called) -> Option<Result<Request, CallFault>>
    ensures { IfSome result (λ made. IfOk made (λ request. octets_in (Message.Request request) < 2 ^ 31)) }
{
    if is_call_short(&called.call) && is_context_short(&called.context) {
        Some(write_call(alloc, id, called))
    } else {
        None
    }
}

fn is_call_short(call: &Call) -> bool
    ensures { IsTrue result → handed_length call.now < 2 ^ 31 }
{
    match call {
        Call::Recreate(context) => is_short(&context.tail),
        Call::IsA(id) => id.bytes().len() < MOST,
        _ => true,
    }
}

fn is_context_short(context: &Option<Context>) -> bool
    ensures { IsTrue result → carried_length context.now < 2 ^ 31 }
{
    match context {
        Some(context) => is_short(&context.tail),
        None => true,
    }
}
