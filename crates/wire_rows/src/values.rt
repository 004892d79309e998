//! What is told of references and of contexts.
ghost use Rattle.std.specs.Prelude.{◌^◌, ◌<◌, ◌≤◌, IsTrue, length};
ghost use Rattle.ots_context.specs.Writing.{kept_length};

use crate::told::Told;
use ior_refs::{Iiop, IorFault, ObjectRef, iiop, parse_ior, print_ior};
use ots_context::{AnyTail, Context, ContextFault, Identity, decode_context, encode_context};
use ots_model::Octets;
use std::alloc::{AllocError, Global};

/// How many octets of an input are looked at.
pub const MOST: usize = 1_000_000;

/// The octets, up to that number of them.
pub fn short(octets: &[u8]) -> &[u8]
    ensures { length result.now ≤ 1000000 }
{
    &octets[..octets.len().min(MOST)]
}

/// Tells the reference of a stringified one, and how it is printed.
pub fn tell_stringified(alloc: Global, told: &mut Told, text: &[u8]) {
    match parsed(alloc, text.trim_ascii_end()) {
        Ok(reference) => {
            tell_reference(alloc, told, b"\nis", &reference);
            tell_printed(told, printed(alloc, &reference));
        }
        Err(fault) => told.value(b"\n", &fault),
    }
}

fn parsed(alloc: Global, text: &[u8]) -> Result<ObjectRef, IorFault> {
    parse_ior(alloc, short(text))
}

fn printed(alloc: Global, reference: &ObjectRef) -> Result<Octets, AllocError> {
    print_ior(alloc, reference)
}

fn tell_printed(told: &mut Told, printed: Result<Octets, AllocError>) {
    match printed {
        Ok(text) => told.text(b"\n", text.bytes()),
        Err(error) => told.value(b"\n", &error),
    }
}

/// Tells what a reference is, and what its first IIOP profile says.
pub fn tell_reference(alloc: Global, told: &mut Told, what: &[u8], reference: &ObjectRef) {
    if reference.is_nil() {
        told.text(what, b" nil");
        return;
    }
    told.text(what, b" ");
    told.text(reference.type_id(), b" ");
    match place(alloc, reference) {
        Ok(place) => tell_place(told, &place),
        Err(fault) => told.value(b"", &fault),
    }
}

fn place(alloc: Global, reference: &ObjectRef) -> Result<Iiop, IorFault> {
    iiop(alloc, reference)
}

fn tell_place(told: &mut Told, place: &Iiop) {
    told.number(b"iiop ", u64::from(place.major));
    told.number(b".", u64::from(place.minor));
    told.text(b" ", place.host.bytes());
    told.number(b" ", u64::from(place.port));
    told.digits(b" ", place.key.bytes());
}

/// Tells the context that these octets are.
pub fn tell_octets(alloc: Global, told: &mut Told, octets: &[u8]) {
    match decoded(alloc, octets) {
        Ok(context) => tell_context(alloc, told, &context),
        Err(fault) => told.value(b"\n", &fault),
    }
}

fn decoded(alloc: Global, octets: &[u8]) -> Result<Context, ContextFault> {
    decode_context(alloc, short(octets))
}

/// Tells what a context says.
pub fn tell_fields(alloc: Global, told: &mut Told, context: &Context) {
    told.number(b"\ntimeout ", u64::from(context.timeout));
    tell_identity(alloc, told, b"\ncurrent", &context.current);
    for parent in context.parents.items() {
        tell_identity(alloc, told, b"\nparent", parent);
    }
    tell_tail(told, &context.tail);
}

/// Tells a context, and how it is written.
pub fn tell_context(alloc: Global, told: &mut Told, context: &Context) {
    tell_fields(alloc, told, context);
    if !is_short(&context.tail) {
        told.text(b"\n", b"too long");
        return;
    }
    match encode_context(alloc, context) {
        Ok(written) => told.digits(b"\nwritten ", written.bytes()),
        Err(fault) => told.value(b"\nnot written: ", &fault),
    }
}

fn tell_identity(alloc: Global, told: &mut Told, what: &[u8], identity: &Identity) {
    let otid = &identity.otid;
    told.text(what, b" ");
    told.value(b"", &otid.format());
    told.number(b" ", u64::from(otid.bqual()));
    told.digits(b" ", otid.tid());
    tell_reference(alloc, told, b"\ncoord", &identity.coord);
    tell_reference(alloc, told, b"\nterm", &identity.term);
}

fn tell_tail(told: &mut Told, tail: &AnyTail) {
    match tail {
        AnyTail::Null => told.text(b"\n", b"tail null"),
        AnyTail::Kept {
            order,
            modulo,
            octets,
        } => {
            told.value(b"\ntail ", order);
            told.number(b" ", u64::from(*modulo));
            told.digits(b" ", octets.bytes());
        }
    }
}

/// Whether a tail has few octets.
pub fn is_short(tail: &AnyTail) -> bool
    ensures { IsTrue result → kept_length tail.now < 2 ^ 31 }
{
    match tail {
        AnyTail::Null => true,
        AnyTail::Kept { octets, .. } => octets.bytes().len() < MOST,
    }
}
