ghost use Rattle.std.specs.Prelude.{◌≡◌, ◌^◌, ◌<◌, ◌≤◌, [], ◌∷◌, IfOk, Ok, IsTrue, false, length};
ghost use Rattle.cdr_values.specs.Limits.{output_limit};
ghost use Rattle.cdr_values.specs.Again.{standing};
ghost use Rattle.cdr_values.specs.Tagged.{reference_values};
ghost use Rattle.cdr_values.specs.Values.{with_values};
ghost use Rattle.cdr_values.specs.Writing.{WritesValue};
ghost use Rattle.cdr_values.specs.declared.order.Order.TheVariants.{Big};
ghost use Rattle.ior_refs.specs.Reference.{is_short};
ghost use Rattle.ots_context.specs.Context.{StandsAsContext};
ghost use Rattle.ots_context.specs.Reading.{context_at};
ghost use Rattle.ots_context.specs.Writing.{kept_length, with_context};
ghost use Rattle.ots_calls.specs.Call.{AreLeft, IsBody, status_number};
ghost use Rattle.ots_calls.specs.Fault.{Finds, fault_of_context, told_as};
ghost use Rattle.ots_calls.specs.Writing.{blank, body_of, handed_length, lacks_object, octets_with};
ghost use Rattle.ots_calls.specs.WritingInside.{ArePieces, IsPiece, value_of, values_of};

use crate::call::Call;
use crate::fault::CallFault;
use cdr_values::{CdrFault, Order, Writer, values_are_read_again};
use ior_refs::ObjectRef;
use ots_context::{
    Context, contexts_are_read_where_written, contexts_stand_exactly, write_context,
    write_reference,
};
use ots_model::{Octets, Status};
use std::alloc::Global;

/// A value of a body.
#[derive(Clone, Copy)]
pub(crate) enum Piece<'a> {
    /// A boolean.
    Flag(bool),
    /// An unsigned long.
    Number(u32),
    /// An unsigned long long.
    Long(u64),
    /// A string.
    Text(&'a [u8]),
}

/// The body of a call.
pub(crate) fn body_of(alloc: Global, call: &Call) -> Result<Octets, CallFault>
    requires few { handed_length call.now < 2 ^ 31 }
    requires object { lacks_object call.now ≡ false }
    ensures exact { Finds (λ octets. octets) result (body_of call.now) }
    ensures body { IfOk result (λ octets. IsBody call.now (standing Big 0 octets)) }
    ensures short { IfOk result (λ octets. length octets ≤ output_limit) }
{
    match call {
        Call::Bare(_) => values_body(alloc, &[]),
        Call::Handing(_, reference) => reference_body(alloc, reference),
        Call::Create(time_out) => value_body(alloc, Piece::Number(*time_out)),
        Call::Recreate(context) => context_body(alloc, context),
        Call::CommitTransaction(report_heuristics) => {
            value_body(alloc, Piece::Flag(*report_heuristics))
        }
        Call::AfterCompletion(status) => {
            value_body(alloc, Piece::Number(status_number(*status)))
        }
        Call::Put(cell, value) => values_body(alloc, &[Piece::Long(*cell), Piece::Long(*value)]),
        Call::Get(cell) => value_body(alloc, Piece::Long(*cell)),
        Call::IsA(id) => value_body(alloc, Piece::Text(id.bytes())),
    }
}

/// The number of a status.
pub(crate) fn status_number(status: Status) -> u32
    ensures { result ≡ status_number status }
{
    match status {
        Status::Active => 0,
        Status::MarkedRollback => 1,
        Status::Prepared => 2,
        Status::Committed => 3,
        Status::RolledBack => 4,
        Status::Unknown => 5,
        Status::NoTransaction => 6,
        Status::Preparing => 7,
        Status::Committing => 8,
        Status::RollingBack => 9,
    }
}

/// The body of this value.
pub(crate) fn value_body(alloc: Global, piece: Piece) -> Result<Octets, CallFault>
    requires { IsPiece piece }
    ensures exact { Finds (λ octets. octets) result (octets_with blank (values_of (piece.entry ∷ []))) }
    ensures left { IfOk result (λ octets. AreLeft (values_of (piece.entry ∷ [])) (standing Big 0 octets)) }
    ensures short { IfOk result (λ octets. length octets ≤ output_limit) }
{
    values_body(alloc, &[piece])
}

/// The body of these values.
pub(crate) fn values_body(alloc: Global, pieces: &[Piece]) -> Result<Octets, CallFault>
    requires { ArePieces pieces.now }
    ensures exact { Finds (λ octets. octets) result (octets_with blank (values_of pieces.now)) }
    ensures left { IfOk result (λ octets. AreLeft (values_of pieces.now) (standing Big 0 octets)) }
    ensures short { IfOk result (λ octets. length octets ≤ output_limit) }
{
    values_are_read_again();
    let mut writer = Writer::new(alloc, Order::Big, 0);
    for piece in pieces {
        write_piece(&mut writer, *piece)?;
    }
    Ok(writer.finish())
}

fn write_piece(writer: &mut Writer, piece: Piece) -> Result<(), CdrFault>
    requires { IsPiece piece }
    ensures { WritesValue (value_of piece.entry) result writer.old writer.new }
{
    match piece {
        Piece::Flag(flag) => writer.boolean(flag),
        Piece::Number(number) => writer.ulong(number),
        Piece::Long(number) => writer.ulonglong(number),
        Piece::Text(text) => writer.string(text),
    }
}

pub(crate) fn reference_body(alloc: Global, reference: &ObjectRef) -> Result<Octets, CallFault>
    ensures exact { Finds (λ octets. octets) result (Ok (with_values blank (reference_values reference.now)).octets) }
    ensures left { IfOk result (λ octets. AreLeft (reference_values reference.now) (standing Big 0 octets)) }
    ensures reference { IfOk result (λ octets. IsTrue (is_short reference.now)) }
    ensures short { IfOk result (λ octets. length octets ≤ output_limit) }
{
    values_are_read_again();
    let mut writer = Writer::new(alloc, Order::Big, 0);
    write_reference(&mut writer, reference)?;
    Ok(writer.finish())
}

pub(crate) fn context_body(alloc: Global, context: &Context) -> Result<Octets, CallFault>
    requires { kept_length context.now.tail < 2 ^ 31 }
    ensures exact { Finds (λ octets. octets) result (told_as fault_of_context (with_context blank context.now)) }
    ensures stands { IfOk result (λ octets. StandsAsContext context.now (standing Big 0 octets)) }
    ensures short { IfOk result (λ octets. length octets ≤ output_limit) }
{
    contexts_stand_exactly();
    context_octets(alloc, context)
}

fn context_octets(alloc: Global, context: &Context) -> Result<Octets, CallFault>
    requires { kept_length context.now.tail < 2 ^ 31 }
    ensures exact { Finds (λ octets. octets) result (told_as fault_of_context (with_context blank context.now)) }
    ensures read { IfOk result (λ octets. context_at (standing Big 0 octets) ≡ Ok context.now) }
    ensures short { IfOk result (λ octets. length octets ≤ output_limit) }
{
    contexts_are_read_where_written();
    let mut writer = Writer::new(alloc, Order::Big, 0);
    write_context(&mut writer, context)?;
    Ok(writer.finish())
}
