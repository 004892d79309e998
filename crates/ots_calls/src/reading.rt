ghost use Rattle.std.specs.Prelude.{◌≡◌, ◌≢◌, Err};
ghost use Rattle.ots_calls.specs.Fault.{Finds};
ghost use Rattle.ots_calls.specs.Reading.{IsHeld, call_at, ended, status_of, with_object};
ghost use Rattle.ots_calls.specs.declared.call.Call.TheVariants as calls;
ghost use Rattle.ots_calls.specs.declared.operation.Operation.TheVariants as operations;

use crate::call::Call;
use crate::fault::CallFault;
use crate::operation::{Handing, Operation};
use cdr_values::Reader;
use ior_refs::{ObjectRef, read_ref};
use ots_context::read_context;
use ots_model::{Octets, Status};
use std::alloc::Global;

/// How many octets a body may have behind the values of its call (our profile).
const LEFT_LIMIT: usize = 7;

/// Reads the parameters of an operation, which a reader has left.
#[tactic(auto, using(crate::proofs::Frugal::ulong_frugal, crate::proofs::Frugal::ulonglong_frugal, crate::proofs::Frugal::boolean_frugal), unfolding(crate::specs::Reading::call_at))]
pub(crate) fn read_arguments(
    alloc: Global,
    operation: Operation,
    reader: &mut Reader,
) -> Result<Call, CallFault>
    ensures exact { Finds (λ call. call) result (call_at operation reader.old) }
    ensures memory { result ≡ Err CallFault.Memory → IsHeld operation }
{
    match operation {
        Operation::Bare(bare) => ended(reader, Call::Bare(bare)),
        Operation::Handing(handing) => read_handing(alloc, handing, reader),
        Operation::Create => {
            let time_out = reader.ulong()?;
            ended(reader, Call::Create(time_out))
        }
        Operation::Recreate => Ok(Call::Recreate(read_context(alloc, reader)?)),
        Operation::CommitTransaction => {
            let report_heuristics = reader.boolean()?;
            ended(reader, Call::CommitTransaction(report_heuristics))
        }
        Operation::AfterCompletion => read_after_completion(reader),
        Operation::Put => {
            let cell = reader.ulonglong()?;
            let value = reader.ulonglong()?;
            ended(reader, Call::Put(cell, value))
        }
        Operation::Get => {
            let cell = reader.ulonglong()?;
            ended(reader, Call::Get(cell))
        }
        Operation::IsA => {
            let id = Octets::new(alloc, reader.string()?)?;
            ended(reader, Call::IsA(id))
        }
    }
}

#[tactic(auto, unfolding(crate::specs::Reading::call_at, crate::specs::Reading::ended))]
fn read_handing(alloc: Global, handing: Handing, reader: &mut Reader) -> Result<Call, CallFault>
    ensures { Finds (λ call. call) result (call_at (operations.Handing handing) reader.old) }
{
    let reference = read_ref(alloc, reader)?;
    handed(handing, ended(reader, reference)?)
}

/// The call that hands over this reference, which has to name an object.
#[tactic(auto, unfolding(crate::specs::Reading::with_object))]
fn handed(handing: Handing, reference: ObjectRef) -> Result<Call, CallFault>
    ensures { Finds (λ call. call) result (with_object reference (calls.Handing handing reference)) }
{
    if reference.is_nil() {
        return Err(CallFault::BadParam);
    }
    Ok(Call::Handing(handing, reference))
}

#[tactic(auto, using(crate::proofs::Frugal::ulong_frugal), unfolding(crate::specs::Reading::call_at))]
fn read_after_completion(reader: &mut Reader) -> Result<Call, CallFault>
    ensures exact { Finds (λ call. call) result (call_at operations.AfterCompletion reader.old) }
    ensures memory { result ≢ Err CallFault.Memory }
{
    let place = reader.place();
    let number = reader.ulong()?;
    match status_of(number) {
        Some(status) => ended(reader, Call::AfterCompletion(status)),
        None => Err(CallFault::Marshal(place)),
    }
}

/// The status of a number.
#[tactic(auto, unfolding(crate::specs::Reading::status_of))]
pub(crate) fn status_of(number: u32) -> Option<Status>
    ensures { result ≡ status_of number }
{
    match number {
        0 => Some(Status::Active),
        1 => Some(Status::MarkedRollback),
        2 => Some(Status::Prepared),
        3 => Some(Status::Committed),
        4 => Some(Status::RolledBack),
        5 => Some(Status::Unknown),
        6 => Some(Status::NoTransaction),
        7 => Some(Status::Preparing),
        8 => Some(Status::Committing),
        9 => Some(Status::RollingBack),
        _ => None,
    }
}

/// What was read, where few octets are left behind it.
#[tactic(auto, unfolding(crate::specs::Reading::ended))]
pub(crate) fn ended<T: Drop>(reader: &Reader, value: T) -> Result<T, CallFault>
    ensures exact { Finds (λ x. x) result (ended value reader.now) }
    ensures memory { result ≢ Err CallFault.Memory }
{
    if reader.rest().len() > LEFT_LIMIT {
        return Err(CallFault::Marshal(reader.place()));
    }
    Ok(value)
}
