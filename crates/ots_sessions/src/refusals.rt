// Replies to requests that are no call, and answers of calls that aren't made.
ghost use Rattle.std.specs.Prelude.{◌≡◌, ◌<◌, ◌^◌, Ok, IfOk};
ghost use Rattle.giop_frames.specs.Encode.{octets_in};
ghost use Rattle.giop_frames.specs.declared.message.Message.TheVariants as messages;
ghost use Rattle.ots_calls.specs.AnswerWriting.{reply_of};
ghost use Rattle.ots_sessions.specs.Replies as replies;

use crate::fault::ServeFault;
use cdr_values::Order;
use giop_frames::{Contexts, Reply};
use ots_calls::{Answer, Bare, Call, CallFault, Completed, SystemException, write_answer};
use ots_model::Octets;
use std::alloc::Global;

/// The reply_status NEEDS_ADDRESSING_MODE.
const NEEDS_ADDRESSING_MODE: u32 = 5;

/// The reply to a request whose target isn't an object key: one is wanted (KeyAddr).
pub(crate) fn wants_key(alloc: Global, id: u32) -> Result<Reply, ServeFault>
    ensures { IfOk result (λ reply. reply ≡ replies.wants_key id) }
{
    Ok(Reply {
        id,
        status: NEEDS_ADDRESSING_MODE,
        contexts: Contexts::from_vec(Vec::new(alloc)),
        order: Order::Big,
        body: Octets::new(alloc, &[0, 0])?,
    })
}

/// The reply to a request that is no call.
#[tactic(auto, using(crate::proofs::Calls::id_of_reply))]
pub(crate) fn refuse(alloc: Global, id: u32, fault: CallFault) -> Result<Reply, ServeFault>
    ensures reply { IfOk result (λ reply. reply_of id (replies.without_step (replies.exception_of fault)) ≡ Ok reply) }
    ensures id { IfOk result (λ reply. reply.id ≡ id) }
    ensures short { IfOk result (λ reply. octets_in (messages.Reply reply) < 2 ^ 31) }
{
    let answer = answer_without_step(exception_of(fault));
    Ok(write_answer(alloc, id, &Call::Bare(Bare::NonExistent), &answer)?)
}

/// The exception of a request that is no call.
fn exception_of(fault: CallFault) -> SystemException
    ensures { result ≡ replies.exception_of fault }
{
    match fault {
        CallFault::BadOperation => SystemException::BadOperation,
        CallFault::Marshal(_) | CallFault::Garbled(_) => SystemException::Marshal,
        CallFault::BadParam => SystemException::BadParam,
        CallFault::BadTarget | CallFault::BadKey => SystemException::ObjectNotExist,
        CallFault::Memory => SystemException::NoMemory,
    }
}

/// A system exception of a call that has done nothing.
pub fn answer_without_step(exception: SystemException) -> Answer
    ensures { result ≡ replies.without_step exception }
{
    Answer::System(exception, 0, Completed::No)
}
