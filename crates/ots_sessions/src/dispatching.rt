ghost use Rattle.std.specs.Prelude.{◌≡◌, ◌<◌, ◌≤◌, ◌^◌, true, false, All, Bool, IfOk, length};
ghost use Rattle.giop_frames.specs.Encode.{octets_in};
ghost use Rattle.giop_frames.specs.declared.message.Message.TheVariants as messages;
ghost use Rattle.ots_calls.specs.Request.{HasNoKey};
ghost use Rattle.ots_sessions.specs.Replies as replies;
ghost use Rattle.ots_sessions.specs.Replies.{AnswersCall, AnswersCommon, IsReply, IsWritable};
ghost use Rattle.ots_sessions.specs.RepliesInside as inside;
ghost use Rattle.ots_sessions.specs.RepliesInside.{IsAnsweredBy};

use crate::fault::ServeFault;
use crate::references::{is_aware_id, is_object_id, is_resource_id, type_id_of};
use crate::refusals::{answer_without_step, refuse, wants_key};
use crate::servant::Servant;
use giop_frames::{Reply, Request, Target};
use ots_calls::{
    Answer, Bare, Call, CallFault, Called, Given, SystemException, read_call, write_answer,
};
use std::alloc::Global;

/// The reply to a request, by a servant.
#[tactic(auto, using(crate::proofs::Calls::refused_is))]
pub fn dispatch<S: Servant>(
    alloc: Global,
    servant: &mut S,
    request: &Request,
) -> Result<Reply, ServeFault>
    requires body { length (request.now).body < 2 ^ 31 }
    requires contexts { All (λ context. length context.bytes < 2 ^ 31) (request.now).contexts }
    ensures reply { IfOk result (λ reply. IsReply S.finds S.answers servant.old request.now reply servant.new) }
    ensures later { S.faults servant.old ≤ S.faults servant.new }
    ensures id { IfOk result (λ reply. reply.id ≡ (request.now).id) }
    ensures short { IfOk result (λ reply. octets_in (messages.Reply reply) < 2 ^ 31) }
{
    if !is_key(&request.target) {
        return wants_key(alloc, request.id);
    }
    match read_call(alloc, request) {
        Ok(called) => {
            let reply = answer_request(alloc, servant, request.id, &called)?;
            Ok(reply)
        }
        Err(fault) if is_memory(&fault) => Err(ServeFault::Memory),
        Err(fault) => {
            let reply = refuse(alloc, request.id, fault)?;
            Ok(reply)
        }
    }
}

/// Whether a target is a key.
fn is_key(target: &Target) -> bool
    ensures key { result ≡ true → ¬ HasNoKey target.now }
    ensures other { result ≡ false → HasNoKey target.now }
{
    matches!(target, Target::Key(_))
}

/// Whether memory was wanting.
fn is_memory(fault: &CallFault) -> bool
    ensures { result ≡ inside.is_memory fault.now }
{
    matches!(fault, CallFault::Memory)
}

/// The reply to a request that is this call.
#[tactic(auto, using(crate::proofs::Calls::id_of_reply, crate::proofs::Unfit::answered_by_own, crate::proofs::Unfit::answered_foreign))]
fn answer_request<S: Servant>(
    alloc: Global,
    servant: &mut S,
    id: u32,
    called: &Called,
) -> Result<Reply, ServeFault>
    ensures reply { IfOk result (λ reply. IsAnsweredBy S.finds S.answers id servant.old called.now reply servant.new) }
    ensures id { IfOk result (λ reply. reply.id ≡ id) }
    ensures short { IfOk result (λ reply. octets_in (messages.Reply reply) < 2 ^ 31) }
    ensures later { S.faults servant.old ≤ S.faults servant.new }
{
    let answer = answer_call(servant, called)?;
    match write_answer(alloc, id, &called.call, &answer) {
        Ok(reply) => Ok(reply),
        // As where an earlier call of another operation had the same retry key.
        Err(CallFault::BadParam) => {
            let reply = refuse(alloc, id, CallFault::BadParam)?;
            Ok(reply)
        }
        Err(_) => Err(ServeFault::Memory),
    }
}

/// The answer of a call.
#[tactic(auto, using(crate::proofs::Calls::common_is, crate::proofs::Calls::own_is))]
fn answer_call<S: Servant>(servant: &mut S, called: &Called) -> Result<Answer, ServeFault>
    ensures answer { IfOk result (λ answer. AnswersCall S.finds S.answers servant.old called.now answer servant.new) }
    ensures later { S.faults servant.old ≤ S.faults servant.new }
    ensures short { IfOk result IsWritable }
{
    if is_common(&called.call) {
        return Ok(answer_common(servant, called));
    }
    servant.answer(called)
}

/// Whether a call is one that every object has.
fn is_common(call: &Call) -> bool
    ensures { result ≡ replies.is_common call.now }
{
    matches!(call, Call::Bare(Bare::NonExistent) | Call::IsA(_))
}

/// The answer of a call that every object has.
fn answer_common<S: Servant>(servant: &mut S, called: &Called) -> Answer
    ensures answer { AnswersCommon S.finds S.answers servant.old called.now result servant.new }
    ensures later { S.faults servant.old ≤ S.faults servant.new }
    ensures short { IsWritable result }
{
    let there = servant.is_there(&called.key);
    match &called.call {
        Call::IsA(id) => is_a(there, called.key.kind, id.bytes()),
        _ => Answer::Plain(Given::Flag(!there)),
    }
}

/// The answer of `_is_a`: whether an object with a key of this kind, where it is there, has the interface of this repository id.
fn is_a(there: bool, kind: u8, id: &[u8]) -> Answer
    ensures answer { result ≡ replies.is_a there kind id.now }
    ensures short { IsWritable result }
{
    if !there {
        return answer_without_step(SystemException::ObjectNotExist);
    }
    Answer::Plain(Given::Flag(derives(type_id_of(kind), id)))
}

/// Whether an interface with this repository id is, or is derived from, the one with another.
fn derives(type_id: &[u8], id: &[u8]) -> bool
    ensures { result ≡ replies.derives type_id.now id.now }
{
    id == type_id || is_object_id(id) || (is_aware_id(type_id) && is_resource_id(id))
}
