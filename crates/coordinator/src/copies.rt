// Copies of events, which histories keep.
ghost use Rattle.std.specs.Prelude.{◌≡◌, IfOk};

use crate::event::{Act, Event};
use ots_model::tree::Heard;
use std::alloc::{AllocError, Global};

/// A copy of an event.
pub fn copy_event(alloc: Global, event: &Event) -> Result<Event, AllocError>
    ensures { IfOk result (λ copy. copy ≡ event.entry.now) }
{
    Ok(Event {
        key: event.key,
        branch: event.branch,
        now: event.now,
        act: copy_act(alloc, &event.act)?,
    })
}

/// A copy of an act.
fn copy_act(alloc: Global, act: &Act) -> Result<Act, AllocError>
    ensures { IfOk result (λ copy. copy ≡ act.now) }
{
    Ok(match act {
        Act::GetTerminator => Act::GetTerminator,
        Act::GetCoordinator => Act::GetCoordinator,
        Act::Commit(asked) => Act::Commit(*asked),
        Act::Rollback => Act::Rollback,
        Act::GetStatus => Act::GetStatus,
        Act::GetParentStatus => Act::GetParentStatus,
        Act::GetTopLevelStatus => Act::GetTopLevelStatus,
        Act::IsSameTransaction(other) => Act::IsSameTransaction(*other),
        Act::IsRelatedTransaction(other) => Act::IsRelatedTransaction(*other),
        Act::IsAncestorTransaction(other) => Act::IsAncestorTransaction(*other),
        Act::IsDescendantTransaction(other) => Act::IsDescendantTransaction(*other),
        Act::IsTopLevelTransaction => Act::IsTopLevelTransaction,
        Act::HashTransaction => Act::HashTransaction,
        Act::HashTopLevelTran => Act::HashTopLevelTran,
        Act::RegisterResource(to, aware) => Act::RegisterResource(to.copy(alloc)?, *aware),
        Act::RegisterSynchronization(to) => Act::RegisterSynchronization(to.copy(alloc)?),
        Act::RegisterSubtranAware(to) => Act::RegisterSubtranAware(to.copy(alloc)?),
        Act::RollbackOnly => Act::RollbackOnly,
        Act::GetTransactionName => Act::GetTransactionName,
        Act::CreateSubtransaction => Act::CreateSubtransaction,
        Act::GetTxcontext => Act::GetTxcontext,
        Act::Replay(registration, resource) => Act::Replay(*registration, resource.copy(alloc)?),
        Act::Superior(word) => Act::Superior(*word),
        Act::Answer(number, heard) => Act::Answer(*number, copy_heard(alloc, heard)?),
        Act::Tick => Act::Tick,
        Act::Reread(stands) => Act::Reread(*stands),
        Act::Opened(deadline) => Act::Opened(*deadline),
    })
}

/// A copy of what was heard.
fn copy_heard(alloc: Global, heard: &Heard) -> Result<Heard, AllocError>
    ensures { IfOk result (λ copy. copy ≡ heard.now) }
{
    Ok(match heard {
        Heard::Phase(heard) => Heard::Phase(*heard),
        Heard::Told(status) => Heard::Told(*status),
        Heard::Enlisted(reference) => Heard::Enlisted(reference.copy(alloc)?),
    })
}
