// What a call does to a transaction.
ghost use Rattle.std.specs.Prelude.{◌≡◌, false, IfOk, IfSome};
ghost use Rattle.std.specs.Str.{bytes_eq};
ghost use Rattle.ior_refs.specs.Reference.{canonical_octets};
ghost use Rattle.ots_server.specs.Acts as acts;
ghost use Rattle.ots_server.specs.Acts.{IsActOf};
ghost use Rattle.ots_sessions.specs.References.{aware_id};
ghost use Rattle.service_node.specs.Given.{node_makes};

use coordinator::Act;
use ior_refs::{IorFault, ObjectKey, ObjectRef, iiop, key_of};
use ots_calls::{Bare, Call, Called, Handing};
use ots_model::tree::Word;
use ots_model::{PhaseWord, RefBytes};
use ots_sessions::{ServeFault, is_aware_id};
use std::alloc::Global;

/// The act of a call on an object of a transaction. None is of no object of this service.
pub(crate) fn act_of(alloc: Global, called: &Called) -> Result<Option<Act>, ServeFault>
    ensures act { IfOk result (λ found. IsActOf (called.now).key.index (called.now).call found) }
    ensures given { IfOk result (λ found. IfSome found (λ act. node_makes act ≡ false)) }
{
    Ok(match &called.call {
        Call::Bare(bare) => bare_act(*bare),
        Call::Handing(handing, reference) => {
            handing_act(alloc, *handing, reference, called.key.index)?
        }
        Call::CommitTransaction(asked) => Some(Act::Commit(*asked)),
        Call::Create(_)
        | Call::Recreate(_)
        | Call::AfterCompletion(_)
        | Call::Put(_, _)
        | Call::Get(_)
        | Call::IsA(_) => None,
    })
}

/// The act of an operation that takes nothing.
fn bare_act(bare: Bare) -> Option<Act>
    ensures act { result ≡ acts.bare_act bare }
    ensures given { IfSome result (λ act. node_makes act ≡ false) }
{
    Some(match bare {
        Bare::GetTerminator => Act::GetTerminator,
        Bare::GetCoordinator => Act::GetCoordinator,
        Bare::RollbackTransaction => Act::Rollback,
        Bare::GetStatus => Act::GetStatus,
        Bare::GetParentStatus => Act::GetParentStatus,
        Bare::GetTopLevelStatus => Act::GetTopLevelStatus,
        Bare::IsTopLevelTransaction => Act::IsTopLevelTransaction,
        Bare::HashTransaction => Act::HashTransaction,
        Bare::HashTopLevelTran => Act::HashTopLevelTran,
        Bare::RollbackOnly => Act::RollbackOnly,
        Bare::GetTransactionName => Act::GetTransactionName,
        Bare::CreateSubtransaction => Act::CreateSubtransaction,
        Bare::GetTxcontext => Act::GetTxcontext,
        Bare::Prepare => Act::Superior(Word::Phase(PhaseWord::Prepare)),
        Bare::Rollback => Act::Superior(Word::Phase(PhaseWord::Rollback)),
        Bare::Commit => Act::Superior(Word::Phase(PhaseWord::Commit)),
        Bare::CommitOnePhase => Act::Superior(Word::Phase(PhaseWord::CommitOnePhase)),
        Bare::Forget => Act::Superior(Word::Forget),
        Bare::BeforeCompletion | Bare::RollbackSubtransaction | Bare::NonExistent => return None,
    })
}

/// The act of an operation that takes a reference, on an object of this index.
fn handing_act(
    alloc: Global,
    handing: Handing,
    reference: &ObjectRef,
    index: u32,
) -> Result<Option<Act>, ServeFault>
    ensures act { IfOk result (λ found. acts.IsHandingAct index handing reference.now found) }
    ensures given { IfOk result (λ found. IfSome found (λ act. node_makes act ≡ false)) }
{
    Ok(Some(match handing {
        Handing::IsSameTransaction => Act::IsSameTransaction(key_in(alloc, reference)?),
        Handing::IsRelatedTransaction => Act::IsRelatedTransaction(key_in(alloc, reference)?),
        Handing::IsAncestorTransaction => Act::IsAncestorTransaction(key_in(alloc, reference)?),
        Handing::IsDescendantTransaction => {
            Act::IsDescendantTransaction(key_in(alloc, reference)?)
        }
        Handing::RegisterResource => {
            Act::RegisterResource(octets_of(alloc, reference)?, is_aware(reference))
        }
        Handing::RegisterSynchronization => {
            Act::RegisterSynchronization(octets_of(alloc, reference)?)
        }
        Handing::RegisterSubtranAware => Act::RegisterSubtranAware(octets_of(alloc, reference)?),
        Handing::ReplayCompletion => Act::Replay(index, octets_of(alloc, reference)?),
        Handing::CommitSubtransaction => return Ok(None),
    }))
}

/// The canonical octets of a reference.
fn octets_of(alloc: Global, reference: &ObjectRef) -> Result<RefBytes, ServeFault>
    ensures { IfOk result (λ octets. octets ≡ canonical_octets reference.now) }
{
    Ok(reference.to_bytes(alloc)?)
}

/// Whether a reference is to a resource that learns of the end of its subtransaction, which its type_id says.
fn is_aware(reference: &ObjectRef) -> bool
    ensures { result ≡ bytes_eq reference.now.0 aware_id }
{
    is_aware_id(reference.type_id())
}

/// The key in a reference, where it is to an object of a service of this kind.
fn key_in(alloc: Global, reference: &ObjectRef) -> Result<Option<ObjectKey>, ServeFault>
    ensures { IfOk result (λ found. acts.IsKeyIn reference.now found) }
{
    match iiop(alloc, reference) {
        Ok(profile) => Ok(key_of(profile.key.bytes())),
        Err(IorFault::Memory) => Err(ServeFault::Memory),
        Err(_) => Ok(None),
    }
}
