// The context of a transaction, as a request carries it that belongs to it.
ghost use Rattle.std.specs.Prelude.{◌≡◌, ◌<◌, ◌≤◌, ◌++◌, false, length, map, None, IfOk, OnOk};
ghost use Rattle.cdr_values.specs.Value.{has_nul};
ghost use Rattle.ior_refs.specs.Making.{reference_to, refusal_to};
ghost use Rattle.ior_refs.specs.Reference as references;
ghost use Rattle.txn_tree.specs.Rows as ancestry;
ghost use Rattle.coordinator.specs.Contexts as contexts;

use super::Family;
use crate::table::has_terminator;
use family_rules::State;
use ior_refs::{IorFault, ObjectKey, ObjectRef, make_ref};
use ots_context::{AnyTail, Context, Identities, Identity};
use ots_model::{Endpoint, RefBytes, RefFault};
use std::alloc::{AllocError, Global};

/// The repository id of a coordinator.
const COORDINATOR_ID: &[u8; 43] = b"IDL:omg.org/CosTransactions/Coordinator:1.0";

/// The repository id of a terminator.
const TERMINATOR_ID: &[u8; 42] = b"IDL:omg.org/CosTransactions/Terminator:1.0";

/// The octets of the reference to no object.
const NIL: [u8; 12] = [0, 0, 0, 1, 0, 0, 0, 0, 0, 0, 0, 0];

impl Family {
    /// What a request says at a moment that belongs to this transaction, of a service that stands at this place. Want of
    /// memory alone refuses it.
    pub fn context(
        &self,
        alloc: Global,
        branch: u32,
        now: u64,
        at: &Endpoint,
    ) -> Result<Context, AllocError>
        requires there { branch < length (self.now.family).rows }
        requires short { length at.now.host ≤ contexts.host_limit }
        requires text { has_nul at.now.host ≡ false }
        ensures { IfOk result (λ context. context ≡ contexts.context_of at.now self.now.family now branch) }
    {
        let current = identity(alloc, &self.state, branch, at)?;
        let mut parents = Vec::new(alloc);
        if let Some(parent) = self.state.parent_of(branch) {
            put_line(alloc, &self.state, parent, at, &mut parents)?;
        }
        Ok(Context {
            timeout: seconds_left(now, self.state.deadline()),
            current,
            parents: Identities::from_vec(parents),
            tail: AnyTail::Null,
        })
    }
}

/// The seconds that are left at this moment, at least 1, or 0 where there is no end.
fn seconds_left(now: u64, deadline: Option<u64>) -> u32
    ensures { result ≡ contexts.seconds_left now deadline }
{
    match deadline {
        None => 0,
        Some(end) => {
            let left = end.saturating_sub(now).min(u64::from(u32::MAX));
            left.max(1) as u32
        }
    }
}

/// Puts the identities of a transaction and of its ancestors, up to the top, behind the others.
fn put_line(
    alloc: Global,
    state: &State,
    branch: u32,
    at: &Endpoint,
    line: &mut Vec<Identity>,
) -> Result<(), AllocError>
    requires there { branch < length (state.now.family).rows }
    requires short { length at.now.host ≤ contexts.host_limit }
    requires text { has_nul at.now.host ≡ false }
    ensures { OnOk result (line.new.items ≡ line.old.items
        ++ map (contexts.identity_of at.now state.now.family) (ancestry.ancestors (state.now.family).rows branch)) }
{
    line.push(identity(alloc, state, branch, at)?)?;
    match state.parent_of(branch) {
        Some(parent) => put_line(alloc, state, parent, at, line),
        None => Ok(()),
    }
}

/// The identity of a transaction.
#[tactic(auto, unfolding(coordinator::specs::Contexts::identity_of))]
fn identity(
    alloc: Global,
    state: &State,
    branch: u32,
    at: &Endpoint,
) -> Result<Identity, AllocError>
    requires short { length at.now.host ≤ contexts.host_limit }
    requires text { has_nul at.now.host ≡ false }
    ensures { IfOk result (λ identity. identity ≡ contexts.identity_of at.now state.now.family branch) }
{
    let coord = reference(alloc, COORDINATOR_ID, at, &key_in(state, b'K', branch))?;
    let term = if has_terminator(state, branch) {
        reference(alloc, TERMINATOR_ID, at, &key_in(state, b'T', branch))?
    } else {
        nil(alloc)?
    };
    let otid = state.otid_of(alloc, branch)?;
    Ok(Identity { coord, term, otid })
}

/// The key of an object of a family.
fn key_in(state: &State, kind: u8, index: u32) -> ObjectKey
    ensures { result ≡ contexts.key_in state.now.family kind index }
{
    ObjectKey {
        kind,
        index,
        ..*state.key()
    }
}

/// The reference to an object, whose type_id and host are short. Want of memory alone refuses it.
#[tactic(auto, using(crate::proofs::References::not_refused))]
fn reference(
    alloc: Global,
    type_id: &[u8],
    at: &Endpoint,
    key: &ObjectKey,
) -> Result<ObjectRef, AllocError>
    requires few { length type_id.now ≤ 64 }
    requires plain { has_nul type_id.now ≡ false }
    requires short { length at.now.host ≤ contexts.host_limit }
    requires text { has_nul at.now.host ≡ false }
    ensures made { IfOk result (λ reference. reference ≡ reference_to type_id.now at.now key.now) }
    ensures memory { refusal_to type_id.now at.now key.now ≡ None }
{
    match make_ref(alloc, type_id, at, key) {
        Ok(made) => Ok(made),
        Err(_) => Err(AllocError),
    }
}

/// The reference to no object.
#[tactic(auto, using(crate::proofs::References::nil_read))]
fn nil(alloc: Global) -> Result<ObjectRef, AllocError>
    ensures { IfOk result (λ reference. reference ≡ references.nil) }
{
    let octets = match RefBytes::new(alloc, &NIL) {
        Ok(octets) => octets,
        Err(RefFault::Memory) => return Err(AllocError),
        Err(RefFault::TooLong(_)) => unreachable!(),
    };
    match ObjectRef::from_bytes(alloc, &octets) {
        Ok(reference) => Ok(reference),
        Err(IorFault::Memory) => Err(AllocError),
        Err(_) => unreachable!(),
    }
}
