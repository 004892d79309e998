// The objects that ends make.
ghost use Rattle.std.specs.Prelude.{◌≡◌, IfErr, IfOk, OnOk};
ghost use Rattle.nodes_ends.specs.Ending.{KeepsNodes, with_end_there};
ghost use Rattle.nodes_world.specs.Ends as ends;
ghost use Rattle.nodes_world.specs.Objects as places;
ghost use Rattle.nodes_state.specs.Shown.{shown};
ghost use Rattle.nodes_calls.specs.Drawing.{DrawsObject, HasDrawn, IsLastIn, IsOfEnd};

use ior_refs::ObjectKey;
use nodes_parts::{place_of, reference, resource_key};
use nodes_state::{Server, State};
use nodes_world::Manner;
use ots_model::{Name, RefBytes};
use ots_world::WorldFault;
use std::alloc::{AllocError, Global};

/// An object that an end made to be registered: how it is to be, the key of it, and the name of the end.
#[derive(Clone, Copy)]
pub struct Object {
    pub manner: Manner,
    pub key: ObjectKey,
    pub end: Name,
}

/// The end at a place, where there is one, makes an object.
pub(crate) fn draw_object(
    state: &mut State,
    manner: Manner,
    place: u32,
) -> Result<Option<Object>, AllocError>
    ensures drawn { IfOk result (λ drawn. DrawsObject manner place (shown state.old) (shown state.new) drawn) }
    ensures nodes { OnOk result (KeepsNodes state.old state.new) }
    ensures messages { (state.new).messages ≡ (state.old).messages }
{
    let at = place as usize;
    if at >= state.seats.len() {
        return Ok(None);
    }
    let end = state.seats[at].name;
    match draw_in(&mut state.seats[at].server)? {
        Some(number) => Ok(Some(Object {
            manner,
            key: resource_key(manner, place, number),
            end,
        })),
        None => Ok(None),
    }
}

/// What stands at a seat, where that is an end, makes an object: its number.
fn draw_in(server: &mut Server) -> Result<Option<u64>, AllocError>
    ensures { IfOk result (λ number. HasDrawn server.old server.new number) }
{
    match server {
        Server::End(end) => Ok(Some(end.draw()?)),
        _ => Ok(None),
    }
}

/// The reference to an object of an end.
pub(crate) fn reference_to(state: &mut State, object: &Object) -> Result<RefBytes, WorldFault>
    ensures ok { IfOk result (λ to. to ≡ places.reference (object.now).end (object.now).key) }
    ensures err { IfErr result (λ fault. fault ≡ WorldFault.Memory) }
    ensures world { shown state.new ≡ shown state.old }
    ensures nodes { KeepsNodes state.old state.new }
    ensures messages { (state.new).messages ≡ (state.old).messages }
{
    let place = place_of(&object.key);
    if place < state.seats.len() {
        refer_in(&mut state.seats[place].server, state.alloc, object)
    } else {
        reference(state.alloc, &object.end, &object.key)
    }
}

/// The reference to an object of what stands at a seat.
fn refer_in(server: &mut Server, alloc: Global, object: &Object) -> Result<RefBytes, WorldFault>
    ensures ok { IfOk result (λ to. to ≡ places.reference (object.now).end (object.now).key) }
    ensures err { IfErr result (λ fault. fault ≡ WorldFault.Memory) }
    ensures same { server.new ≡ server.old }
{
    match server {
        Server::End(end) => end.reference(alloc, &object.end, &object.key),
        _ => reference(alloc, &object.end, &object.key),
    }
}

/// The object that an end made last is a resource from now on.
pub(crate) fn make_resource(state: &mut State, object: &Object)
    requires last { IsOfEnd object.now (shown state.old) }
    ensures world { shown state.new
        ≡ ends.with_end (places.place_of (object.now).key) (ends.with_fresh (object.now).key) (shown state.old) }
    ensures nodes { KeepsNodes state.old state.new }
    ensures messages { (state.new).messages ≡ (state.old).messages }
{
    let place = place_of(&object.key);
    make_in(&mut state.seats[place].server, &object.key);
}

/// The object that what stands at a seat made last, where that is an end, is a resource from now on.
fn make_in(server: &mut Server, key: &ObjectKey)
    requires last { IsLastIn key.now server.old }
    ensures { server.new ≡ with_end_there (ends.with_fresh key.now) server.old }
{
    if let Server::End(end) = server {
        end.make(key);
    }
}
