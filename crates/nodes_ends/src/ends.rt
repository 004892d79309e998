// What a script does with the resources of ends, and what they do by words.
ghost use Rattle.std.specs.Prelude.{◌≡◌, IsTrue, None, OnOk, Some};
ghost use Rattle.std.specs.Result.{IsOk};
ghost use Rattle.nodes_parts.specs.Kept.{flat};
ghost use Rattle.nodes_parts.specs.Referring.{named as as_named};
ghost use Rattle.nodes_world.specs.Ends as ends;
ghost use Rattle.nodes_world.specs.Resolve as resolving;
ghost use Rattle.nodes_world.specs.World.{resource_at};
ghost use Rattle.resource_end.specs.Table.{row};
ghost use Rattle.nodes_state.specs.Shown.{shown};
ghost use Rattle.nodes_state.specs.Does.{Does};
ghost use Rattle.nodes_ends.specs.Ending.{HasResource, HasThere, IsOpen, IsOpened, KeepsNodes, heard_only, with_end_in, with_end_there};

use coordinator::Said;
use ior_refs::ObjectKey;
use nodes_lines::{tell_known, tell_refused};
use nodes_parts::{NamedKey, Resource, answer_of_row, closed_by, place_of, shown_state, told_word};
use nodes_state::{Seat, Server, State};
use ots_model::Line;
use ots_model::tree::Word;
use ots_world::WorldFault;
use resource_end::{State as Stage, Word as ToldWord};
use std::alloc::AllocError;

/// What a resource answers to a word that changes nothing there.
fn heard_only(state: Stage) -> Said
    ensures { result ≡ heard_only state }
{
    match state {
        Stage::Forgotten => Said::ObjectNotExist,
        _ => Said::Plain,
    }
}

/// A value is put for a resource of what stands at a seat, where that is an end.
fn put_in(server: &mut Server, resource: &Resource, cell: u64, value: u64) -> Result<(), AllocError>
    requires there { HasThere (flat resource.now) server.old }
    requires nothing { (resource.now).put ≡ None }
    ensures { OnOk result (server.new
        ≡ with_end_there (ends.with_resource (ends.put_into cell value (flat resource.now))) server.old) }
{
    match server {
        Server::End(end) => end.put(resource, cell, value),
        _ => Ok(()),
    }
}

/// The same of a resource that is to vote rollback.
fn refuse_in(server: &mut Server, resource: &Resource)
    requires there { HasThere (flat resource.now) server.old }
    ensures { server.new ≡ with_end_there (ends.with_resource (ends.refusing (flat resource.now))) server.old }
{
    if let Server::End(end) = server {
        end.refuse(resource);
    }
}

/// The same of a resource that comes into another state.
fn set_state_in(server: &mut Server, resource: &Resource, state: Stage)
    requires there { HasThere (flat resource.now) server.old }
    ensures { server.new
        ≡ with_end_there (ends.with_resource (record (flat resource.now) { state = state })) server.old }
{
    if let Server::End(end) = server {
        end.set_state(resource, state);
    }
}

/// A value is put for a resource of the end at a place.
fn put_at(
    seats: &mut Vec<Seat>,
    place: usize,
    resource: &Resource,
    cell: u64,
    value: u64,
) -> Result<(), AllocError>
    requires there { HasResource seats.old.items place (flat resource.now) }
    requires nothing { (resource.now).put ≡ None }
    ensures { OnOk result (seats.new.items
        ≡ with_end_in place (ends.with_resource (ends.put_into cell value (flat resource.now))) seats.old.items) }
{
    if place < seats.len() {
        put_in(&mut seats[place].server, resource, cell, value)?;
    }
    Ok(())
}

/// A resource of the end at a place is to vote rollback.
fn refuse_at(seats: &mut Vec<Seat>, place: usize, resource: &Resource)
    requires there { HasResource seats.old.items place (flat resource.now) }
    ensures { seats.new.items
        ≡ with_end_in place (ends.with_resource (ends.refusing (flat resource.now))) seats.old.items }
{
    if place < seats.len() {
        refuse_in(&mut seats[place].server, resource);
    }
}

/// A resource of the end at a place comes into another state.
fn set_state_at(seats: &mut Vec<Seat>, place: usize, resource: &Resource, state: Stage)
    requires there { HasResource seats.old.items place (flat resource.now) }
    ensures { seats.new.items
        ≡ with_end_in place (ends.with_resource (record (flat resource.now) { state = state })) seats.old.items }
{
    if place < seats.len() {
        set_state_in(&mut seats[place].server, resource, state);
    }
}

/// `put G C V`.
pub fn put(
    state: &mut State,
    lines: &mut Vec<u8>,
    key: &ObjectKey,
    cell: u64,
    value: u64,
) -> Result<(), WorldFault>
    requires may { IsTrue (resolving.may_put (shown state.old) cell key.now) }
    ensures does { Does (ends.puts key.now cell value (shown state.old)) (shown state.new)
        lines.old.items lines.new.items result }
    ensures nodes { OnOk result (KeepsNodes state.old state.new) }
{
    if let Some(resource) = open_resource(state, lines, key, b"put")? {
        put_at(&mut state.seats, place_of(key), &resource, cell, value)?;
    }
    Ok(())
}

/// `refuse G`.
pub fn refuse(state: &mut State, lines: &mut Vec<u8>, key: &ObjectKey) -> Result<(), WorldFault>
    ensures does { Does (ends.refuses_to key.now (shown state.old)) (shown state.new)
        lines.old.items lines.new.items result }
    ensures quiet { IsOpen (resource_at (shown state.old) key.now) → IsOk result }
    ensures nodes { OnOk result (KeepsNodes state.old state.new) }
{
    if let Some(resource) = open_resource(state, lines, key, b"refuse")? {
        refuse_at(&mut state.seats, place_of(key), &resource);
    }
    Ok(())
}

/// The resource of a key, where its state lets a script do something with it. Else that is told.
fn open_resource(
    state: &State,
    lines: &mut Vec<u8>,
    key: &ObjectKey,
    word: &[u8],
) -> Result<Option<Resource>, WorldFault>
    ensures { IsOpened word.now (resource_at (shown state.now) key.now) lines.old.items lines.new.items result }
{
    let Some(resource) = state.resource(key).copied() else {
        return Ok(None);
    };
    match closed_by(resource.state) {
        None => Ok(Some(resource)),
        Some(answer) => {
            tell_refused(lines, word, &answer)?;
            Ok(None)
        }
    }
}

/// The resource that a reference names is told a word by a request, and answers. Nobody else knows of it.
pub fn obey(
    state: &mut State,
    lines: &mut Vec<u8>,
    request: u32,
    named: NamedKey,
    word: Word,
) -> Result<(), WorldFault>
    ensures does { Does
        (ends.obeys_as (resource_at (shown state.old) named.key) request (as_named named) word (shown state.old))
        (shown state.new) lines.old.items lines.new.items result }
    ensures nodes { OnOk result (KeepsNodes state.old state.new) }
{
    let Some(resource) = state.resource(&named.key).copied() else {
        return state.reply(lines, request, Said::ObjectNotExist);
    };
    match told_word(word) {
        Some(told) => obey_row(state, lines, request, named, resource, told),
        None => state.reply(lines, request, heard_only(resource.state)),
    }
}

/// The same of a word of the two phases.
fn obey_row(
    state: &mut State,
    lines: &mut Vec<u8>,
    request: u32,
    named: NamedKey,
    resource: Resource,
    word: ToldWord,
) -> Result<(), WorldFault>
    requires there { resource_at (shown state.old) named.key ≡ Some (flat resource) }
    ensures does { Does
        (ends.obeys_row request (as_named named) (flat resource) (row word resource.state) (shown state.old))
        (shown state.new) lines.old.items lines.new.items result }
    ensures nodes { OnOk result (KeepsNodes state.old state.new) }
{
    let row = resource.state.row(word);
    if let Some(stage) = row.next {
        move_resource(state, lines, named, resource, stage)?;
    }
    match answer_of_row(&row.said) {
        Some(said) => state.reply(lines, request, said),
        None => Ok(()),
    }
}

/// A resource comes into another state.
fn move_resource(
    state: &mut State,
    lines: &mut Vec<u8>,
    named: NamedKey,
    resource: Resource,
    stage: Stage,
) -> Result<(), WorldFault>
    requires there { resource_at (shown state.old) named.key ≡ Some (flat resource) }
    ensures does { Does (ends.moves (as_named named) (flat resource) (Some stage) (shown state.old))
        (shown state.new) lines.old.items lines.new.items result }
    ensures nodes { OnOk result (KeepsNodes state.old state.new) }
{
    set_state_at(&mut state.seats, place_of(&named.key), &resource, stage);
    match shown_state(stage) {
        Some(shown) => {
            tell_known(
                lines,
                Line::State {
                    resource: named.name,
                    state: shown,
                },
            )?;
            Ok(())
        }
        None => Ok(()),
    }
}
