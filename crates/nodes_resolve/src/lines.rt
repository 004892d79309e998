// The deed that a line of a script is in a world, or that it is none.
ghost use Rattle.std.specs.Prelude.{◌≡◌, Some, IfOk};
ghost use Rattle.std.specs.Option.{option_map};
ghost use Rattle.nodes_world.specs.Resolve as resolving;
ghost use Rattle.nodes_state.specs.Shown.{HasNames, shown};
ghost use Rattle.nodes_resolve.specs.Lines as by_lines;
ghost use Rattle.nodes_resolve.specs.Lines.{IsAnswered, has_octets, keeps_octets};
ghost use Rattle.nodes_resolve.specs.Named.{IsNamed};

use crate::calls::{asks_named, commits_named, ends_named, relates_named, status_act};
use crate::makings::{begins_named, creates_named, puts_named, refuses_named, registers_named};
use crate::naming::{down_named, if_free, node_named};
use coordinator::Act;
use nodes_state::State;
use nodes_world::{Deed, Manner};
use ots_model::{Name, Octets};
use ots_world::{Image, ScriptEvent, WorldFault};
use std::alloc::Global;

/// The deed that a line is, with what it needs there. It is refused where a name isn't there, is of the wrong kind or
/// is taken, and where the line isn't accepted there. Memory is taken for the octets of an image alone.
#[tactic(auto, unfolding(nodes_world::specs::Resolve::resolve), using(crate::proofs::Named::answer_named))]
pub fn resolve(state: &State, event: &ScriptEvent) -> Result<Deed, WorldFault>
    requires names { HasNames state.now }
    ensures answered { IsAnswered (keeps_octets event.now) (resolving.resolve event.now (shown state.now)) result }
    ensures named { IfOk result (λ deed. IsNamed deed (shown state.now)) }
{
    match event {
        ScriptEvent::Stop {
            server,
            write,
            image,
        } => stops_named(state, server, *write, image),
        other => making_line(state, other).ok_or(WorldFault::Names),
    }
}

/// The deed of a line that makes something of a new name, or of any other one but `stop`.
fn making_line(state: &State, event: &ScriptEvent) -> Option<Deed>
    requires names { HasNames state.now }
    ensures { result ≡ by_lines.making_line event.now (shown state.now) }
{
    match event {
        ScriptEvent::Node(name) => if_free(state, name, Deed::MakeNode(*name)),
        ScriptEvent::End(name) => if_free(state, name, Deed::MakeEnd(*name)),
        ScriptEvent::Begin {
            node,
            transaction,
            seconds,
        } => begins_named(state, node, transaction, *seconds),
        ScriptEvent::Sub {
            parent,
            transaction,
        } => creates_named(state, parent, transaction),
        ScriptEvent::Register {
            transaction,
            end,
            resource,
        } => registers_named(state, Manner::Resource, transaction, end, resource),
        ScriptEvent::Aware {
            transaction,
            end,
            resource,
        } => registers_named(state, Manner::Aware, transaction, end, resource),
        ScriptEvent::Double {
            transaction,
            end,
            resource,
        } => registers_named(state, Manner::Double, transaction, end, resource),
        other => call_line(state, other),
    }
}

/// The deed of a line that calls a transaction or touches a resource, or of one that `node_line` knows.
fn call_line(state: &State, event: &ScriptEvent) -> Option<Deed>
    requires names { HasNames state.now }
    ensures { result ≡ by_lines.call_line event.now (shown state.now) }
{
    match event {
        ScriptEvent::Put {
            resource,
            cell,
            value,
        } => puts_named(state, resource, *cell, *value),
        ScriptEvent::Refuse(resource) => refuses_named(state, resource),
        ScriptEvent::Commit {
            transaction,
            reports,
        } => commits_named(state, transaction, *reports),
        ScriptEvent::Rollback(name) => ends_named(state, name, Act::Rollback),
        ScriptEvent::Mark(name) => asks_named(state, name, Act::RollbackOnly),
        ScriptEvent::Status { transaction, whose } => {
            asks_named(state, transaction, status_act(*whose))
        }
        ScriptEvent::Relate {
            relation,
            transaction,
            other,
        } => relates_named(state, *relation, transaction, other),
        ScriptEvent::NameOf(name) => asks_named(state, name, Act::GetTransactionName),
        ScriptEvent::Hash(name) => asks_named(state, name, Act::HashTransaction),
        other => node_line(state, other),
    }
}

/// The deed of a line that is about a node alone, but for `stop`, or lets messages flow.
fn node_line(state: &State, event: &ScriptEvent) -> Option<Deed>
    ensures { result ≡ by_lines.node_line event.now (shown state.now) }
{
    match event {
        ScriptEvent::Flow(count) => Some(Deed::Flow(*count)),
        ScriptEvent::Tick { server, seconds } => ticks_named(state, server, *seconds),
        ScriptEvent::Crash(server) => Some(Deed::Crash(node_named(state, server)?)),
        ScriptEvent::Restart(server) => Some(Deed::Restart(down_named(state, server)?)),
        _ => None,
    }
}

/// `tick N S`.
fn ticks_named(state: &State, server: &Name, seconds: u64) -> Option<Deed>
    ensures { result
        ≡ option_map (λ place. Deed.Tick place seconds) (resolving.node_named (shown state.now) server.now) }
{
    let at = node_named(state, server)?;
    Some(Deed::Tick { at, seconds })
}

/// `stop N K I`.
fn stops_named(state: &State, server: &Name, write: u64, image: &Image) -> Result<Deed, WorldFault>
    ensures { IsAnswered (has_octets image.now)
        (option_map (λ place. Deed.Stop place write image.now) (resolving.node_named (shown state.now) server.now))
        result }
{
    match node_named(state, server) {
        Some(at) => stop(state.alloc, at, write, image),
        None => Err(WorldFault::Names),
    }
}

/// The deed of it for a node that is there.
fn stop(alloc: Global, at: u32, write: u64, image: &Image) -> Result<Deed, WorldFault>
    ensures { IsAnswered (has_octets image.now) (Some (Deed.Stop at write image.now)) result }
{
    let image = match image {
        Image::Old => Image::Old,
        Image::New => Image::New,
        Image::Octets(octets) => Image::Octets(Octets::new(alloc, octets.bytes())?),
    };
    Ok(Deed::Stop { at, write, image })
}
