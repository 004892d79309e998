// Registrations of the objects that ends make.
ghost use Rattle.std.specs.Prelude.{◌≡◌, None, OnOk};
ghost use Rattle.nodes_world.specs.Clients as clients;
ghost use Rattle.nodes_world.specs.Happenings as happenings;
ghost use Rattle.nodes_world.specs.Objects as objects;
ghost use Rattle.nodes_world.specs.World as world;
ghost use Rattle.nodes_state.specs.Does.{Does};
ghost use Rattle.nodes_state.specs.Shown.{shown};
ghost use Rattle.nodes_state.specs.Telling.{TellsOne};
ghost use Rattle.nodes_clients.specs.Called.{comes_of};
ghost use Rattle.nodes_calls.specs.Drawing.{IsOfEnd};
ghost use Rattle.nodes_ready.specs.Ready.{IsReady};
ghost use Rattle.nodes_calls.specs.Registered.{was_registered};

use crate::objects::{Object, draw_object, make_resource, reference_to};
use coordinator::Said;
use ior_refs::ObjectKey;
use nodes_clients::{make_call, registering, tell_made};
use nodes_lines::{tell_aware, tell_known};
use nodes_state::State;
use nodes_world::Manner;
use ots_model::{Line, Name, RefBytes};
use ots_world::WorldFault;
use std::alloc::AllocError;

/// `register T E G`, `aware T E G`, `double T E G`: the end makes an object, and the client registers it.
pub fn register(
    state: &mut State,
    lines: &mut Vec<u8>,
    manner: Manner,
    transaction: &ObjectKey,
    place: u32,
    name: &Name,
) -> Result<(), WorldFault>
    requires ready { IsReady state.old }
    requires free { world.thing_in (state.old).names.things name.now ≡ None }
    ensures does { Does (clients.registers manner transaction.now place name.now (shown state.old))
        (shown state.new) lines.old.items lines.new.items result }
    ensures ready { OnOk result (IsReady state.new) }
{
    match draw_object(state, manner, place)? {
        Some(object) => {
            let to = reference_to(state, &object)?;
            register_object(state, lines, &object, to, transaction, name)
        }
        None => Ok(()),
    }
}

/// The client registers the object that an end made last, to which this reference leads.
fn register_object(
    state: &mut State,
    lines: &mut Vec<u8>,
    object: &Object,
    to: RefBytes,
    transaction: &ObjectKey,
    name: &Name,
) -> Result<(), WorldFault>
    requires ready { IsReady state.old }
    requires free { world.thing_in (state.old).names.things name.now ≡ None }
    requires made { IsOfEnd object.now (shown state.old) }
    requires to { to ≡ objects.reference (object.now).end (object.now).key }
    ensures does { Does (clients.registers_object (object.now).manner (object.now).key (object.now).end transaction.now
        name.now (shown state.old)) (shown state.new) lines.old.items lines.new.items result }
    ensures ready { OnOk result (IsReady state.new) }
{
    let octets = to.bytes().to_vec(state.alloc)?;
    let made = make_call(state, lines, transaction, registering(object.manner, to))?;
    keep_registered(state, lines, object, transaction, name, octets, &made.said)?;
    Ok(tell_made(lines, &made)?)
}

/// Whether that is so answered that the object is registered.
fn is_registered(manner: Manner, said: &Option<Said>) -> bool
    ensures { result ≡ was_registered manner said.now }
{
    match (manner, said) {
        (Manner::Aware, Some(Said::Plain)) => true,
        (Manner::Resource | Manner::Double, Some(Said::Made(_))) => true,
        _ => false,
    }
}

/// Where an object was registered, it is a resource of its end and has a name from now on, and is told.
fn keep_registered(
    state: &mut State,
    lines: &mut Vec<u8>,
    object: &Object,
    transaction: &ObjectKey,
    name: &Name,
    octets: Vec<u8>,
    said: &Option<Said>,
) -> Result<(), WorldFault>
    requires ready { IsReady state.old }
    requires free { world.thing_in (state.old).names.things name.now ≡ None }
    requires made { IsOfEnd object.now (shown state.old) }
    requires octets { octets.items ≡ objects.reference (object.now).end (object.now).key }
    ensures does { Does (comes_of (clients.registered (object.now).manner (object.now).key (object.now).end
        transaction.now name.now) said.now (shown state.old)) (shown state.new) lines.old.items lines.new.items result }
    ensures ready { OnOk result (IsReady state.new) }
{
    if !is_registered(object.manner, said) {
        return Ok(());
    }
    let transaction = state.names.transaction(transaction);
    make_resource(state, object);
    state.names.name_resource(name, &object.key, octets)?;
    Ok(tell_registered(lines, object, name, transaction)?)
}

/// Tells an object that was registered, where the transaction has a name.
fn tell_registered(
    lines: &mut Vec<u8>,
    object: &Object,
    name: &Name,
    transaction: Option<Name>,
) -> Result<(), AllocError>
    ensures { TellsOne (happenings.naming (clients.registered_line (object.now).manner name.now (object.now).end)
        transaction) lines.old.items lines.new.items result }
{
    let Some(transaction) = transaction else {
        return Ok(());
    };
    match object.manner {
        Manner::Aware => tell_aware(lines, *name, transaction, object.end),
        Manner::Resource | Manner::Double => tell_known(
            lines,
            Line::Reg {
                resource: *name,
                transaction,
                end: object.end,
            },
        ),
    }
}
