ghost use Rattle.std.specs.Prelude.{◌≡◌, ◌∷◌, ◌++◌, length, take, map, codes, OnErr, OnOk};
ghost use Rattle.std.specs.List.{flat_map};
ghost use Rattle.std.specs.Fmt.{decimal};
ghost use Rattle.ots_program.specs.MessageLine.{behind_fields, contexts_word, key_word, message_line, order_word, shown, shown_reply, shown_request, sized, visible};
ghost use Rattle.ots_program.specs.MessageLineInside.{Adds, KeepsFront};

use cdr_values::Order;
use giop_frames::{Message, Reply, Request, ServiceContext, Target};
use giop_streams::Framed;
use itoa::Buffer;
use std::alloc::{AllocError, Global};

/// Writes the line of a message at the end. Want of memory leaves what stood there.
pub fn write_message_line(
    alloc: Global,
    lines: &mut Vec<u8>,
    framed: &Framed,
) -> Result<(), AllocError>
    ensures ok { Adds result lines.old.items lines.new.items (message_line framed.now) }
    ensures err { OnErr result (lines.new.items ≡ lines.old.items) }
{
    let start = lines.len();
    let written = write_line(alloc, lines, framed);
    if written.is_err() {
        lines.truncate(start);
    }
    written
}

#[tactic(auto, unfolding(crate::specs::MessageLine::message_line))]
fn write_line(alloc: Global, lines: &mut Vec<u8>, framed: &Framed) -> Result<(), AllocError>
    ensures ok { Adds result lines.old.items lines.new.items (message_line framed.now) }
    ensures front { KeepsFront result lines.old.items lines.new.items }
{
    write_number(lines, framed.place)?;
    write_message(alloc, lines, framed)
}

fn write_message(alloc: Global, lines: &mut Vec<u8>, framed: &Framed) -> Result<(), AllocError>
    ensures ok { Adds result lines.old.items lines.new.items
        (shown framed.now.order framed.now.size framed.now.message) }
    ensures front { KeepsFront result lines.old.items lines.new.items }
{
    match &framed.message {
        Message::Request(request) => write_request(alloc, lines, framed.order, request),
        Message::Reply(reply) => write_reply(lines, framed.order, reply),
        Message::Cancel(_) => write_sized(lines, b" cancel ", framed.order, framed.size),
        Message::Locate(_) => write_sized(lines, b" locate ", framed.order, framed.size),
        Message::LocateReply(_) => write_sized(lines, b" located ", framed.order, framed.size),
        Message::Close => write_sized(lines, b" close ", framed.order, framed.size),
        Message::Error => write_sized(lines, b" error ", framed.order, framed.size),
    }
}

fn write_request(
    alloc: Global,
    lines: &mut Vec<u8>,
    order: Order,
    request: &Request,
) -> Result<(), AllocError>
    ensures ok { Adds result lines.old.items lines.new.items (shown_request order request.now) }
    ensures front { KeepsFront result lines.old.items lines.new.items }
{
    write_order(lines, b" request ", order)?;
    write_field(lines, b" id ", u64::from(request.id))?;
    write_operation(lines, request.operation.bytes())?;
    write_key(alloc, lines, &request.target)?;
    write_behind_fields(lines, request.contexts.items(), request.body.bytes())
}

fn write_reply(lines: &mut Vec<u8>, order: Order, reply: &Reply) -> Result<(), AllocError>
    ensures ok { Adds result lines.old.items lines.new.items (shown_reply order reply.now) }
    ensures front { KeepsFront result lines.old.items lines.new.items }
{
    write_order(lines, b" reply ", order)?;
    write_field(lines, b" id ", u64::from(reply.id))?;
    write_field(lines, b" status ", u64::from(reply.status))?;
    write_behind_fields(lines, reply.contexts.items(), reply.body.bytes())
}

/// Writes the name, the order and the size of a message of which no more is shown.
fn write_sized(lines: &mut Vec<u8>, name: &[u8], order: Order, size: u32) -> Result<(), AllocError>
    ensures ok { Adds result lines.old.items lines.new.items (sized name.now order size) }
    ensures front { KeepsFront result lines.old.items lines.new.items }
{
    write_order(lines, name, order)?;
    write_field(lines, b" size ", u64::from(size))?;
    lines.push(b'\n')?;
    Ok(())
}

fn write_order(lines: &mut Vec<u8>, name: &[u8], order: Order) -> Result<(), AllocError>
    ensures ok { Adds result lines.old.items lines.new.items (name.now ++ order_word order) }
    ensures front { KeepsFront result lines.old.items lines.new.items }
{
    lines.extend_from_slice(name)?;
    match order {
        Order::Big => lines.extend_from_slice(b"big"),
        Order::Little => lines.extend_from_slice(b"little"),
    }
}

fn write_operation(lines: &mut Vec<u8>, operation: &[u8]) -> Result<(), AllocError>
    ensures ok { Adds result lines.old.items lines.new.items (codes " op " ++ map visible operation.now) }
    ensures front { KeepsFront result lines.old.items lines.new.items }
{
    lines.extend_from_slice(b" op ")?;
    for octet in operation {
        lines.push(visible_octet(*octet))?;
    }
    Ok(())
}

/// The octet where it is a visible character of ASCII, else a question mark.
fn visible_octet(octet: u8) -> u8
    ensures { result ≡ visible octet }
{
    match octet {
        b'!'..=b'~' => octet,
        _ => b'?',
    }
}

fn write_key(alloc: Global, lines: &mut Vec<u8>, target: &Target) -> Result<(), AllocError>
    ensures ok { Adds result lines.old.items lines.new.items (codes " key " ++ key_word target.now) }
    ensures front { KeepsFront result lines.old.items lines.new.items }
{
    lines.extend_from_slice(b" key ")?;
    match target {
        Target::Key(key) => {
            let digits = hex::encode(alloc, key.bytes())?;
            lines.extend_from_slice(digits.as_bytes())
        }
        Target::Profile | Target::Reference => lines.extend_from_slice(b"-"),
    }
}

/// Writes the end of a line: the contexts and the length of the body.
fn write_behind_fields(
    lines: &mut Vec<u8>,
    contexts: &[ServiceContext],
    body: &[u8],
) -> Result<(), AllocError>
    ensures ok { Adds result lines.old.items lines.new.items (behind_fields contexts.now body.now) }
    ensures front { KeepsFront result lines.old.items lines.new.items }
{
    write_contexts(lines, contexts)?;
    write_field(lines, b" body ", body.len() as u64)?;
    lines.push(b'\n')?;
    Ok(())
}

fn write_contexts(lines: &mut Vec<u8>, contexts: &[ServiceContext]) -> Result<(), AllocError>
    ensures ok { Adds result lines.old.items lines.new.items (codes " contexts " ++ contexts_word contexts.now) }
    ensures front { KeepsFront result lines.old.items lines.new.items }
{
    match contexts {
        [] => lines.extend_from_slice(b" contexts -"),
        [first, others @ ..] => {
            write_field(lines, b" contexts ", u64::from(first.id))?;
            write_other_ids(lines, others)
        }
    }
}

/// Writes the ids of the contexts that stand behind the first, with a comma before each.
fn write_other_ids(lines: &mut Vec<u8>, contexts: &[ServiceContext]) -> Result<(), AllocError>
    ensures ok { Adds result lines.old.items lines.new.items (flat_map (λ c. 44 ∷ decimal c.id) contexts.now) }
    ensures front { KeepsFront result lines.old.items lines.new.items }
{
    for context in contexts {
        write_field(lines, b",", u64::from(context.id))?;
    }
    Ok(())
}

/// Writes a name and a number.
fn write_field(lines: &mut Vec<u8>, name: &[u8], value: u64) -> Result<(), AllocError>
    ensures ok { Adds result lines.old.items lines.new.items (name.now ++ decimal value) }
    ensures front { KeepsFront result lines.old.items lines.new.items }
{
    lines.extend_from_slice(name)?;
    write_number(lines, value)
}

fn write_number(lines: &mut Vec<u8>, value: u64) -> Result<(), AllocError>
    ensures ok { Adds result lines.old.items lines.new.items (decimal value) }
    ensures same { OnErr result (lines.new.items ≡ lines.old.items) }
{
    let mut buffer = Buffer::new();
    lines.extend_from_slice(buffer.format(value).as_bytes())
}
