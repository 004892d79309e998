ghost use Rattle.std.specs.Prelude.{◌≡◌, ◌≢◌, ◌≤◌, ◌++◌, [], length, None, Err, IfErr, OnErr, OnOk};
ghost use Rattle.giop_streams.specs.Stream.{part_at};
ghost use Rattle.giop_streams.specs.Held.{place_of};
ghost use Rattle.ots_outside.specs.Source.{HasRisen};
ghost use Rattle.ots_program.specs.Answers.{HasReadFault, HasWriteFault, IsDoneAtEnd};
ghost use Rattle.ots_program.specs.Show.{Shows};
ghost use Rattle.ots_program.specs.ShowInside.{BrokeOff, EndsStream, TellsBreak, TellsPiece, TookPiece, status_by};
ghost use Rattle.ots_program.specs.Limits.{piece_limit};
ghost use Rattle.ots_program.specs.MessageLine.{message_line};
ghost use Rattle.ots_program.specs.MessageLineInside.{Adds};

use crate::input::{PIECE, Pieces};
use crate::message_line::write_message_line;
use crate::output::write_out;
use crate::status::Status;
use giop_frames::FrameFault;
use giop_streams::{Framed, Stream, a_refusal_stays};
use ots_outside::Sink;
use std::alloc::Global;
use std::sync::Wait;

/// Writes a line for each message of the source, of which it reads at most 8,192 octets at once.
pub fn show_messages<R: Wait, P: Pieces, K: Sink>(
    rt: &R,
    alloc: Global,
    source: &mut P,
    sink: &mut K,
) -> Status
    ensures shows { Shows result (P.remaining source.old) (K.taken sink.old) (K.taken sink.new) }
    ensures end { IsDoneAtEnd result (P.remaining source.old) (P.remaining source.new) }
    ensures read_fault { HasReadFault result (P.faults source.old) (P.faults source.new) }
    ensures write_fault { HasWriteFault result (K.faults sink.old) (K.faults sink.new) }
{
    // The law by which what is refused in a piece is refused in the whole.
    a_refusal_stays();
    let mut stream = Stream::new(alloc);
    let mut room = [0; PIECE];
    for _ in rt.forever() {
        let Ok(count) = source.read_piece(&mut room) else {
            return Status::ReadFault;
        };
        if count == 0 {
            return end(&stream);
        }
        if let Err(status) = show_piece(alloc, &mut stream, &room[..count], sink) {
            return status;
        }
    }
    unreachable!()
}

/// Takes a piece of the stream, and writes the lines of the messages that are whole now.
fn show_piece<K: Sink>(
    alloc: Global,
    stream: &mut Stream,
    piece: &[u8],
    sink: &mut K,
) -> Result<(), Status>
    requires accepts { stream.old.refused ≡ None }
    requires few { length piece.now ≤ piece_limit }
    ensures took { OnOk result
        (TookPiece stream.old stream.new piece.now (K.taken sink.old) (K.taken sink.new)) }
    ensures broken { IfErr result (λ status.
        BrokeOff status stream.old piece.now (K.taken sink.old) (K.taken sink.new)) }
    ensures write_fault { result ≡ Err Status.WriteFault → HasRisen (K.faults sink.old) (K.faults sink.new) }
    ensures calm { result ≢ Err Status.WriteFault → K.faults sink.new ≡ K.faults sink.old }
{
    let mut lines = Vec::new(alloc);
    let taken = take_piece(alloc, stream, piece, &mut lines);
    write_out(&mut lines, sink)?;
    taken
}

/// Takes a piece of the stream, and tells the lines of the messages that are whole now.
fn take_piece(
    alloc: Global,
    stream: &mut Stream,
    piece: &[u8],
    lines: &mut Vec<u8>,
) -> Result<(), Status>
    requires accepts { stream.old.refused ≡ None }
    requires lines { lines.old.items ≡ [] }
    ensures took { OnOk result (TellsPiece stream.old stream.new piece.now lines.new.items) }
    ensures broken { IfErr result (λ status. TellsBreak status stream.old piece.now lines.new.items) }
{
    if let Err(fault) = stream.feed(piece) {
        return Err(refusal(stream, fault));
    }
    loop {
        match stream.next_framed() {
            Ok(Some(framed)) => tell(alloc, lines, framed)?,
            Ok(None) => return Ok(()),
            Err(fault) => return Err(refusal(stream, fault)),
        }
    }
}

/// Tells the line of a message.
fn tell(alloc: Global, lines: &mut Vec<u8>, framed: Framed) -> Result<(), Status>
    ensures ok { Adds result lines.old.items lines.new.items (message_line framed) }
    ensures err { OnErr result (lines.new.items ≡ lines.old.items) }
    ensures memory { IfErr result (λ status. status ≡ Status.Memory) }
{
    write_message_line(alloc, lines, &framed)?;
    Ok(())
}

/// The status for a refusal of the stream.
fn refusal(stream: &Stream, fault: FrameFault) -> Status
    ensures { result ≡ status_by (place_of stream.now) fault }
{
    match fault {
        FrameFault::Memory => Status::Memory,
        fault => Status::BadMessage(stream.place(), fault),
    }
}

/// The stream has come to its end.
fn end(stream: &Stream) -> Status
    requires accepts { stream.now.refused ≡ None }
    requires partial { part_at stream.now.versions stream.now.rest ≡ Err FrameFault.Short }
    ensures { EndsStream result stream.now }
{
    if stream.unfinished() {
        return Status::BadMessage(stream.place(), FrameFault::Short);
    }
    Status::Done
}
