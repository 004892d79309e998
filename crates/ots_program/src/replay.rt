ghost use Rattle.std.specs.Prelude.{◌≡◌, ◌≢◌, ◌≤◌, [], length, Err, IfErr, OnOk};
ghost use Rattle.ots_outside.specs.Source.{HasRisen};
ghost use Rattle.ots_program.specs.Answers.{HasReadFault, HasWriteFault, IsDoneAtEnd, Replays};
ghost use Rattle.ots_program.specs.Limits.{piece_limit};
ghost use Rattle.ots_program.specs.PlayingInside.{left};
ghost use Rattle.ots_program.specs.ReplayInside.{BreaksOff, Halts, IsReady, PlaysPiece};

use crate::input::{PIECE, Pieces};
use crate::laws::worlds_agree;
use crate::output::write_out;
use crate::player::Player;
use crate::status::Status;
use ots_outside::Sink;
use std::alloc::Global;

/// Replays the script on the source, of which it reads at most 8,192 octets at once. Its lines go to the sink. Where the script
/// comes to its end the memory of its world isn't given back, which would cost time at the end of a program.
pub fn replay_script<P: Pieces, K: Sink>(alloc: Global, source: &mut P, sink: &mut K) -> Status
    ensures replays { Replays result (P.remaining source.old) (K.taken sink.old) (K.taken sink.new) }
    ensures end { IsDoneAtEnd result (P.remaining source.old) (P.remaining source.new) }
    ensures read_fault { HasReadFault result (P.faults source.old) (P.faults source.new) }
    ensures write_fault { HasWriteFault result (K.faults sink.old) (K.faults sink.new) }
{
    // The laws by which the lines are safe.
    worlds_agree();
    let mut player = Player::new(alloc);
    let mut room = [0; PIECE];
    loop {
        let Ok(count) = source.read_piece(&mut room) else {
            return Status::ReadFault;
        };
        if count == 0 {
            return finish(player, sink);
        }
        if let Err(status) = play(&mut player, &room[..count], sink) {
            return status;
        }
    }
}

/// Plays a piece of the script. The error is the status with which the replay breaks off.
fn play<K: Sink>(player: &mut Player, piece: &[u8], sink: &mut K) -> Result<(), Status>
    requires ready { IsReady player.old }
    requires few { length piece.now ≤ piece_limit }
    ensures plays { OnOk result (PlaysPiece player.old player.new piece.now (K.taken sink.old) (K.taken sink.new)) }
    ensures breaks_off { IfErr result (λ status.
        BreaksOff status player.old piece.now (K.taken sink.old) (K.taken sink.new)) }
    ensures write_fault { result ≡ Err Status.WriteFault → HasRisen (K.faults sink.old) (K.faults sink.new) }
    ensures calm { result ≢ Err Status.WriteFault → K.faults sink.new ≡ K.faults sink.old }
{
    let played = player.feed(piece);
    write_out(&mut player.output, sink)?;
    played?;
    Ok(())
}

/// Plays what stands behind the last line feed, and ends the replay.
fn finish<K: Sink>(player: Player, sink: &mut K) -> Status
    requires ready { IsReady player }
    ensures halts { Halts result (left player []) (K.taken sink.old) (K.taken sink.new) }
    ensures read { result ≢ Status.ReadFault }
    ensures write_fault { HasWriteFault result (K.faults sink.old) (K.faults sink.new) }
{
    let (mut output, ended) = player.finish();
    if let Err(status) = write_out(&mut output, sink) {
        return status;
    }
    match ended {
        Ok(()) => Status::Done,
        Err(stop) => stop.into(),
    }
}
