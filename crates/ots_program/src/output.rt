ghost use Rattle.std.specs.Prelude.{◌≡◌, [], IfErr, OnErr, OnOk};
ghost use Rattle.ots_outside.specs.Sink.{Takes, TakesPart};
ghost use Rattle.ots_outside.specs.Source.{HasRisen};

use crate::status::Status;
use ots_outside::Sink;

/// Writes the output, where there is any, and empties it.
pub fn write_out<K: Sink>(output: &mut Vec<u8>, sink: &mut K) -> Result<(), Status>
    ensures whole { OnOk result (Takes (K.taken sink.old) output.old.items (K.taken sink.new)) }
    ensures part { OnErr result (TakesPart (K.taken sink.old) output.old.items (K.taken sink.new)) }
    ensures emptied { output.new.items ≡ [] }
    ensures fault { IfErr result (λ status. status ≡ Status.WriteFault) }
    ensures cause { OnErr result (HasRisen (K.faults sink.old) (K.faults sink.new)) }
    ensures calm { OnOk result (K.faults sink.new ≡ K.faults sink.old) }
{
    if output.is_empty() {
        return Ok(());
    }
    let written = sink.write(output.as_slice());
    output.clear();
    written.map_err(|_| Status::WriteFault)
}
