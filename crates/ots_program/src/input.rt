ghost use Rattle.std.specs.Prelude.{◌≡◌, ℕ, List, Option, length, IfOk, OnErr, OnOk};
ghost use Rattle.ots_outside.specs.Source.{CountsWithin, GivesOf, HasRisen};
ghost use Rattle.ots_program.specs.Limits.{piece_limit};

use ots_outside::{Failed, Source};

/// How many octets are read at once.
pub const PIECE: usize = 8_192;

/// Where the octets of a script or of a stream come from. 8,192 are asked for at once.
pub trait Pieces {
    /// How often it has failed.
    ghost faults: { Self → ℕ };

    /// The octets that are left, where it tells them.
    ghost remaining: { Self → Option (List ℕ) };

    /// Reads a piece into the front of the room, which is for 8,192 octets, and says how many it has. 0 is the end.
    fn read_piece(&mut self, room: &mut [u8]) -> Result<usize, Failed>
        requires room { length room.old ≡ piece_limit }
        ensures count { CountsWithin result room.old }
        ensures octets { IfOk result (λ n.
            GivesOf (remaining self.old) (length room.old) n room.new (remaining self.new)) }
        ensures untouched { OnErr result (remaining self.new ≡ remaining self.old) }
        ensures cause { OnErr result (HasRisen (faults self.old) (faults self.new)) }
        ensures calm { OnOk result (faults self.new ≡ faults self.old) };
}

impl<S: Source> Pieces for S {
    ghost faults = { S.faults };

    ghost remaining = { S.remaining };

    fn read_piece(&mut self, room: &mut [u8]) -> Result<usize, Failed> {
        self.read(room)
    }
}
