ghost use Rattle.std.specs.Prelude.{◌≡◌, ◌==◌, ℕ, ◌+◌, ◌<◌, ◌≤◌, List, [], ◌∷◌, ◌++◌, length, drop, IfErr, Ok, OnErr, OnOk};
ghost use Rattle.std.specs.List.{position};
ghost use Rattle.nodes_state.specs.Telling.{Tells, TellsPart};
ghost use Rattle.nodes_world.specs.Lives.{last_lines};
ghost use Rattle.ots_program.specs.PlayingInside.{world_of};

use crate::limits::{LINES_LIMIT, OCTETS_LIMIT};
use nodes_replay::World;
use ots_world::{ScriptFault, WorldFault, parse_line};
use std::alloc::{AllocError, AllocFailed, Global};
use std::mem::{forget, replace};

/// Why a replay stops.
#[derive(Clone, Copy)]
pub enum Stop {
    /// That line is refused.
    Script(u64),
    /// At that line a count would pass this limit.
    Limit(u64, u64),
    /// Memory ran out.
    Memory,
}

impl Stop {
    ghost use Rattle.ots_program.specs.PlayingInside.{stop_by};

    /// The stop at this line, which the world refuses.
    fn by_world(fault: WorldFault, line: u64) -> Stop
        ensures { result ≡ stop_by fault line }
    {
        match fault {
            WorldFault::Names => Stop::Script(line),
            WorldFault::Limit(limit) => Stop::Limit(line, limit),
            WorldFault::Memory => Stop::Memory,
        }
    }
}

impl From<AllocError> for Stop {
    ghost use Rattle.ots_program.specs.declared.player.Stop.TheVariants.{Memory};

    ghost from_gives = { λ _ stop. stop ≡ Memory };

    fn from(_error: AllocError) -> Stop {
        Stop::Memory
    }
}

impl<T: Drop> From<AllocFailed<T>> for Stop {
    ghost use Rattle.ots_program.specs.declared.player.Stop.TheVariants.{Memory};

    ghost from_gives = { λ _ stop. stop ≡ Memory };

    fn from(_error: AllocFailed<T>) -> Stop {
        Stop::Memory
    }
}

/// A replay under way.
#[derive(Drop)]
pub struct Player {
    pub alloc: Global,
    pub world: World,
    /// What has come of the next line in the pieces so far.
    pub line: Vec<u8>,
    /// How many lines were read.
    pub lines: u64,
    /// How many octets were read before the next line.
    pub octets: u64,
    /// The lines told and not written yet.
    pub output: Vec<u8>,
}

impl Player {
    ghost use Rattle.ots_world.specs.Script.{reading};
    ghost use Rattle.ots_program.specs.Limits.{lines_limit, octets_limit};
    ghost use Rattle.ots_program.specs.PlayingInside.{Ends, IsEmptied, IsFed, IsOneLine, Passes, Plays, StopsAt, StopsIn, Turns, left, place_of, row_of};
    ghost use Rattle.ots_program.specs.Replay.{completed, replay, size, turn, turn_of};

    /// A replay at the start of its script.
    pub fn new(alloc: Global) -> Player
        ensures plays { Plays result }
        ensures left { (octets : List ℕ) → left result octets ≡ replay octets }
        ensures output { result.output.items ≡ [] }
    {
        Player {
            alloc,
            world: World::new(alloc),
            line: Vec::new(alloc),
            lines: 0,
            octets: 0,
            output: Vec::new(alloc),
        }
    }

    /// These octets of the script have come.
    pub fn feed(&mut self, piece: &[u8]) -> Result<(), Stop>
        requires plays { Plays self.old }
        ensures fed { OnOk result (IsFed self.old self.new piece.now) }
        ensures stops { IfErr result (λ stop. StopsIn stop self.old self.new piece.now) }
    {
        let mut rest = piece;
        while let Some(end) = line_end(rest) {
            self.take_front(&rest[..end])?;
            rest = behind(end, rest);
        }
        self.take_part(rest)
    }

    /// What is left of the next line has come, and its line feed. Where that is all of the line, it isn't copied.
    fn take_front(&mut self, octets: &[u8]) -> Result<(), Stop>
        requires plays { Plays self.old }
        requires one_line { IsOneLine octets.now }
        ensures fed { OnOk result (IsFed self.old self.new (octets.now ++ 10 ∷ [])) }
        ensures stops { IfErr result (λ stop. StopsIn stop self.old self.new (octets.now ++ 10 ∷ [])) }
    {
        if self.line.is_empty() {
            return self.take_whole(octets);
        }
        self.take_part(octets)?;
        let line = self.take_out();
        self.take_whole(line.as_slice())
    }

    /// Octets of the next line have come.
    fn take_part(&mut self, octets: &[u8]) -> Result<(), Stop>
        requires plays { Plays self.old }
        requires one_line { IsOneLine octets.now }
        ensures fed { OnOk result (IsFed self.old self.new octets.now) }
        ensures stops { IfErr result (λ stop. StopsIn stop self.old self.new octets.now) }
    {
        if octets.is_empty() {
            return Ok(());
        }
        if self.lines >= LINES_LIMIT {
            return Err(Stop::Limit(self.lines + 1, LINES_LIMIT));
        }
        if octets.len() as u64 > OCTETS_LIMIT - self.octets - self.line.len() as u64 {
            return Err(Stop::Limit(self.lines + 1, OCTETS_LIMIT));
        }
        self.line.extend_from_slice(octets)?;
        Ok(())
    }

    /// Gives what has come of the next line. Then nothing has.
    fn take_out(&mut self) -> Vec<u8>
        requires plays { Plays self.old }
        ensures line { result ≡ self.old.line }
        ensures emptied { IsEmptied self.old self.new }
        ensures plays { Plays self.new }
    {
        replace(&mut self.line, Vec::new(self.alloc))
    }

    /// A line has come, and its line feed.
    fn take_whole(&mut self, text: &[u8]) -> Result<(), Stop>
        requires plays { Plays self.old }
        requires none { self.old.line.items ≡ [] }
        requires one_line { IsOneLine text.now }
        ensures fed { OnOk result (IsFed self.old self.new (text.now ++ 10 ∷ [])) }
        ensures stops { IfErr result (λ stop. StopsIn stop self.old self.new (text.now ++ 10 ∷ [])) }
    {
        if self.lines >= LINES_LIMIT {
            return Err(Stop::Limit(self.lines + 1, LINES_LIMIT));
        }
        if text.len() as u64 >= OCTETS_LIMIT - self.octets {
            return Err(Stop::Limit(self.lines + 1, OCTETS_LIMIT));
        }
        self.take_line(text, true)
    }

    /// The script has ended, and its last line may lack its line feed; then the journals are told. Answers the lines that
    /// are not written yet, and how the replay ended.
    pub fn finish(mut self) -> (Vec<u8>, Result<(), Stop>)
        requires plays { Plays self }
        ensures ends { OnOk result.1 (Ends (left self []) self.output.items result.0.items) }
        ensures stops { IfErr result.1 (λ stop. StopsAt stop (left self []) self.output.items result.0.items) }
    {
        if let Err(stop) = self.end() {
            return (self.output, Err(stop));
        }
        let Player {
            world,
            mut output,
            ..
        } = self;
        let told = tell_journals(world, &mut output);
        (output, told)
    }

    /// The last line may be there without its line feed.
    fn end(&mut self) -> Result<(), Stop>
        requires plays { Plays self.old }
        ensures stands { OnOk result (self.new.world ≡ Ok (world_of self.new.world)) }
        ensures passes { OnOk result (Passes (left self.old []) (completed (world_of self.new.world))
            self.old.output.items self.new.output.items) }
        ensures stops { IfErr result (λ stop.
            StopsAt stop (left self.old []) self.old.output.items self.new.output.items) }
    {
        if self.line.is_empty() {
            return Ok(());
        }
        let line = self.take_out();
        self.take_line(line.as_slice(), false)
    }

    /// A line is whole, with its line feed or without.
    fn take_line(&mut self, text: &[u8], ended: bool) -> Result<(), Stop>
        requires plays { Plays self.old }
        requires lines { self.old.lines < lines_limit }
        requires octets { self.old.octets + size (row_of text.now ended) ≤ octets_limit }
        ensures turned { Turns result (turn (place_of self.old) (row_of text.now ended))
            self.new.world self.old.output.items self.new.output.items }
        ensures line { self.new.line ≡ self.old.line }
        ensures counted { OnOk result (self.new.lines ≡ self.old.lines + 1) }
        ensures measured { OnOk result (self.new.octets ≡ self.old.octets + size (row_of text.now ended)) }
    {
        self.carry_out(text)?;
        self.lines += 1;
        self.octets += text.len() as u64 + u64::from(ended);
        Ok(())
    }

    /// What a line says is carried out.
    fn carry_out(&mut self, text: &[u8]) -> Result<(), Stop>
        requires plays { Plays self.old }
        requires lines { self.old.lines < lines_limit }
        ensures turned { Turns result (turn_of (place_of self.old) (reading text.now))
            self.new.world self.old.output.items self.new.output.items }
        ensures line { self.new.line ≡ self.old.line }
        ensures lines { self.new.lines ≡ self.old.lines }
        ensures octets { self.new.octets ≡ self.old.octets }
    {
        match parse_line(self.alloc, text) {
            Ok(Some(event)) => match self.world.step(&event, &mut self.output) {
                Ok(()) => Ok(()),
                Err(fault) => Err(Stop::by_world(fault, self.lines + 1)),
            },
            Ok(None) => Ok(()),
            Err(ScriptFault::BadLine) => Err(Stop::Script(self.lines + 1)),
            Err(ScriptFault::Memory) => Err(Stop::Memory),
        }
    }
}

/// The octets behind the one at this place.
fn behind(place: usize, octets: &[u8]) -> &[u8]
    requires { place < length octets.now }
    ensures { result.now ≡ drop (place + 1) octets.now }
{
    &octets[place + 1..]
}

/// Where the first line feed stands.
fn line_end(octets: &[u8]) -> Option<usize>
    ensures { result ≡ position (λ octet. octet == 10) octets.now }
{
    octets.iter().position(|octet| *octet == b'\n')
}

/// The journals of the world are told, behind the last line of its script. Memory may run out. The world isn't taken
/// apart, which would cost time at the end of a program: where the process goes on, its memory isn't given back.
fn tell_journals(world: World, output: &mut Vec<u8>) -> Result<(), Stop>
    requires stands { world ≡ Ok (world_of world) }
    ensures told { OnOk result (Tells (last_lines (world_of world)) output.old.items output.new.items) }
    ensures memory { IfErr result (λ stop. stop ≡ Stop.Memory) }
    ensures part { OnErr result (TellsPart (last_lines (world_of world)) output.old.items output.new.items) }
{
    let told = world.tell_end(output);
    forget(world);
    match told {
        Ok(()) => Ok(()),
        Err(WorldFault::Memory) => Err(Stop::Memory),
        // A world that stands is refused here for nothing else.
        Err(WorldFault::Names | WorldFault::Limit(_)) => unreachable!(),
    }
}
