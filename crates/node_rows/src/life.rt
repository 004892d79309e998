//! The commands to a node. Each is one of these:
//!
//! - `branch B`: calls go to this transaction of the family. `at T`: the moment. `retry N`: the next call has this key.
//!   `anew`: it has a key that none had before.
//! - `key KIND LIFE SLOT GENERATION INDEX`: calls go to the object with this key; `service N`: and of this service.
//! - `create SECONDS`: a family begins, and calls go to its top-level transaction. `next`: calls go to the family whose
//!   turn it is, of all that were made.
//! - `tick`: the clock of the node goes on.
//! - `hear HEARD`: the word that has waited longest is answered so.
//! - `answer SERIAL HEARD`: the word of the family with this number is.
//! - `records`: what is held and what stands. `kept N`: what the family has answered the call with this
//!   key, and which entry of its history answers it. `object`: whether there is what the key names. `context`: what a
//!   request says that belongs to the transaction which the key names.
//! - `times N COMMAND, ..`: these commands, as often, but once at least. Of their calls the last ones are told; none of
//!   the others may be refused by the node.
//! - `timed N COMMAND, ..`: the same. Standard error tells how many nanoseconds they took.
//! - Each other is a call, as `acts` says.

use crate::acts::{act_of, heard_of};
use crate::client::{Client, retry_key};
use crate::node_calls::{MemNode, apply, context, create, tick};
use crate::tell::{
    tell_answered, tell_context, tell_kept, tell_made, tell_object, tell_phase, tell_records,
    tell_ticked, tell_word,
};
use crate::text::{front, number, pieces};
use coordinator::{Act, NodeFault, StepAnswer};
use ots_model::tree::Outward;
use std::io;
use std::io::{ErrorKind, Write};
use std::time::Instant;

/// Whoever calls a node in one of its lives, and what was told.
#[derive(Drop)]
pub struct Life<'a> {
    rt: &'a HostRuntime,
    client: Client,
    /// What was told.
    pub told: Vec<u8>,
    /// Whether nothing is told for now.
    is_quiet: bool,
}

impl<'a> Life<'a> {
    /// Nothing was called or told.
    pub fn new(rt: &'a HostRuntime) -> Life<'a> {
        Life {
            rt,
            client: Client::new(rt.alloc()),
            told: Vec::new(rt.alloc()),
            is_quiet: false,
        }
    }

    /// Tells a line, and carries out its commands.
    pub fn play(&mut self, node: &mut MemNode, between: &str, line: &str) -> io::Result<()> {
        write!(self.told, "{between}{line}:")?;
        let commands = pieces(self.rt.alloc(), line, "; ")?;
        for command in commands.as_slice() {
            self.play_command(node, command)?;
        }
        Ok(())
    }

    fn play_command(&mut self, node: &mut MemNode, command: &str) -> io::Result<()> {
        match command.split_once(' ') {
            Some(("times", rest)) => self.repeat(node, rest),
            Some(("timed", rest)) => self.time(node, rest),
            _ => self.carry_out(node, command),
        }
    }

    /// Carries out commands as often as the number in front of them says, and tells how long that took.
    fn time(&mut self, node: &mut MemNode, words: &str) -> io::Result<()> {
        let start = Instant::now(self.rt)?;
        self.repeat(node, words)?;
        let took = start.elapsed(self.rt)?.as_nanos();
        writeln!(self.rt.stderr(), "{took}")
    }

    /// Carries out commands as often as the number in front of them says, but once at least, and tells their last calls.
    fn repeat(&mut self, node: &mut MemNode, words: &str) -> io::Result<()> {
        let (count, commands) = front(words);
        let commands = pieces(self.rt.alloc(), commands, ", ")?;
        self.is_quiet = true;
        for _ in 1..number(count)? {
            self.carry_out_all(node, commands.as_slice())?;
        }
        self.is_quiet = false;
        self.carry_out_all(node, commands.as_slice())
    }

    fn carry_out_all(&mut self, node: &mut MemNode, commands: &[&str]) -> io::Result<()> {
        for command in commands {
            self.carry_out(node, command)?;
        }
        Ok(())
    }

    /// Carries out a command, and tells its answer.
    fn carry_out(&mut self, node: &mut MemNode, command: &str) -> io::Result<()> {
        let (word, rest) = front(command);
        match word {
            "next" => self.client.turn(),
            "anew" => self.client.set_new_retry(),
            "key" => self.client.set_key(self.rt.alloc(), rest),
            "branch" | "at" | "retry" | "service" => self.client.set(word, number(rest)?),
            _ => self.call(node, word, rest),
        }
    }

    /// Makes a call, and tells its answer.
    fn call(&mut self, node: &mut MemNode, word: &str, rest: &str) -> io::Result<()> {
        match word {
            "create" => self.create(node, number(rest)?),
            "tick" => self.tick(node),
            "hear" => self.hear(node, rest),
            "answer" => self.answer(node, rest),
            "records" => tell_records(node, &mut self.told),
            "kept" => tell_kept(
                node,
                &self.client.key,
                &retry_key(number(rest)?),
                &mut self.told,
            ),
            "object" => tell_object(node, &self.client.key, &mut self.told),
            "context" => {
                let context = context(self.rt.alloc(), node, &self.client)?;
                tell_context(&context, &mut self.told)
            }
            _ => self.apply(node, act_of(self.rt.alloc(), word, rest)?),
        }
    }

    /// A family begins.
    fn create(&mut self, node: &mut MemNode, seconds: u32) -> io::Result<()> {
        let made = create(node, self.client.now, seconds);
        if let Ok(key) = made {
            self.client.begin(key)?;
        }
        if self.is_quiet {
            return only_if(made.is_ok());
        }
        tell_made(&made, &mut self.told)
    }

    /// The clock of the node goes on.
    fn tick(&mut self, node: &mut MemNode) -> io::Result<()> {
        let ticked = tick(node, self.client.now, &mut self.client.out);
        if self.is_quiet {
            only_if(ticked.is_ok())?;
        } else {
            tell_ticked(&ticked, &mut self.told)?;
        }
        self.tell_words()
    }

    /// The word that has waited longest is answered.
    fn hear(&mut self, node: &mut MemNode, heard: &str) -> io::Result<()> {
        match self.client.waiting.pop_front() {
            Some(of) => self.apply(node, Act::Answer(of, heard_of(self.rt.alloc(), heard))),
            None => write!(self.told, " no word"),
        }
    }

    /// The word of the family with this number is answered.
    fn answer(&mut self, node: &mut MemNode, words: &str) -> io::Result<()> {
        let (serial, heard) = front(words);
        let of = self.client.word(number(serial)?);
        self.apply(node, Act::Answer(of, heard_of(self.rt.alloc(), heard)))
    }

    /// Makes a call on an object, and tells its answer, the words that go out and the phase.
    fn apply(&mut self, node: &mut MemNode, act: Act) -> io::Result<()> {
        match apply(node, &mut self.client, act) {
            Some(answer) => self.tell_answer(node, &answer),
            None => Err(ErrorKind::InvalidInput.into()),
        }
    }

    fn tell_answer(
        &mut self,
        node: &MemNode,
        answer: &Result<StepAnswer, NodeFault>,
    ) -> io::Result<()> {
        if self.is_quiet {
            only_if(answer.is_ok())?;
            return self.tell_words();
        }
        tell_answered(answer, &mut self.told)?;
        self.tell_words()?;
        tell_phase(node, &self.client.key, &mut self.told)
    }

    /// Tells the words that go out, which then wait for their answers.
    fn tell_words(&mut self) -> io::Result<()> {
        for _ in 0..u32::MAX {
            match self.client.out.take() {
                Some(outward) => self.tell_word(&outward)?,
                None => break,
            }
        }
        Ok(())
    }

    /// Tells a word, which then waits for its answer.
    fn tell_word(&mut self, outward: &Outward) -> io::Result<()> {
        if !self.is_quiet {
            tell_word(outward, &mut self.told)?;
        }
        self.client.waiting.push_back(outward.number)?;
        Ok(())
    }
}

/// Refuses where a call was refused that isn't told.
fn only_if(is_ok: bool) -> io::Result<()> {
    if is_ok {
        Ok(())
    } else {
        Err(ErrorKind::Other.into())
    }
}
