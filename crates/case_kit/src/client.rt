//! A client of a service: what it sends, and what the words are answered that come of it.
ghost use Rattle.std.specs.Prelude.{◌<◌, ◌^◌, IfOk};
ghost use Rattle.ots_calls.specs.Writing.{carried_length};

use crate::answers::answer_octets;
use crate::links::Replies;
use crate::requests::{call_octets, call_of_line, context_of_words, key_of_words, message_octets};
use crate::text::{front, known, number, octets_of};
use ior_refs::ObjectKey;
use ots_calls::{Bare, Call, Called};
use ots_context::Context;
use ots_model::RetryKey;
use ots_outside::Failure;
use std::alloc::Global;
use std::{io, mem};

/// What was asked: the line, and the call as whose answer the reply is read.
#[derive(Drop)]
pub struct Asked<'a> {
    /// The words for the object.
    pub to: &'a str,
    /// The line of the case.
    pub line: &'a str,
    /// The call.
    pub call: Call,
}

/// What goes to one session.
#[derive(Drop)]
pub struct Batch<'a> {
    /// What the client sends.
    pub input: Vec<u8>,
    /// What it asks, each under its place here as the request_id.
    pub asked: Vec<Asked<'a>>,
    /// What the words of the session are answered, in order.
    pub replies: Replies,
    /// Which writes to the client fail.
    pub failing: Vec<Failure>,
}

impl Batch<'_> {
    /// Nothing.
    pub fn new(alloc: Global) -> Batch<'static> {
        Batch {
            input: Vec::new(alloc),
            asked: Vec::new(alloc),
            replies: Replies::new(alloc),
            failing: Vec::new(alloc),
        }
    }
}

/// A client.
#[derive(Drop)]
pub struct Client<'a> {
    alloc: Global,
    /// The object that is asked, and the words for it.
    key: ObjectKey,
    to: &'a str,
    flags: u8,
    retry: Option<RetryKey>,
    /// The words for the transaction that calls belong to, if any.
    within: &'a str,
    batch: Batch<'a>,
}

impl<'a> Client<'a> {
    /// A client that has sent nothing. It asks this object, for a reply.
    pub fn new(alloc: Global, key: ObjectKey, to: &'a str) -> Client<'a> {
        Client {
            alloc,
            key,
            to,
            flags: 3,
            retry: None,
            within: "",
            batch: Batch::new(alloc),
        }
    }

    /// What it has sent since it was asked last.
    pub fn take(&mut self) -> Batch<'a> {
        mem::replace(&mut self.batch, Batch::new(self.alloc))
    }

    /// Carries out a line.
    pub fn play(&mut self, line: &'a str) -> io::Result<()> {
        let (word, rest) = front(line);
        match word {
            "to" => {
                self.key = key_of_words(self.alloc, rest)?;
                self.to = rest;
            }
            "within" => self.within = rest,
            "outside" => self.within = "",
            "flags" => self.flags = known(rest.parse().ok())?,
            "retry" => self.retry = Some(retry_key(number(rest)?)),
            "answer" => self.answer(rest)?,
            "deaf" => self.batch.failing.push(Failure {
                call: u64::from(number(rest)?),
                taken: 0,
            })?,
            "octets" => self.put(&octets_of(self.alloc, rest)?)?,
            "cut" => self.cut(number(rest)? as usize),
            "locate" | "raw" | "cancel" | "close" => self.send(line)?,
            _ => self.call(line)?,
        }
        Ok(())
    }

    /// The next word is answered so.
    fn answer(&mut self, words: &str) -> io::Result<()> {
        let (id, name) = front(words);
        match name {
            "lost" => self.batch.replies.lose(self.alloc)?,
            "starved" => self.batch.replies.starve()?,
            _ => {
                let octets = answer_octets(self.alloc, number(id)?, name)?;
                self.batch.replies.answer(octets)?;
            }
        }
        Ok(())
    }

    /// Sends these octets.
    fn put(&mut self, octets: &[u8]) -> io::Result<()> {
        self.batch.input.extend_from_slice(octets)?;
        Ok(())
    }

    /// The last octets don't come, so many.
    fn cut(&mut self, count: usize) {
        let left = self.batch.input.len().saturating_sub(count);
        self.batch.input.truncate(left);
    }

    /// Sends the message that a line is. A reply to it is read as one to `_non_existent`.
    fn send(&mut self, line: &'a str) -> io::Result<()> {
        let octets = message_octets(self.alloc, self.id()?, &self.key, self.flags, line)?;
        self.ask(line, Call::Bare(Bare::NonExistent), &octets)
    }

    /// Sends the call that a line is.
    fn call(&mut self, line: &'a str) -> io::Result<()> {
        let called = Called {
            key: self.key,
            call: call_of_line(self.alloc, self.key.kind, line)?,
            retry: self.retry.take(),
            context: self.context()?,
        };
        let octets = call_octets(self.alloc, self.id()?, self.flags, &called)?;
        self.ask(line, called.call, &octets)
    }

    /// The context of the transaction that calls belong to.
    fn context(&self) -> io::Result<Option<Context>>
        ensures { IfOk result (λ context. carried_length context < 2 ^ 31) }
    {
        if self.within == "" {
            return Ok(None);
        }
        Ok(Some(context_of_words(self.alloc, self.within)?))
    }

    /// The next request_id.
    fn id(&self) -> io::Result<u32> {
        known(u32::try_from(self.batch.asked.len()).ok())
    }

    /// Sends the octets of what a line asks.
    fn ask(&mut self, line: &'a str, call: Call, octets: &[u8]) -> io::Result<()> {
        let to = self.to;
        self.batch.asked.push(Asked { to, line, call })?;
        self.put(octets)
    }
}

/// The retry key of this number.
fn retry_key(number: u32) -> RetryKey {
    RetryKey {
        client: 7,
        number: u64::from(number),
    }
}
