ghost use Rattle.std.specs.Prelude.{◌≡◌};

use crate::text::{front, letter, numbers};
use coordinator::{Act, Event};
use ior_refs::ObjectKey;
use ots_model::{CallNumber, RetryKey};
use recovery_coord::Outbox;
use std::alloc::Global;
use std::collections::VecDeque;
use std::io;

/// Whom calls go to, how they are made, and the words that wait for an answer.
#[derive(Drop)]
pub struct Client {
    /// The key of the object that is called.
    pub key: ObjectKey,
    /// The transaction of its family.
    branch: u32,
    /// The key of a call. It is used once.
    retry: Option<RetryKey>,
    /// How many such keys the client itself has made.
    keys: u64,
    /// The moment.
    pub now: u64,
    /// The words that go out.
    pub out: Outbox,
    /// The numbers of those that were told, and wait for an answer.
    pub waiting: VecDeque<CallNumber>,
    /// The keys of the families that were made in this life.
    families: Vec<ObjectKey>,
    /// The place of the one whose turn it is.
    turn: usize,
}

impl Client {
    /// One that calls no object that there is.
    pub fn new(alloc: Global) -> Client {
        let key = ObjectKey {
            kind: b'K',
            service: 1,
            life: 0,
            slot: 0,
            generation: 0,
            index: 0,
        };
        Client {
            key,
            branch: 0,
            retry: None,
            keys: 0,
            now: 0,
            out: Outbox::new(alloc),
            waiting: VecDeque::new(alloc),
            families: Vec::new(alloc),
            turn: 0,
        }
    }

    /// The next call of this client.
    pub fn event(&mut self, act: Act) -> Event
        ensures { result.act ≡ act }
    {
        Event {
            key: self.retry.take(),
            branch: self.branch,
            now: self.now,
            act,
        }
    }

    /// The number of a word of the family that is called.
    pub fn word(&self, serial: u32) -> CallNumber {
        CallNumber {
            life: self.key.life,
            slot: self.key.slot,
            generation: self.key.generation,
            serial,
        }
    }

    /// Calls go to this transaction, are made at this moment, or have this key, or go to an object of this service.
    pub fn set(&mut self, word: &str, number: u32) -> io::Result<()> {
        match word {
            "branch" => self.branch = number,
            "at" => self.now = u64::from(number),
            "retry" => self.retry = Some(retry_key(number)),
            _ => self.key.service = u64::from(number),
        }
        Ok(())
    }

    /// Calls go to another object of the same service.
    pub fn set_key(&mut self, alloc: Global, words: &str) -> io::Result<()> {
        let (kind, rest) = front(words);
        self.key.kind = letter(kind)?;
        let numbers = numbers(alloc, rest)?;
        if let [life, slot, generation, index] = numbers.as_slice() {
            self.key.life = *life;
            self.key.slot = *slot;
            self.key.generation = u64::from(*generation);
            self.key.index = *index;
        }
        Ok(())
    }

    /// The next call has a key that no call had before.
    pub fn set_new_retry(&mut self) -> io::Result<()> {
        self.keys = self.keys.saturating_add(1);
        self.retry = Some(RetryKey {
            client: 8,
            number: self.keys,
        });
        Ok(())
    }

    /// Calls go to the family with this key, which was made.
    pub fn begin(&mut self, key: ObjectKey) -> io::Result<()> {
        self.key = key;
        self.families.push(key)?;
        Ok(())
    }

    /// Calls go to the family whose turn it is.
    pub fn turn(&mut self) -> io::Result<()> {
        if self.turn >= self.families.len() {
            self.turn = 0;
        }
        if let Some(key) = self.families.get(self.turn) {
            self.key = *key;
            self.turn = self.turn.saturating_add(1);
        }
        Ok(())
    }
}

/// The key of a call.
pub fn retry_key(number: u32) -> RetryKey {
    RetryKey {
        client: 7,
        number: u64::from(number),
    }
}
