// The calls of a history, by their retry keys.
ghost use Rattle.std.specs.Prelude.{◌≡◌, ◌<◌, ◌≤◌, [], OnOk};
ghost use Rattle.std.specs.Option.{option_copied, option_map_or};
ghost use Rattle.family_step.specs.Callers.{AreAnswered, IsAdded, IsAnswered, IsKept, IsNoted, call_in, caller_key, key_at, meets};

use coordinator::{Entry, Finished};
use ots_model::RetryKey;
use std::alloc::{AllocError, Global};
use std::collections::HashMap;
use std::marker::Model;

/// A retry key, as a map finds it.
#[derive(Clone, Copy, PartialEq, Eq, Hash)]
pub(crate) struct CallerKey {
    client: u64,
    number: u64,
}

/// Where a call stands in a history.
#[derive(Clone, Copy)]
pub(crate) struct CallPlaces {
    /// The place of its entry.
    pub entry: u32,
    /// The place of the first entry that answers it, once there is one.
    pub answered: Option<u32>,
}

impl CallPlaces {
    /// The place of the first entry that answers it, which is its own where there is none.
    pub(crate) fn answering(self) -> u32
        ensures { result ≡ option_map_or (λ x. x) self.answered self.entry }
    {
        match self.answered {
            Some(place) => place,
            None => self.entry,
        }
    }

    /// The entry at a place answers the call at this position. A call keeps its first answer.
    fn meet(self, position: u32, place: u32) -> CallPlaces
        ensures { result ≡ meets position place self }
    {
        if self.entry == position {
            CallPlaces {
                entry: self.entry,
                answered: self.answered.or(Some(place)),
            }
        } else {
            self
        }
    }
}

/// For each retry key the place of the first entry with it, and of the first one that answers that. Contracts see the keys with these
/// places, and how many more fit.
#[derive(Drop)]
pub(crate) struct Callers {
    places: HashMap<CallerKey, CallPlaces>,
}

impl Model for Callers {
    ghost use Rattle.family_step.specs.Callers.{CallersParts};
    ghost use Rattle.std.specs.HashMap.{spare};

    ghost Value = { CallersParts };

    ghost view = { λ c. record { places = c.places.entries; room = spare c.places } };
}

impl Callers {
    /// No call has a key.
    pub(crate) fn new(alloc: Global) -> Callers
        ensures none { result.places ≡ [] }
    {
        Callers {
            places: HashMap::new(alloc),
        }
    }

    /// Takes memory for one more key.
    pub(crate) fn reserve(&mut self) -> Result<(), AllocError>
        ensures same { IsKept self.old.places self.new.places }
        ensures room { OnOk result (0 < self.new.room) }
        ensures kept { self.old.room ≤ self.new.room }
    {
        self.places.reserve(1)
    }

    /// Where the first call with a key stands.
    pub(crate) fn find(&self, key: &RetryKey) -> Option<CallPlaces>
        ensures { result ≡ call_in self.now.places key.now }
    {
        self.places.get(&caller_key(key)).copied()
    }

    /// The entry at a place, where there is one, has come to the history. It takes no memory.
    pub(crate) fn note(&mut self, entries: &[Entry], place: u32)
        requires room { 0 < self.old.room }
        ensures noted { IsNoted entries.now place self.old.places self.new.places }
    {
        if let Some(entry) = entries.get(place as usize) {
            self.note_answers(entries, entry.finished.items(), place);
            if let Some(key) = &entry.event.key {
                self.add(key, place);
            }
        }
    }

    /// The entry at a place has these answers.
    fn note_answers(&mut self, entries: &[Entry], answers: &[Finished], place: u32)
        ensures answered { AreAnswered entries.now answers.now place self.old.places self.new.places }
        ensures room { self.new.room ≡ self.old.room }
    {
        for answer in answers {
            self.note_answer(entries, answer.position, place);
        }
    }

    /// The entry at a place answers the call at this position.
    fn note_answer(&mut self, entries: &[Entry], position: u32, place: u32)
        ensures answered { IsAnswered entries.now position place self.old.places self.new.places }
        ensures room { self.new.room ≡ self.old.room }
    {
        if let Some(key) = key_at(entries, position) {
            if let Some(call) = self.places.get_mut(&caller_key(key)) {
                *call = call.meet(position, place);
            }
        }
    }

    /// A key has this place from now on, where it has none yet.
    fn add(&mut self, key: &RetryKey, place: u32)
        requires room { 0 < self.old.room }
        ensures added { IsAdded key.now place self.old.places self.new.places }
    {
        if self.find(key).is_none() {
            let call = CallPlaces {
                entry: place,
                answered: None,
            };
            let _ = self.places.insert(caller_key(key), call);
        }
    }
}

/// The key of the entry at a place, where it has one.
fn key_at(entries: &[Entry], place: u32) -> Option<&RetryKey>
    ensures { option_copied result ≡ key_at entries.now place }
{
    match entries.get(place as usize) {
        Some(entry) => entry.event.key.as_ref(),
        None => None,
    }
}

/// As a map finds it.
fn caller_key(key: &RetryKey) -> CallerKey
    ensures { result ≡ caller_key key.now }
{
    CallerKey {
        client: key.client,
        number: key.number,
    }
}
