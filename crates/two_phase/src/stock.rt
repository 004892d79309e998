// Memory that was taken before the completion of a tree starts.
ghost use Rattle.std.specs.Prelude.{◌≡◌, ◌+◌, ◌≤◌, ◌++◌, length, map, min, IsOk, OnOk, OnErr, vec_len, vec_capacity};
ghost use Rattle.ots_model.specs.Limits.{reference_limit};
ghost use Rattle.two_phase.specs.Parties.{party_of};
ghost use Rattle.two_phase.specs.Stages.{HoldsFor, longest, no_room, widened};
ghost use Rattle.two_phase.specs.StockInside.{AreRoomy};

use crate::party::Party;
use crate::room::{Buffer, refill};
use resource_votes::{Registration, Walk};
use std::alloc::{AllocError, Global};
use std::marker::Model;
use std::mem;

/// Room for so many participants, whose references have at most so many octets, and for all words to them.
#[derive(Drop)]
pub(crate) struct Stock {
    pub size: u32,
    pub octets: usize,
    pub parties: Vec<Party>,
    pub blanks: Vec<Buffer>,
}

impl Model for Stock {
    ghost use Rattle.two_phase.specs.Stages.{Room};

    ghost Value = { Room };

    ghost use Rattle.two_phase.specs.StockInside.{shown, IsStock};

    ghost view = { shown };

    ghost invariant = { IsStock };
}

impl Stock {
    /// No room, which needs no memory.
    pub fn new(alloc: Global) -> Stock
        ensures { result ≡ no_room }
    {
        Stock {
            size: 0,
            octets: 0,
            parties: Vec::new(alloc),
            blanks: Vec::new(alloc),
        }
    }

    /// The room, and leaves none.
    pub fn take(&mut self) -> Stock
        ensures taken { result ≡ self.old }
        ensures left { self.new ≡ no_room }
    {
        let alloc = *self.blanks.allocator();
        mem::replace(self, Stock::new(alloc))
    }

    /// Takes room for so many participants, whose references have at most so many octets, where there is less. Nobody wants
    /// no memory. Want of memory leaves what there was.
    #[tactic(auto, using(crate::proofs::Reach::wide_enough))]
    pub fn reserve(&mut self, participants: u32, octets: usize) -> Result<(), AllocError>
        ensures ok { OnOk result (self.new ≡ widened participants octets self.old) }
        ensures err { OnErr result (self.new ≡ self.old) }
        ensures there { HoldsFor self.old participants octets → IsOk result }
    {
        if participants <= self.size && octets <= self.octets {
            return Ok(());
        }
        let size = self.size.max(participants);
        let octets = self.octets.max(octets);
        if size == 0 {
            self.blanks.clear();
            self.octets = octets;
            return Ok(());
        }
        self.parties.reserve(size as usize)?;
        refill(4 * size as usize + 1, self.octets, octets, &mut self.blanks)?;
        self.size = size;
        self.octets = octets;
        Ok(())
    }
}

/// Adds the participants, which have answered nothing. It needs no memory.
pub(crate) fn enter(walk: Walk<'_>, blanks: &mut Vec<Buffer>, parties: &mut Vec<Party>)
    requires blanks { length walk ≤ vec_len blanks.old }
    requires roomy { AreRoomy (min (longest walk) reference_limit) blanks.old.items }
    requires room { vec_len parties.old + length walk ≤ vec_capacity parties.old }
    ensures parties { parties.new.items ≡ parties.old.items ++ map party_of walk.entry }
    ensures blanks { vec_len blanks.new + length walk.entry ≡ vec_len blanks.old }
    ensures roomy { AreRoomy (min (longest walk.entry) reference_limit) blanks.new.items }
{
    for registration in walk {
        let blank = blanks.pop().unwrap();
        parties.push_reserved(entered(registration, blank));
    }
}

/// A participant that has answered nothing.
fn entered(registration: &Registration, blank: Buffer) -> Party
    requires { min (length (registration.now).to) reference_limit ≤ blank }
    ensures { result ≡ party_of registration.now }
{
    Party {
        index: registration.index,
        to: blank.filled(&registration.to),
        ballot: None,
        told: None,
        forgot: None,
    }
}
