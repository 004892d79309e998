ghost use Rattle.std.specs.Prelude.{◌≡◌, ◌≤◌, ◌++◌, [], None, Ok, Some, true, false, IfOk, IfSome, IsErrOf, OnErr, OnOk, drop, length, option_copied};
ghost use Rattle.ots_outside.specs.declared.link.LinkRefusal.TheVariants.{Failed as LinkFailed, Memory};
ghost use Rattle.ots_outside.specs.declared.link.Outcome.TheVariants.{Refused, Replied};
ghost use Rattle.ots_outside.specs.Links.{Exchanges, LeavesCount, more, next_answer};
ghost use Rattle.ots_outside.specs.Source.{HasRisen, raised};

use crate::link::{Exchange, Link, LinkRefusal, Outcome};
use crate::source::Failed;
use ots_model::{Endpoint, Octets};
use std::alloc::{AllocError, Global};
use std::marker::Model;

/// A link in memory, of which chosen calls fail, and which keeps its exchanges. Contracts see it as a `LinkState`.
#[derive(Drop)]
pub struct MemLink {
    alloc: Global,
    answers: Vec<Octets>,
    failing: Vec<u64>,
    calls: u64,
    faults: u64,
    exchanges: Vec<Exchange>,
}

impl Model for MemLink {
    ghost use Rattle.ots_outside.specs.Links.{LinkState};

    ghost Value = { LinkState };

    ghost view = { λ link. record {
      answers = link.answers.items;
      failing = link.failing.items;
      calls = link.calls;
      faults = link.faults;
      exchanges = link.exchanges.items;
    } };
}

impl MemLink {
    /// A link whose calls are answered by these octets in turn. The calls whose numbers, from 0, are `failing` fail, and so
    /// does each call for which no answer is there.
    pub fn new(alloc: Global, answers: Vec<Octets>, failing: Vec<u64>) -> MemLink
        ensures { result ≡ record {
          answers = answers.items;
          failing = failing.items;
          calls = 0;
          faults = 0;
          exchanges = [];
        } }
    {
        MemLink {
            alloc,
            answers,
            failing,
            calls: 0,
            faults: 0,
            exchanges: Vec::new(alloc),
        }
    }

    /// The exchanges so far, the last one last.
    pub fn exchanges(&self) -> &[Exchange]
        ensures { result.now ≡ self.now.exchanges }
    {
        self.exchanges.as_slice()
    }

    /// How many calls have failed.
    pub fn faults(&self) -> u64
        ensures { result ≡ self.now.faults }
    {
        self.faults
    }

    /// What the next call is answered.
    fn next_answer(&self) -> Option<&Octets>
        ensures { option_copied result ≡ next_answer self.now }
    {
        if self.failing.contains(&self.calls) {
            return None;
        }
        self.answers.get(self.calls as usize)
    }

    /// Keeps an exchange with the next answer, which is put behind `reply`, or with the failure.
    fn exchange(
        &mut self,
        to: &Endpoint,
        request: &[u8],
        reply: &mut Vec<u8>,
    ) -> Result<bool, AllocError>
        ensures answered { result ≡ Ok true
            → next_answer self.old ≡ Some (drop (length reply.old.items) reply.new.items) }
        ensures front { result ≡ Ok true
            → reply.new.items ≡ reply.old.items ++ drop (length reply.old.items) reply.new.items }
        ensures kept { result ≡ Ok true → self.new ≡ record self.old {
          exchanges = more self.old.exchanges to.now request.now
              (Replied (drop (length reply.old.items) reply.new.items));
        } }
        ensures failed { result ≡ Ok false → (next_answer self.old ≡ None) × (reply.new.items ≡ reply.old.items) }
        ensures refused { result ≡ Ok false → self.new ≡ record self.old {
          exchanges = more self.old.exchanges to.now request.now (Refused LinkFailed);
        } }
        ensures err { OnErr result ((self.new ≡ self.old) × (reply.new.items ≡ reply.old.items)) }
    {
        let to = copy_place(self.alloc, to)?;
        let request = Octets::new(self.alloc, request)?;
        self.exchanges.reserve(1)?;
        let outcome = match self.next_answer() {
            Some(octets) => {
                let copy = Octets::new(self.alloc, octets.bytes())?;
                reply.extend_from_slice(octets.bytes())?;
                Outcome::Replied(copy)
            }
            None => Outcome::Refused(LinkRefusal::Failed),
        };
        let is_answered = matches!(outcome, Outcome::Replied(_));
        self.exchanges.push_reserved(Exchange {
            to,
            request,
            outcome,
        });
        Ok(is_answered)
    }
}

impl Link for MemLink {
    ghost faults = { λ link. link.faults };

    ghost exchanged = { λ link. Some link.exchanges };

    fn invoke(
        &mut self,
        to: &Endpoint,
        request: &[u8],
        reply: &mut Vec<u8>,
    ) -> Result<(), LinkRefusal>
        // What each link promises.
        ensures exchange { Exchanges self.old.exchanges to.now request.now result
            (drop (length reply.old.items) reply.new.items) (Some self.new.exchanges) }
        ensures front { OnOk result (reply.new.items
            ≡ reply.old.items ++ drop (length reply.old.items) reply.new.items) }
        ensures unsaid { OnErr result (reply.new.items ≡ reply.old.items) }
        ensures cause { IsErrOf result LinkFailed → HasRisen self.old.faults self.new.faults }
        ensures calm { LeavesCount result self.old.faults self.new.faults }
        ensures later { self.old.faults ≤ self.new.faults }

        // It is answered what is next, or fails where nothing is; where memory is wanted, no exchange is made.
        ensures answered { OnOk result (next_answer self.old ≡ Some (drop (length reply.old.items) reply.new.items)) }
        ensures failed { IsErrOf result LinkFailed → next_answer self.old ≡ None }
        ensures counts { IsErrOf result LinkFailed → self.new.faults ≡ raised self.old.faults }
        ensures memory { IsErrOf result Memory → self.new.exchanges ≡ self.old.exchanges }
        ensures answers { self.new.answers ≡ self.old.answers }
        ensures failing { self.new.failing ≡ self.old.failing }
        ensures calls { self.new.calls ≡ raised self.old.calls }
    {
        let exchanged = self.exchange(to, request, reply);
        self.calls = self.calls.saturating_add(1);
        match exchanged {
            Ok(true) => Ok(()),
            Ok(false) => {
                Failed::counted(&mut self.faults);
                Err(LinkRefusal::Failed)
            }
            Err(_) => Err(LinkRefusal::Memory),
        }
    }
}

/// A copy of a place.
fn copy_place(alloc: Global, place: &Endpoint) -> Result<Endpoint, AllocError>
    ensures { IfOk result (λ copy. copy ≡ place.now) }
{
    Ok(Endpoint {
        host: Octets::new(alloc, place.host.bytes())?,
        port: place.port,
    })
}
