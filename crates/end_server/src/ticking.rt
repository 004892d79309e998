// What waits for an outcome asks for it.
ghost use Rattle.std.specs.Prelude.{◌≡◌, ◌≤◌, []};
ghost use Rattle.outward_calls.specs.Moment.{moment};
ghost use Rattle.end_server.specs.Serving.{side};
ghost use Rattle.ots_model.specs.declared.tree.Heard.{Heard as WhatIsHeard};
ghost use Rattle.end_server.specs.Ticking as ticking;
ghost use Rattle.end_server.specs.Ticking.{HaveAskedSo, IsAsking, TicksEnd};

use crate::cells::RESOURCE_KIND;
use end_room::Ends;
use ior_refs::ObjectKey;
use ots_model::PhaseHeard;
use ots_model::tree::{Heard, Outward};
use ots_outside::Link;
use ots_sessions::ServeFault;
use outward_calls::{Sender, send};
use recovery_coord::Outbox;
use std::alloc::Global;
use std::sync::Wait;

/// Each resource that waits for an outcome asks for it, and learns what it hears. Memory is the answer where it was wanting for
/// one of them; the others ask all the same.
pub fn tick_end<R: Wait, E: Ends, L: Link>(
    rt: &R,
    alloc: Global,
    ends: &mut E,
    link: &mut L,
) -> Result<(), ServeFault>
    ensures ticked { TicksEnd E.does (E.place ends.old)
        (side ends.old (moment (L.faults link.old) (L.exchanged link.old))) result
        (side ends.new (moment (L.faults link.new) (L.exchanged link.new))) }
    ensures stays { E.place ends.new ≡ E.place ends.old }
    ensures later { L.faults link.old ≤ L.faults link.new }
{
    let mut out = Outbox::new(alloc);
    let asked = ends.asks(&mut out);
    let starved = ask_all(rt, alloc, ends, &mut out, link);
    if asked.is_err() || starved {
        return Err(ServeFault::Memory);
    }
    Ok(())
}

/// All these words go out. It says whether memory was wanting for one of them.
fn ask_all<R: Wait, E: Ends, L: Link>(
    rt: &R,
    alloc: Global,
    ends: &mut E,
    out: &mut Outbox,
    link: &mut L,
) -> bool
    ensures asked { HaveAskedSo E.does (E.place ends.old) out.old.words
        (side ends.old (moment (L.faults link.old) (L.exchanged link.old))) result
        [] (side ends.new (moment (L.faults link.new) (L.exchanged link.new))) }
    ensures stays { E.place ends.new ≡ E.place ends.old }
    ensures later { L.faults link.old ≤ L.faults link.new }
{
    let mut starved = false;
    for _ in rt.forever() {
        let Some(word) = out.take() else {
            return starved;
        };
        let wanted = ask(alloc, ends, &word, link);
        starved = starved || wanted;
    }
    unreachable!()
}

/// A word goes out, and the resource that asks by it learns what is heard. It says whether memory was wanting for it.
fn ask<E: Ends, L: Link>(alloc: Global, ends: &mut E, word: &Outward, link: &mut L) -> bool
    ensures asked { (heard : WhatIsHeard) × IsAsking E.does (E.place ends.old) word.now heard
        (side ends.old (moment (L.faults link.old) (L.exchanged link.old)))
        (side ends.new (moment (L.faults link.new) (L.exchanged link.new)))
        × (result ≡ ticking.is_want heard) }
    ensures stays { E.place ends.new ≡ E.place ends.old }
    ensures later { L.faults link.old ≤ L.faults link.new }
{
    let sender = Sender {
        service: ends.service(),
        resource_kind: RESOURCE_KIND,
    };
    let heard = send(alloc, ends.at(), sender, word, link);
    let key = asking_key(ends.service(), word);
    // Where that is refused, it asks again at the next tick.
    let _ = ends.learn(&key, &heard);
    is_want(&heard)
}

/// The key of the resource that asks by a word.
fn asking_key(service: u64, word: &Outward) -> ObjectKey
    ensures { result ≡ ticking.asking_key service word.now }
{
    ObjectKey {
        kind: RESOURCE_KIND,
        service,
        life: word.number.life,
        slot: 0,
        generation: word.number.generation,
        index: 0,
    }
}

/// Whether memory was wanted for what is heard.
fn is_want(heard: &Heard) -> bool
    ensures { result ≡ ticking.is_want heard.now }
{
    matches!(heard, Heard::Phase(PhaseHeard::Starved))
}
