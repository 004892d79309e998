use crate::client::{Batch, Client};
use crate::counts::{CaseClock, held};
use crate::crowd::Crowd;
use crate::house::{Host, House};
use crate::kept_disk::{Room, Shelf};
use crate::links::{Gate, HeldLink, Replies, Way};
use crate::sessions::{Session, serve_both, serve_door};
use crate::tell::{tell_replies, tell_words};
use crate::text::{front, known, number};
use crate::told_door::none_sent;
use ior_refs::ObjectKey;
use ots_sessions::Servant;
use std::alloc::Global;
use std::io::{ErrorKind, Write};
use std::sync::Arc;
use std::{io, mem};

/// What the last line of a life is.
#[derive(Clone, Copy)]
enum Last {
    Crash,
    /// The start of the job with this number fails.
    Door(Option<u32>),
    Crowd,
}

/// What goes on in one life of a service, and what is told of it.
#[derive(Drop)]
pub struct Life<'a> {
    alloc: Global,
    shelf: Shelf,
    lines: &'a str,
    client: Client<'a>,
    aside: Batch<'a>,
    now: u64,
    /// What was told.
    pub told: Vec<u8>,
}

impl<'a> Life<'a> {
    /// Nothing of these lines was done or told. Requests are for this object at first.
    pub(crate) fn new(
        alloc: Global,
        shelf: Shelf,
        lines: &'a str,
        (key, to): (ObjectKey, &'a str),
    ) -> Life<'a> {
        Life {
            alloc,
            shelf,
            lines,
            client: Client::new(alloc, key, to),
            aside: Batch::new(alloc),
            now: 0,
            told: Vec::new(alloc),
        }
    }

    /// Carries out its lines. The last one may be the door, or the crowd.
    pub fn play<R: Host, H: House<R>>(&mut self, rt: &R, house: &mut H) -> io::Result<()> {
        let (lines, last) = last_of(self.lines);
        for line in lines.split('\n') {
            self.play_line(rt, house, line)?;
        }
        match last {
            Last::Crash => Ok(()),
            Last::Door(without) => self.end_at_door(rt, house, without),
            Last::Crowd => self.end_in_crowd(rt, house),
        }
    }

    /// Carries out what its lines say of the room that the disk has, since its service couldn't be loaded.
    pub fn pass<R: Host>(&self, rt: &R) {
        for line in self.lines.split('\n') {
            self.give_room(rt, line);
        }
    }

    /// The disk has this much room from now on, where the word is one for that.
    fn give_room<R: Host>(&self, rt: &R, word: &str) {
        let room = match word {
            "full" => Room::Full,
            "half" => Room::Half,
            "free" => Room::Enough,
            _ => return,
        };
        self.shelf.lock(rt).room = room;
    }

    /// Carries out a line.
    fn play_line<R: Host, H: House<R>>(
        &mut self,
        rt: &R,
        house: &mut H,
        line: &'a str,
    ) -> io::Result<()> {
        let (word, rest) = front(line);
        match word {
            "" => {}
            "at" => self.now = u64::from(number(rest)?),
            "aside" => self.aside = self.client.take(),
            "full" | "half" | "free" => self.give_room(rt, word),
            "disk" => self.tell_disk(rt)?,
            "serve" => self.serve(rt, house)?,
            "both" => self.serve_both(rt, house)?,
            "tick" => self.tick(rt, house)?,
            _ => self.client.play(line)?,
        }
        Ok(())
    }

    /// Tells the octets of the disk.
    fn tell_disk<R: Host>(&mut self, rt: &R) -> io::Result<()> {
        let digits = {
            let stored = self.shelf.lock(rt);
            hex::encode(self.alloc, stored.disk.octets())?
        };
        writeln!(self.told, "disk {digits}")
    }

    /// A servant with this link.
    fn server<R: Host, H: House<R>>(
        &self,
        rt: &R,
        house: &mut H,
        link: HeldLink<R>,
    ) -> io::Result<H::Server> {
        let mut links = Vec::new(self.alloc);
        links.push(link)?;
        let mut clocks = Vec::new(self.alloc);
        clocks.push(CaseClock::new(*rt, self.now))?;
        let mut servers = house.servers(links, clocks)?;
        known(servers.pop())
    }

    /// The session that has this batch. Its words go out this way.
    fn session<R: Host, H: House<R>>(
        &self,
        rt: &R,
        house: &mut H,
        mut batch: Batch<'a>,
        way: Way,
    ) -> io::Result<Session<'a, H::Server>> {
        let replies = mem::replace(&mut batch.replies, Replies::new(self.alloc));
        let link = HeldLink::new(*rt, self.alloc, replies, way);
        let server = self.server(rt, house, link)?;
        Ok(Session::new(self.alloc, server, batch))
    }

    /// Serves what was sent.
    fn serve<R: Host, H: House<R>>(&mut self, rt: &R, house: &mut H) -> io::Result<()> {
        let batch = self.client.take();
        let mut session = self.session(rt, house, batch, Way::Plain)?;
        session.serve(rt, self.alloc);
        self.tell_session("", &session, H::link(&session.server))
    }

    /// Serves what was sent, and beside it what was put aside.
    fn serve_both<R: Host, H: House<R>>(&mut self, rt: &R, house: &mut H) -> io::Result<()> {
        let Ok(gate) = Arc::new(self.alloc, Gate::new()) else {
            return Err(ErrorKind::OutOfMemory.into());
        };
        let batch = self.client.take();
        let mut first = self.session(rt, house, batch, Way::Held(held(&gate)?))?;
        let batch = mem::replace(&mut self.aside, Batch::new(self.alloc));
        let mut second = self.session(rt, house, batch, Way::Plain)?;
        if !serve_both(rt, self.alloc, &mut first, &mut second, &gate) {
            writeln!(self.told, "no word was out in time")?;
        }
        self.tell_session("second: ", &second, H::link(&second.server))?;
        self.tell_session("first: ", &first, H::link(&first.server))
    }

    /// The clock of the service goes on.
    fn tick<R: Host, H: House<R>>(&mut self, rt: &R, house: &mut H) -> io::Result<()> {
        let Batch { replies, .. } = self.client.take();
        let link = HeldLink::new(*rt, self.alloc, replies, Way::Plain);
        let mut server = self.server(rt, house, link)?;
        let ticked = server.tick();
        writeln!(self.told, "tick: {ticked:?}")?;
        let words = H::link(&server).link.exchanges();
        tell_words(self.alloc, &mut self.told, "", words)
    }

    /// Tells what came of a session with this link.
    fn tell_session<S: Servant, R>(
        &mut self,
        front: &str,
        session: &Session<'_, S>,
        link: &HeldLink<R>,
    ) -> io::Result<()> {
        let told = &mut self.told;
        let octets = session.conn.sink.octets();
        tell_replies(self.alloc, told, front, octets, session.asked.as_slice())?;
        tell_words(self.alloc, told, front, link.link.exchanges())?;
        if link.gave_up {
            writeln!(told, "{front}a word was held in vain")?;
        }
        match session.end {
            Some(end) => writeln!(told, "{front}{end:?}"),
            None => Ok(()),
        }
    }

    /// Serves the connection of a door, on which that was sent. The words of the ticks are answered as what was put aside says.
    fn end_at_door<R: Host, H: House<R>>(
        &mut self,
        rt: &R,
        house: &mut H,
        without: Option<u32>,
    ) -> io::Result<()> {
        let mut failing = Vec::new(self.alloc);
        if let Some(job) = without {
            failing.push(u64::from(job))?;
        }
        let words = none_sent(self.alloc)?;
        let batch = self.client.take();
        let session = self.session(rt, house, batch, Way::Told(held(&words)?, ""))?;
        let Batch { replies, .. } = mem::replace(&mut self.aside, Batch::new(self.alloc));
        let way = Way::Told(held(&words)?, "tick: ");
        let link = HeldLink::new(*rt, self.alloc, replies, way);
        let ticker = self.server(rt, house, link)?;
        let served = serve_door(rt, self.alloc, session, ticker, failing)?;
        served.tell_replies(rt, self.alloc, &mut self.told)?;
        let words = words.lock(rt).to_vec(self.alloc)?;
        self.told.write_all(words.as_slice())?;
        served.tell_end(&mut self.told)
    }

    /// Serves a crowd, of which each connection sends what was sent.
    fn end_in_crowd<R: Host, H: House<R>>(&mut self, rt: &R, house: &mut H) -> io::Result<()> {
        let batch = self.client.take();
        let crowd = Crowd::new(self.alloc, batch)?;
        crowd.serve(rt, self.alloc, house, &mut self.told)
    }
}

/// The lines of a life before its last one, and that.
fn last_of(lines: &str) -> (&str, Last) {
    if let Some((lines, rest)) = lines.split_once("\ndoor") {
        let job = rest.trim().strip_prefix("without ");
        return (lines, Last::Door(job.and_then(|job| job.parse().ok())));
    }
    match lines.split_once("\ncrowd") {
        Some((lines, _)) => (lines, Last::Crowd),
        None => (lines, Last::Crash),
    }
}
