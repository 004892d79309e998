//! Sessions over devices in memory.

use crate::client::{Asked, Batch};
use crate::house::Host;
use crate::links::Gate;
use crate::tell::tell_replies;
use crate::text::known;
use crate::told_door::{Sent, ToldDoor};
use ots_outside::{Door, MemConn, MemDoor, MemSink, MemSource, Spawner};
use ots_sessions::{Servant, ServeEnd, SessionEnd, serve_session, serve_sessions};
use std::alloc::Global;
use std::collections::VecDeque;
use std::io::Write;
use std::{io, thread};

/// How often a job of a service is turned at most.
const TURNS: u64 = 4;

/// A session.
#[derive(Drop)]
pub struct Session<'a, S> {
    /// What serves it.
    pub server: S,
    /// What the client sends and is sent.
    pub conn: MemConn,
    /// What the client asks.
    pub asked: Vec<Asked<'a>>,
    /// How it has ended.
    pub end: Option<SessionEnd>,
}

impl<'a, S: Servant> Session<'a, S> {
    /// The session in which a client sends this.
    pub fn new(alloc: Global, server: S, batch: Batch<'a>) -> Session<'a, S> {
        let Batch {
            input,
            asked,
            failing,
            ..
        } = batch;
        Session {
            server,
            conn: MemConn {
                source: MemSource::new(input, Vec::new(alloc)),
                sink: MemSink::new(alloc, failing),
            },
            asked,
            end: None,
        }
    }

    /// Serves it.
    pub fn serve<R: Host>(&mut self, rt: &R, alloc: Global) {
        let conn = &mut self.conn;
        let end = serve_session(
            rt,
            alloc,
            &mut self.server,
            &mut conn.source,
            &mut conn.sink,
        );
        self.end = Some(end);
    }
}

/// Serves a second session once a word of the first is out, and says whether one was in time.
fn serve_behind<R: Host, S: Servant>(
    rt: &R,
    alloc: Global,
    second: &mut Session<'_, S>,
    gate: &Gate,
) -> bool {
    let in_time = gate.wait_for_word();
    second.serve(rt, alloc);
    gate.end();
    in_time
}

/// Serves two sessions at once, and says whether the first had a word out in time.
pub fn serve_both<R: Host, S: Servant + Send>(
    rt: &R,
    alloc: Global,
    first: &mut Session<'_, S>,
    second: &mut Session<'_, S>,
    gate: &Gate,
) -> bool {
    let (in_time, ()) = thread::join(
        rt,
        || serve_behind(rt, alloc, second, gate),
        || first.serve(rt, alloc),
    );
    in_time
}

/// How a service ended that stood behind a door.
#[derive(Drop)]
pub struct Served<'a> {
    end: ServeEnd,
    asked: Vec<Asked<'a>>,
    sent: Sent,
}

impl Served<'_> {
    /// Tells what the connection was sent.
    pub fn tell_replies<R: Host>(
        &self,
        rt: &R,
        alloc: Global,
        told: &mut Vec<u8>,
    ) -> io::Result<()> {
        let sent = self.sent.lock(rt).to_vec(alloc)?;
        tell_replies(alloc, told, "", sent.as_slice(), self.asked.as_slice())
    }

    /// Tells the end.
    pub fn tell_end(&self, told: &mut Vec<u8>) -> io::Result<()> {
        writeln!(told, "door: {:?}", self.end)
    }
}

/// Serves the connection of a session at a door, where one servant is for ticks. The starts of jobs with these numbers fail.
pub fn serve_door<'a, R: Host, S: Servant + Send + Drop + 'static>(
    rt: &R,
    alloc: Global,
    session: Session<'a, S>,
    ticker: S,
    failing: Vec<u64>,
) -> io::Result<Served<'a>> {
    let Session {
        server,
        conn,
        asked,
        ..
    } = session;
    let mut servers = Vec::new(alloc);
    servers.push(server)?;
    servers.push(ticker)?;
    let mut waiting = VecDeque::new(alloc);
    waiting.push_back(conn)?;
    let mut door = ToldDoor::new(*rt, alloc, MemDoor::new(waiting, Vec::new(alloc)))?;
    let sent = door.sent()?;
    let mut spawner = Spawner::at_once(TURNS, failing);
    let end = serve_at(rt, alloc, servers, &mut door, &mut spawner)?;
    Ok(Served { end, asked, sent })
}

/// Serves the connections of a door by these servants, of which there have to be two.
pub fn serve_at<R: Host, S: Servant + Send + Drop + 'static, O: Door>(
    rt: &R,
    alloc: Global,
    servers: Vec<S>,
    door: &mut O,
    spawner: &mut Spawner<R>,
) -> io::Result<ServeEnd> {
    if servers.len() < 2 {
        return known(None);
    }
    Ok(serve_sessions(rt, alloc, servers, door, spawner))
}
