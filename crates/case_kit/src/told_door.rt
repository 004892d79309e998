//! A door in memory that keeps what its connections are sent.

use crate::counts::held;
use ots_outside::{Door, Failed, MemConn, MemDoor, Sink, Source};
use std::alloc::Global;
use std::io;
use std::io::ErrorKind;
use std::sync::{Arc, Mutex, Wait};

/// Octets that several write to: those that connections were sent, or what is told of words.
pub type Sent = Arc<Mutex<Vec<u8>>, Global>;

/// No octets yet.
pub fn none_sent(alloc: Global) -> io::Result<Sent> {
    match Arc::new(alloc, Mutex::new(Vec::new(alloc))) {
        Ok(sent) => Ok(sent),
        Err(_) => Err(ErrorKind::OutOfMemory.into()),
    }
}

/// A connection in memory, of which it is kept what it is sent.
#[derive(Drop)]
pub struct ToldConn<R> {
    rt: R,
    conn: MemConn,
    sent: Option<Sent>,
}

impl<R> Source for ToldConn<R> {
    ghost use Rattle.std.specs.Prelude.{Some};

    ghost faults = { λ told. (told.conn).source.faults };

    ghost remaining = { λ told. Some (told.conn).source.left };

    fn read(&mut self, into: &mut [u8]) -> Result<usize, Failed> {
        self.conn.read(into)
    }
}

impl<R: Wait> Sink for ToldConn<R> {
    ghost use Rattle.std.specs.Prelude.{Some};

    ghost faults = { λ told. (told.conn).sink.faults };

    ghost taken = { λ told. Some (told.conn).sink.octets };

    fn write(&mut self, bytes: &[u8]) -> Result<(), Failed> {
        if let Some(sent) = &self.sent {
            let _ = sent.lock(&self.rt).extend_from_slice(bytes);
        }
        self.conn.write(bytes)
    }
}

/// A door in memory that keeps what its connections are sent.
#[derive(Drop)]
pub struct ToldDoor<R> {
    rt: R,
    /// The door.
    pub door: MemDoor,
    sent: Sent,
}

impl<R: Drop> ToldDoor<R> {
    /// This door. Nothing was sent.
    pub fn new(rt: R, alloc: Global, door: MemDoor) -> io::Result<ToldDoor<R>> {
        Ok(ToldDoor {
            rt,
            door,
            sent: none_sent(alloc)?,
        })
    }

    /// What its connections are sent.
    pub fn sent(&self) -> io::Result<Sent> {
        held(&self.sent)
    }
}

impl<R: Wait + Copy + Send + Drop + 'static> Door for ToldDoor<R> {
    type Conn = ToldConn<R>;

    ghost faults = { λ told. (told.door).faults };

    ghost given = { λ told. (told.door).given };

    ghost ended = { λ told. (told.door).ended };

    fn open(&mut self) -> Result<(), Failed> {
        self.door.open()
    }

    fn next(&mut self) -> Result<Option<ToldConn<R>>, Failed> {
        match self.door.next() {
            Ok(Some(conn)) => Ok(Some(ToldConn {
                rt: self.rt,
                conn,
                sent: Arc::try_clone(&self.sent).ok(),
            })),
            Ok(None) => Ok(None),
            Err(failed) => Err(failed),
        }
    }
}
