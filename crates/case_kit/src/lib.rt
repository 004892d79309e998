//! Cases of sessions of a service over devices in memory: their lines, the client that sends them, and what is told of it. What
//! the service is, a `House` says.
//!
//! A case begins with a line `== ..`. The lines behind it are of these kinds:
//!
//! - `crash`: the service crashes, and the lines behind it are of its next life. Its disk holds what it held.
//! - `to KIND SERVICE LIFE SLOT GENERATION INDEX`: the requests behind it are for the object with this key. At first that is one that
//!   the service names. `flags N`: they have these response_flags. `retry N`: the next call has this retry key.
//! - `within COORDINATOR TID ..`: the calls behind it belong to the transaction with this coordinator and the tid of these digits. Of
//!   several such pairs it is the last one, and the others are its parents, from the top-level one down. A coordinator is told by
//!   `IOR:..` or by the name of a host, where it is the object `K 9 0 0 0 0` at its port 7. `outside`: they belong to none any more.
//! - `raw OPERATION HEX`: a request with this body. `locate`, `cancel`, `close`: a message of that kind. `octets HEX`: these
//!   octets are sent. `cut N`: the last N octets that were sent don't come.
//! - `deaf N`: the N-th write to the client fails, from 0.
//! - `answer ID ANSWER`: the next word is answered so, under this request_id, as `answers.rt` has it; or it is `lost` (its call
//!   fails), or `starved` (its call wants memory). Where nothing is said of a word, it is lost.
//! - `serve`: what was sent so far is served as a session. `aside`: it is put aside for a second session.
//! - `both`: it is served, and what was put aside at once with it: from when the first word of the first session is out, which
//!   isn't answered until the second session is over. It is told where either has waited for 1,000,000 turns in vain.
//! - `door`, the last line of a life: it comes in by a door with one connection, and the service goes on until that has ended.
//!   Four ticks come first, at the moment and at the three seconds behind it; the clock of the session stands still. The words
//!   of the ticks are answered as what was put aside says. `door without N`: the job with this number can't be started: 0 is that
//!   of the ticks, so there is one tick before the connection, and one before the end; 1 is that of the connection.
//! - `crowd`, the last line of a life: it comes in by each of four connections at a door, where there are two servants for
//!   sessions and one for ticks, and each session is on a thread of its own. A session that has answered goes on until another
//!   was begun beside it, and 0.3 seconds longer. It is told where one was alone for 10 seconds, how many were open at most
//!   when the door was asked for the next, and whether all servants were let go in the 10 seconds behind its end, and the ticks
//!   had paused by then.
//! - `full`: the disk is full from now on, also for what was sent but isn't served yet. `half`: so is it, but the front half of
//!   what is written goes in each time. `free`: it isn't any more. A life that can't begin does this alone.
//! - `at N`: the moment. `tick`: the clock of the service goes on. `disk`: the octets of the disk are told.
//! - Each other line is a call: the operation, and what it takes: numbers, `reports` where `commit` asks for them, a repository
//!   id, or a reference, by `IOR:..` or by the name of a host, where it is to the object `R 9 0 0 0 0` at its port 7.
//!
//! Of a session it is told what its requests were answered, each behind the object and the first 80 octets of the line, then
//! which words went out, and how it ended; of a door, the answers, the words, those of the ticks first, and how that ended.
#![tactic(auto)]

pub use counts::CaseClock;
pub use house::{Host, House};
pub use kept_disk::KeptDisk;
pub use life::Life;
pub use links::HeldLink;
pub use lives::Lives;
pub use text::known;
pub use told_door::{Sent, ToldConn, ToldDoor};

mod answers;
mod client;
mod counts;
mod crowd;
mod house;
mod kept_disk;
mod life;
mod links;
mod lives;
mod requests;
mod sessions;
mod tell;
mod text;
mod told_door;
