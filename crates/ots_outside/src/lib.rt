//! What lies outside of the program, as traits that count their faults: where octets come
//! from, where they go, disks that outlast a crash, links to other programs, doors through which these come in, clocks,
//! and what starts jobs.
#![tactic(auto)]

pub use back::Back;
pub use clock::{Clock, MemClock};
pub use disk::{Disk, DiskRefusal};
pub use door::{Door, MemConn, MemDoor};
pub use file_disk::FileDisk;
pub use laws::writes_read_images;
pub use link::{Exchange, Link, LinkRefusal, Outcome};
pub use locked_file::LockedFile;
pub use mem_disk::{MemDisk, SureDisk};
pub use mem_link::MemLink;
pub use memory::{Failure, MemSink, MemSource};
pub use sink::Sink;
pub use source::{Failed, Source};
pub use spawner::{Job, Spawner};
pub use streams::{StdSink, StdSource};
pub use system_clock::SystemClock;
pub use tcp_door::{Address, TcpConn, TcpDoor};
pub use tcp_link::TcpLink;

mod back;
mod clock;
mod disk;
mod door;
mod file_disk;
mod laws;
mod link;
mod locked_file;
mod mem_disk;
mod mem_link;
mod memory;
mod sink;
mod source;
mod spawner;
mod streams;
mod system_clock;
mod tcp_door;
mod tcp_link;
