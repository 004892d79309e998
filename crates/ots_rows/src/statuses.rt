//! What is told of each status, those too that no command comes to here.

use giop_frames::FrameFault;
use ots_program::Status;
use std::alloc::Global;
use std::cell::RefCell;
use std::fmt::Display;
use std::io;
use std::io::Write;
use std::process::Termination;

/// A standard error that keeps what is said.
#[derive(Drop)]
struct Errors {
    text: RefCell<Vec<u8>>,
}

impl Eprint for Errors {
    fn eprint<D: Display + Drop>(&self, value: D) -> io::Result<()> {
        let mut text = self.text.try_borrow_mut()?;
        write!(text, "{value}")
    }

    fn eprintln<D: Display + Drop>(&self, value: D) -> io::Result<()> {
        self.eprint(value)?;
        self.eprint("\n")
    }
}

/// Tells each status as that of a command is told: its number, what it is, and the line that its report says on standard
/// error.
pub fn tell(alloc: Global, told: &mut Vec<u8>) -> io::Result<()> {
    let statuses = [
        Status::Done,
        Status::Usage,
        Status::Script(3),
        Status::ReadFault,
        Status::WriteFault,
        Status::Limit(9, 100_000),
        Status::BadMessage(u64::MAX, FrameFault::Short),
        Status::Memory,
    ];
    for status in statuses {
        let errors = Errors {
            text: RefCell::new(Vec::new(alloc)),
        };
        let _ = status.report(&errors);
        writeln!(told, "-- {} {status:?}", status.number())?;
        told.extend_from_slice(errors.text.into_inner().as_slice())?;
    }
    Ok(())
}
