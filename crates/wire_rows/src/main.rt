//! Runs cases of octets, and tells what is read in each and how that is written again.
//!
//! A case begins with a line `== SUBJECT | PART | PART ..`. The subject is one of these:
//!
//! - `ior`: the input is a stringified reference. What it says is told, and how it is printed.
//! - `context`: the input is a transaction context. What it says is told, and how it is written.
//! - `request`: the input is a Request. The same is told of its transaction context.
//! - `message`: the input begins with a message. Its fields are told, and how it is written.
//! - `call`: the input is a Request. The call that it is is told, and how that is written.
//! - `answer`: the input is a Request and the Reply to it. The answer that this is is told, what the caller hears in it,
//!   and how it is written.
//!
//! Each part is one of these:
//!
//! - `hex`: the input is in hexadecimal digits. Each word of them is whole octets.
//! - `reads N`, `writes N`: a call is read or written N times more, for its time.
//! - `# ..`: a remark.
//!
//! The lines up to the next case are the input. A line `= N M WORDS` of digits stands for N times M lines of these words.
//! What stands before the first case is a remark.
#![tactic(auto)]

use case::Case;
use std::alloc::{AllocError, Global};
use std::io;
use std::io::Write;
use told::Told;

mod answers;
mod calls;
mod case;
mod messages;
mod told;
mod values;

fn main(rt: HostRuntime) -> io::Result<()> {
    let mut out = rt.stdout();
    let text = io::read_to_string(rt.alloc(), rt.stdin())?;
    for case in text.as_str().split("\n== ").skip(1) {
        out.write_all(told_of(rt.alloc(), case)?.as_slice())?;
    }
    Ok(())
}

/// What is told of a case.
fn told_of(alloc: Global, case: &str) -> Result<Vec<u8>, AllocError> {
    let mut told = Told::new(alloc);
    let (head, lines) = case.split_once('\n').unwrap_or((case, ""));
    told.text(b"== ", head.as_bytes());
    match Case::of(head) {
        Some(case) => case.tell(alloc, &mut told, lines),
        None => told.text(b"\n", b"no case"),
    }
    told.text(b"\n", b"");
    told.finish()
}
