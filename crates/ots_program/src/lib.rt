//! What the program does with its command line: its words, the one entry, generic over its devices, and how the program
//! ends.
#![tactic(auto)]

pub use arguments::words_of;
pub use command::{Command, run, run_plain};
pub use devices::{Devices, Word};
pub use input::{PIECE, Pieces};
pub use laws::{replays_are_safe, what_is_read_is_safe};
pub use replay::replay_script;
pub use serve::{SERVER_COUNT, Service};
pub use show::show_messages;
pub use status::Status;

mod arguments;
mod attending;
mod command;
mod devices;
mod digits;
mod input;
mod laws;
mod limits;
mod message_line;
mod output;
mod player;
mod replay;
mod resource;
mod serve;
mod show;
mod status;
