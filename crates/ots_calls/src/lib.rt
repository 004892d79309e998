//! The calls of the transaction service and their answers, as requests and replies.
#![tactic(auto)]

pub use answer::{Answer, Completed, Given};
pub use answering::read_answer;
pub use call::{Call, Called};
pub use exception::UserException;
pub use fault::CallFault;
pub use gives::Gives;
pub use hearing::{heard, heard_in_reply};
pub use interface::Interface;
pub use laws::{
    answers_are_read_exactly, names_tell_operations, one_request_one_call,
    requests_are_read_exactly,
};
pub use operation::{Bare, Handing, Operation};
pub use replying::write_answer;
pub use request::read_call;
pub use rows::Row;
pub use system::SystemException;
pub use writing::write_call;

mod answer;
mod answering;
mod body;
mod call;
mod exception;
mod fault;
mod gives;
mod hearing;
mod interface;
mod laws;
mod operation;
mod reading;
mod replying;
mod request;
mod rows;
mod system;
mod table;
mod writing;
