//! The grammar of scripts, and why a world refuses a line.
#![tactic(auto)]

pub use fault::{MESSAGE_LIMIT, WorldFault};
pub use script::{
    FLOW_LIMIT, IMAGE_LIMIT, Image, LINE_LIMIT, Relation, ScriptEvent, ScriptFault, Whose,
    parse_line,
};

mod fault;
mod script;
