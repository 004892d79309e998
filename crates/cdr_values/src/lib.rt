//! Values in the Common Data Representation of CORBA (CDR Transfer Syntax): a reader and a writer, in both byte
//! orders. A value stands at an offset that is a multiple of its size, counted from a start that the caller names.
#![tactic(auto)]

pub use fault::{CdrFault, LENGTH_LIMIT, OUTPUT_LIMIT};
pub use laws::{
    canonical_octets_spell, elements_are_read_in_a_loop, encapsulations_are_read_again,
    no_sequence_begins_another, no_spelling_begins_another, reading_is_exact,
    references_are_read_exactly, sequences_are_exact, values_are_read_again,
    values_are_written_canonically, what_is_read_begins_no_other,
};
pub use order::Order;
pub use reader::{Reader, gap_before};
pub use writer::Writer;

mod fault;
mod laws;
mod order;
mod reader;
mod writer;
