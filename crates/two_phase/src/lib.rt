//! The two phases of a transaction with subtransactions: whom its completion asks next, and what its outcome is.
#![tactic(auto)]

pub use completion::Completion;
pub use dispositions::Dispositions;
pub use laws::{
    a_participant_hears_once, a_settled_one_is_through, a_tree_goes_one_way, a_tree_outcome_stays,
    a_tree_word_goes_out_once, a_tree_word_waits_for_its_answer, an_answer_changes_one,
    no_tree_word_is_left_out, the_last_answer_decides, tree_outcomes_have_causes,
    tree_words_go_rightly, votes_decide,
};
pub use room::Blank;

mod completion;
mod course;
mod dispositions;
mod laws;
mod parties;
mod party;
mod room;
mod stock;
