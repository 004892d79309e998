//! What holds of each step of a family, by its definition: it leaves a sound family, subtransactions end in their turn, each
//! word rests on what it must, and what happened is told.
#![tactic(auto)]

pub use laws::{
    families_append_own, families_close_last, families_end_in_turn, families_have_causes,
    families_hear_outcomes_answered, families_number_words, families_stay_sound,
    families_tell_ends, families_tell_outcomes, families_tell_votes, families_words_rest,
    held_dues_end_by_answers, held_dues_end_with_families, held_records_stood,
    nodes_keep_decisions, nodes_stay_sound,
};

mod laws;
