//! Further laws of the plain machine: the answers of each event, pending calls, own lists, additions to the trail, recalls, stabilisations,
//! room for marks, stored images, and what clients see in the pages that they hold.
#![tactic(auto)]

mod laws;

pub use laws::{
    law_of_additions, law_of_answers, law_of_held_words, law_of_held_words_in_steps,
    law_of_holders, law_of_images, law_of_mark_room, law_of_notes_and_doubts, law_of_one_history,
    law_of_own_lists, law_of_pending_calls, law_of_recalls, law_of_stabilisations,
};
