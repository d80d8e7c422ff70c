//! Laws of the machine's turns: what each turn keeps, what other clients may rely on, and what stays while nothing is committed.
#![tactic(auto)]

mod laws;

pub use laws::{
    law_of_changes, law_of_good_runs, law_of_good_states, law_of_hits,
    law_of_images_between_commits, law_of_marks_due, law_of_others, law_of_stages, law_of_start,
    law_of_turns,
};
