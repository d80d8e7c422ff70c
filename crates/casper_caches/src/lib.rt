//! The caches of the plain machine: which pages a client holds, what a turn leaves of them, and what a line over held pages answers.
#![tactic(auto)]

mod laws;

pub use laws::{law_of_caches, law_of_held_pages, law_of_lines};
