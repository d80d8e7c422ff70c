//! The texts of what a run answers: a line for each answer, the line that sums up, and one for a store that was refused.
#![tactic(auto)]

mod answer;
mod refusal;
mod summary;

pub use answer::answer_text;
pub use refusal::{Refusal, constant_refusal, refusal_text};
pub use summary::{Summary, summary_text};
