//! What the store answers to the events of its clients, and the words of held pages.
#![tactic(auto)]

mod answer;
mod plain;
mod refusal;
mod words;

pub use answer::{Answer, Answers};
pub use plain::Plain;
pub use refusal::Refusal;
pub use words::Words;
