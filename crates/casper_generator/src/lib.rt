//! Schedules made from a seed: their lines one after another, and the text of each.
#![tactic(auto)]

mod gen_line;
mod generator;
mod laws;
mod text;

pub use gen_line::GenLine;
pub use generator::Generator;
pub use laws::examples;
pub use text::line_text;
