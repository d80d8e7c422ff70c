//! One line on objects and names, over a session that holds the line's pages.
#![tactic(auto)]

mod answer;
mod holding;
mod laws;
mod line;
mod making;
mod plain;
mod reading;
mod refusal;
mod running;
mod session;
#[cfg(test)]
mod tests;

pub use answer::ShellAnswer;
pub use laws::line_laws;
pub use line::ShellLine;
pub use reading::shell_line;
pub use refusal::HoldRefusal;
pub use running::run_line;
pub use session::{CALLS_OF_LINE, Session};
