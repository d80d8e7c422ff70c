//! Stores by name: made, checked, opened and closed on a shelf.
#![tactic(auto)]

mod checking;
mod fault;
mod formatting;
mod opening;
#[cfg(test)]
mod tests;
mod texts;

pub use checking::{Checked, check};
pub use fault::StoreFault;
pub use formatting::format;
pub use opening::{close_store, open_store};
pub use texts::{checked_text, formatted_text};
