//! The pages that one client holds, in order of use, and its calls that were not yet recorded.
#![tactic(auto)]

mod cache;
mod held;
mod held_pages;
mod laws;
mod leaf;
mod pages;

pub use cache::Cache;
pub use laws::{change_laws, history_law};
pub use pages::Pages;
