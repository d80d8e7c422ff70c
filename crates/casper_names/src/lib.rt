//! Names that lead to objects, in a table on the first page.
#![tactic(auto)]

mod binding;
mod entry;
mod fault;
mod listing;
mod names;

pub use binding::bind;
pub use fault::NameFault;
pub use listing::list;
pub use names::{lookup, unbind};
