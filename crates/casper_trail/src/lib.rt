//! The trail, one list of entries and marks, and every definition over it.
#![tactic(auto)]

mod entry;
mod item;
mod laws;
mod mark;
mod trail;

pub use entry::Entry;
pub use item::Item;
pub use laws::{
    association_laws, call_laws, cause_laws, examples, growth_laws, image_laws, page_laws,
    part_laws, turn_laws, value_laws,
};
pub use mark::Mark;
pub use trail::Trail;
