//! Objects with numbered fields, which hold numbers or references, on the words of held pages.
#![tactic(auto)]

mod block;
mod fault;
mod fields;
mod objects;
mod walk;

pub use fault::{HeapFault, PageFull};
pub use fields::{follow, get, set_number, set_ref};
pub use objects::{alloc_object, free_object, is_object};
