//! The fixed blocks of a store: its header and its two roots.
#![tactic(auto)]

mod body;
mod current_root;
mod fault;
mod found;
mod header;
mod laws;
mod maps;
mod opening;
mod pair;
mod roots;
mod slot;
mod tables;
#[cfg(test)]
mod tests;
mod writing;

pub use body::Body;
pub use current_root::CurrentRoot;
pub use fault::OpenFault;
pub use header::Header;
pub use laws::{format_laws, part_laws};
pub use maps::Maps;
pub use opening::{open_header, open_pair, open_roots};
pub use pair::{Pair, read_pair};
pub use roots::Roots;
pub use slot::{OPEN, Slot, pick};
pub use writing::{close_spare, open_gate, write_and_sync, write_body};
