//! Vaults that can be opened again where they stand.
#![tactic(auto)]

mod memory;
mod reopen;

pub use reopen::Reopen;
