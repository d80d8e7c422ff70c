//! A vault over a disk: pages in frames, changed as a whole by one change of a root.
#![tactic(auto)]

mod committing;
mod formatting;
mod frames;
mod opening;
mod pieces;
mod planning;
mod reading;
mod reopening;
mod settling;
mod stable;
mod store;
#[cfg(test)]
mod tests;
mod vault;
mod writing;

pub use stable::Stable;
