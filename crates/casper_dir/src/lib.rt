//! Who holds which page of a store, and with which right: one writer or many readers. And a few wants, in place.
#![tactic(auto)]

mod directory;
mod few;
mod holders;
mod laws;

pub use directory::Directory;
pub use few::FewWants;
pub use laws::rights_laws;
