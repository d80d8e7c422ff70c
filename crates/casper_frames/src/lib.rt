//! The frames of the store's pages that the server keeps, up to a bound.
#![tactic(auto)]

mod clean_frames;
mod laws;

pub use clean_frames::CleanFrames;
pub use laws::keeping_laws;
