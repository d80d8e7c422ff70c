//! The order of a commit's device calls, and what a stop leaves of the two roots at each of them.
#![tactic(auto)]

mod finding;
mod frames;
mod gate;
mod laws;
mod order;
mod pieces;
mod settling;
mod standing;
#[cfg(test)]
mod tests;

pub use finding::find_root;
pub use frames::put_frame;
pub use gate::put_gate;
pub use laws::{opened_laws, state_laws};
pub use order::{make_ready, put_body};
pub use pieces::{Pieces, put_frames};
pub use settling::{put_root, settle};
pub use standing::Standing;
