//! The core: events answered one after another, over a hub, a cache for each live client, and a vault.
#![tactic(auto)]

mod acquire;
mod acts;
mod answers;
mod calls;
mod depart;
mod finish;
mod join;
mod load;
mod reopen;
mod replay;
mod state;
mod step;
mod turn;
mod vanish;
mod write_out;

pub use casper_model::Event;
pub use casper_space::{Answer, Answers};
pub use state::Core;
pub use step::StepFault;
