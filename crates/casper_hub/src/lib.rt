//! The server's hub: one turn of a client after another, over who holds which page, who asks for which, and the trail.
#![tactic(auto)]

mod acquire;
mod clients;
mod decide;
mod finish;
mod hand_in;
mod hub;
mod install;
mod job;
mod laws;
mod leave;
mod lose;
mod opening;
mod pages;
mod stabilise;
mod tell;

pub use casper_frozen::Job;
pub use hub::Hub;
pub use laws::hub_laws;
