//! The bookkeeping of stabilisations: who has to hand in pages, who waits for the outcome, which loss was noted, and what an outcome
//! comes to; and those that have not ended, in their order.
#![tactic(auto)]

mod laws;
mod resolved;
mod stab;
mod unended;

pub use casper_model::Outcome;
pub use laws::{asker_laws, finish_laws, gather_laws, unended_laws};
pub use resolved::{Resolved, reply_of_kept};
pub use stab::{Phase, Stab};
pub use unended::Unended;
