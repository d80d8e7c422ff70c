//! Which association is frozen or in doubt, and who and which pages belong to it.
#![tactic(auto)]

mod counting;
mod finding;
mod job;
mod laws;
mod modified;
mod refusal;

pub use counting::count_pages;
pub use finding::{gathering_of, member_of};
pub use job::Job;
pub use laws::refusal_laws;
pub use modified::modified_pages;
pub use refusal::{Refusal, refusal_of};

#[cfg(test)]
mod tests;
