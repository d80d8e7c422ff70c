//! The auditor: reads the text of a trail, and says whether the trail is legal and its marks are exact.
#![tactic(auto)]

mod auditor;
mod groups;
mod laws;
mod ledger;
mod opened;
mod parse;
mod reading;
mod verdict;
mod words;

pub use laws::text_laws;
pub use parse::{BaseWord, Parsed};
pub use reading::audit;
pub use verdict::{AuditFault, AuditRule, Verdict};
