//! Which clients belong together by modified pages that are not yet stable: a label for each client, and one for each such page. Above
//! them the associations of a trail, with the count of each client's open calls.
#![tactic(auto)]

mod associations;
mod labels;
mod laws;
mod writers;

pub use associations::Associations;
pub use labels::Labels;
pub use laws::{call_and_page_laws, part_laws, trail_laws};
