//! Sessions of the plain machine, one after another: what a stop leaves at each moment, and what the next opening finds.
#![tactic(auto)]

mod laws;

pub use laws::{law_of_chains, law_of_runs, law_of_stops, rows_of_chains};
