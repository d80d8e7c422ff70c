//! What the answers of the plain machine mean: who is told of a commit or of a fall, why a call is refused, and what each step leaves.
#![tactic(auto)]

mod laws;
mod rows;

pub use laws::{
    law_of_acknowledgement, law_of_acquires, law_of_joins_and_stabilises, law_of_lives,
    law_of_losses, law_of_places, law_of_replies, law_of_write_outs,
};
pub use rows::{rows_of_answers, rows_of_rules};
