//! The plain machine: what the store keeps, and what each event answers and changes.
#![tactic(auto)]

mod event;
mod laws;
mod outcome;
mod reply;
mod rows;

pub use event::Event;
pub use laws::{
    law_of_exact_marks, law_of_fallen_clients, law_of_growth, law_of_legal_history, law_of_rights,
    law_of_room,
};
pub use outcome::{Finished, Kept, Outcome};
pub use reply::{JoinRefusal, Loss, Reply, Served, StabReply};
pub use rows::{
    rows_of_associations, rows_of_caches, rows_of_calls, rows_of_frozen_associations,
    rows_of_losses, rows_of_stabilisations,
};
