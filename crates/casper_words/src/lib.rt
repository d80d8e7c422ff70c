//! The values that every other crate speaks of: pages and their words, clients, rights, calls and names.
#![tactic(auto)]

mod block;
mod call;
mod crew;
mod frame;
mod laws;
mod memory;
mod name;
mod name_list;
mod page;
mod series;
mod wants;
mod who;

pub use block::Block;
pub use call::{Call, Calls, Op};
pub use crew::Crew;
pub use frame::Frame;
pub use laws::{block_laws, crew_laws, wants_laws};
pub use memory::Memory;
pub use name::Name;
pub use name_list::NameList;
pub use page::{Page, Ref, Right, Want};
pub use series::Series;
pub use wants::Wants;
pub use who::Who;
