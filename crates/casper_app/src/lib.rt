//! The top call: it reads the lines of a schedule, answers each before it reads the next, and says what stands at its end.
#![tactic(auto)]

mod cause;
mod command;
mod end;
mod ending;
mod laws;
mod lines;
mod outlet;
mod past;
mod replay;
mod room;
mod schedule;
mod sessions;
mod stores;
mod taking;
mod top;

pub use cause::Cause;
pub use command::{Backing, Command, Opening};
pub use end::End;
pub use laws::{chain_laws, leaving_laws, schedule_laws, session_laws};
pub use outlet::Outlet;
pub use top::{Ended, carry_out, run};
