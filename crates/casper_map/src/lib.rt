//! The shadow map of a store: in which frame each page and each map block stands, and where the next ones go.
#![tactic(auto)]

mod fault;
mod frame_set;
mod laws;
mod moves;
mod numbers;
mod plan;
mod planning;
mod reading;
mod shadow_map;
#[cfg(test)]
mod tests;

pub use fault::PlanFault;
pub use laws::{fault_laws, frame_laws, map_laws, plan_laws, room_laws};
pub use moves::Moves;
pub use plan::Plan;
pub use shadow_map::ShadowMap;
