//! Tables of little-endian numbers within a block.
#![tactic(auto)]

mod field;
mod laws;
mod rec;

pub use field::Field;
pub use laws::table_laws;
pub use rec::Rec;
