use crate::{Body, Slot};

/// The current root of a pair, whatever its header is.
#[derive(Clone, Copy, Debug, PartialEq, Eq)]
pub struct CurrentRoot {
    /// Its slot.
    pub slot: Slot,
    /// Its body.
    pub body: Body,
    /// Whether the gate of the other slot was read as closed.
    pub spare_closed: bool,
}
