use crate::{Body, Header, Slot};

/// What the fixed blocks of a store say: its sizes and its current root.
#[derive(Clone, Copy, Debug, PartialEq, Eq)]
pub struct Roots {
    /// The sizes of the store.
    pub header: Header,
    /// The slot of the current root.
    pub slot: Slot,
    /// The body of the current root.
    pub body: Body,
    /// Whether the gate of the other slot was read as closed.
    pub spare_closed: bool,
}
