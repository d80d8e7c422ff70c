use casper_root::Slot;

/// Where the current root of a store stands.
#[derive(Clone, Copy, Debug, PartialEq, Eq)]
pub struct Standing {
    /// The slot of the current root.
    pub slot: Slot,
    /// Whether the gate of the other slot is known to be closed: it was read as closed at the opening, or was written as closed
    /// and a sync after that answered Ok, and it was not handed to a write since.
    pub spare_closed: bool,
}
