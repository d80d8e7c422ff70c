/// How a write-out ended.
#[derive(Clone, Copy, Debug, PartialEq, Eq)]
pub enum Outcome {
    /// It is done. The store has this version.
    Ok(u64),
    /// It needs more frames than are free, and nothing has changed.
    Full { need: u32, free: u32 },
    /// There is no further version, and nothing has changed.
    Worn,
    /// The disk failed, and nothing has changed.
    Disk,
    /// The disk failed, and a stop may leave the store as before or as after.
    Doubt,
}

/// What is kept for a client that asked for a stabilisation, until its next turn.
#[derive(Clone, Copy, Debug, PartialEq, Eq)]
pub enum Kept {
    /// The place of the commit mark.
    Committed(u64),
    /// The write-out failed.
    Failed(Outcome),
}

/// What the finishing turn made of a write-out.
#[derive(Clone, Copy, Debug, PartialEq, Eq)]
pub enum Finished {
    /// The commit mark stands at this place.
    Committed(u64),
    /// The association is no longer frozen, and stays linked.
    Failed(Outcome),
    /// A noted loss was carried out. The rollback mark stands at this place.
    Undone(u64),
    /// The association stays frozen, in doubt.
    Doubt,
}
