/// Why a client's call was refused.
#[derive(Clone, Copy, Debug, PartialEq, Eq)]
pub enum Refusal {
    /// There was too little memory.
    Memory,
    /// The page or the word is past the store's.
    OutOfRange,
    /// The client fell by the mark at this place. Recorded reads and writes were dropped, and so were unrecorded ones.
    RolledBack {
        mark: u64,
        recorded: u32,
        unrecorded: u32,
    },
    /// The trail has so many entries and no room for more.
    TrailFull {
        entries: u32,
    },
    /// The association is in doubt.
    InDoubt,
    /// The write-out needed more frames than were free.
    Full {
        need: u32,
        free: u32,
    },
    /// The write-out found no further version.
    Worn,
    /// The disk failed. With a doubt, the write-out may or may not have been made.
    Disk {
        doubt: bool,
    },
}
