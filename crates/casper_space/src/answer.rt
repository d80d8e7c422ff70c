use casper_words::{Crew, Series, Who};

/// The answer to one event. A mark is named by its place in the trail, counted from 0.
#[derive(Clone, Copy, Debug, PartialEq, Eq)]
pub enum Answer {
    /// The client has joined.
    Joined,
    /// The client had joined before.
    Busy,
    /// The client has not joined.
    Absent,
    /// The page or the word is past the store's.
    Range,
    /// The value that was read.
    Value(u64),
    /// The write, or the serve, is done.
    Ok,
    /// Every page that was asked for is held.
    Granted,
    /// These clients stand in the way.
    Pending(Crew),
    /// The page or the client belongs to a frozen association with this lead.
    Frozen(Who),
    /// The association is in doubt, or the write-out ended in doubt.
    InDoubt,
    /// The client fell by the mark at this place. Recorded reads and writes were dropped, and so were unrecorded ones.
    RolledBack {
        mark: u64,
        recorded: u32,
        unrecorded: u32,
    },
    /// The trail has this many entries and no room for more.
    TrailFull(u32),
    /// The disk failed. Where there was a doubt, it stands.
    Disk,
    /// The association waits for these members to hand in their pages.
    Gathering(Crew),
    /// The association is sealed with this many pages.
    Sealed(u32),
    /// The association is sealed and not finished. This is its lead.
    Doing(Who),
    /// The association is in doubt. This is its lead.
    Doubtful(Who),
    /// The commit mark stands at this place.
    Commit(u64),
    /// The write-out needed more frames than were free.
    FailedFull {
        need: u32,
        free: u32,
    },
    /// The write-out found no further version.
    FailedWorn,
    /// The write-out met a disk fault, and may be in doubt.
    FailedDisk {
        doubt: bool,
    },
    /// The write-out is done. The store has this version.
    Written(u64),
    /// The write-out needs more frames than are free.
    Full {
        need: u32,
        free: u32,
    },
    /// The write-out finds no further version.
    Worn,
    /// The write-out ended in doubt.
    Doubt,
    /// There is no such write-out to make or to finish.
    NoJob,
    /// The write-out of this lead is unfinished or in doubt.
    Vault(Who),
    /// A noted loss was carried out at the finish. The rollback mark stands at this place.
    Undone(u64),
    /// Nothing is in doubt.
    Nothing,
    /// The client has departed.
    Left,
    /// The client vanished. Its rollback mark stands at this place, and so many unrecorded calls are gone.
    VanishLost {
        mark: u64,
        unrecorded: u32,
    },
    /// The client vanished, and its loss was noted for the association of this lead.
    VanishNoted {
        lead: Who,
        unrecorded: u32,
    },
    /// The client was lost. Its rollback mark stands at this place.
    LoseLost(u64),
    /// The loss was noted for the association of this lead.
    LoseNoted(Who),
    /// The client had fallen before, by the mark at this place.
    Already(u64),
    /// The store was opened again, with this version.
    Reopened(u64),
}

/// A list of answers.
pub type Answers = Series<Answer>;
