use crate::Outcome;
use casper_words::{Crew, Page, Who};

/// Why a client could not join.
#[derive(Clone, Copy, Debug, PartialEq, Eq)]
pub enum JoinRefusal {
    /// There was too little memory.
    Memory,
    /// The client had joined before.
    Busy,
    /// The trail has this many entries, and all the room that is left is promised.
    TrailFull(u32),
}

/// What a turn answers to a client that wants pages.
#[derive(Clone, Copy, Debug, PartialEq, Eq)]
pub enum Reply {
    /// Every wanted page is held, and there is room for the calls.
    Granted,
    /// These clients stand in the way.
    Pending(Crew),
    /// The client or a page belongs to a frozen association with this lead.
    Frozen(Who),
    /// The client or a page belongs to the association in doubt.
    InDoubt,
    /// The client had fallen by the mark at this place. So many recorded and unrecorded calls were dropped.
    RolledBack {
        mark: u64,
        recorded: u32,
        unrecorded: u32,
    },
    /// The trail has this many entries, and there is too little room for the wants and the calls.
    TrailFull(u32),
    /// This page has to be read first. So many commit marks stood in the trail then.
    Load {
        page: Page,
        marks: u64,
    },
}

/// What a turn answers to a client that serves the others, or departs.
#[derive(Clone, Copy, Debug, PartialEq, Eq)]
pub enum Served {
    Ok,
    /// The client had fallen by the mark at this place. So many recorded and unrecorded calls were dropped.
    RolledBack {
        mark: u64,
        recorded: u32,
        unrecorded: u32,
    },
}

/// What a turn answers to a client that wants its association stable.
#[derive(Clone, Copy, Debug, PartialEq, Eq)]
pub enum StabReply {
    /// These members have to hand in their pages.
    Gathering(Crew),
    /// This call sealed the association, with so many pages.
    Sealed(u32),
    /// The association is sealed and not finished. This is its lead.
    Doing(Who),
    /// The association is in doubt. This is its lead.
    Doubtful(Who),
    /// The kept outcome: the place of the commit mark.
    Committed(u64),
    /// The kept outcome: the write-out failed.
    Failed(Outcome),
    /// The client had fallen by the mark at this place. So many recorded and unrecorded calls were dropped.
    RolledBack {
        mark: u64,
        recorded: u32,
        unrecorded: u32,
    },
}

/// What the loss of a client came to. Its unrecorded calls are counted where it vanished.
#[derive(Clone, Copy, Debug, PartialEq, Eq)]
pub enum Loss {
    /// The rollback mark stands at this place.
    Lost { mark: u64, unrecorded: u32 },
    /// The association of this lead is being written, so the loss was noted.
    Noted { lead: Who, unrecorded: u32 },
    /// The client had fallen before, by the mark at this place.
    Already { mark: u64 },
}
