use casper_disk::{CommitFault, ShelfFault};
use casper_root::OpenFault;
use casper_words::Memory;
use std::alloc::AllocError;
use std::io;

/// Why a measurement ended early.
#[derive(Debug, Drop)]
pub enum Fault {
    Memory,
    Shelf(ShelfFault),
    Store(OpenFault),
    Commit(CommitFault),
    /// The pages of a commit are not in rising order, or not all in the store.
    Pages,
    /// No page is to be held, or more than a cache holds.
    Held,
    Output,
}

impl From<AllocError> for Fault {
    fn from(_: AllocError) -> Fault {
        Fault::Memory
    }
}

impl From<Memory> for Fault {
    fn from(_: Memory) -> Fault {
        Fault::Memory
    }
}

impl From<ShelfFault> for Fault {
    fn from(fault: ShelfFault) -> Fault {
        Fault::Shelf(fault)
    }
}

impl From<CommitFault> for Fault {
    fn from(fault: CommitFault) -> Fault {
        Fault::Commit(fault)
    }
}

impl From<io::Error> for Fault {
    fn from(_: io::Error) -> Fault {
        Fault::Output
    }
}
