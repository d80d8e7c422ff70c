//! Disks of blocks, what a stop leaves of them, and shelves on which they stand by name.
#![tactic(auto)]

mod blocks;
mod disk;
mod fail;
mod file_disk;
mod file_shelf;
mod handed;
mod host_file;
mod laws;
mod mem_disk;
mod mem_shelf;
mod mem_vault;
mod noted;
mod past;
mod plan;
mod shelf;
mod slot;
mod slots;
mod step;
mod tear;
mod undo;
mod vault;

pub use disk::{Disk, DiskFault};
pub use fail::{Fail, Kind, Pick};
pub use file_disk::FileDisk;
pub use file_shelf::FileShelf;
pub use laws::stop_laws;
pub use mem_disk::MemDisk;
pub use mem_shelf::MemShelf;
pub use mem_vault::MemVault;
pub use noted::{Call, Noted};
pub use shelf::{Shelf, ShelfFault};
pub use vault::{CommitFault, LAST_VERSION, Vault};
