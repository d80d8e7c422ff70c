use casper_disk::DiskFault;
use casper_words::Memory;
use thiserror::Error;

/// Why a store was not opened.
#[derive(Clone, Copy, Debug, PartialEq, Eq, Error)]
pub enum OpenFault {
    #[error("memory is short")]
    Memory,
    #[error("the disk failed")]
    Disk,
    /// The header does not begin with the name of a store.
    #[error("no store")]
    NotAStore,
    /// The store has another version.
    #[error("a store of version {0}")]
    Version(u32),
    /// The sizes in the header are out of range.
    #[error("a store of {pages} pages and {frames} frames")]
    BadSize { pages: u32, frames: u32 },
    /// The disk has fewer blocks than it needs.
    #[error("{have} blocks where {need} are needed")]
    Short { need: u32, have: u32 },
    /// Both gates are closed.
    #[error("no open root")]
    NoRoot,
    /// The sequence number of the current root is out of range, or it has another number of map blocks.
    #[error("a root with number {seq} and {count} map blocks")]
    BadBody { seq: u64, count: u32 },
    /// The frame number of a page or of a map block is out of range or is there twice.
    #[error("page {page} at frame {frame}")]
    BadMap { page: u32, frame: u32 },
}

impl From<Memory> for OpenFault {
    ghost use Rattle.std.specs.Prelude.{◌≡◌};
    ghost use Rattle.casper_root.specs.declared.fault.OpenFault.TheVariants as fault;

    ghost from_gives = { λ _ made. made ≡ fault.Memory };

    fn from(_memory: Memory) -> OpenFault {
        OpenFault::Memory
    }
}

impl From<DiskFault> for OpenFault {
    ghost use Rattle.std.specs.Prelude.{◌≡◌};
    ghost use Rattle.casper_root.specs.declared.fault.OpenFault.TheVariants as fault;

    ghost from_gives = { λ _ made. made ≡ fault.Disk };

    fn from(_fault: DiskFault) -> OpenFault {
        OpenFault::Disk
    }
}
