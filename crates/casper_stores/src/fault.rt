use casper_disk::ShelfFault;
use casper_report::Refusal;
use casper_root::OpenFault;
use casper_words::Memory;

/// Why a command on a store was not carried out.
#[derive(Clone, Copy, Debug, PartialEq, Eq)]
pub enum StoreFault {
    /// There was no memory.
    Memory,
    /// The shelf or a disk failed.
    Disk,
    /// The name or what stands under it was refused.
    Refused(Refusal),
}

impl From<Memory> for StoreFault {
    ghost use Rattle.std.specs.Prelude.{◌≡◌};
    ghost use Rattle.casper_stores.specs.declared.fault.StoreFault.TheVariants as fault;

    ghost from_gives = { λ _ made. made ≡ fault.Memory };

    fn from(_memory: Memory) -> StoreFault {
        StoreFault::Memory
    }
}

impl From<OpenFault> for StoreFault {
    ghost use Rattle.std.specs.Prelude.{◌≡◌};
    ghost use Rattle.casper_stores.specs.Faults.{opening_fault};

    ghost from_gives = { λ fault made. made ≡ opening_fault fault };

    fn from(fault: OpenFault) -> StoreFault {
        let refusal = match fault {
            OpenFault::Memory => return StoreFault::Memory,
            OpenFault::Disk => return StoreFault::Disk,
            OpenFault::NotAStore => Refusal::NotAStore,
            OpenFault::Version(version) => Refusal::Version(version),
            OpenFault::BadSize { pages, frames } => Refusal::BadSize { pages, frames },
            OpenFault::Short { need, have } => Refusal::Short { need, have },
            OpenFault::NoRoot => Refusal::NoRoot,
            OpenFault::BadBody { seq, count } => Refusal::BadBody { seq, count },
            OpenFault::BadMap { page, frame } => Refusal::BadMap { page, frame },
        };
        StoreFault::Refused(refusal)
    }
}

impl From<ShelfFault> for StoreFault {
    ghost use Rattle.std.specs.Prelude.{◌≡◌};
    ghost use Rattle.casper_stores.specs.Faults.{shelf_fault};

    ghost from_gives = { λ fault made. made ≡ shelf_fault fault };

    fn from(fault: ShelfFault) -> StoreFault {
        match fault {
            ShelfFault::Memory => StoreFault::Memory,
            ShelfFault::Failed => StoreFault::Disk,
            ShelfFault::NoSuch => StoreFault::Refused(Refusal::NoSuch),
            ShelfFault::Exists => StoreFault::Refused(Refusal::Exists),
        }
    }
}
