use casper_words::Memory;

/// Why a commit was not planned.
#[derive(Clone, Copy, Debug, PartialEq, Eq)]
pub enum PlanFault {
    /// There was no memory.
    Memory,
    /// The commit needs more frames than are free.
    Full { need: u32, free: u32 },
}

impl From<Memory> for PlanFault {
    ghost use Rattle.std.specs.Prelude.{◌≡◌};
    ghost use Rattle.casper_map.specs.declared.fault.PlanFault.TheVariants as fault;

    ghost from_gives = { λ _ made. made ≡ fault.Memory };

    fn from(_memory: Memory) -> PlanFault {
        PlanFault::Memory
    }
}
