ghost use Rattle.std.specs.Prelude.{◌≡◌};

use casper_audit::AuditRule;
use casper_report::Refusal;
use casper_root::OpenFault;
use casper_stores::StoreFault;
use casper_words::Memory;

/// Why a call of `run` ended before it was done.
#[derive(Clone, Copy, Debug, PartialEq, Eq)]
pub enum Cause {
    /// The words are no command.
    Usage,
    /// The source failed.
    Read,
    /// The sink failed.
    Write,
    /// The shelf or a disk failed as a store was made, opened or checked.
    Disk,
    /// The store was refused.
    Refused(Refusal),
    /// Memory was short.
    Memory,
    /// The line of this number, from 1, is of no known form.
    BadLine(u32),
    /// The item at this place of the trail is the first bad one, by this rule.
    Illegal { at: u64, rule: AuditRule },
    /// The command (0), or the line of this number, is not built yet.
    Unbuilt(u32),
}

impl Cause {
    ghost use Rattle.casper_app.specs.Status.{status_of};

    /// The status with which the program ends.
    pub fn status(&self) -> u8
        ensures { result ≡ status_of self.now }
    {
        match self {
            Cause::Usage => 2,
            Cause::Read => 3,
            Cause::Write => 4,
            Cause::Disk => 5,
            Cause::Refused(_) => 6,
            Cause::Memory => 7,
            Cause::BadLine(_) => 8,
            Cause::Illegal { .. } => 9,
            Cause::Unbuilt(_) => 10,
        }
    }
}

impl From<Memory> for Cause {
    ghost use Rattle.std.specs.Prelude.{◌≡◌};
    ghost use Rattle.casper_app.specs.declared.cause.Cause.TheVariants as cause;

    ghost from_gives = { λ _ made. made ≡ cause.Memory };

    fn from(_memory: Memory) -> Cause {
        Cause::Memory
    }
}

impl From<StoreFault> for Cause {
    ghost use Rattle.std.specs.Prelude.{◌≡◌};
    ghost use Rattle.casper_app.specs.Opening.{cause_of_store};

    ghost from_gives = { λ fault made. made ≡ cause_of_store fault };

    fn from(fault: StoreFault) -> Cause {
        match fault {
            StoreFault::Memory => Cause::Memory,
            StoreFault::Disk => Cause::Disk,
            StoreFault::Refused(refusal) => Cause::Refused(refusal),
        }
    }
}

impl From<OpenFault> for Cause {
    ghost use Rattle.std.specs.Prelude.{◌≡◌};
    ghost use Rattle.casper_app.specs.Opening.{cause_of_opening};

    ghost from_gives = { λ fault made. made ≡ cause_of_opening fault };

    fn from(fault: OpenFault) -> Cause {
        StoreFault::from(fault).into()
    }
}
