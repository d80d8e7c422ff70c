use casper_words::Memory;

/// Why an item of a trail is bad.
#[derive(Clone, Copy, Debug, PartialEq, Eq)]
pub enum AuditRule {
    /// A read has another value than its word had.
    Read,
    /// The members of a commit are not the association of its lead.
    Commit,
    /// The members of a rollback are not the association of the lost client.
    Rollback,
}

/// What a trail's text was found to be.
#[derive(Clone, Copy, Debug, PartialEq, Eq)]
pub enum Verdict {
    /// The trail is legal and its marks are exact. It has this many entries.
    Legal(u32),
    /// The first bad item stands at this place among the items, counted from 0.
    FirstBad { at: u64, rule: AuditRule },
}

/// Why a trail's text was not read to a verdict.
#[derive(Clone, Copy, Debug, PartialEq, Eq)]
pub enum AuditFault {
    /// There was too little memory.
    Memory,
    /// A read of the source failed.
    Read,
    /// The line of this number, counted from 1, is of no known form, too long, out of its order, or one too many.
    BadLine(u32),
}

impl From<Memory> for AuditFault {
    ghost use Rattle.std.specs.Prelude.{◌≡◌};
    ghost use Rattle.casper_audit.specs.declared.verdict.AuditFault.TheVariants as fault;

    ghost from_gives = { λ _ made. made ≡ fault.Memory };

    fn from(_error: Memory) -> AuditFault {
        AuditFault::Memory
    }
}
