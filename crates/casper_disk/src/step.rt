ghost use Rattle.std.specs.Prelude.{◌≡◌};
ghost use Rattle.casper_disk.specs.StepKinds.{is_synced, is_written};

use casper_words::Block;

/// What a disk in memory remembers of a write or a sync.
#[derive(Drop)]
pub(crate) enum Step {
    /// A write of a block, with what it had before.
    Wrote { at: u32, was: Block },
    /// A sync that settled all blocks.
    Synced,
    /// A sync that failed.
    Unsynced,
    /// Writes that the record had no room for, as whether there was one for each block.
    Missed { marks: Vec<bool> },
}

impl Step {
    /// Whether it settled all blocks.
    pub(crate) fn is_synced(&self) -> bool
        ensures { result ≡ is_synced self.now }
    {
        match self {
            Step::Wrote { at: _, was: _ } => false,
            Step::Synced => true,
            Step::Unsynced => false,
            Step::Missed { marks: _ } => false,
        }
    }

    /// Whether it wrote a block.
    pub(crate) fn is_written(&self) -> bool
        ensures { result ≡ is_written self.now }
    {
        match self {
            Step::Wrote { at: _, was: _ } => true,
            Step::Synced => false,
            Step::Unsynced => false,
            Step::Missed { marks: _ } => false,
        }
    }
}
