ghost use Rattle.std.specs.Prelude.{◌≡◌, List, [], ◌∷◌, ◌++◌};
ghost use Rattle.std.specs.Borrow.{ftrue};
ghost use Rattle.casper_disk.specs.Vault.{Saved};
ghost use Rattle.casper_disk.specs.MemVault.{saved_of};

use casper_words::Frame;
use std::marker::Model;

/// What a stop would have left of a vault in memory before each of its commits, oldest first. Only proofs read it: it takes no
/// memory, and its calls do nothing.
#[derive(Drop)]
pub(crate) struct Past {
    pub(crate) ghost saved: { List Saved },
}

impl Model for Past {
    ghost also_owns = { λ _. ftrue };
}

// It owns nothing.
unsafe impl Send for Past {}

impl Past {
    /// Of a vault that has made no commit.
    pub(crate) fn new() -> Past
        ensures { result.saved ≡ [] }
    {
        Past {}
    }

    /// Of a vault that had these frames and this version before one more commit.
    pub(crate) fn then(&self, _frames: &[Option<Frame>], _version: u64) -> Past
        ensures { result.saved ≡ self.now.saved ++ saved_of _frames.now _version ∷ [] }
    {
        Past {}
    }
}
