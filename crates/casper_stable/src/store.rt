ghost use Rattle.std.specs.Prelude.{◌≡◌, ◌+◌, ◌≤◌, is_some};
ghost use Rattle.casper_space.specs.Changes.{free_of, last_version};
ghost use Rattle.casper_map.specs.Mapped.{page_count};
ghost use Rattle.casper_map.specs.Room.{room_of};
ghost use Rattle.casper_stable.specs.Kept.{used_of};

use casper_commit::Standing;
use casper_disk::Disk;
use casper_map::{Plan, ShadowMap};
use casper_root::{Body, Header};
use casper_words::Block;
use std::marker::Model;

/// What a vault over a disk keeps. Contracts see all but the block, which is used to read and to write.
#[derive(Drop)]
pub(crate) struct Store<D: Disk> {
    pub(crate) disk: D,
    pub(crate) header: Header,
    pub(crate) standing: Standing,
    pub(crate) body: Body,
    pub(crate) map: ShadowMap,
    /// The plan of the commit that is in doubt.
    pub(crate) doubt: Option<Plan>,
    pub(crate) block: Block,
}

impl<D: Disk> Model for Store<D> {
    ghost use Rattle.casper_stable.specs.Kept.{Kept, roots_of};

    ghost Value = { Kept D };

    ghost use Rattle.casper_stable.specs.Sound.{IsFit, IsOnDisk};
    ghost use Rattle.std.specs.Prelude.{IsTrue};

    ghost view = { λ own. record {
      disk = own.disk;
      header = own.header;
      standing = own.standing;
      body = own.body;
      held = own.map;
      doubt = own.doubt;
    } };

    ghost invariant = { λ own.
        IsFit (D.size own.disk) (roots_of own.header own.standing own.body) own.map own.doubt
        × (IsTrue D.tells → IsOnDisk (roots_of own.header own.standing own.body) own.map own.doubt
        (D.content own.disk) (D.loose own.disk)) };
}

impl<D: Disk> Store<D> {
    /// The number of pages.
    pub(crate) fn pages(&self) -> u32
        ensures { result ≡ page_count self.now.held }
    {
        self.header.pages
    }

    /// The version.
    pub(crate) fn version(&self) -> u64
        ensures version { result ≡ self.now.body.seq }
        ensures most { result ≤ last_version }
    {
        self.body.seq
    }

    /// Whether a commit is in doubt.
    pub(crate) fn in_doubt(&self) -> bool
        ensures { result ≡ is_some self.now.doubt }
    {
        self.doubt.is_some()
    }

    /// How many frames there are.
    pub(crate) fn frames(&self) -> u32
        ensures { result ≡ self.now.held.frames }
    {
        self.map.frames()
    }

    /// How many frames the current root names.
    pub(crate) fn used(&self) -> u32
        ensures count { result ≡ used_of self.now }
        ensures free { result + free_of (room_of self.now.held) ≡ self.now.held.frames }
    {
        self.map.used()
    }

    /// The disk.
    pub(crate) fn into_disk(self) -> D
        ensures { result ≡ self.disk }
    {
        let Store { disk, .. } = self;
        disk
    }
}
