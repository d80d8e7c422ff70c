ghost use Rattle.std.specs.Prelude.{◌≡◌, ◌+◌};
ghost use Rattle.casper_map.specs.Room.{room_of};
ghost use Rattle.casper_space.specs.Changes.{free_of};
ghost use Rattle.casper_stable.specs.Kept.{used_of};
ghost use Rattle.casper_stable.specs.KeptBy.{kept_by};

use crate::Stable;
use casper_disk::Disk;

impl<D: Disk> Stable<D> {
    /// How many frames there are.
    pub fn frames(&self) -> u32
        ensures { result ≡ (kept_by self.now).held.frames }
    {
        self.store.frames()
    }

    /// How many frames the current root names.
    pub fn used(&self) -> u32
        ensures count { result ≡ used_of (kept_by self.now) }
        ensures free { result + free_of (room_of (kept_by self.now).held)
            ≡ (kept_by self.now).held.frames }
    {
        self.store.used()
    }

    /// The disk. What is in doubt is left to what its blocks open to.
    pub fn into_disk(self) -> D
        ensures { result ≡ (kept_by self).disk }
    {
        self.store.into_disk()
    }
}
