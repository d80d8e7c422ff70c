ghost use Rattle.std.specs.Prelude.{◌≡◌};
ghost use Rattle.casper_stable.specs.Sound.{IsKept, IsHeld};

use crate::store::Store;
use casper_disk::Disk;

/// A vault over a disk: pages in frames, changed as a whole by one change of a root.
///
/// Contracts see what it keeps. A stop leaves what the blocks of the disk then open to.
#[derive(Drop)]
pub struct Stable<D: Disk> {
    pub(crate) store: Store<D>,
    // What the disk holds is what the store says, so a stop at any moment leaves one of its images.
    ghost stands: { ∥ IsKept D.size store × IsHeld D.tells D.content D.loose store ∥₁ },
}

impl<D: Disk> Stable<D> {
    /// The vault of a store.
    pub(crate) fn of(store: Store<D>) -> Stable<D>
        ensures { result.store ≡ store }
    {
        let _disk = &store.disk;
        Stable { store }
    }
}
