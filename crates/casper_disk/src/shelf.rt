ghost use Rattle.std.specs.Prelude.{◌≡◌, ◌≢◌, ◌↔◌, ℕ, ◌≤◌, Bool, List, replicate, IsTrue, IsFalse, IsErrOf, IfOk, OnOk, OnErr};
ghost use Rattle.casper_words.specs.Count.{FaultCountRose};
ghost use Rattle.casper_disk.specs.Disk.{none_loose};
ghost use Rattle.casper_disk.specs.Handed.{faults_since, faults_with};
ghost use Rattle.casper_disk.specs.Place.{Place, Out, Standing, is_standing, is_there};

use crate::Disk;
use casper_words::Memory;
use std::alloc::Global;

/// Why a shelf did not hand out a disk.
#[derive(Clone, Copy, Debug, PartialEq, Eq)]
pub enum ShelfFault {
    /// No disk stands under the name.
    NoSuch,
    /// The name is there already.
    Exists,
    /// The shelf did not carry out the call.
    Failed,
    /// There was no memory.
    Memory,
}

impl From<Memory> for ShelfFault {
    ghost use Rattle.std.specs.Prelude.{◌≡◌};
    ghost use Rattle.casper_disk.specs.declared.shelf.ShelfFault.{ShelfFault};

    ghost from_gives = { λ _ fault. fault ≡ ShelfFault.Memory };

    fn from(_: Memory) -> ShelfFault {
        ShelfFault::Memory
    }
}

/// A shelf, on which disks stand by name. A disk that was opened or made is out until it is closed, and its name is there all
/// the while.
///
/// A shelf may tell what stands under each name, or tell nothing. It counts its faults, up to `u64::MAX`: the opens and makes that
/// failed, and of each disk that was closed the calls that failed since it was handed out.
pub trait Shelf {
    type Disk: Disk + Send;

    // Whether shelves of this type tell what stands under each name.
    ghost tells: { Bool };

    // What stands under a name.
    ghost place: { Self → List ℕ → Place Self.Disk };

    // The faults that the disk of a name had when it was last handed out.
    ghost handed: { Self → List ℕ → ℕ };

    // How many calls failed, of the shelf and of the disks that were closed.
    ghost faults: { Self → ℕ };

    /// Hands out the disk that stands under the name, as it stood.
    fn open(&mut self, alloc: Global, name: &[u8]) -> Result<Self::Disk, ShelfFault>
        ensures nosuch { IsTrue tells
            → IsErrOf result ShelfFault.NoSuch ↔ IsFalse (is_standing (place self.old name.now)) }
        ensures stood { IsTrue tells
            → IfOk result (λ disk. place self.old name.now ≡ Standing disk) }
        ensures out { IsTrue tells → OnOk result (place self.new name.now ≡ Out) }
        ensures others { IsTrue tells → (other : List ℕ) → other ≢ name.now
            → place self.new other ≡ place self.old other }
        ensures kept { IsTrue tells
            → OnErr result (place self.new name.now ≡ place self.old name.now) }
        ensures handed { IfOk result (λ disk. handed self.new name.now ≡ Self.Disk.faults disk) }
        ensures handed_before { OnErr result (handed self.new name.now ≡ handed self.old name.now) }
        ensures others_handed { (other : List ℕ) → other ≢ name.now
            → handed self.new other ≡ handed self.old other }
        ensures new_alone { IsErrOf result ShelfFault.Exists → ⊥ }
        ensures counted { IsErrOf result ShelfFault.Failed
            → FaultCountRose (faults self.old) (faults self.new) }
        ensures never_falls { faults self.old ≤ faults self.new };

    /// Hands out a new disk of as many zero blocks, none of them loose. Its name is there from then on.
    fn make(&mut self, alloc: Global, name: &[u8], blocks: u32) -> Result<Self::Disk, ShelfFault>
        ensures exists { IsTrue tells
            → IsErrOf result ShelfFault.Exists ↔ IsTrue (is_there (place self.old name.now)) }
        ensures zero { IsTrue tells
            → IfOk result (λ disk. Self.Disk.content disk ≡ replicate blocks (replicate 4096 0)) }
        ensures settled { IsTrue tells → IfOk result (λ disk. Self.Disk.loose disk ≡ none_loose) }
        ensures out { IsTrue tells → OnOk result (place self.new name.now ≡ Out) }
        ensures others { IsTrue tells → (other : List ℕ) → other ≢ name.now
            → place self.new other ≡ place self.old other }
        ensures kept { IsTrue tells
            → OnErr result (place self.new name.now ≡ place self.old name.now) }
        ensures handed { IfOk result (λ disk. handed self.new name.now ≡ Self.Disk.faults disk) }
        ensures handed_before { OnErr result (handed self.new name.now ≡ handed self.old name.now) }
        ensures others_handed { (other : List ℕ) → other ≢ name.now
            → handed self.new other ≡ handed self.old other }
        ensures old_alone { IsErrOf result ShelfFault.NoSuch → ⊥ }
        ensures counted { IsErrOf result ShelfFault.Failed
            → FaultCountRose (faults self.old) (faults self.new) }
        ensures never_falls { faults self.old ≤ faults self.new };

    /// Takes a disk back, which then stands under its name as it was handed in. The calls of the disk that failed since it was handed
    /// out count among the faults of the shelf. It takes no memory.
    fn close(&mut self, name: &[u8], disk: Self::Disk)
        requires { IsTrue tells → place self.old name.now ≡ Out }
        ensures stands { IsTrue tells → place self.new name.now ≡ Standing disk }
        ensures others { IsTrue tells → (other : List ℕ) → other ≢ name.now
            → place self.new other ≡ place self.old other }
        ensures others_handed { (other : List ℕ) → other ≢ name.now
            → handed self.new other ≡ handed self.old other }
        ensures faults { faults self.new
            ≡ faults_with (faults self.old)
            (faults_since (handed self.old name.now) (Self.Disk.faults disk)) }
        ensures counted { FaultCountRose (handed self.old name.now) (Self.Disk.faults disk)
            → FaultCountRose (faults self.old) (faults self.new) }
        ensures never_falls { faults self.old ≤ faults self.new };

    /// Where the shelf tells what stands, its disks tell their content.
    ghost disks_tell: { IsTrue tells → IsTrue Self.Disk.tells };
}
