ghost use Rattle.std.specs.Prelude.{◌≡◌, ◌==◌, ℕ, ◌<◌, ◌≤◌, Bool, false, List, length, slice_set, IsTrue, OnOk, OnErr};
ghost use Rattle.casper_words.specs.Count.{FaultCountRose};
ghost use Rattle.casper_disk.specs.Disk.{block_at, none_loose, with_loose, IsLooseWithin, AgreesBut, Elapses, KeepsImages};

use casper_words::Block;

/// The answer of a disk that did not carry out a call.
#[derive(Clone, Copy, Debug, PartialEq, Eq)]
pub enum DiskFault {
    Failed,
}

/// A disk: a number of blocks of 4,096 bytes, which are read and written whole.
///
/// A block is loose, at most, from the start of a write of it until a sync answers Ok. A stop, at any moment and within a call too,
/// leaves an image: the content, but with any bytes in the blocks that are loose. A disk may tell its content, its loose
/// blocks and its images, or tell nothing of them. It counts its faults, up to `u64::MAX`.
pub trait Disk {
    // Whether disks of this type tell their content, their loose blocks and their images.
    ghost tells: { Bool };

    // The number of blocks.
    ghost size: { Self → ℕ };

    // The blocks in order.
    ghost content: { Self → List (List ℕ) };

    // Whether a block is loose.
    ghost loose: { Self → ℕ → Bool };

    // The images that a stop now may leave.
    ghost images_now: { Self → List (List ℕ) → Type 0 };

    // The clock.
    ghost moment: { Self → ℕ };

    // The images that a stop at any moment since that one might have left.
    ghost images_since: { Self → ℕ → List (List ℕ) → Type 0 };

    // How many calls failed.
    ghost faults: { Self → ℕ };

    // That the first disk may become the second one by calls. A type says here what all its calls keep, which may be more than
    // this trait can say.
    ghost leads_to: { Self → Self → Type 0 };

    /// The number of blocks.
    fn blocks(&self) -> u32
        ensures { result ≡ size self.now };

    /// Reads a block into this one, which may hold anything after a fault. It changes nothing of the disk.
    fn read(&mut self, at: u32, into: &mut Block) -> Result<(), DiskFault>
        requires { at < size self.old }
        ensures block { IsTrue tells → OnOk result (into.new ≡ block_at (content self.old) at) }
        ensures size { size self.new ≡ size self.old }
        ensures content { IsTrue tells → content self.new ≡ content self.old }
        ensures loose { IsTrue tells → IsLooseWithin (loose self.old) (loose self.new) }
        ensures images { IsTrue tells →
            KeepsImages (moment self.old) (moment self.new) (images_since self.old)
            (images_since self.new) }
        ensures counted { OnErr result (FaultCountRose (faults self.old) (faults self.new)) }
        ensures never_falls { faults self.old ≤ faults self.new }
        ensures leads { leads_to self.old self.new };

    /// Writes a block, which may then be loose. After a fault its content is not known.
    fn write(&mut self, at: u32, from: &Block) -> Result<(), DiskFault>
        requires { at < size self.old }
        ensures size { size self.new ≡ size self.old }
        ensures written { IsTrue tells
            → OnOk result (content self.new ≡ slice_set (content self.old) at from.now) }
        ensures others { IsTrue tells
            → AgreesBut (λ other. other == at) (content self.old) (content self.new) }
        ensures loose { IsTrue tells →
            IsLooseWithin (with_loose at (loose self.old)) (loose self.new) }
        ensures images { IsTrue tells →
            Elapses (moment self.old) (moment self.new) (images_since self.old)
            (images_since self.new)
            (with_loose at (loose self.old)) (content self.old) }
        ensures counted { OnErr result (FaultCountRose (faults self.old) (faults self.new)) }
        ensures never_falls { faults self.old ≤ faults self.new }
        ensures leads { leads_to self.old self.new };

    /// Settles what was written. After a fault each block that was loose may still be.
    fn sync(&mut self) -> Result<(), DiskFault>
        ensures size { size self.new ≡ size self.old }
        ensures content { IsTrue tells → content self.new ≡ content self.old }
        ensures settled { IsTrue tells → OnOk result (loose self.new ≡ none_loose) }
        ensures unsettled { IsTrue tells →
            OnErr result (IsLooseWithin (loose self.old) (loose self.new)) }
        ensures images { IsTrue tells →
            Elapses (moment self.old) (moment self.new) (images_since self.old)
            (images_since self.new)
            (loose self.old) (content self.old) }
        ensures counted { OnErr result (FaultCountRose (faults self.old) (faults self.new)) }
        ensures never_falls { faults self.old ≤ faults self.new }
        ensures leads { leads_to self.old self.new };

    /// There are as many blocks as the content has.
    ghost sized: { (disk : Self) → IsTrue tells → size disk ≡ length (content disk) };

    /// The content is one of the images.
    ghost content_is_image: { (disk : Self) → IsTrue tells → images_now disk (content disk) };

    /// An image differs from the content in loose blocks alone.
    ghost images_agree: { (disk : Self) (image : List (List ℕ)) → IsTrue tells → images_now disk image →
        AgreesBut (loose disk) (content disk) image };

    /// The images of now are among those since each earlier moment.
    ghost now_counts: { (disk : Self) (past : ℕ) (image : List (List ℕ)) → IsTrue tells → past ≤ moment disk →
        images_now disk image → images_since disk past image };

    /// Since now there are only the images of now.
    ghost only_now: { (disk : Self) (image : List (List ℕ)) → IsTrue tells → images_since disk (moment disk) image →
        images_now disk image };

    /// The images since some moment are among those since an earlier one.
    ghost earlier_counts: { (disk : Self) (earlier later : ℕ) (image : List (List ℕ)) → IsTrue tells → earlier ≤ later →
        images_since disk later image → images_since disk earlier image };

    /// A disk leads to itself.
    ghost leads_to_itself: { (disk : Self) → leads_to disk disk };

    /// What leads to a disk leads to all that this one leads to.
    ghost leads_on: { (first second third : Self) → leads_to first second → leads_to second third → leads_to first third };
}
