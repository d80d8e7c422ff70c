ghost use Rattle.std.specs.Prelude.{◌≡◌, ◌⊎◌, ◌↔◌, ℕ, ◌+◌, ◌<◌, ◌≤◌, Bool, List, All, Option, None, Some, length, is_some, IsTrue, IsFalse, IsSome, IsErrOf, IsOkUnless, IfOk, IfErr, OnOk, OnErr};
ghost use Rattle.std.specs.List.Sorted.{IsStrictlyIncreasing};
ghost use Rattle.casper_words.specs.Count.{FaultCountRose};
ghost use Rattle.casper_space.specs.Changes.{Change, VaultRoom, pages_of, with_changes};
ghost use Rattle.casper_disk.specs.Disk.{KeepsImages, Took};
ghost use Rattle.casper_disk.specs.CommitFaults.{is_of_disk};
ghost use Rattle.casper_disk.specs.Vault.{Saved, IsOldOrNewImage, page_at, as_changes, changes_in, version_after, room_with, version_settled, room_settled, is_worn, lacking};

use crate::DiskFault;
use casper_words::{Frame, Memory, Page};
use std::alloc::Global;

/// The greatest version.
pub const LAST_VERSION: u64 = 281_474_976_710_655;

/// Why a vault did not commit.
#[derive(Clone, Copy, Debug, PartialEq, Eq)]
pub enum CommitFault {
    /// There was no memory.
    Memory,
    /// There is no further version.
    Worn,
    /// The commit needs more frames than are free.
    Full { need: u32, free: u32 },
    /// The disk failed, and a stop leaves the vault as it was.
    Disk,
    /// The disk failed, and a stop may leave the vault as it was or with the changes.
    Doubt,
}

impl From<Memory> for CommitFault {
    ghost use Rattle.std.specs.Prelude.{◌≡◌};
    ghost use Rattle.casper_disk.specs.declared.vault.CommitFault.{CommitFault};

    ghost from_gives = { λ _ fault. fault ≡ CommitFault.Memory };

    fn from(_: Memory) -> CommitFault {
        CommitFault::Memory
    }
}

/// A vault: a number of pages, whose words are changed by commits, each as a whole, and a version that rises with each commit of
/// at least one page.
///
/// A stop, at any moment and within a call too, leaves an image with its version. Where a commit failed so that a stop may leave
/// it done or not done, its changes are in doubt until a settle answers Ok, and the image is the one without them. A vault may
/// tell its image, the changes in doubt and what a stop leaves, or tell nothing of them. It counts its faults, up to `u64::MAX`.
pub trait Vault {
    // Whether vaults of this type tell their image, the changes in doubt and what a stop leaves.
    ghost tells: { Bool };

    // The number of pages.
    ghost size: { Self → ℕ };

    // The pages in order, each a list of its words.
    ghost image: { Self → List (List ℕ) };

    // The version of the image.
    ghost version: { Self → ℕ };

    // The room, where the vault has one.
    ghost room: { Self → Option VaultRoom };

    // The changes in doubt, where there is a doubt. Whether there is one holds of each vault.
    ghost doubt: { Self → Option (List Change) };

    // What a stop now may leave.
    ghost images_now: { Self → Saved → Type 0 };

    // The clock.
    ghost moment: { Self → ℕ };

    // What a stop at any moment since that one might have left.
    ghost images_since: { Self → ℕ → Saved → Type 0 };

    // How many calls failed by a fault of the disk.
    ghost faults: { Self → ℕ };

    // That the first vault may become the second one by calls. A type says here what all its calls keep, which may be more than
    // this trait can say.
    ghost leads_to: { Self → Self → Type 0 };

    /// The number of pages.
    fn pages(&self) -> u32
        ensures { result ≡ size self.now };

    /// The version of the image.
    fn version(&self) -> u64
        ensures { result ≡ version self.now };

    /// Whether changes are in doubt.
    fn in_doubt(&self) -> bool
        ensures { result ≡ is_some (doubt self.now) };

    /// Reads a page of the image. It changes nothing.
    fn read_page(&mut self, page: Page, into: &mut Frame) -> Result<(), DiskFault>
        requires { page < size self.old }
        ensures page { IsTrue tells → OnOk result (into.new ≡ page_at (image self.old) page) }
        ensures size { size self.new ≡ size self.old }
        ensures version { version self.new ≡ version self.old }
        ensures doubtful { is_some (doubt self.new) ≡ is_some (doubt self.old) }
        ensures image { IsTrue tells → image self.new ≡ image self.old }
        ensures room { room self.new ≡ room self.old }
        ensures doubt { IsTrue tells → doubt self.new ≡ doubt self.old }
        ensures images { IsTrue tells →
            Took (moment self.old) (moment self.new) (images_since self.old) (images_since self.new)
            (images_now self.old) }
        ensures counted { OnErr result (FaultCountRose (faults self.old) (faults self.new)) }
        ensures never_falls { faults self.old ≤ faults self.new }
        ensures leads { leads_to self.old self.new };

    /// Gives these pages these words, all of them or none. The answer is the version then, which is the next one where there is
    /// a change. The memory is taken before anything is written, then the version and the room are looked at, then the disk is
    /// used. Without a change the answer is Ok, or Memory.
    fn commit(&mut self, alloc: Global, changes: &[(Page, Frame)]) -> Result<u64, CommitFault>
        requires rising { IsStrictlyIncreasing (pages_of (as_changes changes.now)) }
        requires within { All (λ change. change.0 < size self.old) changes.now }
        requires sure { doubt self.old ≡ None }
        ensures answer { IfOk result (λ number. number ≡ version self.new) }
        ensures version { OnOk result (version self.new
            ≡ version_after (as_changes changes.now) (version self.old)) }
        ensures image { IsTrue tells
            → OnOk result (image self.new
            ≡ with_changes (image self.old) (as_changes changes.now)) }
        ensures room { OnOk result (room self.new
            ≡ room_with (as_changes changes.now) (room self.old)) }
        ensures doubtful { IsErrOf result CommitFault.Doubt ↔ IsSome (doubt self.new) }
        ensures doubt { IsTrue tells → IsErrOf result CommitFault.Doubt
            → doubt self.new ≡ Some (as_changes changes.now) }
        ensures same_version { OnErr result (version self.new ≡ version self.old) }
        ensures same_image { IsTrue tells → OnErr result (image self.new ≡ image self.old) }
        ensures same_room { OnErr result (room self.new ≡ room self.old) }
        ensures size { size self.new ≡ size self.old }
        ensures worn { IsErrOf result CommitFault.Memory
            ⊎ (IsErrOf result CommitFault.Worn
            ↔ IsTrue (is_worn (as_changes changes.now) (version self.old))) }
        ensures full { IsErrOf result CommitFault.Memory ⊎ IsErrOf result CommitFault.Worn
            ⊎ ((need free : ℕ) → IsErrOf result (CommitFault.Full need free)
            ↔ (lacking (as_changes changes.now) (room self.old)
            ≡ Some (record { need = need; free = free }))) }
        ensures unchanged { length changes.now ≡ 0 → IsOkUnless result CommitFault.Memory }
        ensures disk { IsErrOf result CommitFault.Disk
            → FaultCountRose (faults self.old) (faults self.new) }
        ensures doubt_counted { IsErrOf result CommitFault.Doubt
            → FaultCountRose (faults self.old) (faults self.new) }
        ensures never_falls { faults self.old ≤ faults self.new }
        ensures unused { IfErr result (λ fault. IsFalse (is_of_disk fault)
            → faults self.new ≡ faults self.old) }
        ensures stands { IsTrue tells → IfErr result (λ fault. IsFalse (is_of_disk fault) →
            KeepsImages (moment self.old) (moment self.new) (images_since self.old)
            (images_since self.new)) }
        ensures images { IsTrue tells →
            Took (moment self.old) (moment self.new) (images_since self.old) (images_since self.new)
            (IsOldOrNewImage (image self.old) (version self.old) (as_changes changes.now)
            (version_after (as_changes changes.now) (version self.old))) }
        ensures leads { leads_to self.old self.new };

    /// Makes the changes that are in doubt. The answer is the next version, which is then the image's. After a fault they are in
    /// doubt still. Where nothing is in doubt there is nothing to make, and the answer is the version.
    fn settle(&mut self) -> Result<u64, DiskFault>
        ensures answer { IfOk result (λ number. number ≡ version self.new) }
        ensures version { OnOk result (version self.new
            ≡ version_settled (doubt self.old) (version self.old)) }
        ensures sure { OnOk result (doubt self.new ≡ None) }
        ensures image { IsTrue tells
            → OnOk result (image self.new
            ≡ with_changes (image self.old) (changes_in (doubt self.old))) }
        ensures room { IsTrue tells
            → OnOk result (room self.new ≡ room_settled (doubt self.old) (room self.old)) }
        ensures in_doubt { OnErr result (IsSome (doubt self.old)) }
        ensures doubtful { OnErr result (IsSome (doubt self.new)) }
        ensures same_doubt { IsTrue tells → OnErr result (doubt self.new ≡ doubt self.old) }
        ensures same_version { OnErr result (version self.new ≡ version self.old) }
        ensures same_image { IsTrue tells → OnErr result (image self.new ≡ image self.old) }
        ensures same_room { OnErr result (room self.new ≡ room self.old) }
        ensures size { size self.new ≡ size self.old }
        ensures counted { OnErr result (FaultCountRose (faults self.old) (faults self.new)) }
        ensures never_falls { faults self.old ≤ faults self.new }
        ensures images { IsTrue tells →
            Took (moment self.old) (moment self.new) (images_since self.old) (images_since self.new)
            (IsOldOrNewImage (image self.old) (version self.old) (changes_in (doubt self.old))
            (version_settled (doubt self.old) (version self.old))) }
        ensures leads { leads_to self.old self.new };

    /// There are as many pages as the image has.
    ghost sized: { (vault : Self) → IsTrue tells → size vault ≡ length (image vault) };

    /// Each page has 512 words.
    ghost filled: { (vault : Self) (page : ℕ) → IsTrue tells → page < size vault → length (page_at (image vault) page) ≡ 512 };

    /// Without a doubt a stop leaves the image with its version.
    ghost sure_image: { (vault : Self) (saved : Saved) → IsTrue tells → doubt vault ≡ None → images_now vault saved →
        saved ≡ record { image = image vault; version = version vault } };

    /// In doubt a stop leaves that, or the image with the changes and the next version.
    ghost either_image: { (vault : Self) (changes : List Change) (saved : Saved) → IsTrue tells → doubt vault ≡ Some changes →
        images_now vault saved → IsOldOrNewImage (image vault) (version vault) changes (version vault + 1) saved };

    /// A stop leaves something.
    ghost leaves_one: { (vault : Self) → IsTrue tells → (saved : Saved) × images_now vault saved };

    /// What a stop now may leave is among what one since an earlier moment might have left.
    ghost now_counts: { (vault : Self) (past : ℕ) (saved : Saved) → IsTrue tells → past ≤ moment vault →
        images_now vault saved → images_since vault past saved };

    /// Since now there is only what a stop now may leave.
    ghost only_now: { (vault : Self) (saved : Saved) → IsTrue tells → images_since vault (moment vault) saved →
        images_now vault saved };

    /// What a stop since some moment might have left is among what one since an earlier moment might have left.
    ghost earlier_counts: { (vault : Self) (earlier later : ℕ) (saved : Saved) → IsTrue tells → earlier ≤ later →
        images_since vault later saved → images_since vault earlier saved };

    /// A vault leads to itself.
    ghost leads_to_itself: { (vault : Self) → leads_to vault vault };

    /// What leads to a vault leads to all that this one leads to.
    ghost leads_on: { (first second third : Self) → leads_to first second → leads_to second third → leads_to first third };
}
