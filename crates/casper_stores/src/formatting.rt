ghost use Rattle.std.specs.Prelude.{◌≡◌, ◌≢◌, ◌⊎◌, ◌↔◌, ◌+◌, ◌≤◌, ℕ, List, replicate, length, Some, Ok, IsTrue, IsFalse, IsErrOf, OnOk};
ghost use Rattle.casper_words.specs.Count.{FaultCountRose};
ghost use Rattle.casper_disk.specs.Disk.{none_loose};
ghost use Rattle.casper_disk.specs.Place.{is_standing};
ghost use Rattle.casper_root.specs.Opening.{are_sizes};
ghost use Rattle.casper_report.specs.declared.refusal.Refusal.{Refusal};
ghost use Rattle.casper_stable.specs.Formatted.{sizes, new_store};
ghost use Rattle.casper_stores.specs.Places.{HasDisk};
ghost use Rattle.casper_stores.specs.Stores.{store_under, format_refusal};

use crate::StoreFault;
use casper_disk::Shelf;
use casper_report::Refusal;
use casper_root::Header;
use casper_stable::Stable;
use std::alloc::Global;

/// Makes a new store of so many zero pages and frames under a name, on a disk of 5 + frames blocks, and closes it. `BadSize` comes
/// exactly where a size is out of range, before the shelf is asked, and then `Exists` exactly where the name is there.
///
/// The name stays where memory or the disk fails once its disk is made. After want of memory its blocks are zero; after a fault of
/// the disk they may open or be refused.
pub fn format<H: Shelf>(
    alloc: Global,
    shelf: &mut H,
    name: &[u8],
    pages: u32,
    frames: u32,
) -> Result<(), StoreFault>
    ensures bad_sizes { IsErrOf result (StoreFault.Refused (Refusal.BadSize pages frames))
        ↔ IsFalse (are_sizes (sizes pages frames)) }
    ensures refused { IsTrue H.tells → (refusal : Refusal)
        → IsErrOf result (StoreFault.Refused refusal)
        ↔ (format_refusal pages frames (H.place shelf.old name.now) ≡ Some refusal) }
    ensures new { IsTrue H.tells → OnOk result
        (store_under H.Disk.content (H.place shelf.new name.now)
        ≡ Ok (new_store (sizes pages frames))) }
    ensures blocks { IsTrue H.tells → OnOk result
        (HasDisk (λ disk. length (H.Disk.content disk) ≡ 5 + frames)
        (H.place shelf.new name.now)) }
    ensures settled { IsTrue H.tells → OnOk result
        (HasDisk (λ disk. H.Disk.loose disk ≡ none_loose) (H.place shelf.new name.now)) }
    ensures kept { IsTrue H.tells → (refusal : Refusal)
        → IsErrOf result (StoreFault.Refused refusal)
        → H.place shelf.new name.now ≡ H.place shelf.old name.now }
    ensures unwritten { IsTrue H.tells → IsErrOf result StoreFault.Memory
        → (H.place shelf.new name.now ≡ H.place shelf.old name.now)
        ⊎ HasDisk (λ disk. H.Disk.content disk ≡ replicate (5 + frames) (replicate 4096 0))
        (H.place shelf.new name.now) }
    ensures home { IsTrue H.tells
        → (H.place shelf.new name.now ≡ H.place shelf.old name.now)
        ⊎ IsTrue (is_standing (H.place shelf.new name.now)) }
    ensures others { IsTrue H.tells → (other : List ℕ) → other ≢ name.now
        → H.place shelf.new other ≡ H.place shelf.old other }
    ensures others_handed { (other : List ℕ) → other ≢ name.now
        → H.handed shelf.new other ≡ H.handed shelf.old other }
    ensures counted { IsErrOf result StoreFault.Disk
        → FaultCountRose (H.faults shelf.old) (H.faults shelf.new) }
    ensures never_falls { H.faults shelf.old ≤ H.faults shelf.new }
{
    if !are_in_range(pages, frames) {
        return Err(StoreFault::Refused(Refusal::BadSize { pages, frames }));
    }
    let disk = shelf.make(alloc, name, 5 + frames)?;
    match Stable::format(alloc, disk, pages, frames) {
        Ok(store) => {
            shelf.close(name, store.into_disk());
            Ok(())
        }
        Err((disk, fault)) => {
            shelf.close(name, disk);
            Err(fault.into())
        }
    }
}

/// Whether these are sizes of a store.
fn are_in_range(pages: u32, frames: u32) -> bool
    ensures { result ≡ are_sizes (sizes pages frames) }
{
    pages >= 1
        && pages <= Header::MOST_PAGES
        && frames >= Header::LEAST_FRAMES
        && frames <= Header::MOST_FRAMES
}
