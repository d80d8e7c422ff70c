ghost use Rattle.std.specs.Prelude.{◌≡◌, ◌≢◌, ◌↔◌, ◌≤◌, ℕ, List, None, Ok, Err, IsTrue, IsFalse, IsErrOf, IfOk, OnOk, OnErr};
ghost use Rattle.casper_words.specs.Count.{FaultCountRose};
ghost use Rattle.casper_disk.specs.Disk.{none_loose, IsLooseWithin};
ghost use Rattle.casper_disk.specs.Handed.{faults_since, faults_with};
ghost use Rattle.casper_disk.specs.Place.{Out, Standing, is_standing};
ghost use Rattle.casper_map.specs.Mapped.{page_count};
ghost use Rattle.casper_report.specs.declared.refusal.Refusal.{Refusal};
ghost use Rattle.casper_stable.specs.KeptBy.{kept_by};
ghost use Rattle.casper_stable.specs.Opened.{shown, AddsNoWrites};
ghost use Rattle.casper_stores.specs.Places.{DiskGoesOn, SameContent, place_held};
ghost use Rattle.casper_stores.specs.Stores.{store_under};

use crate::StoreFault;
use casper_disk::Shelf;
use casper_stable::Stable;
use std::alloc::Global;

/// Opens the store that stands under a name. Its disk is out until the store is closed. Where the store is refused, its disk stands
/// under its name again, with its content.
pub fn open_store<H: Shelf>(
    alloc: Global,
    shelf: &mut H,
    name: &[u8],
) -> Result<Stable<H::Disk>, StoreFault>
    ensures nosuch { IsTrue H.tells
        → IsErrOf result (StoreFault.Refused Refusal.NoSuch)
        ↔ IsFalse (is_standing (H.place shelf.old name.now)) }
    ensures refused { IsTrue H.tells → (refusal : Refusal)
        → IsErrOf result (StoreFault.Refused refusal)
        → store_under H.Disk.content (H.place shelf.old name.now)
        ≡ Err (StoreFault.Refused refusal) }
    ensures found { IsTrue H.tells → IfOk result (λ store.
        store_under H.Disk.content (H.place shelf.old name.now)
        ≡ Ok (shown H.Disk.content (kept_by store))) }
    ensures sure { IfOk result (λ store. (kept_by store).doubt ≡ None) }
    ensures most { IfOk result (λ store. page_count (kept_by store).held ≤ 16384) }
    ensures settled { IsTrue H.tells
        → IfOk result (λ store. H.Disk.loose (kept_by store).disk ≡ none_loose) }
    ensures content { IsTrue H.tells → DiskGoesOn (SameContent H.Disk.content)
        (H.place shelf.old name.now)
        (place_held (λ store. (kept_by store).disk) result (H.place shelf.new name.now)) }
    ensures images { IsTrue H.tells → DiskGoesOn
        (AddsNoWrites H.Disk.content H.Disk.loose H.Disk.moment H.Disk.images_since)
        (H.place shelf.old name.now)
        (place_held (λ store. (kept_by store).disk) result (H.place shelf.new name.now)) }
    ensures leads { IsTrue H.tells → DiskGoesOn H.Disk.leads_to
        (H.place shelf.old name.now)
        (place_held (λ store. (kept_by store).disk) result (H.place shelf.new name.now)) }
    ensures unsettled { IsTrue H.tells → OnErr result
        (DiskGoesOn (λ disk after. IsLooseWithin (H.Disk.loose disk) (H.Disk.loose after))
        (H.place shelf.old name.now) (H.place shelf.new name.now)) }
    ensures missing { IsTrue H.tells → IsFalse (is_standing (H.place shelf.old name.now))
        → H.place shelf.new name.now ≡ H.place shelf.old name.now }
    ensures out { IsTrue H.tells → OnOk result (H.place shelf.new name.now ≡ Out) }
    ensures others { IsTrue H.tells → (other : List ℕ) → other ≢ name.now
        → H.place shelf.new other ≡ H.place shelf.old other }
    ensures handed { IfOk result (λ store.
        H.handed shelf.new name.now ≤ H.Disk.faults (kept_by store).disk) }
    ensures others_handed { (other : List ℕ) → other ≢ name.now
        → H.handed shelf.new other ≡ H.handed shelf.old other }
    ensures counted { IsErrOf result StoreFault.Disk
        → FaultCountRose (H.faults shelf.old) (H.faults shelf.new) }
    ensures never_falls { H.faults shelf.old ≤ H.faults shelf.new }
{
    let disk = shelf.open(alloc, name)?;
    match Stable::open(alloc, disk) {
        Ok(store) => Ok(store),
        Err((disk, fault)) => {
            shelf.close(name, disk);
            Err(fault.into())
        }
    }
}

/// Closes a store that was opened under a name: its disk stands there again. What is in doubt is left to what its blocks open to.
pub fn close_store<H: Shelf>(shelf: &mut H, name: &[u8], store: Stable<H::Disk>)
    requires { IsTrue H.tells → H.place shelf.old name.now ≡ Out }
    ensures stands { IsTrue H.tells → H.place shelf.new name.now ≡ Standing (kept_by store).disk }
    ensures left { IsTrue H.tells → (kept_by store).doubt ≡ None
        → store_under H.Disk.content (H.place shelf.new name.now)
        ≡ Ok (shown H.Disk.content (kept_by store)) }
    ensures others { IsTrue H.tells → (other : List ℕ) → other ≢ name.now
        → H.place shelf.new other ≡ H.place shelf.old other }
    ensures others_handed { (other : List ℕ) → other ≢ name.now
        → H.handed shelf.new other ≡ H.handed shelf.old other }
    ensures faults { H.faults shelf.new
        ≡ faults_with (H.faults shelf.old)
        (faults_since (H.handed shelf.old name.now) (H.Disk.faults (kept_by store).disk)) }
    ensures counted { FaultCountRose (H.handed shelf.old name.now)
        (H.Disk.faults (kept_by store).disk)
        → FaultCountRose (H.faults shelf.old) (H.faults shelf.new) }
    ensures never_falls { H.faults shelf.old ≤ H.faults shelf.new }
{
    shelf.close(name, store.into_disk());
}
