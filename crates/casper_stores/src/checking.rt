ghost use Rattle.std.specs.Prelude.{◌≡◌, ◌≢◌, ◌↔◌, ◌≤◌, ℕ, List, Ok, Err, IsTrue, IsFalse, IsErrOf, IsOkAnd, IfOk, OnOk};
ghost use Rattle.casper_words.specs.Count.{FaultCountRose};
ghost use Rattle.casper_disk.specs.Disk.{none_loose};
ghost use Rattle.casper_disk.specs.Place.{is_standing};
ghost use Rattle.casper_report.specs.declared.refusal.Refusal.{Refusal};
ghost use Rattle.casper_stable.specs.Opened.{AddsNoWrites};
ghost use Rattle.casper_stores.specs.Places.{HasDisk, DiskGoesOn, SameContent};
ghost use Rattle.casper_stores.specs.Stores.{store_under, checked_of};

use crate::{StoreFault, close_store, open_store};
use casper_disk::{Shelf, Vault};
use std::alloc::Global;

/// What a check tells of a store: its sizes, its version, and how many frames its current root names.
#[derive(Clone, Copy, Debug, PartialEq, Eq)]
pub struct Checked {
    pub pages: u32,
    pub frames: u32,
    pub version: u64,
    pub used: u32,
}

/// Opens the store that stands under a name, and closes it again. It changes nothing of the content of any disk.
pub fn check<H: Shelf>(alloc: Global, shelf: &mut H, name: &[u8]) -> Result<Checked, StoreFault>
    ensures nosuch { IsTrue H.tells
        → IsErrOf result (StoreFault.Refused Refusal.NoSuch)
        ↔ IsFalse (is_standing (H.place shelf.old name.now)) }
    ensures refused { IsTrue H.tells → (refusal : Refusal)
        → IsErrOf result (StoreFault.Refused refusal)
        → store_under H.Disk.content (H.place shelf.old name.now)
        ≡ Err (StoreFault.Refused refusal) }
    ensures found { IsTrue H.tells → IfOk result (λ checked.
        IsOkAnd (store_under H.Disk.content (H.place shelf.old name.now))
        (λ store. checked ≡ checked_of store)) }
    ensures content { IsTrue H.tells → DiskGoesOn (SameContent H.Disk.content)
        (H.place shelf.old name.now) (H.place shelf.new name.now) }
    ensures images { IsTrue H.tells → DiskGoesOn
        (AddsNoWrites H.Disk.content H.Disk.loose H.Disk.moment H.Disk.images_since)
        (H.place shelf.old name.now) (H.place shelf.new name.now) }
    ensures leads { IsTrue H.tells → DiskGoesOn H.Disk.leads_to
        (H.place shelf.old name.now) (H.place shelf.new name.now) }
    ensures settled { IsTrue H.tells → OnOk result
        (HasDisk (λ disk. H.Disk.loose disk ≡ none_loose) (H.place shelf.new name.now)) }
    ensures missing { IsTrue H.tells → IsFalse (is_standing (H.place shelf.old name.now))
        → H.place shelf.new name.now ≡ H.place shelf.old name.now }
    ensures others { IsTrue H.tells → (other : List ℕ) → other ≢ name.now
        → H.place shelf.new other ≡ H.place shelf.old other }
    ensures others_handed { (other : List ℕ) → other ≢ name.now
        → H.handed shelf.new other ≡ H.handed shelf.old other }
    ensures counted { IsErrOf result StoreFault.Disk
        → FaultCountRose (H.faults shelf.old) (H.faults shelf.new) }
    ensures never_falls { H.faults shelf.old ≤ H.faults shelf.new }
{
    let store = open_store(alloc, shelf, name)?;
    let checked = Checked {
        pages: store.pages(),
        frames: store.frames(),
        version: store.version(),
        used: store.used(),
    };
    close_store(shelf, name, store);
    Ok(checked)
}
