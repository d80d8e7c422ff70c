ghost use Rattle.std.specs.Prelude.{◌≡◌, ◌≤◌, None, Ok, Err, IsTrue, IfOk, IfErr, OnOk, OnErr};
ghost use Rattle.casper_words.specs.Count.{FaultCountRose};
ghost use Rattle.casper_disk.specs.Disk.{none_loose, IsLooseWithin};
ghost use Rattle.casper_root.specs.Reading.{IsOnlyRead};
ghost use Rattle.casper_map.specs.Mapped.{page_count};
ghost use Rattle.casper_stable.specs.Opened.{shown, IsRefusalOf, DiskMeets, OpenTo, AddsNoWrites};
ghost use Rattle.casper_stable.specs.Kept.{roots_in};
ghost use Rattle.casper_stable.specs.KeptBy.{kept_by};
ghost use Rattle.casper_stable.specs.Opens.{opens};
ghost use Rattle.casper_stable.specs.Sound.{IsFit};

use crate::Stable;
use crate::store::Store;
use casper_commit::Standing;
use casper_disk::Disk;
use casper_map::ShadowMap;
use casper_root::{OpenFault, Roots, open_roots};
use casper_words::Block;
use std::alloc::Global;

/// What an opening found or a format made: the current root with its map, and a block for later calls.
#[derive(Drop)]
pub(crate) struct Found {
    pub(crate) roots: Roots,
    pub(crate) map: ShadowMap,
    pub(crate) block: Block,
}

impl<D: Disk> Stable<D> {
    /// Opens the store of a disk. It reads the header, the gates, the bodies and the map blocks that the current root names, each
    /// once, and then syncs, so that nothing from before is loose. A refusal is the first one of the blocks; `Disk` comes only
    /// where a read or the sync failed. With a fault the disk is handed back, and its content is unchanged.
    pub fn open(alloc: Global, disk: D) -> Result<Stable<D>, (D, OpenFault)>
        ensures found { IsTrue D.tells →
            IfOk result (λ stable. opens (D.content disk)
            ≡ Ok (shown D.content (kept_by stable))) }
        ensures refused { IsTrue D.tells →
            IfErr result (λ refused. IsRefusalOf (opens (D.content disk)) refused.1) }
        ensures sure { IfOk result (λ stable. (kept_by stable).doubt ≡ None) }
        ensures most { IfOk result (λ stable. page_count (kept_by stable).held ≤ 16384) }
        ensures size { DiskMeets (λ stable. (kept_by stable).disk) result
            (λ after. D.size after ≡ D.size disk) }
        ensures leads { DiskMeets (λ stable. (kept_by stable).disk) result
            (λ after. D.leads_to disk after) }
        ensures content { IsTrue D.tells → DiskMeets (λ stable. (kept_by stable).disk) result
            (λ after. D.content after ≡ D.content disk) }
        ensures settled { IsTrue D.tells →
            IfOk result (λ stable. D.loose (kept_by stable).disk ≡ none_loose) }
        ensures unsettled { IsTrue D.tells → IfErr result
            (λ refused. IsLooseWithin (D.loose disk) (D.loose refused.0)) }
        ensures images { IsTrue D.tells → DiskMeets (λ stable. (kept_by stable).disk) result
            (AddsNoWrites D.content D.loose D.moment D.images_since disk) }
        ensures counted { IfErr result (λ refused. refused.1 ≡ OpenFault.Disk →
            FaultCountRose (D.faults disk) (D.faults refused.0)) }
        ensures never_falls { DiskMeets (λ stable. (kept_by stable).disk) result
            (λ after. D.faults disk ≤ D.faults after) }
    {
        let mut disk = disk;
        match read_settled(alloc, &mut disk) {
            Ok(found) => Ok(stable_of(disk, found)),
            Err(fault) => Err((disk, fault)),
        }
    }
}

/// The store of what was found on a disk of which nothing is loose.
pub(crate) fn stable_of<D: Disk>(disk: D, found: Found) -> Stable<D>
    requires fit { IsFit (D.size disk) found.roots found.map None }
    requires found { IsTrue D.tells → OpenTo (D.content disk) found.roots found.map }
    requires settled { IsTrue D.tells → D.loose disk ≡ none_loose }
    ensures disk { result.store.disk ≡ disk }
    ensures roots { roots_in result.store ≡ found.roots }
    ensures map { result.store.held ≡ found.map }
    ensures sure { result.store.doubt ≡ None }
{
    let Found { roots, map, block } = found;
    Stable::of(Store {
        disk,
        header: roots.header,
        standing: Standing {
            slot: roots.slot,
            spare_closed: roots.spare_closed,
        },
        body: roots.body,
        map,
        doubt: None,
        block,
    })
}

/// Reads the current root of a store with its map, and syncs.
pub(crate) fn read_settled<D: Disk>(alloc: Global, disk: &mut D) -> Result<Found, OpenFault>
    ensures found { IsTrue D.tells →
        IfOk result (λ found. OpenTo (D.content disk.old) found.roots found.map) }
    ensures refused { IsTrue D.tells → IfErr result (IsRefusalOf (opens (D.content disk.old))) }
    ensures fits { IfOk result (λ found. IsFit (D.size disk.new) found.roots found.map None) }
    ensures size { D.size disk.new ≡ D.size disk.old }
    ensures leads { D.leads_to disk.old disk.new }
    ensures content { IsTrue D.tells → D.content disk.new ≡ D.content disk.old }
    ensures settled { IsTrue D.tells → OnOk result (D.loose disk.new ≡ none_loose) }
    ensures unsettled { IsTrue D.tells →
        OnErr result (IsLooseWithin (D.loose disk.old) (D.loose disk.new)) }
    ensures images { IsTrue D.tells →
        AddsNoWrites D.content D.loose D.moment D.images_since disk.old disk.new }
    ensures counted { result ≡ Err OpenFault.Disk
        → FaultCountRose (D.faults disk.old) (D.faults disk.new) }
    ensures never_falls { D.faults disk.old ≤ D.faults disk.new }
{
    let found = read_found(alloc, disk)?;
    disk.sync()?;
    Ok(found)
}

/// Reads the current root of a store with its map.
fn read_found<D: Disk>(alloc: Global, disk: &mut D) -> Result<Found, OpenFault>
    ensures found { IsTrue D.tells →
        IfOk result (λ found. OpenTo (D.content disk.old) found.roots found.map) }
    ensures refused { IsTrue D.tells → IfErr result (IsRefusalOf (opens (D.content disk.old))) }
    ensures fits { IfOk result (λ found. IsFit (D.size disk.old) found.roots found.map None) }
    ensures size { D.size disk.new ≡ D.size disk.old }
    ensures leads { D.leads_to disk.old disk.new }
    ensures read { IsTrue D.tells → IsOnlyRead D.content D.loose D.moment D.images_since
        disk.old disk.new }
    ensures counted { result ≡ Err OpenFault.Disk
        → FaultCountRose (D.faults disk.old) (D.faults disk.new) }
    ensures never_falls { D.faults disk.old ≤ D.faults disk.new }
{
    let roots = open_roots(alloc, disk)?;
    let map = ShadowMap::read_blocks(alloc, disk, &roots)?;
    let block = Block::zero(alloc)?;
    Ok(Found { roots, map, block })
}
