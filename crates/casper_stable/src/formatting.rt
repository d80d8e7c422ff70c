ghost use Rattle.std.specs.Prelude.{◌≡◌, ℕ, ◌≤◌, List, None, Ok, Err, IsTrue, IfOk, IfErr, OnOk, OnErr};
ghost use Rattle.casper_words.specs.Count.{FaultCountRose};
ghost use Rattle.casper_disk.specs.Disk.{block_at, none_loose};
ghost use Rattle.casper_root.specs.Fitting.{AreSizes};
ghost use Rattle.casper_root.specs.Format.{open_gate_block};
ghost use Rattle.casper_root.specs.Parts.{HasRoomFor};
ghost use Rattle.casper_root.specs.declared.fault.OpenFault.{OpenFault};
ghost use Rattle.casper_stable.specs.Formatted.{sizes, sizes_on, new_body, new_roots, new_map, new_store, IsNew, IsPrepared};
ghost use Rattle.casper_stable.specs.KeptBy.{kept_by};
ghost use Rattle.casper_stable.specs.Opened.{shown, IsRefusalOf, DiskMeets, OpenTo};
ghost use Rattle.casper_stable.specs.Opens.{opens};
ghost use Rattle.casper_stable.specs.Sound.{IsFit};

use crate::Stable;
use crate::opening::{Found, stable_of};
use casper_disk::{Disk, DiskFault};
use casper_map::ShadowMap;
use casper_root::{Body, Header, Maps, OpenFault, Roots, Slot, close_spare, open_gate};
use casper_words::{Block, Memory};
use std::alloc::Global;

impl<D: Disk> Stable<D> {
    /// Makes a new store of so many pages, 1 to 16,384, and frames, 2 to 65,536, on a disk: all pages are zero pages, and the version
    /// is 1. `BadSize` comes exactly where a size is out of range, and then `Short` exactly where the disk has fewer than 5 + frames
    /// blocks. The memory is taken before anything is written. After `Disk` the disk may open or be refused.
    pub fn format(
        alloc: Global,
        disk: D,
        pages: u32,
        frames: u32,
    ) -> Result<Stable<D>, (D, OpenFault)>
        ensures refused { (refusal : OpenFault) →
            sizes_on (D.size disk) (sizes pages frames) ≡ Err refusal →
            result ≡ Err (disk, refusal) }
        ensures causes { IfErr result (λ refused.
            IsRefusalOf (sizes_on (D.size disk) (sizes pages frames)) refused.1) }
        ensures new { IfOk result (λ stable. IsNew (sizes pages frames) (kept_by stable)) }
        ensures shown { IsTrue D.tells →
            IfOk result (λ stable. shown D.content (kept_by stable)
            ≡ new_store (sizes pages frames)) }
        ensures opens { IsTrue D.tells → (image : List (List ℕ)) →
            IfOk result (λ stable. D.images_now (kept_by stable).disk image →
            opens image ≡ Ok (new_store (sizes pages frames))) }
        ensures settled { IsTrue D.tells →
            IfOk result (λ stable. D.loose (kept_by stable).disk ≡ none_loose) }
        ensures size { DiskMeets (λ stable. (kept_by stable).disk) result
            (λ after. D.size after ≡ D.size disk) }
        ensures leads { DiskMeets (λ stable. (kept_by stable).disk) result
            (λ after. D.leads_to disk after) }
        ensures unused { IfErr result (λ refused. refused.1 ≡ OpenFault.Memory → refused.0 ≡ disk) }
        ensures counted { IfErr result (λ refused. refused.1 ≡ OpenFault.Disk →
            FaultCountRose (D.faults disk) (D.faults refused.0)) }
        ensures never_falls { DiskMeets (λ stable. (kept_by stable).disk) result
            (λ after. D.faults disk ≤ D.faults after) }
    {
        let mut disk = disk;
        match make(alloc, &mut disk, Header { pages, frames }) {
            Ok(found) => Ok(stable_of(disk, found)),
            Err(fault) => Err((disk, fault)),
        }
    }
}

/// Makes a new store of these sizes.
fn make<D: Disk>(alloc: Global, disk: &mut D, header: Header) -> Result<Found, OpenFault>
    ensures refused { (refusal : OpenFault) → sizes_on (D.size disk.old) header ≡ Err refusal →
        (result ≡ Err refusal) × (disk.new ≡ disk.old) }
    ensures causes { IfErr result (IsRefusalOf (sizes_on (D.size disk.old) header)) }
    ensures root { IfOk result (λ found. found.roots ≡ new_roots header) }
    ensures map { IfOk result (λ found. found.map ≡ new_map header) }
    ensures found { IsTrue D.tells →
        IfOk result (λ found. OpenTo (D.content disk.new) found.roots found.map) }
    ensures fits { IfOk result (λ found. IsFit (D.size disk.new) found.roots found.map None) }
    ensures settled { IsTrue D.tells → OnOk result (D.loose disk.new ≡ none_loose) }
    ensures size { D.size disk.new ≡ D.size disk.old }
    ensures leads { D.leads_to disk.old disk.new }
    ensures unused { result ≡ Err OpenFault.Memory → disk.new ≡ disk.old }
    ensures counted { result ≡ Err OpenFault.Disk
        → FaultCountRose (D.faults disk.old) (D.faults disk.new) }
    ensures never_falls { D.faults disk.old ≤ D.faults disk.new }
{
    check_sizes(header, disk.blocks())?;
    let mut found = new_found(alloc, header)?;
    write_new(disk, &mut found.block, &header, &found.roots.body)?;
    Ok(found)
}

/// Looks whether a new store of these sizes fits a disk of so many blocks.
fn check_sizes(header: Header, have: u32) -> Result<Header, OpenFault>
    ensures sizes { result ≡ sizes_on have header }
    ensures fits { OnOk result (HasRoomFor have header) }
{
    let Header { pages, frames } = header;
    if pages < 1
        || pages > Header::MOST_PAGES
        || frames < Header::LEAST_FRAMES
        || frames > Header::MOST_FRAMES
    {
        return Err(OpenFault::BadSize { pages, frames });
    }
    let need = 5 + frames;
    if have < need {
        return Err(OpenFault::Short { need, have });
    }
    Ok(header)
}

/// The root of a new store with its map, and a block to write with.
fn new_found(alloc: Global, header: Header) -> Result<Found, Memory>
    requires { AreSizes header }
    ensures root { IfOk result (λ found. found.roots ≡ new_roots header) }
    ensures map { IfOk result (λ found. found.map ≡ new_map header) }
{
    let count = header.pages.div_ceil(Maps::PAGES_EACH);
    let map = ShadowMap::new(alloc, count, header.pages, header.frames)?;
    let block = Block::zero(alloc)?;
    let roots = new_roots(header);
    Ok(Found { roots, map, block })
}

/// The root of a new store.
fn new_roots(header: Header) -> Roots
    requires { AreSizes header }
    ensures { result ≡ new_roots header }
{
    let count = header.pages.div_ceil(Maps::PAGES_EACH) as usize;
    // No map block has a frame.
    let numbers = [u32::MAX; Maps::MOST];
    let Some(maps) = Maps::new(&numbers[..count]) else {
        unreachable!()
    };
    Roots {
        header,
        slot: Slot::A,
        body: Body { seq: 1, maps },
        spare_closed: true,
    }
}

/// Writes a new store, up to its open gate, and syncs.
fn write_new<D: Disk>(
    disk: &mut D,
    block: &mut Block,
    header: &Header,
    body: &Body,
) -> Result<(), DiskFault>
    requires blocks { 5 ≤ D.size disk.old }
    requires new { body.now ≡ new_body header.now }
    ensures prepared { IsTrue D.tells → OnOk result (IsPrepared header.now (D.content disk.new)) }
    ensures opened { IsTrue D.tells →
        OnOk result (block_at (D.content disk.new) 2 ≡ open_gate_block) }
    ensures settled { IsTrue D.tells → OnOk result (D.loose disk.new ≡ none_loose) }
    ensures size { D.size disk.new ≡ D.size disk.old }
    ensures leads { D.leads_to disk.old disk.new }
    ensures counted { OnErr result (FaultCountRose (D.faults disk.old) (D.faults disk.new)) }
    ensures never_falls { D.faults disk.old ≤ D.faults disk.new }
{
    write_closed(disk, block, header, body)?;
    open_gate(disk, block, Slot::A)
}

/// Writes the header, body A and gate B as closed, and syncs.
fn write_closed<D: Disk>(
    disk: &mut D,
    block: &mut Block,
    header: &Header,
    body: &Body,
) -> Result<(), DiskFault>
    requires blocks { 5 ≤ D.size disk.old }
    requires new { body.now ≡ new_body header.now }
    ensures prepared { IsTrue D.tells → OnOk result (IsPrepared header.now (D.content disk.new)) }
    ensures size { D.size disk.new ≡ D.size disk.old }
    ensures leads { D.leads_to disk.old disk.new }
    ensures counted { OnErr result (FaultCountRose (D.faults disk.old) (D.faults disk.new)) }
    ensures never_falls { D.faults disk.old ≤ D.faults disk.new }
{
    header.to_block(block);
    disk.write(0, block)?;
    body.to_block(block);
    disk.write(1, block)?;
    close_spare(disk, block, Slot::B)?;
    disk.sync()
}
