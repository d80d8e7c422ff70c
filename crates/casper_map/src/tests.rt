ghost use Rattle.std.specs.Prelude.{IfOk};
ghost use Rattle.casper_map.specs.Planned.{IsPlan};

use crate::{Plan, PlanFault, ShadowMap};
use casper_disk::{Disk, MemDisk};
use casper_root::{Body, Header, Maps, OpenFault, Roots, Slot};
use casper_words::{Block, Memory, Page};
use std::alloc::Global;
use std::process::Abort;
use std::test::Fail;

/// The roots of a store of 1,500 pages and 8 frames with these map blocks.
fn roots(maps: &[u32; 2]) -> Result<Roots, Fail> {
    Ok(Roots {
        header: Header {
            pages: 1500,
            frames: 8,
        },
        slot: Slot::A,
        body: Body {
            seq: 1,
            maps: Maps::new(maps).ok_or("maps")?,
        },
        spare_closed: true,
    })
}

/// Names a frame for a page of map block 0.
fn put_entry(block: &mut Block, entry: (u32, u32)) {
    if entry.0 < 1024 {
        block.put(4 * entry.0, &entry.1.to_le_bytes());
    }
}

/// A map block that names one frame for each of two pages.
fn block_of_two(alloc: Global, first: (u32, u32), second: (u32, u32)) -> Result<Block, Memory> {
    let mut block = Block::zero(alloc)?;
    for entry in 0..1024 {
        block.put(4 * entry, &[0xFF; 4]);
    }
    put_entry(&mut block, first);
    put_entry(&mut block, second);
    Ok(block)
}

/// A disk with this block in frame 0.
fn disk_with(alloc: Global, block: &Block) -> Result<MemDisk, Fail> {
    let mut disk = MemDisk::new(alloc, 13, 4)?;
    if disk.blocks() == 13 {
        disk.write(5, block)?;
    }
    Ok(disk)
}

/// What these roots of a disk open to.
fn read_map<D: Disk>(
    alloc: Global,
    disk: &mut D,
    roots: &Roots,
) -> Result<Result<ShadowMap, OpenFault>, Fail> {
    if disk.blocks() < 13
        || roots.body.maps.as_slice().len() != 2
        || roots.header.pages != 1500
        || roots.header.frames != 8
    {
        return Err("sizes")?;
    }
    Ok(ShadowMap::read_blocks(alloc, disk, roots))
}

/// What opens where map block 0 in frame 0 names one frame for each of two pages.
fn read_two(
    alloc: Global,
    maps: &[u32; 2],
    first: (u32, u32),
    second: (u32, u32),
) -> Result<Result<ShadowMap, OpenFault>, Fail> {
    let block = block_of_two(alloc, first, second)?;
    let mut disk = disk_with(alloc, &block)?;
    let roots = roots(maps)?;
    read_map(alloc, &mut disk, &roots)
}

#[test]
fn refuses_the_first_faulty_frame(rt: HostRuntime) -> Result<(), Fail> {
    let none = u32::MAX;
    let table = [
        ([0, none], (3, 2), (7, 2), (7, 2)),
        ([0, none], (9, 0), (7, 2), (9, 0)),
        ([0, 8], (3, 2), (7, 2), (1024, 8)),
    ];
    for (maps, first, second, (page, frame)) in table {
        let refused = read_two(rt.alloc(), &maps, first, second)?.err();
        assert_eq!(rt; refused, Some(OpenFault::BadMap { page, frame }));
    }
    Ok(())
}

/// The map that names frames 0, 2 and 4 of frames 0 to 7.
fn map_of_three(alloc: Global) -> Result<ShadowMap, Fail> {
    match read_two(alloc, &[0, u32::MAX], (3, 2), (7, 4))? {
        Ok(map) => Ok(map),
        Err(_) => Err("refused")?,
    }
}

/// The plan for one page of each map block.
fn plan_of_two(rt: &impl Abort, alloc: Global, map: &ShadowMap) -> Result<Plan, Fail>
    ensures { IfOk result (IsPlan map.now) }
{
    assert!(rt; map.pages() >= 1500);
    match map.plan(alloc, &[Page(3), Page(1030)]) {
        Ok(plan) => Ok(plan),
        Err(_) => Err("no plan")?,
    }
}

/// Map block 1 as a plan has it.
fn second_block(
    rt: &impl Abort,
    alloc: Global,
    map: &ShadowMap,
    plan: &Plan,
) -> Result<Block, Memory>
    requires { IsPlan map.now plan.now }
{
    let mut block = Block::zero(alloc)?;
    assert!(rt; map.blocks() == 2);
    map.map_block(plan, 1, &mut block);
    Ok(block)
}

/// How many frames a map names, and how many it does not.
fn used_and_free(map: &ShadowMap) -> (u32, u32) {
    (map.used(), map.free())
}

fn expect_moves(rt: &impl Abort, plan: &Plan) {
    assert_eq!(rt; plan.pages.as_slice(), [(3, 1), (1030, 3)].as_slice());
    assert_eq!(rt; plan.maps.as_slice(), [(0, 5), (1, 6)].as_slice());
}

fn expect_entries(rt: &impl Abort, block: &Block) {
    assert_eq!(rt; &block.bytes()[..4], [0xFF; 4].as_slice());
    assert_eq!(rt; &block.bytes()[24..28], [3, 0, 0, 0].as_slice());
}

#[test]
fn plans_the_lowest_free_frames(rt: HostRuntime) -> Result<(), Fail> {
    let mut map = map_of_three(rt.alloc())?;
    assert_eq!(rt; used_and_free(&map), (3, 5));
    let plan = plan_of_two(&rt, rt.alloc(), &map)?;
    expect_moves(&rt, &plan);
    assert_eq!(rt; map.maps(&plan).as_slice(), [5, 6].as_slice());
    expect_entries(&rt, &second_block(&rt, rt.alloc(), &map, &plan)?);
    map.apply(&plan);
    assert_eq!(rt; used_and_free(&map), (5, 3));
    Ok(())
}

/// One frame too few is told with both numbers.
#[test]
fn refuses_a_plan_without_room(rt: HostRuntime) -> Result<(), Fail> {
    let map = map_of_three(rt.alloc())?;
    assert!(rt; map.pages() >= 1500);
    let pages = [Page(1), Page(2), Page(3), Page(1030)];
    let plan = map.plan(rt.alloc(), &pages);
    assert_eq!(rt; plan.err(), Some(PlanFault::Full { need: 6, free: 5 }));
    Ok(())
}
