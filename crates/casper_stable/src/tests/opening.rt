use crate::Stable;
use crate::tests::commits::commit_two;
use crate::tests::{formatted, opened};
use casper_disk::{Call, Disk, Fail as Failing, Kind, MemDisk, Noted, Vault};
use casper_reopen::Reopen;
use casper_root::OpenFault;
use casper_words::{Block, Frame, Memory, Page};
use std::alloc::Global;
use std::process::Abort;
use std::test::Fail;

/// Bytes that are written over those of a block from a place on.
#[derive(Clone, Copy)]
pub struct Patch {
    pub at: u32,
    pub from: u32,
    pub bytes: [u8; 4],
}

/// A new store of 1,024 pages and 3 frames.
pub fn new_store(alloc: Global) -> Result<MemDisk, Fail> {
    let stable = formatted(alloc, MemDisk::new(alloc, 8, 32)?, 1024, 3)?;
    Ok(stable.into_disk())
}

pub fn overwrite<D: Disk>(alloc: Global, disk: &mut D, patch: &Patch) -> Result<(), Fail> {
    if patch.at >= disk.blocks() || patch.from > 4092 {
        return Err("no such bytes")?;
    }
    let mut block = Block::zero(alloc)?;
    disk.read(patch.at, &mut block)?;
    block.put(patch.from, &patch.bytes);
    disk.write(patch.at, &block)?;
    Ok(())
}

/// Why a disk is refused.
pub fn refusal<D: Disk + Drop>(alloc: Global, disk: D) -> Option<OpenFault> {
    match Stable::open(alloc, disk) {
        Ok(_) => None,
        Err((_, fault)) => Some(fault),
    }
}

/// Why a new store is refused in which some bytes are others.
fn refusal_with(
    alloc: Global,
    at: u32,
    from: u32,
    bytes: [u8; 4],
) -> Result<Option<OpenFault>, Fail> {
    let mut disk = new_store(alloc)?;
    overwrite(alloc, &mut disk, &Patch { at, from, bytes })?;
    Ok(refusal(alloc, disk))
}

#[test]
fn refuses_a_disk_of_four_blocks(rt: HostRuntime) -> Result<(), Fail> {
    let short = refusal(rt.alloc(), MemDisk::new(rt.alloc(), 4, 0)?);
    assert_eq!(rt; short, Some(OpenFault::Short { need: 5, have: 4 }));
    Ok(())
}

#[test]
fn refuses_each_header(rt: HostRuntime) -> Result<(), Fail> {
    let alloc = rt.alloc();
    let pages = OpenFault::BadSize {
        pages: 0,
        frames: 3,
    };
    let need = OpenFault::Short { need: 9, have: 8 };
    let table = [
        (0, *b"CASK", OpenFault::NotAStore),
        (4, *b"ER0x", OpenFault::NotAStore),
        (4, *b"ER07", OpenFault::Version(7)),
        (8, [0; 4], pages),
        (12, [4, 0, 0, 0], need),
    ];
    for (from, bytes, fault) in table {
        let refused = refusal_with(alloc, 0, from, bytes)?;
        assert_eq!(rt; refused, Some(fault), "at {from}");
    }
    Ok(())
}

#[test]
fn refuses_each_root(rt: HostRuntime) -> Result<(), Fail> {
    let alloc = rt.alloc();
    let table = [
        (2, 0, [0; 4], OpenFault::NoRoot),
        (
            1,
            8,
            [17, 0, 0, 0],
            OpenFault::BadBody { seq: 1, count: 17 },
        ),
        (1, 0, [0; 4], OpenFault::BadBody { seq: 0, count: 1 }),
        (1, 12, [3, 0, 0, 0], OpenFault::BadMap { page: 0, frame: 3 }),
        (1, 12, [0; 4], OpenFault::BadMap { page: 0, frame: 0 }),
    ];
    for (at, from, bytes, fault) in table {
        let refused = refusal_with(alloc, at, from, bytes)?;
        assert_eq!(rt; refused, Some(fault), "at {from} of {at}");
    }
    Ok(())
}

/// A new store whose map block 0 is in frame 0; of its entries 0 to 8 the first eight have no frame, and entry 8 has a number equal
/// to the frames.
fn past_the_frames(alloc: Global) -> Result<MemDisk, Fail> {
    let mut disk = new_store(alloc)?;
    for entry in 0..9 {
        let patch = Patch {
            at: 5,
            from: 4 * entry,
            bytes: if entry < 8 { [0xFF; 4] } else { [3, 0, 0, 0] },
        };
        overwrite(alloc, &mut disk, &patch)?;
    }
    let map = Patch {
        at: 1,
        from: 12,
        bytes: [0; 4],
    };
    overwrite(alloc, &mut disk, &map)?;
    Ok(disk)
}

#[test]
fn refuses_a_page_past_the_frames(rt: HostRuntime) -> Result<(), Fail> {
    let disk = past_the_frames(rt.alloc())?;
    let past = OpenFault::BadMap { page: 8, frame: 3 };
    assert_eq!(rt; refusal(rt.alloc(), disk), Some(past));
    Ok(())
}

/// Why a new store is refused on a disk of which one call fails.
fn refusal_armed(alloc: Global, fail: Failing) -> Result<Option<OpenFault>, Fail> {
    let mut disk = new_store(alloc)?;
    disk.arm(&[fail], 4)?;
    Ok(refusal(alloc, disk))
}

/// The first read, the fifth and the last sync fail.
#[test]
fn tells_a_disk_that_fails(rt: HostRuntime) -> Result<(), Fail> {
    for (kind, number) in [(Kind::Read, 1), (Kind::Read, 5), (Kind::Sync, 1)] {
        let refused = refusal_armed(rt.alloc(), Failing { kind, number })?;
        assert_eq!(rt; refused, Some(OpenFault::Disk));
    }
    Ok(())
}

/// How many frames the store of a disk has, and how many of them its root names.
fn frames_of<D: Disk + Drop>(alloc: Global, disk: D) -> Result<(u32, u32), Fail> {
    let stable = opened(alloc, disk)?;
    Ok((stable.frames(), stable.used()))
}

#[test]
fn opens_what_was_formatted(rt: HostRuntime) -> Result<(), Fail> {
    let frames = frames_of(rt.alloc(), new_store(rt.alloc())?)?;
    assert_eq!(rt; frames, (3, 0));
    Ok(())
}

/// Why no store of these sizes is made on a disk of 8 blocks.
fn format_refusal(alloc: Global, pages: u32, frames: u32) -> Result<Option<OpenFault>, Fail> {
    match Stable::format(alloc, MemDisk::new(alloc, 8, 32)?, pages, frames) {
        Ok(_) => Ok(None),
        Err((_, fault)) => Ok(Some(fault)),
    }
}

#[test]
fn refuses_sizes_before_blocks(rt: HostRuntime) -> Result<(), Fail> {
    let alloc = rt.alloc();
    let both = OpenFault::BadSize {
        pages: 16_385,
        frames: 65_536,
    };
    let frames = OpenFault::BadSize {
        pages: 1,
        frames: 1,
    };
    let need = OpenFault::Short { need: 9, have: 8 };
    let table = [
        (16_385, 65_536, Some(both)),
        (1, 1, Some(frames)),
        (16_384, 4, Some(need)),
        (16_384, 3, None),
    ];
    for (pages, frames, fault) in table {
        let refused = format_refusal(alloc, pages, frames)?;
        assert_eq!(rt; refused, fault, "{pages} and {frames}");
    }
    Ok(())
}

/// The disk after a format of which a call of this number fails.
fn format_noted(alloc: Global, kind: Kind, number: u64) -> Result<Noted<MemDisk>, Fail> {
    let mut disk = MemDisk::new(alloc, 8, 0)?;
    disk.arm(&[Failing { kind, number }], 16)?;
    let noted = Noted::new(alloc, disk, 16)?;
    match Stable::format(alloc, noted, 1024, 3) {
        Ok(stable) => Ok(stable.into_disk()),
        Err((disk, _)) => Ok(disk),
    }
}

/// There are as many calls, and they are the first ones of these.
fn expect_calls(rt: &impl Abort, calls: &[Call], made: usize, table: &[Call]) {
    assert_eq!(rt; (calls.len(), table.starts_with(calls)), (made, true));
}

/// After a failed call no later one is made. No fifth write is there to fail.
#[test]
fn formats_by_the_calls_of_the_table(rt: HostRuntime) -> Result<(), Fail> {
    let table = [
        Call::Write(0),
        Call::Write(1),
        Call::Write(4),
        Call::Sync,
        Call::Write(2),
        Call::Sync,
    ];
    let fails = [
        (Kind::Write, 1, 1),
        (Kind::Write, 3, 3),
        (Kind::Sync, 1, 4),
        (Kind::Write, 4, 5),
        (Kind::Sync, 2, 6),
        (Kind::Write, 5, 6),
    ];
    for (kind, number, made) in fails {
        let disk = format_noted(rt.alloc(), kind, number)?;
        expect_calls(&rt, disk.calls(), made, &table);
    }
    Ok(())
}

/// The disk of a store of 2,048 pages whose two map blocks have frames 2 and 3.
fn mapped_twice(rt: &impl Abort, alloc: Global) -> Result<MemDisk, Fail> {
    let mut stable = formatted(alloc, MemDisk::new(alloc, 13, 32)?, 2048, 8)?;
    let answer = commit_two(rt, alloc, &mut stable)?;
    assert_eq!(rt; answer, Ok(2));
    Ok(stable.into_disk())
}

/// Each block is read once: the header, the gates, the bodies, and the map blocks in their order. Then there is one sync.
const OPENING: [Call; 8] = [
    Call::Read(0),
    Call::Read(2),
    Call::Read(4),
    Call::Read(1),
    Call::Read(3),
    Call::Read(7),
    Call::Read(8),
    Call::Sync,
];

#[test]
fn opens_by_the_calls_of_the_table(rt: HostRuntime) -> Result<(), Fail> {
    let noted = Noted::new(rt.alloc(), mapped_twice(&rt, rt.alloc())?, 16)?;
    let disk = opened(rt.alloc(), noted)?.into_disk();
    assert_eq!(rt; disk.calls(), OPENING.as_slice());
    Ok(())
}

#[test]
fn opens_again_by_the_same_calls(rt: HostRuntime) -> Result<(), Fail> {
    let noted = Noted::new(rt.alloc(), mapped_twice(&rt, rt.alloc())?, 16)?;
    let mut stable = opened(rt.alloc(), noted)?;
    assert_eq!(rt; stable.reopen(rt.alloc()), Ok(()));
    let disk = stable.into_disk();
    assert_eq!(rt; disk.calls().len(), 16);
    assert!(rt; disk.calls().ends_with(&OPENING));
    Ok(())
}

/// Reads this page.
fn read<D: Disk>(
    rt: &impl Abort,
    alloc: Global,
    stable: &mut Stable<D>,
    page: u32,
) -> Result<(), Memory> {
    let mut into = Frame::zero(alloc)?;
    assert!(rt; page < stable.pages());
    assert_eq!(rt; stable.read_page(Page(page), &mut into), Ok(()));
    Ok(())
}

/// A page without a frame is read by no call, and page 0, which is in frame 0, by one.
#[test]
fn reads_a_page_by_one_call(rt: HostRuntime) -> Result<(), Fail> {
    let noted = Noted::new(rt.alloc(), mapped_twice(&rt, rt.alloc())?, 16)?;
    let mut stable = opened(rt.alloc(), noted)?;
    read(&rt, rt.alloc(), &mut stable, 1)?;
    read(&rt, rt.alloc(), &mut stable, 0)?;
    let disk = stable.into_disk();
    assert!(rt; disk.calls().ends_with(&[Call::Sync, Call::Read(5)]));
    Ok(())
}
