use crate::tests::opening::{Patch, new_store, overwrite, refusal};
use crate::tests::{commit_three, opened};
use casper_disk::{CommitFault, Disk, MemDisk, Vault};
use casper_root::OpenFault;
use casper_words::{Block, Memory};
use std::alloc::Global;
use std::process::Abort;
use std::test::Fail;

/// Bytes that are written over those of a block.
fn patch(at: u32, from: u32, bytes: [u8; 4]) -> Patch {
    Patch { at, from, bytes }
}

/// A new store with other bytes in some places.
fn patched(alloc: Global, patches: &[Patch]) -> Result<MemDisk, Fail> {
    let mut disk = new_store(alloc)?;
    for patch in patches {
        overwrite(alloc, &mut disk, patch)?;
    }
    Ok(disk)
}

/// Both gates open, with these sequence numbers in the bodies of A and B.
fn both_open(alloc: Global, in_a: u8, in_b: u8) -> Result<MemDisk, Fail> {
    let patches = [
        patch(1, 0, [in_a, 0, 0, 0]),
        patch(3, 0, [in_b, 0, 0, 0]),
        patch(3, 8, [1, 0, 0, 0]),
        patch(3, 12, [0xFF; 4]),
        patch(4, 0, [0xA5, 0, 0, 0]),
    ];
    patched(alloc, &patches)
}

/// The version of the store of a disk.
fn version_of<D: Disk + Drop>(alloc: Global, disk: D) -> Result<u64, Fail> {
    Ok(opened(alloc, disk)?.version())
}

#[test]
fn takes_the_greater_number(rt: HostRuntime) -> Result<(), Fail> {
    let alloc = rt.alloc();
    for (in_a, in_b) in [(8, 9), (9, 8), (9, 9)] {
        let version = version_of(alloc, both_open(alloc, in_a, in_b)?)?;
        assert_eq!(rt; version, 9);
    }
    Ok(())
}

/// A map block whose entries 3 and 7 are both frame 2.
fn used_twice(alloc: Global) -> Result<Block, Memory> {
    let mut block = Block::zero(alloc)?;
    for entry in 0..1024 {
        let twice = entry == 3 || entry == 7;
        let bytes = if twice { [2, 0, 0, 0] } else { [0xFF; 4] };
        block.put(4 * entry, &bytes);
    }
    Ok(block)
}

/// Writes frame 0.
fn write_frame<D: Disk>(disk: &mut D, block: &Block) -> Result<(), Fail> {
    if disk.blocks() < 6 {
        return Err("short")?;
    }
    disk.write(5, block)?;
    Ok(())
}

/// Map block 0 is in frame 0, and its entries 3 and 7 are both frame 2.
#[test]
fn refuses_one_frame_for_two_pages(rt: HostRuntime) -> Result<(), Fail> {
    let alloc = rt.alloc();
    let mut disk = patched(alloc, &[patch(1, 12, [0; 4])])?;
    write_frame(&mut disk, &used_twice(alloc)?)?;
    let twice = OpenFault::BadMap { page: 7, frame: 2 };
    assert_eq!(rt; refusal(alloc, disk), Some(twice));
    Ok(())
}

/// The version of the store of a disk, and what a commit then answers.
fn version_and_commit<D: Disk + Drop>(
    rt: &impl Abort,
    alloc: Global,
    disk: D,
) -> Result<(u64, Result<u64, CommitFault>), Fail> {
    let mut stable = opened(alloc, disk)?;
    let version = stable.version();
    Ok((version, commit_three(rt, alloc, &mut stable, 1)?))
}

#[test]
fn ends_at_the_last_version(rt: HostRuntime) -> Result<(), Fail> {
    let last = [patch(1, 0, [0xFF; 4]), patch(1, 4, [0xFF, 0xFF, 0, 0])];
    let disk = patched(rt.alloc(), &last)?;
    let answers = version_and_commit(&rt, rt.alloc(), disk)?;
    let worn = Err(CommitFault::Worn);
    assert_eq!(rt; answers, (281_474_976_710_655, worn));
    Ok(())
}
