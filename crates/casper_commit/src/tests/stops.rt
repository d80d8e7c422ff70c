use crate::{Standing, find_root, put_frame, put_root};
use casper_disk::{Disk, DiskFault, Kind, MemDisk, Pick};
use casper_root::{Body, Header, Maps, OpenFault, Slot, open_gate, open_roots, write_body};
use casper_words::Block;
use std::alloc::Global;
use std::process::Abort;
use std::test::Fail;

/// A body whose one map block is in this frame.
fn body(seq: u64, frame: u32) -> Result<Body, Fail> {
    Ok(Body {
        seq,
        maps: Maps::new(&[frame]).ok_or("maps")?,
    })
}

/// A new store of eight frames, whose root is in slot A.
fn store(rt: &impl Abort, alloc: Global, block: &mut Block) -> Result<MemDisk, Fail> {
    let mut disk = MemDisk::new(alloc, 13, 32)?;
    assert!(rt; disk.blocks() == 13);
    let header = Header {
        pages: 1024,
        frames: 8,
    };
    header.to_block(block);
    disk.write(0, block)?;
    write_body(&mut disk, block, Slot::A, &body(1, u32::MAX)?)?;
    open_gate(&mut disk, block, Slot::A)?;
    Ok(disk)
}

/// Reads a block that the disk has.
fn read_at(
    rt: &impl Abort,
    disk: &mut MemDisk,
    at: u32,
    into: &mut Block,
) -> Result<(), DiskFault> {
    assert!(rt; at < disk.blocks());
    disk.read(at, into)
}

/// Writes a block that the disk has.
fn write_at(rt: &impl Abort, disk: &mut MemDisk, at: u32, from: &Block) -> Result<(), DiskFault> {
    assert!(rt; at < disk.blocks());
    put_frame(disk, at, from)
}

/// Puts three data frames and a map frame, and then the root of this number.
fn commit(
    rt: &impl Abort,
    alloc: Global,
    disk: &mut MemDisk,
    standing: &mut Standing,
    seq: u64,
    frames: [u32; 4],
) -> Result<(), Fail> {
    let mut block = Block::zero(alloc)?;
    for at in frames {
        write_at(rt, disk, at, &block)?;
    }
    let mut next = Block::zero(alloc)?;
    body(seq, 3)?.to_block(&mut next);
    assert!(rt; disk.blocks() == 13);
    put_root(disk, &mut block, standing, &next)?;
    Ok(())
}

/// A store after its second commit, which was armed.
fn twice_committed(rt: &impl Abort, alloc: Global) -> Result<MemDisk, Fail> {
    let mut block = Block::zero(alloc)?;
    let mut disk = store(rt, alloc, &mut block)?;
    let mut standing = Standing {
        slot: Slot::A,
        spare_closed: true,
    };
    commit(rt, alloc, &mut disk, &mut standing, 2, [5, 6, 7, 8])?;
    disk.arm(&[], 32)?;
    commit(rt, alloc, &mut disk, &mut standing, 3, [9, 10, 11, 12])?;
    Ok(disk)
}

/// What a stop within a call leaves.
fn left(
    rt: &impl Abort,
    alloc: Global,
    disk: &MemDisk,
    call: u64,
    pick: Pick,
) -> Result<MemDisk, Fail> {
    let most = disk
        .count(Kind::Write)
        .saturating_add(disk.count(Kind::Sync));
    assert!(rt; 1 <= call && call <= most.saturating_add(1));
    Ok(disk.stopped(alloc, call, pick)?)
}

/// The number of the root to which a disk opens.
fn seq_of(alloc: Global, disk: &mut MemDisk) -> Result<u64, OpenFault> {
    Ok(open_roots(alloc, disk)?.body.seq)
}

/// The slot in which the current root is found.
fn slot_of(rt: &impl Abort, alloc: Global, disk: &mut MemDisk) -> Result<Option<Slot>, Fail> {
    let mut block = Block::zero(alloc)?;
    assert!(rt; disk.blocks() == 13);
    Ok(find_root(disk, &mut block)?.map(|standing| standing.slot))
}

/// The number of the root to which a stop within a call opens. A root of an even number is found in slot B, and else in slot A.
fn seq_left(
    rt: &impl Abort,
    alloc: Global,
    disk: &MemDisk,
    call: u64,
    pick: Pick,
) -> Result<u64, Fail> {
    let mut left = left(rt, alloc, disk, call, pick)?;
    let number = seq_of(alloc, &mut left)?;
    let slot = if number % 2 == 0 { Slot::B } else { Slot::A };
    assert_eq!(rt; slot_of(rt, alloc, &mut left)?, Some(slot));
    Ok(number)
}

/// The numbers for each pick.
fn seqs_left(rt: &impl Abort, alloc: Global, disk: &MemDisk, call: u64) -> Result<[u64; 3], Fail> {
    let old = seq_left(rt, alloc, disk, call, Pick::Old)?;
    let new = seq_left(rt, alloc, disk, call, Pick::New)?;
    let torn = seq_left(rt, alloc, disk, call, Pick::Torn(9))?;
    Ok([old, new, torn])
}

/// Calls 1 to 4 write frames, 5 closes the spare gate, 6 syncs, 7 writes the body, 8 syncs, 9 opens the gate, 10 syncs; 11 is after
/// the last.
#[test]
fn stops_within_the_second_commit(rt: HostRuntime) -> Result<(), Fail> {
    let disk = twice_committed(&rt, rt.alloc())?;
    for call in 1_u64..12 {
        let want = match call {
            1..=8 => [2; 3],
            9 | 10 => [2, 3, 3],
            _ => [3; 3],
        };
        assert_eq!(rt; seqs_left(&rt, rt.alloc(), &disk, call)?, want, "at {call}");
    }
    Ok(())
}

/// One of three picks for each of the four blocks of the roots: where the block is loose, what it had, what it has, or other bytes.
fn picked(
    rt: &impl Abort,
    alloc: Global,
    old: &mut MemDisk,
    new: &mut MemDisk,
    picks: u32,
) -> Result<MemDisk, Fail> {
    let mut disk = MemDisk::new(alloc, 13, 13)?;
    let mut was = Block::zero(alloc)?;
    let mut is = Block::zero(alloc)?;
    read_at(rt, old, 0, &mut is)?;
    write_at(rt, &mut disk, 0, &is)?;
    let mut rest = picks;
    for at in 1..5 {
        read_at(rt, old, at, &mut was)?;
        read_at(rt, new, at, &mut is)?;
        if rest % 3 == 0 {
            is.copy_from(&was);
        } else if rest % 3 == 1 && was.bytes() != is.bytes() {
            is.put(0, &[0xFF; 16]);
        }
        write_at(rt, &mut disk, at, &is)?;
        rest = rest / 3;
    }
    Ok(disk)
}

/// With a pick of its own for each loose block, a sync that is missing between the body and the gate would show.
#[test]
fn stops_with_a_pick_for_each_block(rt: HostRuntime) -> Result<(), Fail> {
    let disk = twice_committed(&rt, rt.alloc())?;
    for call in 1..12 {
        let mut old = left(&rt, rt.alloc(), &disk, call, Pick::Old)?;
        let mut new = left(&rt, rt.alloc(), &disk, call, Pick::New)?;
        for picks in 0..81 {
            let mut disk = picked(&rt, rt.alloc(), &mut old, &mut new, picks)?;
            let number = seq_of(rt.alloc(), &mut disk);
            let is_old = number == Ok(2) && call < 11;
            let is_new = number == Ok(3) && call > 8;
            assert!(rt; is_old || is_new, "at {call} with {picks}: {number:?}");
        }
    }
    Ok(())
}
