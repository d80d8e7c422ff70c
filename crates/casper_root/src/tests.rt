use crate::{
    Body, Header, Maps, OpenFault, Pair, Roots, Slot, close_spare, open_gate, open_roots,
    read_pair, write_body,
};
use casper_disk::{Disk, Fail, Kind, MemDisk};
use casper_words::Block;
use std::alloc::Global;
use std::test::Fail as Failed;

const HEADER: Header = Header {
    pages: 1024,
    frames: 3,
};

#[test]
fn header_has_these_bytes(rt: HostRuntime) -> Result<(), Failed> {
    let mut block = Block::zero(rt.alloc())?;
    HEADER.to_block(&mut block);
    let bytes = [
        0x43, 0x41, 0x53, 0x50, 0x45, 0x52, 0x30, 0x31, 0, 4, 0, 0, 3, 0, 0, 0, 0,
    ];
    assert_eq!(rt; &block.bytes()[..17], bytes.as_slice());
    Ok(())
}

/// A body of number 9 whose one map block has no frame.
fn body() -> Result<Body, Failed> {
    Ok(Body {
        seq: 9,
        maps: Maps::new(&[u32::MAX]).ok_or("maps")?,
    })
}

/// A disk of 8 blocks with the header alone.
fn headed(alloc: Global) -> Result<MemDisk, Failed> {
    let mut disk = MemDisk::new(alloc, 8, 16)?;
    let mut block = Block::zero(alloc)?;
    HEADER.to_block(&mut block);
    disk.write(0, &block)?;
    Ok(disk)
}

/// Puts the body into slot B.
fn put_root<D: Disk>(alloc: Global, disk: &mut D) -> Result<(), Failed> {
    if disk.blocks() < 5 {
        return Err("short")?;
    }
    let mut block = Block::zero(alloc)?;
    write_body(disk, &mut block, Slot::B, &body()?)?;
    close_spare(disk, &mut block, Slot::A)?;
    open_gate(disk, &mut block, Slot::B)?;
    Ok(())
}

#[test]
fn refuses_closed_gates(rt: HostRuntime) -> Result<(), Failed> {
    let mut disk = headed(rt.alloc())?;
    assert_eq!(rt; open_roots(rt.alloc(), &mut disk), Err(OpenFault::NoRoot));
    Ok(())
}

#[test]
fn opens_what_was_written(rt: HostRuntime) -> Result<(), Failed> {
    let mut disk = headed(rt.alloc())?;
    put_root(rt.alloc(), &mut disk)?;
    let roots = Roots {
        header: HEADER,
        slot: Slot::B,
        body: body()?,
        spare_closed: true,
    };
    assert_eq!(rt; open_roots(rt.alloc(), &mut disk), Ok(roots));
    Ok(())
}

/// The gates and numbers of a disk.
fn pair_of<D: Disk>(alloc: Global, disk: &mut D) -> Result<Pair, Failed> {
    if disk.blocks() < 5 {
        return Err("short")?;
    }
    let mut block = Block::zero(alloc)?;
    Ok(read_pair(disk, &mut block)?)
}

#[test]
fn reads_the_pair_that_was_written(rt: HostRuntime) -> Result<(), Failed> {
    let mut disk = headed(rt.alloc())?;
    put_root(rt.alloc(), &mut disk)?;
    let pair = Pair {
        gate_a: 0,
        gate_b: 0xA5,
        seq_a: 0,
        seq_b: 9,
    };
    assert_eq!(rt; pair_of(rt.alloc(), &mut disk)?, pair);
    Ok(())
}

#[test]
fn hands_on_a_failed_read(rt: HostRuntime) -> Result<(), Failed> {
    let mut disk = headed(rt.alloc())?;
    let third = Fail {
        kind: Kind::Read,
        number: 3,
    };
    disk.arm(&[third], 16)?;
    assert_eq!(rt; open_roots(rt.alloc(), &mut disk), Err(OpenFault::Disk));
    Ok(())
}
