ghost use Rattle.std.specs.Prelude.{◌≡◌, ◌+◌};

use crate::{Pieces, Standing, put_frames, put_root, settle};
use casper_disk::{Call, CommitFault, Disk, DiskFault, Fail as Failing, Kind, MemDisk, Noted};
use casper_root::Slot;
use casper_words::{Block, Memory};
use std::alloc::Global;
use std::process::Abort;
use std::test::Fail;

/// Three data frames and a map frame, all with the same bytes.
#[derive(Drop)]
struct Frames {
    block: Block,
}

impl Pieces for Frames {
    ghost count = { λ _. 4 };

    ghost place = { λ _ piece. 5 + piece };

    ghost is_piece = { λ frames _ bytes. bytes ≡ frames.block };

    fn count(&self) -> u32 {
        4
    }

    fn place(&self, piece: u32) -> u32 {
        5 + piece
    }

    fn fill(&self, _piece: u32, into: &mut Block) {
        into.copy_from(&self.block);
    }
}

/// The current root is in slot A, and the gate of slot B is known to be closed or not.
fn in_a(spare_closed: bool) -> Standing {
    Standing {
        slot: Slot::A,
        spare_closed,
    }
}

/// The current root is in slot B, and nothing is known of the gate of slot A.
fn in_b() -> Standing {
    Standing {
        slot: Slot::B,
        spare_closed: false,
    }
}

/// A disk of 13 blocks of which these calls fail.
fn disk_with(alloc: Global, fails: &[Failing]) -> Result<Noted<MemDisk>, Memory> {
    let mut disk = MemDisk::new(alloc, 13, 0)?;
    disk.arm(fails, 16)?;
    Noted::new(alloc, disk, 16)
}

/// The frames, and the root that names them.
fn commit<D: Disk>(
    rt: &impl Abort,
    alloc: Global,
    disk: &mut D,
    standing: &mut Standing,
) -> Result<Result<(), CommitFault>, Memory> {
    let mut block = Block::zero(alloc)?;
    let frames = Frames {
        block: Block::zero(alloc)?,
    };
    assert!(rt; disk.blocks() == 13);
    if put_frames(disk, &mut block, &frames).is_err() {
        return Ok(Err(CommitFault::Disk));
    }
    Ok(put_root(disk, &mut block, standing, &frames.block))
}

/// A commit from this standing, of which these calls fail: its answer, its calls, and where the root stands then.
fn committed(
    rt: &impl Abort,
    alloc: Global,
    from: Standing,
    fails: &[Failing],
) -> Result<(Result<(), CommitFault>, Noted<MemDisk>, Standing), Memory> {
    let mut disk = disk_with(alloc, fails)?;
    let mut standing = from;
    let answer = commit(rt, alloc, &mut disk, &mut standing)?;
    Ok((answer, disk, standing))
}

#[test]
fn makes_the_calls_of_the_table(rt: HostRuntime) -> Result<(), Fail> {
    let table = [
        Call::Write(5),
        Call::Write(6),
        Call::Write(7),
        Call::Write(8),
        Call::Write(4),
        Call::Sync,
        Call::Write(3),
        Call::Sync,
        Call::Write(4),
        Call::Sync,
    ];
    let (answer, disk, standing) = committed(&rt, rt.alloc(), in_a(false), &[])?;
    assert_eq!(rt;
        (answer, disk.calls(), standing),
        (Ok(()), table.as_slice(), in_b())
    );
    Ok(())
}

#[test]
fn leaves_out_the_closing_of_a_gate_that_is_closed(rt: HostRuntime) -> Result<(), Fail> {
    let table = [
        Call::Write(5),
        Call::Write(6),
        Call::Write(7),
        Call::Write(8),
        Call::Sync,
        Call::Write(3),
        Call::Sync,
        Call::Write(4),
        Call::Sync,
    ];
    let (answer, disk, standing) = committed(&rt, rt.alloc(), in_a(true), &[])?;
    assert_eq!(rt;
        (answer, disk.calls(), standing),
        (Ok(()), table.as_slice(), in_b())
    );
    Ok(())
}

/// A commit of which a call fails makes as many calls, answers this fault, and knows the gate of slot B to be closed or not.
fn fails_as(
    rt: &impl Abort,
    alloc: Global,
    fail: (Kind, u64),
    want: (usize, CommitFault, bool),
) -> Result<(), Memory> {
    let (kind, number) = fail;
    let (calls, fault, closed) = want;
    let (answer, disk, standing) = committed(rt, alloc, in_a(false), &[Failing { kind, number }])?;
    let after = (answer, disk.calls().len(), standing);
    assert_eq!(rt; after, (Err(fault), calls, in_a(closed)));
    Ok(())
}

/// After a fault no later call is made, and the answer is by the call that failed. The gate is known to be closed once the sync
/// after its closing answered Ok, until it is handed to its opening.
#[test]
fn stops_at_the_call_that_fails(rt: HostRuntime) -> Result<(), Fail> {
    let table = [
        ((Kind::Write, 1), (1, CommitFault::Disk, false)),
        ((Kind::Write, 4), (4, CommitFault::Disk, false)),
        ((Kind::Write, 5), (5, CommitFault::Disk, false)),
        ((Kind::Sync, 1), (6, CommitFault::Disk, false)),
        ((Kind::Write, 6), (7, CommitFault::Disk, true)),
        ((Kind::Sync, 2), (8, CommitFault::Disk, true)),
        ((Kind::Write, 7), (9, CommitFault::Doubt, false)),
        ((Kind::Sync, 3), (10, CommitFault::Doubt, false)),
    ];
    for (fail, want) in table {
        fails_as(&rt, rt.alloc(), fail, want)?;
    }
    Ok(())
}

/// A settle: what it answers, and where the root stands then.
fn settled<D: Disk>(
    rt: &impl Abort,
    alloc: Global,
    disk: &mut D,
) -> Result<(Result<(), DiskFault>, Standing), Memory> {
    let mut block = Block::zero(alloc)?;
    let mut standing = in_a(false);
    assert!(rt; disk.blocks() == 13);
    let answer = settle(disk, &mut block, &mut standing);
    Ok((answer, standing))
}

#[test]
fn settles_by_the_gate_and_a_sync(rt: HostRuntime) -> Result<(), Fail> {
    let mut disk = disk_with(rt.alloc(), &[])?;
    let after = settled(&rt, rt.alloc(), &mut disk)?;
    let table = [Call::Write(4), Call::Sync];
    assert_eq!(rt; (after, disk.calls()), ((Ok(()), in_b()), table.as_slice()));
    Ok(())
}

/// A settle that fails leaves the root where it stood.
#[test]
fn settles_no_further_than_the_call_that_fails(rt: HostRuntime) -> Result<(), Fail> {
    for (kind, calls) in [(Kind::Write, 1), (Kind::Sync, 2)] {
        let mut disk = disk_with(rt.alloc(), &[Failing { kind, number: 1 }])?;
        let after = settled(&rt, rt.alloc(), &mut disk)?;
        let want = ((Err(DiskFault::Failed), in_a(false)), calls);
        assert_eq!(rt; (after, disk.calls().len()), want);
    }
    Ok(())
}
