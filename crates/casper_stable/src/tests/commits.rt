use crate::Stable;
use crate::tests::{commit_three, commit_to, formatted, found, opened, seen};
use casper_disk::{CommitFault, Disk, DiskFault, Fail as Failing, Kind, MemDisk, Pick, Vault};
use casper_reopen::Reopen;
use casper_root::OpenFault;
use casper_words::{Frame, Memory, Page};
use std::alloc::Global;
use std::process::Abort;
use std::test::Fail;

/// The disk, whose calls of these numbers fail from now on.
fn armed(mut disk: MemDisk, fails: &[Failing]) -> Result<MemDisk, Memory> {
    disk.arm(fails, 16)?;
    Ok(disk)
}

/// The disk of a store of 1,024 pages and 9 frames.
fn new_disk(alloc: Global) -> Result<MemDisk, Fail> {
    let stable = formatted(alloc, MemDisk::new(alloc, 14, 32)?, 1024, 9)?;
    Ok(stable.into_disk())
}

/// The same after one commit.
fn disk_committed_once(rt: &impl Abort, alloc: Global) -> Result<MemDisk, Fail> {
    let mut stable = formatted(alloc, MemDisk::new(alloc, 14, 32)?, 1024, 9)?;
    commit_to(rt, alloc, &mut stable, 1, 2)?;
    Ok(stable.into_disk())
}

/// A store of 1,024 pages and 9 frames, armed with faults and opened again, which has made as many commits. The opening syncs once.
fn store_after(
    rt: &impl Abort,
    alloc: Global,
    commits: u64,
    fails: &[Failing],
) -> Result<Stable<MemDisk>, Fail> {
    let disk = match commits {
        1 => disk_committed_once(rt, alloc)?,
        _ => new_disk(alloc)?,
    };
    opened(alloc, armed(disk, fails)?)
}

/// The number of writes and syncs of a disk.
fn calls_of(disk: &MemDisk) -> u64 {
    let writes = disk.count(Kind::Write);
    writes.saturating_add(disk.count(Kind::Sync))
}

/// The disk that a stop within a call leaves.
fn left(
    rt: &impl Abort,
    alloc: Global,
    disk: &MemDisk,
    call: u64,
    pick: Pick,
) -> Result<MemDisk, Memory> {
    let writes = disk.count(Kind::Write);
    let most = writes.saturating_add(disk.count(Kind::Sync));
    assert!(rt; 1 <= call && call <= most.saturating_add(1));
    disk.stopped(alloc, call, pick)
}

/// The version that a stop within a call leaves, whose page 0 has the number of the version before as its first word.
fn version_left(
    rt: &impl Abort,
    alloc: Global,
    disk: &MemDisk,
    call: u64,
    pick: Pick,
) -> Result<u64, Fail> {
    let left = left(rt, alloc, disk, call, pick)?;
    let (version, word) = found(rt, alloc, left)?;
    assert_eq!(rt; word, version.saturating_sub(1), "{pick:?} at {call}");
    Ok(version)
}

/// The version that a stop within a call leaves, for each pick.
fn versions_left(
    rt: &impl Abort,
    alloc: Global,
    disk: &MemDisk,
    call: u64,
) -> Result<[u64; 3], Fail> {
    let old = version_left(rt, alloc, disk, call, Pick::Old)?;
    let new = version_left(rt, alloc, disk, call, Pick::New)?;
    let torn = version_left(rt, alloc, disk, call, Pick::Torn(0xEE))?;
    Ok([old, new, torn])
}

/// A disk after a second commit. The opening's sync came before its ten calls.
fn committed_twice(rt: &impl Abort, alloc: Global) -> Result<MemDisk, Fail> {
    let mut stable = store_after(rt, alloc, 1, &[])?;
    commit_to(rt, alloc, &mut stable, 2, 3)?;
    Ok(stable.into_disk())
}

/// Calls 1 to 3 write pages, 4 a map block, 5 closes the spare gate, 6 syncs, 7 writes the body, 8 syncs, 9 opens the gate, 10
/// syncs; 11 is after the last. For each there is the version that a stop within it leaves, for each pick.
#[test]
fn stops_within_the_second_commit(rt: HostRuntime) -> Result<(), Fail> {
    let alloc = rt.alloc();
    let disk = committed_twice(&rt, alloc)?;
    let made = (disk.count(Kind::Write), disk.count(Kind::Sync));
    assert_eq!(rt; made, (7, 4));
    for call in 1_u64..12 {
        let want = match call {
            1..=8 => [2, 2, 2],
            9 | 10 => [2, 3, 3],
            _ => [3, 3, 3],
        };
        let left = versions_left(&rt, alloc, &disk, call.saturating_add(1))?;
        assert_eq!(rt; left, want, "at {call}");
    }
    Ok(())
}

/// What a commit answers to a fault at one of its calls, and the version that a stop then leaves, for each pick.
#[derive(Clone, Copy)]
struct Row {
    kind: Kind,
    number: u64,
    fault: CommitFault,
    left: [u64; 3],
}

/// A row of a fault before the gate's call.
fn before(kind: Kind, number: u64, version: u64) -> Row {
    Row {
        kind,
        number,
        fault: CommitFault::Disk,
        left: [version; 3],
    }
}

/// A row of a fault at the gate's call or at the sync after it, which raises this version.
fn at_gate(kind: Kind, number: u64, version: u64) -> Row {
    let next = version.saturating_add(1);
    Row {
        kind,
        number,
        fault: CommitFault::Doubt,
        left: [version, next, next],
    }
}

/// The gate of slot B is known to be closed after a format, so the first commit closes none. Its opening made the first sync.
#[test]
fn fails_at_each_call_of_the_first_commit(rt: HostRuntime) -> Result<(), Fail> {
    let early = [
        (Kind::Write, 1),
        (Kind::Write, 2),
        (Kind::Write, 3),
        (Kind::Write, 4),
        (Kind::Sync, 2),
        (Kind::Write, 5),
        (Kind::Sync, 3),
    ];
    for (kind, number) in early {
        fails_as(&rt, rt.alloc(), 0, before(kind, number, 1))?;
    }
    fails_as(&rt, rt.alloc(), 0, at_gate(Kind::Write, 6, 1))?;
    fails_as(&rt, rt.alloc(), 0, at_gate(Kind::Sync, 4, 1))
}

#[test]
fn fails_at_each_call_of_the_second_commit(rt: HostRuntime) -> Result<(), Fail> {
    let early = [
        (Kind::Write, 1),
        (Kind::Write, 2),
        (Kind::Write, 3),
        (Kind::Write, 4),
        (Kind::Write, 5),
        (Kind::Sync, 2),
        (Kind::Write, 6),
        (Kind::Sync, 3),
    ];
    for (kind, number) in early {
        fails_as(&rt, rt.alloc(), 1, before(kind, number, 2))?;
    }
    fails_as(&rt, rt.alloc(), 1, at_gate(Kind::Write, 7, 2))?;
    fails_as(&rt, rt.alloc(), 1, at_gate(Kind::Sync, 4, 2))
}

/// Commits, and that fails as a row says. A commit that fails leaves the version.
fn fails_by_row<D: Disk>(
    rt: &impl Abort,
    alloc: Global,
    stable: &mut Stable<D>,
    row: Row,
) -> Result<(), Memory> {
    let [version, _new, _torn] = row.left;
    let answer = commit_three(rt, alloc, stable, version)?;
    let in_doubt = row.fault == CommitFault::Doubt;
    let after = (answer, stable.in_doubt(), stable.version());
    assert_eq!(rt; after, (Err(row.fault), in_doubt, version));
    Ok(())
}

/// A disk on which no call was made after the one that a row names, and which a stop leaves as the row says.
fn leaves_by_row(rt: &impl Abort, alloc: Global, disk: &MemDisk, row: Row) -> Result<(), Fail> {
    let left = versions_left(rt, alloc, disk, calls_of(disk).saturating_add(1))?;
    let want = row.left;
    assert_eq!(rt; (disk.count(row.kind), left), (row.number, want));
    Ok(())
}

/// After a fault no later call is made; a settle makes the gate's call and a sync where the commit is in doubt, and nothing else.
fn fails_as(rt: &impl Abort, alloc: Global, commits: u64, row: Row) -> Result<(), Fail> {
    let fails = [Failing {
        kind: row.kind,
        number: row.number,
    }];
    let mut stable = store_after(rt, alloc, commits, &fails)?;
    fails_by_row(rt, alloc, &mut stable, row)?;
    leaves_by_row(rt, alloc, &stable.into_disk(), row)
}

/// Commits, and that ends in doubt.
fn doubts<D: Disk>(rt: &impl Abort, alloc: Global, stable: &mut Stable<D>) -> Result<(), Memory> {
    let answer = commit_three(rt, alloc, stable, 2)?;
    assert_eq!(rt; answer, Err(CommitFault::Doubt));
    Ok(())
}

/// What a settle answers, and whether the commit is in doubt after it.
fn settled<D: Disk>(stable: &mut Stable<D>) -> (Result<u64, DiskFault>, bool) {
    (stable.settle(), stable.in_doubt())
}

/// The first settle fails, the second settles, and a third changes nothing.
fn settles<D: Disk>(rt: &impl Abort, stable: &mut Stable<D>) {
    let answers = [settled(stable), settled(stable), settled(stable)];
    let failed = (Err(DiskFault::Failed), true);
    assert_eq!(rt; answers, [failed, (Ok(3), false), (Ok(3), false)]);
}

/// A fault brings the second commit in doubt, and the sync of this number fails too.
fn settles_after(rt: &impl Abort, alloc: Global, fault: Failing, sync: u64) -> Result<(), Fail> {
    let again = Failing {
        kind: Kind::Sync,
        number: sync,
    };
    let mut stable = store_after(rt, alloc, 1, &[fault, again])?;
    doubts(rt, alloc, &mut stable)?;
    settles(rt, &mut stable);
    let left = found(rt, alloc, stable.into_disk())?;
    assert_eq!(rt; left, (3, 2));
    Ok(())
}

#[test]
fn settles_forward(rt: HostRuntime) -> Result<(), Fail> {
    for (kind, number, sync) in [(Kind::Write, 7, 4), (Kind::Sync, 4, 5)] {
        settles_after(&rt, rt.alloc(), Failing { kind, number }, sync)?;
    }
    Ok(())
}

/// What a reopen answers, and whether a commit is in doubt after it.
fn reopened<D: Disk>(alloc: Global, stable: &mut Stable<D>) -> (Result<(), OpenFault>, bool) {
    (stable.reopen(alloc), stable.in_doubt())
}

/// The second commit is in doubt by its last sync, and the first reopen fails by its own. The next one finds the new root.
#[test]
fn opens_again_in_doubt(rt: HostRuntime) -> Result<(), Fail> {
    let kind = Kind::Sync;
    let fails = [Failing { kind, number: 4 }, Failing { kind, number: 5 }];
    let mut stable = store_after(&rt, rt.alloc(), 1, &fails)?;
    doubts(&rt, rt.alloc(), &mut stable)?;
    let failed = reopened(rt.alloc(), &mut stable);
    assert_eq!(rt; failed, (Err(OpenFault::Disk), true));
    assert_eq!(rt; reopened(rt.alloc(), &mut stable), (Ok(()), false));
    let found = seen(&rt, rt.alloc(), &mut stable)?;
    assert_eq!(rt; found, (3, 2));
    Ok(())
}

/// Commits zeros to page 0.
fn commit_one<D: Disk>(
    rt: &impl Abort,
    alloc: Global,
    stable: &mut Stable<D>,
) -> Result<Result<u64, CommitFault>, Memory> {
    assert!(rt; stable.pages() >= 1);
    assert!(rt; !stable.in_doubt());
    let change = [(Page(0), Frame::zero(alloc)?)];
    Ok(stable.commit(alloc, &change))
}

/// Commits zeros to page 0 and to the first page of the second map block.
pub fn commit_two<D: Disk>(
    rt: &impl Abort,
    alloc: Global,
    stable: &mut Stable<D>,
) -> Result<Result<u64, CommitFault>, Memory> {
    assert!(rt; stable.pages() >= 1025);
    assert!(rt; !stable.in_doubt());
    let changes = [
        (Page(0), Frame::zero(alloc)?),
        (Page(1024), Frame::zero(alloc)?),
    ];
    Ok(stable.commit(alloc, &changes))
}

/// Takes what may go to another thread.
fn hand_over<V: Vault + Drop + Send>(_vault: V) {}

/// Commits two pages, then one page twice.
fn runs_out_of_frames<D: Disk>(
    rt: &impl Abort,
    alloc: Global,
    stable: &mut Stable<D>,
) -> Result<(), Memory> {
    let two = commit_two(rt, alloc, stable)?;
    let one = commit_one(rt, alloc, stable)?;
    let counts = (stable.used(), stable.frames());
    let again = commit_one(rt, alloc, stable)?;
    assert_eq!(rt; counts, (2, 3));
    let lacks_one = Err(CommitFault::Full { need: 4, free: 3 });
    let full = Err(CommitFault::Full { need: 2, free: 1 });
    assert_eq!(rt; [two, one, again], [lacks_one, Ok(2), full]);
    Ok(())
}

/// Two pages of two map blocks need four frames. A page that has a frame needs a new one, and a new frame for its map block.
#[test]
fn needs_a_frame_for_each_page_and_map_block(rt: HostRuntime) -> Result<(), Fail> {
    let alloc = rt.alloc();
    let mut stable = formatted(alloc, MemDisk::new(alloc, 8, 32)?, 2048, 3)?;
    runs_out_of_frames(&rt, alloc, &mut stable)?;
    hand_over(stable);
    Ok(())
}
