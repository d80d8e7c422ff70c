mod commits;
mod files;
mod images;
mod opening;

use crate::Stable;
use casper_disk::{CommitFault, Disk, Vault};
use casper_words::{Frame, Memory, Page};
use std::alloc::Global;
use std::process::Abort;
use std::test::Fail;

/// A frame with this number as its first word.
fn frame_of(alloc: Global, number: u64) -> Result<Frame, Memory> {
    let mut frame = Frame::zero(alloc)?;
    frame.set(0, number);
    Ok(frame)
}

/// The store that a format makes on a disk.
fn formatted<D: Disk + Drop>(
    alloc: Global,
    disk: D,
    pages: u32,
    frames: u32,
) -> Result<Stable<D>, Fail> {
    match Stable::format(alloc, disk, pages, frames) {
        Ok(stable) => Ok(stable),
        Err(_) => Err("format")?,
    }
}

/// The store of a disk that is not refused.
fn opened<D: Disk + Drop>(alloc: Global, disk: D) -> Result<Stable<D>, Fail> {
    match Stable::open(alloc, disk) {
        Ok(stable) => Ok(stable),
        Err(_) => Err("refused")?,
    }
}

/// Commits pages 0 to 2, each with this number as its first word.
fn commit_three<D: Disk>(
    rt: &impl Abort,
    alloc: Global,
    stable: &mut Stable<D>,
    number: u64,
) -> Result<Result<u64, CommitFault>, Memory> {
    assert!(rt; stable.pages() >= 3);
    assert!(rt; !stable.in_doubt());
    let changes = [
        (Page(0), frame_of(alloc, number)?),
        (Page(1), frame_of(alloc, number)?),
        (Page(2), frame_of(alloc, number)?),
    ];
    Ok(stable.commit(alloc, &changes))
}

/// Commits pages 0 to 2, which makes this version.
fn commit_to<D: Disk>(
    rt: &impl Abort,
    alloc: Global,
    stable: &mut Stable<D>,
    number: u64,
    version: u64,
) -> Result<(), Memory> {
    let answer = commit_three(rt, alloc, stable, number)?;
    assert_eq!(rt; answer, Ok(version));
    Ok(())
}

/// The version of a store, and the first word of its page 0.
fn seen<D: Disk>(
    rt: &impl Abort,
    alloc: Global,
    stable: &mut Stable<D>,
) -> Result<(u64, u64), Memory> {
    let mut into = Frame::zero(alloc)?;
    assert!(rt; stable.pages() >= 1);
    assert_eq!(rt; stable.read_page(Page(0), &mut into), Ok(()));
    Ok((stable.version(), into.get(0)))
}

/// The version of the store of a disk, and the first word of its page 0.
fn found<D: Disk + Drop>(rt: &impl Abort, alloc: Global, disk: D) -> Result<(u64, u64), Fail> {
    let mut stable = opened(alloc, disk)?;
    Ok(seen(rt, alloc, &mut stable)?)
}
