use crate::replaying::run_over;
use casper_disk::{Disk, MemShelf, Shelf};
use casper_words::Block;
use std::alloc::Global;
use std::test::Fail;

/// Room for the writes and syncs of a disk.
const CALLS: u32 = 64;

/// Bytes that are put into a block, from a place on.
type Bytes = (u32, u32, &'static [u8]);

/// A shelf with a store `s` of four frames, in which page 3 was committed once: to frame 0, and its map block to frame 1. Both gates
/// are open, and the root of the second one is the current one.
fn shelf_with_one_page(alloc: Global) -> Result<MemShelf, Fail> {
    let input = b"join 1\nwrite 1 3 0 5\nstabilise 1\nwriteout 1\nfinish 1\n";
    let mut shelf = MemShelf::new(alloc, CALLS, &[])?;
    let (formatted, _written) = run_over(alloc, &mut shelf, "format s 1024 4", b"")?;
    let (replayed, _written) = run_over(alloc, &mut shelf, "replay s", input)?;
    if formatted != 0 || replayed != 0 {
        return Err("status")?;
    }
    Ok(shelf)
}

/// Puts bytes into a block of the store `s`.
fn put(alloc: Global, shelf: &mut MemShelf, bytes: &Bytes) -> Result<(), Fail> {
    let (at, from, bytes) = *bytes;
    let mut block = Block::zero(alloc)?;
    let Ok(mut disk) = shelf.open(alloc, b"s") else {
        return Err("open")?;
    };
    if at >= disk.blocks() || from > 4000 || bytes.len() > 96 {
        return Err("place")?;
    }
    disk.read(at, &mut block)?;
    block.put(from, bytes);
    disk.write(at, &block)?;
    disk.sync()?;
    shelf.close(b"s", disk);
    Ok(())
}

/// A shelf with such a store, into whose blocks these bytes were put.
fn shelf_with(alloc: Global, changes: &[Bytes]) -> Result<MemShelf, Fail> {
    let mut shelf = shelf_with_one_page(alloc)?;
    for bytes in changes {
        put(alloc, &mut shelf, bytes)?;
    }
    Ok(shelf)
}

#[test]
fn rows(rt: HostRuntime) -> Result<(), Fail> {
    let table: [(&str, &[Bytes], u8, &str); 5] = [
        (
            "as it is",
            &[],
            0,
            "store format 1 pages 1024 frames 4 version 2 used 2\n",
        ),
        (
            "numbers 8 and 9",
            &[(1, 0, &[8]), (3, 0, &[9])],
            0,
            "store format 1 pages 1024 frames 4 version 9 used 2\n",
        ),
        (
            "closed gates",
            &[(2, 0, &[0]), (4, 0, &[0])],
            6,
            "refused noroot\n",
        ),
        (
            "pages 3 and 7 at frame 2",
            &[(6, 12, &[2, 0, 0, 0]), (6, 28, &[2, 0, 0, 0])],
            6,
            "refused badmap 7 2\n",
        ),
        ("version 7", &[(0, 7, b"7")], 6, "refused version 7\n"),
    ];
    for (name, changes, status, output) in table {
        let mut shelf = shelf_with(rt.alloc(), changes)?;
        let (ended, written) = run_over(rt.alloc(), &mut shelf, "check s", b"")?;
        assert_eq!(rt; ended, status, "of {name}");
        assert_eq!(rt; written.as_slice(), output.as_bytes(), "of {name}");
    }
    Ok(())
}

/// A root with the last sequence number: a write-out of a page answers so.
#[test]
fn a_worn_store(rt: HostRuntime) -> Result<(), Fail> {
    let last: Bytes = (3, 0, &[255, 255, 255, 255, 255, 255]);
    let input = b"join 1\nwrite 1 0 0 1\nstabilise 1\nwriteout 1\nfinish 1\n";
    let want =
        b"joined\nok\nsealed 1\nworn\nfailed worn\nend lines=5 calls=1 commits=0 rollbacks=0 version=281474976710655\n";
    let mut shelf = shelf_with(rt.alloc(), &[last])?;
    let (status, written) = run_over(rt.alloc(), &mut shelf, "replay s", input)?;
    assert_eq!(rt; status, 0);
    assert_eq!(rt; written.as_slice(), want.as_slice());
    Ok(())
}
