use crate::replaying::run_over;
use casper_disk::{Fail as Failing, Kind, MemShelf, Shelf};
use casper_words::Memory;
use std::alloc::Global;
use std::test::Fail;

/// Room for the writes and syncs of a disk that does not fail.
const CALLS: u32 = 64;

/// The rows of a format, and the words of a store that are refused.
#[test]
fn formats(rt: HostRuntime) -> Result<(), Fail> {
    let table: [(&str, u8, &str); 11] = [
        ("format s 1024 3", 0, "formatted pages 1024 frames 3\n"),
        ("format s 1024 3", 6, "refused exists\n"),
        ("format t 0 3", 6, "refused badsize 0 3\n"),
        ("check u", 6, "refused nosuch\n"),
        ("replay u", 6, "refused nosuch\n"),
        (
            "check s",
            0,
            "store format 1 pages 1024 frames 3 version 1 used 0\n",
        ),
        ("format mem:8 8 16", 2, "usage\n"),
        ("check", 2, "usage\n"),
        ("format t 8 4294967296", 2, "usage\n"),
        ("replay s --trail", 10, "unbuilt 0\n"),
        ("run s", 10, "unbuilt 0\n"),
    ];
    let mut shelf = MemShelf::new(rt.alloc(), CALLS, &[])?;
    for (words, status, output) in table {
        let (ended, written) = run_over(rt.alloc(), &mut shelf, words, b"")?;
        assert_eq!(rt; ended, status, "of {words}");
        assert_eq!(rt; written.as_slice(), output.as_bytes(), "of {words}");
    }
    Ok(())
}

/// The opening of a shelf fails, and so does a making.
#[test]
fn a_shelf_fails(rt: HostRuntime) -> Result<(), Fail> {
    let table: [(&str, u8, &str); 4] = [
        ("format s 8 16", 5, "disk fault\n"),
        ("format s 8 16", 0, "formatted pages 8 frames 16\n"),
        ("replay s", 5, "disk fault\n"),
        ("check s", 5, "disk fault\n"),
    ];
    let mut shelf = MemShelf::new(rt.alloc(), CALLS, &[1, 3, 4])?;
    for (words, status, output) in table {
        let (ended, written) = run_over(rt.alloc(), &mut shelf, words, b"join 1\n")?;
        assert_eq!(rt; ended, status, "of {words}");
        assert_eq!(rt; written.as_slice(), output.as_bytes(), "of {words}");
    }
    Ok(())
}

/// A shelf with a new store `s` of 1,024 pages and so many frames, whose disk then fails at these calls.
fn shelf_with(alloc: Global, format: &str, fails: &[Failing]) -> Result<MemShelf, Fail> {
    let mut shelf = MemShelf::new(alloc, CALLS, &[])?;
    let (_status, _written) = run_over(alloc, &mut shelf, format, b"")?;
    let Ok(mut disk) = shelf.open(alloc, b"s") else {
        return Err("open")?;
    };
    disk.arm(fails, CALLS)?;
    shelf.close(b"s", disk);
    Ok(shelf)
}

/// What a replay over such a store writes. Its status is 0.
fn written_over(
    alloc: Global,
    format: &str,
    fails: &[Failing],
    input: &[u8],
) -> Result<Vec<u8>, Fail> {
    let mut shelf = shelf_with(alloc, format, fails)?;
    let (status, written) = run_over(alloc, &mut shelf, "replay s", input)?;
    if status != 0 {
        return Err("status")?;
    }
    Ok(written)
}

const TWO_PAGES: &[u8] =
    b"join 1\nwrite 1 0 0 1\nwrite 1 1 0 2\nstabilise 1\nwriteout 1\nfinish 1\nread 1 0 0\n";

#[test]
fn frames_too_few_by_one(rt: HostRuntime) -> Result<(), Fail> {
    let table: [(&str, &str); 2] = [
        (
            "format s 1024 2",
            "joined\nok\nok\nsealed 2\nfull need 3 free 2\nfailed full need 3 free 2\n1\nend lines=7 calls=3 commits=0 rollbacks=0 version=1\n",
        ),
        (
            "format s 1024 3",
            "joined\nok\nok\nsealed 2\nwritten 2\ncommit 4\n1\nend lines=7 calls=3 commits=1 rollbacks=0 version=2\n",
        ),
    ];
    for (format, output) in table {
        let written = written_over(rt.alloc(), format, &[], TWO_PAGES)?;
        assert_eq!(rt; written.as_slice(), output.as_bytes(), "of {format}");
    }
    Ok(())
}

/// The write of this number after the opening fails.
fn write_fails(number: u64) -> Failing {
    Failing {
        kind: Kind::Write,
        number,
    }
}

/// The sync of this number fails. The first one is the opening's.
fn sync_fails(number: u64) -> Failing {
    Failing {
        kind: Kind::Sync,
        number,
    }
}

/// Schedules over a store of 9 frames whose disk fails: the input, and what is written.
#[test]
fn disks_fail(rt: HostRuntime) -> Result<(), Fail> {
    let before_the_gate = [write_fails(1)];
    let at_the_gate = [sync_fails(4)];
    let twice = [sync_fails(4), write_fails(5)];
    let table: [(&str, &[Failing], &[u8], &str); 4] = [
        (
            "a fault before the gate",
            &before_the_gate,
            b"join 1\nwrite 1 0 0 1\nstabilise 1\nwriteout 1\nfinish 1\nstabilise 1\nstabilise 1\nwriteout 1\nfinish 1\n",
            "joined\nok\nsealed 1\ndisk\nfailed disk\nfailed disk\nsealed 1\nwritten 2\ncommit 2\nend lines=9 calls=1 commits=1 rollbacks=0 version=2\n",
        ),
        (
            "a doubt",
            &at_the_gate,
            b"join 1\nwrite 1 0 0 1\nstabilise 1\nwriteout 1\nfinish 1\nstabilise 1\nread 1 9 0\nsettle\nread 1 9 0\nsettle\n",
            "joined\nok\nsealed 1\ndoubt\nindoubt\ndoubt 1\nindoubt\ncommit 2\n0\nnothing\nend lines=10 calls=2 commits=1 rollbacks=0 version=2\n",
        ),
        (
            "a settle that fails",
            &twice,
            b"join 1\nwrite 1 0 0 1\nstabilise 1\nwriteout 1\nfinish 1\nsettle\nstabilise 1\nsettle\nsettle\n",
            "joined\nok\nsealed 1\ndoubt\nindoubt\ndisk\ndoubt 1\ncommit 2\nnothing\nend lines=9 calls=1 commits=1 rollbacks=0 version=2\n",
        ),
        (
            "a loss while sealed, and a write-out that fails",
            &before_the_gate,
            b"join 1\njoin 2\nwrite 1 5 0 17\nread 2 5 0\nserve 1\nread 2 5 0\nstabilise 1\nvanish 2\nwriteout 1\nfinish 1\nserve 1\n",
            "joined\njoined\nok\npending 1\nok\n17\nsealed 1\nnoted 1 1\ndisk\nundone 3\nrolledback 3 1 0\nend lines=11 calls=2 commits=0 rollbacks=1 version=1\n",
        ),
    ];
    for (name, fails, input, output) in table {
        let written = written_over(rt.alloc(), "format s 1024 9", fails, input)?;
        assert_eq!(rt; written.as_slice(), output.as_bytes(), "of {name}");
    }
    Ok(())
}

/// A store that is opened again in doubt has what its disk holds, and nothing is in doubt.
#[test]
fn opened_again_in_doubt(rt: HostRuntime) -> Result<(), Fail> {
    let input =
        b"join 1\nwrite 1 0 0 1\nstabilise 1\nwriteout 1\nreopen\nsettle\njoin 1\nread 1 0 0\n";
    let want =
        b"joined\nok\nsealed 1\ndoubt\nreopened 2\nnothing\njoined\n1\nend lines=8 calls=2 commits=0 rollbacks=0 version=2\n";
    let written = written_over(rt.alloc(), "format s 1024 9", &[sync_fails(4)], input)?;
    assert_eq!(rt; written.as_slice(), want.as_slice());
    Ok(())
}
