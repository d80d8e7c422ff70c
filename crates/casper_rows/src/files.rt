use crate::replaying::run_over;
use casper_disk::FileShelf;
use casper_words::Memory;
use std::alloc::Global;
use std::fs::{self, File, Files};
use std::test::Fail;

/// The status and the bytes written by a call over the files of the system, each call over a shelf of its own.
fn over_files<R: Files<File = File> + Drop>(
    alloc: Global,
    rt: R,
    words: &str,
    input: &[u8],
) -> Result<(u8, Vec<u8>), Memory> {
    let mut shelf = FileShelf::new(rt);
    run_over(alloc, &mut shelf, words, input)
}

/// A store in a file is made, written, closed, opened again, read and checked.
#[test]
fn a_store_survives(rt: HostRuntime) -> Result<(), Fail> {
    let path = "casper_rows_file_test";
    let _old = fs::remove_file(&rt, path);
    let table: [(&str, &[u8], &str); 4] = [
        (
            "format casper_rows_file_test 8 16",
            b"",
            "formatted pages 8 frames 16\n",
        ),
        (
            "replay casper_rows_file_test",
            b"join 1\nwrite 1 5 0 17\nstabilise 1\nwriteout 1\nfinish 1\nwrite 1 5 0 18\n",
            "joined\nok\nsealed 1\nwritten 2\ncommit 2\nok\nend lines=6 calls=2 commits=1 rollbacks=0 version=2\n",
        ),
        (
            "replay casper_rows_file_test",
            b"join 1\nread 1 5 0\n",
            "joined\n17\nend lines=2 calls=1 commits=0 rollbacks=0 version=2\n",
        ),
        (
            "check casper_rows_file_test",
            b"",
            "store format 1 pages 8 frames 16 version 2 used 2\n",
        ),
    ];
    for (words, input, output) in table {
        let (status, written) = over_files(rt.alloc(), rt.clone()?, words, input)?;
        assert_eq!(rt; status, 0, "of {words}");
        assert_eq!(rt; written.as_slice(), output.as_bytes(), "of {words}");
    }
    fs::remove_file(&rt, path)?;
    Ok(())
}

/// A file of 4,095 bytes has no block.
#[test]
fn a_short_file(rt: HostRuntime) -> Result<(), Fail> {
    let path = "casper_rows_short_test";
    fs::write(&rt, path, [0; 4095])?;
    let (status, written) = over_files(
        rt.alloc(),
        rt.clone()?,
        "check casper_rows_short_test",
        b"",
    )?;
    fs::remove_file(&rt, path)?;
    assert_eq!(rt; status, 6);
    assert_eq!(rt; written.as_slice(), b"refused short 5 0\n".as_slice());
    Ok(())
}
