use crate::replaying::replayed;
use std::test::Fail;

/// Rows of rights, recalls and departures: the input, what is written, and the status.
#[test]
fn rows(rt: HostRuntime) -> Result<(), Fail> {
    let table: [(&[u8], &str, u8); 5] = [
        (
            b"join 1\njoin 2\nacquire 1 5:w\nacquire 2 5:w\nserve 1\nacquire 2 5:w\ndepart 2\nread 1 5 0\n",
            "joined\njoined\ngranted\npending 1\nok\ngranted\nleft\n0\nend lines=8 calls=1 commits=0 rollbacks=0 version=1\n",
            0,
        ),
        (
            b"join 1\njoin 2\nwrite 1 5 0 17\nread 2 5 0\nserve 1\nread 2 5 0\n",
            "joined\njoined\nok\npending 1\nok\n17\nend lines=6 calls=2 commits=0 rollbacks=0 version=1\n",
            0,
        ),
        (b"acquire 1 0:r 1:r 2:r 3:r 4:r\n", "bad line 1\n", 8),
        (
            b"serve 1\ndepart 1\nacquire 1 5:w\n",
            "absent\nabsent\nabsent\nend lines=3 calls=0 commits=0 rollbacks=0 version=1\n",
            0,
        ),
        (
            b"join 1\nacquire 1 16384:w\n",
            "joined\nrange\nend lines=2 calls=0 commits=0 rollbacks=0 version=1\n",
            0,
        ),
    ];
    for (at, (input, output, status)) in table.into_iter().enumerate() {
        let (ended, written) = replayed(rt.alloc(), "replay mem:16384", input, &[], &[])?;
        assert_eq!(rt; ended, status, "of row {at}");
        assert_eq!(rt; written.as_slice(), output.as_bytes(), "of row {at}");
    }
    Ok(())
}

/// Lines of a known form that are not built yet.
#[test]
fn unbuilt_lines(rt: HostRuntime) -> Result<(), Fail> {
    let lines: [&str; 2] = ["1 new 1 2", "32 names"];
    for line in lines {
        let input = format!(in rt.alloc(); "join 1\n{line}\n")?;
        let (status, written) = replayed(rt.alloc(), "replay mem:8", input.as_bytes(), &[], &[])?;
        assert_eq!(rt; status, 10, "of {line}");
        assert_eq!(rt;
            written.as_slice(),
            b"joined\nunbuilt 2\n".as_slice(),
            "of {line}"
        );
    }
    Ok(())
}
