use crate::replaying::replayed;
use std::test::Fail;

/// Rows of lost clients and of associations that are rolled back: the input, and what is written.
#[test]
fn rows(rt: HostRuntime) -> Result<(), Fail> {
    let table: [(&str, &[u8], &str); 3] = [
        (
            "linked rollback",
            b"join 1\njoin 2\nwrite 1 5 0 17\nread 2 5 0\nserve 1\nread 2 5 0\nvanish 1\nserve 2\nread 2 5 0\n",
            "joined\njoined\nok\npending 1\nok\n17\nlost 3 0\nrolledback 3 0 1\n0\nend lines=9 calls=3 commits=0 rollbacks=1 version=1\n",
        ),
        (
            "late hits",
            b"join 1\njoin 2\nwrite 1 5 0 17\nread 2 5 0\nserve 1\nread 2 5 0\nserve 2\nread 2 5 0\nread 2 5 1\nvanish 1\nread 2 5 0\nserve 2\nread 2 5 0\n",
            "joined\njoined\nok\npending 1\nok\n17\nok\n17\n0\nlost 4 0\n17\nrolledback 4 1 3\n0\nend lines=13 calls=6 commits=0 rollbacks=1 version=1\n",
        ),
        (
            "declared loss",
            b"join 1\nwrite 1 0 0 5\nlose 1\nlose 1\nread 1 0 0\nserve 1\nread 1 0 0\nlose 2\n",
            "joined\nok\nlost 1\nalready 1\n5\nrolledback 1 0 2\n0\nabsent\nend lines=8 calls=3 commits=0 rollbacks=1 version=1\n",
        ),
    ];
    for (name, input, output) in table {
        let (ended, written) = replayed(rt.alloc(), "replay mem:16384", input, &[], &[])?;
        assert_eq!(rt; ended, 0, "of {name}");
        assert_eq!(rt; written.as_slice(), output.as_bytes(), "of {name}");
    }
    Ok(())
}
