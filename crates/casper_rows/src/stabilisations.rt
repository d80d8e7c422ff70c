use crate::replaying::replayed;
use std::test::Fail;

/// Rows of stabilisations: the lines, and the answers with the last line.
#[test]
fn rows(rt: HostRuntime) -> Result<(), Fail> {
    let table: [(&[u8], &str); 4] = [
        // Recall and merge. The last stabilise is answered with the outcome that was kept.
        (
            b"join 1\njoin 2\nwrite 1 5 0 17\nread 2 5 0\nserve 1\nread 2 5 0\nstabilise 1\nwriteout 1\nfinish 1\nstabilise 1\n",
            "joined\njoined\nok\npending 1\nok\n17\nsealed 1\nwritten 2\ncommit 3\ncommit 3\nend lines=10 calls=2 commits=1 rollbacks=0 version=2\n",
        ),
        // A write right that was never used.
        (
            b"join 1\njoin 2\nacquire 1 5:w\nread 2 5 0\nserve 1\nread 2 5 0\nwrite 1 6 0 9\nstabilise 1\nwriteout 1\nfinish 1\n",
            "joined\njoined\ngranted\npending 1\nok\n0\nok\nsealed 1\nwritten 2\ncommit 4\nend lines=10 calls=2 commits=1 rollbacks=0 version=2\n",
        ),
        // A departed member.
        (
            b"join 1\njoin 2\nwrite 1 5 0 17\ndepart 1\nread 2 5 0\nstabilise 2\nwriteout 2\nfinish 2\nwriteout 2\nfinish 2\n",
            "joined\njoined\nok\nleft\n17\nsealed 1\nwritten 2\ncommit 4\nnojob\nnojob\nend lines=10 calls=2 commits=1 rollbacks=0 version=2\n",
        ),
        // A loss is noted while the association is sealed, and the commit forgets it.
        (
            b"join 1\njoin 2\nwrite 1 5 0 17\nread 2 5 0\nserve 1\nread 2 5 0\nstabilise 1\nvanish 2\nwriteout 1\nfinish 1\n",
            "joined\njoined\nok\npending 1\nok\n17\nsealed 1\nnoted 1 1\nwritten 2\ncommit 3\nend lines=10 calls=2 commits=1 rollbacks=0 version=2\n",
        ),
    ];
    for (at, (input, output)) in table.into_iter().enumerate() {
        let (ended, written) = replayed(rt.alloc(), "replay mem:16384", input, &[], &[])?;
        assert_eq!(rt; ended, 0, "of row {at}");
        assert_eq!(rt; written.as_slice(), output.as_bytes(), "of row {at}");
    }
    Ok(())
}

/// Rows in which more than one stabilisation is wanted, and one that has to gather.
#[test]
fn repeated(rt: HostRuntime) -> Result<(), Fail> {
    let table: [(&[u8], &str); 4] = [
        // Repeated stabilisation.
        (
            b"join 1\nwrite 1 0 0 1\nstabilise 1\nwriteout 1\nfinish 1\nstabilise 1\nstabilise 1\nwriteout 1\nfinish 1\n",
            "joined\nok\nsealed 1\nwritten 2\ncommit 2\ncommit 2\nsealed 0\nwritten 2\ncommit 3\nend lines=9 calls=1 commits=2 rollbacks=0 version=2\n",
        ),
        // Two members stabilise.
        (
            b"join 1\njoin 2\nwrite 1 5 0 17\nread 2 5 0\nserve 1\nread 2 5 0\nstabilise 1\nstabilise 2\nwriteout 1\nfinish 1\nstabilise 1\nstabilise 2\n",
            "joined\njoined\nok\npending 1\nok\n17\nsealed 1\ndoing 1\nwritten 2\ncommit 4\ncommit 4\ncommit 4\nend lines=12 calls=2 commits=1 rollbacks=0 version=2\n",
        ),
        // Gather.
        (
            b"join 1\njoin 2\nwrite 1 5 0 17\nwrite 2 5 1 18\nserve 1\nwrite 2 5 1 18\nstabilise 1\nread 1 5 0\nserve 2\nstabilise 1\nwriteout 1\nfinish 1\nread 1 5 1\n",
            "joined\njoined\nok\npending 1\nok\nok\ngathering 2\nfrozen 1\nok\ndoing 1\nwritten 2\ncommit 4\n18\nend lines=13 calls=3 commits=1 rollbacks=0 version=2\n",
        ),
        // A second write-out beside one that is unfinished, and a settle of nothing.
        (
            b"join 1\njoin 2\nwrite 1 0 0 1\nwrite 2 1 0 2\nstabilise 1\nstabilise 2\nwriteout 1\nwriteout 1\nwriteout 2\nfinish 2\nsettle\nfinish 1\nwriteout 2\nfinish 2\n",
            "joined\njoined\nok\nok\nsealed 1\nsealed 1\nwritten 2\nnojob\nvault 1\nnojob\nnothing\ncommit 4\nwritten 3\ncommit 5\nend lines=14 calls=2 commits=2 rollbacks=0 version=3\n",
        ),
    ];
    for (at, (input, output)) in table.into_iter().enumerate() {
        let (ended, written) = replayed(rt.alloc(), "replay mem:16384", input, &[], &[])?;
        assert_eq!(rt; ended, 0, "of row {at}");
        assert_eq!(rt; written.as_slice(), output.as_bytes(), "of row {at}");
    }
    Ok(())
}
