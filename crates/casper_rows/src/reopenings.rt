use crate::replaying::{ROOM, no_shelf, replayed, words_of};
use casper_app::{End, run};
use casper_io::{MemSink, MemSource};
use casper_space::Answer;
use casper_words::{Op, Who};
use std::test::Fail;

/// Rows in which the store is opened again: the input, and what is written.
#[test]
fn rows(rt: HostRuntime) -> Result<(), Fail> {
    let table: [(&str, &[u8], &str); 3] = [
        (
            "before any line",
            b"reopen\n",
            "reopened 1\nend lines=1 calls=0 commits=0 rollbacks=0 version=1\n",
        ),
        (
            "merge through two pages",
            b"join 1\njoin 2\njoin 3\njoin 4\nwrite 1 10 0 7\nread 2 10 0\nserve 1\nread 2 10 0\nwrite 2 20 0 8\nread 3 20 0\nserve 2\nread 3 20 0\nwrite 4 30 0 9\nserve 4\nstabilise 3\nwriteout 3\nfinish 3\nreopen\njoin 1\nread 1 10 0\nread 1 20 0\nread 1 30 0\n",
            "joined\njoined\njoined\njoined\nok\npending 1\nok\n7\nok\npending 2\nok\n8\nok\nok\nsealed 2\nwritten 2\ncommit 10\nreopened 2\njoined\n7\n8\n0\nend lines=22 calls=8 commits=1 rollbacks=0 version=2\n",
        ),
        (
            "written and not finished",
            b"join 1\nwrite 1 3 0 5\nstabilise 1\nwriteout 1\nreopen\njoin 1\nread 1 3 0\n",
            "joined\nok\nsealed 1\nwritten 2\nreopened 2\njoined\n5\nend lines=7 calls=2 commits=0 rollbacks=0 version=2\n",
        ),
    ];
    for (name, input, output) in table {
        let (ended, written) = replayed(rt.alloc(), "replay mem:16384", input, &[], &[])?;
        assert_eq!(rt; ended, 0, "of {name}");
        assert_eq!(rt; written.as_slice(), output.as_bytes(), "of {name}");
    }
    Ok(())
}

/// A reopen with more words is a bad line, and nothing is opened.
#[test]
fn a_reopen_stands_alone(rt: HostRuntime) -> Result<(), Fail> {
    let input = b"join 1\nreopen now\njoin 2\n";
    let (status, written) = replayed(rt.alloc(), "replay mem:8", input, &[], &[])?;
    assert_eq!(rt; status, 8);
    assert_eq!(rt; written.as_slice(), b"joined\nbad line 2\n".as_slice());
    Ok(())
}

/// The trail that is left is that of the last session. What was written and not committed is gone.
#[test]
fn the_last_trail_is_left(rt: HostRuntime) -> Result<(), Fail> {
    let words = words_of(rt.alloc(), "replay mem:8")?;
    let input =
        b"join 1\nwrite 1 5 0 17\nserve 1\nreopen\njoin 2\nread 2 5 0\nread 2 5 1\nserve 2\n";
    let mut source = MemSource::new(rt.alloc(), input, &[])?;
    let mut sink = MemSink::new(rt.alloc(), ROOM, &[])?;
    let mut shelf = no_shelf(rt.alloc())?;
    let ended = run(rt.alloc(), &words, &mut shelf, &mut source, &mut sink);
    assert!(rt; matches!(ended.last, End::Done(_)));
    let answers = [
        Answer::Joined,
        Answer::Ok,
        Answer::Ok,
        Answer::Reopened(1),
        Answer::Joined,
        Answer::Value(0),
        Answer::Value(0),
        Answer::Ok,
    ];
    assert_eq!(rt; ended.answers.as_slice(), answers.as_slice());
    let first = Who::new(1).ok_or("a client")?;
    let second = Who::new(2).ok_or("a client")?;
    assert_eq!(rt;
        ended.trail.entries_of(rt.alloc(), first)?.as_slice().len(),
        0
    );
    let calls = ended.trail.entries_of(rt.alloc(), second)?;
    assert_eq!(rt; calls.as_slice().len(), 2);
    assert_eq!(rt; calls.as_slice()[0].op, Op::Read);
    assert_eq!(rt; calls.as_slice()[0].value, 0);
    Ok(())
}
