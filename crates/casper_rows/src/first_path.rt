use crate::replaying::{ROOM, no_shelf, replayed, words_of};
use casper_app::{Backing, Cause, Command, End, Opening, Outlet, carry_out, run};
use casper_io::{MemSink, MemSource};
use casper_space::Answer;
use casper_words::{Op, Who};
use std::test::Fail;

const ROW: &[u8] = b"join 1\nwrite 1 5 0 17\nread 1 5 0\n";

/// The last line of the row.
const SUMMARY: &[u8] = b"end lines=3 calls=2 commits=0 rollbacks=0 version=1\n";

#[test]
fn rows(rt: HostRuntime) -> Result<(), Fail> {
    let table: [(&str, &[u8], &str, u8); 8] = [
        (
            "replay mem:16384",
            b"",
            "end lines=0 calls=0 commits=0 rollbacks=0 version=1\n",
            0,
        ),
        (
            "replay mem:16384",
            ROW,
            "joined\nok\n17\nend lines=3 calls=2 commits=0 rollbacks=0 version=1\n",
            0,
        ),
        (
            "replay mem:16384",
            b"join 1\nread 1 16383 511",
            "joined\n0\nend lines=2 calls=1 commits=0 rollbacks=0 version=1\n",
            0,
        ),
        (
            "replay mem:16384",
            b"join 1\njoin 1\nread 1 16384 0\nread 1 0 512\nread 2 0 0\n",
            "joined\nbusy\nrange\nrange\nabsent\nend lines=5 calls=0 commits=0 rollbacks=0 version=1\n",
            0,
        ),
        (
            "replay mem:8",
            b"# a comment\n\n   \njoin 1\n",
            "joined\nend lines=4 calls=0 commits=0 rollbacks=0 version=1\n",
            0,
        ),
        (
            "replay mem:16384",
            b"join 1\nwrit",
            "joined\nbad line 2\n",
            8,
        ),
        ("replay mem:0", b"join 1\n", "usage\n", 2),
        ("run s", b"join 1\n", "unbuilt 0\n", 10),
    ];
    for (words, input, output, status) in table {
        let (ended, written) = replayed(rt.alloc(), words, input, &[], &[])?;
        assert_eq!(rt; ended, status, "of {words}");
        assert_eq!(rt; written.as_slice(), output.as_bytes(), "of {words}");
    }
    Ok(())
}

#[test]
fn words(rt: HostRuntime) -> Result<(), Fail> {
    let table = [
        ("", 2),
        ("replay", 2),
        ("replays mem:8", 2),
        ("replay mem:", 2),
        ("replay mem:08", 2),
        ("replay mem:16384", 0),
        ("replay mem:16385", 2),
        ("replay store", 6),
        ("replay mem:8 --trail", 10),
        ("run mem:8", 10),
        ("gen 0 2 2", 10),
        ("audit", 0),
        ("audit s", 2),
        ("check u", 6),
    ];
    for (words, status) in table {
        let (ended, _written) = replayed(rt.alloc(), words, b"", &[], &[])?;
        assert_eq!(rt; ended, status, "of {words}");
    }
    Ok(())
}

#[test]
fn lines(rt: HostRuntime) -> Result<(), Fail> {
    let table: [(&[u8], u8); 22] = [
        (b"join 32", 0),
        (b"  join   1  ", 0),
        (b"#", 0),
        (b"read 1 4294967295 4294967295", 0),
        (b"write 1 0 0 18446744073709551615", 0),
        (b"join 0", 8),
        (b"join 33", 8),
        (b"join 01", 8),
        (b"Join 1", 8),
        (b"join 1 2", 8),
        (b"read 1 4294967296 0", 8),
        (b"write 1 0 0 18446744073709551616", 8),
        (b"# \x7f", 8),
        (b"join\t1", 8),
        (b" #", 8),
        (b"serve 1", 0),
        (b"reopen", 0),
        (b"  reopen  ", 0),
        (b"reopen now", 8),
        (b"acquire 1 0:r 1:r 2:r 3:r 4:r", 8),
        (b"1 new 1 2", 10),
        (b"33 new 1 2", 8),
    ];
    for (at, (line, status)) in table.into_iter().enumerate() {
        let (ended, _written) = replayed(rt.alloc(), "replay mem:8", line, &[], &[])?;
        assert_eq!(rt; ended, status, "of line {at}");
    }
    let mut long = [b'x'; 1025];
    long[0] = b'#';
    let (skipped, _written) = replayed(rt.alloc(), "replay mem:8", &long[..1024], &[], &[])?;
    let (bad, written) = replayed(rt.alloc(), "replay mem:8", &long, &[], &[])?;
    assert_eq!(rt; skipped, 0);
    assert_eq!(rt; bad, 8);
    assert_eq!(rt; written.as_slice(), b"bad line 1\n".as_slice());
    Ok(())
}

/// The source fails at each line of the row, at its end, and in the middle of a line.
#[test]
fn each_read_fails(rt: HostRuntime) -> Result<(), Fail> {
    let table: [(&[u8], u64, &[u8]); 5] = [
        (ROW, 1, b"read fault\n"),
        (ROW, 2, b"joined\nread fault\n"),
        (ROW, 3, b"joined\nok\nread fault\n"),
        (ROW, 4, b"joined\nok\n17\nread fault\n"),
        (b"join 1\nread 1", 3, b"joined\nread fault\n"),
    ];
    for (input, at, answered) in table {
        let (status, written) = replayed(rt.alloc(), "replay mem:8", input, &[at], &[])?;
        assert_eq!(rt; status, 3, "at {at}");
        assert_eq!(rt; written.as_slice(), answered, "at {at}");
    }
    Ok(())
}

/// The sink fails at each answer of the row and at its summary.
#[test]
fn each_write_fails(rt: HostRuntime) -> Result<(), Fail> {
    let fronts: [&[u8]; 4] = [b"", b"joined\n", b"joined\nok\n", b"joined\nok\n17\n"];
    for (at, front) in fronts.into_iter().enumerate() {
        let (status, written) = replayed(rt.alloc(), "replay mem:8", ROW, &[], &[at as u64 + 1])?;
        assert_eq!(rt; status, 4, "at {at}");
        assert_eq!(rt; written.as_slice(), front, "at {at}");
    }
    Ok(())
}

/// Each line is answered before the next one is read: where the sink fails, the next line is still in the source.
#[test]
fn the_next_line_is_still_there(rt: HostRuntime) -> Result<(), Fail> {
    let words = words_of(rt.alloc(), "replay mem:8")?;
    let lefts: [(u64, &[u8]); 3] = [
        (1, b"write 1 5 0 17\nread 1 5 0\n"),
        (2, b"read 1 5 0\n"),
        (3, b""),
    ];
    for (fails, left) in lefts {
        let mut source = MemSource::new(rt.alloc(), ROW, &[])?;
        let mut sink = MemSink::new(rt.alloc(), ROOM, &[fails])?;
        let mut shelf = no_shelf(rt.alloc())?;
        let ended = run(rt.alloc(), &words, &mut shelf, &mut source, &mut sink);
        assert_eq!(rt; ended.last, End::Stopped(Cause::Write), "at {fails}");
        assert_eq!(rt; source.left(), left, "at {fails}");
    }
    Ok(())
}

/// Answers that are kept alone, and those that are left out, are not written.
#[test]
fn answers_are_kept_or_left_out(rt: HostRuntime) -> Result<(), Fail> {
    let opening = Opening {
        cache: 64,
        entries: 64,
    };
    let kept = [Answer::Joined, Answer::Ok, Answer::Value(17)];
    let table: [(Outlet, &[Answer]); 2] = [(Outlet::Kept, &kept), (Outlet::LeftOut, &[])];
    for (outlet, answers) in table {
        let mut source = MemSource::new(rt.alloc(), ROW, &[])?;
        let mut sink = MemSink::new(rt.alloc(), ROOM, &[])?;
        let command = Command::Replay(Backing::Memory(8), opening, outlet);
        let mut shelf = no_shelf(rt.alloc())?;
        let ended = carry_out(
            rt.alloc(),
            &command,
            b"",
            &mut shelf,
            &mut source,
            &mut sink,
        );
        assert_eq!(rt; ended.answers.as_slice(), answers);
        assert_eq!(rt; sink.bytes(), SUMMARY);
    }
    Ok(())
}

/// A turn records the calls that were pending.
#[test]
fn what_stands_at_the_end(rt: HostRuntime) -> Result<(), Fail> {
    let words = words_of(rt.alloc(), "replay mem:8")?;
    let input = b"join 1\nwrite 1 5 0 17\nread 1 5 0\nserve 1\n";
    let mut source = MemSource::new(rt.alloc(), input, &[])?;
    let mut sink = MemSink::new(rt.alloc(), ROOM, &[])?;
    let mut shelf = no_shelf(rt.alloc())?;
    let ended = run(rt.alloc(), &words, &mut shelf, &mut source, &mut sink);
    assert!(rt; matches!(ended.last, End::Done(_)));
    let answers = [Answer::Joined, Answer::Ok, Answer::Value(17), Answer::Ok];
    assert_eq!(rt; ended.answers.as_slice(), answers.as_slice());
    let who = Who::new(1).ok_or("a client")?;
    let calls = ended.trail.entries_of(rt.alloc(), who)?;
    assert_eq!(rt; calls.as_slice().len(), 2);
    assert_eq!(rt; calls.as_slice()[1].op, Op::Read);
    assert_eq!(rt; calls.as_slice()[1].value, 17);
    Ok(())
}
