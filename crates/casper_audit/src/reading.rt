ghost use Rattle.std.specs.Prelude.{◌≡◌, ◌⊎◌, ◌+◌, ◌<◌, ◌≤◌, false, [], length, Err, MatchResult, MatchBool};
ghost use Rattle.casper_words.specs.Count.{FaultCountRose};
ghost use Rattle.casper_io.specs.Lines.{TakesLine, TakesEnd};
ghost use Rattle.casper_io.specs.Told.{WhereTold};
ghost use Rattle.casper_audit.specs.Verdicts.{IsAudit};
ghost use Rattle.casper_audit.specs.Auditor.{NoLine};

use crate::auditor::Auditor;
use crate::{AuditFault, Verdict};
use casper_io::{IoFault, Line, MOST_LINES, Next, Source, next_line};
use casper_trail::Mark;
use std::alloc::Global;

/// Audits the text of a trail, line by line, up to its end or to the first line or item that is bad. `Legal` comes where the whole
/// text was read, and its trail is legal with exact marks over the words before it; `FirstBad` for the first bad item.
///
/// # Errors
///
/// `BadLine` for the first line that is no line of a trail's text in its place, or is too long, or is one too many. `Read` only where
/// the source failed. After `FirstBad` and `BadLine` nothing after that line was taken; after `BadLine` for too long a line, what
/// `next_line` takes of one.
pub fn audit<S: Source>(alloc: Global, source: &mut S) -> Result<Verdict, AuditFault>
    requires { S.is_broken source.old ≡ false }
    ensures audit { IsAudit (S.left source.old) (S.left source.new) result }
    ensures fault { result ≡ Err AuditFault.Read
        → FaultCountRose (S.faults source.old) (S.faults source.new) }
    ensures source_stands { (result ≡ Err AuditFault.Read)
        ⊎ (S.faults source.new ≡ S.faults source.old) }
    ensures never_falls { S.faults source.old ≤ S.faults source.new }
{
    let _mark: Option<Mark> = None;
    let mut line = Line::new(alloc)?;
    let mut auditor = Auditor::new(alloc)?;
    for lines in 0..MOST_LINES {
        if !read_line(source, &mut line, lines + 1)? {
            return Ok(Verdict::Legal(auditor.entries()));
        }
        if let Some(verdict) = auditor.take_line(alloc, lines + 1, line.bytes())? {
            return Ok(verdict);
        }
    }
    if read_line(source, &mut line, MOST_LINES + 1)? {
        return Err(AuditFault::BadLine(MOST_LINES + 1));
    }
    Ok(Verdict::Legal(auditor.entries()))
}

/// Reads the next line into `line`, and tells whether there is one. The line would be of this number.
fn read_line<S: Source>(source: &mut S, line: &mut Line, number: u32) -> Result<bool, AuditFault>
    requires { S.is_broken source.old ≡ false }
    ensures next { MatchResult result
        (λ found. MatchBool found
        (WhereTold (S.left source.old) (S.left source.new) (TakesLine line.new))
        (WhereTold (S.left source.old) (S.left source.new) (TakesEnd [])))
        (λ fault. NoLine fault number (S.left source.old) (S.left source.new)) }
    ensures fault { result ≡ Err AuditFault.Read
        → FaultCountRose (S.faults source.old) (S.faults source.new) }
    ensures source_stands { (result ≡ Err AuditFault.Read)
        ⊎ (S.faults source.new ≡ S.faults source.old) }
    ensures never_falls { S.faults source.old ≤ S.faults source.new }
    ensures source_whole { (result ≡ Err AuditFault.Read) ⊎ (S.is_broken source.new ≡ false) }
    ensures short { length line.new ≤ 1024 }
{
    match next_line(source, line) {
        Ok(Next::Line) => Ok(true),
        Ok(Next::End) => Ok(false),
        Ok(Next::TooLong) => Err(AuditFault::BadLine(number)),
        Err(IoFault::Failed) => Err(AuditFault::Read),
    }
}

#[cfg(test)]
mod tests {
    use super::*;
    use crate::AuditRule;
    use casper_io::MemSource;
    use std::test::Fail;

    const BAD_READ: AuditRule = AuditRule::Read;

    fn bad(at: u64, rule: AuditRule) -> Result<Verdict, AuditFault> {
        Ok(Verdict::FirstBad { at, rule })
    }

    fn legal(entries: u32) -> Result<Verdict, AuditFault> {
        Ok(Verdict::Legal(entries))
    }

    #[test]
    fn verdicts(rt: HostRuntime) -> Result<(), Fail> {
        let table: [(&[u8], Result<Verdict, AuditFault>); 12] = [
            (b"", legal(0)),
            (
                b"t 1 5\nw 1 5 0 17\nt 2 5\nr 2 5 0 17\ncommit 1 1\n",
                bad(4, AuditRule::Commit),
            ),
            (
                b"t 1 5\nw 1 5 0 17\nt 2 5\nr 2 5 0 17\ncommit 1 1 2\n",
                legal(4),
            ),
            (
                b"t 1 5\nw 1 5 0 17\nt 2 5\nr 2 5 0 16\ncommit 1 1 2\n",
                bad(3, BAD_READ),
            ),
            (b"# a comment\n\n  b 5 0 9\nb 5 1 8\nr 1 5 0 9", legal(1)),
            (b"r 1 5 0 9\n", bad(0, BAD_READ)),
            (b"w 1 5 0 17\nrollback 1 1\nr 2 5 0 17\n", bad(2, BAD_READ)),
            (b"b 5 0 9\nw 1 5 0 17\nrollback 1 1\nr 2 5 0 9\n", legal(2)),
            (
                b"w 1 5 0 17\ncommit 1 1\nw 2 5 0 18\nrollback 2 2\nr 3 5 0 17\n",
                legal(3),
            ),
            (
                b"w 1 5 0 17\nt 2 5\nrollback 2 2\n",
                bad(2, AuditRule::Rollback),
            ),
            (b"commit 3 4\n", bad(0, AuditRule::Commit)),
            (
                b"w 1 10 0 7\nt 2 10\nw 2 20 0 8\nt 3 20\nw 4 30 0 9\ncommit 3 1 2 3\n",
                legal(5),
            ),
        ];
        for (text, want) in table {
            let mut source = MemSource::new(rt.alloc(), text, &[])?;
            assert_eq!(rt; audit(rt.alloc(), &mut source), want);
        }
        Ok(())
    }

    #[test]
    fn bad_lines(rt: HostRuntime) -> Result<(), Fail> {
        let table: [(&[u8], u32); 14] = [
            (b"read 1 5 0 9\n", 1),
            (b"r 33 5 0 9\n", 1),
            (b"r 1 262144 0 0\n", 1),
            (b"r 1 262143 512 0\n", 1),
            (b"t 1 5 0\n", 1),
            (b"t 1 5\tx\n", 1),
            (b"t 1 5\nb 5 0 9\n", 2),
            (b"b 5 0 0\n", 1),
            (b"b 5 1 9\nb 5 1 9\n", 2),
            (b"b 5 1 9\nb 4 2 9\n", 2),
            (b"commit 1\n", 1),
            (b"commit 1 2 1\n", 1),
            (b"rollback 1 1 1\n", 1),
            (b"r 1 5 0 0\n# \x7f\n", 2),
        ];
        for (text, line) in table {
            let mut source = MemSource::new(rt.alloc(), text, &[])?;
            assert_eq!(rt;
                audit(rt.alloc(), &mut source),
                Err(AuditFault::BadLine(line))
            );
        }
        let mut source = MemSource::new(rt.alloc(), &[b'#'; 1025], &[])?;
        assert_eq!(rt; audit(rt.alloc(), &mut source), Err(AuditFault::BadLine(1)));
        Ok(())
    }

    #[test]
    fn the_second_read_fails(rt: HostRuntime) -> Result<(), Fail> {
        let mut source = MemSource::new(rt.alloc(), b"t 1 5\nt 2 5\n", &[2])?;
        assert_eq!(rt; audit(rt.alloc(), &mut source), Err(AuditFault::Read));
        Ok(())
    }
}
