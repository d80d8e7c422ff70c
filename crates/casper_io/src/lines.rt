ghost use Rattle.std.specs.Prelude.{◌≡◌, ◌≤◌, false, is_err, OnOk, OnErr};
ghost use Rattle.casper_words.specs.Count.{FaultCountRose};
ghost use Rattle.casper_io.specs.Lines.{IsShortLine, Takes};
ghost use Rattle.casper_io.specs.Told.{WhereTold};

use crate::{IoFault, Line, Piece, Source};

/// The greatest number of lines of one input.
pub const MOST_LINES: u32 = 1_048_576;

/// What stood next in the source.
#[derive(Clone, Copy, Debug, PartialEq, Eq)]
pub enum Next {
    /// A line, which ended at a newline or at the end of the bytes.
    Line,
    /// No byte.
    End,
    /// 1,025 bytes with no newline among them.
    TooLong,
}

/// Reads the next line of the source into `line`, without its newline. The last line needs no newline. No byte after
/// the newline is taken. It takes no memory.
///
/// After `End` the line is empty, after `TooLong` it has the first 1,024 of the 1,025 bytes taken, and after a fault it has
/// the bytes that were taken.
pub fn next_line<S: Source>(source: &mut S, line: &mut Line) -> Result<Next, IoFault>
    requires { S.is_broken source.old ≡ false }
    ensures broken { S.is_broken source.new ≡ is_err result }
    ensures takes { WhereTold (S.left source.old) (S.left source.new) (Takes result line.new) }
    ensures short { IsShortLine line.new }
    ensures counted { OnErr result (FaultCountRose (S.faults source.old) (S.faults source.new)) }
    ensures uncounted { OnOk result (S.faults source.new ≡ S.faults source.old) }
    ensures never_falls { S.faults source.old ≤ S.faults source.new }
{
    line.clear();
    loop {
        match source.read_piece(line)? {
            Piece::Part => {}
            Piece::Rest => return Ok(Next::Line),
            Piece::TooLong => return Ok(Next::TooLong),
            Piece::End if line.is_empty() => return Ok(Next::End),
            Piece::End => return Ok(Next::Line),
        }
    }
}

#[cfg(test)]
mod tests {
    use super::*;
    use crate::MemSource;
    use std::test::Fail;

    #[test]
    fn first_lines(rt: HostRuntime) -> Result<(), Fail> {
        let long = [b'x'; 1025];
        let mut ended = [b'x'; 1025];
        ended[1024] = b'\n';
        let table = [
            (b"".as_slice(), Next::End, b"".as_slice()),
            (b"\n", Next::Line, b""),
            (b"join 1\nserve 1", Next::Line, b"join 1"),
            (b"join 1", Next::Line, b"join 1"),
            (&ended, Next::Line, &long[..1024]),
            (&long[..1024], Next::Line, &long[..1024]),
            (&long, Next::TooLong, &long[..1024]),
        ];
        let mut line = Line::new(rt.alloc())?;
        for (bytes, want, wanted_line) in table {
            let mut source = MemSource::new(rt.alloc(), bytes, &[])?;
            assert_eq!(rt; next_line(&mut source, &mut line), Ok(want));
            assert_eq!(rt; line.bytes(), wanted_line);
        }
        Ok(())
    }

    #[test]
    fn the_second_read_fails(rt: HostRuntime) -> Result<(), Fail> {
        let mut source = MemSource::new(rt.alloc(), b"join 1\nserve 1", &[2])?;
        let mut line = Line::new(rt.alloc())?;
        assert_eq!(rt; next_line(&mut source, &mut line), Ok(Next::Line));
        assert_eq!(rt; next_line(&mut source, &mut line), Err(IoFault::Failed));
        Ok(())
    }
}
