ghost use Rattle.std.specs.Prelude.{◌≡◌, ℕ, List, Option, None, Bool, nat_lt, IfOk};

use crate::again::fill_again;
use crate::{IoFault, Line, Piece, Source};
use casper_words::Memory;
use std::alloc::Global;
use std::io::{BufRead, BufReader, Read};
use std::marker::Model;

/// A source over a reader of the system, with a buffer. It tells nothing of its bytes. Contracts see the count of the reads
/// that failed. A read that a signal interrupted is tried again, and is no fault.
#[derive(Drop)]
pub struct StdSource<R> {
    reader: BufReader<R>,
    faults: u64,
}

impl<R> Model for StdSource<R> {
    ghost use Rattle.std.specs.Prelude.{ℕ};

    ghost Value = { ℕ };

    ghost view = { λ own. own.faults };
}

impl<R: Read + Drop> StdSource<R> {
    /// A source over the reader, none of whose reads has failed. The buffer has 8 KB.
    pub fn new(alloc: Global, inner: R) -> Result<StdSource<R>, Memory>
        ensures { IfOk result (λ source. source ≡ 0) }
    {
        match BufReader::new(alloc, inner) {
            Ok(reader) => Ok(StdSource { reader, faults: 0 }),
            Err(_no_memory) => Err(Memory),
        }
    }
}

impl<R: Read> Source for StdSource<R> {
    ghost left = { λ _. None };

    ghost faults = { λ faults. faults };

    ghost is_broken = { λ faults. nat_lt 0 faults };

    fn read_piece(&mut self, line: &mut Line) -> Result<Piece, IoFault> {
        match fill_again(&mut self.reader) {
            Ok(()) => {
                let (piece, count) = line.take_piece(self.reader.buffer());
                self.reader.consume(count);
                Ok(piece)
            }
            Err(_error) => {
                self.faults = self.faults.saturating_add(1);
                Err(IoFault::Failed)
            }
        }
    }
}

#[cfg(test)]
mod tests {
    use super::*;
    use crate::{Line, Next, next_line};
    use std::io::{Error, ErrorKind};
    use std::test::Fail;

    /// A reader whose first read gives a byte, and whose other reads fail.
    #[derive(Drop)]
    struct Breaking {
        is_broken: bool,
    }

    impl Read for Breaking {
        fn read(&mut self, buf: &mut [u8]) -> std::io::Result<usize> {
            if self.is_broken || buf.is_empty() {
                return Err(Error::from(ErrorKind::Other));
            }
            self.is_broken = true;
            buf[0] = b'a';
            Ok(1)
        }
    }

    #[test]
    fn reads_through_the_buffer(rt: HostRuntime) -> Result<(), Fail> {
        let mut source = StdSource::new(rt.alloc(), b"ab\nc".as_slice())?;
        let mut line = Line::new(rt.alloc())?;
        assert_eq!(rt; next_line(&mut source, &mut line), Ok(Next::Line));
        assert_eq!(rt; line.bytes(), b"ab".as_slice());
        assert_eq!(rt; next_line(&mut source, &mut line), Ok(Next::Line));
        assert_eq!(rt; line.bytes(), b"c".as_slice());
        assert_eq!(rt; next_line(&mut source, &mut line), Ok(Next::End));
        Ok(())
    }

    /// A reader that is interrupted before each byte that it gives.
    #[derive(Drop)]
    struct Interrupted {
        is_interrupted: bool,
    }

    impl Read for Interrupted {
        fn read(&mut self, buf: &mut [u8]) -> std::io::Result<usize> {
            self.is_interrupted = !self.is_interrupted;
            if self.is_interrupted || buf.is_empty() {
                return Err(Error::from(ErrorKind::Interrupted));
            }
            buf[0] = b'\n';
            Ok(1)
        }
    }

    #[test]
    fn an_interrupted_read_is_tried_again(rt: HostRuntime) -> Result<(), Fail> {
        let reader = Interrupted {
            is_interrupted: false,
        };
        let mut source = StdSource::new(rt.alloc(), reader)?;
        let mut line = Line::new(rt.alloc())?;
        assert_eq!(rt; next_line(&mut source, &mut line), Ok(Next::Line));
        assert_eq!(rt; next_line(&mut source, &mut line), Ok(Next::Line));
        Ok(())
    }

    #[test]
    fn a_read_fails_in_mid_line(rt: HostRuntime) -> Result<(), Fail> {
        let mut source = StdSource::new(rt.alloc(), Breaking { is_broken: false })?;
        let mut line = Line::new(rt.alloc())?;
        assert_eq!(rt; next_line(&mut source, &mut line), Err(IoFault::Failed));
        assert_eq!(rt; line.bytes(), b"a".as_slice());
        Ok(())
    }
}
