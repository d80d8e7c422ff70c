ghost use Rattle.std.specs.Prelude.{◌≡◌, ◌≤◌, ℕ, List, Option, None, Bool, nat_lt, length, IfOk};

use crate::again::{flush_again, write_again};
use crate::{IoFault, Sink};
use std::io::Write;
use std::marker::Model;

/// A sink over a writer of the system, with no buffer of its own: each write is handed on and flushed, so a byte that was
/// taken has left the program. It tells nothing of its bytes. Contracts see the count of the writes that failed. A write or a
/// flush that a signal interrupted is tried again, and is no fault.
#[derive(Drop)]
pub struct StdSink<W> {
    writer: W,
    faults: u64,
}

impl<W> Model for StdSink<W> {
    ghost use Rattle.std.specs.Prelude.{ℕ};

    ghost Value = { ℕ };

    ghost view = { λ own. own.faults };
}

impl<W: Write> StdSink<W> {
    /// A sink over the writer, none of whose writes has failed.
    pub fn new(inner: W) -> StdSink<W>
        ensures { result ≡ 0 }
    {
        StdSink {
            writer: inner,
            faults: 0,
        }
    }

    /// Hands the bytes on, and flushes the writer.
    fn hand_on(&mut self, from: &[u8]) -> std::io::Result<usize>
        ensures count { IfOk result (λ count. count ≤ length from.now) }
        ensures faults { self.new ≡ self.old }
    {
        let count = write_again(&mut self.writer, from)?;
        flush_again(&mut self.writer)?;
        Ok(count)
    }
}

impl<W: Write> Sink for StdSink<W> {
    ghost taken = { λ _. None };

    ghost faults = { λ faults. faults };

    ghost is_broken = { λ faults. nat_lt 0 faults };

    fn write(&mut self, from: &[u8]) -> Result<usize, IoFault> {
        match self.hand_on(from) {
            Ok(count) if count > 0 || from.is_empty() => Ok(count),
            _ => {
                self.faults = self.faults.saturating_add(1);
                Err(IoFault::Failed)
            }
        }
    }
}

#[cfg(test)]
mod tests {
    use super::*;
    use crate::put_all;
    use std::io::{Error, ErrorKind};
    use std::test::Fail;

    #[test]
    fn writes_in_order(rt: HostRuntime) -> Result<(), Fail> {
        let mut bytes = Vec::new(rt.alloc());
        {
            let mut sink = StdSink::new(&mut bytes);
            assert_eq!(rt; put_all(&mut sink, b"ab"), Ok(()));
            assert_eq!(rt; put_all(&mut sink, b"c"), Ok(()));
        }
        assert_eq!(rt; bytes.as_slice(), b"abc".as_slice());
        Ok(())
    }

    /// A writer that keeps bytes back until it is flushed, and is interrupted at every other call.
    #[derive(Drop)]
    struct Buffering<'a> {
        kept: [u8; 4],
        count: usize,
        out: &'a mut Vec<u8>,
        is_interrupted: bool,
    }

    impl Buffering<'_> {
        fn interrupt(&mut self) -> std::io::Result<()> {
            self.is_interrupted = !self.is_interrupted;
            if self.is_interrupted {
                return Err(Error::from(ErrorKind::Interrupted));
            }
            Ok(())
        }
    }

    impl Write for Buffering<'_> {
        fn write(&mut self, buf: &[u8]) -> std::io::Result<usize> {
            self.interrupt()?;
            if self.count >= 4 || buf.is_empty() {
                return Ok(0);
            }
            self.kept[self.count] = buf[0];
            self.count += 1;
            Ok(1)
        }

        fn flush(&mut self) -> std::io::Result<()> {
            self.interrupt()?;
            for byte in self.kept.iter().take(self.count) {
                self.out.push(*byte)?;
            }
            self.count = 0;
            Ok(())
        }
    }

    #[test]
    fn each_byte_is_flushed_and_interruptions_are_no_faults(rt: HostRuntime) -> Result<(), Fail> {
        let mut out = Vec::new(rt.alloc());
        {
            let writer = Buffering {
                kept: [0; 4],
                count: 0,
                out: &mut out,
                is_interrupted: false,
            };
            let mut sink = StdSink::new(writer);
            assert_eq!(rt; put_all(&mut sink, b"abcdef"), Ok(()));
        }
        assert_eq!(rt; out.as_slice(), b"abcdef".as_slice());
        Ok(())
    }

    #[test]
    fn a_full_writer_fails(rt: HostRuntime) {
        let mut room = [0u8; 2];
        {
            let mut sink = StdSink::new(room.as_mut_slice());
            assert_eq!(rt; put_all(&mut sink, b"abc"), Err(IoFault::Failed));
        }
        assert_eq!(rt; room, *b"ab");
    }
}
