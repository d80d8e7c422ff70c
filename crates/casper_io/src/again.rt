ghost use Rattle.std.specs.Prelude.{◌≤◌, length, IfOk};

use std::io::{BufRead, Error, ErrorKind, Write};

/// How often a call that a signal interrupts is made.
const MOST_TRIES: u32 = 1_000_000;

/// Fills the reader's buffer where it is empty, again where a signal interrupted the read. Where it is empty after it, no byte
/// is left.
pub(crate) fn fill_again<R: BufRead>(reader: &mut R) -> std::io::Result<()> {
    for _try in 0..MOST_TRIES {
        match reader.fill_buf() {
            Err(error) if error.kind() == ErrorKind::Interrupted => {}
            Err(error) => return Err(error),
            Ok(_filled) => return Ok(()),
        }
    }
    Err(Error::from(ErrorKind::Interrupted))
}

/// Writes from the front of the piece, again where a signal interrupted the write.
pub(crate) fn write_again<W: Write>(writer: &mut W, from: &[u8]) -> std::io::Result<usize>
    ensures { IfOk result (λ count. count ≤ length from.now) }
{
    for _try in 0..MOST_TRIES {
        match writer.write(from) {
            Err(error) if error.kind() == ErrorKind::Interrupted => {}
            answered => return answered,
        }
    }
    Err(Error::from(ErrorKind::Interrupted))
}

/// Flushes the writer, again where a signal interrupted that.
pub(crate) fn flush_again<W: Write>(writer: &mut W) -> std::io::Result<()> {
    for _try in 0..MOST_TRIES {
        match writer.flush() {
            Err(error) if error.kind() == ErrorKind::Interrupted => {}
            answered => return answered,
        }
    }
    Err(Error::from(ErrorKind::Interrupted))
}
