ghost use Rattle.std.specs.Prelude.{◌≡◌, ◌↔◌, ◌≤◌, [], length, map, All, IfOk, IsTrue};
ghost use Rattle.casper_text.specs.Line.{IsPrintable, all_printable, words};
ghost use Rattle.casper_text.specs.Span.{IsWithin, word_at};

use crate::Span;
use crate::lines::words_into;
use casper_words::Memory;
use std::alloc::Global;
use std::marker::Model;

/// The places of the words of one line, with room for all of a line of at most 1,024 bytes. Contracts see the list of the places.
#[derive(Drop)]
pub struct Places {
    spans: Vec<Span>,
}

impl Model for Places {
    ghost use Rattle.std.specs.Prelude.{List, vec_capacity, ◌≤◌};
    ghost use Rattle.casper_text.specs.declared.span.Span.{Span};

    ghost Value = { List Span };

    ghost view = { λ places. places.spans.items };

    ghost invariant = { λ places. 513 ≤ vec_capacity places.spans };
}

impl Places {
    /// The greatest number of bytes of a line.
    pub const MOST: usize = 1024;

    /// No places.
    pub fn new(alloc: Global) -> Result<Places, Memory>
        ensures { IfOk result (λ places. places ≡ []) }
    {
        let spans = Vec::with_capacity(alloc, Places::MOST / 2 + 1)?;
        Ok(Places { spans })
    }

    /// The places.
    pub fn as_slice(&self) -> &[Span]
        ensures { result.now ≡ self.now }
    {
        self.spans.as_slice()
    }

    /// Makes these the places of the words of a line, in order, and tells whether each byte of the line is from 0x20 to 0x7E.
    /// Words are parted by one or more spaces, and spaces at either end are allowed. Where a byte is outside that range the
    /// places are of no use. It takes no memory.
    pub fn split(&mut self, line: &[u8]) -> bool
        requires { length line.now ≤ 1024 }
        ensures exactly { IsTrue result ↔ All IsPrintable line.now }
        ensures printable { result ≡ all_printable line.now }
        ensures words { IsTrue result → map (word_at line.now) self.new ≡ words line.now }
        ensures within { IsTrue result → All (IsWithin line.now) self.new }
    {
        words_into(line, &mut self.spans)
    }
}

#[cfg(test)]
mod tests {
    use super::*;
    use std::test::Fail;

    #[test]
    fn as_many_words_as_a_line_has(rt: HostRuntime) -> Result<(), Fail> {
        let mut places = Places::new(rt.alloc())?;
        let mut line = [b' '; 1023];
        for at in 0..512 {
            line[2 * at] = b'x';
        }
        assert_eq!(rt; places.split(&line), true);
        assert_eq!(rt; places.as_slice().len(), 512);
        assert_eq!(rt; places.split(b"join\t1"), false);
        Ok(())
    }
}
