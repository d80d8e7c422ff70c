ghost use Rattle.std.specs.Prelude.{◌≡◌, ◌<◌, length, slice_index, slice_set, replicate, IfOk};
ghost use Rattle.casper_words.specs.BlockWords.{block_of_words, words_of_block};

use crate::{Block, Memory};
use std::alloc::Global;
use std::marker::Model;

/// The 512 words of a page. Contracts see the list of the words.
#[derive(Drop)]
pub struct Frame {
    words: Box<[u64; 512]>,
}

impl Model for Frame {
    ghost use Rattle.std.specs.Prelude.{◌≡◌, List, ℕ, length};

    ghost Value = { List ℕ };

    ghost view = { λ frame. frame.words.value };

    ghost invariant = { λ frame. length frame.words.value ≡ 512 };
}

impl Frame {
    /// How many words a page has.
    pub const WORDS: u32 = 512;

    /// The frame of a page that was never written.
    pub fn zero(alloc: Global) -> Result<Frame, Memory>
        ensures zero { IfOk result (λ frame. frame ≡ replicate 512 0) }
        ensures long { IfOk result (λ frame. length frame ≡ 512) }
    {
        let words = Box::new(alloc, [0; 512])?;
        Ok(Frame { words })
    }

    /// Another frame with the same words.
    pub fn copy(&self, alloc: Global) -> Result<Frame, Memory>
        ensures same { IfOk result (λ frame. frame ≡ self.now) }
        ensures long { length self.now ≡ 512 }
    {
        let words = Box::new(alloc, *self.words)?;
        Ok(Frame { words })
    }

    /// Gives this frame the words of another.
    pub fn copy_from(&mut self, from: &Frame)
        ensures same { self.new ≡ from.now }
        ensures long { length self.old ≡ 512 }
        ensures source { length from.now ≡ 512 }
    {
        *self.words = *from.words;
    }

    /// Writes the words over a block: word w stands little-endian at byte 8w.
    pub fn to_block(&self, into: &mut Block)
        ensures bytes { into.new ≡ block_of_words self.now }
        ensures back { words_of_block into.new ≡ self.now }
        ensures long { length self.now ≡ 512 }
        ensures block_long { length into.new ≡ 4096 }
    {
        for word in 0..Frame::WORDS {
            let value = self.get(word);
            into.put(8 * word, &value.to_le_bytes());
        }
    }

    /// Gives this frame the words of a block: word w is read little-endian from byte 8w.
    pub fn from_block(&mut self, from: &Block)
        ensures words { self.new ≡ words_of_block from.now }
        ensures long { length self.new ≡ 512 }
        ensures block_long { length from.now ≡ 4096 }
    {
        let bytes = from.bytes();
        for word in 0..Frame::WORDS as usize {
            let mut piece = [0; 8];
            piece.copy_from_slice(&bytes[8 * word..8 * word + 8]);
            self.words[word] = u64::from_le_bytes(piece);
        }
    }

    /// The word at a place.
    pub fn get(&self, word: u32) -> u64
        requires { word < 512 }
        ensures word { result ≡ slice_index self.now word }
        ensures long { length self.now ≡ 512 }
    {
        self.words[word as usize]
    }

    /// Sets the word at a place. Every other word stays.
    pub fn set(&mut self, word: u32, value: u64)
        requires { word < 512 }
        ensures word { self.new ≡ slice_set self.old word value }
        ensures long { length self.old ≡ 512 }
    {
        self.words[word as usize] = value;
    }
}

#[cfg(test)]
mod tests {
    use super::*;
    use std::test::Fail;

    #[test]
    fn copies(rt: HostRuntime) -> Result<(), Fail> {
        let mut frame = Frame::zero(rt.alloc())?;
        assert_eq!(rt; frame.get(511), 0);
        frame.set(3, 7);
        let copy = frame.copy(rt.alloc())?;
        assert_eq!(rt; copy.get(3), 7);
        assert_eq!(rt; copy.get(4), 0);
        Ok(())
    }

    #[test]
    fn words_stand_low_byte_first(rt: HostRuntime) -> Result<(), Fail> {
        let mut frame = Frame::zero(rt.alloc())?;
        frame.set(1, 0x0102);
        let mut block = Block::zero(rt.alloc())?;
        frame.to_block(&mut block);
        assert_eq!(rt; &block.bytes()[7..11], [0, 2, 1, 0].as_slice());
        let mut back = Frame::zero(rt.alloc())?;
        back.from_block(&block);
        assert_eq!(rt; back.get(1), 0x0102);
        Ok(())
    }
}
