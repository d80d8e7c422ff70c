ghost use Rattle.std.specs.Prelude.{◌≡◌};
ghost use Rattle.casper_root.specs.Format.{header_block};

use crate::tables::{clear, header_rec};
use casper_words::Block;

/// The sizes of a store.
#[derive(Clone, Copy, Debug, PartialEq, Eq)]
pub struct Header {
    /// How many pages, from 1 to 16,384.
    pub pages: u32,
    /// How many frames, from 2 to 65,536.
    pub frames: u32,
}

impl Header {
    /// The greatest number of pages.
    pub const MOST_PAGES: u32 = 16_384;

    /// The least number of frames.
    pub const LEAST_FRAMES: u32 = 2;

    /// The greatest number of frames.
    pub const MOST_FRAMES: u32 = 65_536;

    /// Fills a block with the header of a store.
    pub fn to_block(&self, into: &mut Block)
        ensures { into.new ≡ header_block self.now }
    {
        clear(into);
        let name = u64::from_le_bytes(*b"CASPER01");
        let values = [name, self.pages as u64, self.frames as u64];
        header_rec().write(&values, into);
    }
}
