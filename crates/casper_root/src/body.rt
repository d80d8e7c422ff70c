ghost use Rattle.std.specs.Prelude.{◌≡◌};
ghost use Rattle.casper_root.specs.Format.{body_block, body_values, body_fields};
ghost use Rattle.casper_rec.specs.Values.{FitFields};

use crate::Maps;
use crate::tables::{body_rec, clear};
use casper_words::Block;

/// What a root says: its sequence number and the frame numbers of its map blocks.
#[derive(Clone, Copy, Debug, PartialEq, Eq)]
pub struct Body {
    /// The sequence number, from 1 to 281,474,976,710,655.
    pub seq: u64,
    /// The frame number of each map block, 0xFFFF_FFFF where it has no frame.
    pub maps: Maps,
}

impl Body {
    /// Fills a block with the body of a root.
    pub fn to_block(&self, into: &mut Block)
        ensures { into.new ≡ body_block self.now }
    {
        clear(into);
        body_rec().write(&self.values(), into);
    }

    fn values(&self) -> [u64; 18]
        ensures values { result ≡ body_values self.now }
        ensures fit { FitFields body_fields result }
    {
        let mut values = [0; 18];
        values[0] = self.seq;
        values[1] = self.maps.as_slice().len() as u64;
        for (place, number) in self.maps.places().iter().enumerate() {
            values[place + 2] = *number as u64;
        }
        values
    }
}
