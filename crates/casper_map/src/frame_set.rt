ghost use Rattle.std.specs.Prelude.{◌≡◌, ℕ, ◌<◌, ◌≤◌, ◌^◌, false, true, length, replicate, slice_index_or, slice_set, IfOk, MatchOption};
ghost use Rattle.std.specs.Int.{bit_at};
ghost use Rattle.casper_map.specs.Bits.{is_member, IsNextFree, IsLowestClear};

use casper_words::Memory;
use std::alloc::Global;
use std::marker::Model;

/// A set of frames, a bit for each. Contracts see, for each frame in order, whether the set has it.
#[derive(Drop)]
pub(crate) struct FrameSet {
    words: Vec<u64>,
    size: u32,
}

impl Model for FrameSet {
    ghost use Rattle.std.specs.Prelude.{◌≤◌, ◌*◌, Bool, List, length};
    ghost use Rattle.casper_map.specs.Bits.{flags_of_bits};

    ghost Value = { List Bool };

    ghost view = { λ set. flags_of_bits set.words.items set.size };

    ghost invariant = { λ set. (set.size ≤ 64 * length set.words.items) × (set.size ≤ 65536) };
}

impl FrameSet {
    /// The empty set, with room for the frames below `size`.
    pub(crate) fn new(alloc: Global, size: u32) -> Result<FrameSet, Memory>
        requires { size ≤ 65536 }
        ensures empty { IfOk result (λ set. set ≡ replicate size false) }
    {
        let words = vec![in alloc; 0; size.div_ceil(64) as usize]?;
        Ok(FrameSet { words, size })
    }

    /// The number of the first frame that is out of range.
    pub(crate) fn size(&self) -> u32
        ensures { result ≡ length self.now }
    {
        self.size
    }

    /// Whether the set has a frame.
    pub(crate) fn has(&self, frame: u32) -> bool
        requires { frame < length self.now }
        ensures { result ≡ is_member self.now frame }
    {
        (self.words[frame as usize / 64] >> (frame % 64)) & 1 == 1
    }

    /// Takes a frame into the set.
    pub(crate) fn insert(&mut self, frame: u32)
        requires { frame < length self.old }
        ensures { self.new ≡ slice_set self.old frame true }
    {
        let at = frame as usize / 64;
        self.words[at] = self.words[at] | (1 << (frame % 64));
    }

    /// Takes a frame out of the set.
    pub(crate) fn remove(&mut self, frame: u32)
        requires { frame < length self.old }
        ensures { self.new ≡ slice_set self.old frame false }
    {
        let at = frame as usize / 64;
        self.words[at] = self.words[at] & !(1 << (frame % 64));
    }

    /// The lowest frame from this one on that the set does not have.
    pub(crate) fn next_free(&self, from: u32) -> Option<u32>
        requires { from ≤ length self.now }
        ensures { MatchOption result
            ((other : ℕ) → from ≤ other → other < length self.now → is_member self.now other ≡ true)
            (IsNextFree self.now from) }
    {
        let mut at = from;
        while at < self.size {
            let word = self.words[at as usize / 64];
            if let Some(place) = lowest_clear(word, at % 64) {
                let frame = at - at % 64 + place;
                return if frame < self.size { Some(frame) } else { None };
            }
            // The next word begins here, or nothing is left.
            let left = 64 - at % 64;
            at = if self.size - at <= left {
                self.size
            } else {
                at + left
            };
        }
        None
    }
}

/// The lowest bit from this one on that is not set.
fn lowest_clear(word: u64, from: u32) -> Option<u32>
    requires { from < 64 }
    ensures { MatchOption result
        ((place : ℕ) → from ≤ place → place < 64 → bit_at word place ≡ 1)
        (IsLowestClear word from) }
{
    let filled = word | ((1 << from) - 1);
    if filled == u64::MAX {
        return None;
    }
    Some(filled.trailing_ones())
}
