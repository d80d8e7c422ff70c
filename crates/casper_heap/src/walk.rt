ghost use Rattle.std.specs.Prelude.{◌≡◌, ◌+◌, ◌<◌, ◌≤◌, IsSome, nat_lt, cond, [], ◌∷◌, Some, None};
ghost use Rattle.casper_space.specs.WordCalls.{HasMade};
ghost use Rattle.casper_heap.specs.Walk.{has_block, block_at, blocks_of, fields_in, first_free, walk_end, read_at, walk_calls};

use crate::block::HeapBlock;
use arrayvec::ArrayVec;
use casper_space::Words;
use casper_words::{Frame, Page};

/// The blocks of a page, in order. As a block has three words at least, there are at most 170.
pub(crate) type Blocks = ArrayVec<HeapBlock, 170>;

/// What a walk of a page has met, and the place where it stopped.
#[derive(Drop)]
pub(crate) struct Walk {
    pub blocks: Blocks,
    pub end: u32,
}

/// Reads the header at a place, if that is below the end, and answers the block that stands there.
fn next_block<W: Words>(words: &mut W, page: Page, place: u32, end: u32) -> Option<HeapBlock>
    requires held { IsSome ((W.seen words.old).right page) }
    requires most { end ≤ 512 }
    requires room { place < end → 0 < (W.seen words.old).room }
    ensures block { let page_words = (W.seen words.old).words page in
        result ≡ cond (has_block page_words end place) (Some (block_at page_words place)) None }
    ensures made { HasMade W.seen W.step words.old
        (cond (nat_lt place end)
        (read_at page ((W.seen words.old).words page) place ∷ []) []) words.new }
{
    if place >= end {
        return None;
    }
    let header = words.get(page, place);
    HeapBlock::new(header, place, end)
}

/// Walks a page. Each header is read once.
pub(crate) fn walk_page<W: Words>(words: &mut W, page: Page) -> Walk
    requires held { IsSome ((W.seen words.old).right page) }
    requires room { 172 ≤ (W.seen words.old).room }
    ensures blocks { result.blocks.items ≡ blocks_of ((W.seen words.old).words page) }
    ensures end { result.end ≡ walk_end ((W.seen words.old).words page) }
    ensures within { result.end ≤ 512 }
    ensures made { HasMade W.seen W.step words.old
        (walk_calls (W.seen words.old).words page) words.new }
    ensures words { (W.seen words.new).words ≡ (W.seen words.old).words }
    ensures few { (W.seen words.old).room ≤ (W.seen words.new).room + 172 }
{
    let first = words.get(page, 0);
    let end = first.max(1).min(Frame::WORDS as u64) as u32;
    let mut blocks = Blocks::new();
    let mut place = 1;
    while let Some(block) = next_block(words, page, place, end) {
        blocks.push(block);
        place = block.end();
    }
    Walk { blocks, end: place }
}

/// The number of fields of the live block at a place.
pub(crate) fn fields_at(blocks: &[HeapBlock], place: u32) -> Option<u32>
    ensures { result ≡ fields_in blocks.now place }
{
    blocks
        .iter()
        .find(|block| block.live && block.place == place)
        .map(|block| block.fields)
}

/// The place of the first free block with so many fields.
pub(crate) fn free_place(blocks: &[HeapBlock], count: u32) -> Option<u32>
    ensures { result ≡ first_free blocks.now count }
{
    blocks
        .iter()
        .find(|block| !block.live && block.fields == count)
        .map(|block| block.place)
}
