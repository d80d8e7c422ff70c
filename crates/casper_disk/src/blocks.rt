ghost use Rattle.std.specs.Prelude.{◌≡◌, replicate, IfOk};

use casper_words::{Block, Memory};
use std::alloc::Global;

/// As many zero blocks.
pub(crate) fn zero_blocks(alloc: Global, count: usize) -> Result<Vec<Block>, Memory>
    ensures { IfOk result (λ blocks. blocks.items ≡ replicate count (replicate 4096 0)) }
{
    let mut blocks = Vec::with_capacity(alloc, count)?;
    for _ in 0..count {
        blocks.push(Block::zero(alloc)?)?;
    }
    Ok(blocks)
}

/// The same blocks again.
pub(crate) fn copies(alloc: Global, blocks: &[Block]) -> Result<Vec<Block>, Memory>
    ensures { IfOk result (λ again. again.items ≡ blocks.now) }
{
    let mut again = Vec::with_capacity(alloc, blocks.len())?;
    for block in blocks {
        let mut copy = Block::zero(alloc)?;
        copy.copy_from(block);
        again.push(copy)?;
    }
    Ok(again)
}
