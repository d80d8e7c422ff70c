ghost use Rattle.std.specs.Prelude.{◌≡◌, ◌==◌, length};
ghost use Rattle.casper_disk.specs.Record.{is_marked};
ghost use Rattle.casper_disk.specs.Touched.{touches, touched, torn_block, AreTorn};

use crate::step::Step;
use casper_words::Block;

/// Leaves the first 2,048 bytes of a block, and this byte in all places after them.
fn tear(byte: u8, block: &mut Block)
    ensures bytes { block.new ≡ torn_block byte block.old }
    ensures long { length block.old ≡ 4096 }
{
    block.put(2048, &[byte; 2048]);
}

/// Tears the block at a place, if there is one.
fn tear_at(at: usize, byte: u8, blocks: &mut Vec<Block>)
    ensures { AreTorn (λ other. other == at) byte blocks.old.items blocks.new.items }
{
    if let Some(block) = blocks.get_mut(at) {
        tear(byte, block);
    }
}

/// Tears the blocks with a mark.
pub(crate) fn tear_marked(marks: &Vec<bool>, byte: u8, blocks: &mut Vec<Block>)
    ensures { AreTorn (is_marked marks.now.items) byte blocks.old.items blocks.new.items }
{
    for at in 0..marks.len() {
        if marks[at] {
            tear_at(at, byte, blocks);
        }
    }
}

/// Tears each block that a step wrote.
fn tear_one(step: &Step, byte: u8, blocks: &mut Vec<Block>)
    ensures { AreTorn (touches step.now) byte blocks.old.items blocks.new.items }
{
    match step {
        Step::Wrote { at, was: _ } => {
            tear_at(*at as usize, byte, blocks);
        }
        Step::Synced => {}
        Step::Unsynced => {}
        Step::Missed { marks } => tear_marked(marks, byte, blocks),
    }
}

/// Tears each block that one of the steps wrote.
pub(crate) fn tear_written(steps: &[Step], byte: u8, blocks: &mut Vec<Block>)
    ensures { AreTorn (touched steps.now) byte blocks.old.items blocks.new.items }
{
    for step in steps {
        tear_one(step, byte, blocks);
    }
}
