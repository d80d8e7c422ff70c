ghost use Rattle.std.specs.Prelude.{◌≡◌, ◌∷◌, [], ◌≤◌, length, drop};
ghost use Rattle.casper_disk.specs.Record.{content_before, content_at};
ghost use Rattle.casper_disk.specs.Stopped.{settled_before};

use crate::step::Step;
use casper_words::Block;

/// Takes one step back.
fn undo_one(step: &Step, blocks: &mut Vec<Block>)
    ensures before { blocks.new.items ≡ content_before (step.now ∷ []) blocks.old.items }
    ensures count { length blocks.new.items ≡ length blocks.old.items }
{
    match step {
        Step::Wrote { at, was } => {
            if let Some(block) = blocks.get_mut(*at as usize) {
                block.copy_from(was);
            }
        }
        Step::Synced => {}
        Step::Unsynced => {}
        Step::Missed { marks: _ } => {}
    }
}

/// Takes the steps after the first ones back.
pub(crate) fn undo(steps: &Vec<Step>, moment: usize, blocks: &mut Vec<Block>)
    requires { moment ≤ length steps.now.items }
    ensures before { blocks.new.items ≡ content_at steps.now.items blocks.old.items moment }
    ensures count { length blocks.new.items ≡ length blocks.old.items }
{
    for done in 0..steps.len() - moment {
        let step = &steps[steps.len() - 1 - done];
        undo_one(step, blocks);
    }
}

/// Of the first steps, how many there are up to the last sync that settled.
pub(crate) fn settled_before(steps: &Vec<Step>, moment: usize) -> usize
    requires { moment ≤ length steps.now.items }
    ensures settled { result ≡ settled_before steps.now.items moment }
    ensures early { result ≤ moment }
{
    let mut settled = 0;
    for at in 0..moment {
        let step = &steps[at];
        if step.is_synced() {
            settled = at + 1;
        }
    }
    settled
}
