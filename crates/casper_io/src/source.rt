ghost use Rattle.std.specs.Prelude.{◌≡◌, ℕ, Bool, false, List, Option, ◌≤◌, is_err, IfOk, OnOk, OnErr};
ghost use Rattle.casper_words.specs.Count.{FaultCountRose};
ghost use Rattle.casper_io.specs.Piece.{GivesPiece};

use crate::{IoFault, Line, Piece};

/// Where lines come from: a file, a terminal, another program, or memory.
///
/// A source may tell which bytes it has left, or tell nothing; no call changes whether it tells. It counts
/// the reads that failed, up to `u64::MAX`. A source that failed is broken, and nothing more may be asked of it.
pub trait Source {
    // The bytes left, where told.
    ghost left: { Self → Option (List ℕ) };

    // How many reads failed.
    ghost faults: { Self → ℕ };

    // Whether a read failed.
    ghost is_broken: { Self → Bool };

    /// Adds the next bytes to the line, as many as are at hand, up to the next newline, which is taken and not added. No
    /// byte after it is taken, nor more than one that the line has no room for. Where the read fails, the line and the bytes
    /// left stay. The count of failed reads rises then alone. It takes no memory.
    fn read_piece(&mut self, line: &mut Line) -> Result<Piece, IoFault>
        requires whole { is_broken self.old ≡ false }
        ensures broken { is_broken self.new ≡ is_err result }
        ensures gives { IfOk result (λ piece.
            GivesPiece piece line.old line.new (left self.old) (left self.new)) }
        ensures kept { OnErr result (left self.new ≡ left self.old) }
        ensures line_kept { OnErr result (line.new ≡ line.old) }
        ensures counted { OnErr result (FaultCountRose (faults self.old) (faults self.new)) }
        ensures uncounted { OnOk result (faults self.new ≡ faults self.old) }
        ensures never_falls { faults self.old ≤ faults self.new };
}
