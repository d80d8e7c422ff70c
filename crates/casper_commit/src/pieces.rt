ghost use Rattle.std.specs.Prelude.{◌≡◌, ◌<◌, ◌≤◌, ℕ, Bool, List, IsTrue, OnOk, OnErr};
ghost use Rattle.casper_words.specs.Count.{FaultCountRose};
ghost use Rattle.casper_disk.specs.Disk.{AgreesBut};
ghost use Rattle.casper_commit.specs.Pieces.{GoInto, AreApart, HoldPieces};
ghost use Rattle.casper_commit.specs.StandingCalls.{RootsStandWhere, ImagesOpenWhere};

use crate::put_frame;
use casper_disk::{Disk, DiskFault};
use casper_words::Block;

/// What a commit writes into frames: a number of blocks, each with its place on the disk.
pub trait Pieces {
    // How many there are.
    ghost count: { Self → ℕ };

    // The block of the disk into which a piece goes.
    ghost place: { Self → ℕ → ℕ };

    // That a piece has these bytes.
    ghost is_piece: { Self → ℕ → List ℕ → Type 0 };

    /// How many there are.
    fn count(&self) -> u32
        ensures { result ≡ count self.now };

    /// The block of the disk into which a piece goes.
    fn place(&self, piece: u32) -> u32
        requires { piece < count self.now }
        ensures { result ≡ place self.now piece };

    /// Fills a block with a piece.
    fn fill(&self, piece: u32, into: &mut Block)
        requires { piece < count self.now }
        ensures { is_piece self.now piece into.new };
}

/// Writes pieces into frames that the current root does not name, in their order, up to the first fault. They stay loose until a
/// sync. The block is used to write.
pub fn put_frames<D: Disk, P: Pieces>(
    disk: &mut D,
    block: &mut Block,
    pieces: &P,
) -> Result<(), DiskFault>
    requires { (piece : ℕ) → piece < P.count pieces.now
        → P.place pieces.now piece < D.size disk.old }
    ensures written { IsTrue D.tells → AreApart P.count P.place pieces.now
        → OnOk result (HoldPieces P.place P.is_piece pieces.now
        (P.count pieces.now) (D.content disk.new)) }
    ensures others { IsTrue D.tells → (some : ℕ → Bool) → GoInto P.count P.place some pieces.now
        → AgreesBut some (D.content disk.old) (D.content disk.new) }
    ensures stands { IsTrue D.tells
        → RootsStandWhere (λ free. GoInto P.count P.place free pieces.now)
        D.content D.loose disk.old disk.new }
    ensures images { IsTrue D.tells
        → ImagesOpenWhere (λ free. GoInto P.count P.place free pieces.now)
        D.content D.loose D.moment D.images_since disk.old disk.new }
    ensures size { D.size disk.new ≡ D.size disk.old }
    ensures leads { D.leads_to disk.old disk.new }
    ensures counted { OnErr result (FaultCountRose (D.faults disk.old) (D.faults disk.new)) }
    ensures never_falls { D.faults disk.old ≤ D.faults disk.new }
{
    for piece in 0..pieces.count() {
        pieces.fill(piece, block);
        put_frame(disk, pieces.place(piece), block)?;
    }
    Ok(())
}
