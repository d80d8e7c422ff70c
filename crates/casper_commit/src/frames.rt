ghost use Rattle.std.specs.Prelude.{◌≡◌, ◌==◌, ◌<◌, ◌≤◌, ℕ, Bool, true, List, slice_set, IsTrue, OnOk, OnErr};
ghost use Rattle.casper_words.specs.Count.{FaultCountRose};
ghost use Rattle.casper_disk.specs.Disk.{AgreesBut};
ghost use Rattle.casper_commit.specs.StandingCalls.{RootsStandWhere, ImagesOpenWhere};

use casper_disk::{Disk, DiskFault};
use casper_words::Block;

/// Writes a frame that the current root does not name. It stays loose until a sync.
pub fn put_frame<D: Disk>(disk: &mut D, at: u32, block: &Block) -> Result<(), DiskFault>
    requires { at < D.size disk.old }
    ensures written { IsTrue D.tells →
        OnOk result (D.content disk.new ≡ slice_set (D.content disk.old) at block.now) }
    ensures others { IsTrue D.tells →
        AgreesBut (λ other. other == at) (D.content disk.old) (D.content disk.new) }
    ensures stands { IsTrue D.tells →
        RootsStandWhere (λ free. free at ≡ true) D.content D.loose disk.old disk.new }
    ensures images { IsTrue D.tells → ImagesOpenWhere (λ free. free at ≡ true)
        D.content D.loose D.moment D.images_since disk.old disk.new }
    ensures size { D.size disk.new ≡ D.size disk.old }
    ensures leads { D.leads_to disk.old disk.new }
    ensures counted { OnErr result (FaultCountRose (D.faults disk.old) (D.faults disk.new)) }
    ensures never_falls { D.faults disk.old ≤ D.faults disk.new }
{
    disk.write(at, block)
}
