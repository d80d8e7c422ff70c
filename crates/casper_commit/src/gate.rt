ghost use Rattle.std.specs.Prelude.{◌≡◌, ◌==◌, ◌≤◌, ℕ, Bool, List, IsTrue, OnOk, OnErr};
ghost use Rattle.casper_words.specs.Count.{FaultCountRose};
ghost use Rattle.casper_disk.specs.Disk.{AgreesBut, none_loose};
ghost use Rattle.casper_root.specs.Slots.{gate_place, other_slot};
ghost use Rattle.casper_commit.specs.GateCalls.{NextIsAheadAfterOk, DecidesStill, OpensToOneOfTwo};

use casper_disk::{Disk, DiskFault};
use casper_root::{Slot, open_gate};
use casper_words::Block;

/// Writes the gate of the next root, beside the current one, as open, and syncs: after Ok that root is the current one, and after
/// a fault the gate decides still.
pub fn put_gate<D: Disk>(disk: &mut D, block: &mut Block, current: Slot) -> Result<(), DiskFault>
    requires { 5 ≤ D.size disk.old }
    ensures settled { IsTrue D.tells → OnOk result (D.loose disk.new ≡ none_loose) }
    ensures new { IsTrue D.tells →
        NextIsAheadAfterOk result D.content D.loose current disk.old disk.new }
    ensures at_gate { IsTrue D.tells → DecidesStill D.content D.loose current disk.old disk.new }
    ensures images { IsTrue D.tells →
        OpensToOneOfTwo D.content D.loose D.moment D.images_since current disk.old disk.new }
    ensures gate_alone { IsTrue D.tells → AgreesBut (λ at. at == gate_place (other_slot current))
        (D.content disk.old) (D.content disk.new) }
    ensures size { D.size disk.new ≡ D.size disk.old }
    ensures leads { D.leads_to disk.old disk.new }
    ensures counted { OnErr result (FaultCountRose (D.faults disk.old) (D.faults disk.new)) }
    ensures never_falls { D.faults disk.old ≤ D.faults disk.new }
{
    open_gate(disk, block, current.other_slot())
}
