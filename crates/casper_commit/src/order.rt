ghost use Rattle.std.specs.Prelude.{◌≡◌, ◌<◌, ◌≤◌, ℕ, Bool, true, false, List, IsTrue, OnOk, OnErr};
ghost use Rattle.casper_words.specs.Count.{FaultCountRose};
ghost use Rattle.casper_disk.specs.Disk.{AgreesBut, none_loose};
ghost use Rattle.casper_root.specs.Slots.{other_slot};
ghost use Rattle.casper_commit.specs.States.{besides, none_free};
ghost use Rattle.casper_commit.specs.StandingCalls.{alone_at, StandsStill, OpensMeanwhile, ClosesAfterOk, ReadyDecidesAfterOk};

use crate::Standing;
use casper_disk::{Disk, DiskFault};
use casper_root::{Slot, close_spare, write_and_sync};
use casper_words::Block;

/// Writes the spare gate as closed, unless it is known to be.
fn close_unless_known<D: Disk>(
    disk: &mut D,
    block: &mut Block,
    standing: Standing,
) -> Result<(), DiskFault>
    requires { 5 ≤ D.size disk.old }
    ensures closed { IsTrue D.tells →
        ClosesAfterOk result D.content D.loose standing disk.old disk.new }
    ensures stands { IsTrue D.tells →
        StandsStill D.content D.loose standing standing disk.old disk.new }
    ensures frames { IsTrue D.tells →
        AgreesBut (besides none_free) (D.content disk.old) (D.content disk.new) }
    ensures images { IsTrue D.tells →
        OpensMeanwhile D.content D.loose D.moment D.images_since standing disk.old disk.new }
    ensures size { D.size disk.new ≡ D.size disk.old }
    ensures leads { D.leads_to disk.old disk.new }
    ensures counted { OnErr result (FaultCountRose (D.faults disk.old) (D.faults disk.new)) }
    ensures never_falls { D.faults disk.old ≤ D.faults disk.new }
{
    if standing.spare_closed {
        return Ok(());
    }
    close_spare(disk, block, standing.slot.other_slot())
}

/// Closes the spare gate, unless it is known to be closed, and syncs: after Ok all frames are settled, and the root stands alone.
pub fn make_ready<D: Disk>(
    disk: &mut D,
    block: &mut Block,
    standing: &mut Standing,
) -> Result<(), DiskFault>
    requires { 5 ≤ D.size disk.old }
    ensures known { OnOk result (standing.new ≡ record standing.old { spare_closed = true }) }
    ensures unknown { OnErr result (standing.new ≡ standing.old) }
    ensures settled { IsTrue D.tells → OnOk result (D.loose disk.new ≡ none_loose) }
    ensures stands { IsTrue D.tells →
        StandsStill D.content D.loose standing.old standing.new disk.old disk.new }
    ensures frames { IsTrue D.tells →
        AgreesBut (besides none_free) (D.content disk.old) (D.content disk.new) }
    ensures images { IsTrue D.tells → OpensMeanwhile D.content D.loose D.moment D.images_since
        standing.old disk.old disk.new }
    ensures size { D.size disk.new ≡ D.size disk.old }
    ensures leads { D.leads_to disk.old disk.new }
    ensures counted { OnErr result (FaultCountRose (D.faults disk.old) (D.faults disk.new)) }
    ensures never_falls { D.faults disk.old ≤ D.faults disk.new }
{
    close_unless_known(disk, block, *standing)?;
    disk.sync()?;
    standing.spare_closed = true;
    Ok(())
}

/// Writes the body of the next root into the spare slot beside the current one, and syncs: after Ok its gate decides.
pub fn put_body<D: Disk>(disk: &mut D, current: Slot, body: &Block) -> Result<(), DiskFault>
    requires { 5 ≤ D.size disk.old }
    ensures settled { IsTrue D.tells → OnOk result (D.loose disk.new ≡ none_loose) }
    ensures at_gate { IsTrue D.tells →
        ReadyDecidesAfterOk result D.content D.loose current body.now disk.old disk.new }
    ensures stands { IsTrue D.tells → StandsStill D.content D.loose
        (alone_at current) (alone_at current) disk.old disk.new }
    ensures images { IsTrue D.tells → OpensMeanwhile D.content D.loose D.moment D.images_since
        (alone_at current) disk.old disk.new }
    ensures size { D.size disk.new ≡ D.size disk.old }
    ensures leads { D.leads_to disk.old disk.new }
    ensures counted { OnErr result (FaultCountRose (D.faults disk.old) (D.faults disk.new)) }
    ensures never_falls { D.faults disk.old ≤ D.faults disk.new }
{
    write_and_sync(disk, current.other_slot().body_place(), body)
}
