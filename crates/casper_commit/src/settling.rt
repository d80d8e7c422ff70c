ghost use Rattle.std.specs.Prelude.{◌≡◌, ◌⊎◌, ◌<◌, ◌≤◌, ℕ, Bool, true, false, List, IsTrue, IsErrOf, OnOk, OnErr};
ghost use Rattle.casper_words.specs.Count.{FaultCountRose};
ghost use Rattle.casper_disk.specs.Disk.{AgreesBut, none_loose};
ghost use Rattle.casper_root.specs.Slots.{other_slot};
ghost use Rattle.casper_commit.specs.StandingCalls.{StandsStill, StandsStillAfter, OpensMeanwhile, OpensMeanwhileAfter, DecidesAfterOk, DecidesAfter, NextStandsAfterOk, OpensToNextAfterOk, OpensToEither};
ghost use Rattle.casper_commit.specs.GateCalls.{SettlesAfterOk, OpensSettledAfterOk, DecidesStillAfterErr, OpensToOneOfTwo};
ghost use Rattle.casper_commit.specs.GateMoment.{CallsGate, FailsAtGate, StandsUntilGate};

use crate::{Standing, make_ready, put_body, put_gate};
use casper_disk::{CommitFault, Disk, DiskFault};
use casper_words::Block;

/// Makes everything ready for the next root's gate: closes the spare gate unless it is known to be closed, syncs, writes the next
/// body, and syncs. The block is used to write.
fn prepare<D: Disk>(
    disk: &mut D,
    block: &mut Block,
    standing: &mut Standing,
    body: &Block,
) -> Result<(), DiskFault>
    requires { 5 ≤ D.size disk.old }
    ensures slot { standing.new.slot ≡ standing.old.slot }
    ensures known { OnOk result (standing.new.spare_closed ≡ true) }
    ensures settled { IsTrue D.tells → OnOk result (D.loose disk.new ≡ none_loose) }
    ensures at_gate { IsTrue D.tells →
        DecidesAfterOk result D.content D.loose standing.old body.now disk.old disk.new }
    ensures stands { IsTrue D.tells →
        StandsStill D.content D.loose standing.old standing.new disk.old disk.new }
    ensures images { IsTrue D.tells → OpensMeanwhile D.content D.loose D.moment D.images_since
        standing.old disk.old disk.new }
    ensures size { D.size disk.new ≡ D.size disk.old }
    ensures leads { D.leads_to disk.old disk.new }
    ensures counted { OnErr result (FaultCountRose (D.faults disk.old) (D.faults disk.new)) }
    ensures never_falls { D.faults disk.old ≤ D.faults disk.new }
{
    make_ready(disk, block, standing)?;
    put_body(disk, standing.slot, body)
}

/// Makes this body that of the current root, once the frames that it speaks of were written. The answer is Ok, or `Disk` after a
/// fault before the gate's call, or `Doubt` after one at it or at the sync after it; then `settle` ends the doubt. The block is
/// used to write.
pub fn put_root<D: Disk>(
    disk: &mut D,
    block: &mut Block,
    standing: &mut Standing,
    body: &Block,
) -> Result<(), CommitFault>
    requires { 5 ≤ D.size disk.old }
    ensures moved { OnOk result
        (standing.new ≡ record { slot = other_slot standing.old.slot; spare_closed = false }) }
    ensures stays { OnErr result (standing.new.slot ≡ standing.old.slot) }
    ensures unknown { IsErrOf result CommitFault.Doubt → standing.new.spare_closed ≡ false }
    ensures causes { OnErr result (IsErrOf result CommitFault.Disk
        ⊎ IsErrOf result CommitFault.Doubt) }
    ensures settled { IsTrue D.tells → OnOk result (D.loose disk.new ≡ none_loose) }
    ensures new { IsTrue D.tells → NextStandsAfterOk result D.content D.loose
        standing.old standing.new body.now disk.old disk.new }
    ensures new_alone { IsTrue D.tells → OpensToNextAfterOk result D.content D.loose D.images_now
        standing.old standing.new body.now disk.old disk.new }
    ensures old { IsTrue D.tells → StandsStillAfter result CommitFault.Disk D.content D.loose
        standing.old standing.new disk.old disk.new }
    ensures doubt { IsTrue D.tells → DecidesAfter result CommitFault.Doubt D.content D.loose
        standing.old body.now disk.old disk.new }
    ensures images { IsTrue D.tells → OpensToEither D.content D.loose D.moment D.images_since
        standing.old body.now disk.old disk.new }
    ensures old_images { IsTrue D.tells → OpensMeanwhileAfter result CommitFault.Disk
        D.content D.loose D.moment D.images_since standing.old disk.old disk.new }
    ensures gate_call { OnOk result (CallsGate D.leads_to D.faults (λ at_gate. IsTrue D.tells
        → StandsUntilGate D.content D.loose D.moment D.images_since
        standing.old disk.old at_gate disk.new) disk.old disk.new) }
    ensures gate_call_in_doubt { IsErrOf result CommitFault.Doubt
        → FailsAtGate D.leads_to D.faults (λ at_gate. IsTrue D.tells
        → StandsUntilGate D.content D.loose D.moment D.images_since
        standing.old disk.old at_gate disk.new) disk.old disk.new }
    ensures size { D.size disk.new ≡ D.size disk.old }
    ensures leads { D.leads_to disk.old disk.new }
    ensures counted { OnErr result (FaultCountRose (D.faults disk.old) (D.faults disk.new)) }
    ensures never_falls { D.faults disk.old ≤ D.faults disk.new }
{
    if prepare(disk, block, standing, body).is_err() {
        return Err(CommitFault::Disk);
    }
    standing.spare_closed = false;
    if put_gate(disk, block, standing.slot).is_err() {
        return Err(CommitFault::Doubt);
    }
    standing.slot = standing.slot.other_slot();
    Ok(())
}

/// Ends a doubt forward: writes the gate of the next root as open again, and syncs. After Ok that root is the current one, and
/// after a fault the doubt is there still. The block is used to write.
pub fn settle<D: Disk>(
    disk: &mut D,
    block: &mut Block,
    standing: &mut Standing,
) -> Result<(), DiskFault>
    requires { 5 ≤ D.size disk.old }
    ensures moved { OnOk result
        (standing.new ≡ record { slot = other_slot standing.old.slot; spare_closed = false }) }
    ensures stays { OnErr result (standing.new ≡ standing.old) }
    ensures settled { IsTrue D.tells → OnOk result (D.loose disk.new ≡ none_loose) }
    ensures new { IsTrue D.tells →
        SettlesAfterOk result D.content D.loose standing.old standing.new disk.old disk.new }
    ensures new_alone { IsTrue D.tells → OpensSettledAfterOk result D.content D.loose D.images_now
        standing.old standing.new disk.old disk.new }
    ensures doubt { IsTrue D.tells →
        DecidesStillAfterErr result D.content D.loose standing.old disk.old disk.new }
    ensures images { IsTrue D.tells → OpensToOneOfTwo D.content D.loose D.moment D.images_since
        standing.old.slot disk.old disk.new }
    ensures size { D.size disk.new ≡ D.size disk.old }
    ensures leads { D.leads_to disk.old disk.new }
    ensures counted { OnErr result (FaultCountRose (D.faults disk.old) (D.faults disk.new)) }
    ensures never_falls { D.faults disk.old ≤ D.faults disk.new }
{
    put_gate(disk, block, standing.slot)?;
    *standing = Standing {
        slot: standing.slot.other_slot(),
        spare_closed: false,
    };
    Ok(())
}
