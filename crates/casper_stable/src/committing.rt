ghost use Rattle.std.specs.Prelude.{◌≡◌, ◌⊎◌, ◌+◌, ◌<◌, ◌≤◌, None, Some, map, IsTrue, IsErrOf, OnOk, OnErr};
ghost use Rattle.casper_disk.specs.Disk.{Took};
ghost use Rattle.casper_disk.specs.Vault.{IsOldOrNewImage, as_changes};
ghost use Rattle.casper_space.specs.Changes.{last_version, room_after, with_changes};
ghost use Rattle.casper_map.specs.Mapped.{page_count};
ghost use Rattle.casper_map.specs.Room.{room_of};
ghost use Rattle.casper_map.specs.Planned.{IsPlan, moved, with_plan};
ghost use Rattle.casper_words.specs.Count.{FaultCountRose};
ghost use Rattle.casper_stable.specs.Kept.{changes_written, image_of, next_body};
ghost use Rattle.casper_stable.specs.Doubts.{is_doubt};
ghost use Rattle.casper_commit.specs.GateMoment.{CallsGate, FailsAtGate};
ghost use Rattle.casper_stable.specs.Leaves.{Leaves};
ghost use Rattle.casper_stable.specs.Others.{OthersKeepFrames};
ghost use Rattle.casper_stable.specs.UntilGate.{LeavesOldAlone, OldUntilGate};
ghost use Rattle.casper_stable.specs.Sound.{IsKept, IsHeld};

use crate::pieces::Written;
use crate::store::Store;
use crate::writing::put_plan;
use casper_disk::{CommitFault, Disk};
use casper_map::Plan;
use casper_root::Body;
use casper_words::{Block, Frame, Page};

/// Whether a commit failed so that it is in doubt.
fn is_doubt(fault: CommitFault) -> bool
    ensures { result ≡ is_doubt fault }
{
    match fault {
        CommitFault::Doubt => true,
        _ => false,
    }
}

impl<D: Disk> Store<D> {
    /// Carries out a plan: what it moves is written, and then its root is made the current one. After a fault at the gate the plan is
    /// in doubt. The block is used to write.
    pub(crate) fn carry_out(
        &mut self,
        plan: Plan,
        changes: &[(Page, Frame)],
        root_block: &mut Block,
    ) -> Result<(), CommitFault>
        requires planned { IsPlan self.old.held plan }
        requires pages { map (λ change. change.0) changes.now ≡ moved plan.pages }
        requires sure { self.old.doubt ≡ None }
        requires more { self.old.body.seq < last_version }
        ensures header { self.new.header ≡ self.old.header }
        ensures body { OnOk result (self.new.body ≡ next_body self.old.body self.old.held plan) }
        ensures map { OnOk result (self.new.held ≡ with_plan plan self.old.held) }
        ensures none { OnOk result (self.new.doubt ≡ None) }
        ensures same_body { OnErr result (self.new.body ≡ self.old.body) }
        ensures same_map { OnErr result (self.new.held ≡ self.old.held) }
        ensures causes { OnErr result (IsErrOf result CommitFault.Disk
            ⊎ IsErrOf result CommitFault.Doubt) }
        ensures doubtful { IsErrOf result CommitFault.Doubt → self.new.doubt ≡ Some plan }
        ensures certain { IsErrOf result CommitFault.Disk → self.new.doubt ≡ None }
        ensures image { IsTrue D.tells → OnOk result
            (image_of D.content self.new ≡ with_changes (image_of D.content self.old)
            (as_changes changes.now)) }
        ensures same_image { IsTrue D.tells
            → OnErr result (image_of D.content self.new ≡ image_of D.content self.old) }
        ensures changes { IsTrue D.tells → IsErrOf result CommitFault.Doubt
            → changes_written (D.content self.new.disk) plan ≡ as_changes changes.now }
        ensures images { IsTrue D.tells → Took (D.moment self.old.disk) (D.moment self.new.disk)
            (λ past. Leaves (D.images_since self.old.disk past)) (λ past. Leaves
            (D.images_since self.new.disk past))
            (IsOldOrNewImage (image_of D.content self.old) self.old.body.seq
            (as_changes changes.now)
            (self.old.body.seq + 1)) }
        ensures old_alone { IsTrue D.tells → IsErrOf result CommitFault.Disk → LeavesOldAlone
            D.content D.moment D.images_since self.old self.new.disk }
        ensures gate_call { OnOk result (CallsGate D.leads_to D.faults (λ at_gate. IsTrue D.tells
            → OldUntilGate D.content D.loose D.moment D.images_since self.old at_gate self.new.disk)
            self.old.disk self.new.disk) }
        ensures gate_call_in_doubt { IsErrOf result CommitFault.Doubt
            → FailsAtGate D.leads_to D.faults (λ at_gate. IsTrue D.tells
            → OldUntilGate D.content D.loose D.moment D.images_since self.old at_gate self.new.disk)
            self.old.disk self.new.disk }
        ensures frames { OnOk result
            (OthersKeepFrames (moved plan.pages) self.old.held self.new.held) }
        ensures size { page_count self.new.held ≡ page_count self.old.held }
        ensures room { OnOk result (room_of self.new.held
            ≡ room_after (moved plan.pages) (room_of self.old.held)) }
        ensures kept { IsKept D.size self.new × IsHeld D.tells D.content D.loose self.new }
        ensures leads { D.leads_to self.old.disk self.new.disk }
        ensures counted { OnErr result
            (FaultCountRose (D.faults self.old.disk) (D.faults self.new.disk)) }
        ensures never_falls { D.faults self.old.disk ≤ D.faults self.new.disk }
    {
        let written = Written {
            map: &self.map,
            plan: &plan,
            changes,
        };
        let body = Body {
            seq: self.body.seq + 1,
            maps: self.map.maps(&plan),
        };
        match put_plan(
            &mut self.disk,
            &mut self.block,
            root_block,
            &mut self.standing,
            &written,
            &body,
        ) {
            Ok(()) => {}
            Err(fault) => {
                if is_doubt(fault) {
                    self.doubt = Some(plan);
                    return Err(fault);
                }
                return Err(fault);
            }
        }
        self.map.apply(&plan);
        self.body = body;
        Ok(())
    }
}
