ghost use Rattle.std.specs.Prelude.{◌≡◌, ◌+◌, ◌≤◌, None, Some, IsTrue, IsSome, OnOk, OnErr};
ghost use Rattle.casper_disk.specs.Disk.{Took};
ghost use Rattle.casper_disk.specs.Vault.{IsOldOrNewImage};
ghost use Rattle.casper_space.specs.Changes.{room_after, with_changes};
ghost use Rattle.casper_map.specs.Mapped.{page_count};
ghost use Rattle.casper_map.specs.Room.{room_of};
ghost use Rattle.casper_map.specs.Planned.{Planned, moved, with_plan};
ghost use Rattle.casper_words.specs.Count.{FaultCountRose};
ghost use Rattle.casper_stable.specs.Kept.{changes_written, image_of, next_body};
ghost use Rattle.casper_stable.specs.Leaves.{Leaves};
ghost use Rattle.casper_stable.specs.Others.{OthersKeepFrames};
ghost use Rattle.casper_stable.specs.Sound.{IsKept, IsHeld};

use crate::store::Store;
use casper_commit::settle;
use casper_disk::{Disk, DiskFault};
use casper_root::Body;

impl<D: Disk> Store<D> {
    /// Ends the doubt forward: makes the root of the plan in doubt the current one. After a fault it is in doubt still.
    pub(crate) fn end_doubt(&mut self) -> Result<(), DiskFault>
        requires { IsSome self.old.doubt }
        ensures header { self.new.header ≡ self.old.header }
        ensures body { (plan : Planned) → self.old.doubt ≡ Some plan
            → OnOk result (self.new.body ≡ next_body self.old.body self.old.held plan) }
        ensures map { (plan : Planned) → self.old.doubt ≡ Some plan
            → OnOk result (self.new.held ≡ with_plan plan self.old.held) }
        ensures none { OnOk result (self.new.doubt ≡ None) }
        ensures same_body { OnErr result (self.new.body ≡ self.old.body) }
        ensures same_map { OnErr result (self.new.held ≡ self.old.held) }
        ensures same_doubt { OnErr result (self.new.doubt ≡ self.old.doubt) }
        ensures image { IsTrue D.tells → (plan : Planned) → self.old.doubt ≡ Some plan
            → OnOk result (image_of D.content self.new
            ≡ with_changes (image_of D.content self.old) (changes_written
            (D.content self.old.disk) plan)) }
        ensures same_image { IsTrue D.tells
            → OnErr result (image_of D.content self.new ≡ image_of D.content self.old) }
        ensures changes { IsTrue D.tells → (plan : Planned) → self.old.doubt ≡ Some plan
            → OnErr result
            (changes_written (D.content self.new.disk) plan
            ≡ changes_written (D.content self.old.disk) plan) }
        ensures images { IsTrue D.tells → (plan : Planned) → self.old.doubt ≡ Some plan
            → Took (D.moment self.old.disk) (D.moment self.new.disk)
            (λ past. Leaves (D.images_since self.old.disk past)) (λ past. Leaves
            (D.images_since self.new.disk past))
            (IsOldOrNewImage (image_of D.content self.old) self.old.body.seq
            (changes_written (D.content self.old.disk) plan) (self.old.body.seq + 1)) }
        ensures frames { (plan : Planned) → self.old.doubt ≡ Some plan
            → OnOk result (OthersKeepFrames (moved plan.pages) self.old.held self.new.held) }
        ensures size { page_count self.new.held ≡ page_count self.old.held }
        ensures room { (plan : Planned) → self.old.doubt ≡ Some plan
            → OnOk result (room_of self.new.held
            ≡ room_after (moved plan.pages) (room_of self.old.held)) }
        ensures kept { IsKept D.size self.new × IsHeld D.tells D.content D.loose self.new }
        ensures leads { D.leads_to self.old.disk self.new.disk }
        ensures counted { OnErr result
            (FaultCountRose (D.faults self.old.disk) (D.faults self.new.disk)) }
        ensures never_falls { D.faults self.old.disk ≤ D.faults self.new.disk }
    {
        let Some(plan) = &self.doubt else {
            unreachable!()
        };
        let body = Body {
            seq: self.body.seq + 1,
            maps: self.map.maps(plan),
        };
        settle(&mut self.disk, &mut self.block, &mut self.standing)?;
        self.map.apply(plan);
        self.body = body;
        self.doubt = None;
        Ok(())
    }
}
