ghost use Rattle.std.specs.Prelude.{◌≡◌, ◌≢◌, ◌⊎◌, ◌↔◌, ◌<◌, ◌≤◌, ℕ, All, None, Some, length, IsTrue, IsFalse, IsSome, IsErrOf, IsOkUnless, IfOk, IfErr, OnOk, OnErr};
ghost use Rattle.std.specs.List.Sorted.{IsStrictlyIncreasing};
ghost use Rattle.casper_words.specs.Count.{FaultCountRose};
ghost use Rattle.casper_space.specs.Changes.{pages_of, with_changes};
ghost use Rattle.casper_disk.specs.CommitFaults.{is_of_disk};
ghost use Rattle.casper_disk.specs.Disk.{KeepsImages, Took};
ghost use Rattle.casper_disk.specs.Vault.{IsOldOrNewImage, as_changes, changes_in, is_worn, lacking, room_settled, room_with, version_after, version_settled};
ghost use Rattle.casper_commit.specs.GateMoment.{CallsGate, FailsAtGate};
ghost use Rattle.casper_map.specs.Mapped.{page_count};
ghost use Rattle.casper_stable.specs.Kept.{image_of, store_room, doubt_of};
ghost use Rattle.casper_stable.specs.KeptBy.{kept_by};
ghost use Rattle.casper_stable.specs.Leaves.{Leaves, KeptLeadsTo};
ghost use Rattle.casper_stable.specs.Others.{OthersKeepFrames, OthersKeepWords, pages_in_doubt};
ghost use Rattle.casper_stable.specs.UntilGate.{LeavesOldAlone, OldUntilGate};
ghost use Rattle.casper_stable.specs.VaultLaws.{image_count, page_filled, sure_law, either_law, one_law, leaves_more, leads_itself, leads_further};

use crate::Stable;
use casper_disk::{CommitFault, Disk, DiskFault, LAST_VERSION, Vault};
use casper_words::{Block, Frame, Page};
use std::alloc::Global;

impl<D: Disk> Vault for Stable<D> {
    ghost tells = { D.tells };

    ghost size = { λ vault. page_count vault.store.held };

    ghost image = { λ vault. image_of D.content vault.store };

    ghost version = { λ vault. vault.store.body.seq };

    ghost room = { λ vault. store_room vault.store };

    ghost doubt = { λ vault. doubt_of D.content vault.store };

    ghost images_now = { λ vault. Leaves (D.images_now vault.store.disk) };

    ghost moment = { λ vault. D.moment vault.store.disk };

    ghost images_since = { λ vault moment. Leaves (D.images_since vault.store.disk moment) };

    ghost faults = { λ vault. D.faults vault.store.disk };

    ghost leads_to = { λ before after. KeptLeadsTo D.tells D.leads_to before.store after.store };

    fn pages(&self) -> u32 {
        self.store.pages()
    }

    fn version(&self) -> u64 {
        self.store.version()
    }

    fn in_doubt(&self) -> bool {
        self.store.in_doubt()
    }

    fn read_page(&mut self, page: Page, into: &mut Frame) -> Result<(), DiskFault> {
        self.store.read_page(page, into)
    }

    // The clauses of `Vault`, and after them what a vault over a disk knows more of its commit.
    fn commit(&mut self, alloc: Global, changes: &[(Page, Frame)]) -> Result<u64, CommitFault>
        requires rising { IsStrictlyIncreasing (pages_of (as_changes changes.now)) }
        requires within { All (λ change. change.0 < page_count (kept_by self.old).held)
            changes.now }
        requires sure { doubt_of D.content (kept_by self.old) ≡ None }
        ensures answer { IfOk result (λ number. number ≡ (kept_by self.new).body.seq) }
        ensures version { OnOk result ((kept_by self.new).body.seq
            ≡ version_after (as_changes changes.now) (kept_by self.old).body.seq) }
        ensures image { IsTrue D.tells → OnOk result (image_of D.content (kept_by self.new)
            ≡ with_changes (image_of D.content (kept_by self.old)) (as_changes changes.now)) }
        ensures room { OnOk result (store_room (kept_by self.new)
            ≡ room_with (as_changes changes.now) (store_room (kept_by self.old))) }
        ensures doubtful { IsErrOf result CommitFault.Doubt
            ↔ IsSome (doubt_of D.content (kept_by self.new)) }
        ensures doubt { IsTrue D.tells → IsErrOf result CommitFault.Doubt
            → doubt_of D.content (kept_by self.new) ≡ Some (as_changes changes.now) }
        ensures same_version { OnErr result ((kept_by self.new).body.seq
            ≡ (kept_by self.old).body.seq) }
        ensures same_image { IsTrue D.tells → OnErr result
            (image_of D.content (kept_by self.new) ≡ image_of D.content (kept_by self.old)) }
        ensures same_room { OnErr result (store_room (kept_by self.new)
            ≡ store_room (kept_by self.old)) }
        ensures size { page_count (kept_by self.new).held ≡ page_count (kept_by self.old).held }
        ensures worn { IsErrOf result CommitFault.Memory ⊎ (IsErrOf result CommitFault.Worn
            ↔ IsTrue (is_worn (as_changes changes.now) (kept_by self.old).body.seq)) }
        ensures full { IsErrOf result CommitFault.Memory ⊎ IsErrOf result CommitFault.Worn
            ⊎ ((need free : ℕ) → IsErrOf result (CommitFault.Full need free)
            ↔ (lacking (as_changes changes.now) (store_room (kept_by self.old))
            ≡ Some (record { need = need; free = free }))) }
        ensures unchanged { length changes.now ≡ 0 → IsOkUnless result CommitFault.Memory }
        ensures disk { IsErrOf result CommitFault.Disk → FaultCountRose
            (D.faults (kept_by self.old).disk) (D.faults (kept_by self.new).disk) }
        ensures doubt_counted { IsErrOf result CommitFault.Doubt → FaultCountRose
            (D.faults (kept_by self.old).disk) (D.faults (kept_by self.new).disk) }
        ensures never_falls { D.faults (kept_by self.old).disk
            ≤ D.faults (kept_by self.new).disk }
        ensures unused { IfErr result (λ fault. IsFalse (is_of_disk fault)
            → D.faults (kept_by self.new).disk ≡ D.faults (kept_by self.old).disk) }
        ensures stands { IsTrue D.tells → IfErr result (λ fault. IsFalse (is_of_disk fault)
            → KeepsImages (D.moment (kept_by self.old).disk) (D.moment (kept_by self.new).disk)
            (λ past. Leaves (D.images_since (kept_by self.old).disk past))
            (λ past. Leaves (D.images_since (kept_by self.new).disk past))) }
        ensures images { IsTrue D.tells
            → Took (D.moment (kept_by self.old).disk) (D.moment (kept_by self.new).disk)
            (λ past. Leaves (D.images_since (kept_by self.old).disk past))
            (λ past. Leaves (D.images_since (kept_by self.new).disk past))
            (IsOldOrNewImage (image_of D.content (kept_by self.old)) (kept_by self.old).body.seq
            (as_changes changes.now)
            (version_after (as_changes changes.now) (kept_by self.old).body.seq)) }
        ensures leads { KeptLeadsTo D.tells D.leads_to (kept_by self.old) (kept_by self.new) }
        ensures old_alone { IsTrue D.tells → IsErrOf result CommitFault.Disk → LeavesOldAlone
            D.content D.moment D.images_since (kept_by self.old) (kept_by self.new).disk }
        ensures gate_call { length changes.now ≢ 0 → OnOk result
            (CallsGate D.leads_to D.faults (λ at_gate. IsTrue D.tells
            → OldUntilGate D.content D.loose D.moment D.images_since (kept_by self.old) at_gate
            (kept_by self.new).disk) (kept_by self.old).disk (kept_by self.new).disk) }
        ensures gate_call_in_doubt { IsErrOf result CommitFault.Doubt
            → FailsAtGate D.leads_to D.faults (λ at_gate. IsTrue D.tells
            → OldUntilGate D.content D.loose D.moment D.images_since (kept_by self.old) at_gate
            (kept_by self.new).disk) (kept_by self.old).disk (kept_by self.new).disk }
        ensures frames { OnOk result (OthersKeepFrames (pages_of (as_changes changes.now))
            (kept_by self.old).held (kept_by self.new).held) }
        ensures same_frames { OnErr result ((kept_by self.new).held ≡ (kept_by self.old).held) }
        ensures words { IsTrue D.tells → OnOk result
            (OthersKeepWords (pages_of (as_changes changes.now))
            (image_of D.content (kept_by self.old)) (image_of D.content (kept_by self.new))) }
    {
        if changes.is_empty() {
            return Ok(self.store.version());
        }
        if self.store.version() == LAST_VERSION {
            return Err(CommitFault::Worn);
        }
        let plan = self.store.plan_for(alloc, changes)?;
        let mut root_block = Block::zero(alloc)?;
        self.store.carry_out(plan, changes, &mut root_block)?;
        Ok(self.store.version())
    }

    // The clauses of `Vault`, and after them what becomes of the frames of pages.
    fn settle(&mut self) -> Result<u64, DiskFault>
        ensures answer { IfOk result (λ number. number ≡ (kept_by self.new).body.seq) }
        ensures version { OnOk result ((kept_by self.new).body.seq
            ≡ version_settled (doubt_of D.content (kept_by self.old)) (kept_by self.old).body.seq) }
        ensures sure { OnOk result (doubt_of D.content (kept_by self.new) ≡ None) }
        ensures image { IsTrue D.tells → OnOk result (image_of D.content (kept_by self.new)
            ≡ with_changes (image_of D.content (kept_by self.old))
            (changes_in (doubt_of D.content (kept_by self.old)))) }
        ensures room { IsTrue D.tells → OnOk result (store_room (kept_by self.new)
            ≡ room_settled (doubt_of D.content (kept_by self.old))
            (store_room (kept_by self.old))) }
        ensures in_doubt { OnErr result (IsSome (doubt_of D.content (kept_by self.old))) }
        ensures doubtful { OnErr result (IsSome (doubt_of D.content (kept_by self.new))) }
        ensures same_doubt { IsTrue D.tells → OnErr result
            (doubt_of D.content (kept_by self.new) ≡ doubt_of D.content (kept_by self.old)) }
        ensures same_version { OnErr result ((kept_by self.new).body.seq
            ≡ (kept_by self.old).body.seq) }
        ensures same_image { IsTrue D.tells → OnErr result
            (image_of D.content (kept_by self.new) ≡ image_of D.content (kept_by self.old)) }
        ensures same_room { OnErr result (store_room (kept_by self.new)
            ≡ store_room (kept_by self.old)) }
        ensures size { page_count (kept_by self.new).held ≡ page_count (kept_by self.old).held }
        ensures counted { OnErr result (FaultCountRose
            (D.faults (kept_by self.old).disk) (D.faults (kept_by self.new).disk)) }
        ensures never_falls { D.faults (kept_by self.old).disk
            ≤ D.faults (kept_by self.new).disk }
        ensures images { IsTrue D.tells
            → Took (D.moment (kept_by self.old).disk) (D.moment (kept_by self.new).disk)
            (λ past. Leaves (D.images_since (kept_by self.old).disk past))
            (λ past. Leaves (D.images_since (kept_by self.new).disk past))
            (IsOldOrNewImage (image_of D.content (kept_by self.old)) (kept_by self.old).body.seq
            (changes_in (doubt_of D.content (kept_by self.old)))
            (version_settled (doubt_of D.content (kept_by self.old))
            (kept_by self.old).body.seq)) }
        ensures leads { KeptLeadsTo D.tells D.leads_to (kept_by self.old) (kept_by self.new) }
        ensures frames { OnOk result (OthersKeepFrames (pages_in_doubt (kept_by self.old).doubt)
            (kept_by self.old).held (kept_by self.new).held) }
        ensures same_frames { OnErr result ((kept_by self.new).held ≡ (kept_by self.old).held) }
    {
        if !self.store.in_doubt() {
            return Ok(self.store.version());
        }
        self.store.end_doubt()?;
        Ok(self.store.version())
    }

    ghost sized = { λ vault told. image_count (D.content vault.store.disk) vault.store.held };

    ghost filled = { λ vault page told within. page_filled
        (D.content vault.store.disk) vault.store.held page within };

    ghost sure_image = { λ vault saved told none now.
        sure_law D.size D.tells D.content D.loose D.images_now vault.store
        (λ blocks is. D.images_agree vault.store.disk blocks told is)
        vault.stands told none saved now };

    ghost either_image = { λ vault changes saved told some now.
        either_law D.size D.tells D.content D.loose D.images_now vault.store
        (λ blocks is. D.images_agree vault.store.disk blocks told is)
        vault.stands told changes some saved now };

    ghost leaves_one = { λ vault told.
        one_law D.size D.tells D.content D.loose D.images_now vault.store
        (D.content_is_image vault.store.disk told) vault.stands told };

    ghost now_counts = { λ vault past saved told early now.
        leaves_more (λ blocks is. D.now_counts vault.store.disk past blocks told early is) now };

    ghost only_now = { λ vault saved told since. leaves_more
        (λ blocks is. D.only_now vault.store.disk blocks told is) since };

    ghost earlier_counts = { λ vault earlier later saved told order since.
        leaves_more (λ blocks is. D.earlier_counts vault.store.disk earlier later blocks told order is) since };

    ghost leads_to_itself = { λ vault. leads_itself vault.store
        (D.leads_to_itself vault.store.disk) };

    ghost leads_on = { λ first second third early late.
        leads_further first.store second.store third.store
        (D.leads_on first.store.disk second.store.disk third.store.disk early.disk late.disk) early late };
}
