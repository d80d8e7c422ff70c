ghost use Rattle.std.specs.Prelude.{◌≡◌, ◌<◌, ℕ, All, None, IsTrue, IsSome, IfOk, OnErr};
ghost use Rattle.std.specs.List.Sorted.{IsStrictlyIncreasing};
ghost use Rattle.casper_words.specs.Count.{FaultCountRose};
ghost use Rattle.casper_space.specs.Changes.{pages_of};
ghost use Rattle.casper_space.specs.declared.answer.Answer.TheVariants as said;
ghost use Rattle.casper_disk.specs.Disk.{KeepsImages};
ghost use Rattle.casper_disk.specs.Vault.{IsOldOrNewImage, as_changes, version_after};
ghost use Rattle.casper_model.specs.declared.event.Event.TheVariants as event;
ghost use Rattle.casper_model.specs.declared.outcome.Outcome.TheVariants as ended;
ghost use Rattle.casper_model.specs.State.{State};
ghost use Rattle.casper_model.specs.WriteOutStep.{is_unfinished_of};
ghost use Rattle.casper_core.specs.CoreView.{told_by};
ghost use Rattle.casper_core.specs.Leaving.{Adds, IsLeftBefore, IsLeftDuring};
ghost use Rattle.casper_core.specs.Loading.{KeepsVault};
ghost use Rattle.casper_core.specs.Represents.{Represents};
ghost use Rattle.casper_core.specs.Shaped.{StepsInShape};
ghost use Rattle.casper_core.specs.Sound.{IsSound};
ghost use Rattle.casper_core.specs.Stepping.{Steps, IsUnchanged};
ghost use Rattle.casper_core.specs.WritingOut.{busy_in, IsCommit, ended_by_fault};

use crate::Core;
use crate::answers::answer_of_write_out;
use crate::state::Unfinished;
use casper_disk::{CommitFault, Vault};
use casper_model::Outcome;
use casper_space::Answer;
use casper_trail::Mark;
use casper_words::{Frame, Memory, Page, Who};
use std::alloc::Global;

impl<V: Vault> Core<V> {
    /// The write-out of the sealed association of a lead: the vault gets the pages that the association has modified, all of them or
    /// none. The memory for it is taken before the vault changes.
    pub(crate) fn write_out(&mut self, lead: Who) -> Result<Answer, Memory>
        ensures step { IsTrue V.tells
            → IfOk result (λ answer. Steps (event.WriteOut lead) answer self.old self.new) }
        ensures shape { IfOk result
            (λ answer. StepsInShape (event.WriteOut lead) answer self.old self.new) }
        ensures failed { IfOk result (λ answer. answer ≡ said.Disk
            → FaultCountRose (V.faults self.old.vault) (V.faults self.new.vault)) }
        ensures doubt { IfOk result (λ answer. answer ≡ said.Doubt
            → FaultCountRose (V.faults self.old.vault) (V.faults self.new.vault)) }
        ensures memory { OnErr result (IsUnchanged self.old self.new) }
        ensures stands { IsTrue V.tells
            → OnErr result ((state : State) → Represents state self.old
            → Represents state self.new) }
        ensures calls { self.new.calls ≡ self.old.calls }
        ensures images { IsTrue V.tells → Adds V.moment V.images_since self.old.vault self.new.vault
            (IsLeftDuring (event.WriteOut lead) self.old) }
        ensures images_stand { IsTrue V.tells → OnErr result
            (Adds V.moment V.images_since self.old.vault self.new.vault (IsLeftBefore self.old)) }
        ensures vault { KeepsVault V.size V.faults V.leads_to self.old.vault self.new.vault }
        ensures sound { IsSound self.new }
    {
        let _mark: Option<Mark> = None;
        if self.is_unfinished(lead) || !self.hub.is_sealed(lead) {
            return Ok(Answer::NoJob);
        }
        if let Some(busy) = self.busy() {
            return Ok(Answer::Vault(busy));
        }
        let Some(job) = self.hub.job(self.alloc, lead)? else {
            return Ok(Answer::NoJob);
        };
        let outcome = commit(self.alloc, &mut self.vault, job.changes())?;
        self.unfinished = Some(Unfinished { lead, outcome });
        Ok(answer_of_write_out(outcome))
    }

    /// Whether the write-out of a lead is unfinished.
    fn is_unfinished(&self, lead: Who) -> bool
        ensures unfinished { result ≡ is_unfinished_of lead self.now.unfinished }
        ensures sound { IsSound self.now }
    {
        match &self.unfinished {
            Some(one) => one.lead == lead,
            None => false,
        }
    }

    /// The lead whose write-out is unfinished or in doubt.
    fn busy(&self) -> Option<Who>
        ensures { result ≡ busy_in self.now }
    {
        match &self.unfinished {
            Some(one) => Some(one.lead),
            None => self.hub.doubtful(),
        }
    }
}

/// Commits these changes, and tells how that ended. Err where memory was short; then nothing has changed.
fn commit<V: Vault>(
    alloc: Global,
    vault: &mut V,
    changes: &[(Page, Frame)],
) -> Result<Outcome, Memory>
    requires rising { IsStrictlyIncreasing (pages_of (as_changes changes.now)) }
    requires within { All (λ change. change.0 < V.size vault.old) changes.now }
    requires sure { V.doubt vault.old ≡ None }
    ensures commits { IsTrue V.tells → IfOk result (λ how. IsCommit
        (told_by V.image V.version V.room V.doubt vault.old) (as_changes changes.now) how
        (told_by V.image V.version V.room V.doubt vault.new)) }
    ensures same { IsTrue V.tells → OnErr result (told_by V.image V.version V.room V.doubt vault.new
        ≡ told_by V.image V.version V.room V.doubt vault.old) }
    ensures sure { OnErr result (V.doubt vault.new ≡ None) }
    ensures doubt { IfOk result (λ how. IsSome (V.doubt vault.new) → how ≡ ended.Doubt) }
    ensures failed { IfOk result (λ how. IsTrue (ended_by_fault how)
        → FaultCountRose (V.faults vault.old) (V.faults vault.new)) }
    ensures images { IsTrue V.tells → Adds V.moment V.images_since vault.old vault.new
        (IsOldOrNewImage (V.image vault.old) (V.version vault.old) (as_changes changes.now)
        (version_after (as_changes changes.now) (V.version vault.old))) }
    ensures images_stand { IsTrue V.tells → OnErr result (KeepsImages (V.moment vault.old)
        (V.moment vault.new) (V.images_since vault.old) (V.images_since vault.new)) }
    ensures vault { KeepsVault V.size V.faults V.leads_to vault.old vault.new }
{
    let _mark: Option<Mark> = None;
    match vault.commit(alloc, changes) {
        Ok(version) => Ok(Outcome::Ok(version)),
        Err(CommitFault::Memory) => Err(Memory),
        Err(CommitFault::Worn) => Ok(Outcome::Worn),
        Err(CommitFault::Full { need, free }) => Ok(Outcome::Full { need, free }),
        Err(CommitFault::Disk) => Ok(Outcome::Disk),
        Err(CommitFault::Doubt) => Ok(Outcome::Doubt),
    }
}
