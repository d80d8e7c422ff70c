ghost use Rattle.std.specs.Prelude.{◌≡◌, ◌≢◌, ◌⊎◌, ◌↔◌, ℕ, ◌<◌, All, Some, length, map, IfOk, IfErr, IsErrOf};
ghost use Rattle.std.specs.List.Sorted.{IsStrictlyIncreasing};
ghost use Rattle.casper_map.specs.Mapped.{page_count};
ghost use Rattle.casper_map.specs.Planned.{IsPlan, moved};
ghost use Rattle.casper_disk.specs.Vault.{as_changes, lacking};
ghost use Rattle.casper_stable.specs.Kept.{store_room};
ghost use Rattle.casper_stable.specs.Doubts.{commit_fault_of, IsRefusal};

use crate::store::Store;
use casper_disk::{CommitFault, Disk};
use casper_map::{Plan, PlanFault};
use casper_words::{Frame, Memory, Page};
use std::alloc::Global;

/// Why a commit that was not planned fails.
fn as_commit_fault(fault: PlanFault) -> CommitFault
    ensures { result ≡ commit_fault_of fault }
{
    match fault {
        PlanFault::Memory => CommitFault::Memory,
        PlanFault::Full { need, free } => CommitFault::Full { need, free },
    }
}

/// The pages that change.
fn pages_of(alloc: Global, changes: &[(Page, Frame)]) -> Result<Vec<Page>, Memory>
    ensures { IfOk result (λ pages. pages.items ≡ map (λ change. change.0) changes.now) }
{
    let mut pages = Vec::with_capacity(alloc, changes.len())?;
    for (page, _frame) in changes {
        pages.push(*page)?;
    }
    Ok(pages)
}

impl<D: Disk> Store<D> {
    /// Where a commit of these pages puts them.
    pub(crate) fn plan_for(
        &self,
        alloc: Global,
        changes: &[(Page, Frame)],
    ) -> Result<Plan, CommitFault>
        requires some { length changes.now ≢ 0 }
        requires rising { IsStrictlyIncreasing (map (λ change. change.0) changes.now) }
        requires within { All (λ change. change.0 < page_count self.now.held) changes.now }
        ensures planned { IfOk result (IsPlan self.now.held) }
        ensures pages { IfOk result (λ plan. map (λ change. change.0) changes.now
            ≡ moved plan.pages) }
        ensures full { IsErrOf result CommitFault.Memory
            ⊎ ((need free : ℕ) → IsErrOf result (CommitFault.Full need free)
            ↔ (lacking (as_changes changes.now) (store_room self.now)
            ≡ Some (record { need = need; free = free }))) }
        ensures causes { IfErr result IsRefusal }
    {
        let pages = pages_of(alloc, changes)?;
        match self.map.plan(alloc, &pages) {
            Ok(plan) => Ok(plan),
            Err(fault) => Err(as_commit_fault(fault)),
        }
    }
}
