ghost use Rattle.std.specs.Prelude.{◌≡◌, ◌<◌, ℕ, List, true, false, None, IfOk, IsSome, IsTrue};
ghost use Rattle.casper_words.specs.Count.{FaultCountRose};
ghost use Rattle.casper_trail.specs.Modified.{is_modified};
ghost use Rattle.casper_trail.specs.TrailView.{commit_count};
ghost use Rattle.casper_hub.specs.HubView.{frame_in, page_count};
ghost use Rattle.casper_hub.specs.Sound.{IsSound};
ghost use Rattle.casper_hub.specs.Words.{FramesAreRight};
ghost use Rattle.casper_core.specs.Loading.{OnlyReads, OnlyLoads, AreStored};

use casper_disk::Vault;
use casper_hub::Hub;
use casper_words::{Frame, Memory, Page};
use std::alloc::Global;

/// Reads a page that is not modified from the vault, and gives the server a frame of it. False where it could not be read. The server gets no other
/// frame, and nothing else changes.
pub(crate) fn load<V: Vault>(
    alloc: Global,
    hub: &mut Hub,
    vault: &mut V,
    page: Page,
    marks: u64,
) -> Result<bool, Memory>
    requires range { page < page_count hub.old }
    requires clean { is_modified hub.old.trail page ≡ false }
    requires marks { marks ≡ commit_count hub.old.trail }
    requires size { V.size vault.old ≡ page_count hub.old }
    ensures loaded { IfOk result (λ read. read ≡ true → IsSome (frame_in hub.new.pages page)) }
    ensures failed { IfOk result (λ read. read ≡ false
        → FaultCountRose (V.faults vault.old) (V.faults vault.new)) }
    ensures hub { OnlyLoads hub.old hub.new }
    ensures frames { IsTrue V.tells → (base : List (List ℕ))
        → AreStored base hub.old (V.image vault.old) → FramesAreRight base hub.old
        → FramesAreRight base hub.new }
    ensures sound { IsSound hub.old → IsSound hub.new }
    ensures vault { OnlyReads V.tells V.size V.image V.version V.room V.doubt V.images_now V.moment
        V.images_since V.faults V.leads_to vault.old vault.new }
{
    let mut frame = Frame::zero(alloc)?;
    if vault.read_page(page, &mut frame).is_err() {
        return Ok(false);
    }
    hub.supply(page, marks, frame)
}
