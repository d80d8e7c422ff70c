ghost use Rattle.std.specs.Prelude.{◌≡◌, ℕ, [], ◌^◌, ◌<◌, Bool, true, List, All, None, length, map, is_some, replicate, IfOk, OnOk, refl};
ghost use Rattle.std.proofs.Common.{inl};
ghost use Rattle.casper_space.specs.Changes.{with_changes};
ghost use Rattle.casper_disk.specs.Vault.{Saved, as_changes};
ghost use Rattle.casper_disk.specs.MemVault.{words_in, is_held, held_image, held_saved, saved_since};
ghost use Rattle.casper_disk.specs.LeadsTo.{PagesLeadTo, pages_themselves, pages_on};
ghost use Rattle.casper_disk.specs.VaultLaws.{image_count, page_filled, never_in_doubt, only_saved_now, since_earlier};

use crate::past::Past;
use crate::{CommitFault, DiskFault, LAST_VERSION, Vault};
use casper_words::{Frame, Memory, Page};
use std::alloc::Global;
use std::marker::Model;

/// A vault in memory, which tells its image, and what it was before each commit. It has no room, no fault and no doubt. A page takes
/// memory when it is first committed.
#[derive(Drop)]
pub struct MemVault {
    frames: Vec<Option<Frame>>,
    blank: Frame,
    version: u64,
    past: Past,
}

impl Model for MemVault {
    ghost use Rattle.std.specs.Prelude.{map};
    ghost use Rattle.casper_disk.specs.MemVault.{HeldPages, IsHeldVault, words_in};

    ghost Value = { HeldPages };

    ghost view = { λ own. record { pages = map words_in own.frames.items; version = own.version; past = own.past.saved } };

    ghost invariant = { λ own. IsHeldVault own.frames.items own.blank own.version };
}

/// Sees to it that a page has a frame. Its words stay.
fn hold(alloc: Global, place: &mut Option<Frame>) -> Result<(), Memory>
    ensures same { words_in place.new ≡ words_in place.old }
    ensures held { OnOk result (is_some place.new ≡ true) }
    ensures keeps { is_some place.old ≡ true → is_some place.new ≡ true }
{
    if place.is_none() {
        *place = Some(Frame::zero(alloc)?);
    }
    Ok(())
}

/// Sees to it that each of these pages has a frame. The words of every page stay.
fn hold_all(
    alloc: Global,
    frames: &mut Vec<Option<Frame>>,
    changes: &[(Page, Frame)],
) -> Result<(), Memory>
    requires { All (λ change. change.0 < length frames.old.items) changes.now }
    ensures same { map words_in frames.new.items ≡ map words_in frames.old.items }
    ensures count { length frames.new.items ≡ length frames.old.items }
    ensures held { OnOk result (All (λ change. is_held frames.new.items change.0
        ≡ true) changes.now) }
{
    for (page, _frame) in changes {
        hold(alloc, &mut frames[page.0 as usize])?;
    }
    Ok(())
}

/// Gives the frame of a page the words of another.
fn put(place: &mut Option<Frame>, frame: &Frame)
    requires { is_some place.old ≡ true }
    ensures words { words_in place.new ≡ frame.now }
    ensures keeps { is_some place.new ≡ true }
    ensures long { length frame.now ≡ 512 }
{
    if let Some(held) = place {
        held.copy_from(frame);
    }
}

/// Gives these pages, all of which have a frame, these words.
fn put_all(frames: &mut Vec<Option<Frame>>, changes: &[(Page, Frame)])
    requires within { All (λ change. change.0 < length frames.old.items) changes.now }
    requires held { All (λ change. is_held frames.old.items change.0 ≡ true) changes.now }
    ensures words { map words_in frames.new.items
        ≡ with_changes (map words_in frames.old.items) (as_changes changes.now) }
    ensures count { length frames.new.items ≡ length frames.old.items }
    ensures long { All (λ change. length change.1 ≡ 512) changes.now }
{
    for (page, frame) in changes {
        put(&mut frames[page.0 as usize], frame);
    }
}

impl MemVault {
    /// A vault of as many zero pages, of version 1.
    pub fn new(alloc: Global, pages: u32) -> Result<MemVault, Memory>
        ensures image { IfOk result (λ vault. held_image vault
            ≡ replicate pages (replicate 512 0)) }
        ensures version { IfOk result (λ vault. vault.version ≡ 1) }
        ensures size { IfOk result (λ vault. length vault.pages ≡ pages) }
        ensures past { IfOk result (λ vault. vault.past ≡ []) }
    {
        let blank = Frame::zero(alloc)?;
        let mut frames = Vec::with_capacity(alloc, pages as usize)?;
        for _ in 0..pages {
            frames.push(None)?;
        }
        Ok(MemVault {
            frames,
            blank,
            version: 1,
            past: Past::new(),
        })
    }
}

impl Vault for MemVault {
    ghost tells = { true };

    ghost size = { λ vault. length vault.pages };

    ghost image = { held_image };

    ghost version = { λ vault. vault.version };

    ghost room = { λ _. None };

    ghost doubt = { λ _. None };

    ghost images_now = { λ vault saved. saved ≡ held_saved vault };

    ghost moment = { λ vault. length vault.past };

    ghost images_since = { saved_since };

    ghost faults = { λ _. 0 };

    ghost leads_to = { PagesLeadTo };

    fn pages(&self) -> u32 {
        self.frames.len() as u32
    }

    fn version(&self) -> u64 {
        self.version
    }

    fn in_doubt(&self) -> bool {
        false
    }

    fn read_page(&mut self, page: Page, into: &mut Frame) -> Result<(), DiskFault> {
        match &self.frames[page.0 as usize] {
            Some(frame) => into.copy_from(frame),
            None => into.copy_from(&self.blank),
        }
        Ok(())
    }

    fn commit(&mut self, alloc: Global, changes: &[(Page, Frame)]) -> Result<u64, CommitFault> {
        hold_all(alloc, &mut self.frames, changes)?;
        if changes.is_empty() {
            return Ok(self.version);
        }
        if self.version == LAST_VERSION {
            return Err(CommitFault::Worn);
        }
        self.past = self.past.then(&self.frames, self.version);
        put_all(&mut self.frames, changes);
        self.version += 1;
        Ok(self.version)
    }

    fn settle(&mut self) -> Result<u64, DiskFault> {
        Ok(self.version)
    }

    ghost sized = { λ vault told. image_count vault };

    ghost filled = { λ vault page told within. page_filled vault page within };

    ghost sure_image = { λ vault saved told sure now. now };

    ghost either_image = { λ vault changes saved told doubt now. absurd (never_in_doubt doubt) };

    ghost leaves_one = { λ vault told. (held_saved vault, refl) };

    ghost now_counts = { λ vault past saved told early now. inl now };

    ghost only_now = { λ vault saved told since. only_saved_now vault saved since };

    ghost earlier_counts = { λ vault earlier later saved told order since. since_earlier vault earlier later saved order since };

    ghost leads_to_itself = { pages_themselves };

    ghost leads_on = { pages_on };
}

#[cfg(test)]
mod tests {
    use super::*;
    use std::process::Abort;
    use std::test::Fail;

    /// Takes what may go to another thread.
    fn hand_over<V: Vault + Drop + Send>(_vault: V) {}

    /// The first word of a page.
    fn first_word(rt: &impl Abort, vault: &mut MemVault, page: u32, into: &mut Frame) -> u64 {
        assert!(rt; page < vault.pages());
        assert_eq!(rt; vault.read_page(Page(page), into), Ok(()));
        into.get(0)
    }

    #[test]
    fn commits(rt: HostRuntime) -> Result<(), Fail> {
        let mut vault = MemVault::new(rt.alloc(), 4)?;
        let mut frame = Frame::zero(rt.alloc())?;
        frame.set(0, 7);
        let mut other = Frame::zero(rt.alloc())?;
        other.set(0, 9);
        let changes = [(Page(1), frame), (Page(3), other)];
        assert_eq!(rt; vault.version(), 1);
        assert_eq!(rt; vault.commit(rt.alloc(), &changes), Ok(2));
        assert_eq!(rt; vault.commit(rt.alloc(), &[]), Ok(2), "no change");
        assert!(rt; !vault.in_doubt());
        let mut into = Frame::zero(rt.alloc())?;
        for (page, want) in [(1, 7), (2, 0), (3, 9)] {
            assert_eq!(rt;
                first_word(&rt, &mut vault, page, &mut into),
                want,
                "page {page}"
            );
        }
        hand_over(vault);
        Ok(())
    }
}
