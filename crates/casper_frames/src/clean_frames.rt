ghost use Rattle.std.specs.Prelude.{◌≡◌, ◌<◌, ◌≤◌, [], None, length, option_map, option_copied, IsNone, IsOk, IfOk, OnOk, OnErr, IfErr, IsSome, Some};
ghost use Rattle.slab.specs.Slab.{ContainsKey, Updates};
ghost use Rattle.casper_frames.specs.Keeping.{frame_of, others, oldest, kept_with, IsSound};

use casper_words::{Frame, Memory, Page};
use lru::LruCache;
use slab::Slab;
use std::alloc::Global;
use std::marker::Model;
use std::num::NonZeroUsize;

/// Frames of pages, at most as many as its bound. Contracts see the bound and the pages with their frames,
/// the page kept last first.
#[derive(Drop)]
pub struct CleanFrames {
    index: LruCache<Page, usize>,
    frames: Slab<Frame>,
}

impl Model for CleanFrames {
    ghost use Rattle.casper_frames.specs.Keeping.{Keeping, IsSound};
    ghost use Rattle.casper_frames.specs.Stored.{shown, AreStored, AreApart};

    ghost Value = { Keeping };

    ghost view = { λ clean. record {
      bound = clean.index.cap;
      kept = shown clean.frames clean.index.entries;
    } };

    ghost invariant = { λ clean. IsSound (record {
      bound = clean.index.cap;
      kept = shown clean.frames clean.index.entries;
    }) × AreStored clean.frames clean.index.entries × AreApart clean.index.entries };
}

impl CleanFrames {
    /// Keeps no page yet, and will keep at most `bound`. It takes the memory for the frames' places.
    pub fn new(alloc: Global, bound: u32) -> Result<CleanFrames, Memory>
        requires { 8 ≤ bound }
        ensures empty { IfOk result (λ clean. clean ≡ record { bound = bound; kept = [] }) }
        ensures sound { IfOk result (λ clean. IsSound clean) }
    {
        let most = NonZeroUsize::new(bound as usize).unwrap();
        let index = LruCache::new(alloc, most)?;
        let frames = Slab::with_capacity(alloc, bound as usize)?;
        Ok(CleanFrames { index, frames })
    }

    /// The frame of a page, where it is kept.
    pub fn find(&self, page: Page) -> Option<&Frame>
        ensures frame { option_copied result ≡ frame_of page self.now.kept }
        ensures sound { IsSound self.now }
    {
        let key = self.index.peek(&page)?;
        self.frames.get(*key)
    }

    /// Keeps a page with this frame. A page that is kept takes the new frame, nothing is dropped, and this
    /// can't fail. Where as many pages are kept as there may be, a new one drops the page kept longest ago,
    /// which is answered. Memory may be short for a new page: the frame is then given back, and nothing has
    /// changed.
    pub fn keep(&mut self, page: Page, frame: Frame) -> Result<Option<Page>, (Frame, Memory)>
        ensures kept { OnOk result (self.new
            ≡ record self.old { kept = kept_with page frame self.old }) }
        ensures replaced { IsSome (frame_of page self.old.kept)
            → IfOk result (λ dropped. dropped ≡ None) }
        ensures added { length self.old.kept < self.old.bound
            → IfOk result (λ dropped. dropped ≡ None) }
        ensures full { IsNone (frame_of page self.old.kept) → length self.old.kept ≡ self.old.bound
            → IfOk result (λ dropped. dropped ≡ oldest self.old.kept) }
        ensures succeeds { IsSome (frame_of page self.old.kept) → IsOk result }
        ensures err { OnErr result (self.new ≡ self.old) }
        ensures returned { IfErr result (λ refusal. refusal.0 ≡ frame) }
        ensures sound { IsSound self.new }
    {
        if let Some(key) = self.index.peek(&page).copied() {
            self.index.promote(&page);
            replace(&mut self.frames, key, frame);
            return Ok(None);
        }
        if self.index.len() < self.index.cap().get() {
            return self.add(page, frame).map(|()| None);
        }
        self.exchange(page, frame).map(Some)
    }

    /// Keeps a new page where there is room for one.
    fn add(&mut self, page: Page, frame: Frame) -> Result<(), (Frame, Memory)>
        requires absent { frame_of page self.old.kept ≡ None }
        requires room { length self.old.kept < self.old.bound }
        ensures kept { OnOk result (self.new
            ≡ record self.old { kept = kept_with page frame self.old }) }
        ensures err { OnErr result (self.new ≡ self.old) }
        ensures returned { IfErr result (λ refusal. refusal.0 ≡ frame) }
        ensures sound { IsSound self.new }
    {
        if self.frames.reserve(1).is_err() {
            return Err((frame, Memory));
        }
        match self.index.put(page, self.frames.vacant_key()) {
            Ok(_) => {
                self.frames.insert_reserved(frame);
                Ok(())
            }
            Err(_) => Err((frame, Memory)),
        }
    }

    /// Keeps a new page in the place of the one kept longest ago, and answers that one.
    fn exchange(&mut self, page: Page, frame: Frame) -> Result<Page, (Frame, Memory)>
        requires absent { frame_of page self.old.kept ≡ None }
        requires full { length self.old.kept ≡ self.old.bound }
        ensures kept { OnOk result (self.new
            ≡ record self.old { kept = kept_with page frame self.old }) }
        ensures oldest { IfOk result (λ dropped. oldest self.old.kept ≡ Some dropped) }
        ensures err { OnErr result (self.new ≡ self.old) }
        ensures returned { IfErr result (λ refusal. refusal.0 ≡ frame) }
        ensures sound { IsSound self.new }
    {
        let (last, key) = self.index.peek_lru().unwrap();
        let (last, key) = (*last, *key);
        match self.index.put(page, key) {
            Ok(_) => {
                replace(&mut self.frames, key, frame);
                Ok(last)
            }
            Err(_) => Err((frame, Memory)),
        }
    }

    /// Keeps a page no longer. Where it is not kept, nothing changes.
    pub fn drop_page(&mut self, page: Page)
        ensures dropped { self.new ≡ record self.old { kept = others page self.old.kept } }
        ensures sound { IsSound self.new }
    {
        if let Some(key) = self.index.pop(&page) {
            let _dropped = self.frames.remove(key);
        }
    }
}

/// Puts another frame in the place of the one under a key.
fn replace(frames: &mut Slab<Frame>, key: usize, frame: Frame)
    requires { ContainsKey frames.old key }
    ensures { Updates frames.old frames.new key (Some frame) }
{
    frames[key] = frame;
}

#[cfg(test)]
mod tests;
