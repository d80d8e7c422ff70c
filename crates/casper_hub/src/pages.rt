ghost use Rattle.std.specs.Prelude.{◌≡◌, ◌<◌, ◌^◌, ℕ, [], true, length, replicate, slice_set, slice_index_or, is_some, IsSome, IsTrue, IfOk, OnSome, Some, None, if◌then◌else◌};
ghost use Rattle.std.specs.Option.{option_copied};
ghost use Rattle.casper_words.specs.Crew.{IsClient};
ghost use Rattle.casper_dir.specs.Holding.{raised};
ghost use Rattle.casper_assoc.specs.Written.{is_listed};
ghost use Rattle.casper_dir.specs.Rights.{right_at, writer_at, conflicts_at, writers_in, ChangesOneRight, RevokesRights, AreAllClients};
ghost use Rattle.casper_cache.specs.Holding.{right_of, words_of, others, lowered};
ghost use Rattle.casper_hub.specs.HubView.{PagesView, frame_in};
ghost use Rattle.casper_hub.specs.Given.{handed_in, Covers};

use casper_cache::Cache;
use casper_dir::Directory;
use casper_words::{Crew, Frame, Memory, Page, Right, Want, Who};
use std::alloc::Global;
use std::marker::Model;

/// Who holds which page, and the frames that the server has. Contracts see both, page by page.
#[derive(Drop)]
pub(crate) struct Pages {
    alloc: Global,
    directory: Directory,
    frames: Vec<Option<Frame>>,
}

impl Model for Pages {
    ghost use Rattle.std.specs.Prelude.{◌≡◌, length};
    ghost use Rattle.casper_dir.specs.Rights.{AreAllClients};
    ghost use Rattle.casper_hub.specs.HubView.{PagesView};

    ghost Value = { PagesView };

    ghost view = { λ pages. record { rights = pages.directory; frames = pages.frames.items } };

    ghost invariant = { λ pages. length pages.frames.items ≡ length pages.directory };
}

impl Pages {
    /// The pages of a store, which nobody holds and of which the server has no frame.
    pub(crate) fn new(alloc: Global, pages: u32) -> Result<Pages, Memory>
        ensures rights { IfOk result (λ made. length made.rights ≡ pages) }
        ensures none { IfOk result (λ made. (client page : ℕ)
            → right_at made.rights client page ≡ None) }
        ensures holders { IfOk result (λ made. AreAllClients made.rights) }
        ensures frames { IfOk result (λ made. made.frames ≡ replicate pages None) }
    {
        let directory = Directory::new(alloc, pages)?;
        let mut frames = Vec::with_capacity(alloc, pages as usize)?;
        for _page in 0..pages {
            frames.push_reserved(None);
        }
        Ok(Pages {
            alloc,
            directory,
            frames,
        })
    }

    /// Whether the server has a frame of a page.
    pub(crate) fn has_frame(&self, page: Page) -> bool
        requires { page < length self.now.rights }
        ensures { result ≡ is_some (frame_in self.now page) }
    {
        // So that the proof knows the invariant: there are as many frames as pages.
        let _rights = &self.directory;
        self.frames[page.0 as usize].is_some()
    }

    /// The right of a client to a page.
    pub(crate) fn right(&self, who: Who, page: Page) -> Option<Right>
        requires { page < length self.now.rights }
        ensures { result ≡ right_at self.now.rights who page }
    {
        if self.directory.writer(page) == Some(who) {
            Some(Right::Write)
        } else if self.directory.readers(page).has(who) {
            Some(Right::Read)
        } else {
            None
        }
    }

    /// The other clients whose right stands in the way of a want.
    pub(crate) fn conflicts(&self, who: Who, want: Want) -> Crew
        requires { want.page < length self.now.rights }
        ensures { result ≡ conflicts_at self.now.rights want.page who want.right }
    {
        self.directory.conflicts(want.page, who, want.right)
    }

    /// The clients that hold some page for writing. It goes over the pages once.
    pub(crate) fn writers(&self) -> Crew
        ensures writers { result ≡ writers_in self.now.rights }
        ensures holders { AreAllClients self.now.rights }
    {
        self.directory.writers()
    }

    /// Another frame with the words of the one that the server has of a page.
    pub(crate) fn copy(&self, page: Page) -> Result<Frame, Memory>
        requires page { page < length self.now.rights }
        requires framed { IsSome (frame_in self.now page) }
        ensures { IfOk result (λ frame. frame_in self.now page ≡ Some frame) }
    {
        // So that the proof knows the invariant: there are as many frames as pages.
        let _rights = &self.directory;
        match &self.frames[page.0 as usize] {
            Some(frame) => frame.copy(self.alloc),
            None => Frame::zero(self.alloc),
        }
    }

    /// Takes a frame of a page for the server. A frame of the page that it has stays.
    pub(crate) fn supply(&mut self, page: Page, frame: Frame)
        requires { page < length self.old.rights }
        ensures rights { self.new.rights ≡ self.old.rights }
        ensures frames { self.new.frames
            ≡ (if is_some
            (frame_in self.old page) then self.old.frames else slice_set self.old.frames page
            (Some frame)) }
    {
        // So that the proof knows the invariant: there are as many frames as pages.
        let _rights = &self.directory;
        let place = &mut self.frames[page.0 as usize];
        if place.is_none() {
            *place = Some(frame);
        }
    }

    /// Takes all rights of these clients away, without a hand-in. It goes over the pages once.
    pub(crate) fn revoke(&mut self, members: Crew)
        ensures count { length self.new.rights ≡ length self.old.rights }
        ensures rights { RevokesRights self.old.rights self.new.rights members }
        ensures holders { AreAllClients self.new.rights }
        ensures frames { self.new.frames ≡ self.old.frames }
    {
        self.directory.revoke(members);
    }

    /// Drops the server's frames of these pages.
    pub(crate) fn forget(&mut self, pages: &[Page])
        requires { (page : ℕ) → is_listed page pages.now ≡ true → page < length self.old.rights }
        ensures rights { self.new.rights ≡ self.old.rights }
        ensures count { length self.new.frames ≡ length self.old.frames }
        ensures frames { (page : ℕ) → frame_in self.new page
            ≡ (if is_listed page pages.now then None else frame_in self.old page) }
    {
        // So that the proof knows the invariant: there are as many frames as pages.
        let _rights = &self.directory;
        forget_each(&mut self.frames, pages);
    }

    /// Gives a client a right to a page, where nobody stands in the way.
    pub(crate) fn grant(&mut self, who: Who, want: Want)
        requires page { want.page < length self.old.rights }
        requires free { conflicts_at self.old.rights want.page who want.right ≡ [] }
        ensures count { length self.new.rights ≡ length self.old.rights }
        ensures rights { ChangesOneRight self.old.rights self.new.rights who want.page
            (Some (raised (right_at self.old.rights who want.page) want.right)) }
        ensures holders { AreAllClients self.new.rights }
        ensures frames { self.new.frames ≡ self.old.frames }
    {
        self.directory.grant(want.page, who, want.right);
    }

    /// Gives a page of a client up: wholly, or where it is kept, to the right to read. A page that was held for writing is handed in:
    /// the server's frame of it gets the words of the client's. It takes no memory.
    pub(crate) fn give_up(&mut self, who: Who, cache: &mut Cache, page: Page, keep: bool)
        requires page { page < length self.old.rights }
        requires held { IsSome (right_of page cache.old.held) }
        requires framed { right_at self.old.rights who page ≡ Some Right.Write
            → IsSome (frame_in self.old page) }
        requires kept { IsTrue keep → writer_at self.old.rights page ≡ Some who }
        ensures count { length self.new.rights ≡ length self.old.rights }
        ensures rights { ChangesOneRight self.old.rights self.new.rights who page
            (if keep then Some Right.Read else None) }
        ensures holders { AreAllClients self.new.rights }
        ensures frames { self.new.frames ≡ handed_in self.old who page cache.old.held }
        ensures cache { cache.new
            ≡ record cache.old {
              held =
                  (if keep then lowered page cache.old.held else others page cache.old.held);
            } }
    {
        if self.directory.writer(page) == Some(who) {
            let place = &mut self.frames[page.0 as usize];
            if let (Some(frame), Some(words)) = (place, cache.frame(page)) {
                frame.copy_from(words);
            }
        }
        if keep {
            self.directory.lower(page, who);
        } else {
            self.directory.release(page, who);
        }
        cache.give_up(page, keep);
    }
}

/// Takes the frame of each of these pages away.
fn forget_each(frames: &mut [Option<Frame>], pages: &[Page])
    requires { (page : ℕ) → is_listed page pages.now ≡ true → page < length frames.old }
    ensures count { length frames.new ≡ length frames.old }
    ensures forgotten { (page : ℕ) → slice_index_or frames.new page None
        ≡ (if is_listed page pages.now then None else slice_index_or frames.old page None) }
{
    for page in pages {
        frames[page.0 as usize] = None;
    }
}
