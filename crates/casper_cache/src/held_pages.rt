ghost use Rattle.std.specs.Prelude.{◌≡◌, ◌+◌, ◌<◌, ◌≤◌, ◌↔◌, ◌∷◌, [], length, map, take, reverse, slice_get, Some, IsSome, IsNone, IsOk, IfSome, IfNone, IfOk, OnOk, OnErr, IfErr};
ghost use Rattle.std.specs.Option.{option_copied, option_map};
ghost use Rattle.casper_cache.specs.Holding.{right_of, words_of, word_of, others, front_of, written, graded, first_to_write, ArePagesDistinct};

use crate::held::Held;
use crate::leaf::Leaf;
use crate::pages::Pages;
use casper_words::{Frame, Memory, Page, Right};
use lru::LruCache;
use std::alloc::Global;
use std::marker::Model;
use std::num::NonZeroUsize;

/// Held pages, at most so many. Contracts see this bound, and the pages with their rights and words, the
/// most recently used first.
#[derive(Drop)]
pub struct HeldPages {
    leaves: LruCache<Page, Leaf>,
}

impl Model for HeldPages {
    ghost use Rattle.casper_cache.specs.Bounded.{Bounded};
    ghost use Rattle.casper_cache.specs.Holding.{ArePagesDistinct};
    ghost use Rattle.casper_cache.specs.Leaves.{shown};

    ghost Value = { Bounded };

    ghost view = { λ pages. record {
      most = pages.leaves.cap;
      held = shown pages.leaves.entries;
    } };

    ghost invariant = { λ pages. ArePagesDistinct (shown pages.leaves.entries) };
}

impl HeldPages {
    /// No page, and room for at most so many.
    pub fn new(alloc: Global, most: u32) -> Result<HeldPages, Memory>
        requires { 0 < most }
        ensures { IfOk result (λ pages. pages ≡ record { most = most; held = [] }) }
    {
        let most = NonZeroUsize::new(most as usize).unwrap();
        let leaves = LruCache::new(alloc, most)?;
        Ok(HeldPages { leaves })
    }

    /// The right to a page, where it is held.
    pub fn right(&self, page: Page) -> Option<Right>
        ensures { result ≡ right_of page self.now.held }
    {
        if let Some(leaf) = self.first(page) {
            return Some(leaf.right);
        }
        let leaf = self.leaves.peek(&page)?;
        Some(leaf.right)
    }

    /// What is held of a page, where it is the most recently used: most hits are on that one, and it needs
    /// no search.
    fn first(&self, page: Page) -> Option<&Leaf>
        ensures first { IfSome result (λ leaf. slice_get self.now.held 0
            ≡ Some (record { page = page; right = leaf.now.right; words = leaf.now.words })) }
        ensures distinct { ArePagesDistinct self.now.held }
    {
        let (first, leaf) = self.leaves.peek_mru()?;
        if *first == page { Some(leaf) } else { None }
    }

    /// The frame of a page, where it is held.
    pub fn frame(&self, page: Page) -> Option<&Frame>
        ensures { option_copied result ≡ words_of page self.now.held }
    {
        let leaf = self.leaves.peek(&page)?;
        Some(&leaf.words)
    }

    /// Reads a word, where the page is held: the page is then the most recently used. Otherwise None, and
    /// nothing has changed.
    pub fn read(&mut self, page: Page, word: u32) -> Option<u64>
        requires { word < 512 }
        ensures exactly { IsSome result ↔ IsSome (right_of page self.old.held) }
        ensures value { IfSome result (λ value. value ≡ word_of page word self.old.held) }
        ensures hit { IfSome result (λ value. self.new
            ≡ record self.old { held = front_of page self.old.held }) }
        ensures miss { IfNone result (self.new ≡ self.old) }
    {
        if let Some(leaf) = self.first(page) {
            return Some(leaf.words.get(word));
        }
        self.read_behind(page, word)
    }

    /// The same, wherever the page stands.
    fn read_behind(&mut self, page: Page, word: u32) -> Option<u64>
        requires { word < 512 }
        ensures exactly { IsSome result ↔ IsSome (right_of page self.old.held) }
        ensures value { IfSome result (λ value. value ≡ word_of page word self.old.held) }
        ensures hit { IfSome result (λ value. self.new
            ≡ record self.old { held = front_of page self.old.held }) }
        ensures miss { IfNone result (self.new ≡ self.old) }
    {
        let leaf = self.leaves.get(&page)?;
        Some(leaf.words.get(word))
    }

    /// Writes a word of a held page, which is then the most recently used.
    pub fn write(&mut self, page: Page, word: u32, value: u64)
        requires held { IsSome (right_of page self.old.held) }
        requires word { word < 512 }
        ensures { self.new ≡ record self.old { held = written page word value self.old.held } }
    {
        if let Some(_leaf) = self.first(page) {
            return self.write_first(page, word, value);
        }
        self.write_behind(page, word, value);
    }

    /// The same of the page that is the most recently used: it stays where it is.
    fn write_first(&mut self, page: Page, word: u32, value: u64)
        requires first { option_map (λ entry. entry.page) (slice_get self.old.held 0) ≡ Some page }
        requires word { word < 512 }
        ensures { self.new ≡ record self.old { held = written page word value self.old.held } }
    {
        if let Some(leaf) = self.leaves.peek_mut(&page) {
            leaf.words.set(word, value);
        }
    }

    /// The same, wherever the page stands.
    fn write_behind(&mut self, page: Page, word: u32, value: u64)
        requires held { IsSome (right_of page self.old.held) }
        requires word { word < 512 }
        ensures { self.new ≡ record self.old { held = written page word value self.old.held } }
    {
        if let Some(leaf) = self.leaves.get_mut(&page) {
            leaf.words.set(word, value);
        }
    }

    /// Holds a page in front of the others, which keep their order. A page that is held takes the new right
    /// and words, and this can't fail. For a page that is not, memory may be short: the entry is then given
    /// back, and nothing has changed.
    pub fn put(&mut self, entry: Held) -> Result<(), Held>
        requires { IsNone (right_of entry.page self.old.held)
            → length self.old.held < self.old.most }
        ensures ok { OnOk result (self.new
            ≡ record self.old { held = entry ∷ others entry.page self.old.held }) }
        ensures succeeds { IsSome (right_of entry.page self.old.held) → IsOk result }
        ensures err { OnErr result (self.new ≡ self.old) }
        ensures returned { IfErr result (λ refused. refused ≡ entry) }
    {
        let Held { page, right, words } = entry;
        match self.leaves.put(page, Leaf { right, words }) {
            Ok(_replaced) => Ok(()),
            Err(refused) => {
                let (page, Leaf { right, words }) = refused.value;
                Err(Held { page, right, words })
            }
        }
    }

    /// Makes a held page the most recently used.
    pub fn front(&mut self, page: Page)
        ensures { self.new ≡ record self.old { held = front_of page self.old.held } }
    {
        self.leaves.promote(&page);
    }

    /// Gives the right to a held page, which stays in its place.
    pub fn grade(&mut self, page: Page, right: Right)
        ensures { self.new ≡ record self.old { held = graded right page self.old.held } }
    {
        if let Some(leaf) = self.leaves.peek_mut(&page) {
            leaf.right = right;
        }
    }

    /// Holds a page no longer.
    pub fn remove(&mut self, page: Page)
        ensures { self.new ≡ record self.old { held = others page self.old.held } }
    {
        let _removed = self.leaves.pop(&page);
    }

    /// The page held for writing that was used last.
    pub fn first_to_write(&self) -> Option<Page>
        ensures { result ≡ first_to_write self.now.held }
    {
        let mut rest = self.leaves.iter();
        while let Some((page, leaf)) = rest.next() {
            if leaf.right == Right::Write {
                return Some(*page);
            }
        }
        None
    }

    /// How many pages are held.
    pub fn count(&self) -> usize
        ensures { result ≡ length self.now.held }
    {
        self.leaves.len()
    }

    /// The `count` least recently used pages, the least recent first, or all where fewer are held.
    pub fn last(&self, count: u32) -> Pages
        requires { count ≤ 4 }
        ensures { result ≡ take count (reverse (map (λ entry. entry.page) self.now.held)) }
    {
        let mut pages = Pages::new();
        let mut left = self.leaves.iter();
        for _ in 0..count {
            if let Some((page, _)) = left.next_back() {
                pages.push(*page);
            }
        }
        pages
    }

    /// Holds no page any more.
    pub fn clear(&mut self)
        ensures { self.new ≡ record self.old { held = [] } }
    {
        self.leaves.clear();
    }
}
