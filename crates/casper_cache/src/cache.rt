ghost use Rattle.std.specs.Prelude.{◌≡◌, ◌+◌, ◌-◌, ◌<◌, ◌≤◌, ◌↔◌, ◌∷◌, ◌++◌, [], length, map, take, reverse, slice_index, unwrap_or, Some, IsSome, IsNone, IsTrue, IsOk, IfSome, IfNone, IfOk, OnOk, OnErr, IfErr, if◌then◌else◌};
ghost use Rattle.std.specs.Bool.{OnTrue, OnFalse};
ghost use Rattle.std.specs.Option.{option_copied};
ghost use Rattle.casper_cache.specs.Holding.{right_of, words_of, word_of, others, front_of, first_to_write, lowered, raised};
ghost use Rattle.casper_cache.specs.Own.{room_of, CanRead, CanWrite, after_read, after_write, IsSound};

use crate::held::Held;
use crate::held_pages::HeldPages;
use crate::pages::Pages;
use casper_words::{Call, Calls, Frame, Memory, Op, Page, Right, Who};
use std::alloc::Global;
use std::marker::Model;

/// How many calls may wait to be recorded.
const MOST_PENDING: u32 = 4096;

/// How many pages more than the capacity are held within a turn: as many as one grant installs.
const SPARE: u32 = 4;

/// One client's held pages, the most recently used first, and its calls that were not yet recorded.
/// Contracts see the client, the capacity in pages, the pages with their rights and words, the calls in
/// order, and the cap: how many of its entries the trail still takes.
#[derive(Drop)]
pub struct Cache {
    who: Who,
    capacity: u32,
    pages: HeldPages,
    pending: Calls,
    cap: u32,
}

impl Model for Cache {
    ghost use Rattle.std.specs.Prelude.{◌≡◌, ◌+◌, ◌≤◌, length};
    ghost use Rattle.casper_cache.specs.Own.{Own, IsSound};

    ghost Value = { Own };

    ghost view = { λ cache. record {
      client = cache.who;
      capacity = cache.capacity;
      held = cache.pages.held;
      pending = cache.pending.items;
      cap = cache.cap;
    } };

    ghost invariant = { λ cache. IsSound (record {
      client = cache.who;
      capacity = cache.capacity;
      held = cache.pages.held;
      pending = cache.pending.items;
      cap = cache.cap;
    }) × (4096 ≤ length cache.pending.items + cache.pending.room) × (cache.pages.most ≡ cache.capacity + 4) };
}

impl Cache {
    /// A cache with no page and no call, for at most `capacity` pages between turns. It may make no call
    /// before it is allowed some, and has the memory for 4,096.
    pub fn new(alloc: Global, who: Who, capacity: u32) -> Result<Cache, Memory>
        requires least { 8 ≤ capacity }
        requires most { capacity ≤ 1024 }
        ensures value { IfOk result (λ cache. cache
            ≡ record { client = who; capacity = capacity; held = []; pending = []; cap = 0 }) }
        ensures sound { IfOk result (λ cache. IsSound cache) }
    {
        let pages = HeldPages::new(alloc, capacity + SPARE)?;
        let mut pending = Calls::new(alloc);
        pending.reserve(MOST_PENDING)?;
        Ok(Cache {
            who,
            capacity,
            pages,
            pending,
            cap: 0,
        })
    }

    /// How many more calls it may make before its next turn.
    pub fn room(&self) -> u32
        ensures room { result ≡ room_of self.now }
        ensures sound { IsSound self.now }
    {
        self.cap.min(MOST_PENDING) - self.pending.as_slice().len() as u32
    }

    /// Lets it add this many entries to the trail in all, those of its pending calls included.
    pub fn allow(&mut self, cap: u32)
        requires { length self.old.pending ≤ cap }
        ensures allowed { self.new ≡ record self.old { cap = cap } }
        ensures sound { IsSound self.new }
    {
        self.cap = cap;
    }

    /// The right to a page, where it is held.
    pub fn right(&self, page: Page) -> Option<Right>
        ensures right { result ≡ right_of page self.now.held }
        ensures sound { IsSound self.now }
    {
        self.pages.right(page)
    }

    /// The page held for writing that was used last.
    pub fn first_to_write(&self) -> Option<Page>
        ensures first { result ≡ first_to_write self.now.held }
        ensures sound { IsSound self.now }
    {
        self.pages.first_to_write()
    }

    /// Reads a word, where the page is held and there is room for one call: the call is then pending, and
    /// the page is the most recently used. Otherwise None, and nothing has changed. It takes no memory.
    pub fn hit_read(&mut self, page: Page, word: u32) -> Option<u64>
        requires { word < 512 }
        ensures exactly { IsSome result ↔ CanRead self.old page }
        ensures value { IfSome result (λ value. value ≡ word_of page word self.old.held) }
        ensures hit { IfSome result (λ value. self.new
            ≡ after_read self.old
            (record { op = Op.Read; page = page; word = word; value = value })) }
        ensures miss { IfNone result (self.new ≡ self.old) }
        ensures sound { IsSound self.new }
    {
        if self.room() == 0 {
            return None;
        }
        let value = self.pages.read(page, word)?;
        let op = Op::Read;
        let read = Call {
            op,
            page,
            word,
            value,
        };
        append(&mut self.pending, read);
        Some(value)
    }

    /// Writes a word, where the page is held for writing and there is room for one call: the call is then
    /// pending, and the page is the most recently used. Otherwise false, and nothing has changed. It takes
    /// no memory.
    pub fn hit_write(&mut self, page: Page, word: u32, value: u64) -> bool
        requires { word < 512 }
        ensures exactly { IsTrue result ↔ CanWrite self.old page }
        ensures hit { OnTrue result (self.new
            ≡ after_write self.old
            (record { op = Op.Write; page = page; word = word; value = value })) }
        ensures miss { OnFalse result (self.new ≡ self.old) }
        ensures sound { IsSound self.new }
    {
        if self.pages.right(page) != Some(Right::Write) || self.room() == 0 {
            return false;
        }
        self.pages.write(page, word, value);
        let op = Op::Write;
        let write = Call {
            op,
            page,
            word,
            value,
        };
        append(&mut self.pending, write);
        true
    }

    /// Holds a page with this right and frame, in front of the others, which keep their order. A page that
    /// is held takes the new right and frame, and this can't fail. For a page that is not, memory may be
    /// short: the frame is then given back, and nothing has changed.
    pub fn install(&mut self, page: Page, right: Right, frame: Frame) -> Result<(), (Frame, Memory)>
        requires { IsNone (right_of page self.old.held)
            → length self.old.held < self.old.capacity + 4 }
        ensures ok { OnOk result (self.new
            ≡ record self.old {
              held =
                  (record { page = page; right = right; words = frame }) ∷ others page self.old.held;
            }) }
        ensures succeeds { IsSome (right_of page self.old.held) → IsOk result }
        ensures err { OnErr result (self.new ≡ self.old) }
        ensures returned { IfErr result (λ refusal. refusal.0 ≡ frame) }
        ensures sound { IsSound self.new }
    {
        let entry = Held {
            page,
            right,
            words: frame,
        };
        match self.pages.put(entry) {
            Ok(()) => Ok(()),
            Err(refused) => Err((refused.words, Memory)),
        }
    }

    /// Makes a held page the most recently used.
    pub fn front(&mut self, page: Page)
        requires { IsSome (right_of page self.old.held) }
        ensures front { self.new ≡ record self.old { held = front_of page self.old.held } }
        ensures sound { IsSound self.new }
    {
        self.pages.front(page);
    }

    /// The frame of a page, where it is held.
    pub fn frame(&self, page: Page) -> Option<&Frame>
        ensures frame { option_copied result ≡ words_of page self.now.held }
        ensures sound { IsSound self.now }
    {
        self.pages.frame(page)
    }

    /// The calls that were not yet recorded, in order.
    pub fn pending(&self) -> &Calls
        ensures { result.now.items ≡ self.now.pending }
    {
        &self.pending
    }

    /// Forgets the pending calls. The words that they wrote stay, and so does the memory for 4,096 calls.
    pub fn clear_pending(&mut self)
        ensures cleared { self.new ≡ record self.old { pending = [] } }
        ensures sound { IsSound self.new }
    {
        self.pending.clear();
    }

    /// Gives a held page up: wholly, or where it is kept, to the right to read, in its place.
    pub fn give_up(&mut self, page: Page, keep: bool)
        requires { IsSome (right_of page self.old.held) }
        ensures given { self.new
            ≡ record self.old {
              held =
                  (if keep then lowered page self.old.held else others page self.old.held);
            } }
        ensures sound { IsSound self.new }
    {
        if keep {
            self.pages.grade(page, Right::Read);
        } else {
            self.pages.remove(page);
        }
    }

    /// Lets a held page be written, in its place.
    pub fn raise(&mut self, page: Page)
        requires { IsSome (right_of page self.old.held) }
        ensures raised { self.new ≡ record self.old { held = raised page self.old.held } }
        ensures sound { IsSound self.new }
    {
        self.pages.grade(page, Right::Write);
    }

    /// How many more pages are held than the capacity, or 0.
    pub fn over(&self) -> u32
        ensures over { result ≡ length self.now.held - self.now.capacity }
        ensures sound { IsSound self.now }
    {
        self.pages.count().saturating_sub(self.capacity as usize) as u32
    }

    /// The `count` least recently used pages, the least recent first, or all where fewer are held.
    pub fn evict(&self, count: u32) -> Pages
        requires { count ≤ 4 }
        ensures { result ≡ take count (reverse (map (λ entry. entry.page) self.now.held)) }
    {
        self.pages.last(count)
    }

    /// Holds no page any more and forgets the pending calls. The memory for 4,096 calls stays.
    pub fn clear(&mut self)
        ensures cleared { self.new ≡ record self.old { held = []; pending = [] } }
        ensures sound { IsSound self.new }
    {
        self.pages.clear();
        self.clear_pending();
    }
}

/// Adds a call at the end of a list that has room for it. It takes no memory.
fn append(pending: &mut Calls, call: Call)
    requires { 0 < pending.old.room }
    ensures call { pending.new.items ≡ pending.old.items ++ call ∷ [] }
    ensures room { pending.old.room ≡ pending.new.room + 1 }
{
    // There is room, so the call is not given back.
    let _ = pending.push(call);
}

#[cfg(test)]
mod tests;
