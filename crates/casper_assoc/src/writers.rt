ghost use Rattle.std.specs.Prelude.{◌≡◌, ◌<◌, ◌≤◌, ◌==◌, ◌+◌, ℕ, true, length, replicate, slice_index_or, option_map, Some, None, IfOk, if◌then◌else◌};
ghost use Rattle.std.specs.Option.{option_or};
ghost use Rattle.casper_words.specs.Roomed.{Roomed};
ghost use Rattle.casper_assoc.specs.Written.{is_listed, AreWrittenBy, ForgetsWriters, HaveRoom};

use casper_words::{Memory, Page, Series, Who};
use std::alloc::Global;
use std::marker::Model;

/// Which client labelled which page, both ways. Contracts see, for each page, the client that labelled it, if there is one.
#[derive(Drop)]
pub(crate) struct Writers {
    writers: Vec<Option<Who>>,
    lists: Vec<Series<Page>>,
}

impl Model for Writers {
    ghost use Rattle.std.specs.Prelude.{List, Option, ℕ};
    ghost use Rattle.casper_assoc.specs.Written.{AreLists};

    ghost Value = { List (Option ℕ) };

    ghost view = { λ writers. writers.writers.items };

    ghost invariant = { λ writers. AreLists writers.writers.items writers.lists.items };
}

impl Writers {
    /// So many pages, none of them labelled. No other call takes memory: each client's list has the memory for all pages.
    pub(crate) fn new(alloc: Global, pages: u32) -> Result<Writers, Memory>
        ensures { IfOk result (λ writers. writers ≡ replicate pages None) }
    {
        let writers = no_writers(alloc, pages)?;
        let lists = empty_lists(alloc, pages)?;
        Ok(Writers { writers, lists })
    }

    /// The client that labelled a page.
    pub(crate) fn writer(&self, page: Page) -> Option<Who>
        requires { page < length self.now }
        ensures { result ≡ slice_index_or self.now page None }
    {
        self.writers[page.0 as usize]
    }

    /// The pages that a client labelled, in the order in which it did.
    pub(crate) fn written(&self, who: Who) -> &[Page]
        ensures { AreWrittenBy self.now who result.now }
    {
        self.lists[who.number() as usize].as_slice()
    }

    /// Notes that a client labelled a page, where no client had.
    pub(crate) fn label(&mut self, page: Page, who: Who)
        requires { page < length self.old }
        ensures count { length self.new ≡ length self.old }
        ensures writers { (q : ℕ) → slice_index_or self.new q None
            ≡ (if q == page then option_or (slice_index_or self.old q None)
            (Some who) else slice_index_or self.old q None) }
    {
        let place = page.0 as usize;
        if self.writers[place].is_none() {
            let list = &mut self.lists[who.number() as usize];
            let _pushed = list.push(page);
            self.writers[place] = Some(who);
        }
    }

    /// Forgets which pages a client labelled. It goes over these pages alone.
    pub(crate) fn release(&mut self, who: Who)
        ensures count { length self.new ≡ length self.old }
        ensures writers { ForgetsWriters (λ writer. writer == who) self.old self.new }
    {
        let list = &mut self.lists[who.number() as usize];
        forget_writers(&mut self.writers, list.as_slice());
        list.clear();
    }
}

/// A place for each page, with no client in it.
fn no_writers(alloc: Global, pages: u32) -> Result<Vec<Option<Who>>, Memory>
    ensures { IfOk result (λ writers. writers.items ≡ replicate pages None) }
{
    let mut writers = Vec::with_capacity(alloc, pages as usize)?;
    for _page in 0..pages {
        writers.push(None)?;
    }
    Ok(writers)
}

/// An empty list for each place of a client, with memory for so many pages.
fn empty_lists(alloc: Global, pages: u32) -> Result<Vec<Series<Page>>, Memory>
    ensures { IfOk result (λ lists. HaveRoom pages lists.items) }
{
    let mut lists = Vec::with_capacity(alloc, Who::PLACES)?;
    for _client in 0..Who::PLACES {
        let mut list = Series::new(alloc);
        list.reserve(pages)?;
        lists.push(list)?;
    }
    Ok(lists)
}

/// Takes the client from each of these pages.
fn forget_writers(writers: &mut [Option<Who>], pages: &[Page])
    requires { (page : ℕ) → is_listed page pages.now ≡ true → page < length writers.old }
    ensures count { length writers.new ≡ length writers.old }
    ensures forgotten { (page : ℕ) → slice_index_or writers.new page None
        ≡ (if is_listed page pages.now then None else slice_index_or writers.old page None) }
{
    for page in pages {
        writers[page.0 as usize] = None;
    }
}
