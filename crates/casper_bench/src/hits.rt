ghost use Rattle.std.specs.Prelude.{◌<◌};

use crate::fault::Fault;
use casper_cache::Cache;
use casper_words::{Frame, Memory, Page, Right, Who};
use rand_core::SeedableRng;
use rand_core::utils::NextWord;
use rand_xoshiro::SplitMix64;
use std::alloc::Global;
use std::collections::HashMap;
use std::time::Instant;

/// How many hits are timed at once: as many calls as a cache takes between turns.
const HITS: u32 = 4096;

/// The most pages that a cache holds between turns.
const MOST_PAGES: u32 = 1024;

/// The shortest time of so many hits, in nanoseconds.
#[derive(Clone, Copy)]
struct Least {
    reads: u128,
    writes: u128,
    map: u128,
}

/// Times read and write hits on pages drawn at random of so many, and look-ups of the same pages in a hash
/// map, so many rounds of each, and tells the shortest.
pub fn hits(rt: &HostRuntime, pages: u32, rounds: u32) -> Result<(), Fault> {
    if pages == 0 || pages > MOST_PAGES {
        return Err(Fault::Held);
    }
    let alloc = rt.alloc();
    let drawn = draw(alloc, pages)?;
    let mut cache = filled(alloc, pages)?;
    let map = mapped(alloc, pages)?;
    let mut sum = 0u64;
    let mut least = Least {
        reads: u128::MAX,
        writes: u128::MAX,
        map: u128::MAX,
    };
    for _round in 0..rounds {
        let start = Instant::now(rt)?;
        sum = sum.wrapping_add(read_all(&mut cache, &drawn));
        least.reads = least.reads.min(start.elapsed(rt)?.as_nanos());
        let start = Instant::now(rt)?;
        sum = sum.wrapping_add(write_all(&mut cache, &drawn));
        least.writes = least.writes.min(start.elapsed(rt)?.as_nanos());
        let start = Instant::now(rt)?;
        sum = sum.wrapping_add(find_all(&map, &drawn));
        least.map = least.map.min(start.elapsed(rt)?.as_nanos());
    }
    tell(rt, pages, least, sum)
}

/// Tells the time of one hit in picoseconds.
fn tell(rt: &HostRuntime, pages: u32, least: Least, sum: u64) -> Result<(), Fault> {
    let each = |time: u128| time.saturating_mul(1000) / u128::from(HITS);
    println!(rt;
        "pages={pages} read_ps={} write_ps={} map_ps={} sum={sum}",
        each(least.reads),
        each(least.writes),
        each(least.map)
    )?;
    Ok(())
}

/// As many pages as hits, each at random of so many.
fn draw(alloc: Global, pages: u32) -> Result<Vec<Page>, Memory> {
    let mut random = SplitMix64::seed_from_u64(u64::from(pages));
    let mut drawn = Vec::with_capacity(alloc, HITS as usize)?;
    for _hit in 0..HITS {
        let page = random.next_word().checked_rem(u64::from(pages));
        drawn.push(Page(u32::try_from(page.unwrap_or(0)).unwrap_or(0)))?;
    }
    Ok(drawn)
}

/// A cache that holds so many pages for writing.
fn filled(alloc: Global, pages: u32) -> Result<Cache, Memory> {
    let who = Who::new(1).ok_or(Memory)?;
    let mut cache = Cache::new(alloc, who, MOST_PAGES)?;
    cache.allow(HITS);
    for page in 0..pages {
        if cache.over() == 0 {
            let frame = Frame::zero(alloc)?;
            cache
                .install(Page(page), Right::Write, frame)
                .map_err(|refused| refused.1)?;
        }
    }
    Ok(cache)
}

/// A hash map with the frames of so many pages.
fn mapped(alloc: Global, pages: u32) -> Result<HashMap<Page, Frame>, Memory> {
    let mut map = HashMap::new(alloc);
    for page in 0..pages {
        map.insert(Page(page), Frame::zero(alloc)?)?;
    }
    Ok(map)
}

/// Reads one word of each page.
fn read_all(cache: &mut Cache, pages: &[Page]) -> u64 {
    cache.clear_pending();
    let mut sum = 0u64;
    for page in pages {
        let read = cache.hit_read(*page, word_of(*page));
        sum = sum.wrapping_add(read.unwrap_or(1));
    }
    sum
}

/// Writes one word of each page.
fn write_all(cache: &mut Cache, pages: &[Page]) -> u64 {
    cache.clear_pending();
    let mut sum = 0u64;
    for page in pages {
        let written = cache.hit_write(*page, word_of(*page), sum);
        sum = sum.wrapping_add(u64::from(written));
    }
    sum
}

/// Finds each page in the map, and reads the same word.
fn find_all(map: &HashMap<Page, Frame>, pages: &[Page]) -> u64 {
    let mut sum = 0u64;
    for page in pages {
        let found = map.get(page).map(|frame| frame.get(word_of(*page)));
        sum = sum.wrapping_add(found.unwrap_or(1));
    }
    sum
}

/// The word that is used of a page, always the same, so that the words stay in the processor's caches.
fn word_of(page: Page) -> u32
    ensures { result < 512 }
{
    page.0 & 511
}
