ghost use Rattle.std.specs.Prelude.{◌<◌, All, IsTrue};
ghost use Rattle.std.specs.List.Sorted.{IsStrictlyIncreasing};
ghost use Rattle.casper_disk.specs.Vault.{as_changes};
ghost use Rattle.casper_space.specs.Changes.{pages_of};

use crate::counted::Counted;
use crate::fault::Fault;
use casper_disk::{Disk, FileShelf, Shelf, Vault};
use casper_root::Header;
use casper_stable::Stable;
use casper_words::{Frame, Memory, Page};
use rand_core::SeedableRng;
use rand_core::utils::NextWord;
use rand_xoshiro::SplitMix64;
use std::alloc::Global;

/// Makes a store of the greatest sizes in a new file.
pub fn make(rt: &HostRuntime, file: &str) -> Result<(), Fault> {
    let alloc = rt.alloc();
    let name = file.as_bytes();
    let mut shelf = FileShelf::new(rt.clone()?);
    let disk = shelf.make(alloc, name, 5 + Header::MOST_FRAMES)?;
    match Stable::format(alloc, disk, Header::MOST_PAGES, Header::MOST_FRAMES) {
        Ok(stable) => {
            shelf.close(name, stable.into_disk());
            Ok(())
        }
        Err((_, fault)) => Err(Fault::Store(fault)),
    }
}

/// Commits so many random pages of the store in a file so many times, and tells the calls that its disk then got.
pub fn commit(rt: &HostRuntime, file: &str, pages: u32, commits: u32) -> Result<(), Fault> {
    let alloc = rt.alloc();
    let name = file.as_bytes();
    let mut shelf = FileShelf::new(rt.clone()?);
    let disk = Counted::new(shelf.open(alloc, name)?);
    let mut stable = match Stable::open(alloc, disk) {
        Ok(stable) => stable,
        Err((_, fault)) => return Err(Fault::Store(fault)),
    };
    commit_all(alloc, &mut stable, pages, commits)?;
    let used = stable.used();
    let disk = stable.into_disk();
    println!(rt;
        "pages={pages} commits={commits} reads={} writes={} syncs={} used={used}",
        disk.reads, disk.writes, disk.syncs
    )?;
    Ok(())
}

/// Commits so many random pages so many times.
fn commit_all<D: Disk>(
    alloc: Global,
    stable: &mut Stable<D>,
    pages: u32,
    commits: u32,
) -> Result<(), Fault> {
    let mut random = SplitMix64::seed_from_u64(stable.version());
    for _commit in 0..commits {
        let changes = draw(alloc, &mut random, pages, stable.pages())?;
        commit_drawn(alloc, stable, &changes)?;
    }
    Ok(())
}

/// Commits these pages.
fn commit_drawn<D: Disk>(
    alloc: Global,
    stable: &mut Stable<D>,
    changes: &[(Page, Frame)],
) -> Result<(), Fault> {
    if stable.in_doubt() || !are_rising(changes, stable.pages()) {
        return Err(Fault::Pages);
    }
    stable.commit(alloc, changes)?;
    Ok(())
}

/// So many pages of as many in all, one at random of each stretch, each with a random first word.
fn draw(
    alloc: Global,
    random: &mut SplitMix64,
    count: u32,
    all: u32,
) -> Result<Vec<(Page, Frame)>, Memory> {
    let stretch = all.checked_div(count).unwrap_or(0);
    let mut first = 0u32;
    let mut changes = Vec::with_capacity(alloc, count as usize)?;
    for _page in 0..count {
        let word = random.next_word();
        let step = word.checked_rem(u64::from(stretch)).unwrap_or(0);
        let step = u32::try_from(step).unwrap_or(0);
        let mut frame = Frame::zero(alloc)?;
        frame.set(0, word);
        changes.push((Page(first.saturating_add(step)), frame))?;
        first = first.saturating_add(stretch);
    }
    Ok(changes)
}

/// Whether the pages rise, and are all pages of a store of so many.
fn are_rising(changes: &[(Page, Frame)], pages: u32) -> bool
    ensures rising { IsTrue result → IsStrictlyIncreasing (pages_of (as_changes changes.now)) }
    ensures within { IsTrue result → All (λ change. change.0 < pages) changes.now }
{
    // Each page so far is below it.
    let mut least = 0;
    for (page, _frame) in changes {
        if page.0 < least || page.0 >= pages {
            return false;
        }
        least = page.0 + 1;
    }
    true
}
