ghost use Rattle.std.specs.Prelude.{◌≡◌, ◌≢◌, ◌+◌, ◌-◌, ◌<◌, ◌≤◌, ℕ, [], ◌++◌, length, take, IsSome, IfOk, OnOk, OnErr, Some, is_none, Contains};
ghost use Rattle.std.specs.Bool.{OnTrue, OnFalse};
ghost use Rattle.casper_words.specs.Crew.{IsClient};
ghost use Rattle.casper_words.specs.declared.page.Want.{Want as AWant};
ghost use Rattle.casper_trail.specs.TrailView.{entry_count};
ghost use Rattle.casper_trail.specs.Parts.{as_items};
ghost use Rattle.casper_model.specs.Acquire.{touches_by};
ghost use Rattle.casper_dir.specs.Rights.{right_at, conflicts_at, AreAllClients};
ghost use Rattle.casper_cache.specs.Holding.{right_of};
ghost use Rattle.casper_hub.specs.HubView.{frame_in};
ghost use Rattle.casper_hub.specs.Given.{Covers, GivesUp};
ghost use Rattle.casper_hub.specs.Installing.{with_page, with_pages, all_raised, all_granted, all_fronted};

use crate::pages::Pages;
use casper_cache::Cache;
use casper_trail::{Mark, Trail};
use casper_words::{Memory, Right, Want, Who};

/// Holds a wanted page in front, if it is not held, and tells whether it was not.
fn install_one(pages: &Pages, cache: &mut Cache, want: Want) -> Result<bool, Memory>
    requires page { want.page < length pages.now.rights }
    requires framed { IsSome (frame_in pages.now want.page) }
    requires few { length cache.old.held < cache.old.capacity + 4 }
    ensures ok { OnOk result (cache.new
        ≡ record cache.old { held = with_page pages.now cache.old.held want }) }
    ensures told { IfOk result (λ installed. installed
        ≡ is_none (right_of want.page cache.old.held)) }
    ensures err { OnErr result (cache.new ≡ cache.old) }
{
    if cache.right(want.page).is_some() {
        return Ok(false);
    }
    let frame = pages.copy(want.page)?;
    match cache.install(want.page, want.right, frame) {
        Ok(()) => Ok(true),
        Err((_frame, memory)) => Err(memory),
    }
}

/// Holds each wanted page, those in front that were not held. Where memory is short they are given up again, and nothing has changed.
pub(crate) fn install(pages: &Pages, cache: &mut Cache, wants: &[Want]) -> Result<(), Memory>
    requires pages { (want : AWant) → Contains wants.now want
        → want.page < length pages.now.rights }
    requires framed { (want : AWant) → Contains wants.now want
        → IsSome (frame_in pages.now want.page) }
    requires few { length cache.old.held + length wants.now ≤ cache.old.capacity + 4 }
    ensures ok { OnOk result (cache.new
        ≡ record cache.old { held = with_pages pages.now cache.old.held wants.now }) }
    ensures err { OnErr result (cache.new ≡ cache.old) }
{
    let [want, rest @ ..] = wants else {
        return Ok(());
    };
    let installed = install_one(pages, cache, *want)?;
    if let Err(memory) = install(pages, cache, rest) {
        if installed {
            cache.give_up(want.page, false);
        }
        return Err(memory);
    }
    Ok(())
}

/// Gives a client the rights that it wants and that its cache has room for already, and records a touch of each page.
pub(crate) fn grant(
    trail: &mut Trail,
    pages: &mut Pages,
    who: Who,
    cache: &mut Cache,
    missing: &[Want],
)
    requires room { length missing.now ≤ trail.old.room }
    requires limit { entry_count trail.old.items + length missing.now ≤ trail.old.limit }
    requires pages { (want : AWant) → Contains missing.now want
        → want.page < length pages.old.rights }
    requires held { (want : AWant) → Contains missing.now want
        → IsSome (right_of want.page cache.old.held) }
    requires free { (want : AWant) → Contains missing.now want
        → conflicts_at pages.old.rights want.page who want.right ≡ [] }
    ensures trail { trail.new.items ≡ trail.old.items ++ as_items (touches_by who missing.now) }
    ensures limit { trail.new.limit ≡ trail.old.limit }
    ensures room { trail.old.room ≡ trail.new.room + length missing.now }
    ensures count { length pages.new.rights ≡ length pages.old.rights }
    ensures rights { (page : ℕ)
        → right_at pages.new.rights who page
        ≡ all_granted page (right_at pages.old.rights who page) missing.now }
    ensures others { (client page : ℕ) → IsClient client → client ≢ who
        → right_at pages.new.rights client page ≡ right_at pages.old.rights client page }
    ensures holders { AreAllClients pages.old.rights → AreAllClients pages.new.rights }
    ensures frames { pages.new.frames ≡ pages.old.frames }
    ensures cache { cache.new ≡ record cache.old { held = all_raised cache.old.held missing.now } }
{
    let _mark: Option<Mark> = None;
    for want in missing {
        pages.grant(who, *want);
        trail.touch(who, want.page);
        if want.right == Right::Write {
            cache.raise(want.page);
        }
    }
}

/// Brings the wanted pages to the front, the last of them first.
pub(crate) fn bring_to_front(cache: &mut Cache, wants: &[Want])
    requires { (want : AWant) → Contains wants.now want
        → IsSome (right_of want.page cache.old.held) }
    ensures { cache.new ≡ record cache.old { held = all_fronted cache.old.held wants.now } }
{
    for want in wants {
        cache.front(want.page);
    }
}

/// Gives up wholly the page that was used longest ago, if there is one, and tells whether there was.
fn give_up_last(pages: &mut Pages, who: Who, cache: &mut Cache) -> bool
    requires covers { Covers who pages.old cache.old.held }
    requires all { (page : ℕ) → right_at pages.old.rights who page ≡ right_of page cache.old.held }
    ensures gives { GivesUp who pages.old cache.old.held pages.new cache.new.held }
    ensures all { (page : ℕ) → right_at pages.new.rights who page ≡ right_of page cache.new.held }
    ensures held { OnTrue result (cache.new.held
        ≡ take (length cache.old.held - 1) cache.old.held) }
    ensures fewer { OnTrue result (0 < length cache.old.held) }
    ensures none { OnFalse result (cache.old.held ≡ []) }
    ensures unchanged { OnFalse result (cache.new ≡ cache.old) }
    ensures rest { cache.new ≡ record cache.old { held = cache.new.held } }
{
    let last = cache.evict(1);
    let Some(page) = last.as_slice().first() else {
        return false;
    };
    pages.give_up(who, cache, *page, false);
    true
}

/// Gives up the pages that were used longest ago, until the capacity is kept.
pub(crate) fn shrink(pages: &mut Pages, who: Who, cache: &mut Cache)
    requires covers { Covers who pages.old cache.old.held }
    requires all { (page : ℕ) → right_at pages.old.rights who page ≡ right_of page cache.old.held }
    ensures gives { GivesUp who pages.old cache.old.held pages.new cache.new.held }
    ensures all { (page : ℕ) → right_at pages.new.rights who page ≡ right_of page cache.new.held }
    ensures cache { cache.new ≡ record cache.old { held = take cache.old.capacity cache.old.held } }
{
    while cache.over() > 0 {
        give_up_last(pages, who, cache);
    }
}

/// Gives up every page.
pub(crate) fn give_up_all(pages: &mut Pages, who: Who, cache: &mut Cache)
    requires covers { Covers who pages.old cache.old.held }
    requires all { (page : ℕ) → right_at pages.old.rights who page ≡ right_of page cache.old.held }
    ensures gives { GivesUp who pages.old cache.old.held pages.new cache.new.held }
    ensures all { (page : ℕ) → right_at pages.new.rights who page ≡ right_of page cache.new.held }
    ensures cache { cache.new ≡ record cache.old { held = [] } }
{
    while give_up_last(pages, who, cache) {}
}
