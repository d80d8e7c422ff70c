ghost use Rattle.std.specs.Prelude.{◌≡◌, ◌≢◌, ◌<◌, ◌≤◌, ℕ, List, None, IfOk, OnErr, Contains};
ghost use Rattle.casper_words.specs.Count.{FaultCountRose};
ghost use Rattle.casper_words.specs.Wants.{AreWants};
ghost use Rattle.casper_words.specs.declared.page.Want.{Want as AWant};
ghost use Rattle.casper_hub.specs.HubView.{page_count};
ghost use Rattle.casper_hub.specs.Owned.{Owns};
ghost use Rattle.casper_hub.specs.Sound.{IsSound};
ghost use Rattle.casper_core.specs.Acting.{KeepsHubRight, Holds};
ghost use Rattle.casper_core.specs.Loading.{OnlyReads, OnlyLoads, Acquired};

use crate::load::load;
use casper_cache::Cache;
use casper_disk::Vault;
use casper_hub::Hub;
use casper_model::Reply;
use casper_trail::Mark;
use casper_words::{Memory, Want, Who};
use std::alloc::Global;

/// The most turns that one acquire takes: one for each of four pages that has to be read, and one after them.
const MOST_TURNS: u32 = 5;

/// A turn in which a live client wants pages, and room for so many calls. A page that has to be read first is read, and the turn is
/// made after that. None where a page could not be read. Then, and after Memory, nothing has changed, but the server may have got
/// frames.
pub(crate) fn acquire<V: Vault>(
    alloc: Global,
    hub: &mut Hub,
    vault: &mut V,
    who: Who,
    cache: &mut Cache,
    wants: &[Want],
    calls: u32,
) -> Result<Option<Reply>, Memory>
    requires client { cache.old.client ≡ who }
    requires owns { Owns hub.old cache.old }
    requires wants { AreWants wants.now }
    requires range { (want : AWant) → Contains wants.now want → want.page < page_count hub.old }
    requires some { 1 ≤ calls }
    requires few { calls ≤ 4096 }
    requires size { V.size vault.old ≡ page_count hub.old }
    requires sound { IsSound hub.old }
    ensures turn { IfOk result
        (λ reply. Acquired hub.old cache.old wants.now calls reply hub.new cache.new) }
    ensures failed { IfOk result (λ reply. reply ≡ None
        → FaultCountRose (V.faults vault.old) (V.faults vault.new)) }
    ensures memory { OnErr result (OnlyLoads hub.old hub.new) }
    ensures cache_stays { OnErr result (cache.new ≡ cache.old) }
    ensures leaves { KeepsHubRight who V.tells (V.image vault.old) hub.old cache.old hub.new }
    ensures holds { Holds who V.tells (V.image vault.old) hub.old cache.old hub.new cache.new }
    ensures vault { OnlyReads V.tells V.size V.image V.version V.room V.doubt V.images_now V.moment
        V.images_since V.faults V.leads_to vault.old vault.new }
{
    let _mark: Option<Mark> = None;
    for _turn in 0..MOST_TURNS {
        match hub.acquire(who, cache, wants, calls)? {
            Reply::Load { page, marks } => {
                if !load(alloc, hub, vault, page, marks)? {
                    return Ok(None);
                }
            }
            reply => return Ok(Some(reply)),
        }
    }
    unreachable!()
}
