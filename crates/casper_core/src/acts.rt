ghost use Rattle.std.specs.Prelude.{◌≡◌, ◌<◌, ℕ, None, IfOk, OnErr, [], ◌∷◌};
ghost use Rattle.casper_words.specs.Count.{FaultCountRose};
ghost use Rattle.casper_space.specs.declared.answer.Answer.TheVariants as said;
ghost use Rattle.casper_model.specs.Step.{read_turn, write_turn, acquire_turn, serve_turn};
ghost use Rattle.casper_model.specs.Turn.{within, is_in_range, are_in_range};
ghost use Rattle.casper_hub.specs.HubView.{page_count};
ghost use Rattle.casper_hub.specs.Owned.{Owns};
ghost use Rattle.casper_hub.specs.Sound.{IsSound};
ghost use Rattle.casper_core.specs.Acting.{outside_of, RefinesTurn, KeepsHubRight, Holds};
ghost use Rattle.casper_core.specs.ClientTurns.{IsTurnOf, client_turn};
ghost use Rattle.casper_core.specs.Loading.{OnlyReads, OnlyLoads};
ghost use Rattle.casper_core.specs.Shaped.{RefinesTurnButValues, read_with, client_turn_with};

use crate::acquire::acquire;
use crate::answers::{answer_of, answer_of_lose, answer_of_serve, answer_of_stabilise};
use crate::calls::{read, write};
use casper_cache::Cache;
use casper_disk::Vault;
use casper_hub::Hub;
use casper_model::Event;
use casper_space::Answer;
use casper_trail::Mark;
use casper_words::{Frame, Memory, Page, Wants, Who};
use std::alloc::Global;

/// A read, of a word within the store.
fn read_within<V: Vault>(
    alloc: Global,
    hub: &mut Hub,
    vault: &mut V,
    who: Who,
    cache: &mut Cache,
    page: Page,
    word: u32,
) -> Result<Answer, Memory>
    requires client { cache.old.client ≡ who }
    requires owns { Owns hub.old cache.old }
    requires size { V.size vault.old ≡ page_count hub.old }
    requires sound { IsSound hub.old }
    ensures makes { IfOk result
        (λ answer. RefinesTurnButValues who
        (λ answer. within (is_in_range page word)
        (read_with who page word answer)) hub.old cache.old answer hub.new cache.new) }
    ensures does { IfOk result
        (λ answer. RefinesTurn who V.tells (V.image vault.old)
        (λ outside. within (is_in_range page word)
        (read_turn who page word outside)) hub.old cache.old answer hub.new cache.new) }
    ensures failed { IfOk result (λ answer. answer ≡ said.Disk
        → FaultCountRose (V.faults vault.old) (V.faults vault.new)) }
    ensures memory { OnErr result (OnlyLoads hub.old hub.new) }
    ensures cache_stays { OnErr result (cache.new ≡ cache.old) }
    ensures leaves { KeepsHubRight who V.tells (V.image vault.old) hub.old cache.old hub.new }
    ensures holds { Holds who V.tells (V.image vault.old) hub.old cache.old hub.new cache.new }
    ensures vault { OnlyReads V.tells V.size V.image V.version V.room V.doubt V.images_now V.moment
        V.images_since V.faults V.leads_to vault.old vault.new }
{
    let _mark: Option<Mark> = None;
    if page.0 >= vault.pages() || word >= Frame::WORDS {
        return Ok(Answer::Range);
    }
    read(alloc, hub, vault, who, cache, page, word)
}

/// A write, of a word within the store.
fn write_within<V: Vault>(
    alloc: Global,
    hub: &mut Hub,
    vault: &mut V,
    who: Who,
    cache: &mut Cache,
    page: Page,
    word: u32,
    value: u64,
) -> Result<Answer, Memory>
    requires client { cache.old.client ≡ who }
    requires owns { Owns hub.old cache.old }
    requires size { V.size vault.old ≡ page_count hub.old }
    requires sound { IsSound hub.old }
    ensures makes { IfOk result
        (λ answer. RefinesTurnButValues who
        (λ answer. within (is_in_range page word)
        (write_turn who page word value
        (outside_of answer))) hub.old cache.old answer hub.new cache.new) }
    ensures failed { IfOk result (λ answer. answer ≡ said.Disk
        → FaultCountRose (V.faults vault.old) (V.faults vault.new)) }
    ensures memory { OnErr result (OnlyLoads hub.old hub.new) }
    ensures cache_stays { OnErr result (cache.new ≡ cache.old) }
    ensures leaves { KeepsHubRight who V.tells (V.image vault.old) hub.old cache.old hub.new }
    ensures holds { Holds who V.tells (V.image vault.old) hub.old cache.old hub.new cache.new }
    ensures vault { OnlyReads V.tells V.size V.image V.version V.room V.doubt V.images_now V.moment
        V.images_since V.faults V.leads_to vault.old vault.new }
{
    let _mark: Option<Mark> = None;
    if page.0 >= vault.pages() || word >= Frame::WORDS {
        return Ok(Answer::Range);
    }
    write(alloc, hub, vault, who, cache, page, word, value)
}

/// An acquire, of pages within the store.
fn acquire_within<V: Vault>(
    alloc: Global,
    hub: &mut Hub,
    vault: &mut V,
    who: Who,
    cache: &mut Cache,
    wants: &Wants,
) -> Result<Answer, Memory>
    requires client { cache.old.client ≡ who }
    requires owns { Owns hub.old cache.old }
    requires size { V.size vault.old ≡ page_count hub.old }
    requires sound { IsSound hub.old }
    ensures makes { IfOk result
        (λ answer. RefinesTurnButValues who
        (λ answer. within (are_in_range wants.now)
        (acquire_turn who wants.now
        (outside_of answer))) hub.old cache.old answer hub.new cache.new) }
    ensures failed { IfOk result (λ answer. answer ≡ said.Disk
        → FaultCountRose (V.faults vault.old) (V.faults vault.new)) }
    ensures memory { OnErr result (OnlyLoads hub.old hub.new) }
    ensures cache_stays { OnErr result (cache.new ≡ cache.old) }
    ensures leaves { KeepsHubRight who V.tells (V.image vault.old) hub.old cache.old hub.new }
    ensures holds { Holds who V.tells (V.image vault.old) hub.old cache.old hub.new cache.new }
    ensures vault { OnlyReads V.tells V.size V.image V.version V.room V.doubt V.images_now V.moment
        V.images_since V.faults V.leads_to vault.old vault.new }
{
    let _mark: Option<Mark> = None;
    let pages = vault.pages();
    let wants = wants.as_slice();
    if !wants.iter().all(|want| want.page.0 < pages) {
        return Ok(Answer::Range);
    }
    let Some(reply) = acquire(alloc, hub, vault, who, cache, wants, 1)? else {
        return Ok(Answer::Disk);
    };
    Ok(answer_of(reply))
}

/// A turn of a live client: a read, a write, an acquire, a serve, a stabilise, or that another declares it lost. After Memory nothing
/// has changed, but the server may have got frames.
pub(crate) fn act<V: Vault>(
    alloc: Global,
    hub: &mut Hub,
    vault: &mut V,
    who: Who,
    cache: &mut Cache,
    event: &Event,
) -> Result<Answer, Memory>
    requires turn { IsTurnOf who event.now }
    requires client { cache.old.client ≡ who }
    requires owns { Owns hub.old cache.old }
    requires size { V.size vault.old ≡ page_count hub.old }
    requires sound { IsSound hub.old }
    ensures makes { IfOk result
        (λ answer. RefinesTurnButValues who
        (client_turn_with who event.now) hub.old cache.old answer hub.new cache.new) }
    ensures does { IfOk result
        (λ answer. RefinesTurn who V.tells (V.image vault.old)
        (client_turn who event.now) hub.old cache.old answer hub.new cache.new) }
    ensures failed { IfOk result (λ answer. answer ≡ said.Disk
        → FaultCountRose (V.faults vault.old) (V.faults vault.new)) }
    ensures memory { OnErr result (OnlyLoads hub.old hub.new) }
    ensures cache_stays { OnErr result (cache.new ≡ cache.old) }
    ensures leaves { KeepsHubRight who V.tells (V.image vault.old) hub.old cache.old hub.new }
    ensures holds { Holds who V.tells (V.image vault.old) hub.old cache.old hub.new cache.new }
    ensures vault { OnlyReads V.tells V.size V.image V.version V.room V.doubt V.images_now V.moment
        V.images_since V.faults V.leads_to vault.old vault.new }
{
    let _mark: Option<Mark> = None;
    match event {
        Event::Read(_, page, word) => read_within(alloc, hub, vault, who, cache, *page, *word),
        Event::Write(_, page, word, value) => {
            write_within(alloc, hub, vault, who, cache, *page, *word, *value)
        }
        Event::Acquire(_, wants) => acquire_within(alloc, hub, vault, who, cache, wants),
        Event::Serve(_) => Ok(answer_of_serve(hub.serve(who, cache)?)),
        Event::Stabilise(_) => Ok(answer_of_stabilise(hub.stabilise(who, cache)?)),
        Event::Lose(_) => Ok(answer_of_lose(hub.lose(who))),
        _ => unreachable!(),
    }
}
