ghost use Rattle.std.specs.Prelude.{◌≡◌, ◌<◌, ℕ, None, IfOk, OnErr, [], ◌∷◌};
ghost use Rattle.casper_words.specs.Count.{FaultCountRose};
ghost use Rattle.casper_words.specs.declared.page.Right.TheVariants as may;
ghost use Rattle.casper_space.specs.declared.answer.Answer.TheVariants as said;
ghost use Rattle.casper_model.specs.Step.{read_turn, write_turn};
ghost use Rattle.casper_hub.specs.HubView.{page_count};
ghost use Rattle.casper_hub.specs.Owned.{Owns};
ghost use Rattle.casper_hub.specs.Sound.{IsSound};
ghost use Rattle.casper_core.specs.Acting.{outside_of, RefinesTurn, KeepsHubRight, Holds};
ghost use Rattle.casper_core.specs.Loading.{OnlyReads, OnlyLoads};
ghost use Rattle.casper_core.specs.Shaped.{RefinesTurnButValues, read_with};

use crate::acquire::acquire;
use crate::answers::answer_of;
use casper_cache::Cache;
use casper_disk::Vault;
use casper_hub::Hub;
use casper_model::Reply;
use casper_space::Answer;
use casper_trail::Mark;
use casper_words::{Memory, Page, Right, Want, Who};
use std::alloc::Global;

/// A live client reads a word. Where that is no hit, it acquires the page with room for one call, and then reads. The answer is the
/// word's value, or the refusal of the acquire, or Disk where the page could not be read from the vault.
pub(crate) fn read<V: Vault>(
    alloc: Global,
    hub: &mut Hub,
    vault: &mut V,
    who: Who,
    cache: &mut Cache,
    page: Page,
    word: u32,
) -> Result<Answer, Memory>
    requires client { cache.old.client ≡ who }
    requires owns { Owns hub.old cache.old }
    requires page { page < page_count hub.old }
    requires word { word < 512 }
    requires size { V.size vault.old ≡ page_count hub.old }
    requires sound { IsSound hub.old }
    ensures makes { IfOk result
        (λ answer. RefinesTurnButValues who
        (read_with who page word) hub.old cache.old answer hub.new cache.new) }
    ensures does { IfOk result
        (λ answer. RefinesTurn who V.tells (V.image vault.old)
        (read_turn who page word) hub.old cache.old answer hub.new cache.new) }
    ensures failed { IfOk result (λ answer. answer ≡ said.Disk
        → FaultCountRose (V.faults vault.old) (V.faults vault.new)) }
    ensures memory { OnErr result (OnlyLoads hub.old hub.new) }
    ensures cache_stays { OnErr result (cache.new ≡ cache.old) }
    ensures leaves { KeepsHubRight who V.tells (V.image vault.old) hub.old cache.old hub.new }
    ensures holds { Holds who V.tells (V.image vault.old) hub.old cache.old hub.new cache.new }
    ensures vault { OnlyReads V.tells V.size V.image V.version V.room V.doubt V.images_now V.moment
        V.images_since V.faults V.leads_to vault.old vault.new }
{
    let _mark: Option<Mark> = None;
    if let Some(value) = cache.hit_read(page, word) {
        return Ok(Answer::Value(value));
    }
    let wants = [Want {
        page,
        right: Right::Read,
    }];
    let Some(reply) = acquire(alloc, hub, vault, who, cache, &wants, 1)? else {
        return Ok(Answer::Disk);
    };
    match reply {
        Reply::Granted => match cache.hit_read(page, word) {
            Some(value) => Ok(Answer::Value(value)),
            // A page that was granted with room for a call can be read.
            None => unreachable!(),
        },
        refused => Ok(answer_of(refused)),
    }
}

/// A live client writes a word. Where that is no hit, it acquires the page for writing with room for one call, and then writes. The
/// answer is Ok, or the refusal of the acquire, or Disk where the page could not be read from the vault.
pub(crate) fn write<V: Vault>(
    alloc: Global,
    hub: &mut Hub,
    vault: &mut V,
    who: Who,
    cache: &mut Cache,
    page: Page,
    word: u32,
    value: u64,
) -> Result<Answer, Memory>
    requires client { cache.old.client ≡ who }
    requires owns { Owns hub.old cache.old }
    requires page { page < page_count hub.old }
    requires word { word < 512 }
    requires size { V.size vault.old ≡ page_count hub.old }
    requires sound { IsSound hub.old }
    ensures makes { IfOk result
        (λ answer. RefinesTurnButValues who
        (λ answer. write_turn who page word value
        (outside_of answer)) hub.old cache.old answer hub.new cache.new) }
    ensures failed { IfOk result (λ answer. answer ≡ said.Disk
        → FaultCountRose (V.faults vault.old) (V.faults vault.new)) }
    ensures memory { OnErr result (OnlyLoads hub.old hub.new) }
    ensures cache_stays { OnErr result (cache.new ≡ cache.old) }
    ensures leaves { KeepsHubRight who V.tells (V.image vault.old) hub.old cache.old hub.new }
    ensures holds { Holds who V.tells (V.image vault.old) hub.old cache.old hub.new cache.new }
    ensures vault { OnlyReads V.tells V.size V.image V.version V.room V.doubt V.images_now V.moment
        V.images_since V.faults V.leads_to vault.old vault.new }
{
    let _mark: Option<Mark> = None;
    if cache.hit_write(page, word, value) {
        return Ok(Answer::Ok);
    }
    let wants = [Want {
        page,
        right: Right::Write,
    }];
    let Some(reply) = acquire(alloc, hub, vault, who, cache, &wants, 1)? else {
        return Ok(Answer::Disk);
    };
    match reply {
        Reply::Granted => {
            if cache.hit_write(page, word, value) {
                return Ok(Answer::Ok);
            }
            // A page that was granted with room for a call can be written.
            unreachable!()
        }
        refused => Ok(answer_of(refused)),
    }
}
