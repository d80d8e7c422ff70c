ghost use Rattle.std.specs.Prelude.{◌≡◌, ◌≤◌, [], replicate, None, IsTrue, IfOk, IfErr};
ghost use Rattle.casper_model.specs.State.{State, start};
ghost use Rattle.casper_core.specs.Shaped.{RepresentsButWords};
ghost use Rattle.casper_core.specs.Sound.{IsSound};
ghost use Rattle.casper_core.specs.Represents.{Represents};
ghost use Rattle.casper_core.specs.CoreView.{told_by};

use casper_cache::Cache;
use casper_disk::Vault;
use casper_hub::Hub;
use casper_model::Outcome;
use casper_trail::Mark;
use casper_words::{Memory, Who};
use std::alloc::Global;
use std::marker::Model;

/// A write-out that was made and is not finished: the lead of its association, and how it ended.
#[derive(Drop)]
pub(crate) struct Unfinished {
    pub(crate) lead: Who,
    pub(crate) outcome: Outcome,
}

impl Model for Unfinished {
    ghost use Rattle.casper_model.specs.State.{Unfinished as MachineUnfinished};

    ghost Value = { MachineUnfinished };

    ghost view = { λ own. record { lead = own.lead; outcome = own.outcome } };
}

/// What answers events one after another: the hub, a cache for each live client, the write-out that is unfinished, and the vault.
/// Contracts see these four, and what the vault tells of its image.
#[derive(Drop)]
pub struct Core<V: Vault> {
    pub(crate) alloc: Global,
    pub(crate) hub: Hub,
    pub(crate) caches: Vec<Option<Cache>>,
    pub(crate) vault: V,
    pub(crate) capacity: u32,
    pub(crate) unfinished: Option<Unfinished>,
    pub(crate) calls: u64,
}

impl<V: Vault> Model for Core<V> {
    ghost use Rattle.casper_core.specs.CoreView.{CoreView, told_by};

    ghost Value = { CoreView V };

    ghost use Rattle.casper_core.specs.Sound.{IsSound};

    ghost view = { λ core. record {
      hub = core.hub;
      caches = core.caches.items;
      capacity = core.capacity;
      unfinished = core.unfinished;
      calls = core.calls;
      vault = core.vault;
      size = V.size core.vault;
      told = told_by V.image V.version V.room V.doubt core.vault;
    } };

    ghost invariant = { λ core. IsSound (record {
      hub = core.hub;
      caches = core.caches.items;
      capacity = core.capacity;
      unfinished = core.unfinished;
      calls = core.calls;
      vault = core.vault;
      size = V.size core.vault;
      told = told_by V.image V.version V.room V.doubt core.vault;
    }) };
}

/// The places of the caches, all of them empty.
pub(crate) fn no_caches(alloc: Global) -> Result<Vec<Option<Cache>>, Memory>
    ensures { IfOk result (λ caches. caches.items ≡ replicate 33 None) }
{
    let mut caches = Vec::with_capacity(alloc, Who::PLACES)?;
    for _ in 0..Who::PLACES {
        caches.push(None)?;
    }
    Ok(caches)
}

impl<V: Vault> Core<V> {
    /// The core of a session that begins over a vault, with a trail of at most so many entries, and at most so many pages in each
    /// cache. The vault is given back where memory is short.
    pub fn new(alloc: Global, vault: V, limit: u32, capacity: u32) -> Result<Core<V>, (V, Memory)>
        requires sure { V.doubt vault ≡ None }
        requires pages { V.size vault ≤ 16384 }
        requires limit { limit ≤ 4194304 }
        requires least { 8 ≤ capacity }
        requires most { capacity ≤ 1024 }
        ensures stands { IsTrue V.tells
            → IfOk result (λ core. Represents (start core.told core.size limit capacity) core) }
        ensures shape { IfOk result
            (λ core. RepresentsButWords (start core.told core.size limit capacity) core) }
        ensures vault { IfOk result (λ core. core.vault ≡ vault) }
        ensures told { IfOk result (λ core. core.told
            ≡ told_by V.image V.version V.room V.doubt vault) }
        ensures size { IfOk result (λ core. core.size ≡ V.size vault) }
        ensures trail { IfOk result (λ core. core.hub.trail ≡ []) }
        ensures calls { IfOk result (λ core. core.calls ≡ 0) }
        ensures capacity { IfOk result (λ core. core.capacity ≡ capacity) }
        ensures returned { IfErr result (λ refusal. refusal.0 ≡ vault) }
        ensures sound { IfOk result (λ core. IsSound core) }
    {
        let _mark: Option<Mark> = None;
        let hub = match Hub::new(alloc, vault.pages(), limit) {
            Ok(hub) => hub,
            Err(memory) => return Err((vault, memory)),
        };
        let caches = match no_caches(alloc) {
            Ok(caches) => caches,
            Err(memory) => return Err((vault, memory)),
        };
        Ok(Core {
            alloc,
            hub,
            caches,
            vault,
            capacity,
            unfinished: None,
            calls: 0,
        })
    }

    /// The hub.
    pub fn hub(&self) -> &Hub
        ensures hub { result.now ≡ self.now.hub }
        ensures shape { (state : State) × RepresentsButWords state self.now }
        ensures sound { IsSound self.now }
    {
        &self.hub
    }

    /// How many reads and writes were completed since the core began. The number stays at the greatest of its type.
    pub fn calls(&self) -> u64
        ensures calls { result ≡ self.now.calls }
        ensures told { self.now.told
            ≡ told_by V.image V.version V.room V.doubt self.now.vault }
        ensures sound { IsSound self.now }
    {
        self.calls
    }

    /// The version of the vault's image.
    pub fn version(&self) -> u64
        ensures { result ≡ self.now.told.version }
    {
        self.vault.version()
    }

    /// The hub and the vault of a session that ends.
    pub fn into_parts(self) -> (Hub, V)
        ensures hub { result.0 ≡ self.hub }
        ensures vault { result.1 ≡ self.vault }
    {
        let Core { hub, vault, .. } = self;
        (hub, vault)
    }
}
