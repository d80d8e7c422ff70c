ghost use Rattle.std.specs.Prelude.{◌≡◌, ◌≢◌, ◌<◌, ◌≤◌, ℕ, [], List, true, false, ◌==◌, None, IfOk, OnOk, OnErr, IsSome};
ghost use Rattle.casper_trail.specs.TrailView.{commit_count};
ghost use Rattle.casper_model.specs.Shared.{new_shared};
ghost use Rattle.casper_hub.specs.HubView.{is_live as is_live_in, cap_in, frame_in, page_count};
ghost use Rattle.casper_hub.specs.Owned.{Owns, new_cache};
ghost use Rattle.casper_hub.specs.Shows.{Shows};
ghost use Rattle.casper_hub.specs.Sound.{IsSound};
ghost use Rattle.casper_hub.specs.GoesOn.{KeepsClient, CommitsNothing};
ghost use Rattle.casper_hub.specs.Words.{FramesAreRight, IsStored};
ghost use Rattle.casper_hub.specs.Turns.{Joins};

use crate::clients::Clients;
use crate::opening::{MOST_CAP, SPARE_MARKS, free_room};
use crate::pages::Pages;
use casper_assoc::Associations;
use casper_gather::Unended;
use casper_model::JoinRefusal;
use casper_trail::{Mark, Trail};
use casper_words::{Frame, Memory, Page, Who};
use std::alloc::Global;
use std::marker::Model;

/// What the server keeps for all clients together. Contracts see the machine's shared part, the rights as those of each client to
/// each page, and the pages of which the server has frames.
#[derive(Drop)]
pub struct Hub {
    pub(crate) trail: Trail,
    pub(crate) limit: u32,
    pub(crate) clients: Clients,
    pub(crate) associations: Associations,
    pub(crate) unended: Unended,
    pub(crate) pages: Pages,
}

impl Model for Hub {
    ghost use Rattle.std.specs.Prelude.{◌≡◌};
    ghost use Rattle.casper_hub.specs.HubView.{HubView};

    ghost Value = { HubView };

    ghost use Rattle.casper_gather.specs.UnendedLaws.{stabilisations_of};
    ghost use Rattle.casper_hub.specs.HubFields.{hub_of};
    ghost use Rattle.casper_hub.specs.Sound.{IsSound};
    ghost use Rattle.casper_hub.specs.Keeping.{IsKeptUp};

    ghost view = { λ hub. hub_of hub.trail.items hub.limit (stabilisations_of hub.unended.each) hub.clients hub.pages };

    ghost invariant = { λ hub. IsSound (hub_of hub.trail.items hub.limit (stabilisations_of hub.unended.each) hub.clients hub.pages)
        × IsKeptUp hub.trail hub.limit hub.associations hub.clients hub.unended.each hub.pages };
}

impl Hub {
    /// The hub of a session that begins: a store of so many pages, a trail of at most so many entries, nobody live, and no frame.
    pub fn new(alloc: Global, pages: u32, limit: u32) -> Result<Hub, Memory>
        ensures shows { IfOk result (λ hub. Shows (new_shared pages limit) hub) }
        ensures absent { IfOk result (λ hub. (who : ℕ) → is_live_in hub who ≡ false) }
        ensures frames { IfOk result (λ hub. (base : List (List ℕ)) → FramesAreRight base hub) }
        ensures unframed { IfOk result (λ hub. (page : ℕ) → frame_in hub.pages page ≡ None) }
        ensures trail { IfOk result (λ hub. hub.trail ≡ []) }
        ensures pages { IfOk result (λ hub. page_count hub ≡ pages) }
        ensures sound { IfOk result (λ hub. IsSound hub) }
    {
        let clients = Clients::new(alloc)?;
        let associations = Associations::new(alloc, pages)?;
        let pages = Pages::new(alloc, pages)?;
        Ok(Hub {
            trail: Trail::new(alloc, limit),
            limit,
            clients,
            associations,
            unended: Unended::new(alloc),
            pages,
        })
    }

    /// Makes a client live, and promises it 4,100 entries, or as many as there is free room for. Busy where it is live,
    /// TrailFull with the number of entries where there is no free room; then, and after Memory, nothing has changed.
    pub fn join(&mut self, who: Who) -> Result<(), JoinRefusal>
        ensures turn { Joins who result self.old self.new }
        ensures live { OnOk result (is_live_in self.new who ≡ true) }
        ensures owned { OnOk result ((capacity : ℕ) → 8 ≤ capacity → capacity ≤ 1024
            → Owns self.new (new_cache who capacity (cap_in self.new who))) }
        ensures refused { OnErr result (self.new ≡ self.old) }
        ensures others { (other : ℕ) → other ≢ who → KeepsClient other self.old self.new }
        ensures still { CommitsNothing self.old self.new }
        ensures frames { (base : List (List ℕ)) → FramesAreRight base self.old
            → FramesAreRight base self.new }
        ensures sound { IsSound self.new }
    {
        // So that the proof knows the bounds of the number.
        let _number = who.number();
        if self.clients.is_live(who) {
            return Err(JoinRefusal::Busy);
        }
        let free = free_room(&self.trail, self.limit, &self.clients);
        if free == 0 {
            return Err(JoinRefusal::TrailFull(self.trail.entries()));
        }
        if self.trail.reserve(SPARE_MARKS).is_err() {
            return Err(JoinRefusal::Memory);
        }
        self.clients.join(who, MOST_CAP.min(free));
        Ok(())
    }

    /// Takes a frame of a page, read from the vault when so many commit marks stood in the trail. False, with nothing changed,
    /// exactly where that is no longer their number. A frame of the page that the server has stays.
    pub fn supply(&mut self, page: Page, marks: u64, frame: Frame) -> Result<bool, Memory>
        requires { page < page_count self.old }
        ensures answer { IfOk result (λ taken. taken ≡ (commit_count self.old.trail == marks)) }
        ensures memory { OnErr result (self.new ≡ self.old) }
        ensures refused { IfOk result (λ taken. taken ≡ false → self.new ≡ self.old) }
        ensures framed { IfOk result (λ taken. taken ≡ true
            → IsSome (frame_in self.new.pages page)) }
        ensures stays { (other : ℕ) → IsSome (frame_in self.old.pages other)
            → frame_in self.new.pages other ≡ frame_in self.old.pages other }
        ensures but_frames { self.new
            ≡ record self.old { pages = record self.old.pages { frames = self.new.pages.frames } } }
        ensures frames { (base : List (List ℕ))
            → (marks ≡ commit_count self.old.trail → IsStored base self.old page frame)
            → FramesAreRight base self.old → FramesAreRight base self.new }
        ensures others { (other : ℕ) → KeepsClient other self.old self.new }
        ensures still { CommitsNothing self.old self.new }
        ensures sound { IsSound self.new }
    {
        if self.trail.commits() != marks {
            return Ok(false);
        }
        self.pages.supply(page, frame);
        Ok(true)
    }

    /// Whether a client is live.
    pub fn is_live(&self, who: Who) -> bool
        ensures { result ≡ is_live_in self.now who }
    {
        self.clients.is_live(who)
    }

    /// How many more entries are promised to a client, 0 where it is not live.
    pub fn cap(&self, who: Who) -> u32
        ensures { result ≡ cap_in self.now who }
    {
        self.clients.cap(who)
    }

    /// The trail of the session.
    pub fn trail(&self) -> &Trail
        ensures items { result.now.items ≡ self.now.trail }
        ensures limit { result.now.limit ≡ self.now.limit }
    {
        &self.trail
    }

    /// The trail of a session that has ended.
    pub fn into_trail(self) -> Trail
        ensures items { result.items ≡ self.trail }
        ensures limit { result.limit ≡ self.limit }
    {
        let Hub { trail, .. } = self;
        trail
    }
}

#[cfg(test)]
mod tests;
