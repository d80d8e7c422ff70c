ghost use Rattle.std.specs.Prelude.{◌≡◌, ◌≢◌, ℕ, List, false, true, [], None, IfOk, OnOk, OnErr};
ghost use Rattle.casper_model.specs.Leave.{serve as machine_serve, depart as machine_depart};
ghost use Rattle.casper_hub.specs.HubView.{is_live as is_live_in};
ghost use Rattle.casper_hub.specs.Owned.{Owns};
ghost use Rattle.casper_hub.specs.Sound.{IsSound};
ghost use Rattle.casper_hub.specs.GoesOn.{KeepsClient, CommitsNothing};
ghost use Rattle.casper_hub.specs.Words.{FramesAreRight, CacheIsRight};
ghost use Rattle.casper_hub.specs.Turns.{IsTurn};

use crate::Hub;
use crate::install::give_up_all;
use crate::opening::{SPARE_MARKS, open_turn};
use casper_cache::Cache;
use casper_model::Served;
use casper_trail::Mark;
use casper_words::{Memory, Who};

impl Hub {
    /// A turn of a live client that does no more than open: its pending calls are recorded, its cap is topped up, and pages are given
    /// up to the asks of the others. One that had fallen is told of its fall instead. After Memory nothing has changed.
    pub fn serve(&mut self, who: Who, cache: &mut Cache) -> Result<Served, Memory>
        requires client { cache.old.client ≡ who }
        requires owns { Owns self.old cache.old }
        ensures turn { IfOk result
            (λ reply. IsTurn machine_serve reply self.old cache.old self.new cache.new) }
        ensures memory { OnErr result (self.new ≡ self.old) }
        ensures cache_stays { OnErr result (cache.new ≡ cache.old) }
        ensures owned { Owns self.new cache.new }
        ensures client_after { cache.new.client ≡ who }
        ensures frames { (base : List (List ℕ)) → FramesAreRight base self.old
            → CacheIsRight base self.old cache.old → FramesAreRight base self.new }
        ensures words { (base : List (List ℕ)) → FramesAreRight base self.old
            → CacheIsRight base self.old cache.old → CacheIsRight base self.new cache.new }
        ensures others { (other : ℕ) → other ≢ who → KeepsClient other self.old self.new }
        ensures still { CommitsNothing self.old self.new }
        ensures sound { IsSound self.new }
    {
        let _mark: Option<Mark> = None;
        if let Some(fall) = self.clients.fall(who) {
            let unrecorded = self.tell(who, cache, fall)?;
            return Ok(Served::RolledBack {
                mark: fall.mark,
                recorded: fall.dropped,
                unrecorded,
            });
        }
        self.trail
            .reserve(cache.pending().as_slice().len() as u32 + SPARE_MARKS)?;
        open_turn(
            &mut self.trail,
            &mut self.associations,
            &mut self.unended,
            self.limit,
            &mut self.clients,
            &mut self.pages,
            who,
            cache,
        );
        Ok(Served::Ok)
    }

    /// A turn in which a live client gives up every page and departs: it is absent after it. One that had fallen is told of its fall
    /// instead, and stays live. After Memory nothing has changed.
    pub fn depart(&mut self, who: Who, cache: &mut Cache) -> Result<Served, Memory>
        requires client { cache.old.client ≡ who }
        requires owns { Owns self.old cache.old }
        ensures turn { IfOk result
            (λ reply. IsTurn machine_depart reply self.old cache.old self.new cache.new) }
        ensures memory { OnErr result (self.new ≡ self.old) }
        ensures cache_stays { OnErr result (cache.new ≡ cache.old) }
        ensures absent { IfOk result (λ reply. reply ≡ Served.Ok
            → is_live_in self.new who ≡ false) }
        ensures stays { IfOk result (λ reply. reply ≢ Served.Ok → is_live_in self.new who ≡ true) }
        ensures owned { is_live_in self.new who ≡ true → Owns self.new cache.new }
        ensures client_after { cache.new.client ≡ who }
        ensures frames { (base : List (List ℕ)) → FramesAreRight base self.old
            → CacheIsRight base self.old cache.old → FramesAreRight base self.new }
        ensures words { (base : List (List ℕ)) → FramesAreRight base self.old
            → CacheIsRight base self.old cache.old → CacheIsRight base self.new cache.new }
        ensures others { (other : ℕ) → other ≢ who → KeepsClient other self.old self.new }
        ensures still { CommitsNothing self.old self.new }
        ensures sound { IsSound self.new }
    {
        let _mark: Option<Mark> = None;
        if let Some(fall) = self.clients.fall(who) {
            let unrecorded = self.tell(who, cache, fall)?;
            return Ok(Served::RolledBack {
                mark: fall.mark,
                recorded: fall.dropped,
                unrecorded,
            });
        }
        self.trail
            .reserve(cache.pending().as_slice().len() as u32 + SPARE_MARKS)?;
        open_turn(
            &mut self.trail,
            &mut self.associations,
            &mut self.unended,
            self.limit,
            &mut self.clients,
            &mut self.pages,
            who,
            cache,
        );
        give_up_all(&mut self.pages, who, cache);
        self.clients.leave(who);
        self.unended.forget(who);
        cache.allow(0);
        Ok(Served::Ok)
    }
}
