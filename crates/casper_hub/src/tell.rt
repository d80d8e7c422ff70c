ghost use Rattle.std.specs.Prelude.{◌≡◌, ◌≢◌, ℕ, List, Some, IfOk, OnOk, OnErr};
ghost use Rattle.casper_model.specs.Leave.{serve as machine_serve};
ghost use Rattle.casper_hub.specs.HubView.{fallen_in};
ghost use Rattle.casper_hub.specs.Places.{shown_fall};
ghost use Rattle.casper_hub.specs.Owned.{Owns};
ghost use Rattle.casper_hub.specs.Sound.{IsSound};
ghost use Rattle.casper_hub.specs.GoesOn.{KeepsClient, CommitsNothing};
ghost use Rattle.casper_hub.specs.Words.{FramesAreRight, CacheIsRight};
ghost use Rattle.casper_hub.specs.Turns.{IsTurn};

use crate::Hub;
use crate::clients::Fall;
use crate::opening::SPARE_MARKS;
use casper_cache::Cache;
use casper_model::Served;
use casper_trail::Mark;
use casper_words::{Memory, Who};

impl Hub {
    /// Tells a fallen client of its fall, whatever its turn is: its pages and its pending calls are dropped, and nothing of it is
    /// recorded. It gives how many calls were pending. After Memory nothing has changed.
    pub(crate) fn tell(&mut self, who: Who, cache: &mut Cache, fall: Fall) -> Result<u32, Memory>
        requires client { cache.old.client ≡ who }
        requires owns { Owns self.old cache.old }
        requires fallen { fallen_in self.old who ≡ Some (shown_fall fall) }
        ensures turn { IfOk result (λ unrecorded. IsTurn machine_serve
            (Served.RolledBack fall.mark fall.dropped unrecorded) self.old cache.old self.new
            cache.new) }
        ensures memory { OnErr result (self.new ≡ self.old) }
        ensures cache_stays { OnErr result (cache.new ≡ cache.old) }
        ensures owned { Owns self.new cache.new }
        ensures client_after { cache.new.client ≡ who }
        ensures frames { (base : List (List ℕ)) → FramesAreRight base self.old
            → FramesAreRight base self.new }
        ensures words { (base : List (List ℕ)) → CacheIsRight base self.old cache.old
            → CacheIsRight base self.new cache.new }
        ensures others { (other : ℕ) → other ≢ who → KeepsClient other self.old self.new }
        ensures still { CommitsNothing self.old self.new }
        ensures sound { IsSound self.new }
    {
        let _mark: Option<Mark> = None;
        self.trail.reserve(SPARE_MARKS)?;
        let unrecorded = cache.pending().as_slice().len() as u32;
        cache.clear();
        self.clients.rise(who);
        Ok(unrecorded)
    }
}
