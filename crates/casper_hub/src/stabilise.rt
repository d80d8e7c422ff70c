ghost use Rattle.std.specs.Prelude.{◌≡◌, ◌≢◌, ◌<◌, ◌^◌, ℕ, List, Option, IfOk, OnErr, length};
ghost use Rattle.casper_trail.specs.declared.item.Item.{Item};
ghost use Rattle.casper_trail.specs.Clients.{AreOfClients};
ghost use Rattle.casper_dir.specs.Rights.{right_at};
ghost use Rattle.casper_cache.specs.Holding.{right_of};
ghost use Rattle.casper_assoc.specs.TrailAssociations.{AreAssociationsOf, pages_in};
ghost use Rattle.casper_gather.specs.UnendedLaws.{stabilisations_of};
ghost use Rattle.casper_frozen.specs.Bridge.{Keeps};
ghost use Rattle.casper_model.specs.Shared.{Shared};
ghost use Rattle.casper_model.specs.Stabilise.{stabilise as machine_stabilise};
ghost use Rattle.casper_turns.specs.Good.{IsGoodShared};
ghost use Rattle.casper_hub.specs.HubView.{ClientView};
ghost use Rattle.casper_hub.specs.HubFields.{hub_of};
ghost use Rattle.casper_hub.specs.Given.{Covers};
ghost use Rattle.casper_hub.specs.GoesOn.{KeepsClient, CommitsNothing};
ghost use Rattle.casper_hub.specs.Owned.{Owns};
ghost use Rattle.casper_hub.specs.Sound.{IsSound};
ghost use Rattle.casper_hub.specs.Stabilising.{Freezes, Stabilises};
ghost use Rattle.casper_hub.specs.Turns.{IsTurn};
ghost use Rattle.casper_hub.specs.Words.{FramesAreRight, CacheIsRight};

use crate::Hub;
use crate::hand_in::{hand_in, writers_among};
use crate::opening::{SPARE_MARKS, open_turn};
use crate::pages::Pages;
use casper_assoc::Associations;
use casper_cache::Cache;
use casper_frozen::{count_pages, member_of};
use casper_gather::{Stab, Unended, reply_of_kept};
use casper_model::{Kept, StabReply};
use casper_trail::Mark;
use casper_words::{Memory, Who};

impl Hub {
    /// A turn in which a live client wants its association stable. An outcome that was kept for it is told. Else it waits for the
    /// outcome of the stabilisation that it is a member of; where there is none it begins one: it hands in its pages, and each other
    /// member that holds a page for writing has to. One that had fallen is told of its fall instead. After Memory nothing has changed.
    pub fn stabilise(&mut self, who: Who, cache: &mut Cache) -> Result<StabReply, Memory>
        requires client { cache.old.client ≡ who }
        requires owns { Owns self.old cache.old }
        ensures turn { IfOk result
            (λ reply. IsTurn machine_stabilise reply self.old cache.old self.new cache.new) }
        ensures memory { OnErr result (self.new ≡ self.old) }
        ensures cache_stays { OnErr result (cache.new ≡ cache.old) }
        ensures owned { Owns self.new cache.new }
        ensures client_after { cache.new.client ≡ who }
        ensures frames { (base : List (List ℕ)) → FramesAreRight base self.old
            → CacheIsRight base self.old cache.old → FramesAreRight base self.new }
        ensures words { (base : List (List ℕ)) → FramesAreRight base self.old
            → CacheIsRight base self.old cache.old → CacheIsRight base self.new cache.new }
        ensures others { (other : ℕ) → other ≢ who → KeepsClient other self.old self.new }
        ensures still { CommitsNothing self.old self.new }
        ensures sound { IsSound self.new }
    {
        let _mark: Option<Mark> = None;
        if let Some(fall) = self.clients.fall(who) {
            let unrecorded = self.tell(who, cache, fall)?;
            return Ok(StabReply::RolledBack {
                mark: fall.mark,
                recorded: fall.dropped,
                unrecorded,
            });
        }
        self.unended.reserve()?;
        self.trail
            .reserve(cache.pending().as_slice().len() as u32 + SPARE_MARKS)?;
        let kept = self.clients.kept(who);
        open_turn(
            &mut self.trail,
            &mut self.associations,
            &mut self.unended,
            self.limit,
            &mut self.clients,
            &mut self.pages,
            who,
            cache,
        );
        let (unended, pages) = (&mut self.unended, &mut self.pages);
        let reply = stabilise_opened(&self.associations, unended, pages, who, cache, kept);
        Ok(reply)
    }
}

/// What a stabilising turn does once it has opened, by the outcome that was kept for the client. It takes no memory.
fn stabilise_opened(
    associations: &Associations,
    unended: &mut Unended,
    pages: &mut Pages,
    who: Who,
    cache: &mut Cache,
    kept: Option<Kept>,
) -> StabReply
    requires covers { Covers who pages.old cache.old.held }
    requires all { (page : ℕ) → right_at pages.old.rights who page ≡ right_of page cache.old.held }
    requires room { 0 < unended.old.room }
    requires short { pages_in associations.now < 2 ^ 32 }
    ensures stabilises { (shared : Shared) → Keeps unended.old associations.now shared → IsGoodShared shared
        → (limit : ℕ) (clients : List (Option ClientView)) → Stabilises who kept result
        (hub_of shared.trail limit (stabilisations_of unended.old.each) clients pages.old) cache.old
        (hub_of shared.trail limit (stabilisations_of unended.new.each) clients pages.new) cache.new }
    ensures pages { length pages.new.rights ≡ length pages.old.rights }
{
    let _stab: Option<Stab> = None;
    if let Some(outcome) = kept {
        return reply_of_kept(outcome);
    }
    if let Some(one) = member_of(unended, associations, who) {
        let mut asking = one;
        asking.ask(who);
        unended.change(asking);
        return one.progress();
    }
    freeze(associations, unended, pages, who, cache)
}

/// Hands in the pages of a client, and begins a stabilisation of its association, which it leads. It takes no memory.
fn freeze(
    associations: &Associations,
    unended: &mut Unended,
    pages: &mut Pages,
    who: Who,
    cache: &mut Cache,
) -> StabReply
    requires covers { Covers who pages.old cache.old.held }
    requires all { (page : ℕ) → right_at pages.old.rights who page ≡ right_of page cache.old.held }
    requires room { 0 < unended.old.room }
    requires short { pages_in associations.now < 2 ^ 32 }
    ensures freezes { (items : List Item) → AreOfClients items → AreAssociationsOf associations.now items
        → (limit : ℕ) (clients : List (Option ClientView)) → Freezes who result
        (hub_of items limit (stabilisations_of unended.old.each) clients pages.old) cache.old
        (hub_of items limit (stabilisations_of unended.new.each) clients pages.new) cache.new }
    ensures pages { length pages.new.rights ≡ length pages.old.rights }
{
    let _stab: Option<Stab> = None;
    hand_in(pages, who, cache);
    let members = associations.members(who);
    let awaited = writers_among(pages, members);
    let reply = if awaited.count() == 0 {
        StabReply::Sealed(count_pages(associations, members))
    } else {
        StabReply::Gathering(awaited)
    };
    unended.begin(Stab::begin(who, who.number(), awaited));
    reply
}
