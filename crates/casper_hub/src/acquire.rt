ghost use Rattle.std.specs.Prelude.{◌≡◌, ◌≢◌, ◌<◌, ◌≤◌, ◌+◌, ◌++◌, ℕ, List, length, None, IsSome, IfOk, OnOk, OnErr, Contains, option_map};
ghost use Rattle.casper_words.specs.Wants.{AreWants};
ghost use Rattle.casper_words.specs.declared.page.Want.{Want as AWant};
ghost use Rattle.casper_trail.specs.Calls.{entries_by};
ghost use Rattle.casper_trail.specs.Parts.{as_items};
ghost use Rattle.casper_model.specs.declared.reply.Reply.{Reply as AReply};
ghost use Rattle.casper_model.specs.declared.reply.Reply.TheVariants.{Granted};
ghost use Rattle.casper_model.specs.Acquire.{acquire as machine_acquire};
ghost use Rattle.casper_hub.specs.HubView.{page_count, free_in, fallen_in};
ghost use Rattle.casper_hub.specs.Owned.{Owns};
ghost use Rattle.casper_hub.specs.Sound.{IsSound};
ghost use Rattle.casper_hub.specs.GoesOn.{KeepsClient, CommitsNothing};
ghost use Rattle.casper_hub.specs.Words.{FramesAreRight, CacheIsRight};
ghost use Rattle.casper_hub.specs.Given.{topped};
ghost use Rattle.casper_frozen.specs.Refused.{reply_of, refused_at_once};
ghost use Rattle.casper_hub.specs.Deciding.{missing_in, lacking_in};
ghost use Rattle.casper_hub.specs.Stages.{CanGrant, gathering_in, part_of};
ghost use Rattle.casper_hub.specs.Turns.{IsTurn, IsRefused, Acquires};

use crate::Hub;
use crate::decide::{Decision, decide, missing_of, permits};
use crate::install::{bring_to_front, grant, install, shrink};
use crate::opening::{MOST_CAP, SPARE_MARKS, free_room, open, open_turn};
use casper_cache::Cache;
use casper_dir::FewWants;
use casper_frozen::{Refusal, gathering_of, refusal_of};
use casper_model::Reply;
use casper_trail::Mark;
use casper_words::{Memory, Want, Who};

impl Hub {
    /// A turn in which a live client wants pages, and room for so many calls. One that had fallen is told of its fall instead. Load comes exactly where it would be granted and the
    /// server has no frame of a missing page; then nothing has changed, and the page is to be read and supplied. After Memory nothing
    /// has changed.
    pub fn acquire(
        &mut self,
        who: Who,
        cache: &mut Cache,
        wants: &[Want],
        calls: u32,
    ) -> Result<Reply, Memory>
        requires client { cache.old.client ≡ who }
        requires owns { Owns self.old cache.old }
        requires wants { AreWants wants.now }
        requires range { (want : AWant) → Contains wants.now want
            → want.page < page_count self.old }
        requires some { 1 ≤ calls }
        requires few { calls ≤ 4096 }
        ensures turn { IfOk result
            (λ reply. Acquires self.old cache.old wants.now calls reply self.new cache.new) }
        ensures memory { OnErr result (self.new ≡ self.old) }
        ensures cache_stays { OnErr result (cache.new ≡ cache.old) }
        ensures owned { Owns self.new cache.new }
        ensures client_after { cache.new.client ≡ who }
        ensures frames { (base : List (List ℕ)) → FramesAreRight base self.old
            → CacheIsRight base self.old cache.old → FramesAreRight base self.new }
        ensures words { (base : List (List ℕ)) → FramesAreRight base self.old
            → CacheIsRight base self.old cache.old → CacheIsRight base self.new cache.new }
        ensures others { (other : ℕ) → other ≢ who → KeepsClient other self.old self.new }
        ensures still { CommitsNothing self.old self.new }
        ensures sound { IsSound self.new }
    {
        let _mark: Option<Mark> = None;
        if let Some(fall) = self.clients.fall(who) {
            let unrecorded = self.tell(who, cache, fall)?;
            return Ok(Reply::RolledBack {
                mark: fall.mark,
                recorded: fall.dropped,
                unrecorded,
            });
        }
        if gathering_of(&self.unended, &self.associations, who).is_some() {
            self.acquire_gathering(who, cache, wants, calls)
        } else {
            self.acquire_apart(who, cache, wants, calls)
        }
    }

    /// Makes the turn of an acquire of a client whose association is not gathering.
    fn acquire_apart(
        &mut self,
        who: Who,
        cache: &mut Cache,
        wants: &[Want],
        calls: u32,
    ) -> Result<Reply, Memory>
        requires client { cache.old.client ≡ who }
        requires owns { Owns self.old cache.old }
        requires wants { AreWants wants.now }
        requires range { (want : AWant) → Contains wants.now want
            → want.page < page_count self.old }
        requires some { 1 ≤ calls }
        requires few { calls ≤ 4096 }
        requires up { fallen_in self.old who ≡ None }
        requires apart { gathering_in self.old who ≡ None }
        ensures turn { IfOk result
            (λ reply. Acquires self.old cache.old wants.now calls reply self.new cache.new) }
        ensures memory { OnErr result (self.new ≡ self.old) }
        ensures cache_stays { OnErr result (cache.new ≡ cache.old) }
        ensures owned { Owns self.new cache.new }
        ensures client_after { cache.new.client ≡ who }
        ensures frames { (base : List (List ℕ)) → FramesAreRight base self.old
            → CacheIsRight base self.old cache.old → FramesAreRight base self.new }
        ensures words { (base : List (List ℕ)) → FramesAreRight base self.old
            → CacheIsRight base self.old cache.old → CacheIsRight base self.new cache.new }
        ensures others { (other : ℕ) → other ≢ who → KeepsClient other self.old self.new }
        ensures still { CommitsNothing self.old self.new }
        ensures sound { IsSound self.new }
    {
        let _mark: Option<Mark> = None;
        if let Some(refusal) = self.refusal(who, wants) {
            self.refuse(who, cache, FewWants::none())?;
            return Ok(refusal.reply());
        }
        let pending = cache.pending().as_slice().len() as u32;
        let free = free_room(&self.trail, self.limit, &self.clients);
        let cap = MOST_CAP.min(self.clients.cap(who) - pending + free);
        match decide(&self.pages, &self.clients, who, wants, calls, cap) {
            Decision::Load(page) => Ok(Reply::Load {
                page,
                marks: self.trail.commits(),
            }),
            Decision::Pending(blockers, blocked) => {
                self.refuse(who, cache, blocked)?;
                Ok(Reply::Pending(blockers))
            }
            Decision::Full => {
                self.refuse(who, cache, FewWants::none())?;
                Ok(Reply::TrailFull(self.trail.entries()))
            }
            Decision::Grant(missing) => {
                self.grant(who, cache, wants, &missing)?;
                Ok(Reply::Granted)
            }
        }
    }

    /// What an acquire of a client whose association is not gathering is refused with at once: its association, or that of a missing page,
    /// is frozen or in doubt.
    fn refusal(&self, who: Who, wants: &[Want]) -> Option<Refusal>
        requires few { length wants.now ≤ 4 }
        requires range { (want : AWant) → Contains wants.now want
            → want.page < page_count self.now }
        ensures { option_map reply_of result ≡ refused_at_once (part_of self.now) who
            (missing_in self.now.pages self.now.clients who wants.now) }
    {
        if self.unended.each().is_empty() {
            return None;
        }
        let missing = missing_of(&self.pages, &self.clients, who, wants);
        refusal_of(&self.unended, &self.associations, who, missing.as_slice())
    }

    /// Makes the turn of an acquire of a member of a gathering association. The member hands in, and what it then lacks is frozen or in
    /// doubt.
    fn acquire_gathering(
        &mut self,
        who: Who,
        cache: &mut Cache,
        wants: &[Want],
        calls: u32,
    ) -> Result<Reply, Memory>
        requires client { cache.old.client ≡ who }
        requires owns { Owns self.old cache.old }
        requires wants { AreWants wants.now }
        requires range { (want : AWant) → Contains wants.now want
            → want.page < page_count self.old }
        requires some { 1 ≤ calls }
        requires few { calls ≤ 4096 }
        requires up { fallen_in self.old who ≡ None }
        requires gathers { IsSome (gathering_in self.old who) }
        ensures turn { IfOk result
            (λ reply. Acquires self.old cache.old wants.now calls reply self.new cache.new) }
        ensures memory { OnErr result (self.new ≡ self.old) }
        ensures cache_stays { OnErr result (cache.new ≡ cache.old) }
        ensures owned { Owns self.new cache.new }
        ensures client_after { cache.new.client ≡ who }
        ensures frames { (base : List (List ℕ)) → FramesAreRight base self.old
            → CacheIsRight base self.old cache.old → FramesAreRight base self.new }
        ensures words { (base : List (List ℕ)) → FramesAreRight base self.old
            → CacheIsRight base self.old cache.old → CacheIsRight base self.new cache.new }
        ensures others { (other : ℕ) → other ≢ who → KeepsClient other self.old self.new }
        ensures still { CommitsNothing self.old self.new }
        ensures sound { IsSound self.new }
    {
        let _mark: Option<Mark> = None;
        // So that the proof knows that the hub is sound.
        let _limit = self.limit;
        self.refuse(who, cache, FewWants::none())?;
        let missing = lacking(cache, wants);
        let refusal = refusal_of(&self.unended, &self.associations, who, missing.as_slice());
        if let Some(refusal) = refusal {
            return Ok(refusal.reply());
        }
        if self.clients.cap(who) < calls {
            return Ok(Reply::TrailFull(self.trail.entries()));
        }
        bring_to_front(cache, wants);
        Ok(Reply::Granted)
    }

    /// Opens the turn of an acquire that is refused, and keeps what is asked for.
    fn refuse(&mut self, who: Who, cache: &mut Cache, asks: FewWants) -> Result<(), Memory>
        requires client { cache.old.client ≡ who }
        requires owns { Owns self.old cache.old }
        requires up { fallen_in self.old who ≡ None }
        requires range { (ask : AWant) → Contains asks ask → ask.page < page_count self.old }
        requires refused { (wants : List AWant) × (calls : ℕ) × (reply : AReply)
            × IsRefused self.old cache.old wants calls reply asks }
        ensures turn { OnOk result ((wants : List AWant) (calls : ℕ) (reply : AReply)
            → IsRefused self.old cache.old wants calls reply asks
            → IsTurn
            (λ shared own. machine_acquire shared own wants calls) reply self.old cache.old self.new
            cache.new) }
        ensures trail { OnOk result (self.new.trail
            ≡ self.old.trail ++ as_items (entries_by who cache.old.pending)) }
        ensures stays_up { OnOk result (fallen_in self.new who ≡ None) }
        ensures count { OnOk result (page_count self.new ≡ page_count self.old) }
        ensures memory { OnErr result (self.new ≡ self.old) }
        ensures cache_stays { OnErr result (cache.new ≡ cache.old) }
        ensures owned { Owns self.new cache.new }
        ensures client_after { cache.new.client ≡ who }
        ensures frames { (base : List (List ℕ)) → FramesAreRight base self.old
            → CacheIsRight base self.old cache.old → FramesAreRight base self.new }
        ensures words { (base : List (List ℕ)) → FramesAreRight base self.old
            → CacheIsRight base self.old cache.old → CacheIsRight base self.new cache.new }
        ensures others { (other : ℕ) → other ≢ who → KeepsClient other self.old self.new }
        ensures still { CommitsNothing self.old self.new }
        ensures sound { IsSound self.new }
    {
        let _mark: Option<Mark> = None;
        self.trail
            .reserve(cache.pending().as_slice().len() as u32 + SPARE_MARKS)?;
        open_turn(
            &mut self.trail,
            &mut self.associations,
            &mut self.unended,
            self.limit,
            &mut self.clients,
            &mut self.pages,
            who,
            cache,
        );
        self.clients.set_asks(who, asks);
        Ok(())
    }

    /// Makes the turn of an acquire that is granted, with these of its wants missing.
    fn grant(
        &mut self,
        who: Who,
        cache: &mut Cache,
        wants: &[Want],
        missing: &FewWants,
    ) -> Result<(), Memory>
        requires client { cache.old.client ≡ who }
        requires owns { Owns self.old cache.old }
        requires wants { AreWants wants.now }
        requires range { (want : AWant) → Contains wants.now want
            → want.page < page_count self.old }
        requires up { fallen_in self.old who ≡ None }
        requires apart { gathering_in self.old who ≡ None }
        requires free { refused_at_once (part_of self.old) who
            (missing_in self.old.pages self.old.clients who wants.now) ≡ None }
        requires grants { CanGrant who self.old cache.old wants.now missing.now }
        ensures turn { OnOk result ((calls : ℕ)
            → length missing.now + calls ≤ topped cache.old (free_in self.old)
            → Acquires self.old cache.old wants.now calls Granted self.new cache.new) }
        ensures memory { OnErr result (self.new ≡ self.old) }
        ensures cache_stays { OnErr result (cache.new ≡ cache.old) }
        ensures owned { Owns self.new cache.new }
        ensures client_after { cache.new.client ≡ who }
        ensures frames { (base : List (List ℕ)) → FramesAreRight base self.old
            → CacheIsRight base self.old cache.old → FramesAreRight base self.new }
        ensures words { (base : List (List ℕ)) → FramesAreRight base self.old
            → CacheIsRight base self.old cache.old → CacheIsRight base self.new cache.new }
        ensures others { (other : ℕ) → other ≢ who → KeepsClient other self.old self.new }
        ensures still { CommitsNothing self.old self.new }
        ensures sound { IsSound self.new }
    {
        let _mark: Option<Mark> = None;
        let missing = missing.as_slice();
        let pending = cache.pending().as_slice().len() as u32;
        self.trail
            .reserve(pending + missing.len() as u32 + SPARE_MARKS)?;
        install(&self.pages, cache, missing)?;
        open(
            &mut self.trail,
            &mut self.associations,
            &self.unended,
            self.limit,
            &mut self.clients,
            &mut self.pages,
            who,
            cache,
        );
        self.associations.touch_each(who, missing);
        grant(&mut self.trail, &mut self.pages, who, cache, missing);
        let cap = self.clients.cap(who) - missing.len() as u32;
        self.clients.set_cap(who, cap);
        self.clients.set_asks(who, FewWants::none());
        cache.allow(cap);
        bring_to_front(cache, wants);
        shrink(&mut self.pages, who, cache);
        Ok(())
    }
}

/// The wants that a cache does not hold with at least their right.
fn lacking(cache: &Cache, wants: &[Want]) -> FewWants
    requires { length wants.now ≤ 4 }
    ensures { result ≡ lacking_in cache.now.held wants.now }
{
    let mut lacking = FewWants::none();
    for want in wants {
        if !permits(cache.right(want.page), want.right) {
            lacking.push(*want);
        }
    }
    lacking
}
