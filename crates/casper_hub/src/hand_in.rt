ghost use Rattle.std.specs.Prelude.{◌≡◌, ◌&&◌, ℕ, length, map};
ghost use Rattle.casper_words.specs.Crew.{has_member, crew_of};
ghost use Rattle.casper_dir.specs.Rights.{right_at, writes_some};
ghost use Rattle.casper_cache.specs.Holding.{right_of, with_right};
ghost use Rattle.casper_model.specs.Opening.{gathering_of as machine_gathering_of};
ghost use Rattle.casper_model.specs.Shared.{Shared};
ghost use Rattle.casper_turns.specs.Good.{IsGoodShared};
ghost use Rattle.casper_frozen.specs.Bridge.{Keeps};
ghost use Rattle.casper_hub.specs.Given.{Covers, GivesUp, lowered_right};
ghost use Rattle.casper_hub.specs.Handing.{HandsInTheirPages};

use crate::pages::Pages;
use casper_assoc::Associations;
use casper_cache::Cache;
use casper_frozen::gathering_of;
use casper_gather::{Stab, Unended};
use casper_words::{Crew, Right, Who};

/// Hands in each page that a client holds for writing. The client keeps all its pages, for reading. It takes no memory.
pub(crate) fn hand_in(pages: &mut Pages, who: Who, cache: &mut Cache)
    requires covers { Covers who pages.old cache.old.held }
    requires all { (page : ℕ) → right_at pages.old.rights who page ≡ right_of page cache.old.held }
    ensures gives { GivesUp who pages.old cache.old.held pages.new cache.new.held }
    ensures all { (page : ℕ) → right_at pages.new.rights who page ≡ right_of page cache.new.held }
    ensures rights { (page : ℕ) → right_at pages.new.rights who page
        ≡ lowered_right (right_at pages.old.rights who page) }
    ensures cache { cache.new
        ≡ record cache.old { held = map (with_right Right.Read) cache.old.held } }
{
    while let Some(page) = cache.first_to_write() {
        pages.give_up(who, cache, page, true);
    }
}

/// Hands in where the client's association is gathering, which then no longer awaits the client. It takes no memory.
pub(crate) fn hand_in_to_gathering(
    associations: &Associations,
    unended: &mut Unended,
    pages: &mut Pages,
    who: Who,
    cache: &mut Cache,
)
    requires covers { Covers who pages.old cache.old.held }
    requires all { (page : ℕ) → right_at pages.old.rights who page ≡ right_of page cache.old.held }
    ensures handed { (shared : Shared) → Keeps unended.old associations.now shared → IsGoodShared shared
        → HandsInTheirPages who (machine_gathering_of shared who) unended.old pages.old cache.old
        unended.new pages.new cache.new }
    ensures count { length unended.new.each ≡ length unended.old.each }
    ensures room { unended.new.room ≡ unended.old.room }
    ensures pages { length pages.new.rights ≡ length pages.old.rights }
    ensures all { (page : ℕ) → right_at pages.new.rights who page ≡ right_of page cache.new.held }
    ensures covers { Covers who pages.new cache.new.held }
{
    let _stab: Option<Stab> = None;
    let Some(gathering) = gathering_of(unended, associations, who) else {
        return;
    };
    hand_in(pages, who, cache);
    let mut handed = gathering;
    handed.handed(who);
    unended.change(handed);
}

/// The members that hold a page for writing. It goes over all pages once.
pub(crate) fn writers_among(pages: &Pages, members: Crew) -> Crew
    ensures { result
        ≡ crew_of (λ member. has_member member members && writes_some pages.now.rights member) }
{
    let others = members.minus(pages.writers());
    members.minus(others)
}
