ghost use Rattle.std.specs.Prelude.{◌≡◌, ◌≢◌, ◌+◌, ◌-◌, ◌<◌, ◌≤◌, ◌^◌, ℕ, [], ◌∷◌, ◌++◌, length, slice_set, Some, None, Contains};
ghost use Rattle.std.specs.List.{list_any};
ghost use Rattle.casper_words.specs.declared.page.Want.{Want as AnAsk};
ghost use Rattle.casper_trail.specs.TrailView.{entry_count};
ghost use Rattle.casper_trail.specs.Clients.{AreOfClients};
ghost use Rattle.casper_trail.specs.Parts.{as_items};
ghost use Rattle.casper_trail.specs.Calls.{entries_by};
ghost use Rattle.casper_dir.specs.Rights.{right_at};
ghost use Rattle.casper_model.specs.Held.{is_to_write};
ghost use Rattle.casper_model.specs.Opening.{any_right};
ghost use Rattle.casper_hub.specs.HubView.{ClientView, place_in, cap_of, begun_with, asks_of, caps_of, fall_of};
ghost use Rattle.casper_cache.specs.Own.{IsSound as IsSoundCache};
ghost use Rattle.casper_gather.specs.UnendedLaws.{stabilisations_of};
ghost use Rattle.casper_hub.specs.HubFields.{hub_of};
ghost use Rattle.casper_hub.specs.Sound.{IsSound};
ghost use Rattle.casper_hub.specs.Owned.{Owns};
ghost use Rattle.casper_hub.specs.Stages.{Opens, OpensTurn};
ghost use Rattle.casper_assoc.specs.TrailAssociations.{AreAssociationsOf, CallsAreWithin, RecordsCalls, open_calls_of, pages_in};
ghost use Rattle.casper_hub.specs.Keeping.{MayBeRecorded};
ghost use Rattle.casper_hub.specs.Asks.{are_for};
ghost use Rattle.casper_hub.specs.Given.{Covers, Meets, topped, asked_below};

use crate::clients::Clients;
use crate::hand_in::hand_in_to_gathering;
use crate::pages::Pages;
use casper_assoc::Associations;
use casper_cache::Cache;
use casper_gather::Unended;
use casper_trail::{Mark, Trail};
use casper_words::{Right, Want, Who};

/// How many entries are promised to a client at the most.
pub(crate) const MOST_CAP: u32 = 4100;

/// So many marks the trail has room for after each turn, one for each client and one for each stabilisation, so that neither a loss nor
/// a finish takes memory.
pub(crate) const SPARE_MARKS: u32 = 2 * Who::PLACES as u32;

/// How many entries may still be promised, of so many that the trail may have.
pub(crate) fn free_room(trail: &Trail, limit: u32, clients: &Clients) -> u32
    requires { entry_count trail.now.items + caps_of clients.now ≤ limit }
    ensures { result ≡ limit - entry_count trail.now.items - caps_of clients.now }
{
    let _mark: Option<Mark> = None;
    let promised = clients.promised();
    limit - trail.entries() - promised as u32
}

/// Records the pending calls of a client, in order, and tops its cap up as far as the free room allows. It takes no memory.
fn record(
    trail: &mut Trail,
    associations: &mut Associations,
    clients: &mut Clients,
    who: Who,
    cache: &mut Cache,
    free: u32,
)
    requires room { length cache.old.pending ≤ trail.old.room }
    requires limit { entry_count trail.old.items + length cache.old.pending ≤ trail.old.limit }
    requires cap { cap_of (place_in clients.old who) ≡ cache.old.cap }
    requires pending { length cache.old.pending ≤ cache.old.cap }
    requires fits { cache.old.cap + free < 2 ^ 32 }
    requires within { CallsAreWithin associations.old cache.old.pending }
    requires count { open_calls_of associations.old who + length cache.old.pending < 2 ^ 32 }
    ensures associations { RecordsCalls associations.old associations.new who cache.old.pending }
    ensures pages { pages_in associations.new ≡ pages_in associations.old }
    ensures trail { trail.new.items
        ≡ trail.old.items ++ as_items (entries_by who cache.old.pending) }
    ensures limit { trail.new.limit ≡ trail.old.limit }
    ensures room { trail.old.room ≡ trail.new.room + length cache.old.pending }
    ensures clients { clients.new
        ≡ slice_set clients.old who (begun_with (topped cache.old free) (place_in clients.old who)) }
    ensures cache { cache.new ≡ record cache.old { pending = []; cap = topped cache.old free } }
{
    let _mark: Option<Mark> = None;
    let count = cache.pending().as_slice().len() as u32;
    associations.record(who, cache.pending().as_slice());
    trail.push_all(who, cache.pending());
    cache.clear_pending();
    let cap = MOST_CAP.min(clients.cap(who) - count + free);
    clients.begin(who, cap);
    cache.allow(cap);
}

/// Gives a page of a client up to an ask of another: wholly to one that asks to write it, and else to reading.
fn meet(pages: &mut Pages, who: Who, cache: &mut Cache, ask: Want)
    requires covers { Covers who pages.old cache.old.held }
    requires page { ask.page < length pages.old.rights }
    ensures meets { Meets who (are_for is_to_write (ask ∷ []))
        (are_for any_right (ask ∷ [])) pages.old cache.old.held pages.new cache.new.held }
    ensures rest { cache.new ≡ record cache.old { held = cache.new.held } }
{
    if let Some(right) = pages.right(who, ask.page) {
        match ask.right {
            Right::Write => pages.give_up(who, cache, ask.page, false),
            Right::Read => match right {
                Right::Write => pages.give_up(who, cache, ask.page, true),
                Right::Read => {}
            },
        }
    }
}

/// The same for each of these asks.
fn meet_each(pages: &mut Pages, who: Who, cache: &mut Cache, asks: &[Want])
    requires covers { Covers who pages.old cache.old.held }
    requires asked { (ask : AnAsk) → Contains asks.now ask → ask.page < length pages.old.rights }
    ensures meets { Meets who (are_for is_to_write asks.now)
        (are_for any_right asks.now) pages.old cache.old.held pages.new cache.new.held }
    ensures rest { cache.new ≡ record cache.old { held = cache.new.held } }
{
    for ask in asks {
        meet(pages, who, cache, *ask);
    }
}

/// The same for the asks of all other clients.
fn meet_all(pages: &mut Pages, clients: &Clients, who: Who, cache: &mut Cache)
    requires covers { Covers who pages.old cache.old.held }
    requires asked { (other : ℕ) (ask : AnAsk) → Contains (asks_of (place_in clients.now other)) ask
        → ask.page < length pages.old.rights }
    ensures meets { Meets who (asked_below 33 is_to_write clients.now who)
        (asked_below 33 any_right clients.now who) pages.old cache.old.held pages.new cache.new.held }
    ensures rest { cache.new ≡ record cache.old { held = cache.new.held } }
{
    for number in 1..Who::MOST + 1 {
        if let Some(other) = Who::new(number) {
            if other != who {
                meet_each(pages, who, cache, clients.asks_of(other));
            }
        }
    }
}

/// Opens a turn of a client: its pending calls are recorded, its cap is topped up, and pages are given up to the asks of the others.
/// It takes no memory.
pub(crate) fn open(
    trail: &mut Trail,
    associations: &mut Associations,
    unended: &Unended,
    limit: u32,
    clients: &mut Clients,
    pages: &mut Pages,
    who: Who,
    cache: &mut Cache,
)
    requires sound { IsSound (hub_of trail.old.items limit (stabilisations_of unended.now.each) clients.old pages.old) }
    requires limit { trail.old.limit ≡ limit }
    requires own { IsSoundCache cache.old }
    requires cap { cap_of (place_in clients.old who) ≡ cache.old.cap }
    requires covers { Covers who pages.old cache.old.held }
    requires room { length cache.old.pending ≤ trail.old.room }
    requires kept { AreAssociationsOf associations.old trail.old.items }
    requires pages { pages_in associations.old ≡ length pages.old.rights }
    requires calls { MayBeRecorded trail.old.items pages.old who cache.old.pending }
    ensures associations { AreAssociationsOf associations.new trail.new.items }
    ensures clients { AreOfClients trail.new.items }
    ensures pages_stay { pages_in associations.new ≡ pages_in associations.old }
    ensures opens { Opens who (hub_of trail.old.items limit (stabilisations_of unended.now.each) clients.old pages.old) cache.old
        (hub_of trail.new.items limit (stabilisations_of unended.now.each) clients.new pages.new) cache.new }
    ensures limit { trail.new.limit ≡ trail.old.limit }
    ensures room { trail.old.room ≡ trail.new.room + length cache.old.pending }
    ensures own { IsSoundCache cache.new }
{
    let free = free_room(trail, limit, clients);
    record(trail, associations, clients, who, cache, free);
    meet_all(pages, clients, who, cache);
}

/// Opens a turn of a client that owns its cache and has not fallen, and hands in where the client's association is gathering. It takes no
/// memory.
pub(crate) fn open_turn(
    trail: &mut Trail,
    associations: &mut Associations,
    unended: &mut Unended,
    limit: u32,
    clients: &mut Clients,
    pages: &mut Pages,
    who: Who,
    cache: &mut Cache,
)
    requires sound { IsSound
        (hub_of trail.old.items limit (stabilisations_of unended.old.each) clients.old pages.old) }
    requires limit { trail.old.limit ≡ limit }
    requires client { cache.old.client ≡ who }
    requires owns { Owns
        (hub_of trail.old.items limit (stabilisations_of unended.old.each) clients.old pages.old)
        cache.old }
    requires up { fall_of (place_in clients.old who) ≡ None }
    requires room { length cache.old.pending ≤ trail.old.room }
    requires kept { AreAssociationsOf associations.old trail.old.items }
    requires pages { pages_in associations.old ≡ length pages.old.rights }
    ensures opens { OpensTurn cache.old.client
        (hub_of trail.old.items limit (stabilisations_of unended.old.each) clients.old pages.old)
        cache.old
        (hub_of trail.new.items limit (stabilisations_of unended.new.each) clients.new pages.new)
        cache.new }
    ensures associations { AreAssociationsOf associations.new trail.new.items }
    ensures pages_stay { pages_in associations.new ≡ pages_in associations.old }
    ensures count { length pages.new.rights ≡ length pages.old.rights }
    ensures unended { length unended.new.each ≡ length unended.old.each }
    ensures may_begin { unended.new.room ≡ unended.old.room }
    ensures limit { trail.new.limit ≡ trail.old.limit }
    ensures room { trail.old.room ≡ trail.new.room + length cache.old.pending }
{
    open(
        trail,
        associations,
        unended,
        limit,
        clients,
        pages,
        who,
        cache,
    );
    hand_in_to_gathering(associations, unended, pages, who, cache);
}
