ghost use Rattle.std.specs.Prelude.{◌≡◌, ◌&&◌, ◌+◌, ◌≤◌, ◌<◌, ◌^◌, ℕ, [], length, replicate, slice_set, is_some, IsSome, IfOk, Some, None, option_map, if◌then◌else◌};
ghost use Rattle.casper_words.specs.Crew.{crew_of};
ghost use Rattle.casper_model.specs.Held.{is_to_write, is_of};
ghost use Rattle.casper_model.specs.Opening.{any_right};
ghost use Rattle.casper_hub.specs.HubView.{ClientView, new_client_view, place_in, cap_of, asks_of, fall_of, caps_of, with_cap, begun_with, with_kept, with_asks, risen, felled};
ghost use Rattle.casper_hub.specs.Places.{shown_fall};
ghost use Rattle.casper_hub.specs.Stabilising.{kept_of};
ghost use Rattle.casper_hub.specs.Asks.{are_for as are_among, asks_for};

use casper_dir::FewWants;
use casper_model::Kept;
use casper_words::{Crew, Memory, Page, Right, Want, Who};
use std::alloc::Global;
use std::marker::Model;

/// A fall of which its client was not told yet: where the rollback mark stands, and how many of the client's recorded calls it dropped.
#[derive(Clone, Copy)]
pub(crate) struct Fall {
    pub(crate) mark: u64,
    pub(crate) dropped: u32,
}

/// What is known of a live client: how many more entries may be recorded for it, its asks, the outcome that is kept for it, and its
/// fall, if it is fallen.
#[derive(Drop)]
pub(crate) struct Place {
    cap: u32,
    asks: FewWants,
    kept: Option<Kept>,
    fall: Option<Fall>,
}

/// The live clients, each at the place of its number. Contracts see the list of the places.
#[derive(Drop)]
pub(crate) struct Clients {
    places: Vec<Option<Place>>,
}

impl Model for Clients {
    ghost use Rattle.std.specs.Prelude.{◌≡◌, List, Option, map, length};
    ghost use Rattle.casper_hub.specs.HubView.{ClientView};

    ghost Value = { List (Option ClientView) };

    ghost use Rattle.casper_hub.specs.Places.{shown_place};

    ghost view = { λ clients. map shown_place clients.places.items };

    ghost invariant = { λ clients. length clients.places.items ≡ 33 };
}

impl Clients {
    /// Nobody is live.
    pub(crate) fn new(alloc: Global) -> Result<Clients, Memory>
        ensures { IfOk result (λ clients. clients ≡ replicate 33 None) }
    {
        let mut places = Vec::with_capacity(alloc, Who::PLACES)?;
        for _place in 0..Who::PLACES {
            places.push_reserved(None);
        }
        Ok(Clients { places })
    }

    /// Whether a client is live.
    pub(crate) fn is_live(&self, who: Who) -> bool
        ensures { result ≡ is_some (place_in self.now who) }
    {
        self.places[who.number() as usize].is_some()
    }

    /// How many more entries may be recorded for a client, 0 where it is not live.
    pub(crate) fn cap(&self, who: Who) -> u32
        ensures { result ≡ cap_of (place_in self.now who) }
    {
        match &self.places[who.number() as usize] {
            Some(place) => place.cap,
            None => 0,
        }
    }

    /// How many entries are promised to all clients together.
    pub(crate) fn promised(&self) -> u64
        ensures { result ≡ caps_of self.now }
    {
        let mut promised = 0;
        for place in &self.places {
            if let Some(client) = place {
                promised += client.cap as u64;
            }
        }
        promised
    }

    /// The asks of a client.
    pub(crate) fn asks_of(&self, who: Who) -> &[Want]
        ensures asks { result.now ≡ asks_of (place_in self.now who) }
        ensures few { length result.now ≤ 4 }
    {
        match &self.places[who.number() as usize] {
            Some(place) => place.asks.as_slice(),
            None => &[],
        }
    }

    /// Makes a client live, with so many entries promised to it.
    pub(crate) fn join(&mut self, who: Who, cap: u32)
        ensures { self.new ≡ slice_set self.old who (Some (new_client_view cap)) }
    {
        let asks = FewWants::none();
        self.places[who.number() as usize] = Some(Place {
            cap,
            asks,
            kept: None,
            fall: None,
        });
    }

    /// Makes a client absent.
    pub(crate) fn leave(&mut self, who: Who)
        ensures { self.new ≡ slice_set self.old who None }
    {
        self.places[who.number() as usize] = None;
    }

    /// Promises so many entries to a client, if it is live.
    pub(crate) fn set_cap(&mut self, who: Who, cap: u32)
        ensures { self.new ≡ slice_set self.old who (with_cap cap (place_in self.old who)) }
    {
        let place = &mut self.places[who.number() as usize];
        if let Some(client) = place {
            client.cap = cap;
        }
    }

    /// Promises so many entries to a client, if it is live, as its turn begins. An outcome that was kept for it is dropped.
    pub(crate) fn begin(&mut self, who: Who, cap: u32)
        ensures { self.new ≡ slice_set self.old who (begun_with cap (place_in self.old who)) }
    {
        let place = &mut self.places[who.number() as usize];
        if let Some(client) = place {
            client.cap = cap;
            client.kept = None;
        }
    }

    /// Keeps an outcome for a client, if it is live.
    pub(crate) fn keep(&mut self, who: Who, kept: Kept)
        ensures { self.new ≡ slice_set self.old who (with_kept kept (place_in self.old who)) }
    {
        let place = &mut self.places[who.number() as usize];
        if let Some(client) = place {
            client.kept = Some(kept);
        }
    }

    /// Replaces the asks of a client, if it is live.
    pub(crate) fn set_asks(&mut self, who: Who, asks: FewWants)
        ensures { self.new ≡ slice_set self.old who (with_asks asks (place_in self.old who)) }
    {
        let place = &mut self.places[who.number() as usize];
        if let Some(client) = place {
            client.asks = asks;
        }
    }

    /// The fall of a client, where it is fallen.
    pub(crate) fn fall(&self, who: Who) -> Option<Fall>
        ensures { option_map shown_fall result ≡ fall_of (place_in self.now who) }
    {
        match &self.places[who.number() as usize] {
            Some(place) => place.fall,
            None => None,
        }
    }

    /// The outcome that is kept for a client.
    pub(crate) fn kept(&self, who: Who) -> Option<Kept>
        ensures { result ≡ kept_of (place_in self.now who) }
    {
        match &self.places[who.number() as usize] {
            Some(place) => place.kept,
            None => None,
        }
    }

    /// Notes that a client, if it is live, was told of its fall. An outcome that was kept for it is dropped.
    pub(crate) fn rise(&mut self, who: Who)
        ensures { self.new ≡ slice_set self.old who (risen (place_in self.old who)) }
    {
        let place = &mut self.places[who.number() as usize];
        if let Some(client) = place {
            client.kept = None;
            client.fall = None;
        }
    }

    /// Notes that a client, if it is live, fell. Its asks are taken away.
    pub(crate) fn fell(&mut self, who: Who, fall: Fall)
        ensures { self.new
            ≡ slice_set self.old who (felled (shown_fall fall) (place_in self.old who)) }
    {
        let place = &mut self.places[who.number() as usize];
        if let Some(client) = place {
            client.asks = FewWants::none();
            client.fall = Some(fall);
        }
    }

    /// The other clients that ask for a page, at all or to write it.
    pub(crate) fn askers(&self, who: Who, page: Page, to_write: bool) -> Crew
        ensures { result
            ≡ crew_of (asks_for (if to_write then is_to_write else any_right) self.now who page) }
    {
        let mut askers = Crew::none();
        for number in 1..Who::MOST + 1 {
            if let Some(other) = Who::new(number) {
                if other != who && are_for(self.asks_of(other), page, to_write) {
                    askers = askers.with(other);
                }
            }
        }
        askers
    }
}

/// Whether some of these asks is on a page, at all or to write it.
fn are_for(asks: &[Want], page: Page, to_write: bool) -> bool
    ensures { result ≡ are_among (if to_write then is_to_write else any_right) asks.now page }
{
    asks.iter().any(|ask| is_for(*ask, page, to_write))
}

/// Whether an ask is on a page, at all or to write it.
fn is_for(ask: Want, page: Page, to_write: bool) -> bool
    ensures { result ≡ (is_of page ask && (if to_write then is_to_write else any_right) ask.right) }
{
    match ask.right {
        Right::Write => ask.page == page,
        Right::Read => !to_write && ask.page == page,
    }
}
