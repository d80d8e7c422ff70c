ghost use Rattle.std.specs.Prelude.{◌≡◌, ℕ, ◌==◌, [], ◌∷◌, ◌++◌, vec_len, cond, OnOk, IfOk};

use crate::words::Place;
use casper_words::{Memory, Who};
use std::alloc::Global;
use std::mem;

/// The places of the open writes of each client.
#[derive(Drop)]
pub(crate) struct Opened {
    places: Vec<Vec<Place>>,
    ghost all: { vec_len places ≡ 32 },
}

impl Opened {
    ghost use Rattle.casper_words.specs.Crew.{IsClient};
    ghost use Rattle.casper_audit.specs.Opened.{places_in};

    /// No open write.
    pub(crate) fn new(alloc: Global) -> Result<Opened, Memory>
        ensures { IfOk result (λ opened. (client : ℕ) → places_in opened client ≡ []) }
    {
        let mut places = Vec::with_capacity(alloc, 32)?;
        for _ in 0..Who::MOST {
            places.push(Vec::new(alloc))?;
        }
        Ok(Opened { places })
    }

    /// Adds a place to those of a client.
    pub(crate) fn push(&mut self, who: Who, place: Place) -> Result<(), Memory>
        ensures { OnOk result ((client : ℕ) → IsClient client → places_in self.new client
            ≡ cond (client == who) (places_in self.old who
            ++ place ∷ []) (places_in self.old client)) }
    {
        let places = &mut self.places[(who.number() - 1) as usize];
        places.push(place)?;
        Ok(())
    }

    /// Takes away the places of a client.
    pub(crate) fn take(&mut self, alloc: Global, who: Who) -> Vec<Place>
        ensures taken { result.items ≡ places_in self.old who }
        ensures left { (client : ℕ) → IsClient client
            → places_in self.new client ≡ cond (client == who) [] (places_in self.old client) }
    {
        mem::replace(
            &mut self.places[(who.number() - 1) as usize],
            Vec::new(alloc),
        )
    }
}
