ghost use Rattle.std.specs.Prelude.{◌≡◌, OnOk};
ghost use Rattle.casper_audit.specs.Words.{values_in, zeros, SetsOnly};
ghost use Rattle.casper_audit.specs.declared.words.Place.{Place};

use casper_words::Memory;
use std::alloc::Global;
use std::collections::HashMap;

/// The place of a word: a page, and the word's place within it.
#[derive(Clone, Copy, Debug, PartialEq, Eq, Hash)]
pub(crate) struct Place {
    pub(crate) page: u32,
    pub(crate) word: u32,
}

/// The two values of a word: after its live writes, and after its stable ones.
#[derive(Clone, Copy, Debug, PartialEq, Eq)]
pub(crate) struct Values {
    pub(crate) live: u64,
    pub(crate) stable: u64,
}

/// The values of all words. A word that was never set has zeros.
#[derive(Drop)]
pub(crate) struct Words {
    values: HashMap<Place, Values>,
}

impl Words {
    /// All zeros. It takes no memory.
    pub(crate) fn new(alloc: Global) -> Words
        ensures { (place : Place) → values_in result place ≡ zeros }
    {
        Words {
            values: HashMap::new(alloc),
        }
    }

    /// The values of a word.
    pub(crate) fn at(&self, place: Place) -> Values
        ensures { result ≡ values_in self.now place }
    {
        self.values
            .get(&place)
            .copied()
            .unwrap_or(Values { live: 0, stable: 0 })
    }

    /// Gives a word its values.
    pub(crate) fn set(&mut self, place: Place, values: Values) -> Result<(), Memory>
        ensures { OnOk result (SetsOnly self.old self.new place values) }
    {
        self.values.insert(place, values)?;
        Ok(())
    }
}
