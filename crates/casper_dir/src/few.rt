ghost use Rattle.std.specs.Prelude.{◌≡◌, [], ◌∷◌, ◌++◌, ◌<◌, ◌≤◌, length};

use casper_words::{Page, Right, Want};
use std::marker::Model;

/// What stands in the places that a list does not use.
const UNUSED: Want = Want {
    page: Page(0),
    right: Right::Read,
};

/// A list of at most four wants, in place, as a client has that waits or is granted some. Contracts see the list.
#[derive(Drop)]
pub struct FewWants {
    places: [Want; 4],
    count: usize,
}

impl Model for FewWants {
    ghost use Rattle.std.specs.Prelude.{List, take, ◌≤◌};
    ghost use Rattle.casper_words.specs.declared.page.Want.{Want};

    ghost Value = { List Want };

    ghost view = { λ few. take few.count few.places };

    ghost invariant = { λ few. few.count ≤ 4 };
}

impl FewWants {
    /// The empty list.
    pub fn none() -> FewWants
        ensures { result ≡ [] }
    {
        FewWants {
            places: [UNUSED; 4],
            count: 0,
        }
    }

    /// Adds a want at the end of a list of fewer than four.
    pub fn push(&mut self, want: Want)
        requires { length self.old < 4 }
        ensures { self.new ≡ self.old ++ want ∷ [] }
    {
        self.places[self.count] = want;
        self.count += 1;
    }

    /// The wants in order.
    pub fn as_slice(&self) -> &[Want]
        ensures wants { result.now ≡ self.now }
        ensures few { length self.now ≤ 4 }
    {
        &self.places[..self.count]
    }
}
