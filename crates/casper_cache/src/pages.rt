ghost use Rattle.std.specs.Prelude.{◌≡◌, [], ◌∷◌, ◌++◌, ◌<◌, length};

use casper_words::Page;
use std::marker::Model;

/// A list of at most four pages, in place. Contracts see the list.
#[derive(Drop)]
pub struct Pages {
    pages: [Page; 4],
    count: usize,
}

impl Model for Pages {
    ghost use Rattle.std.specs.Prelude.{ℕ, List, take, ◌≤◌};

    ghost Value = { List ℕ };

    ghost view = { λ pages. take pages.count pages.pages };

    ghost invariant = { λ pages. pages.count ≤ 4 };
}

impl Pages {
    /// The empty list.
    pub fn new() -> Pages
        ensures { result ≡ [] }
    {
        Pages {
            pages: [Page(0); 4],
            count: 0,
        }
    }

    /// Adds a page at the end of a list of fewer than four.
    pub fn push(&mut self, page: Page)
        requires { length self.old < 4 }
        ensures { self.new ≡ self.old ++ page ∷ [] }
    {
        self.pages[self.count] = page;
        self.count += 1;
    }

    /// The pages in order.
    pub fn as_slice(&self) -> &[Page]
        ensures { result.now ≡ self.now }
    {
        &self.pages[..self.count]
    }
}
