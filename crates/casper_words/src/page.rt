ghost use Rattle.std.specs.Prelude.{ℕ};

use std::marker::Model;

/// The number of a page, from 0. Contracts see the number.
#[derive(Clone, Copy, Debug, PartialEq, Eq, PartialOrd, Ord, Hash)]
pub struct Page(pub u32);

impl Model for Page {
    ghost Value = { ℕ };

    ghost view = { λ page. page.0 };

    ghost inverse = { λ number. record { 0 = number } };
}

impl Page {
    /// The most pages that a store has.
    pub const MOST: u32 = 16_384;
}

/// What a client may do with a page that it holds. To write allows to read.
#[derive(Clone, Copy, Debug, PartialEq, Eq)]
pub enum Right {
    Read,
    Write,
}

/// A page that a client asks for, with the right that it asks for.
#[derive(Clone, Copy, Debug, PartialEq, Eq)]
pub struct Want {
    pub page: Page,
    pub right: Right,
}

/// The place of a word: a page, and the word's place within it.
#[derive(Clone, Copy, Debug, PartialEq, Eq)]
pub struct Ref {
    pub page: Page,
    pub word: u32,
}
