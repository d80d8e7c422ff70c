ghost use Rattle.std.specs.Prelude.{◌≡◌, ℕ, ◌≤◌, ◌↔◌, IsSome, IfSome};

use std::marker::Model;

/// A client, by its number from 1 to 32. Contracts see the number.
#[derive(Clone, Copy, Debug, PartialEq, Eq, PartialOrd, Ord, Hash)]
pub struct Who {
    number: u32,
}

impl Model for Who {
    ghost Value = { ℕ };

    ghost view = { λ who. who.number };

    ghost invariant = { λ who. (1 ≤ who.number) × (who.number ≤ 32) };

    ghost inverse = { λ number. record { number = number } };
}

impl Who {
    /// The greatest number of a client.
    pub const MOST: u32 = 32;

    /// How many places a list has in which each client stands at its number.
    pub const PLACES: usize = 33;

    /// The client of this number, where it is from 1 to 32.
    pub fn new(number: u32) -> Option<Who>
        ensures exactly { IsSome result ↔ ((1 ≤ number) × (number ≤ 32)) }
        ensures number { IfSome result (λ who. who ≡ number) }
    {
        if (1..=Who::MOST).contains(&number) {
            Some(Who { number })
        } else {
            None
        }
    }

    /// The client's number, from 1 to 32.
    pub fn number(&self) -> u32
        ensures number { result ≡ self.now }
        ensures least { 1 ≤ result }
        ensures most { result ≤ 32 }
    {
        self.number
    }
}
