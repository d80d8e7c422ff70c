ghost use Rattle.std.specs.Prelude.{◌≡◌, ◌≤◌, [], ◌&&◌, ◌||◌, not, ◌==◌, ◌↔◌, length, slice_get, IsNone, IfSome};
ghost use Rattle.std.specs.Prelude.{nat_eq};
ghost use Rattle.std.specs.Cmp.{partial_equiv_from_equiv};
ghost use Rattle.std.specs.Cmp.Lexicographic.{pointwise, lists_per, lists_equiv};
ghost use Rattle.std.proofs.lemmas.Cmp.{nat_eq_equiv};
ghost use Rattle.casper_words.specs.Crew.{IsClient, IsCrew, has_member, crew_of};

use crate::Who;
use std::marker::Model;

/// A set of clients. Contracts see the list of its members' numbers, rising.
#[derive(Clone, Copy, Debug)]
pub struct Crew {
    bits: u32,
}

impl Model for Crew {
    ghost use Rattle.std.specs.Prelude.{List, ℕ, ◌^◌, ◌<◌};
    ghost use Rattle.std.proofs.Common.{ap};
    ghost use Rattle.casper_words.specs.CrewBits.{members_of_bits, bits_of, bits_of_members};

    ghost Value = { List ℕ };

    ghost view = { λ crew. members_of_bits crew.bits };

    ghost invariant = { λ crew. crew.bits < 2 ^ 32 };

    ghost inverse = { λ members. record { bits = bits_of members } };

    ghost inverse_ok = { λ crew below. ap (λ bits. record { bits = bits }) (bits_of_members crew.bits below) };
}

impl Crew {
    /// The crew without members.
    pub fn none() -> Crew
        ensures empty { result ≡ [] }
        ensures crew { IsCrew result }
    {
        Crew { bits: 0 }
    }

    /// Whether a client is a member.
    pub fn has(&self, who: Who) -> bool
        ensures member { result ≡ has_member who self.now }
        ensures crew { IsCrew self.now }
        ensures client { IsClient who }
    {
        (self.bits >> (who.number() - 1)) & 1 == 1
    }

    /// How many members there are, up to 32.
    pub fn count(&self) -> u32
        ensures count { result ≡ length self.now }
        ensures most { result ≤ 32 }
        ensures crew { IsCrew self.now }
    {
        self.bits.count_ones()
    }

    /// The crew and one client. Nothing changes where the client is a member.
    pub fn with(self, who: Who) -> Crew
        ensures members { result ≡ crew_of (λ client. has_member client self || client == who) }
        ensures crew { IsCrew result }
        ensures source { IsCrew self }
        ensures client { IsClient who }
    {
        Crew {
            bits: self.bits | (1 << (who.number() - 1)),
        }
    }

    /// The crew but for one client. Nothing changes where the client is no member.
    pub fn without(self, who: Who) -> Crew
        ensures members { result
            ≡ crew_of (λ client. has_member client self && not (client == who)) }
        ensures crew { IsCrew result }
        ensures source { IsCrew self }
        ensures client { IsClient who }
    {
        Crew {
            bits: self.bits & !(1 << (who.number() - 1)),
        }
    }

    /// The members of either crew.
    pub fn union(self, other: Crew) -> Crew
        ensures members { result
            ≡ crew_of (λ client. has_member client self || has_member client other) }
        ensures crew { IsCrew result }
        ensures left { IsCrew self }
        ensures right { IsCrew other }
    {
        Crew {
            bits: self.bits | other.bits,
        }
    }

    /// The members that are not in the other crew.
    pub fn minus(self, other: Crew) -> Crew
        ensures members { result
            ≡ crew_of (λ client. has_member client self && not (has_member client other)) }
        ensures crew { IsCrew result }
        ensures left { IsCrew self }
        ensures right { IsCrew other }
    {
        Crew {
            bits: self.bits & !other.bits,
        }
    }

    /// The member with the least number, where there is a member.
    pub fn least(self) -> Option<Who>
        ensures first { result ≡ slice_get self 0 }
        ensures empty { IsNone result ↔ (self ≡ []) }
        ensures client { IfSome result (λ who. IsClient who) }
        ensures crew { IsCrew self }
    {
        Who::new(self.bits.trailing_zeros() + 1)
    }
}

impl PartialEq for Crew {
    ghost eq = { pointwise nat_eq };

    ghost laws = { lists_per (partial_equiv_from_equiv nat_eq_equiv) };

    fn eq(&self, other: &Crew) -> bool {
        self.bits == other.bits
    }
}

impl Eq for Crew {
    ghost laws = { lists_equiv nat_eq_equiv };
}
