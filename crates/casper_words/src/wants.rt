ghost use Rattle.std.specs.Prelude.{◌≡◌, ◌↔◌, IsTrue, IsSome, IfSome};
ghost use Rattle.casper_words.specs.Wants.{AreWants, PagesRise};

use crate::{Page, Right, Want};
use std::marker::Model;

/// The pages that one acquire asks for: one to four, their numbers strictly rising. Contracts see
/// the list.
#[derive(Clone, Copy, Debug, PartialEq, Eq)]
pub struct Wants {
    places: [Want; 4],
    count: usize,
}

/// What stands in the places after the list.
const UNUSED: Want = Want {
    page: Page(0),
    right: Right::Read,
};

impl Model for Wants {
    ghost use Rattle.std.specs.Prelude.{List, length, take};
    ghost use Rattle.casper_words.specs.declared.page.Want.{Want};

    ghost Value = { List Want };

    ghost use Rattle.casper_words.specs.declared.page.Right.TheVariants.{Read};
    ghost use Rattle.casper_words.specs.Padded.{padded, IsPadded, length_of_list, places_of_list};
    ghost use Rattle.casper_words.specs.Wants.{AreWants};
    ghost use Rattle.std.proofs.Common.{◌∙◌, ap};

    ghost view = { λ wants. take wants.count wants.places };

    ghost invariant = { λ wants. IsPadded 4 (record { page = 0; right = Read }) wants.places wants.count × AreWants (take wants.count wants.places) };

    ghost inverse = { λ list. record { places = padded 4 (record { page = 0; right = Read }) list; count = length list } };

    ghost inverse_ok = { λ wants held. ap (λ places. record { places = places; count = length (take wants.count wants.places) }) (places_of_list held.0) ∙ ap (λ count. record { places = wants.places; count = count }) (length_of_list held.0) };
}

impl Wants {
    /// The greatest number of wants.
    pub const MOST: usize = 4;

    /// The wants of a list, where it has one to four and their pages rise strictly.
    pub fn new(list: &[Want]) -> Option<Wants>
        ensures exactly { IsSome result ↔ AreWants list.now }
        ensures wants { IfSome result (λ wants. wants ≡ list.now) }
    {
        if list.is_empty() || list.len() > Wants::MOST || !pages_rise(list) {
            return None;
        }
        let count = list.len();
        let mut places = [UNUSED; 4];
        places[..count].copy_from_slice(list);
        Some(Wants { places, count })
    }

    /// The list, one to four wants with pages strictly rising.
    pub fn as_slice(&self) -> &[Want]
        ensures list { result.now ≡ self.now }
        ensures wants { AreWants self.now }
    {
        &self.places[..self.count]
    }
}

fn pages_rise(list: &[Want]) -> bool
    ensures { IsTrue result ↔ PagesRise list.now }
{
    list.is_sorted_by(|first, second| first.page < second.page)
}

#[cfg(test)]
mod tests {
    use super::*;

    fn want(page: u32) -> Want {
        Want {
            page: Page(page),
            right: Right::Write,
        }
    }

    #[test]
    fn takes_rising_pages_alone(rt: HostRuntime) {
        let rising = [want(1), want(2), want(3), want(4), want(5)];
        let falling = [want(2), want(1)];
        let equal = [want(2), want(2)];
        let table = [
            (&rising[..0], false),
            (&rising[..1], true),
            (&rising[..4], true),
            (&rising[..5], false),
            (falling.as_slice(), false),
            (equal.as_slice(), false),
        ];
        for (list, are_wants) in table {
            assert_eq!(rt; Wants::new(list).is_some(), are_wants);
        }
    }
}
