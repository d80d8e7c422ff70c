ghost use Rattle.std.specs.Prelude.{◌≡◌, ◌≤◌, ◌↔◌, length, IsSome, IfSome};
ghost use Rattle.casper_words.specs.Padded.{padded};

use std::marker::Model;

/// The frame numbers of the map blocks of a root, at most 16 of them. Contracts see the list.
#[derive(Clone, Copy, Debug, PartialEq, Eq)]
pub struct Maps {
    places: [u32; 16],
    count: usize,
}

impl Model for Maps {
    ghost use Rattle.std.specs.Prelude.{List, ℕ, length, take};

    ghost Value = { List ℕ };

    ghost use Rattle.casper_words.specs.Padded.{padded, IsPadded, length_of_list, places_of_list};
    ghost use Rattle.std.proofs.Common.{◌∙◌, ap};

    ghost view = { λ maps. take maps.count maps.places };

    ghost invariant = { λ maps. IsPadded 16 0 maps.places maps.count };

    ghost inverse = { λ list. record { places = padded 16 0 list; count = length list } };

    ghost inverse_ok = { λ maps held. ap (λ places. record { places = places; count = length (take maps.count maps.places) }) (places_of_list held) ∙ ap (λ count. record { places = maps.places; count = count }) (length_of_list held) };
}

impl Maps {
    /// The greatest number of map blocks.
    pub const MOST: usize = 16;

    /// How many pages a map block has the frames of.
    pub const PAGES_EACH: u32 = 1024;

    /// The frame numbers of a list, where it has at most 16.
    pub fn new(list: &[u32]) -> Option<Maps>
        ensures exactly { IsSome result ↔ (length list.now ≤ 16) }
        ensures list { IfSome result (λ maps. maps ≡ list.now) }
    {
        if list.len() > Maps::MOST {
            return None;
        }
        let count = list.len();
        let mut places = [0; 16];
        places[..count].copy_from_slice(list);
        Some(Maps { places, count })
    }

    /// The list.
    pub fn as_slice(&self) -> &[u32]
        ensures list { result.now ≡ self.now }
        ensures few { length self.now ≤ 16 }
    {
        &self.places[..self.count]
    }

    /// The list, with zeros after it.
    pub(crate) fn places(&self) -> [u32; 16]
        ensures places { result ≡ padded 16 0 self.now }
        ensures few { length self.now ≤ 16 }
    {
        self.places
    }
}
