ghost use Rattle.std.specs.Prelude.{◌≡◌, ◌↔◌, IsTrue, IsSome, IfSome};
ghost use Rattle.std.specs.Cmp.Lexicographic.{lists_per, lists_equiv};
ghost use Rattle.std.specs.List.{list_all};
ghost use Rattle.std.specs.Str.{bytes_eq};
ghost use Rattle.std.specs.Cmp.{partial_equiv_from_equiv};
ghost use Rattle.std.proofs.lemmas.Cmp.{nat_eq_equiv};
ghost use Rattle.casper_words.specs.Name.{is_name_byte, IsName};

use std::marker::Model;

/// A name: 1 to 24 bytes of `a` to `z`, `0` to `9`, `_` and `-`. Contracts see the list of the
/// bytes.
#[derive(Clone, Copy, Debug)]
pub struct Name {
    places: [u8; 24],
    count: usize,
}

impl Model for Name {
    ghost use Rattle.std.specs.Prelude.{ℕ, List, length, take};
    ghost use Rattle.std.proofs.Common.{◌∙◌, ap};
    ghost use Rattle.casper_words.specs.Name.{IsName};
    ghost use Rattle.casper_words.specs.Padded.{padded, IsPadded, length_of_list, places_of_list};

    ghost Value = { List ℕ };

    ghost view = { λ name. take name.count name.places };

    ghost invariant = { λ name. IsPadded 24 0 name.places name.count × IsName (take name.count name.places) };

    ghost inverse = { λ bytes. record { places = padded 24 0 bytes; count = length bytes } };

    ghost inverse_ok = { λ name held. ap (λ places. record { places = places; count = length (take name.count name.places) }) (places_of_list held.0) ∙ ap (λ count. record { places = name.places; count = count }) (length_of_list held.0) };
}

impl Name {
    /// The greatest number of bytes.
    pub const MOST: usize = 24;

    /// The name of these bytes, where they are 1 to 24 bytes of the alphabet.
    pub fn new(bytes: &[u8]) -> Option<Name>
        ensures exactly { IsSome result ↔ IsName bytes.now }
        ensures bytes { IfSome result (λ name. name ≡ bytes.now) }
    {
        if bytes.is_empty() || bytes.len() > Name::MOST || !all_in_alphabet(bytes) {
            return None;
        }
        let count = bytes.len();
        let mut places = [0; 24];
        places[..count].copy_from_slice(bytes);
        Some(Name { places, count })
    }

    /// The bytes, 1 to 24 of the alphabet.
    pub fn bytes(&self) -> &[u8]
        ensures bytes { result.now ≡ self.now }
        ensures name { IsName self.now }
    {
        &self.places[..self.count]
    }
}

impl PartialEq for Name {
    ghost eq = { bytes_eq };

    ghost laws = { lists_per (partial_equiv_from_equiv nat_eq_equiv) };

    fn eq(&self, other: &Name) -> bool {
        self.bytes() == other.bytes()
    }
}

impl Eq for Name {
    ghost laws = { lists_equiv nat_eq_equiv };
}

fn all_in_alphabet(bytes: &[u8]) -> bool
    ensures { result ≡ list_all is_name_byte bytes.now }
{
    bytes.iter().all(|byte| is_in_alphabet(*byte))
}

fn is_in_alphabet(byte: u8) -> bool
    ensures { result ≡ is_name_byte byte }
{
    matches!(byte, b'a'..=b'z' | b'0'..=b'9' | b'_' | b'-')
}

#[cfg(test)]
mod tests {
    use super::*;

    #[test]
    fn takes_names_alone(rt: HostRuntime) {
        let table = [
            (b"".as_slice(), false),
            (b"a".as_slice(), true),
            (b"z0-9_".as_slice(), true),
            (b"abcdefghijklmnopqrstuvwx".as_slice(), true),
            (b"abcdefghijklmnopqrstuvwxy".as_slice(), false),
            (b"Root".as_slice(), false),
            (b"a b".as_slice(), false),
            (b"a.b".as_slice(), false),
        ];
        for (bytes, is_name) in table {
            assert_eq!(rt; Name::new(bytes).is_some(), is_name);
        }
    }
}
