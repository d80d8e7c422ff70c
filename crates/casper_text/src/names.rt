ghost use Rattle.std.specs.Prelude.{◌≡◌, ◌↔◌, IsSome};
ghost use Rattle.casper_words.specs.Name.{IsName};
ghost use Rattle.casper_text.specs.Name.{name_of};

use casper_words::Name;

/// The name that a word writes: 1 to 24 bytes of `a` to `z`, `0` to `9`, `_` and `-`. None where the
/// word is of another form. It takes no memory.
pub fn name(word: &[u8]) -> Option<Name>
    ensures exactly { IsSome result ↔ IsName word.now }
    ensures name { result ≡ name_of word.now }
{
    Name::new(word)
}

#[cfg(test)]
mod tests {
    use super::*;

    #[test]
    fn forms_of_names(rt: HostRuntime) {
        let forms: [(&[u8], bool); 9] = [
            (b"a", true),
            (b"z_0-9", true),
            (b"-", true),
            (b"abcdefghijklmnopqrstuvwx", true),
            (b"abcdefghijklmnopqrstuvwxy", false),
            (b"", false),
            (b"Root", false),
            (b"a.b", false),
            (b"a b", false),
        ];
        for (word, is_name) in forms {
            assert_eq!(rt; name(word).is_some(), is_name);
        }
    }
}
