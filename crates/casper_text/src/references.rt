ghost use Rattle.std.specs.Prelude.{◌≡◌, ◌<◌, length, position, IfSome};
ghost use Rattle.casper_text.specs.Reference.{is_dot, reference_of};

use crate::small_number;
use casper_words::{Page, Ref};

/// The reference that a word writes: `P.W`, a page's number and a word's place, each a number below
/// 2^32. None where the word is of another form. It takes no memory.
pub fn reference(word: &[u8]) -> Option<Ref>
    ensures { result ≡ reference_of word.now }
{
    let dot = first_dot(word)?;
    let page = small_number(&word[..dot])?;
    let word = small_number(&word[dot + 1..])?;
    Some(Ref {
        page: Page(page),
        word,
    })
}

/// The place of the first dot in a word, if it has one.
fn first_dot(word: &[u8]) -> Option<usize>
    ensures place { result ≡ position is_dot word.now }
    ensures within { IfSome result (λ dot. dot < length word.now) }
{
    word.iter().position(|byte| *byte == b'.')
}

#[cfg(test)]
mod tests {
    use super::*;

    #[test]
    fn forms_of_references(rt: HostRuntime) {
        let forms: [(&[u8], Option<(u32, u32)>); 10] = [
            (b"3.511", Some((3, 511))),
            (b"0.0", Some((0, 0))),
            (b"4294967295.4294967295", Some((u32::MAX, u32::MAX))),
            (b"4294967296.0", None),
            (b"0.4294967296", None),
            (b"3", None),
            (b"3.", None),
            (b".5", None),
            (b"3.5.7", None),
            (b"03.5", None),
        ];
        for (word, place) in forms {
            assert_eq!(rt;
                reference(word).map(|found| (found.page.0, found.word)),
                place
            );
        }
    }
}
