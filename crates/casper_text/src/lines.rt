ghost use Rattle.std.specs.Prelude.{◌≡◌, ◌+◌, ◌-◌, ◌*◌, ◌<◌, ◌≤◌, ◌++◌, ◌↔◌, length, vec_capacity, map, All, Any, IfOk, OnErr, IsSome, IsNone, IfSome, IsTrue, IsFalse, is_some};
ghost use Rattle.casper_text.specs.Line.{IsPrintable, all_printable, words};
ghost use Rattle.casper_text.specs.Span.{IsWithin, word_at, spans_between};

use crate::Span;
use casper_words::Memory;
use std::alloc::Global;

/// Puts the places of the words of a line into a list, in order, in the place of what it had, and tells whether each byte of
/// the line is from 0x20 to 0x7E. Words are parted by one or more spaces, and spaces at either end are allowed. Where a byte
/// is outside that range the list is of no use. The list has room for a word at every other byte, so no memory is asked for.
pub(crate) fn words_into(line: &[u8], spans: &mut Vec<Span>) -> bool
    requires { length line.now < 2 * vec_capacity spans.old }
    ensures exactly { IsTrue result ↔ All IsPrintable line.now }
    ensures refused { IsFalse result ↔ Any (λ byte. ¬ (IsPrintable byte)) line.now }
    ensures printable { result ≡ all_printable line.now }
    ensures words { IsTrue result → map (word_at line.now) spans.new.items ≡ words line.now }
    ensures within { IsTrue result → All (IsWithin line.now) spans.new.items }
    ensures room { vec_capacity spans.old ≤ vec_capacity spans.new }
{
    if !is_printable(line) {
        return false;
    }
    place_words(line, spans);
    true
}

/// The places of the words of a line, in order, as `Places` has them. None where a byte is outside 0x20 to 0x7E, and then no
/// memory is asked for.
pub fn words_of(alloc: Global, line: &[u8]) -> Result<Option<Vec<Span>>, Memory>
    ensures exactly { IfOk result (λ found. IsSome found ↔ All IsPrintable line.now) }
    ensures refused { IfOk result
        (λ found. IsNone found ↔ Any (λ byte. ¬ (IsPrintable byte)) line.now) }
    ensures printable { IfOk result (λ found. is_some found ≡ all_printable line.now) }
    ensures words { IfOk result
        (λ found. IfSome found (λ spans. map (word_at line.now) spans.items ≡ words line.now)) }
    ensures within { IfOk result
        (λ found. IfSome found (λ spans. All (IsWithin line.now) spans.items)) }
    ensures memory { OnErr result (All IsPrintable line.now) }
{
    if !is_printable(line) {
        return Ok(None);
    }
    let mut spans = Vec::with_capacity(alloc, line.len() / 2 + 1)?;
    place_words(line, &mut spans);
    Ok(Some(spans))
}

/// Tells whether each byte is from 0x20 to 0x7E.
fn is_printable(line: &[u8]) -> bool
    ensures { result ≡ all_printable line.now }
{
    line.iter().all(|byte| (b' '..=b'~').contains(byte))
}

/// Puts the places of the words of a line into a list, whatever its bytes.
fn place_words(line: &[u8], spans: &mut Vec<Span>)
    requires { length line.now < 2 * vec_capacity spans.old }
    ensures words { map (word_at line.now) spans.new.items ≡ words line.now }
    ensures within { All (IsWithin line.now) spans.new.items }
    ensures room { vec_capacity spans.old ≤ vec_capacity spans.new }
{
    spans.clear();
    let mut from = 0;
    for (at, byte) in line.iter().enumerate() {
        if *byte == b' ' {
            push_between(spans, from, at);
            from = at + 1;
        }
    }
    push_between(spans, from, line.len());
}

/// Adds the place from one byte up to another, if it holds a byte. There is room for it.
fn push_between(spans: &mut Vec<Span>, from: usize, to: usize)
    requires { from < to → length spans.old.items < vec_capacity spans.old }
    ensures items { spans.new.items ≡ spans.old.items ++ spans_between from to }
    ensures count { 2 * length spans.new.items ≤ 2 * length spans.old.items + (to + 1 - from) }
    ensures room { vec_capacity spans.old ≤ vec_capacity spans.new }
{
    if from < to && spans.push(Span { from, to }).is_err() {
        unreachable!()
    }
}

#[cfg(test)]
mod tests {
    use super::*;
    use std::test::Fail;

    #[test]
    fn words_by_their_places(rt: HostRuntime) -> Result<(), Fail> {
        let spans = words_of(rt.alloc(), b"  read 1  7 ")?.ok_or("bad")?;
        let places = [(2, 6), (7, 8), (10, 11)].map(|(from, to)| Span { from, to });
        assert_eq!(rt; spans.as_slice(), places.as_slice());
        Ok(())
    }

    #[test]
    fn bytes_of_lines(rt: HostRuntime) -> Result<(), Fail> {
        let lines: [(&[u8], Option<usize>); 7] = [
            (b"", Some(0)),
            (b"   ", Some(0)),
            (b"~", Some(1)),
            (b"set 3.5 2 9", Some(4)),
            (b"set\t3.5", None),
            (b"# \x7f", None),
            (b"caf\xc3\xa9", None),
        ];
        for (line, count) in lines {
            let found = words_of(rt.alloc(), line)?;
            assert_eq!(rt; found.map(|spans| spans.len()), count);
        }
        Ok(())
    }
}
