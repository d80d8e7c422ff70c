ghost use Rattle.std.specs.Prelude.{◌≡◌, ◌+◌, ◌-◌, ◌*◌, ◌^◌, ◌≤◌, true, MatchOption};
ghost use Rattle.std.specs.Char.{is_ascii_digit};
ghost use Rattle.casper_text.specs.Number.{begins_as_number, number_below, number_of};

/// The number that a word writes: decimal digits without a sign and without leading zeros, except
/// `0` itself. None where the word is of another form or the number is 2^64 or more. It takes no
/// memory.
pub fn number(word: &[u8]) -> Option<u64>
    ensures { result ≡ number_of word.now }
{
    if !begins_as_number(word) {
        return None;
    }
    let mut value = 0;
    for byte in word {
        value = with_digit(value, *byte)?;
    }
    Some(value)
}

/// The number with one digit more. None where the byte is no digit, or the number would be 2^64 or more.
fn with_digit(value: u64, byte: u8) -> Option<u64>
    ensures { MatchOption result
        (is_ascii_digit byte ≡ true → 2 ^ 64 ≤ value * 10 + (byte - 48))
        (λ more. (is_ascii_digit byte ≡ true) × (more ≡ value * 10 + (byte - 48))) }
{
    if !byte.is_ascii_digit() {
        return None;
    }
    value.checked_mul(10)?.checked_add(u64::from(byte - b'0'))
}

/// The number below 2^32 that a word writes, as `number` reads it. It takes no memory.
pub fn small_number(word: &[u8]) -> Option<u32>
    ensures { result ≡ number_below (2 ^ 32) word.now }
{
    u32::try_from(number(word)?).ok()
}

/// Tells whether a word is `0` itself, or begins with another digit.
fn begins_as_number(word: &[u8]) -> bool
    ensures { result ≡ begins_as_number word.now }
{
    match word {
        [] => false,
        [first, rest @ ..] => {
            (b'1'..=b'9').contains(first) || (*first == b'0' && rest.is_empty())
        }
    }
}

#[cfg(test)]
mod tests {
    use super::*;

    #[test]
    fn forms_of_numbers(rt: HostRuntime) {
        let forms: [(&[u8], Option<u64>); 11] = [
            (b"0", Some(0)),
            (b"7", Some(7)),
            (b"4096", Some(4096)),
            (b"18446744073709551615", Some(u64::MAX)),
            (b"18446744073709551616", None),
            (b"", None),
            (b"00", None),
            (b"07", None),
            (b"+7", None),
            (b"-7", None),
            (b"7a", None),
        ];
        for (word, value) in forms {
            assert_eq!(rt; number(word), value);
        }
    }

    #[test]
    fn forms_of_small_numbers(rt: HostRuntime) {
        assert_eq!(rt; small_number(b"4294967295"), Some(u32::MAX));
        assert_eq!(rt; small_number(b"4294967296"), None);
    }
}
