ghost use Rattle.std.specs.Prelude.{◌≡◌, ◌<◌, ◌≤◌, ◌+◌, ◌*◌, ◌^◌, length};
ghost use Rattle.std.specs.Option.{SomeIff};
ghost use Rattle.smc_lines.specs.Numbers.{number_of};

use crate::limits::ZERO_DIGIT;

// The number with one more digit behind it, where it fits.
fn then_digit(value: u64, digit: u8) -> Option<u64>
    ensures { SomeIff result (10 * value + digit < 2 ^ 64) (10 * value + digit) }
{
    value.checked_mul(10)?.checked_add(u64::from(digit))
}

/// The number that a word of decimal digits spells, where it is at most so much. Leading zeros count for nothing.
pub fn read_number(word: &str, most: u64) -> Option<u64>
    ensures { result ≡ number_of most word.now }
{
    let digits = word.as_bytes();
    if digits.is_empty() {
        return None;
    }
    let mut value = 0;
    for digit in digits {
        if !digit.is_ascii_digit() {
            return None;
        }
        match then_digit(value, *digit - ZERO_DIGIT) {
            Some(more) => value = more,
            None => return None,
        }
    }
    if value > most {
        return None;
    }
    Some(value)
}

#[cfg(test)]
mod tests {
    use super::*;

    #[test]
    fn numbers_fit_their_bound(rt: HostRuntime) {
        let cases = [
            ("0", 0, Some(0)),
            ("007", 7, Some(7)),
            ("8", 7, None),
            ("4294967295", 4_294_967_295, Some(4_294_967_295)),
            ("4294967296", 4_294_967_295, None),
            ("00018446744073709551615", u64::MAX, Some(u64::MAX)),
            ("18446744073709551616", u64::MAX, None),
            ("99999999999999999999999", u64::MAX, None),
            ("", 9, None),
            ("-1", 9, None),
            ("+1", 9, None),
            ("1 ", 9, None),
            ("0x1", 9, None),
        ];
        for (word, most, number) in cases {
            assert_eq!(rt; read_number(word, most), number, "at {word}");
        }
    }
}
