//! Numbers: digits, then nothing or a point with digits.
ghost use Rattle.std.specs.Prelude.{◌≡◌, ◌≤◌, ◌+◌, ◌<◌, true, length, slice_index};
ghost use Rattle.std.specs.Char.{is_ascii_digit};
ghost use Rattle.std.specs.List.{list_all};
ghost use Rattle.smc_tokens.specs.Front.{NoFront, Finds, decimals_in, first_digits, fraction_len};
ghost use Rattle.smc_tokens.specs.Tokens.{is_date};

use crate::bytes::{POINT, digit_run};
use crate::digits::digits_onto;
use crate::found::Found;
use crate::limits::{MAX_DECIMALS, MAX_DIGITS};
use crate::token::Token;

/// The number that the text begins with; its longest front that is one.
pub fn read_number(text: &[u8]) -> Found
    requires digit { is_ascii_digit (slice_index text.now 0) ≡ true }
    requires no_date { NoFront is_date text.now }
    ensures { Finds text.now result }
{
    let whole = first_digits(text, MAX_DIGITS);
    let (_, behind) = text.split_at(whole.len());
    let decimals = decimals_in(behind);
    Found {
        token: Token::Number {
            units: digits_onto(digits_onto(0, whole), decimals),
            decimals: decimals.len() as u32,
        },
        len: whole.len() + fraction_len(decimals),
    }
}

// The decimals that stand behind a point at the front, as many as a number may have.
fn decimals_in(behind: &[u8]) -> &[u8]
    ensures value { result.now ≡ decimals_in behind.now }
    ensures digits { list_all is_ascii_digit result.now ≡ true }
    ensures few { length result.now ≤ MAX_DECIMALS }
{
    match behind {
        [POINT, digits @ ..] => first_digits(digits, MAX_DECIMALS),
        _ => &[],
    }
}

// How many bytes the decimals take with their point, which stands only before decimals.
fn fraction_len(decimals: &[u8]) -> usize
    requires { length decimals.now ≤ MAX_DECIMALS }
    ensures { result ≡ fraction_len decimals.now }
{
    if decimals.is_empty() {
        0
    } else {
        1 + decimals.len()
    }
}

// The digits that the text begins with, at most so many.
fn first_digits(text: &[u8], most: usize) -> &[u8]
    ensures value { result.now ≡ first_digits most text.now }
    ensures digits { list_all is_ascii_digit result.now ≡ true }
    ensures few { length result.now ≤ most }
    ensures within { length result.now ≤ length text.now }
{
    let (digits, _) = text.split_at(digit_run(text).min(most));
    digits
}
