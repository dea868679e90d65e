//! Dates of the civil calendar.
ghost use Rattle.std.specs.Prelude.{◌≡◌, ◌≤◌, ◌+◌, ◌<◌, ◌^◌, true, length, take, drop, MatchOption};
ghost use Rattle.std.specs.Char.{is_ascii_digit};
ghost use Rattle.std.specs.List.{list_all};
ghost use Rattle.std.specs.Str.Parse.{digits_value};
ghost use Rattle.smc_tokens.specs.Front.{NoFront, Finds};
ghost use Rattle.smc_tokens.specs.Tokens.{is_leap_year, days_in_month, is_civil, is_date, has_date_form};

use crate::Token;
use crate::bytes::DASH;
use crate::digits::{are_digits, digits_onto};
use crate::found::Found;

// Bytes of a date.
const DATE: usize = 10;

/// The date that the text begins with.
pub fn read_date(text: &[u8]) -> Option<Found>
    ensures { MatchOption result (NoFront is_date text.now) (Finds text.now) }
{
    if text.len() < DATE {
        return None;
    }
    let (front, _) = text.split_at(DATE);
    if !has_date_form(front) {
        return None;
    }
    let year = digits_at(front, 0, 4);
    let month = digits_at(front, 5, 2);
    let day = digits_at(front, 8, 2);
    if !is_civil(year, month, day) {
        return None;
    }
    Some(Found {
        token: Token::Date { year, month, day },
        len: DATE,
    })
}

fn is_leap_year(year: u32) -> bool
    ensures { result ≡ is_leap_year year }
{
    year % 4 == 0 && (year % 100 != 0 || year % 400 == 0)
}

fn days_in_month(year: u32, month: u32) -> u32
    ensures { result ≡ days_in_month year month }
{
    match month {
        2 if is_leap_year(year) => 29,
        2 => 28,
        4 | 6 | 9 | 11 => 30,
        1..=12 => 31,
        _ => 0,
    }
}

fn is_civil(year: u32, month: u32, day: u32) -> bool
    ensures { result ≡ is_civil year month day }
{
    day != 0 && day <= days_in_month(year, month)
}

// Four digits, a dash, two digits, a dash and two digits.
fn has_date_form(text: &[u8]) -> bool
    ensures { result ≡ has_date_form text.now }
{
    match text {
        [a, b, c, d, e, f, g, h, i, j] => {
            are_digits(&[*a, *b, *c, *d, *f, *g, *i, *j]) & ((*e == DASH) & (*h == DASH))
        }
        _ => false,
    }
}

// The number that so many digits of the text spell, from a byte on.
fn digits_at(text: &[u8], from: usize, count: usize) -> u32
    requires within { from + count ≤ length text.now }
    requires few { count ≤ 4 }
    requires digits { list_all is_ascii_digit (take count (drop from text.now)) ≡ true }
    ensures value { result ≡ digits_value 10 (take count (drop from text.now)) }
{
    let (_, behind) = text.split_at(from);
    let (digits, _) = behind.split_at(count);
    digits_onto(0, digits) as u32
}
