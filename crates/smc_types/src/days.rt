ghost use Rattle.std.specs.Prelude.{◌≡◌, ◌<◌, ◌≤◌, ◌∷◌, [], ◌↔◌, ℤ, ℕ, pos, Some, IsSome, IfSome};
ghost use Rattle.smc_types.specs.Calendar.{IsDate, day_number};
ghost use Rattle.smc_types.specs.Days.{digits, date_text, SpellsDay, IsDay};

use crate::number::{DAY_MAX, DAY_MIN};
use jiff::civil::Date;

/// The last year that has four digits.
pub const YEAR_MAX: u16 = 9999;

/// The months of a year.
const MONTH_MAX: u32 = 12;

/// The days of the longest month.
const MONTH_DAYS: u32 = 31;

/// Bytes of the text of a day.
const DAY_BYTES: usize = 10;

/// What stands between year, month and day.
pub const DASH: u8 = b'-';

/// The digit of 0; the others follow it.
pub const ZERO_DIGIT: u8 = b'0';

/// A date by its parts, each counted from 1 but the year.
#[derive(Clone, Copy)]
pub struct CivilDate {
    pub year: u16,
    pub month: u8,
    pub day: u8,
}

/// The day that a text `YYYY-MM-DD` says, in days from 1970-01-01. None where it says no day of the years 0000 to 9999.
pub fn read_day(text: &[u8]) -> Option<i32>
    ensures some { IfSome result (SpellsDay text.now) }
    ensures only { (day : ℤ) → SpellsDay text.now day → result ≡ Some day }
{
    if text.len() != DAY_BYTES || text[4] != DASH || text[7] != DASH {
        return None;
    }
    let century = read_digits(text[0], text[1])?;
    let year = read_digits(text[2], text[3])?;
    let month = read_digits(text[5], text[6])?;
    let day = read_digits(text[8], text[9])?;
    number_of_date(CivilDate {
        year: u16::from(century) * 100 + u16::from(year),
        month,
        day,
    })
}

/// The number of a date in days from 1970-01-01. None where the calendar has no such date in the years 0000 to 9999.
pub fn day_of_date(year: u32, month: u32, day: u32) -> Option<i32>
    ensures some { IfSome result (λ number. number ≡ day_number (record { year = year; month = month; day = day })) }
    ensures is { IsSome result ↔ IsDate (record { year = year; month = month; day = day }) }
{
    if year > u32::from(YEAR_MAX) || month > MONTH_MAX || day > MONTH_DAYS {
        return None;
    }
    number_of_date(CivilDate {
        year: year as u16,
        month: month as u8,
        day: day as u8,
    })
}

/// The text `YYYY-MM-DD` of a day. None outside the years 0000 to 9999.
pub fn day_text(day: i32) -> Option<[u8; 10]>
    ensures some { IfSome result (λ text. SpellsDay text day) }
    ensures inside { IsSome result ↔ IsDay day }
{
    if day < DAY_MIN || day > DAY_MAX {
        return None;
    }
    Some(text_of_date(date_of_day(day)))
}

/// The number of two digits.
fn read_digits(tens: u8, ones: u8) -> Option<u8>
    ensures some { IfSome result (λ number. tens ∷ ones ∷ [] ≡ digits number) }
    ensures small { IfSome result (λ number. number < 100) }
    ensures only { (number : ℕ) → number < 100
        → tens ∷ ones ∷ [] ≡ digits number → result ≡ Some number }
{
    if !tens.is_ascii_digit() || !ones.is_ascii_digit() {
        return None;
    }
    Some((tens - ZERO_DIGIT) * 10 + (ones - ZERO_DIGIT))
}

/// The number of a date, where the calendar has it.
fn number_of_date(date: CivilDate) -> Option<i32>
    requires year { date.year ≤ YEAR_MAX }
    requires month { date.month < 100 }
    requires day { date.day < 100 }
    ensures some { IfSome result (λ day. day ≡ day_number date) }
    ensures is { IsSome result ↔ IsDate date }
{
    match Date::new(date.year as i16, date.month as i8, date.day as i8) {
        Ok(civil) => Some(civil.to_plain().to_unix_epoch_day()),
        Err(_) => None,
    }
}

/// The date of a day.
fn date_of_day(day: i32) -> CivilDate
    requires { IsDay day }
    ensures date { IsDate result }
    ensures number { day_number result ≡ day }
{
    match jiff_core::civil::Date::from_unix_epoch_day(i64::from(day)) {
        Ok(civil) => CivilDate {
            year: civil.year as u16,
            month: civil.month,
            day: civil.day,
        },
        Err(_) => unreachable!(),
    }
}

/// The text of a date.
fn text_of_date(date: CivilDate) -> [u8; 10]
    requires { IsDate date }
    ensures { result ≡ date_text date }
{
    let century = (date.year / 100) as u8;
    let year = (date.year % 100) as u8;
    [
        ZERO_DIGIT + century / 10,
        ZERO_DIGIT + century % 10,
        ZERO_DIGIT + year / 10,
        ZERO_DIGIT + year % 10,
        DASH,
        ZERO_DIGIT + date.month / 10,
        ZERO_DIGIT + date.month % 10,
        DASH,
        ZERO_DIGIT + date.day / 10,
        ZERO_DIGIT + date.day % 10,
    ]
}
