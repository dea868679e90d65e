//! The numbers that a field spells.
ghost use Rattle.std.specs.Prelude.{◌≡◌, ◌≢◌, ◌≤◌, ◌<◌, ℕ, ℤ, pos, neg_ℤ, ◌^◌, List, ◌∷◌, IfSome, IfNone};
ghost use Rattle.smc_tbl.specs.Fields.{IsDigits, SpellsAmount, SpellsCount, SpellsHundredths, SpellsRate, decimal_value, hundredths};

use crate::bytes::split_at_byte;

/// How many digits a count has at most.
pub const COUNT_DIGITS: usize = 12;

/// How many digits an amount has at most before the point.
pub const AMOUNT_DIGITS: usize = 10;

/// How many digits a rate has before the point.
pub const RATE_DIGITS: usize = 1;

/// How many decimals an amount or a rate has at most.
pub const DECIMALS: usize = 2;

/// The digit of value 0; the others follow it.
pub const ZERO_DIGIT: u8 = b'0';

/// What stands between a number and its decimals.
pub const POINT: u8 = b'.';

/// What stands before an amount below 0.
pub const MINUS: u8 = b'-';

/// The number of one to so many digits.
fn read_digits(digits: &[u8], most: usize) -> Option<u64>
    requires { most ≤ COUNT_DIGITS }
    ensures some { IfSome result (λ value. value ≡ decimal_value digits.now) }
    ensures digits { IfSome result (λ _. IsDigits 1 most digits.now) }
    ensures small { IfSome result (λ value. value < 10 ^ most) }
    ensures none { IfNone result (¬ IsDigits 1 most digits.now) }
{
    if digits.is_empty() || digits.len() > most {
        return None;
    }
    let mut value = 0;
    for digit in digits {
        if !digit.is_ascii_digit() {
            return None;
        }
        value = 10 * value + u64::from(*digit - ZERO_DIGIT);
    }
    Some(value)
}

/// The count that a field spells.
pub fn read_count(text: &[u8]) -> Option<i64>
    ensures some { IfSome result (SpellsCount text.now) }
    ensures none { IfNone result ((count : ℤ) → ¬ SpellsCount text.now count) }
{
    Some(read_digits(text, COUNT_DIGITS)? as i64)
}

/// The hundredths that one or two decimals spell.
fn read_decimals(decimals: &[u8]) -> Option<u64>
    ensures some { IfSome result (λ value. value ≡ hundredths decimals.now) }
    ensures digits { IfSome result (λ _. IsDigits 1 DECIMALS decimals.now) }
    ensures small { IfSome result (λ value. value < 1000) }
    ensures none { IfNone result (¬ IsDigits 1 DECIMALS decimals.now) }
{
    let value = read_digits(decimals, DECIMALS)?;
    if decimals.len() == 1 {
        return Some(10 * value);
    }
    Some(value)
}

/// The hundredths that a field spells, with at most so many digits before the point.
fn read_hundredths(text: &[u8], most: usize) -> Option<u64>
    requires { most ≤ AMOUNT_DIGITS }
    ensures some { IfSome result (SpellsHundredths most text.now) }
    ensures small { IfSome result (λ value. value < 2 ^ 50) }
    ensures none { IfNone result ((value : ℕ) → ¬ SpellsHundredths most text.now value) }
{
    let Some((whole, decimals)) = split_at_byte(text, POINT) else {
        return Some(100 * read_digits(text, most)?);
    };
    let whole = read_digits(whole, most)?;
    let decimals = read_decimals(decimals)?;
    Some(100 * whole + decimals)
}

/// The bytes behind a minus.
fn without_minus(text: &[u8]) -> Option<&[u8]>
    ensures some { IfSome result (λ number. text.now ≡ MINUS ∷ number.now) }
    ensures none { IfNone result ((number : List ℕ) → text.now ≢ MINUS ∷ number) }
{
    match text {
        [MINUS, number @ ..] => Some(number),
        _ => None,
    }
}

/// The number as far below 0.
fn below_zero(units: u64) -> i64
    requires { units < 2 ^ 50 }
    ensures { result ≡ neg_ℤ (pos units) }
{
    -(units as i64)
}

/// The hundredths of the amount that a field spells.
pub fn read_amount(text: &[u8]) -> Option<i64>
    ensures some { IfSome result (SpellsAmount text.now) }
    ensures none { IfNone result ((amount : ℤ) → ¬ SpellsAmount text.now amount) }
{
    match without_minus(text) {
        Some(number) => Some(below_zero(read_hundredths(number, AMOUNT_DIGITS)?)),
        None => Some(read_hundredths(text, AMOUNT_DIGITS)? as i64),
    }
}

/// The hundredths of the rate that a field spells.
pub fn read_rate(text: &[u8]) -> Option<i64>
    ensures some { IfSome result (SpellsRate text.now) }
    ensures none { IfNone result ((rate : ℤ) → ¬ SpellsRate text.now rate) }
{
    Some(read_hundredths(text, RATE_DIGITS)? as i64)
}
