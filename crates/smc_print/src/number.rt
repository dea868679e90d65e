//! Numbers and dates behind what is there.
ghost use Rattle.std.specs.Prelude.{◌≡◌, ◌++◌, ◌/◌, ◌%◌, ◌^◌, OnOk, decimal};
ghost use Rattle.std.specs.String.{string_bytes};
ghost use Rattle.smc_print.specs.TokenText.{last_digits, fraction_text, number_text, date_text};

use itoa::Buffer;
use smc_words::NoMemory;

/// Puts so many units behind what is there, with their decimals.
pub fn push_number(text: &mut String, units: u64, decimals: u32) -> Result<(), NoMemory>
    ensures { OnOk result (string_bytes text.new ≡ string_bytes text.old ++ number_text units decimals) }
{
    push_decimal(text, without_last(units, decimals))?;
    push_fraction(text, units, decimals)
}

/// Puts a date behind what is there.
pub fn push_date(text: &mut String, year: u32, month: u32, day: u32) -> Result<(), NoMemory>
    ensures { OnOk result (string_bytes text.new ≡ string_bytes text.old ++ date_text year month day) }
{
    push_last_digits(text, u64::from(year), 4)?;
    text.push_str("-")?;
    push_last_digits(text, u64::from(month), 2)?;
    text.push_str("-")?;
    push_last_digits(text, u64::from(day), 2)
}

// Puts the point and the decimals behind what is there, where there are any.
fn push_fraction(text: &mut String, units: u64, decimals: u32) -> Result<(), NoMemory>
    ensures { OnOk result (string_bytes text.new ≡ string_bytes text.old ++ fraction_text units decimals) }
{
    if decimals == 0 {
        return Ok(());
    }
    text.push_str(".")?;
    push_last_digits(text, units, decimals)
}

// Puts the last so many digits of a number behind what is there.
#[tactic(auto, unfolding(crate::specs::TokenText::last_digits))]
fn push_last_digits(text: &mut String, number: u64, count: u32) -> Result<(), NoMemory>
    ensures { OnOk result (string_bytes text.new ≡ string_bytes text.old ++ last_digits count number) }
{
    let mut place = count;
    while place > 0 {
        place -= 1;
        push_decimal(text, without_last(number, place) % 10)?;
    }
    Ok(())
}

// Puts a number behind what is there.
fn push_decimal(text: &mut String, number: u64) -> Result<(), NoMemory>
    ensures { OnOk result (string_bytes text.new ≡ string_bytes text.old ++ decimal number) }
{
    let mut buffer = Buffer::new();
    text.push_str(buffer.format(number))?;
    Ok(())
}

// A number without its last digits.
fn without_last(number: u64, count: u32) -> u64
    ensures { result ≡ number / 10 ^ count }
{
    match 10u64.checked_pow(count) {
        Some(power) => number / power,
        None => 0,
    }
}
