//! A column of an answer, and its text.
ghost use Rattle.std.specs.Prelude.{◌≡◌, ◌++◌, ◌≤◌, ◌<◌, ◌^◌, IfOk, OnErr, OnOk, decimal};
ghost use Rattle.smc_types.specs.Days.{IsDay};
ghost use Rattle.smc_plan.specs.declared.kind.TheConstants.{MAX_SCALE};
ghost use Rattle.smc_meaning.specs.Cells.{CanPrint, IsOfText, cell_seen, column_seen};
ghost use Rattle.smc_meaning.specs.Dates.{day_text};
ghost use Rattle.smc_meaning.specs.Printed.{column_text, decimals_text, last_digits, number_text};

use crate::Decimal;
use itoa::Buffer;
use smc_types::day_text;
use smc_words::NoMemory;
use std::alloc::Global;
use std::marker::Model;

/// The digit of 0; the others follow it.
const ZERO_DIGIT: u8 = b'0';

/// What stands between a number and its decimals.
const POINT: u8 = b'.';

/// What stands before a number below 0.
const MINUS: u8 = b'-';

/// The text of a column that has no value.
const NONE: &[u8] = b"none";

/// A text of an answer. Contracts see its bytes.
#[derive(Debug, Drop)]
pub struct ShownText {
    bytes: Vec<u8>,
}

impl Model for ShownText {
    ghost use Rattle.std.specs.Prelude.{List, ℕ};

    ghost Value = { List ℕ };

    ghost view = { λ text. text.bytes.items };
}

impl ShownText {
    /// A text from its bytes, which takes no memory.
    pub fn of(bytes: Vec<u8>) -> ShownText
        ensures { result ≡ bytes.items }
    {
        ShownText { bytes }
    }

    /// Its bytes.
    pub fn as_slice(&self) -> &[u8]
        ensures { result.now ≡ self.now }
    {
        self.bytes.as_slice()
    }
}

/// The value of a column of an answer.
#[derive(Debug, Drop)]
pub enum Cell {
    Number(Decimal),
    /// Days from 1970-01-01.
    Day(i32),
    Text(ShownText),
}

impl Cell {
    /// The same value. Only a text takes memory.
    pub fn copy(&self, alloc: Global) -> Result<Cell, NoMemory>
        ensures done { IfOk result (λ cell. cell_seen cell ≡ cell_seen self.now) }
        ensures cause { OnErr result (IsOfText (cell_seen self.now)) }
    {
        match self {
            Cell::Number(number) => Ok(Cell::Number(*number)),
            Cell::Day(day) => Ok(Cell::Day(*day)),
            Cell::Text(text) => {
                let bytes = Vec::from_slice(alloc, text.as_slice())?;
                Ok(Cell::Text(ShownText::of(bytes)))
            }
        }
    }
}

/// Puts the text of a column behind what is there.
pub(crate) fn print_column(text: &mut Vec<u8>, column: &Option<Cell>) -> Result<(), NoMemory>
    requires { CanPrint (column_seen column.now) }
    ensures { OnOk result (text.new.items ≡ text.old.items ++ column_text (column_seen column.now)) }
{
    match column {
        Some(Cell::Number(number)) => print_number(text, *number),
        Some(Cell::Day(day)) => print_day(text, *day),
        Some(Cell::Text(bytes)) => Ok(text.extend_from_slice(bytes.as_slice())?),
        None => Ok(text.extend_from_slice(NONE)?),
    }
}

// Puts the text of a day behind what is there.
fn print_day(text: &mut Vec<u8>, day: i32) -> Result<(), NoMemory>
    requires { IsDay day }
    ensures { OnOk result (text.new.items ≡ text.old.items ++ day_text day) }
{
    match day_text(day) {
        Some(bytes) => Ok(text.extend_from_slice(&bytes)?),
        None => unreachable!(),
    }
}

// Puts a number with its decimals behind what is there.
fn print_number(text: &mut Vec<u8>, number: Decimal) -> Result<(), NoMemory>
    requires { number.scale ≤ MAX_SCALE }
    ensures { OnOk result (text.new.items ≡ text.old.items ++ number_text number.units number.scale) }
{
    if number.units < 0 {
        text.push(MINUS)?;
    }
    let one = u128::from(10u64.pow(number.scale));
    let size = number.units.unsigned_abs();
    print_whole(text, size / one)?;
    print_decimals(text, number.scale, (size % one) as u64)
}

// Puts a number without decimals behind what is there.
pub(crate) fn print_whole(text: &mut Vec<u8>, number: u128) -> Result<(), NoMemory>
    ensures { OnOk result (text.new.items ≡ text.old.items ++ decimal number) }
{
    let mut buffer = Buffer::new();
    text.extend_from_slice(buffer.format(number).as_bytes())?;
    Ok(())
}

// Puts the point and so many decimals behind what is there, and nothing where there are none.
fn print_decimals(text: &mut Vec<u8>, scale: u32, units: u64) -> Result<(), NoMemory>
    ensures { OnOk result (text.new.items ≡ text.old.items ++ decimals_text scale units) }
{
    if scale > 0 {
        text.push(POINT)?;
    }
    print_digits(text, scale, units)
}

// Puts so many of the last digits of a number behind what is there.
fn print_digits(text: &mut Vec<u8>, count: u32, number: u64) -> Result<(), NoMemory>
    ensures { OnOk result (text.new.items ≡ text.old.items ++ last_digits count number) }
{
    if count > 0 {
        print_digits(text, count - 1, number / 10)?;
        text.push(ZERO_DIGIT + (number % 10) as u8)?;
    }
    Ok(())
}
